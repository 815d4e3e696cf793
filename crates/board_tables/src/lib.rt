//! What stands in the text of a board file: which keys its tables have and which values fit them, what names, pins and
//! strings mean as they are written, which descriptions it names, and why it is refused.
#![tactic(auto)]

mod fault;
mod fields;
mod files;
mod follows;
mod keys;
mod laws;
mod names;
mod pins;
mod places;
mod tables;
mod values;
mod word_laws;

pub use fault::{BoardFault, told};
pub use fields::{BoardTable, Unfit, check_fields};
pub use files::{bad_toml_place, bsdl_names, distinct_files, names_of_table, read_table};
pub use follows::{FollowText, follow_of, target_text};
pub use keys::Known;
pub use laws::judged_by_other_keys;
pub use pins::{PinText, PortText, pin_of};
pub use places::Places;
pub use tables::{items_at, name_at, text_at};
pub use word_laws::{follows_are_read_as_spelt, pins_are_read_as_spelt, targets_are_as_spelt};
