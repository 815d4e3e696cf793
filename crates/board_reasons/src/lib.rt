//! Where a bit that fails came from: which register of which device held it, or that it went in at TDI, and the line
//! that says so.
#![tactic(auto)]

mod finding;
mod origins;
mod vectors;
mod words;
mod writing;

pub use board_chain::Chain;
pub use finding::{holder_of, origin_of, reason_of};
pub use origins::{Captured, Holder, NetLevel, Origin, Reason, SelectedBy};
pub use vectors::{is_same_part, place_in, wanted_at};
pub use writing::{write_reason, write_wanted};
