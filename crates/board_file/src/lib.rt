//! The board file: which devices are on a board, and how they are wired.
#![tactic(auto)]

mod board;
mod laws;
mod refused;
mod targets;
mod unfit;
mod wiring;

pub use board::{plan_of_table, plan_of_text};
pub use board_parts::{Describe, Unread};
pub use board_tables::{
    BoardFault, BoardTable, bad_toml_place, bsdl_names, names_of_table, read_table,
};
pub use laws::{boards_are_limited, no_strings_without_follow};
pub use pin_nets::Pin;
pub use refused::{Refused, unplaced};
pub use unfit::unfit_table;
