//! A simulated board of boundary-scan devices: IEEE Std 1149.1-2001, edge by edge.
//!
//! A board file and its descriptions make it, or it has bare devices. Laws tell what every board in use is, and that a
//! loop of strings by the numbers of nets is a circle of the nets.
#![tactic(auto)]

mod bare;
mod board;
mod circle_laws;
mod from_text;
mod laws;
mod report;
mod snapshot;

pub use bare::bare_plan;
pub use board::{Board, BoardFault};
pub use board_file::{BoardTable, Refused, unplaced};
pub use board_model::Reply;
pub use board_plan::Plan;
pub use bsdl::BsdlFault;
pub use byte_streams::{Broken, Counted};
pub use circle_laws::{loops_are_circles, no_loop_is_no_circle};
pub use from_text::{
    PlanFault, bad_toml_place, board_table, bsdl_names, plan_of_table, table_names, unfit_table,
};
pub use laws::{
    boards_stay_within_larger_limits, every_board_in_use_is_sound, every_device_read_is_formed,
    every_string_of_a_board_in_use_holds,
};
pub use pin_nets::Level;
pub use report::{write_left_out, write_report};
pub use snapshot::Snapshot;
