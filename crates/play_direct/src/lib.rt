//! Every accepted program, played directly on a board: the opening edge by edge, and from then on each step on whole
//! registers, which leads where the bytes of the step lead.
#![tactic(auto)]

mod accepting;
mod beside;
mod laws;
mod noted;
mod playing;
mod stepping;
mod steps;

pub use accepting::accept;
pub use jt_board::{
    Board, BoardFault, Broken, BsdlFault, Counted, Level, Reply, Snapshot, board_table, bsdl_names,
    table_names, write_left_out, write_report,
};
pub use laws::texts_stay_accepted_within_larger_limits;
pub use noted::{play_program_all_noted, play_program_noted};
pub use playing::{play_program, play_program_all};
pub use stepping::{end_scan, play_opening, play_step};
