//! The captures of a program's run on a board, and what they tell of the board's faults: a way in which a fault may
//! show is caught at the first capture at which a wanted bit is another, as long as no bit that stays in a register is
//! another before. So one play of the board itself serves all its faults.
#![tactic(auto)]

mod captures;
mod differing;
mod drives;
mod laws;
mod marks;
mod nets;
mod notes;
mod noting;
mod numbers;
mod tables;
mod ways;

pub use captures::{Capture, Captures, start_play};
pub use differing::{Pulls, first_other, stays_other};
pub use laws::{
    captures_may_be_cut, captures_take_from_sources, events_compute, events_tell_of_faults,
    events_tell_of_runs, notes_tell_of_faults, notes_tell_of_ways,
};
pub use nets::{NetCapture, net_captures, net_ending, note_at, pulls_of, put_net_captures};
pub use notes::{Note, Spot};
pub use ways::{Block, block_of, way_ending};
