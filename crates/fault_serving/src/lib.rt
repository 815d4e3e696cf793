//! What one play of a program tells of the faults of a board: how the program ends on the board with each, wherever no
//! bit that stays in a register is another; and what faults are called. On it stand both what a program would miss and
//! which fault it is that a play found.
#![tactic(auto)]

ghost use Rattle.fault_serving.specs.Rows.{ServingRows};

mod listing;
mod planing;
mod serving;
mod sifting;
mod words;

pub use listing::{firsts_are_failures, may_list, others_are_told};
pub use planing::NoteWords;
pub use serving::{
    Chunk, Front, Planes, Serving, Telling, ending_on, next_chunk, serving_of, told_at, told_behind,
};
pub use sifting::{Counting, Counts, Outcome, Sifted, next_sifted};
pub use words::{put_fault, put_way};

/// What a bridge tells, worked out.
pub fn serving_computes()
    ensures { ServingRows }
{}
