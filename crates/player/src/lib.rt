//! The player of a program: it gives out the bytes of the play and takes the answers, and keeps none of them.
#![tactic(auto)]

mod findings;
mod giving;
mod hearing;
mod pieces;
mod player;
mod progress;
mod shown;
mod telling;
mod word_ahead;

pub use player::Player;
pub use scan_vectors::{Failures, Mismatch};
