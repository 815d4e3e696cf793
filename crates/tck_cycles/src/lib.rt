//! The cycles of TCK of a step, one after another.
//!
//! A source takes no memory: a run of four thousand million cycles is a count, and a scan works out each bit from its
//! vector.
#![tactic(auto)]

mod cycle;
mod middle;
mod place;
mod shifts;
mod source;

pub use bitbang_protocol::Cycle;
pub use place::place_after;
pub use shifts::Shifts;
pub use source::{Source, Spot};
pub use svf_programs::{Action, Step, TrstWord};
