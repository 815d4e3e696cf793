//! What statements of the Serial Vector Format set for each other, and the program that they are.
#![tactic(auto)]

mod laws;
mod reading;
mod refusing;
mod resolving;
mod run_test;
mod running;
mod stepping;
mod texts;

pub use laws::{
    accepted_programs_are_sound, changes_tell_the_period, cycles_are_least, programs_are_limited,
    running_is_looking_back, statements_resolve_once, the_lowest_refusal_is_told,
};
pub use resolving::resolve;
pub use svf_programs::{Action, Program, Step};
pub use texts::resolve_text;
