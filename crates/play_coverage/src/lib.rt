//! What a program would miss on a board: of each fault of its nets whether the program catches it, line by line, and on
//! which nets drivers disagree while it plays.
#![tactic(auto)]

ghost use Rattle.play_coverage.specs.Rows.{CoverRows};

mod contending;
mod covering;
mod judging;
mod outcomes;
mod tallies;
mod totals;
mod ways;
mod words;

pub use contending::{Contention, contentions};
pub use covering::write_cover;
pub use fault_serving::Outcome;
pub use judging::{Bench, bench_for, judge_fault};
pub use outcomes::FaultKind;

/// The lines of some faults, worked out.
pub fn covers_compute()
    ensures { CoverRows }
{}
