//! Which fault it is: what a log says of a play, and which single faults of a board's nets give just that.
#![tactic(auto)]

ghost use Rattle.play_diagnosis.specs.Rows.{LogRows};

mod diagnosing;
mod endings;
mod fitting;
mod lines;
mod reading;
mod refusing;

pub use diagnosing::write_diagnosis;
pub use fitting::TriedWay;
pub use lines::Line;
pub use reading::{LogFault, Said, read_log};
pub use refusing::refuse_log;

/// Logs, their refusals, and the lines of faults, worked out.
pub fn logs_compute()
    ensures { LogRows }
{}
