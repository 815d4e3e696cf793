//! Programs of steps, as they are kept beside the statements of the Serial Vector Format that they are made of.
#![tactic(auto)]

mod kept;
mod periods;
mod program;
mod step;

pub use kept::{Kept, KeptPart, KeptStep, len_at, path_at, tdi_at, tdo_at};
pub use periods::{DEFAULT_PERIOD, PeriodChange, Periods};
pub use program::{Program, Steps};
pub use step::{Action, Step};
pub use svf_parse::TrstWord;
