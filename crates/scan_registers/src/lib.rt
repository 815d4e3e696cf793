//! One device of a scan chain, edge by edge (IEEE Std 1149.1-2001, clauses 4, 6 to 12), round any boundary register.
#![tactic(auto)]

mod chip;
mod link;
mod same;

pub use chip::Chip;
pub use chip_instructions::{Mode, Selected, SharedDevice, is_formed};
pub use chip_registers::{Plain, Register, UserRegister, WordRegister};
pub use link::{Link, WordLink};
pub use same::same_bits;
