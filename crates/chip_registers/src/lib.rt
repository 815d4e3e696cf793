//! The registers of one device (IEEE Std 1149.1-2001, clauses 7 and 9 to 12): the boundary register, as a chip needs
//! it, the user registers, and all data registers together, of which an instruction selects one.
#![tactic(auto)]

mod data;
mod plain;
mod register;
mod users;

pub use chip_instructions::{Mode, SharedDevice};
pub use data::DataRegisters;
pub use plain::Plain;
pub use register::{Register, WordRegister};
pub use users::UserRegister;
