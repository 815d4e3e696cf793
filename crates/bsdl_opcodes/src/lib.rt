//! The opcodes and patterns of a device that is described, the one that a reset loads, which instructions are the
//! device's own, and the registers that they select (BSDL: IEEE Std 1149.1-2001, Annex B.8.11 to B.8.13).
#![tactic(auto)]

mod accesses;
mod own;
mod patterns;
mod reset_opcode;
mod users;

pub use accesses::accesses_of;
pub use own::own_accesses;
pub use patterns::{bits_of, code_of, opcodes_of, private_names_of};
pub use reset_opcode::resets_to_idcode;
pub use users::{Users, users_of};
