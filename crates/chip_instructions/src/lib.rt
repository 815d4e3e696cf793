//! What the instruction in a latch does, from a device's description (IEEE Std 1149.1-2001, clauses 7 and 8); what a
//! chip asks of its description, and how several chips share one.
#![tactic(auto)]

mod decoding;
mod formed;
mod opcode_table;
mod shared;
mod start;

pub use bsdl_device::{Bits, Cell, Device};
pub use decoding::{Decoded, Fixed, decode, fixed_bits, instruction_of};
pub use formed::is_formed;
pub use shared::SharedDevice;
pub use start::{code_length, has_code, reset_latch};

/// How an instruction drives the pins.
#[derive(Debug, Clone, Copy, PartialEq, Eq)]
pub enum Mode {
    /// The boundary's update stage drives, and a capture may take it.
    Extest,
    /// The boundary's update stage drives.
    Clamp,
    /// No port drives.
    HighZ,
    /// The core drives.
    Core,
}

/// The data register between TDI and TDO.
#[derive(Debug, Clone, Copy, PartialEq, Eq)]
pub enum Selected {
    /// One bit (clause 10).
    Bypass,
    /// The 32 bits of a code (clause 12).
    Identification,
    /// A cell for each row of the description (clause 11).
    Boundary,
    /// A register of the device's own, counted in the order in which the description first names them.
    User(usize),
}
