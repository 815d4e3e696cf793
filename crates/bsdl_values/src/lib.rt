//! What the attributes of a device description say: ports, numbers, and texts in the languages within quotes, which are
//! opcodes, patterns, names and registers, and the rows of a boundary register (BSDL: IEEE Std 1149.1-2001, Annex B.8.9
//! to B.8.14).
#![tactic(auto)]

pub use cells::{CellRow, Controlling, PortName};

mod cells;
mod instructions;
mod keywords;
mod passing;
mod values;

pub use instructions::{
    AccessRow, Instr, OpcodeRow, PatternIter, Patterns, PrivateName, WrittenPattern,
};
pub use passing::{brackets, past_semi};
pub use values::{Language, Quoted, Value, Written, read_value, said};

/// An attribute that says something of a device.
#[derive(Debug, Clone, Copy, PartialEq, Eq)]
pub enum Attribute {
    /// The port TDI (B.8.9).
    TapScanIn,
    /// The port TDO (B.8.9).
    TapScanOut,
    /// The port TMS (B.8.9).
    TapScanMode,
    /// The port TCK (B.8.9).
    TapScanClock,
    /// The port TRST*, if there is one (B.8.9).
    TapScanReset,
    /// How many bits the instruction register has (B.8.11).
    InstructionLength,
    /// How many cells the boundary register has (B.8.14).
    BoundaryLength,
    /// The opcodes of each instruction (B.8.11).
    InstructionOpcode,
    /// What the instruction register captures (B.8.11).
    InstructionCapture,
    /// The cells of the boundary register (B.8.14).
    BoundaryRegister,
    /// The identification codes (B.8.12).
    IdcodeRegister,
    /// The user codes (B.8.12).
    UsercodeRegister,
    /// The instructions that are for their maker alone (B.8.11).
    InstructionPrivate,
    /// The register that each instruction selects, and what it captures (B.8.13).
    RegisterAccess,
}
