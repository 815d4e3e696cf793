//! What stands within the quotes of the attributes of instructions (BSDL: IEEE Std 1149.1-2001, Annex B.8.11 to
//! B.8.13): opcodes, patterns, names and registers.
pub(crate) mod names;
pub(crate) mod pattern_lists;
pub(crate) mod patterns;

pub use names::{AccessRow, Instr, OpcodeRow, PrivateName};
pub use pattern_lists::{PatternIter, Patterns};
pub use patterns::WrittenPattern;
