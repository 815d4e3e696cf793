//! What a test engineer needs to know of a board to write vectors for it, one fact a line: its devices from TDO on, of
//! each its core, ports, instructions and cells, then the nets, and where its registers lie in the joined ones.
#![tactic(auto)]

ghost use Rattle.board_description.specs.Covered.{TakesAsTheBoardDoes};
ghost use Rattle.board_description.specs.Rows.{DescribedRows};

mod blocks;
mod cells;
mod instructions;
mod nets;
mod opcodes;
mod registers;
mod settings;
mod text;
mod whole;
mod words;

pub use cells::net_name;
pub use nets::put_pin;
pub use whole::{Untold, write_description};
pub use words::function_word;

/// An opcode without an X is told as the board plays it: the instruction that takes it is that of its code.
pub fn opcodes_are_told_as_the_board_plays_them()
    ensures { TakesAsTheBoardDoes }
{}

/// A board of two devices, described.
pub fn describes()
    ensures { DescribedRows }
{}
