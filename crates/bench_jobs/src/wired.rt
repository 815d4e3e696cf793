//! Descriptions of devices, and board files.

use crate::numbers::Numbers;
use crate::texts::Text;
use jt_player::Board;
use std::alloc::{AllocError, Global};

/// What every description begins with, up to its own ports.
const HEAD: &str = "entity W is
  port (TDI, TMS, TCK : in bit; TDO : out bit";

/// The attributes of the test access port.
const PORT_ATTRIBUTES: &str = ");
  attribute TAP_SCAN_IN of TDI : signal is true;
  attribute TAP_SCAN_MODE of TMS : signal is true;
  attribute TAP_SCAN_OUT of TDO : signal is true;
  attribute TAP_SCAN_CLOCK of TCK : signal is (10.0e6, BOTH);
";

/// Instructions of four bits, and an identification.
const INSTRUCTIONS: &str = "  attribute INSTRUCTION_LENGTH of W : entity is 4;
  attribute INSTRUCTION_OPCODE of W : entity is
    \"BYPASS (1111), EXTEST (0000), SAMPLE (0010), PRELOAD (0010), IDCODE (1000)\";
  attribute INSTRUCTION_CAPTURE of W : entity is \"0101\";
  attribute IDCODE_REGISTER of W : entity is \"0001\" & \"0100110001000100\" & \"00100100011\" & \"1\";
";

/// Begins a description: the TAP's ports.
pub fn add_head(text: &mut Text) -> Result<(), AllocError> {
    text.add(HEAD)
}

/// Adds a port of so many bits.
pub fn add_vector(text: &mut Text, name: &str, mode: &str, width: usize) -> Result<(), AllocError> {
    text.add("; ")?;
    text.add(name)?;
    text.add(" : ")?;
    text.add(mode)?;
    text.add(" bit_vector (0 to ")?;
    text.add_number(width.saturating_sub(1))?;
    text.add(")")
}

/// Ends the ports, and adds the instructions and the start of the boundary register, of so many cells.
pub fn add_middle(text: &mut Text, instructions: &str, cells: usize) -> Result<(), AllocError> {
    text.add(PORT_ATTRIBUTES)?;
    text.add(instructions)?;
    text.add("  attribute BOUNDARY_LENGTH of W : entity is ")?;
    text.add_number(cells)?;
    text.add(";\n  attribute BOUNDARY_REGISTER of W : entity is\n    \"\"")
}

/// The instructions that most devices have.
pub fn usual_instructions() -> &'static str {
    INSTRUCTIONS
}

/// Adds a cell of a vector's bit.
pub fn add_cell(
    text: &mut Text,
    cell: usize,
    name: &str,
    index: usize,
    function: &str,
) -> Result<(), AllocError> {
    text.add(" &\n    \"")?;
    text.add_number(cell)?;
    text.add(" (BC_1, ")?;
    text.add(name)?;
    text.add("(")?;
    text.add_number(index)?;
    text.add("), ")?;
    text.add(function)?;
    text.add("),\"")
}

pub fn add_tail(text: &mut Text) -> Result<(), AllocError> {
    text.add(";\nend W;\n")
}

/// Adds a device of a board file, `U` and its number, of the description `w`.
pub fn add_device(text: &mut Text, number: usize) -> Result<(), AllocError> {
    text.add("[[device]]\nname = \"U")?;
    text.add_number(number)?;
    text.add("\"\nbsdl = \"w\"\n")
}

/// Adds a core for so many cells to the device that was added last, so that no two boards are the same.
pub fn add_core(text: &mut Text, numbers: &mut Numbers, cells: usize) -> Result<(), AllocError> {
    text.add("core = \"")?;
    for _ in 0..cells {
        text.add(if numbers.below(2) == 0 { "0" } else { "1" })?;
    }
    text.add("\"\n")
}

/// Begins a net, `N` and its number.
pub fn add_net(text: &mut Text, number: usize) -> Result<(), AllocError> {
    text.add("[[net]]\nname = \"N")?;
    text.add_number(number)?;
    text.add("\"\npins = [")
}

/// Adds a pin: a bit of a vector of a device.
pub fn add_pin(text: &mut Text, device: usize, name: &str, index: usize) -> Result<(), AllocError> {
    text.add("\"U")?;
    text.add_number(device)?;
    text.add(".")?;
    text.add(name)?;
    text.add("(")?;
    text.add_number(index)?;
    text.add(")\", ")
}

pub fn end_net(text: &mut Text) -> Result<(), AllocError> {
    text.add("]\n")
}

/// The board of a board file whose devices have one description.
pub fn board_of(alloc: Global, board: &Text, device: &Text) -> Option<Board> {
    Board::from_text(alloc, board.bytes(), &[("w", device.bytes())]).ok()
}
