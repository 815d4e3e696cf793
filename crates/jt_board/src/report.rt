//! The report of a board.

ghost use Rattle.std.specs.Prelude.{◌≡◌};
ghost use Rattle.byte_streams.specs.Writes.{WritesAll};
ghost use Rattle.jt_board.specs.Report.{report};
ghost use Rattle.jt_board.specs.LeftOut.{left_out_lines};

mod lines;

use crate::board::Board;
use byte_streams::{Broken, Counted, Sink};
use lines::{write_all_left_out, write_devices, write_nets};

/// Writes the report of a board: for each device, from the one nearest TDO on, a line of its name, the word of its
/// controller's state, the bits of its instruction, highest first, and the instruction's name, `-` where it has none;
/// then for each net with a name a line of its name and its level (`Zero`, `One`, `Contend`, `Float`).
///
/// `Broken` comes exactly where the writer's first failure came in this call.
pub fn write_report<W: Sink>(board: &Board, out: &mut Counted<W>) -> Result<(), Broken>
    requires { out.old.failures ≡ 0 }
    ensures { WritesAll W.contents out.old out.new (report board.now) result }
{
    write_devices(board.chain(), out)?;
    write_nets(board.chain(), out)
}

/// Writes a line for each instruction of a device that has an opcode but no meaning of its own here, and so stands for
/// BYPASS: by devices, from the one nearest TDO on, and in the order of the opcode rows.
///
/// `Broken` comes exactly where the writer's first failure came in this call.
pub fn write_left_out<W: Sink>(board: &Board, out: &mut Counted<W>) -> Result<(), Broken>
    requires { out.old.failures ≡ 0 }
    ensures { WritesAll W.contents out.old out.new (left_out_lines board.now) result }
{
    write_all_left_out(board.chain(), out)
}
