//! Lines that tell where something stands in a text, and how many bits failed.

ghost use Rattle.std.specs.Prelude.{◌≡◌};
ghost use Rattle.byte_streams.specs.Writes.{WritesAll};
ghost use Rattle.output_words.specs.Lines.{position_line, position_words, total_line};

use byte_streams::{Broken, Counted, Sink, put_all, put_pieces};
use itoa::Buffer;

/// Where a byte stands in a text.
#[derive(Debug, Clone, Copy, PartialEq, Eq)]
pub struct Position {
    /// The line, counted from 1.
    pub line: usize,
    /// The place in the line, counted in bytes from 1.
    pub column: usize,
}

/// Writes a position, `at line 3 column 1`.
///
/// `Broken` comes exactly where the writer's first failure came in this call.
pub fn write_position<W: Sink>(position: Position, out: &mut Counted<W>) -> Result<(), Broken>
    requires { out.old.failures ≡ 0 }
    ensures { WritesAll W.contents out.old out.new (position_words position) result }
{
    let mut line = Buffer::new();
    let mut column = Buffer::new();
    put_pieces(
        out,
        &[
            b"at line ",
            line.format(position.line).as_bytes(),
            b" column ",
            column.format(position.column).as_bytes(),
        ],
    )
}

/// Writes the line of a position.
///
/// `Broken` comes exactly where the writer's first failure came in this call.
pub fn write_position_line<W: Sink>(position: Position, out: &mut Counted<W>) -> Result<(), Broken>
    requires { out.old.failures ≡ 0 }
    ensures { WritesAll W.contents out.old out.new (position_line position) result }
{
    write_position(position, out)?;
    put_all(out, b"\n")
}

/// Writes how many bits failed, `failures 3`.
///
/// `Broken` comes exactly where the writer's first failure came in this call.
pub fn write_total<W: Sink>(total: u64, out: &mut Counted<W>) -> Result<(), Broken>
    requires { out.old.failures ≡ 0 }
    ensures { WritesAll W.contents out.old out.new (total_line total) result }
{
    let mut number = Buffer::new();
    put_pieces(out, &[b"failures ", number.format(total).as_bytes(), b"\n"])
}
