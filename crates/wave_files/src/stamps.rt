//! The time above what changed, put in one piece, with the line of TCK, which changes with nearly every message.

ghost use Rattle.std.specs.Prelude.{◌≡◌, ◌++◌};
ghost use Rattle.byte_streams.specs.Writes.{WritesAll};
ghost use Rattle.wave_files.specs.Changes.{stamp};
ghost use Rattle.wave_files.specs.Values.{byte_change, byte_line};

use byte_streams::{Broken, Counted, Sink, put_all};
use itoa::write_digits;

/// Where the digits of a time end: the number sign and twenty digits stand before it at most.
const END_OF_DIGITS: usize = 21;

/// Writes a time, in picoseconds.
///
/// `Broken` comes exactly where the writer's first failure came in this call.
pub fn write_stamp<W: Sink>(time: u64, out: &mut Counted<W>) -> Result<(), Broken>
    requires { out.old.failures ≡ 0 }
    ensures { WritesAll W.contents out.old out.new (stamp time) result }
{
    let mut line = [b'#'; END_OF_DIGITS + 1];
    line[END_OF_DIGITS] = b'\n';
    let start = write_digits(time, &mut line, END_OF_DIGITS);
    put_all(out, &line[start - 1..])
}

/// Writes a time, and below it TCK where it changed.
///
/// `Broken` comes exactly where the writer's first failure came in this call.
pub fn write_time<W: Sink>(time: u64, was: u8, is: u8, out: &mut Counted<W>) -> Result<(), Broken>
    requires { out.old.failures ≡ 0 }
    ensures { WritesAll W.contents out.old out.new (stamp time ++ byte_change 0 was is) result }
{
    if was == is {
        return write_stamp(time, out);
    }
    write_tck(time, is, out)
}

/// Writes a time, and below it TCK, which is variable 0.
///
/// `Broken` comes exactly where the writer's first failure came in this call.
pub fn write_tck<W: Sink>(time: u64, tck: u8, out: &mut Counted<W>) -> Result<(), Broken>
    requires { out.old.failures ≡ 0 }
    ensures { WritesAll W.contents out.old out.new (stamp time ++ byte_line 0 tck) result }
{
    let mut line = [b'#'; END_OF_DIGITS + 4];
    line[END_OF_DIGITS] = b'\n';
    line[END_OF_DIGITS + 1] = tck;
    line[END_OF_DIGITS + 2] = b'!';
    line[END_OF_DIGITS + 3] = b'\n';
    let start = write_digits(time, &mut line, END_OF_DIGITS);
    put_all(out, &line[start - 1..])
}
