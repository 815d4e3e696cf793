//! What is told of the bits that a scan wants.

ghost use Rattle.std.specs.Prelude.{◌≡◌, ◌<◌, ◌≤◌, ℕ, Some, length};
ghost use Rattle.byte_streams.specs.Writes.{WritesAll};
ghost use Rattle.scan_vectors.specs.Held.{bits};
ghost use Rattle.play_model.specs.Endings.{part_word};
ghost use Rattle.play_drawing.specs.Judging.{asked_bit, high_note};
ghost use Rattle.play_drawing.specs.Notes as spec;
ghost use Rattle.play_drawing.specs.Notes.{bit_lines, failing_lines, note_change, note_lines, place_bits};
ghost use Rattle.wave_files.specs.Values.{bits_line};

use byte_streams::{Broken, Counted, Sink, put_all};
use output_words::digit_of;
use scan_vectors::{Part, Vector, difference};
use wave_files::{
    UNKNOWN, wire, write_bits_line, write_byte_change, write_number, write_stamp, write_word_line,
};

/// What is told of bits: what is wanted where a bit is judged, and the part and the place of one that fails.
#[derive(Clone, Copy)]
pub struct Note {
    pub wanted: Option<bool>,
    pub failing: Option<(Part, usize)>,
}

impl Note {
    ghost use Rattle.std.specs.Prelude.{◌≡◌, None};
    ghost use Rattle.play_drawing.specs.Judging.{low_note};
    ghost use Rattle.play_drawing.specs.Notes.{no_note};

    /// Nothing.
    pub(crate) fn none() -> Note
        ensures { result ≡ no_note }
    {
        Note {
            wanted: None,
            failing: None,
        }
    }

    /// What is told on where TCK goes high and no bit is judged.
    pub(crate) fn high(self) -> Note
        ensures { result ≡ record self { wanted = None } }
    {
        Note {
            wanted: None,
            ..self
        }
    }

    /// What is told on where TCK goes low.
    pub(crate) fn low(self) -> Note
        ensures { result ≡ low_note self }
    {
        Note {
            failing: None,
            ..self
        }
    }
}

/// What is told where TCK goes high, with TDO at this level: of bit `asked` of a vector, if one is judged.
pub(crate) fn note_at(asked: Option<usize>, vector: &Vector<'_>, tdo: bool, low: Note) -> Note
    requires { (i : ℕ) → asked ≡ Some i → i < length (bits vector.now) }
    ensures { result ≡ high_note (asked_bit (bits vector.now) asked) tdo low }
{
    match asked {
        Some(i) => Note {
            wanted: vector.bit(i).1,
            failing: difference(vector, i, tdo),
        },
        None => low.high(),
    }
}

/// Writes the time, and what is told otherwise from then on: nothing where that is as before.
pub(crate) fn write_note_change<W: Sink>(
    time: u64,
    number: usize,
    before: Note,
    after: Note,
    out: &mut Counted<W>,
) -> Result<(), Broken>
    requires none_lost { out.old.failures ≡ 0 }
    requires few { number ≤ 100000 }
    ensures { WritesAll W.contents out.old out.new (note_change time number before after) result }
{
    if shows_same(before, after) {
        return put_all(out, b"");
    }
    write_stamp(time, out)?;
    write_note(number, before, after, out)
}

/// Whether two notes show the same of `wanted` and of `fail`.
fn shows_same(before: Note, after: Note) -> bool
    ensures { result ≡ spec.shows_same before after }
{
    wanted_byte(before) == wanted_byte(after) && fail_byte(before) == fail_byte(after)
}

/// What is written for what is wanted.
fn wanted_byte(note: Note) -> u8
    ensures { result ≡ spec.wanted_byte note }
{
    wire(UNKNOWN, note.wanted)
}

/// What is written for whether a bit fails.
fn fail_byte(note: Note) -> u8
    ensures { result ≡ spec.fail_byte note }
{
    digit_of(note.failing.is_some())
}

/// Writes what is told otherwise.
fn write_note<W: Sink>(
    number: usize,
    before: Note,
    after: Note,
    out: &mut Counted<W>,
) -> Result<(), Broken>
    requires none_lost { out.old.failures ≡ 0 }
    requires few { number ≤ 100000 }
    ensures { WritesAll W.contents out.old out.new (note_lines number before after) result }
{
    write_byte_change(number, wanted_byte(before), wanted_byte(after), out)?;
    write_byte_change(number + 1, fail_byte(before), fail_byte(after), out)?;
    write_failing(number + 2, after.failing, out)
}

/// Writes which bit fails, if one does.
fn write_failing<W: Sink>(
    number: usize,
    failing: Option<(Part, usize)>,
    out: &mut Counted<W>,
) -> Result<(), Broken>
    requires none_lost { out.old.failures ≡ 0 }
    requires few { number ≤ 1000000 }
    ensures { WritesAll W.contents out.old out.new (failing_lines number failing) result }
{
    match failing {
        None => put_all(out, b""),
        Some((part, place)) => write_bit(number, part, place, out),
    }
}

/// Writes the place of a bit, and its part.
fn write_bit<W: Sink>(
    number: usize,
    part: Part,
    place: usize,
    out: &mut Counted<W>,
) -> Result<(), Broken>
    requires none_lost { out.old.failures ≡ 0 }
    requires few { number ≤ 1000000 }
    ensures { WritesAll W.contents out.old out.new (bit_lines number part place) result }
{
    write_place(number, place, out)?;
    write_word_line(number + 1, word_of(part), out)
}

/// Writes a number of a bit.
fn write_place<W: Sink>(number: usize, place: usize, out: &mut Counted<W>) -> Result<(), Broken>
    requires { out.old.failures ≡ 0 }
    ensures { WritesAll W.contents out.old out.new (bits_line number (place_bits place)) result }
{
    if place == 0 {
        return write_bits_line(number, b"0", out);
    }
    write_number(number, place, out)
}

/// The word of a part.
fn word_of(part: Part) -> &'static [u8]
    ensures { result.now ≡ part_word part }
{
    match part {
        Part::Header => b"header",
        Part::Data => b"data",
        Part::Trailer => b"trailer",
    }
}
