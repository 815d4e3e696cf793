//! The waves of scans whose bits are wanted, with what is told of those.

ghost use Rattle.std.specs.Prelude.{◌≡◌, ◌<◌, ◌≤◌, ◌+◌, ◌++◌, true, ℕ, Some, IfOk, MatchOption, OnOk, drop, flat_map};
ghost use Rattle.std.specs.Prelude.{length};
ghost use Rattle.byte_streams.specs.Writes.{WritesAll};
ghost use Rattle.bitbang_protocol.specs.Cycles.{closed_messages};
ghost use Rattle.bitbang_protocol.specs.Protocol.{cycle_messages};
ghost use Rattle.scan_vectors.specs.Held.{bits};
ghost use Rattle.scan_vectors.specs.Vector.{wanted_bits};
ghost use Rattle.tck_cycles.specs.Sources.{left};
ghost use Rattle.play_drawing.specs.Drawing.{after_drawing, after_mark, closing_messages, is_drawn};
ghost use Rattle.play_drawing.specs.Judging.{Asks, asked_bit, cycle_text, draw_judging, note_behind, noted_mark};
ghost use Rattle.play_drawing.specs.Judging.{wanted_behind};
ghost use Rattle.play_drawing.specs.Notes.{no_note};

use crate::drawing::Drawing;
use crate::notes::{Note, note_at, write_note_change};
use crate::steps::{LOW, level};
use bitbang_protocol::{Cycle, Message};
use byte_streams::{Broken, Counted, Sink, put_all};
use play_model::Kind;
use scan_vectors::{Vector, next_wanted};
use tck_cycles::Source;

/// Draws the cycles of a scan of this vector, and what closes them, with what a player of this kind is told of the bits
/// that it wants, by the variables from a number on.
pub fn draw_judged<W: Sink>(
    drawing: &mut Drawing,
    source: Source<'_>,
    vector: &Vector<'_>,
    kind: Kind,
    number: usize,
    period: u64,
    out: &mut Counted<W>,
) -> Result<(), Broken>
    requires none_lost { out.old.failures ≡ 0 }
    requires few { number ≤ 100000 }
    ensures writes { WritesAll W.contents out.old out.new (draw_judging kind number period
        (closed_messages (left source.entry)) (wanted_bits (bits vector.now)) no_note drawing.old) result }
    ensures pen { OnOk result (drawing.new ≡ after_drawing period (closed_messages (left source.entry)) drawing.old) }
{
    if source.left() == 0 {
        return put_all(out, b"");
    }
    draw_told_cycles(drawing, source, vector, kind, number, period, out)
}

/// Draws the cycles of a scan, of which there are some, and TCK low behind them.
fn draw_told_cycles<W: Sink>(
    drawing: &mut Drawing,
    source: Source<'_>,
    vector: &Vector<'_>,
    kind: Kind,
    number: usize,
    period: u64,
    out: &mut Counted<W>,
) -> Result<(), Broken>
    requires none_lost { out.old.failures ≡ 0 }
    requires few { number ≤ 100000 }
    ensures writes { WritesAll W.contents out.old out.new (draw_judging kind number period
        (flat_map cycle_messages (left source.entry) ++ closing_messages) (wanted_bits (bits vector.now)) no_note
        drawing.old) result }
    ensures pen { OnOk result (drawing.new
        ≡ after_drawing period (flat_map cycle_messages (left source.entry) ++ closing_messages) drawing.old) }
{
    let mut source = source;
    let mut at = 0;
    let mut note = Note::none();
    while let Some(cycle) = source.next_cycle() {
        let asked = asked_at(cycle.read, vector, at);
        note = draw_told_cycle(drawing, cycle, asked, vector, note, number, period, out)?;
        at = place_behind(kind, note, vector, asked, at);
    }
    draw_noted(drawing, LOW, note, note.low(), number, period, out)
}

/// The bit of a vector from a place on that is judged in a cycle, if one is.
fn asked_at(read: bool, vector: &Vector<'_>, at: usize) -> Option<usize>
    ensures { Asks read (bits vector.now) at result }
{
    if read { next_wanted(vector, at) } else { None }
}

/// The place from which on bits are wanted behind a cycle in which this bit was judged, if one was.
fn place_behind(
    kind: Kind,
    note: Note,
    vector: &Vector<'_>,
    asked: Option<usize>,
    at: usize,
) -> usize
    requires { (i : ℕ) → asked ≡ Some i → i < length (bits vector.now) }
    ensures { MatchOption asked (result ≡ at) (λ i. wanted_bits (drop result (bits vector.now))
        ≡ wanted_behind kind note.failing (wanted_bits (drop (i + 1) (bits vector.now)))) }
{
    let end = vector.len();
    match asked {
        None => at,
        Some(i) => match kind {
            Kind::PlaysOn => i + 1,
            Kind::Stops => { if note.failing.is_some() { end } else { i + 1 } }
        },
    }
}

/// Draws a cycle in which a bit of a vector is judged, if one is. Answers what is told behind it.
fn draw_told_cycle<W: Sink>(
    drawing: &mut Drawing,
    cycle: Cycle,
    asked: Option<usize>,
    vector: &Vector<'_>,
    note: Note,
    number: usize,
    period: u64,
    out: &mut Counted<W>,
) -> Result<Note, Broken>
    requires none_lost { out.old.failures ≡ 0 }
    requires few { number ≤ 100000 }
    requires inside { (i : ℕ) → asked ≡ Some i → i < length (bits vector.now) }
    ensures writes { WritesAll W.contents out.old out.new
        (cycle_text number period cycle (asked_bit (bits vector.now) asked) note drawing.old) result }
    ensures note { IfOk result
        (λ next. next ≡ note_behind period cycle (asked_bit (bits vector.now) asked) note drawing.old) }
    ensures pen { OnOk result (drawing.new ≡ after_drawing period (cycle_messages cycle) drawing.old) }
{
    let low = note.low();
    draw_noted(drawing, level(false, cycle), note, low, number, period, out)?;
    let high = note_at(asked, vector, drawing.tdo(), low);
    draw_noted(drawing, level(true, cycle), low, high, number, period, out)?;
    Ok(high)
}

/// Draws a message of the lines, and before it what is told otherwise from then on.
fn draw_noted<W: Sink>(
    drawing: &mut Drawing,
    message: Message,
    before: Note,
    after: Note,
    number: usize,
    period: u64,
    out: &mut Counted<W>,
) -> Result<(), Broken>
    requires none_lost { out.old.failures ≡ 0 }
    requires few { number ≤ 100000 }
    requires drawn { is_drawn message ≡ true }
    ensures writes { WritesAll W.contents out.old out.new (noted_mark number before after message drawing.old) result }
    ensures pen { OnOk result (drawing.new ≡ after_mark period message drawing.old) }
{
    write_note_change(drawing.time(), number, before, after, out)?;
    drawing.draw(message, period, out)
}
