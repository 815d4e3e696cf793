//! The waves of cycles, of steps and of whole programs.

ghost use Rattle.std.specs.Prelude.{◌≡◌, ◌<◌, ◌≤◌, true, false, OnOk, flat_map, replicate};
ghost use Rattle.byte_streams.specs.Writes.{WritesAll};
ghost use Rattle.jt_tap.specs.Controller.{is_stable};
ghost use Rattle.bitbang_protocol.specs.Cycles.{closed_messages, opening};
ghost use Rattle.bitbang_protocol.specs.Protocol.{cycle_messages};
ghost use Rattle.tck_cycles.specs.Shifts.{shift_cycles};
ghost use Rattle.tck_cycles.specs.Sources.{left};
ghost use Rattle.bitbang.specs.StepMessages.{line_message, step_messages};
ghost use Rattle.svf_programs.specs.Legal.{IsFormed};
ghost use Rattle.svf_programs.specs.Seen as seen;
ghost use Rattle.svf_programs.specs.Sound.{IsWithin};
ghost use Rattle.play_drawing.specs.Drawing.{after_drawing};
ghost use Rattle.play_drawing.specs.Drawing as spec;
ghost use Rattle.play_drawing.specs.Settled.{IsSettled};
ghost use Rattle.play_drawing.specs.Shifted.{StandsInShift};

use crate::drawing::Drawing;
use bitbang_protocol::{Cycle, Message};
use byte_streams::{Broken, Counted, Sink, put_all};
use jt_tap::State;
use svf_parse::TrstWord;
use svf_programs::{Action, Step};
use tck_cycles::{Shifts, Source};

/// The low level that closes a step with cycles.
pub(crate) const LOW: Message = Message::Write {
    tck: false,
    tms: false,
    tdi: false,
};

/// Opens a wave as a play opens: TRST is released, and five cycles with TMS 1 follow.
pub fn draw_opening<W: Sink>(
    drawing: &mut Drawing,
    period: u64,
    out: &mut Counted<W>,
) -> Result<(), Broken>
    requires { out.old.failures ≡ 0 }
    ensures writes { WritesAll W.contents out.old out.new (spec.draw period opening drawing.old) result }
    ensures pen { OnOk result (drawing.new ≡ after_drawing period opening drawing.old) }
{
    draw_trst(drawing, false, period, out)?;
    draw_resets(drawing, period, out)?;
    draw_low(drawing, period, out)
}

/// Draws the five cycles with TMS 1 of an opening.
fn draw_resets<W: Sink>(
    drawing: &mut Drawing,
    period: u64,
    out: &mut Counted<W>,
) -> Result<(), Broken>
    requires { out.old.failures ≡ 0 }
    ensures writes { WritesAll W.contents out.old out.new
        (spec.draw period (flat_map cycle_messages spec.opening_cycles) drawing.old) result }
    ensures pen { OnOk result
        (drawing.new ≡ after_drawing period (flat_map cycle_messages spec.opening_cycles) drawing.old) }
{
    let cycle = Cycle {
        tms: true,
        tdi: false,
        read: false,
    };
    draw_cycles(drawing, cycle, 5, period, out)
}

/// Draws a step from a resting place.
pub fn draw_step<W: Sink>(
    drawing: &mut Drawing,
    place: State,
    step: &Step<'_>,
    period: u64,
    out: &mut Counted<W>,
) -> Result<(), Broken>
    requires none_lost { out.old.failures ≡ 0 }
    requires rests { is_stable place ≡ true }
    requires formed { IsFormed place (seen.step step.now.what) }
    requires within { IsWithin (seen.step step.now.what) }
    ensures writes { WritesAll W.contents out.old out.new
        (spec.draw period (step_messages place (seen.step step.now.what)) drawing.old) result }
    ensures pen { OnOk result
        (drawing.new ≡ after_drawing period (step_messages place (seen.step step.now.what)) drawing.old) }
{
    draw_line(drawing, &step.what, period, out)?;
    draw_closed(drawing, Source::of(place, step), period, out)
}

/// Draws what a step says of the line TRST.
fn draw_line<W: Sink>(
    drawing: &mut Drawing,
    what: &Action<'_>,
    period: u64,
    out: &mut Counted<W>,
) -> Result<(), Broken>
    requires { out.old.failures ≡ 0 }
    ensures writes { WritesAll W.contents out.old out.new
        (spec.draw period (line_message (seen.step what.now)) drawing.old) result }
    ensures pen { OnOk result (drawing.new ≡ after_drawing period (line_message (seen.step what.now)) drawing.old) }
{
    match what {
        Action::Trst(TrstWord::On) => draw_trst(drawing, true, period, out),
        Action::Trst(TrstWord::Off | TrstWord::Z) => draw_trst(drawing, false, period, out),
        _ => put_all(out, b""),
    }
}

/// Draws the line TRST.
fn draw_trst<W: Sink>(
    drawing: &mut Drawing,
    trst: bool,
    period: u64,
    out: &mut Counted<W>,
) -> Result<(), Broken>
    requires { out.old.failures ≡ 0 }
    ensures writes { WritesAll W.contents out.old out.new
        (spec.draw period (spec.trst_message trst) drawing.old) result }
    ensures pen { OnOk result (drawing.new ≡ after_drawing period (spec.trst_message trst) drawing.old) }
{
    drawing.draw(Message::Lines { trst, srst: false }, period, out)
}

/// Draws the low levels that close a step with cycles.
fn draw_low<W: Sink>(drawing: &mut Drawing, period: u64, out: &mut Counted<W>) -> Result<(), Broken>
    requires { out.old.failures ≡ 0 }
    ensures writes { WritesAll W.contents out.old out.new (spec.draw period spec.closing_messages drawing.old) result }
    ensures pen { OnOk result (drawing.new ≡ after_drawing period spec.closing_messages drawing.old) }
{
    drawing.draw(LOW, period, out)
}

/// Draws the cycles of a step, and what closes them.
fn draw_closed<W: Sink>(
    drawing: &mut Drawing,
    source: Source<'_>,
    period: u64,
    out: &mut Counted<W>,
) -> Result<(), Broken>
    requires { out.old.failures ≡ 0 }
    ensures writes { WritesAll W.contents out.old out.new
        (spec.draw period (closed_messages (left source.entry)) drawing.old) result }
    ensures pen { OnOk result (drawing.new ≡ after_drawing period (closed_messages (left source.entry)) drawing.old) }
{
    if source.left() == 0 {
        return put_all(out, b"");
    }
    draw_source(drawing, source, period, out)?;
    draw_low(drawing, period, out)
}

/// Draws the cycles of a step, as many at once as are known to shift or to be alike.
fn draw_source<W: Sink>(
    drawing: &mut Drawing,
    source: Source<'_>,
    period: u64,
    out: &mut Counted<W>,
) -> Result<(), Broken>
    requires { out.old.failures ≡ 0 }
    ensures writes { WritesAll W.contents out.old out.new
        (spec.draw period (flat_map cycle_messages (left source.entry)) drawing.old) result }
    ensures pen { OnOk result
        (drawing.new ≡ after_drawing period (flat_map cycle_messages (left source.entry)) drawing.old) }
{
    let mut source = source;
    loop {
        let shifts = source.next_shifts(drawing.shifts_at_once());
        draw_shifts(drawing, shifts, period, out)?;
        let (cycle, times) = source.next_alike(u64::MAX);
        if times == 0 {
            return Ok(());
        }
        draw_cycles(drawing, cycle, times, period, out)?;
    }
}

/// Draws cycles that shift, on a board that stands in Shift.
fn draw_shifts<W: Sink>(
    drawing: &mut Drawing,
    shifts: Shifts,
    period: u64,
    out: &mut Counted<W>,
) -> Result<(), Broken>
    requires none_lost { out.old.failures ≡ 0 }
    requires few { shifts.len ≤ 64 }
    requires stands { 0 < shifts.len → StandsInShift drawing.old.board }
    requires alone { 0 < shifts.len → drawing.old.extras.tdos ≡ false }
    ensures writes { WritesAll W.contents out.old out.new
        (spec.draw period (flat_map cycle_messages (shift_cycles shifts)) drawing.old) result }
    ensures pen { OnOk result
        (drawing.new ≡ after_drawing period (flat_map cycle_messages (shift_cycles shifts)) drawing.old) }
{
    if shifts.len == 0 {
        return put_all(out, b"");
    }
    let last = shifts.len - 1;
    drawing.draw(level(false, shifts.cycle(0)), period, out)?;
    drawing.shift(shifts.tdi, last, period, out)?;
    drawing.draw(level(true, shifts.cycle(last)), period, out)
}

/// Draws a cycle that comes so many times.
fn draw_cycles<W: Sink>(
    drawing: &mut Drawing,
    cycle: Cycle,
    times: u64,
    period: u64,
    out: &mut Counted<W>,
) -> Result<(), Broken>
    requires { out.old.failures ≡ 0 }
    ensures writes { WritesAll W.contents out.old out.new
        (spec.draw period (flat_map cycle_messages (replicate times cycle)) drawing.old) result }
    ensures pen { OnOk result
        (drawing.new ≡ after_drawing period (flat_map cycle_messages (replicate times cycle)) drawing.old) }
{
    for i in 0..times {
        let left = drawing.is_left(cycle.tms);
        draw_cycle(drawing, cycle, period, out)?;
        if left {
            return draw_rest(drawing, cycle, times - i - 1, period, out);
        }
    }
    Ok(())
}

/// Draws a cycle that comes so many times and changes nothing but TCK. What is behind the first of them in a stretch is
/// time alone.
fn draw_rest<W: Sink>(
    drawing: &mut Drawing,
    cycle: Cycle,
    times: u64,
    period: u64,
    out: &mut Counted<W>,
) -> Result<(), Broken>
    requires none_lost { out.old.failures ≡ 0 }
    requires settled { IsSettled cycle drawing.old }
    ensures writes { WritesAll W.contents out.old out.new
        (spec.draw period (flat_map cycle_messages (replicate times cycle)) drawing.old) result }
    ensures pen { OnOk result
        (drawing.new ≡ after_drawing period (flat_map cycle_messages (replicate times cycle)) drawing.old) }
{
    for i in 0..times {
        let held = drawing.holds(cycle);
        drawing.rest(period, out)?;
        if held {
            drawing.wait(times - i - 1, period);
            return Ok(());
        }
    }
    Ok(())
}

/// Draws a cycle: TCK low, and TCK high.
fn draw_cycle<W: Sink>(
    drawing: &mut Drawing,
    cycle: Cycle,
    period: u64,
    out: &mut Counted<W>,
) -> Result<(), Broken>
    requires { out.old.failures ≡ 0 }
    ensures writes { WritesAll W.contents out.old out.new (spec.draw period (cycle_messages cycle) drawing.old) result }
    ensures pen { OnOk result (drawing.new ≡ after_drawing period (cycle_messages cycle) drawing.old) }
{
    drawing.draw(level(false, cycle), period, out)?;
    drawing.draw(level(true, cycle), period, out)
}

/// A level of TCK in a cycle.
pub(crate) fn level(tck: bool, cycle: Cycle) -> Message
    ensures { result ≡ Message.Write tck cycle.tms cycle.tdi }
{
    Message::Write {
        tck,
        tms: cycle.tms,
        tdi: cycle.tdi,
    }
}
