//! Cycles of a rest, which change nothing but TCK: no board is asked for them.

ghost use Rattle.std.specs.Prelude.{◌≡◌, ◌&&◌};
ghost use Rattle.std.specs.List.{list_all};
ghost use Rattle.byte_streams.specs.Writes.{WritesAll};
ghost use Rattle.bitbang_protocol.specs.declared.Cycle.{Cycle};
ghost use Rattle.bitbang_protocol.specs.Protocol.{cycle_messages};
ghost use Rattle.play_drawing.specs.Drawing.{after_drawing, draw};
ghost use Rattle.play_drawing.specs.Holding.{stays};
ghost use Rattle.play_drawing.specs.Settled as spec;
ghost use Rattle.play_drawing.specs.Settled.{IsSettled};

use super::{Drawing, is_still};
use crate::holding::is_left;
use crate::marks::{Marks, one_more, tck_of, time_after};
use byte_streams::{Broken, Counted, Sink, put_all};
use wave_files::{UNKNOWN, wire, write_time};

impl Drawing {
    /// Whether TCK is high and a rising edge with this TMS leaves every controller where it is.
    pub(crate) fn is_left(&self, tms: bool) -> bool
        ensures { result ≡ (self.now.board.tck && list_all (stays self.now.board.trst tms) self.now.board.chips) }
    {
        is_left(&self.ahead, tms)
    }

    /// Draws a cycle once more that changes nothing but TCK.
    pub(crate) fn rest<W: Sink>(&mut self, period: u64, out: &mut Counted<W>) -> Result<(), Broken>
        requires none_lost { out.old.failures ≡ 0 }
        ensures writes { (c : Cycle) → IsSettled c self.old
            → WritesAll W.contents out.old out.new (draw period (cycle_messages c) self.old) result }
        ensures pen { (c : Cycle) → IsSettled c self.old
            → self.new ≡ after_drawing period (cycle_messages c) self.old }
    {
        let half = period / 2;
        let low = ticked(self.marks, false, period - half);
        let high = ticked(low, true, half);
        let written = write_ticks(self.marks, low, high, out);
        self.marks = high;
        written
    }
}

/// The lines behind one message of a rest more, which lasts so long.
fn ticked(marks: Marks, tck: bool, lasts: u64) -> Marks
    ensures { result ≡ spec.ticked tck lasts marks }
{
    let rested = one_more(marks.rested);
    Marks {
        tck: tck_of(rested, tck),
        time: time_after(marks.time, lasts),
        rested,
        ..marks
    }
}

/// Writes the two halves of a cycle of a rest.
fn write_ticks<W: Sink>(
    before: Marks,
    low: Marks,
    high: Marks,
    out: &mut Counted<W>,
) -> Result<(), Broken>
    requires { out.old.failures ≡ 0 }
    ensures { WritesAll W.contents out.old out.new (spec.ticks before low high) result }
{
    write_tick(before.time, before.tck, low.tck, out)?;
    write_tick(low.time, low.tck, high.tck, out)
}

/// Writes TCK, where nothing else changes: nothing within a stretch.
fn write_tick<W: Sink>(
    time: u64,
    was: Option<bool>,
    is: Option<bool>,
    out: &mut Counted<W>,
) -> Result<(), Broken>
    requires { out.old.failures ≡ 0 }
    ensures { WritesAll W.contents out.old out.new (spec.tick time was is) result }
{
    if is_still(was, is) {
        return put_all(out, b"");
    }
    write_time(time, wire(UNKNOWN, was), wire(UNKNOWN, is), out)
}
