//! A wave that is drawn message by message.

ghost use Rattle.std.specs.Prelude.{◌≡◌, ◌≤◌, ◌*◌, ◌&&◌, true, length, is_none};
ghost use Rattle.byte_streams.specs.Writes.{WritesAll};
ghost use Rattle.jt_limits.specs.Limits.{limits};
ghost use Rattle.play_drawing.specs.Drawing as spec;
ghost use Rattle.play_drawing.specs.Drawing.{after_mark, lasting, mark};
ghost use Rattle.play_drawing.specs.Holding as held;
ghost use Rattle.play_drawing.specs.Judging.{tdo_of};
ghost use Rattle.play_drawing.specs.Pens.{Pen, begun};
ghost use Rattle.wave_files.specs.Changes.{IsQuiet};
ghost use Rattle.wave_files.specs.Values as numbers;
ghost use Rattle.play_drawing.specs.Waves as waves;
ghost use Rattle.play_drawing.specs.Waves.{starts};

mod resting;
mod shifting;

use crate::holding::is_held_by;
use crate::marks::{Marks, duration, marks_after, shown_on, time_after};
use crate::quiet::keeps_levels;
use bitbang_protocol::{Cycle, Message, encode};
use board_chain::Chain;
use byte_streams::{Broken, Counted, Sink, put_all};
use jt_board::Board;
use output_words::digit_of;
use std::marker::Model;
use wave_files::{
    Extras, STATEMENT_VARIABLE, first_of_notes, write_byte, write_changes, write_extra_changes,
    write_first_values, write_number, write_stamp,
};

/// Two boards that take the same messages: what differs between them while one of them has taken a message more is what
/// that message changed. So a wave takes no memory. Contracts see it as what was drawn last, what is drawn of devices
/// and pins besides, and the board.
#[derive(Drop)]
pub struct Drawing {
    marks: Marks,
    extras: Extras,
    behind: Board,
    ahead: Board,
}

impl Model for Drawing {
    ghost use Rattle.play_drawing.specs.Pens.{Pen};

    ghost Value = { Pen };

    ghost use Rattle.std.specs.Prelude.{◌≡◌, ◌≤◌, length};
    ghost use Rattle.jt_limits.specs.Limits.{limits};

    ghost view = { λ d. record { marks = d.marks; extras = d.extras; board = d.ahead } };

    ghost invariant = { λ d. (d.ahead ≡ d.behind) × (length d.ahead.chips ≤ limits.devices)
        × (length d.ahead.nets ≤ limits.nets) };
}

impl Drawing {
    /// A wave as it begins, on two boards that are the same.
    pub fn new(behind: Board, ahead: Board, extras: Extras) -> Drawing
        requires same { ahead ≡ behind }
        requires few_nets { length behind.nets ≤ limits.nets }
        ensures { result ≡ begun extras behind }
    {
        // For the proof alone: what is kept of a board's devices.
        let _ = ahead.devices();
        Drawing {
            marks: Marks {
                tck: Some(ahead.snapshot().tck()),
                tms: None,
                tdi: None,
                time: 0,
                rested: 0,
            },
            extras,
            behind,
            ahead,
        }
    }

    /// The devices and the nets as they were drawn last.
    pub fn chain(&self) -> &Chain
        ensures chips { result.now.chips ≡ self.now.board.chips }
        ensures nets { result.now.nets ≡ self.now.board.nets }
        ensures few { length result.now.chips ≤ limits.devices }
        ensures few_nets { length result.now.nets ≤ limits.nets }
    {
        self.ahead.chain()
    }

    /// Writes what each variable shows before the first message; where `noted` is set, for waves that tell of the bits
    /// that are wanted.
    pub fn start<W: Sink>(&self, noted: bool, out: &mut Counted<W>) -> Result<(), Broken>
        requires { out.old.failures ≡ 0 }
        ensures { WritesAll W.contents out.old out.new (starts noted self.now) result }
    {
        let shown = shown_on(self.marks, &self.ahead);
        write_first_values(noted, self.extras, shown, self.ahead.chain(), out)
    }

    /// The number of the first variable that tells of the bits that are wanted.
    pub fn first_of_notes(&self) -> usize
        ensures number { result ≡ numbers.first_of_notes self.now.board.chips self.now.board.nets }
        ensures few { result ≤ 100000 }
    {
        first_of_notes(self.ahead.chain())
    }

    /// The time behind what was drawn last.
    pub(crate) fn time(&self) -> u64
        ensures { result ≡ self.now.marks.time }
    {
        self.marks.time
    }

    /// What would answer a question for TDO.
    pub(crate) fn tdo(&self) -> bool
        ensures { result ≡ tdo_of self.now }
    {
        self.ahead.chain().tdo()
    }

    /// Draws that a statement begins, by its number: 0 stands for the opening, and is drawn at the start.
    pub fn begin<W: Sink>(&self, command: usize, out: &mut Counted<W>) -> Result<(), Broken>
        requires { out.old.failures ≡ 0 }
        ensures { WritesAll W.contents out.old out.new (waves.begins command self.now) result }
    {
        write_beginning(self.marks.time, command, out)
    }

    /// Draws a message of the lines.
    pub(crate) fn draw<W: Sink>(
        &mut self,
        message: Message,
        period: u64,
        out: &mut Counted<W>,
    ) -> Result<(), Broken>
        requires none_lost { out.old.failures ≡ 0 }
        requires drawn { spec.is_drawn message ≡ true }
        ensures writes { WritesAll W.contents out.old out.new (mark message self.old) result }
        ensures pen { self.new ≡ after_mark period message self.old }
    {
        let _ = self.ahead.byte(encode(message));
        let tck = self.ahead.snapshot().tck();
        let after = marks_after(message, self.marks, tck, self.ahead.chain());
        let quiet = keeps_levels(message, self.behind.chain());
        let written = write_between(
            self.extras,
            self.marks,
            &self.behind,
            after,
            &self.ahead,
            quiet,
            out,
        );
        let _ = self.behind.byte(encode(message));
        self.marks = Marks {
            time: time_after(after.time, duration(period, message)),
            ..after
        };
        written
    }

    /// Whether a cycle comes again, in a stretch, to devices that stay.
    pub(crate) fn holds(&self, cycle: Cycle) -> bool
        ensures { result ≡ held.is_held_by cycle self.now }
    {
        is_held_by(cycle, self.marks, &self.ahead)
    }

    /// So many periods pass in which nothing is drawn.
    pub(crate) fn wait(&mut self, periods: u64, period: u64)
        ensures { self.new ≡ lasting (periods * period) self.old }
    {
        self.marks.time = time_after(self.marks.time, periods.saturating_mul(period));
    }

    /// Writes the end of a wave.
    pub fn close<W: Sink>(&self, out: &mut Counted<W>) -> Result<(), Broken>
        requires { out.old.failures ≡ 0 }
        ensures { WritesAll W.contents out.old out.new (waves.closing self.now) result }
    {
        write_closing(self.marks, self.ahead.snapshot().tck(), out)
    }
}

/// Writes the time at which a statement begins, and its number.
fn write_beginning<W: Sink>(time: u64, command: usize, out: &mut Counted<W>) -> Result<(), Broken>
    requires { out.old.failures ≡ 0 }
    ensures { WritesAll W.contents out.old out.new (waves.begins_at command time) result }
{
    if command == 0 {
        return put_all(out, b"");
    }
    write_stamp(time, out)?;
    write_number(STATEMENT_VARIABLE, command, out)
}

/// Writes the time of the end, and TCK, where it was drawn as unknown.
fn write_closing<W: Sink>(marks: Marks, tck: bool, out: &mut Counted<W>) -> Result<(), Broken>
    requires { out.old.failures ≡ 0 }
    ensures { WritesAll W.contents out.old out.new (waves.closing_of marks tck) result }
{
    write_stamp(marks.time, out)?;
    write_last_tck(marks.tck, tck, out)
}

/// Writes TCK, where it was drawn as unknown.
fn write_last_tck<W: Sink>(
    drawn: Option<bool>,
    tck: bool,
    out: &mut Counted<W>,
) -> Result<(), Broken>
    requires { out.old.failures ≡ 0 }
    ensures { WritesAll W.contents out.old out.new (waves.last_tck drawn tck) result }
{
    match drawn {
        Some(_) => put_all(out, b""),
        None => write_byte(0, digit_of(tck), out),
    }
}

/// Writes what changed from one pen to the next: nothing within a stretch.
fn write_between<W: Sink>(
    extras: Extras,
    marks: Marks,
    behind: &Board,
    after: Marks,
    ahead: &Board,
    quiet: bool,
    out: &mut Counted<W>,
) -> Result<(), Broken>
    requires none_lost { out.old.failures ≡ 0 }
    requires few { length behind.now.chips ≤ limits.devices }
    requires few_nets { length behind.now.nets ≤ limits.nets }
    requires alike { length ahead.now.chips ≡ length behind.now.chips }
    requires alike_nets { ahead.now.nets ≡ behind.now.nets }
    requires quiet { quiet ≡ true → IsQuiet behind.now.nets behind.now.chips ahead.now.chips }
    ensures { WritesAll W.contents out.old out.new
        (spec.between (record { marks = marks; extras = extras; board = behind.now })
        (record { marks = after; extras = extras; board = ahead.now })) result }
{
    if is_still(marks.tck, after.tck) {
        return put_all(out, b"");
    }
    let before = shown_on(marks, behind);
    let next = shown_on(after, ahead);
    let was = behind.chain();
    let is = ahead.chain();
    write_changes(marks.time, before, next, was, is, quiet, out)?;
    write_extra_changes(extras, was, is, quiet, out)
}

/// Whether TCK was drawn as unknown, and is.
fn is_still(was: Option<bool>, is: Option<bool>) -> bool
    ensures { result ≡ (is_none was && is_none is) }
{
    was.is_none() && is.is_none()
}
