//! The bytes of a step, one after another.

ghost use Rattle.std.specs.Prelude.{◌≡◌, ◌==◌, ◌-◌, ◌^◌, false, length, min, not, option_to_list, map};
ghost use Rattle.tck_cycles.specs.Sources.{left as cycles_left};
ghost use Rattle.bitbang_protocol.specs.Protocol.{encode};
ghost use Rattle.bitbang_protocol.specs.declared.Message.TheVariants.{Write};
ghost use Rattle.bitbang.specs.StepMessages.{line_message};
ghost use Rattle.tck_cycles.specs.Seen as seen;

use crate::begun::Begun;
use crate::putting::{put_cycles, put_shifts};
use bitbang_protocol::Message;
use jt_tap::State;
use tck_cycles::{Action, Source, Step, TrstWord};

/// A place in the bytes of a step, which may lie within a cycle. It borrows nothing.
#[derive(Debug, Clone, Copy, PartialEq, Eq)]
pub struct Spot {
    line: Option<u8>,
    begun: Begun,
    source: tck_cycles::Spot,
    closes: bool,
}

impl Spot {
    ghost use Rattle.std.specs.Prelude.{◌≡◌, List, IfSome, Some, drop, slice_get};
    ghost use Rattle.bitbang_protocol.specs.declared.Cycle.{Cycle};
    ghost use Rattle.bitbang.specs.Left.{behind};

    /// The next byte and the spot behind it, where that byte is one of a cycle that is begun: it is known without the
    /// step.
    pub fn begun_byte(self) -> Option<(u8, Spot)>
        ensures first { IfSome result (λ r. (cs : List Cycle) → slice_get (behind self cs) 0 ≡ Some r.0) }
        ensures rest { IfSome result (λ r. (cs : List Cycle) → behind r.1 cs ≡ drop 1 (behind self cs)) }
    {
        if self.line.is_some() {
            return None;
        }
        let byte = self.begun.peek()?;
        let begun = Begun {
            out: self.begun.out + 1,
            ..self.begun
        };
        Some((byte, Spot { begun, ..self }))
    }
}

/// The bytes of a step that are left, in order: what it says of the line TRST, the bytes of each cycle, and where it
/// has cycles, a last `0`.
#[derive(Debug, Drop)]
pub struct StepBytes<'a> {
    // the byte of the line TRST, if it is not out
    line: Option<u8>,
    // the cycle of which some bytes are out
    begun: Begun,
    // the cycles of which none are out
    source: Source<'a>,
    // whether the last `0` is to come
    closes: bool,
}

impl<'a> StepBytes<'a> {
    ghost use Rattle.std.specs.Prelude.{◌≡◌, ◌≤◌, ◌-◌, ◌^◌, ◌++◌, true, false, drop, length, min, slice_get, take};
    ghost use Rattle.std.specs.Prelude.{None};
    ghost use Rattle.jt_tap.specs.Controller.{is_stable};
    ghost use Rattle.tck_cycles.specs.Legal.{IsFormed};
    ghost use Rattle.tck_cycles.specs.Sound.{IsWithin};
    ghost use Rattle.tck_cycles.specs.Seen as seen;
    ghost use Rattle.tck_cycles.specs.Cycles.{cycles};
    ghost use Rattle.bitbang.specs.StepMessages.{step_bytes};
    ghost use Rattle.bitbang.specs.Left.{Fills, behind, left, rest, whole};
    ghost use Rattle.std.specs.Iterator.{YieldsFirst};

    /// The bytes of a step from a resting place. Takes no memory.
    pub fn of(place: State, step: &Step<'a>) -> StepBytes<'a>
        requires rests { is_stable place ≡ true }
        requires formed { IsFormed place (seen.step step.now.what) }
        requires within { IsWithin (seen.step step.now.what) }
        ensures bytes { left result ≡ step_bytes place (seen.step step.now.what) }
        ensures whole { whole result ≡ cycles place (seen.step step.now.what) }
    {
        let source = Source::of(place, step);
        let closes = has_cycles(&source);
        StepBytes {
            line: line_byte(&step.what),
            begun: Begun::over(),
            source,
            closes,
        }
    }

    /// The bytes of a step from a resting place that are behind a spot of theirs.
    pub fn resume(place: State, step: &Step<'a>, spot: Spot) -> StepBytes<'a>
        requires rests { is_stable place ≡ true }
        requires formed { IsFormed place (seen.step step.now.what) }
        requires within { IsWithin (seen.step step.now.what) }
        ensures bytes { left result ≡ behind spot (cycles place (seen.step step.now.what)) }
        ensures whole { whole result ≡ cycles place (seen.step step.now.what) }
    {
        StepBytes {
            line: spot.line,
            begun: spot.begun,
            source: Source::resume(place, step, spot.source),
            closes: spot.closes,
        }
    }

    /// Where the next byte stands.
    pub fn spot(&self) -> Spot
        ensures { behind result (whole self.now) ≡ left self.now }
    {
        Spot {
            line: self.line,
            begun: self.begun,
            source: self.source.spot(),
            closes: self.closes,
        }
    }

    /// How many bytes are left, or the largest number where they are more, which only a path of more than 2^62 states
    /// has. The time is that of going over what is left of a scan.
    pub fn left(&self) -> u64
        ensures { result ≡ min (length (left self.now)) (2 ^ 64 - 1) }
    {
        let cycles = 2 * u128::from(self.source.left()) + u128::from(self.source.reads());
        let others = u64::from(self.line.is_some()) + self.begun.left() + u64::from(self.closes);
        fitted(cycles + u128::from(others))
    }

    /// The next byte, which is out then, as `next` gives it. It tells too that the bytes are still those of the same
    /// step.
    pub fn next_byte(&mut self) -> Option<u8>
        ensures gives { YieldsFirst left self.old result self.new }
        ensures whole { whole self.new ≡ whole self.old }
    {
        if let Some(byte) = self.line {
            self.line = None;
            return Some(byte);
        }
        if let Some(byte) = self.begun.peek() {
            self.begun.out += 1;
            return Some(byte);
        }
        match self.source.next_cycle() {
            Some(cycle) => {
                self.begun = Begun { cycle, out: 1 };
                Begun { cycle, out: 0 }.peek()
            }
            None if self.closes => {
                self.closes = false;
                Some(low())
            }
            None => None,
        }
    }

    /// Fills the buffer from its front with the next bytes, as many as fit; they are out then. Answers how many they
    /// are.
    pub fn fill(&mut self, buffer: &mut [u8]) -> usize
        ensures count { result ≡ min (length buffer.old) (length (left self.old)) }
        ensures filled { buffer.new ≡ take result (left self.old) ++ drop result buffer.old }
        ensures left { left self.new ≡ drop result (left self.old) }
        ensures whole { whole self.new ≡ whole self.old }
    {
        let mut count = 0;
        while count < buffer.len() {
            let more = self.fill_some(&mut buffer[count..]);
            if more == 0 {
                return count;
            }
            count += more;
        }
        count
    }

    /// Puts some of the next bytes to the front of the buffer, none only where none is left or there is no room.
    fn fill_some(&mut self, buffer: &mut [u8]) -> usize
        ensures fills { Fills (left self.old) buffer.old buffer.new (left self.new) result }
        ensures whole { whole self.new ≡ whole self.old }
    {
        if self.is_within() || buffer.len() < 3 {
            return self.fill_one(buffer);
        }
        let shifts = self.source.next_shifts(buffer.len() as u64 / 3);
        if shifts.len > 0 {
            return put_shifts(shifts, buffer);
        }
        self.fill_alike(buffer)
    }

    /// The same where no cycle is begun and no line is owed, and there is room for a cycle.
    fn fill_alike(&mut self, buffer: &mut [u8]) -> usize
        requires between { (self.old.line ≡ None) × (slice_get (rest self.old.begun) 0 ≡ None) }
        requires room { 3 ≤ length buffer.old }
        ensures fills { Fills (left self.old) buffer.old buffer.new (left self.new) result }
        ensures whole { whole self.new ≡ whole self.old }
    {
        let (cycle, times) = self.source.next_alike(buffer.len() as u64 / 3);
        if times == 0 {
            return self.fill_one(buffer);
        }
        put_cycles(cycle, times as usize, buffer)
    }

    /// Puts the next byte to the front of the buffer, if there is one, and room for it.
    fn fill_one(&mut self, buffer: &mut [u8]) -> usize
        ensures fills { Fills (left self.old) buffer.old buffer.new (left self.new) result }
        ensures whole { whole self.new ≡ whole self.old }
    {
        if buffer.is_empty() {
            return 0;
        }
        match self.next_byte() {
            Some(byte) => {
                buffer[0] = byte;
                1
            }
            None => 0,
        }
    }

    /// Whether the next byte is that of the line TRST, or one of a cycle that is begun.
    fn is_within(&self) -> bool
        ensures between { result ≡ false → (self.now.line ≡ None) × (slice_get (rest self.now.begun) 0 ≡ None) }
    {
        self.line.is_some() || self.begun.peek().is_some()
    }

    /// The next byte, which stays the next one.
    pub fn peek(&self) -> Option<u8>
        ensures { result ≡ slice_get (left self.now) 0 }
    {
        if let Some(byte) = self.line {
            return Some(byte);
        }
        if let Some(byte) = self.begun.peek() {
            return Some(byte);
        }
        match self.source.peek() {
            Some(cycle) => Begun { cycle, out: 0 }.peek(),
            None if self.closes => Some(low()),
            None => None,
        }
    }
}

/// Whether any cycle is left.
fn has_cycles(source: &Source) -> bool
    ensures { result ≡ not (length (cycles_left source.now) == 0) }
{
    source.left() != 0
}

/// A count, or the largest number where it is more.
fn fitted(count: u128) -> u64
    ensures { result ≡ min count (2 ^ 64 - 1) }
{
    match u64::try_from(count) {
        Ok(count) => count,
        Err(_) => u64::MAX,
    }
}

/// What a step says of the line TRST.
fn line_byte(what: &Action) -> Option<u8>
    ensures { option_to_list result ≡ map encode (line_message (seen.step what.now)) }
{
    match what {
        Action::Trst(TrstWord::On) => Some(line(true)),
        Action::Trst(TrstWord::Off | TrstWord::Z) => Some(line(false)),
        _ => None,
    }
}

/// The byte that asserts or releases TRST.
fn line(trst: bool) -> u8
    ensures { result ≡ encode (Message.Lines trst false) }
{
    bitbang_protocol::encode(Message::Lines { trst, srst: false })
}

/// The byte that closes a step with cycles: TCK, TMS and TDI low.
fn low() -> u8
    ensures { result ≡ encode (Write false false false) }
{
    bitbang_protocol::encode(Message::Write {
        tck: false,
        tms: false,
        tdi: false,
    })
}

impl<'a> Iterator for StepBytes<'a> {
    type Item = u8;

    ghost use Rattle.std.specs.Iterator.{YieldsFirst, item_count};
    ghost use Rattle.bitbang.specs.Left.{left};

    ghost next_gives = { YieldsFirst left };

    ghost remaining = { item_count left };

    fn next(&mut self) -> Option<u8> {
        self.next_byte()
    }
}
