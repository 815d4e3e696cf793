//! The cycles of a step, one after another.

ghost use Rattle.std.specs.Prelude.{◌≡◌, ◌+◌, ◌^◌, ◌<◌, true, length};
ghost use Rattle.arrayvec.specs.ArrayVec.{array_vec_len};
ghost use Rattle.tck_cycles.specs.Middles.{middle_cycles};
ghost use Rattle.jt_tap.specs.Controller.{is_stable};
ghost use Rattle.tck_cycles.specs.Cycles as spec;

use crate::middle::{Middle, path_cycle};
use crate::shifts::Shifts;
use arrayvec::ArrayVec;
use bitbang_protocol::Cycle;
use jt_tap::State;
use svf_programs::{Action, Step, TrstWord};

/// A place in the cycles of a step. It borrows nothing.
#[derive(Debug, Clone, Copy, PartialEq, Eq)]
pub struct Spot {
    at: u64,
}

/// The cycles of a step that are left, in order.
#[derive(Debug, Drop)]
pub struct Source<'a> {
    // the states on the way to what the step does
    lead: ArrayVec<State, 8>,
    middle: Middle<'a>,
    // the states on the way from there to where the step ends
    tail: ArrayVec<State, 8>,
    // the number of the next cycle, counted from 0
    at: u64,
    ghost fits: { array_vec_len lead + length (middle_cycles middle) + array_vec_len tail < 2 ^ 64 },
}

impl<'a> Source<'a> {
    ghost use Rattle.std.specs.Prelude.{[], ◌≡◌, ◌≤◌, ◌<◌, ◌+◌, ◌^◌, ◌++◌, ℕ, map, true, length, slice_get, Some};
    ghost use Rattle.std.specs.Prelude.{count_by, drop, min, replicate};
    ghost use Rattle.arrayvec.specs.ArrayVec.{array_vec_len};
    ghost use Rattle.tck_cycles.specs.Middles.{middle_cycles, stayed, stays_from};
    ghost use Rattle.jt_tap.specs.Controller.{is_stable};
    ghost use Rattle.svf_programs.specs.Legal.{IsFormed};
    ghost use Rattle.svf_programs.specs.Sound.{IsWithin};
    ghost use Rattle.svf_programs.specs.Seen as seen;
    ghost use Rattle.tck_cycles.specs.Cycles.{cycles, entering};
    ghost use Rattle.tck_cycles.specs.Shifts.{shift_cycle, shift_cycles};
    ghost use Rattle.tck_cycles.specs.Sources.{alike_at_once, behind, in_middle, left, shifts_at_once, whole};
    ghost use Rattle.std.specs.Iterator.{YieldsFirst};

    /// The cycles of a step from a resting place. Takes no memory.
    pub fn of(place: State, step: &Step<'a>) -> Source<'a>
        requires rests { is_stable place ≡ true }
        requires formed { IsFormed place (seen.step step.now.what) }
        requires within { IsWithin (seen.step step.now.what) }
        ensures whole { whole result ≡ cycles place (seen.step step.now.what) }
        ensures left { left result ≡ whole result }
    {
        match step.what {
            Action::Scan {
                column,
                vector,
                end,
            } => Source::made(
                jt_tap::to_shift(place, column),
                Middle::Vector(vector),
                jt_tap::from_exit1(column, end),
            ),
            Action::Go(state) => Source::made(
                jt_tap::go(place, state),
                Middle::Path(&[]),
                ArrayVec::new(),
            ),
            Action::Path(path) => {
                let middle = Middle::Path(path);
                // For the proof alone: a path has fewer than 2^64 cycles.
                let _cycles = middle.len();
                Source::made(ArrayVec::new(), middle, ArrayVec::new())
            }
            Action::Run { run, cycles, end } => Source::made(
                go_unless_there(place, run),
                Middle::Stay(run, cycles),
                go_unless_there(run, end),
            ),
            Action::Trst(TrstWord::On) => Source::made(
                ArrayVec::new(),
                Middle::Stay(State::Reset, 5),
                ArrayVec::new(),
            ),
            Action::Trst(_) => { Source::made(ArrayVec::new(), Middle::Path(&[]), ArrayVec::new()) }
        }
    }

    /// All cycles of these parts.
    fn made(lead: ArrayVec<State, 8>, middle: Middle<'a>, tail: ArrayVec<State, 8>) -> Source<'a>
        requires { array_vec_len lead + length (middle_cycles middle) + array_vec_len tail < 2 ^ 64 }
        ensures whole { whole result
            ≡ map entering lead.items ++ middle_cycles middle.entry ++ map entering tail.items }
        ensures left { left result ≡ whole result }
    {
        Source {
            lead,
            middle,
            tail,
            at: 0,
        }
    }

    /// The cycles of a step from a resting place that are behind a spot of theirs.
    pub fn resume(place: State, step: &Step<'a>, spot: Spot) -> Source<'a>
        requires rests { is_stable place ≡ true }
        requires formed { IsFormed place (seen.step step.now.what) }
        requires within { IsWithin (seen.step step.now.what) }
        ensures whole { whole result ≡ cycles place (seen.step step.now.what) }
        ensures left { left result ≡ behind spot (cycles place (seen.step step.now.what)) }
    {
        let mut source = Source::of(place, step);
        source.at = spot.at;
        source
    }

    /// Where the next cycle stands.
    pub fn spot(&self) -> Spot
        ensures { behind result (whole self.now) ≡ left self.now }
    {
        Spot { at: self.at }
    }

    /// How many cycles are left.
    pub fn left(&self) -> u64
        ensures { result ≡ length (left self.now) }
    {
        let all = self.lead.len() as u64 + self.middle.len() + self.tail.len() as u64;
        all.saturating_sub(self.at)
    }

    /// How many of the cycles that are left read TDO. The time is that of going over what is left of a scan.
    pub fn reads(&self) -> u64
        ensures { result ≡ count_by (λ c. c.read) (left self.now) }
    {
        let lead = self.lead.len() as u64;
        self.middle.reads_from(self.at.saturating_sub(lead))
    }

    /// The next cycle, which stays the next one.
    pub fn peek(&self) -> Option<Cycle>
        ensures { result ≡ slice_get (left self.now) 0 }
    {
        self.present()
    }

    /// The next cycle, which is behind then, as `next` gives it. It tells too that the source is still one of the same
    /// cycles.
    pub fn next_cycle(&mut self) -> Option<Cycle>
        ensures gives { YieldsFirst left self.old result self.new }
        ensures whole { whole self.new ≡ whole self.old }
    {
        match self.present() {
            None => None,
            Some(cycle) => {
                self.at += 1;
                Some(cycle)
            }
        }
    }

    /// The next cycle, and how often it comes at once, as far as it is known and at most as often as is asked for.
    /// They are behind then. It comes 0 times where none is left.
    pub fn next_alike(&mut self, most: u64) -> (Cycle, u64)
        requires { 0 < most }
        ensures gives { left self.old ≡ replicate result.1 result.0 ++ left self.new }
        ensures most { result.1 ≤ most }
        ensures many { result.1 ≡ min most (alike_at_once self.old) }
        ensures none { result.1 ≡ 0 → left self.old ≡ [] }
        ensures whole { whole self.new ≡ whole self.old }
    {
        let (cycle, times) = self.alike();
        let times = times.min(most);
        self.at += times;
        (cycle, times)
    }

    /// The next cycles of a scan, as many as are known at once and at most as many as are asked for. They are behind
    /// then. There are none where the next cycle shifts nothing, is the last of a scan, or is none.
    pub fn next_shifts(&mut self, most: u64) -> Shifts
        ensures gives { left self.old ≡ shift_cycles result ++ left self.new }
        ensures most { result.len ≤ most }
        ensures many { result.len ≡ min most (shifts_at_once self.old) }
        ensures few { result.len ≤ 64 }
        ensures whole { whole self.new ≡ whole self.old }
    {
        let shifts = self.shifts();
        let len = shifts.len.min(most);
        self.at += len;
        Shifts { len, ..shifts }
    }

    /// The cycles of a scan from where the source stands, as many as are known at once.
    fn shifts(&self) -> Shifts
        ensures many { result.len ≡ shifts_at_once self.now }
        ensures few { result.len ≤ 64 }
        ensures fits { 0 < result.len → self.now.at + result.len < 2 ^ 64 }
        ensures cycles { (j : ℕ) → j < result.len
            → slice_get (whole self.now) (self.now.at + j) ≡ Some (shift_cycle result j) }
    {
        let lead = self.lead.len() as u64;
        if self.at < lead {
            return Shifts::none();
        }
        self.middle.shifts(self.at - lead)
    }

    /// The cycle at which the source stands, and how often it comes from there at once, as far as it is known.
    fn alike(&self) -> (Cycle, u64)
        ensures gives { left self.now ≡ replicate result.1 result.0 ++ drop (self.now.at + result.1) (whole self.now) }
        ensures many { result.1 ≡ alike_at_once self.now }
        ensures none { result.1 ≡ 0 → left self.now ≡ [] }
        ensures fits { 0 < result.1 → self.now.at + result.1 < 2 ^ 64 }
    {
        let stays = self.stays();
        if stays > 0 {
            return (self.middle.stayed(), stays);
        }
        match self.present() {
            Some(cycle) => (cycle, 1),
            None => (Cycle::default(), 0),
        }
    }

    /// How many of the cycles from where the source stands stay in one state, as far as it is known.
    fn stays(&self) -> u64
        ensures gives { 0 < result
            → left self.now
            ≡ replicate result (stayed self.now.middle) ++ drop (self.now.at + result) (whole self.now) }
        ensures many { result ≡ in_middle stays_from self.now }
        ensures fits { 0 < result → self.now.at + result < 2 ^ 64 }
    {
        let lead = self.lead.len() as u64;
        match self.middle {
            Middle::Stay(_, cycles) if lead <= self.at => cycles.saturating_sub(self.at - lead),
            _ => 0,
        }
    }

    /// The cycle at which the source stands.
    fn present(&self) -> Option<Cycle>
        ensures { result ≡ slice_get (whole self.now) self.now.at }
    {
        let lead = self.lead.len() as u64;
        if self.at < lead {
            return path_cycle(self.lead.as_slice(), self.at);
        }
        let at = self.at - lead;
        if let Some(cycle) = self.middle.cycle(at) {
            return Some(cycle);
        }
        path_cycle(self.tail.as_slice(), at.saturating_sub(self.middle.len()))
    }
}

/// The default path to a state, none where the place is that state.
fn go_unless_there(from: State, to: State) -> ArrayVec<State, 8>
    requires from { is_stable from ≡ true }
    requires to { is_stable to ≡ true }
    ensures { result.items ≡ spec.go_unless_there from to }
{
    if from == to {
        ArrayVec::new()
    } else {
        jt_tap::go(from, to)
    }
}

impl<'a> Iterator for Source<'a> {
    type Item = Cycle;

    ghost use Rattle.std.specs.Iterator.{YieldsFirst, item_count};
    ghost use Rattle.tck_cycles.specs.Sources.{left};

    ghost next_gives = { YieldsFirst left };

    ghost remaining = { item_count left };

    fn next(&mut self) -> Option<Cycle> {
        self.next_cycle()
    }
}
