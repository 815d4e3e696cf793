//! The cycles of a step between its paths.

ghost use Rattle.std.specs.Prelude.{◌≡◌, ◌<◌, ◌≤◌, ◌+◌, ◌-◌, ◌==◌, ℕ, length, map, replicate, slice_get, Some, Bool};
ghost use Rattle.std.specs.Prelude.{count_by, drop, option_map};
ghost use Rattle.scan_vectors.specs.Held.{bits};
ghost use Rattle.tck_cycles.specs.Cycles as spec;
ghost use Rattle.tck_cycles.specs.Middles.{shifts_from};
ghost use Rattle.tck_cycles.specs.Shifts.{shift_cycle};
ghost use Rattle.tck_cycles.specs.declared.middle.Middle.TheVariants as middle;

use crate::cycle::entering;
use crate::shifts::Shifts;
use bitbang_protocol::Cycle;
use jt_tap::State;
use scan_vectors::Vector;

/// What a step does between the path that leads to it and the path away from it.
#[derive(Debug, Drop, Clone, Copy)]
pub(crate) enum Middle<'a> {
    /// Enters these states.
    Path(&'a [State]),
    /// Shifts this vector.
    Vector(Vector<'a>),
    /// Stays in a state for so many cycles.
    Stay(State, u64),
}

impl<'a> Middle<'a> {
    ghost use Rattle.std.specs.Prelude.{◌≡◌, ◌<◌, ◌≤◌, ◌+◌, ℕ, length, slice_get, Some, count_by, drop};
    ghost use Rattle.tck_cycles.specs.Middles.{middle_cycles, shifts_from, stayed};
    ghost use Rattle.tck_cycles.specs.Shifts.{shift_cycle};

    /// How many cycles there are.
    pub(crate) fn len(&self) -> u64
        ensures { result ≡ length (middle_cycles self.now) }
    {
        match self {
            Middle::Path(path) => path.len() as u64,
            Middle::Vector(vector) => vector.len() as u64,
            Middle::Stay(_, cycles) => *cycles,
        }
    }

    /// The cycle at a place, if there is one.
    pub(crate) fn cycle(&self, at: u64) -> Option<Cycle>
        ensures { result ≡ slice_get (middle_cycles self.now) at }
    {
        match self {
            Middle::Path(path) => path_cycle(path, at),
            Middle::Vector(vector) => bit_cycle(vector, at as usize),
            Middle::Stay(state, cycles) => stay_cycle(*state, *cycles, at),
        }
    }

    /// The cycle that stays, where there is one.
    pub(crate) fn stayed(&self) -> Cycle
        ensures { result ≡ stayed self.now }
    {
        match self {
            Middle::Stay(state, _) => entering(*state),
            _ => Cycle::default(),
        }
    }

    /// Cycles that shift, from a place on, none where what stands there shifts nothing or is the last cycle of a scan.
    pub(crate) fn shifts(&self, at: u64) -> Shifts
        ensures many { result.len ≡ shifts_from self.now at }
        ensures few { result.len ≤ 64 }
        ensures inside { 0 < result.len → at + result.len ≤ length (middle_cycles self.now) }
        ensures cycles { (j : ℕ) → j < result.len
            → slice_get (middle_cycles self.now) (at + j) ≡ Some (shift_cycle result j) }
    {
        match self {
            Middle::Vector(vector) => vector_shifts(vector, at as usize),
            _ => Shifts::none(),
        }
    }

    /// How many of the cycles from a place on read TDO.
    pub(crate) fn reads_from(&self, at: u64) -> u64
        ensures { result ≡ count_by (λ c. c.read) (drop at (middle_cycles self.now)) }
    {
        match self {
            Middle::Vector(vector) => wanted_from(vector, at as usize) as u64,
            Middle::Path(_) => 0,
            Middle::Stay(..) => 0,
        }
    }
}

/// The cycle of a path at a place, if there is one.
pub(crate) fn path_cycle(path: &[State], at: u64) -> Option<Cycle>
    ensures { result ≡ slice_get (map spec.entering path.now) at }
{
    match path.get(at as usize) {
        Some(state) => Some(entering(*state)),
        None => None,
    }
}

/// The cycle at a place of so many in a state, if there is one.
fn stay_cycle(state: State, cycles: u64, at: u64) -> Option<Cycle>
    ensures { result ≡ slice_get (replicate cycles (spec.entering state)) at }
{
    if at < cycles {
        Some(entering(state))
    } else {
        None
    }
}

/// The cycle that shifts a bit of a vector, if there is one.
fn bit_cycle(vector: &Vector, at: usize) -> Option<Cycle>
    ensures { result ≡ slice_get (spec.scan_cycles (bits vector.now)) at }
{
    if at >= vector.len() {
        return None;
    }
    let (tdi, wanted) = vector.bit(at);
    Some(Cycle {
        tms: is_last(vector, at),
        tdi,
        read: wanted.is_some(),
    })
}

/// Cycles that shift bits of a vector from a place on, up to where a part of it ends, none of which is the last one.
fn vector_shifts(vector: &Vector, at: usize) -> Shifts
    ensures many { result.len ≡ shifts_from (middle.Vector vector.now) at }
    ensures few { result.len ≤ 64 }
    ensures inside { 0 < result.len → at + result.len ≤ length (spec.scan_cycles (bits vector.now)) }
    ensures cycles { (j : ℕ) → j < result.len
        → slice_get (spec.scan_cycles (bits vector.now)) (at + j) ≡ Some (shift_cycle result j) }
{
    let before_last = vector.len().saturating_sub(1).saturating_sub(at);
    if before_last == 0 {
        return Shifts::none();
    }
    let tdi = vector.tdi_run(at);
    let wanted = vector.wanted_run(at);
    let len = tdi.len.min(wanted.len).min(before_last);
    Shifts {
        tdi: tdi.bits,
        read: wanted.care,
        len: len as u64,
    }
}

/// Whether a bit of a vector is its last one, on which TMS is 1.
fn is_last(vector: &Vector, at: usize) -> bool
    requires { at < length (bits vector.now) }
    ensures { result ≡ (length (bits vector.now) - at == 1) }
{
    vector.len() - at == 1
}

/// How many bits of a vector are wanted from a place on.
fn wanted_from(vector: &Vector, at: usize) -> usize
    ensures { result ≡ count_by (λ c. c.read) (drop at (spec.scan_cycles (bits vector.now))) }
{
    let mut wanted = 0;
    for place in at..vector.len() {
        wanted += usize::from(reads_at(vector, place));
    }
    wanted
}

/// Whether a bit of a vector is wanted.
fn reads_at(vector: &Vector, place: usize) -> bool
    requires { place < length (bits vector.now) }
    ensures { option_map {U = Bool} (λ c. c.read) (slice_get (spec.scan_cycles (bits vector.now)) place)
        ≡ Some result }
{
    vector.bit(place).1.is_some()
}
