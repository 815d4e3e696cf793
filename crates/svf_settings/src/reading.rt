//! Statements read from the first to the last, each with what those before it set.

ghost use Rattle.std.specs.Prelude.{◌≡◌, ◌++◌, ◌+◌, ◌<◌, ◌≤◌, ◌^◌, List, [], Some, None, Option, IfOk, IfSome, map};
ghost use Rattle.std.specs.Prelude.{length, slice_get};
ghost use Rattle.svf_parse.specs.View.{memory_fault, said_of};
ghost use Rattle.svf_parse.specs.Judging.{Said};
ghost use Rattle.svf_programs.specs.Sound.{step_limit};
ghost use Rattle.svf_settings.specs.Held.{StandsIfNamed};
ghost use Rattle.svf_settings.specs.LookBack.{settings};
ghost use Rattle.svf_settings.specs.Periods as periods;
ghost use Rattle.svf_programs.specs.Periods.{default_period};
ghost use Rattle.svf_settings.specs.Reading.{IsBehind, Keeps, Takes, kept_as};

use crate::running::Running;
use crate::stepping::place_behind;
use jt_tap::State;
use std::alloc::{AllocError, Global};
use svf_parse::{Code, Statement, SvfFault};
use svf_programs::{DEFAULT_PERIOD, Kept, KeptStep, PeriodChange};

/// The settings behind some statements, and where the program rests there.
#[derive(Drop, Clone, Copy)]
pub(crate) struct Reader {
    pub(crate) running: Running,
    pub(crate) place: State,
}

impl Reader {
    /// Before the first statement.
    pub(crate) fn first() -> Reader
        ensures { (all : List Said) → IsBehind all [] result }
    {
        Reader {
            running: Running::first(),
            place: State::Reset,
        }
    }

    /// Takes the next statement, which stands at this place, and goes behind it: its step, if it makes one, or its
    /// refusal. It does so by any list by which the reader is behind the same statements, if this one stands there or
    /// nothing names it.
    pub(crate) fn take(
        &mut self,
        statements: &[Statement],
        index: u32,
        statement: &Statement,
    ) -> Result<Option<Kept>, Code>
        requires { slice_get (map said_of statements.now) index ≡ Some (said_of statement.now) }
        ensures { (all past : List Said) → IsBehind (map said_of statements.now) past self.old
            → IsBehind all past self.old → StandsIfNamed all (settings past) index (said_of statement.now)
            → Takes all past (said_of statement.now) self.new result }
    {
        if let Some(code) = self.running.refusal(self.place, statements, statement) {
            return Err(code);
        }
        let made = self.running.pass(statements, index, statement);
        self.place = place_behind(self.place, statements, made);
        Ok(made)
    }
}

/// What is made of statements: their steps, and their changes of period.
#[derive(Drop)]
pub(crate) struct Makings {
    pub(crate) steps: Vec<KeptStep>,
    pub(crate) periods: Vec<PeriodChange>,
}

impl Makings {
    /// Nothing yet.
    pub(crate) fn new(alloc: Global) -> Makings
        ensures steps { result.steps.items ≡ [] }
        ensures periods { result.periods.items ≡ [] }
    {
        Makings {
            steps: Vec::new(alloc),
            periods: Vec::new(alloc),
        }
    }

    /// Appends what the statement of this number made, a step or nothing, and the period behind it, where that is
    /// another than before: a step leaves it.
    pub(crate) fn push(
        &mut self,
        number: u32,
        period: u64,
        made: Option<Kept>,
    ) -> Result<(), AllocError>
        ensures steps { IfOk result (λ _. self.new.steps.items ≡ self.old.steps.items ++ kept_as number made) }
        ensures periods { IfOk result
            (λ _. self.new.periods.items ≡ periods.with_change made number period self.old.periods.items) }
    {
        match made {
            None => push_period(&mut self.periods, number, period),
            Some(what) => {
                self.steps.push(KeptStep { number, what })?;
                Ok(())
            }
        }
    }
}

/// Appends a change to this period behind the statement of a number, if that is another than before.
fn push_period(changes: &mut Vec<PeriodChange>, number: u32, period: u64) -> Result<(), AllocError>
    ensures { IfOk result (λ _. changes.new.items ≡ changes.old.items
        ++ periods.change_made number (periods.last_period default_period changes.old.items) period) }
{
    if last_period(changes.as_slice()) != period {
        changes.push(PeriodChange { number, period })?;
    }
    Ok(())
}

/// The period behind these changes.
#[tactic(auto, using(crate::proofs::PeriodChanges::ends_last))]
fn last_period(changes: &[PeriodChange]) -> u64
    ensures { result ≡ periods.last_period default_period changes.now }
{
    match changes.last() {
        Some(change) => change.period,
        None => DEFAULT_PERIOD,
    }
}

/// What is made of statements, or their first refusal.
pub(crate) fn read_all(alloc: Global, statements: &[Statement]) -> Result<Makings, SvfFault>
    ensures keeps { Keeps (map said_of statements.now) result }
    ensures few { IfOk result (λ makings. length makings.steps.items ≤ step_limit) }
{
    let mut makings = Makings::new(alloc);
    let mut reader = Reader::first();
    for (index, statement) in statements.iter().enumerate() {
        let Some(place) = place_of(index) else {
            return Err(memory());
        };
        match reader.take(statements, place, statement) {
            Err(code) => {
                return Err(fault_at(index, code));
            }
            Ok(made) => match makings.push(place + 1, reader.running.period, made) {
                Err(_) => return Err(memory()),
                Ok(()) => {}
            },
        }
    }
    Ok(makings)
}

/// The place of a statement, as a step names it: there is room for 2^32 - 1 statements.
fn place_of(index: usize) -> Option<u32>
    ensures found { IfSome result (λ place. (place ≡ index) × (place + 1 < 2 ^ 32)) }
    ensures none { result ≡ None → 2 ^ 32 ≤ index + 1 }
{
    if index < u32::MAX as usize {
        Some(index as u32)
    } else {
        None
    }
}

/// The refusal of the statement at a place.
fn fault_at(index: usize, code: Code) -> SvfFault
    requires { index + 1 < 2 ^ 64 }
    ensures { result ≡ record { statement = index + 1; code = code } }
{
    SvfFault {
        statement: index + 1,
        code,
    }
}

/// Want of memory.
pub(crate) fn memory() -> SvfFault
    ensures { result ≡ memory_fault }
{
    SvfFault {
        statement: 0,
        code: Code::NoMemory,
    }
}
