//! The period of TCK at the statements of a program.

ghost use Rattle.std.specs.Prelude.{◌≡◌, ◌≤◌};
ghost use Rattle.svf_programs.specs.Periods.{FollowsAt, IsAt, default_period, period_in};

use std::marker::Model;

/// The period of TCK in picoseconds where no frequency is given: that of 1 MHz.
pub const DEFAULT_PERIOD: u64 = 1_000_000;

/// Another period of TCK than before.
#[derive(Debug, Drop, Clone, Copy)]
pub struct PeriodChange {
    /// The number of the statement behind which it is in force, counted from 1.
    pub number: u32,
    /// The period in picoseconds.
    pub period: u64,
}

/// The period of TCK at the statements of a program, asked for one after another. Contracts see it as the changes of
/// period.
#[derive(Debug, Drop)]
pub struct Periods<'a> {
    changes: &'a [PeriodChange],
    passed: Passed,
}

impl<'a> Model for Periods<'a> {
    ghost use Rattle.std.specs.Prelude.{List};
    ghost use Rattle.svf_programs.specs.declared.periods.PeriodChange.{PeriodChange};

    ghost Value = { List PeriodChange };

    ghost use Rattle.svf_programs.specs.Periods.{IsAt};

    ghost view = { λ p. p.changes.now };

    ghost invariant = { λ p. IsAt p.changes.now p.passed.number p.passed.count p.passed.period };
}

impl<'a> Periods<'a> {
    /// Those of these changes, which stand in the order of their statements.
    pub fn of(changes: &'a [PeriodChange]) -> Periods<'a>
        ensures { result ≡ changes.now }
    {
        Periods {
            changes,
            passed: none_passed(),
        }
    }

    /// The period in force at the statement of a number, in picoseconds. Where the numbers that are asked for rise, one
    /// pass over the changes finds them all.
    pub fn at(&mut self, number: usize) -> u64
        ensures period { result ≡ period_in self.old number }
        ensures changes { self.new ≡ self.old }
    {
        self.passed = passed_to(self.changes, self.passed, number);
        self.passed.period
    }
}

/// The changes up to the statement of a number: how many they are, and the period behind them.
#[derive(Debug, Drop, Clone, Copy)]
struct Passed {
    number: usize,
    count: usize,
    period: u64,
}

/// No change.
fn none_passed() -> Passed
    ensures number { result.number ≡ 0 }
    ensures count { result.count ≡ 0 }
    ensures period { result.period ≡ default_period }
{
    Passed {
        number: 0,
        count: 0,
        period: DEFAULT_PERIOD,
    }
}

/// The changes up to the statement of this number.
fn passed_to(changes: &[PeriodChange], passed: Passed, number: usize) -> Passed
    requires { IsAt changes.now passed.number passed.count passed.period }
    ensures period { result.period ≡ period_in changes.now number }
    ensures at { IsAt changes.now result.number result.count result.period }
{
    if number < passed.number {
        pass_until(changes, none_passed(), number)
    } else {
        pass_until(changes, passed, number)
    }
}

/// The changes up to the statement of this number, some of which were passed.
fn pass_until(changes: &[PeriodChange], passed: Passed, number: usize) -> Passed
    requires at { IsAt changes.now passed.number passed.count passed.period }
    requires ahead { passed.number ≤ number }
    ensures period { result.period ≡ period_in changes.now number }
    ensures at { IsAt changes.now result.number result.count result.period }
{
    let mut here = passed;
    while let Some(change) = change_before(changes, here.count, number) {
        here = Passed {
            number,
            count: here.count + 1,
            period: change.period,
        };
    }
    Passed { number, ..here }
}

/// The change at this place, if its statement stands before that of a number.
fn change_before(changes: &[PeriodChange], at: usize, number: usize) -> Option<PeriodChange>
    ensures { FollowsAt changes.now at number result }
{
    match changes.get(at) {
        Some(change) if (change.number as usize) < number => Some(*change),
        _ => None,
    }
}
