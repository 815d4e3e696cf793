//! A program that was accepted.

ghost use Rattle.std.specs.Prelude.{◌≡◌, ◌<◌, ◌+◌, length, map, slice_get, Some};
ghost use Rattle.svf_parse.specs.View.{said_of};
ghost use Rattle.svf_programs.specs.Held as held;
ghost use Rattle.svf_programs.specs.Seen as seen;
ghost use Rattle.svf_programs.specs.Sound.{IsWithin};

use crate::kept::{Kept, KeptStep, part_or_none, path_at};
use crate::periods::{PeriodChange, Periods};
use crate::step::{Action, Step};
use std::marker::Model;
use svf_parse::Statement;

/// A program that was accepted: steps, and the statements as they are written in which these name their fields. So it
/// takes memory in proportion to its text, however long its vectors are. It keeps the period of TCK too, by its
/// changes.
#[derive(Debug, Drop)]
pub struct Program {
    /// How many statements the text has, kept or not.
    count: usize,
    statements: Vec<Statement>,
    steps: Vec<KeptStep>,
    periods: Vec<PeriodChange>,
}

impl Model for Program {
    ghost use Rattle.std.specs.Prelude.{map, length};
    ghost use Rattle.std.specs.List.{sum_by};
    ghost use Rattle.svf_programs.specs.Sizes.{Holding, content};

    ghost Value = { Holding };

    ghost use Rattle.svf_parse.specs.View.{said_of};
    ghost use Rattle.svf_programs.specs.Held.{numbered_in};
    ghost use Rattle.svf_programs.specs.Sound.{IsKept};

    ghost view = { λ p. record {
      statements = p.count;
      steps = map (numbered_in (map said_of p.statements.items)) p.steps.items;
      held = sum_by content (map said_of p.statements.items);
      periods = p.periods.items;
    } };

    ghost invariant = { λ p. IsKept (map (numbered_in (map said_of p.statements.items)) p.steps.items) };
}

impl Program {
    ghost use Rattle.std.specs.Prelude.{◌≡◌, ◌<◌, ◌≤◌, length, map, slice_get, Some};
    ghost use Rattle.svf_parse.specs.View.{said_of};
    ghost use Rattle.svf_programs.specs.Held.{numbered_in};
    ghost use Rattle.svf_programs.specs.Sound.{IsSound, step_limit};
    ghost use Rattle.svf_programs.specs.Seen.{numbered};
    ghost use Rattle.std.specs.List.{sum_by};
    ghost use Rattle.svf_programs.specs.Sizes.{content};
    ghost use Rattle.svf_programs.specs.Left.{left};

    /// The program of these statements and steps, which are sound (asked) and fewer than 2^32 (asked), with these
    /// changes of period.
    pub fn of(
        statements: Vec<Statement>,
        steps: Vec<KeptStep>,
        periods: Vec<PeriodChange>,
    ) -> Program
        requires sound { IsSound (map (numbered_in (map said_of statements.items)) steps.items) }
        requires few { length steps.items ≤ step_limit }
        ensures { result ≡ record {
          statements = length statements.items;
          steps = map (numbered_in (map said_of statements.items)) steps.items;
          held = sum_by content (map said_of statements.items);
          periods = periods.items;
        } }
    {
        Program::of_kept(statements.len(), statements, steps, periods)
    }

    /// The program of these steps, which are sound (asked) and fewer than 2^32 (asked), of a text with so many
    /// statements, of which these are kept, and with these changes of period.
    pub fn of_kept(
        count: usize,
        statements: Vec<Statement>,
        steps: Vec<KeptStep>,
        periods: Vec<PeriodChange>,
    ) -> Program
        requires sound { IsSound (map (numbered_in (map said_of statements.items)) steps.items) }
        requires few { length steps.items ≤ step_limit }
        ensures { result ≡ record {
          statements = count;
          steps = map (numbered_in (map said_of statements.items)) steps.items;
          held = sum_by content (map said_of statements.items);
          periods = periods.items;
        } }
    {
        Program {
            count,
            statements,
            steps,
            periods,
        }
    }

    /// How many statements the text has.
    pub fn statements(&self) -> usize
        ensures { result ≡ self.now.statements }
    {
        self.count
    }

    /// How many steps they make.
    pub fn len(&self) -> usize
        ensures count { result ≡ length self.now.steps }
        ensures sound { IsSound self.now.steps }
        ensures few { length self.now.steps ≤ step_limit }
    {
        self.steps.len()
    }

    /// The step with this place in the order of the steps, counted from 0. It takes no memory.
    pub fn step(&self, at: usize) -> Step<'_>
        requires { at < length self.now.steps }
        ensures { slice_get self.now.steps at ≡ Some (numbered result) }
    {
        read(self.statements.as_slice(), &self.steps[at])
    }

    /// The period of TCK at its statements.
    pub fn periods(&self) -> Periods<'_>
        ensures { result ≡ self.now.periods }
    {
        Periods::of(self.periods.as_slice())
    }

    /// The steps in order.
    pub fn steps(&self) -> Steps<'_>
        ensures { left result ≡ self.now.steps }
    {
        Steps {
            program: self,
            at: 0,
        }
    }
}

/// The steps of a program that are left, in order.
#[derive(Debug, Drop)]
pub struct Steps<'a> {
    program: &'a Program,
    at: usize,
}

impl<'a> Iterator for Steps<'a> {
    type Item = Step<'a>;

    ghost use Rattle.std.specs.Iterator.{YieldsFirstBy, item_count};
    ghost use Rattle.svf_programs.specs.Seen.{numbered};
    ghost use Rattle.svf_programs.specs.Left.{left};

    ghost next_gives = { YieldsFirstBy numbered left };

    ghost remaining = { item_count left };

    fn next(&mut self) -> Option<Step<'a>> {
        if self.at >= self.program.len() {
            return None;
        }
        let step = self.program.step(self.at);
        self.at += 1;
        Some(step)
    }
}

/// The step that is kept so.
fn read<'a>(statements: &'a [Statement], step: &KeptStep) -> Step<'a>
    requires { IsWithin (held.step_in (map said_of statements.now) step.now.what) }
    ensures { seen.numbered result ≡ held.numbered_in (map said_of statements.now) step.now }
{
    Step {
        number: step.number as usize,
        what: action(statements, &step.what),
    }
}

/// What a step does that is kept so.
fn action<'a>(statements: &'a [Statement], what: &Kept) -> Action<'a>
    requires { IsWithin (held.step_in (map said_of statements.now) what.now) }
    ensures { seen.step result ≡ held.step_in (map said_of statements.now) what.now }
{
    match what {
        Kept::Scan {
            column,
            header,
            body,
            trailer,
            end,
        } => Action::Scan {
            column: *column,
            vector: scan_vectors::join(
                part_or_none(*header, statements),
                body.part(statements),
                part_or_none(*trailer, statements),
            ),
            end: *end,
        },
        Kept::Go(state) => Action::Go(*state),
        Kept::Path(at) => Action::Path(path_at(statements, *at)),
        Kept::Run { run, cycles, end } => Action::Run {
            run: *run,
            cycles: *cycles,
            end: *end,
        },
        Kept::Trst(word) => Action::Trst(*word),
    }
}
