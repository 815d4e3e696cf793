//! The program of a list of statements.

ghost use Rattle.std.specs.Prelude.{◌≡◌, ◌≢◌, ◌+◌, ◌≤◌, IfOk, IfErr, Ok, Err, length, map};
ghost use Rattle.std.specs.List.{sum_by};
ghost use Rattle.svf_parse.specs.Sizes.{size};
ghost use Rattle.svf_programs.specs.Sizes.{content, program_of};
ghost use Rattle.svf_parse.specs.View.{memory_fault, said_of};
ghost use Rattle.svf_programs.specs.Steps as steps;
ghost use Rattle.svf_programs.specs.Sound.{IsSound};
ghost use Rattle.svf_settings.specs.Periods.{KeepsPeriods};
ghost use Rattle.svf_settings.specs.Programs.{Refuses, Resolves, resolution};
ghost use Rattle.svf_settings.specs.Reading.{Answers};

use crate::reading::{Makings, read_all};
use std::alloc::Global;
use svf_parse::{Statement, SvfFault};
use svf_programs::Program;

/// The program that statements are, or their first refusal: that of the first faulty statement, and of its own
/// refusals the one with the lowest number (S7 to S12, S14, S15). Want of memory is S16 with statement 0; a list of
/// 2^32 statements or more wants it too, since a step names a statement by 32 bits.
///
/// The program keeps the statements, so beside them memory is taken for the steps alone.
pub fn resolve(alloc: Global, statements: Vec<Statement>) -> Result<Program, SvfFault>
    // What is accepted is this program, by looking back from each statement.
    ensures found { IfOk result (λ p. Resolves (map said_of statements.items) (program_of p)) }
    // What is this program is accepted, unless memory runs out.
    ensures only { (p : steps.Program) → Resolves (map said_of statements.items) p → Answers result (Ok p) }
    // What is refused has that refusal first.
    ensures refused { IfErr result (λ fault. fault ≢ memory_fault → Refuses (map said_of statements.items) fault) }
    // What has a refusal first is refused so, unless memory runs out.
    ensures first { (fault : SvfFault) → Refuses (map said_of statements.items) fault → Answers result (Err fault) }
    // An accepted program is legal and within the limits.
    ensures sound { IfOk result (λ p. IsSound p.steps) }
    // It is small: steps, bits of fields and states of paths together are no more than the size of the statements,
    // whatever lengths they name.
    ensures small { IfOk result (λ p. length p.steps + p.held ≤ sum_by size (map said_of statements.items)) }
    // It keeps each change of the period of TCK, and so tells the period at each statement.
    ensures periods { IfOk result (λ p. KeepsPeriods (map said_of statements.items) p.periods) }
{
    read(alloc, statements)
}

fn read(alloc: Global, statements: Vec<Statement>) -> Result<Program, SvfFault>
    ensures answers { Answers result (resolution (map said_of statements.items)) }
    ensures held { IfOk result (λ p. p.held ≡ sum_by content (map said_of statements.items)) }
    ensures periods { IfOk result (λ p. KeepsPeriods (map said_of statements.items) p.periods) }
{
    let Makings { steps, periods } = read_all(alloc, statements.as_slice())?;
    Ok(Program::of(statements, steps, periods))
}
