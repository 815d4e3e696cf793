//! Which texts are accepted, and as which programs.

ghost use Rattle.std.specs.Prelude.{◌≢◌, ◌+◌, ◌*◌, ◌≤◌, IfOk, IfErr, Ok, Err, length};
ghost use Rattle.svf_parse.specs.View.{memory_fault};
ghost use Rattle.svf_settings.specs.Reading.{Answers};
ghost use Rattle.svf_programs.specs.Sizes.{program_of};
ghost use Rattle.svf_programs.specs.Steps as steps;
ghost use Rattle.play_direct.specs.Accepting.{Accepts, KeepsPeriodsOf, Refuses};

use std::alloc::Global;
use svf_parse::SvfFault;
use svf_programs::Program;
use svf_settings::resolve_text;

/// The program of a text, or its first refusal: that of its first faulty statement by form (S1 to S6, S13, S15), or
/// where no statement has one, that of the first statement which lacks something from those before it (S7 to S12, S14,
/// S15). Of the refusals of a statement the one with the lowest number is told. Want of memory is S16 with statement 0.
pub fn accept(alloc: Global, text: &[u8]) -> Result<Program, SvfFault>
    // What is accepted is the text's program.
    ensures found { IfOk result (λ p. Accepts text.now (program_of p)) }
    // A text that has a program is accepted as it, unless memory runs out.
    ensures only { (p : steps.Program) → Accepts text.now p → Answers result (Ok p) }
    // What is refused has that refusal first.
    ensures refused { IfErr result (λ fault. fault ≢ memory_fault → Refuses text.now fault) }
    // What has a refusal first is refused so, unless memory runs out.
    ensures first { (fault : SvfFault) → Refuses text.now fault → Answers result (Err fault) }
    // It is small: steps, bits of fields and states of paths together are at most four for each byte of the text.
    ensures small { IfOk result (λ p. length p.steps + p.held ≤ 4 * length text.now) }
    // It keeps each change of the period of TCK, and so tells the period at each statement.
    ensures periods { IfOk result (λ p. KeepsPeriodsOf text.now p.periods) }
{
    resolve_text(alloc, text)
}
