//! The value that a program wants of a bit.

ghost use Rattle.std.specs.Prelude.{◌≡◌};
ghost use Rattle.svf_programs.specs.Seen as seen;
ghost use Rattle.play_explained.specs.Wanted as spec;

use board_reasons::{place_in, wanted_at};
use scan_vectors::Mismatch;
use svf_programs::{Action, Program, Step};

/// The value that a program wants of a bit: that of the step of its statement; 0 where it wants none.
pub(crate) fn wanted_of(program: &Program, failure: Mismatch) -> bool
    ensures { result ≡ spec.wanted_of program.now.steps failure }
{
    for step in program.steps() {
        if step.number == failure.command {
            return wanted_in(&step, failure);
        }
    }
    false
}

/// The value that a step wants of a bit of its vector.
fn wanted_in(step: &Step<'_>, failure: Mismatch) -> bool
    ensures { result ≡ spec.wanted_in (seen.step step.now.what) failure }
{
    match step.what {
        Action::Scan { vector, .. } => {
            wanted_at(&vector, place_in(&vector, failure.part, failure.bit))
        }
        Action::Go(_) | Action::Path(_) | Action::Run { .. } | Action::Trst(_) => false,
    }
}
