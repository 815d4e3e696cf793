//! What is made of the bytes of a play beside it: they are written, or nothing is.

ghost use Rattle.std.specs.Prelude.{◌≡◌, ◌++◌, true, List, ℕ, ⊤};
ghost use Rattle.jt_tap.specs.Controller.{is_stable};
ghost use Rattle.bitbang.specs.StepMessages.{step_bytes};
ghost use Rattle.svf_programs.specs.Legal.{IsFormed};
ghost use Rattle.svf_programs.specs.Sound.{IsWithin};
ghost use Rattle.svf_programs.specs.Seen as seen;
ghost use Rattle.play_direct.specs.Noting.{Notes, notes_then};

use bitbang::StepBytes;
use byte_streams::{Counted, Sink, put_all};
use jt_tap::State;
use svf_programs::Step;

/// How many bytes are handed to a writer at once.
const PIECE: usize = 4096;

/// What takes the bytes of a play beside it.
pub(crate) trait Beside {
    // What stood there before, the bytes, and what stands there once they were taken.
    ghost takes: { Self → List ℕ → Self → Type 0 };

    // Some bytes and then others are taken as all of them at once.
    ghost takes_more: { (a b c : Self) (xs ys : List ℕ)
        → Self.takes a xs b → Self.takes b ys c → Self.takes a (xs ++ ys) c };

    /// Takes bytes.
    fn take(&mut self, bytes: &[u8])
        ensures { takes self.old bytes.now self.new };

    /// Takes the bytes of a step from a resting place.
    fn take_step(&mut self, place: State, step: &Step<'_>)
        requires rests { is_stable place ≡ true }
        requires formed { IsFormed place (seen.step step.now.what) }
        requires within { IsWithin (seen.step step.now.what) }
        ensures { takes self.old (step_bytes place (seen.step step.now.what)) self.new };
}

/// Nothing is made of them.
#[derive(Drop)]
pub(crate) struct Nothing;

impl Beside for Nothing {
    ghost takes = { λ a bytes b. ⊤ };

    ghost takes_more = { λ a b c xs ys one more. tt };

    fn take(&mut self, _bytes: &[u8]) {}

    fn take_step(&mut self, _place: State, _step: &Step<'_>) {}
}

/// They are written.
impl<W: Sink> Beside for Counted<W> {
    ghost takes = { λ a bytes b. Notes W.contents a b bytes };

    ghost takes_more = { λ a b c xs ys one more. notes_then W.contents a b c xs ys one more };

    fn take(&mut self, bytes: &[u8]) {
        note(self, bytes);
    }

    fn take_step(&mut self, place: State, step: &Step<'_>) {
        note_step(place, step, self);
    }
}

/// Writes bytes, unless a write was lost before.
fn note<W: Sink>(out: &mut Counted<W>, bytes: &[u8])
    ensures { Notes W.contents out.old out.new bytes.now }
{
    if out.failures() == 0 {
        let _ = put_all(out, bytes);
    }
}

/// Writes the bytes of a step from a resting place, in large pieces, unless a write was lost before.
fn note_step<W: Sink>(place: State, step: &Step<'_>, out: &mut Counted<W>)
    requires rests { is_stable place ≡ true }
    requires formed { IsFormed place (seen.step step.now.what) }
    requires within { IsWithin (seen.step step.now.what) }
    ensures { Notes W.contents out.old out.new (step_bytes place (seen.step step.now.what)) }
{
    // For the proof alone: a writer loses one call at most.
    let _ = out.failures();
    let mut bytes = StepBytes::of(place, step);
    let mut buffer = [0; PIECE];
    loop {
        let count = bytes.fill(&mut buffer);
        if count == 0 {
            return;
        }
        note(out, &buffer[..count]);
    }
}
