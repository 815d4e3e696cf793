//! What a player tells: its ending, and the command in work.

ghost use Rattle.std.specs.Prelude.{◌≡◌, ◌-◌, ◌^◌, min};
ghost use Rattle.svf_programs.specs.Sizes.{program_of};
ghost use Rattle.play_model.specs.PlayingOn.{ending_of};
ghost use Rattle.play_model.specs.Streams as stream;
ghost use Rattle.player.specs.Findings.{IsKeptOf, keeping};
ghost use Rattle.player.specs.Progress.{IsProgressOf, is_out, state_of};
ghost use Rattle.player.specs.Window.{window};

use crate::findings::Findings;
use crate::progress::{Phase, Progress, turn_at_work};
use play_model::Ending;
use scan_vectors::Mismatch;
use svf_programs::Program;

/// How the play ended, if it did.
pub(crate) fn ended(program: &Program, p: Progress, kept: &Findings) -> Option<Ending>
    requires stands { IsProgressOf program.now.steps p }
    requires keeps { IsKeptOf (state_of (program_of program.now) p) kept.now }
    ensures { result ≡ stream.ending_of_stream window (keeping kept.now (state_of (program_of program.now) p)) }
{
    if let Some(byte) = p.bad {
        let command = program.step(p.at).number;
        return Some(Ending::BadAnswer { command, byte });
    }
    if quit_is_out(p) {
        Some(verdict(kept))
    } else {
        None
    }
}

/// Whether `Q` is out.
fn quit_is_out(p: Progress) -> bool
    ensures { result ≡ is_out p.phase }
{
    match p.phase {
        Phase::Opening(_) => false,
        Phase::Within(_) => false,
        Phase::Over(out) => out,
    }
}

/// The verdict of a play of which `Q` is out.
fn verdict(kept: &Findings) -> Ending
    ensures { result ≡ ending_of kept.now.found.list }
{
    match kept.first() {
        Some(Mismatch { command, part, bit }) => Ending::Fail { command, part, bit },
        None => Ending::Pass,
    }
}

/// The command in work, or the largest number where it is more.
pub(crate) fn working(program: &Program, p: Progress) -> usize
    requires { IsProgressOf program.now.steps p }
    ensures { result ≡ min (stream.working (state_of (program_of program.now) p)) (2 ^ 64 - 1) }
{
    let p = turn_at_work(program, p);
    match p.phase {
        Phase::Opening(_) => 0,
        Phase::Within(_) => program.step(p.at).number,
        Phase::Over(_) => program.statements().saturating_add(1),
    }
}
