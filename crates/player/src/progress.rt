//! Where a player stands in its play, and how it goes on to the next turn.

ghost use Rattle.std.specs.Prelude.{◌≡◌, ◌≤◌, ◌<◌, ◌+◌, suc, false, drop, length, None, MatchOption};
ghost use Rattle.svf_programs.specs.Sizes.{program_of};
ghost use Rattle.player.specs.PlaceInPlay.{state_at};
ghost use Rattle.player.specs.Progress.{HasWorkLeft, IsProgressOf, Rests, ahead, state_of};

use bitbang::{Spot, StepBytes};
use jt_tap::State;
use svf_programs::Program;
use tck_cycles::place_after;

/// The bytes that open a play.
pub(crate) const OPENING: &[u8; 12] = b"r26262626260";

/// The present turn.
#[derive(Debug, Clone, Copy)]
pub(crate) enum Phase {
    /// The opening, of which so many bytes are out.
    Opening(usize),
    /// A step, of which the bytes before this spot are out.
    Within(Spot),
    /// No turn is left; whether `Q` is out.
    Over(bool),
}

/// Where a player stands.
#[derive(Debug, Clone, Copy)]
pub(crate) struct Progress {
    pub(crate) phase: Phase,
    /// The present step, counted from 0.
    pub(crate) at: usize,
    /// Where it begins.
    pub(crate) place: State,
    /// How many of its answers were taken, and how many more are owed.
    pub(crate) heard: usize,
    pub(crate) owed: usize,
    /// The bit of its vector from which on no wanted bit is judged.
    pub(crate) judged: usize,
    /// Whether it stops behind the present step, since a bit differed.
    pub(crate) stopped: bool,
    /// The byte that was no answer.
    pub(crate) bad: Option<u8>,
}

impl Progress {
    ghost use Rattle.std.specs.Prelude.{◌≡◌, None, false};

    /// The start of a play.
    pub(crate) fn opening() -> Progress
        ensures { result ≡ record {
          phase = Phase.Opening 0;
          at = 0;
          place = State.Reset;
          heard = 0;
          owed = 0;
          judged = 0;
          stopped = false;
          bad = None;
        } }
    {
        Progress {
            phase: Phase::Opening(0),
            ..Progress::before(Phase::Over(false), 0, State::Reset)
        }
    }

    /// A turn of which nothing is out.
    fn before(phase: Phase, at: usize, place: State) -> Progress
        ensures { result ≡ record {
          phase = phase;
          at = at;
          place = place;
          heard = 0;
          owed = 0;
          judged = 0;
          stopped = false;
          bad = None;
        } }
    {
        Progress {
            phase,
            at,
            place,
            heard: 0,
            owed: 0,
            judged: 0,
            stopped: false,
            bad: None,
        }
    }
}

/// The start of the step with this place in the order of the steps; behind the last one, the end of the play.
pub(crate) fn start_of_step(program: &Program, at: usize, place: State) -> Progress
    requires rests { Rests program.now.steps at place }
    ensures stands { IsProgressOf program.now.steps result }
    ensures same { state_of (program_of program.now) result
        ≡ state_at (program_of program.now)
        (record { over = suc at; gone = 0; heard = 0; stopped = false; bad = None }) }
    ensures fewer { ahead program.now.steps result ≤ length (drop at program.now.steps) + 1 }
{
    if at < program.len() {
        let step = program.step(at);
        let spot = StepBytes::of(place, &step).spot();
        Progress::before(Phase::Within(spot), at, place)
    } else {
        Progress::before(Phase::Over(false), at, place)
    }
}

/// The next turn, where nothing of the present one is left to be done: all its bytes are out, and all its answers are
/// there.
pub(crate) fn next_turn(program: &Program, p: Progress) -> Option<Progress>
    requires stands { IsProgressOf program.now.steps p }
    ensures { MatchOption result (HasWorkLeft (drop p.at program.now.steps) p p.phase)
        (λ next. IsProgressOf program.now.steps next
        × (state_of (program_of program.now) next ≡ state_of (program_of program.now) p)
        × (ahead program.now.steps next < ahead program.now.steps p)) }
{
    match p.phase {
        Phase::Opening(n) if n == OPENING.len() => Some(start_of_step(program, 0, State::Reset)),
        Phase::Within(spot) if p.owed == 0 => after_step(program, p, spot),
        _ => None,
    }
}

/// What follows a step of which no answer is owed, once all its bytes are out.
fn after_step(program: &Program, p: Progress, spot: Spot) -> Option<Progress>
    requires stands { IsProgressOf program.now.steps p }
    requires is { p.phase ≡ Phase.Within spot }
    requires nothing { p.owed ≡ 0 }
    ensures { MatchOption result (HasWorkLeft (drop p.at program.now.steps) p p.phase)
        (λ next. IsProgressOf program.now.steps next
        × (state_of (program_of program.now) next ≡ state_of (program_of program.now) p)
        × (ahead program.now.steps next < ahead program.now.steps p)) }
{
    // For the proof alone: the steps are counted.
    let _ = program.len();
    let step = program.step(p.at);
    if StepBytes::resume(p.place, &step, spot).peek().is_some() {
        return None;
    }
    if p.stopped {
        return Some(Progress {
            phase: Phase::Over(false),
            ..p
        });
    }
    Some(start_of_step(program, p.at + 1, place_after(p.place, &step)))
}

/// The turn that is next at work: the present one, or where nothing of it is left to be done, one behind it.
pub(crate) fn turn_at_work(program: &Program, p: Progress) -> Progress
    requires { IsProgressOf program.now.steps p }
    ensures stands { IsProgressOf program.now.steps result }
    ensures same { state_of (program_of program.now) result ≡ state_of (program_of program.now) p }
    ensures ready { HasWorkLeft (drop result.at program.now.steps) result result.phase }
{
    let mut p = p;
    while let Some(next) = next_turn(program, p) {
        p = next;
    }
    p
}
