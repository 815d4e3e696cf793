//! What a fault comes to, by what is told of its ways.

ghost use Rattle.std.specs.Prelude.{◌≡◌};
ghost use Rattle.play_coverage.specs.Lines as spec;
ghost use Rattle.play_coverage.specs.Lines.{comes_to, has_come, is_counted};

use board_faults::{Fault, Judged, JudgedWay, Verdict};
use fault_serving::Outcome;
use play_model::Ending;

/// A kind of faults, as they are counted.
#[derive(Drop, Clone, Copy)]
pub enum FaultKind {
    Opens,
    Pulls,
    Stuck,
    Shorts,
}

/// Whether a way shows to some program.
pub(crate) fn shows(verdict: Verdict) -> bool
    ensures { result ≡ spec.shows verdict }
{
    match verdict {
        Verdict::Invisible => false,
        Verdict::Played(_) => true,
    }
}

/// Whether a way shows to some program, and this one passes on the board with it.
pub(crate) fn is_passed(verdict: Verdict) -> bool
    ensures { result ≡ spec.is_passed verdict }
{
    match verdict {
        Verdict::Played(Ending::Pass) => true,
        Verdict::Played(_) | Verdict::Invisible => false,
    }
}

fn any_shows(ways: &[JudgedWay]) -> bool
    ensures { result ≡ spec.any_shows ways.now }
{
    ways.iter().any(|judged| shows(judged.verdict))
}

fn any_passed(ways: &[JudgedWay]) -> bool
    ensures { result ≡ spec.any_passed ways.now }
{
    ways.iter().any(|judged| is_passed(judged.verdict))
}

/// Whether the ways of a fault come to this.
fn come_to(outcome: Outcome, ways: &[JudgedWay]) -> bool
    ensures { result ≡ comes_to outcome ways.now }
{
    match outcome {
        Outcome::Caught => any_shows(ways) && !any_passed(ways),
        Outcome::Missed => any_passed(ways),
        Outcome::Invisible => !any_shows(ways),
    }
}

/// Whether a fault has come to this; one with which the board has no meaning comes to nothing.
pub(crate) fn has_come(outcome: Outcome, judged: &Judged) -> bool
    ensures { result ≡ has_come outcome judged.now }
{
    match &judged.ways {
        Some(ways) => come_to(outcome, ways),
        None => false,
    }
}

fn is_kind(kind: FaultKind, fault: Fault) -> bool
    ensures { result ≡ spec.is_kind kind fault }
{
    match (kind, fault) {
        (FaultKind::Opens, Fault::Open { .. })
        | (FaultKind::Pulls, Fault::Pull { .. })
        | (FaultKind::Stuck, Fault::Stuck { .. })
        | (FaultKind::Shorts, Fault::Short { .. }) => true,
        _ => false,
    }
}

/// Whether a fault is one of a kind, and has come to this.
pub(crate) fn is_counted(kind: FaultKind, outcome: Outcome, judged: &Judged) -> bool
    ensures { result ≡ is_counted kind outcome judged.now }
{
    is_kind(kind, judged.fault) && has_come(outcome, judged)
}

/// Whether each way of a fault that shows is missed.
pub(crate) fn all_missed(ways: &[JudgedWay]) -> bool
    ensures { result ≡ spec.all_missed ways.now }
{
    ways.iter().all(|judged| is_passed(judged.verdict) || !shows(judged.verdict))
}
