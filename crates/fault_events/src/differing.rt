//! What two groups of pins see otherwise where a fault shows in a way, by what each drives together.
ghost use Rattle.std.specs.Prelude.{◌≡◌};
ghost use Rattle.board_faults.specs.Together as spec;
ghost use Rattle.fault_events.specs.Endings as endings;
ghost use Rattle.fault_events.specs.Notes as notes;
ghost use Rattle.fault_events.specs.Pulls as spec_pulls;

use crate::notes::{Note, Spot};
use board_faults::{Driven, Way, bridge_sees, joined, pull_to, pulled, rest_pull, turned};
use pin_nets::Pull;

/// Which pulls a way is about: that of its net, and of a bridge that of the other.
#[derive(Drop, Clone, Copy)]
pub struct Pulls {
    pub first: Pull,
    pub second: Pull,
}

/// The least wanted bit that is another where a fault shows in a way, by what is noted of both groups of pins.
pub fn first_other(way: Way, pulls: Pulls, one: Note, two: Note) -> Option<Spot>
    ensures { result ≡ spec_pulls.first_by way pulls one two }
{
    let first = first_sees(way, pulls, one.made, two.made);
    let second = second_sees(way, pulls, one.made, two.made);
    earlier(some_if(first, one.first), some_if(second, two.first))
}

/// Whether a bit that stays is another.
pub fn stays_other(way: Way, pulls: Pulls, one: Note, two: Note) -> bool
    ensures { result ≡ spec_pulls.stays_by way pulls one two }
{
    (one.stays && first_sees(way, pulls, one.made, two.made))
        || (two.stays && second_sees(way, pulls, one.made, two.made))
}

/// Whether the first pins see another bit.
fn first_sees(way: Way, pulls: Pulls, f: Driven, g: Driven) -> bool
    ensures { result ≡ spec_pulls.first_sees way pulls f g }
{
    match way {
        Way::Pull { .. } => seen(pulls.first, f) != seen(turned(pulls.first), f),
        Way::Stuck { bit, .. } => seen(pulls.first, f) != bit,
        Way::Open { bit, .. } => seen(pulls.first, f.together(g)) != seen(pull_to(bit), f),
        Way::Short { winner, .. } => {
            seen(pulls.first, f) != bridge_sees(winner, joined(pulls.first, pulls.second), f, g)
        }
    }
}

/// Whether the second pins do.
fn second_sees(way: Way, pulls: Pulls, f: Driven, g: Driven) -> bool
    ensures { result ≡ spec_pulls.second_sees way pulls f g }
{
    match way {
        Way::Pull { .. } | Way::Stuck { .. } => false,
        Way::Open { bit, .. } => {
            seen(pulls.first, f.together(g)) != seen(rest_pull(bit, pulls.first), g)
        }
        Way::Short { winner, .. } => {
            seen(pulls.second, g) != bridge_sees(winner, joined(pulls.first, pulls.second), f, g)
        }
    }
}

/// Of two wanted bits that which comes out first.
pub(crate) fn earlier(a: Option<Spot>, b: Option<Spot>) -> Option<Spot>
    ensures { result ≡ notes.earlier a b }
{
    match (a, b) {
        (None, _) => b,
        (Some(_), None) => a,
        (Some(s), Some(t)) => { if t.index < s.index { b } else { a } }
    }
}

fn some_if(is: bool, spot: Option<Spot>) -> Option<Spot>
    ensures { result ≡ notes.some_if is spot }
{
    if is { spot } else { None }
}

/// What is noted of two groups of pins together.
pub(crate) fn both(a: Note, b: Note) -> Note
    ensures { result ≡ endings.both a b }
{
    Note {
        made: a.made.together(b.made),
        first: earlier(a.first, b.first),
        stays: a.stays || b.stays,
    }
}

/// What ports see of drives and a pull.
fn seen(pull: Pull, f: Driven) -> bool
    ensures { result ≡ spec.sees (spec.together (spec.pulled pull) f) }
{
    pulled(pull).together(f).sees()
}
