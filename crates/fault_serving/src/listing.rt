//! Whether a play to the end lists a bit that is none of some.

ghost use Rattle.std.specs.Prelude.{◌≡◌, List, false, map};
ghost use Rattle.svf_programs.specs.Sizes.{program_of};
ghost use Rattle.board_plan.specs.View.{net as planned_net, wiring};
ghost use Rattle.board_faults.specs.declared.kinds.Way.TheVariants as way;
ghost use Rattle.board_faults.specs.Faults.{IsWayOf};
ghost use Rattle.board_faults.specs.Faulty.{CanBeJudged};
ghost use Rattle.fault_events.specs.Captures.{Noted};
ghost use Rattle.fault_events.specs.Nets.{seen, with_nets_noted};
ghost use Rattle.fault_serving.specs.Firsts as spec;
ghost use Rattle.fault_serving.specs.Firsts.{FirstsAreFailures, HasOther, OthersAreTold, firsts_noted};
ghost use Rattle.fault_serving.specs.Serving.{ListsOther, MayServe};

use crate::serving::{Serving, kept_captures};
use board_faults::{Way, Winner};
use board_plan::{Plan, PlannedNet};
use fault_events::{NetCapture, Pulls, Spot, first_other, note_at, pulls_of, stays_other};
use scan_vectors::Mismatch;
use svf_programs::Program;

/// Whether the play of a program to the end, on a planned board with a fault that shows in one of these ways (asked),
/// may list no other bits than these, as far as one play of the board tells. That is told of bridges, by the captures
/// of the first block, if they are kept: the first bit that fails at each of them.
pub fn may_list(
    serving: &Serving,
    plan: &Plan,
    program: &Program,
    way: Way,
    bits: &[Mismatch],
) -> bool
    requires may { CanBeJudged (wiring plan.now) }
    requires serving { MayServe (program_of program.now) (wiring plan.now) serving.now }
    requires way { IsWayOf (wiring plan.now).nets way }
    ensures { result ≡ false → ListsOther (program_of program.now) (wiring plan.now) way bits.now }
{
    // For the proof alone: what the type keeps of a program's steps.
    let _ = program.len();
    let Way::Short {
        first,
        second,
        winner,
    } = way
    else {
        return true;
    };
    let captures = kept_captures(serving);
    bridge_may_list(captures, &plan.nets, first, second, winner, bits)
}

/// The same of a bridge of two of these nets, by what is noted of them at the first captures of a play.
fn bridge_may_list(
    captures: &[NetCapture],
    nets: &[PlannedNet],
    first: usize,
    second: usize,
    winner: Winner,
    bits: &[Mismatch],
) -> bool
    ensures { (ns : List Noted) → map seen captures.now ≡ map (with_nets_noted (map planned_net nets.now)) ns
        → result ≡ false
        → HasOther bits.now (firsts_noted (map planned_net nets.now) (way.Short first second winner) ns) }
{
    let way = Way::Short {
        first,
        second,
        winner,
    };
    let pulls = pulls_of(nets, first, second);
    lists_firsts(bits, captures, way, pulls, first, second)
}

/// Whether these are all of the bits that fail first where a fault of whole nets shows in a way, one at a capture at
/// most, up to a capture at which a bit that stays in a register is another. If not, the play to the end lists another.
fn lists_firsts(
    bits: &[Mismatch],
    captures: &[NetCapture],
    way: Way,
    pulls: Pulls,
    first: usize,
    second: usize,
) -> bool
    ensures { result ≡ spec.lists_firsts bits.now way pulls first second (map seen captures.now) }
{
    for capture in captures {
        let one = note_at(first, &capture.nets);
        let two = note_at(second, &capture.nets);
        if !is_listed(bits, capture.command, first_other(way, pulls, one, two)) {
            return false;
        }
        if stays_other(way, pulls, one, two) {
            return true;
        }
    }
    true
}

/// Whether a bit of a statement is one of these, if there is one.
fn is_listed(bits: &[Mismatch], command: usize, spot: Option<Spot>) -> bool
    ensures { result ≡ spec.is_listed bits.now command spot }
{
    match spot {
        None => true,
        Some(spot) => is_among(
            bits,
            Mismatch {
                command,
                part: spot.part,
                bit: spot.bit,
            },
        ),
    }
}

fn is_among(bits: &[Mismatch], its: Mismatch) -> bool
    ensures { result ≡ spec.is_among bits.now its }
{
    bits.iter().any(|bit| is_same(its, *bit))
}

fn is_same(one: Mismatch, other: Mismatch) -> bool
    ensures { result ≡ spec.is_same_bit one other }
{
    one.command == other.command && one.part == other.part && one.bit == other.bit
}

/// Of a program that passes on a sound board without strings: the first bit that fails at each capture where a fault
/// shows in a way fails in its play to the end on the board with it, as long as no bit that stays is another before.
pub fn firsts_are_failures()
    ensures { FirstsAreFailures }
{}

/// Where one of these is none of some bits, by what is noted of two nets that are bridged, that is another.
pub fn others_are_told()
    ensures { OthersAreTold }
{}
