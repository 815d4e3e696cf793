//! Bridges that words judge are only counted, by what they come to; the other faults are kept.

ghost use Rattle.std.specs.Prelude.{◌≡◌, ◌<◌, ◌&&◌, ◌+◌, [], List, true, not, IfOk, IfSome};
ghost use Rattle.std.specs.List.{AllByRecursion, list_any};
ghost use Rattle.svf_programs.specs.Sizes.{program_of};
ghost use Rattle.board_plan.specs.View.{wiring};
ghost use Rattle.board_faults.specs.declared.kinds.Way.TheVariants as way;
ghost use Rattle.board_faults.specs.Faults.{IsFaultOf, winners};
ghost use Rattle.board_faults.specs.Listing.{left_of};
ghost use Rattle.board_faults.specs.Made.{IsReadyPlan};
ghost use Rattle.board_faults.specs.Sights.{AreSights, shows_by};
ghost use Rattle.fault_events.specs.Captures.{Noted};
ghost use Rattle.fault_serving.specs.Planes.{failing_at};
ghost use Rattle.fault_serving.specs.Serving.{MayServe};
ghost use Rattle.fault_serving.specs.Sifting as spec;
ghost use Rattle.fault_serving.specs.Sifting.{AreCounted, ComesBy, IsSieve, IsSifted, Sifts, nets_of};

use crate::planing::{Failing, NoteWords, WINNERS, failing_ways};
use crate::serving::{Chunk, Serving, few_of, first_blocks, is_whole, most_of, told_endings};
use board_faults::{Fault, Faults, Sights, bridge_shows, ways_of};
use board_plan::{Plan, PlannedNet};
use std::alloc::{AllocError, Global};
use svf_programs::Program;

/// What a program makes of a fault.
#[derive(Drop, Clone, Copy)]
pub enum Outcome {
    /// Each of its ways that shows is caught.
    Caught,
    /// One of its ways shows, and is not caught.
    Missed,
    /// None of its ways shows to any program.
    Invisible,
}

/// How many faults are caught, missed and invisible.
#[derive(Drop, Clone, Copy)]
pub struct Counts {
    pub caught: usize,
    pub missed: usize,
    pub invisible: usize,
}

/// No faults.
const NO_COUNTS: Counts = Counts {
    caught: 0,
    missed: 0,
    invisible: 0,
};

impl Counts {
    /// With one more that comes to this. Refused where that does not fit.
    fn with(self, outcome: Outcome) -> Result<Counts, AllocError>
        ensures { IfOk result (λ c. c ≡ spec.one_more outcome self) }
    {
        match outcome {
            Outcome::Caught => Ok(Counts {
                caught: one_more(self.caught)?,
                ..self
            }),
            Outcome::Missed => Ok(Counts {
                missed: one_more(self.missed)?,
                ..self
            }),
            Outcome::Invisible => Ok(Counts {
                invisible: one_more(self.invisible)?,
                ..self
            }),
        }
    }
}

/// Refused where that does not fit.
fn one_more(count: usize) -> Result<usize, AllocError>
    ensures { IfOk result (λ n. n ≡ count + 1) }
{
    count.checked_add(1).ok_or(AllocError)
}

/// Which bridges may be only counted.
#[derive(Drop, Clone, Copy)]
pub enum Counting {
    Nothing,
    AllButMissed,
    Everything,
}

impl Counting {
    /// Whether one that comes to this may be.
    fn counts(self, outcome: Outcome) -> bool
        ensures { result ≡ spec.may_count self outcome }
    {
        match self {
            Counting::Nothing => false,
            Counting::AllButMissed => match outcome {
                Outcome::Caught | Outcome::Invisible => true,
                Outcome::Missed => false,
            },
            Counting::Everything => true,
        }
    }
}

/// Some faults of a board, one after another: so many bridges that are only counted, and the others.
#[derive(Drop)]
pub struct Sifted {
    pub counts: Counts,
    pub chunk: Chunk,
}

/// The next of the faults of a planned board that are left, as `next_chunk` has them, but for bridges: where the first
/// captures of the play tell of each of its ways how the program ends, one is only counted, if that is asked for. That
/// a way passes is told only where there are no more than 4,096 captures; whether it shows is told by what is seen of
/// the board (asked). No other fault is there only where none is left. Refused where memory runs out, or where a count
/// does not fit.
pub fn next_sifted(
    alloc: Global,
    serving: &Serving,
    plan: &Plan,
    program: &Program,
    sights: &Sights,
    counting: Counting,
    left: &mut Faults<'_>,
) -> Result<Sifted, AllocError>
    requires ready { IsReadyPlan plan.now }
    requires serving { MayServe (program_of program.now) (wiring plan.now) serving.now }
    requires sights { AreSights (wiring plan.now).members (wiring plan.now).nets sights.now }
    requires faults { AllByRecursion (IsFaultOf (wiring plan.now).nets) (left_of left.old) }
    ensures { IfOk result (λ s. IsSifted (program_of program.now) (wiring plan.now) counting (left_of left.old) s
        (left_of left.new)) }
{
    // For the proof alone: what the type keeps of a program's steps.
    let _ = program.len();
    let sieve = Sieve {
        blocks: first_blocks(serving),
        whole: is_whole(serving),
        nets: &plan.nets,
        sights,
        counting,
    };
    let mut faults = Vec::new(alloc);
    let most = most_kept(serving, counting, plan);
    let counts = sift(&sieve, left, most, &mut faults)?;
    let ways = ways_of(alloc, &faults)?;
    let endings = told_endings(alloc, serving, plan, program, &ways)?;
    Ok(Sifted {
        counts,
        chunk: Chunk { faults, endings },
    })
}

/// So many faults are kept at a time: few where bridges may be only counted, and words have all captures of a play.
fn most_kept(serving: &Serving, counting: Counting, plan: &Plan) -> usize
    ensures { 0 < result }
{
    match counting {
        Counting::Nothing => most_of(serving),
        Counting::AllButMissed | Counting::Everything => {
            if is_whole(serving) {
                few_of(plan.nets.len())
            } else {
                most_of(serving)
            }
        }
    }
}

/// Puts the next of the faults that are left behind none, so many or all of them, but for the bridges that are counted.
/// Refused where memory runs out, or where a count does not fit.
fn sift(
    sieve: &Sieve<'_>,
    left: &mut Faults<'_>,
    most: usize,
    kept: &mut Vec<Fault>,
) -> Result<Counts, AllocError>
    requires some { 0 < most }
    requires none { kept.old.items ≡ [] }
    ensures sifts { (ns : List Noted) → IsSieve ns sieve.now
        → IfOk result (λ c. Sifts (ComesBy sieve.now ns) (left_of left.old) kept.new.items c (left_of left.new)) }
    ensures counted { IfOk result (AreCounted sieve.now.counting) }
{
    let mut counts = NO_COUNTS;
    'faults: while kept.len() < most {
        let Some(fault) = left.next() else {
            return Ok(counts);
        };
        if let Some(outcome) = sieve.counted(fault) {
            counts = counts.with(outcome)?;
        } else {
            kept.push(fault)?;
        }
    }
    Ok(counts)
}

/// What bridges are judged by: what is noted of nets at the first captures of a play, by words, block after block;
/// whether these are all of them; and what is seen of the nets' board.
#[derive(Drop)]
pub(crate) struct Sieve<'a> {
    blocks: &'a [Vec<NoteWords>],
    whole: bool,
    nets: &'a [PlannedNet],
    sights: &'a Sights,
    counting: Counting,
}

impl Sieve<'_> {
    /// What a bridge comes to, if it may be only counted; nothing of another fault.
    fn counted(&self, fault: Fault) -> Option<Outcome>
        ensures comes { (ns : List Noted) → IsSieve ns self.now → IfSome result (λ o. ComesBy self.now ns o fault) }
        ensures may { IfSome result (λ o. spec.may_count self.now.counting o ≡ true) }
    {
        if let Counting::Nothing = self.counting {
            return None;
        }
        let outcome = self.outcome(fault)?;
        if self.counting.counts(outcome) {
            return Some(outcome);
        }
        None
    }

    /// What a bridge comes to, if words tell it of each of its ways.
    fn outcome(&self, fault: Fault) -> Option<Outcome>
        ensures { (ns : List Noted) → IsSieve ns self.now → IfSome result (λ o. ComesBy self.now ns o fault) }
    {
        let Fault::Short { first, second } = fault else {
            return None;
        };
        let failing = failing_ways(self.blocks, self.whole, self.nets, first, second)?;
        let missed = self.is_missed(first, second, failing);
        Some(outcome_by(missed, is_any_failing(failing)))
    }

    /// Whether a way of a bridge passes, and shows to some program.
    fn is_missed(&self, first: usize, second: usize, failing: Failing) -> bool
        ensures { result ≡ list_any (λ winner. not (failing_at failing winner)
            && shows_by self.now.sights.now (nets_of self.now) (way.Short first second winner)) winners }
    {
        WINNERS.iter().any(|winner| {
            !failing.at(*winner) && bridge_shows(self.sights, self.nets, first, second, *winner)
        })
    }
}

/// Whether a way of a bridge fails.
fn is_any_failing(failing: Failing) -> bool
    ensures { result ≡ list_any (failing_at failing) winners }
{
    WINNERS.iter().any(|winner| failing.at(*winner))
}

/// What a bridge comes to, by whether a way of it is missed, and whether one is caught.
fn outcome_by(missed: bool, caught: bool) -> Outcome
    ensures { result ≡ spec.outcome_by missed caught }
{
    if missed {
        Outcome::Missed
    } else if caught {
        Outcome::Caught
    } else {
        Outcome::Invisible
    }
}
