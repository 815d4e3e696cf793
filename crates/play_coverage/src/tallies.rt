//! What is told of judged faults, one after another: their lines, and how many there are of each kind.

ghost use Rattle.std.specs.Prelude.{◌≡◌, ◌+◌, ◌++◌, ◌∷◌, [], List, Bool, ℕ, IfOk, OnOk};
ghost use Rattle.board_faults.specs.declared.judging.Judged.{Judged as TheJudged};
ghost use Rattle.board_plan.specs.Planned.{Wiring};
ghost use Rattle.board_plan.specs.View.{wiring};
ghost use Rattle.play_coverage.specs.Lines.{is_loop};
ghost use Rattle.play_coverage.specs.Tallies as spec;
ghost use Rattle.play_coverage.specs.Tallies.{IsTally, counts_with, line_told, next_told, one_if, with_counts};

use crate::outcomes::{FaultKind, has_come, is_counted};
use crate::ways::{put_each_way, put_missed_line};
use board_faults::Judged;
use board_plan::Plan;
use fault_serving::{Counting, Counts, Outcome};
use std::alloc::AllocError;

/// So many faults that are missed are told, each with a line.
const MOST_TOLD: usize = 256;

/// What is told of the faults that were judged so far: a text with their lines, how many of them are missed and told
/// there, and how many there are of each kind. No fault itself is kept.
#[derive(Drop)]
pub(crate) struct Tally {
    pub(crate) text: Vec<u8>,
    pub(crate) told: usize,
    pub(crate) opens: Counts,
    pub(crate) pulls: Counts,
    pub(crate) stuck: Counts,
    pub(crate) shorts: Counts,
    pub(crate) loops: usize,
}

/// What is told of no fault, behind a text.
pub(crate) fn tally_behind(text: Vec<u8>) -> Tally
    ensures { (listed : Bool) (w : Wiring) → IsTally text.items listed w [] result }
{
    let none = Counts {
        caught: 0,
        missed: 0,
        invisible: 0,
    };
    Tally {
        text,
        told: 0,
        opens: none,
        pulls: none,
        stuck: none,
        shorts: none,
        loops: 0,
    }
}

/// Tells a fault more: each of its ways where they are listed, else a line where it is among the first that are missed.
/// Refused where memory runs out, or where a count does not fit.
pub(crate) fn tell(
    tally: &mut Tally,
    plan: &Plan,
    listed: bool,
    judged: &Judged,
) -> Result<(), AllocError>
    ensures { OnOk result ((before : List ℕ) (js : List TheJudged)
        → IsTally before listed (wiring plan.now) js tally.old
        → IsTally before listed (wiring plan.now) (js ++ judged.now ∷ []) tally.new) }
{
    put_line(&mut tally.text, plan, listed, tally.told, judged)?;
    tally.told = told_with(tally.told, judged);
    tally.opens = count_in(tally.opens, FaultKind::Opens, judged)?;
    tally.pulls = count_in(tally.pulls, FaultKind::Pulls, judged)?;
    tally.stuck = count_in(tally.stuck, FaultKind::Stuck, judged)?;
    tally.shorts = count_in(tally.shorts, FaultKind::Shorts, judged)?;
    tally.loops = add_if(tally.loops, is_loop(judged))?;
    Ok(())
}

/// Puts what is told of a fault behind a text, where so many that are missed are told before it.
fn put_line(
    text: &mut Vec<u8>,
    plan: &Plan,
    listed: bool,
    told: usize,
    judged: &Judged,
) -> Result<(), AllocError>
    ensures { OnOk result
        (text.new.items ≡ text.old.items ++ line_told listed (wiring plan.now) told judged.now) }
{
    if listed {
        return put_each_way(text, plan, judged);
    }
    if is_told(told, judged) {
        return put_missed_line(text, plan, judged);
    }
    Ok(())
}

/// Whether a fault is missed and told, where so many are before it.
fn is_told(told: usize, judged: &Judged) -> bool
    ensures { result ≡ spec.is_told told judged.now }
{
    told < MOST_TOLD && has_come(Outcome::Missed, judged)
}

/// How many are told with it.
fn told_with(told: usize, judged: &Judged) -> usize
    ensures { result ≡ next_told told judged.now }
{
    if is_told(told, judged) {
        told + 1
    } else {
        told
    }
}

/// Whether a fault is not judged, since the board has no meaning with it.
fn is_loop(judged: &Judged) -> bool
    ensures { result ≡ is_loop judged.now }
{
    judged.ways.is_none()
}

/// Counts a fault among those of a kind. Refused where a count does not fit.
fn count_in(counts: Counts, kind: FaultKind, judged: &Judged) -> Result<Counts, AllocError>
    ensures { IfOk result (λ c. c ≡ counts_with counts kind judged.now) }
{
    Ok(Counts {
        caught: add_if(counts.caught, is_counted(kind, Outcome::Caught, judged))?,
        missed: add_if(counts.missed, is_counted(kind, Outcome::Missed, judged))?,
        invisible: add_if(
            counts.invisible,
            is_counted(kind, Outcome::Invisible, judged),
        )?,
    })
}

/// Which bridges may be only counted, where so many that are missed are told: none where all faults are listed, and none
/// that is missed where it would be told.
pub(crate) fn counting_for(listed: bool, told: usize) -> Counting
    ensures { result ≡ spec.counting_for listed told }
{
    if listed {
        Counting::Nothing
    } else if told < MOST_TOLD {
        Counting::AllButMissed
    } else {
        Counting::Everything
    }
}

/// Counts so many bridges more. Refused where a count does not fit.
pub(crate) fn count_more(tally: &mut Tally, counts: Counts) -> Result<(), AllocError>
    ensures { OnOk result (tally.new ≡ with_counts tally.old counts) }
{
    tally.shorts = Counts {
        caught: sum(tally.shorts.caught, counts.caught)?,
        missed: sum(tally.shorts.missed, counts.missed)?,
        invisible: sum(tally.shorts.invisible, counts.invisible)?,
    };
    Ok(())
}

/// Refused where it does not fit.
fn sum(count: usize, more: usize) -> Result<usize, AllocError>
    ensures { IfOk result (λ n. n ≡ count + more) }
{
    count.checked_add(more).ok_or(AllocError)
}

/// One more where it is so. Refused where that does not fit.
fn add_if(count: usize, is: bool) -> Result<usize, AllocError>
    ensures { IfOk result (λ n. n ≡ count + one_if is) }
{
    if !is {
        return Ok(count);
    }
    count.checked_add(1).ok_or(AllocError)
}
