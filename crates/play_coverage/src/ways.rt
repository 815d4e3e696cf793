//! The lines of a fault.

ghost use Rattle.std.specs.Prelude.{◌≡◌, ◌++◌, OnOk, flat_map};
ghost use Rattle.board_plan.specs.View.{wiring};
ghost use Rattle.play_coverage.specs.Lines as spec;
ghost use Rattle.play_coverage.specs.Lines.{fault_lines, missed_line, missed_ways, missed_words};
ghost use Rattle.play_coverage.specs.Lines.{way_line};

use crate::outcomes::{all_missed, is_passed};
use crate::words::{put_failing, verdict_word};
use board_faults::{Fault, Judged, JudgedWay};
use board_plan::Plan;
use fault_serving::{put_fault, put_way};
use output_words::put;
use std::alloc::AllocError;

/// Puts the lines of every way of a fault behind a text; one alone where the board has no meaning with it. Refuses for
/// want of memory alone.
pub(crate) fn put_each_way(
    text: &mut Vec<u8>,
    plan: &Plan,
    judged: &Judged,
) -> Result<(), AllocError>
    ensures { OnOk result (text.new.items ≡ text.old.items ++ fault_lines (wiring plan.now) judged.now) }
{
    match &judged.ways {
        Some(ways) => put_ways(text, plan, judged.fault, ways),
        None => {
            put(text, &[b"loop "])?;
            put_fault(text, plan, judged.fault)?;
            put(text, &[b"\n"])
        }
    }
}

/// Puts the lines of a fault's ways behind a text.
#[tactic(auto, using(output_words::proofs::TextLaws::flat_map_more))]
fn put_ways(
    text: &mut Vec<u8>,
    plan: &Plan,
    fault: Fault,
    ways: &[JudgedWay],
) -> Result<(), AllocError>
    ensures { OnOk result
        (text.new.items ≡ text.old.items ++ flat_map (way_line (wiring plan.now) fault) ways.now) }
{
    for judged in ways {
        put_way_line(text, plan, fault, *judged)?;
    }
    Ok(())
}

/// Puts the line of a way of a fault behind a text.
fn put_way_line(
    text: &mut Vec<u8>,
    plan: &Plan,
    fault: Fault,
    judged: JudgedWay,
) -> Result<(), AllocError>
    ensures { OnOk result (text.new.items ≡ text.old.items ++ way_line (wiring plan.now) fault judged) }
{
    put(text, &[verdict_word(judged.verdict)])?;
    put_fault(text, plan, fault)?;
    put_way(text, judged.way)?;
    put_failing(text, judged.verdict)?;
    put(text, &[b"\n"])
}

/// Puts the line of a fault that is missed behind a text. Refuses for want of memory alone.
pub(crate) fn put_missed_line(
    text: &mut Vec<u8>,
    plan: &Plan,
    judged: &Judged,
) -> Result<(), AllocError>
    ensures { OnOk result (text.new.items ≡ text.old.items ++ missed_line (wiring plan.now) judged.now) }
{
    put(text, &[b"missed "])?;
    put_fault(text, plan, judged.fault)?;
    put_missed_ways(text, judged)?;
    put(text, &[b"\n"])
}

/// Puts which ways of a fault are missed behind a text; nothing where all are that show.
fn put_missed_ways(text: &mut Vec<u8>, judged: &Judged) -> Result<(), AllocError>
    ensures { OnOk result (text.new.items ≡ text.old.items ++ missed_ways (spec.judged_ways judged.now)) }
{
    match &judged.ways {
        Some(ways) => put_some_ways(text, ways),
        None => Ok(()),
    }
}

fn put_some_ways(text: &mut Vec<u8>, ways: &[JudgedWay]) -> Result<(), AllocError>
    ensures { OnOk result (text.new.items ≡ text.old.items ++ missed_ways ways.now) }
{
    if all_missed(ways) {
        return Ok(());
    }
    put_passed(text, ways)
}

#[tactic(auto, using(output_words::proofs::TextLaws::flat_map_more))]
fn put_passed(text: &mut Vec<u8>, ways: &[JudgedWay]) -> Result<(), AllocError>
    ensures { OnOk result (text.new.items ≡ text.old.items ++ flat_map missed_words ways.now) }
{
    for judged in ways {
        put_if_passed(text, *judged)?;
    }
    Ok(())
}

fn put_if_passed(text: &mut Vec<u8>, judged: JudgedWay) -> Result<(), AllocError>
    ensures { OnOk result (text.new.items ≡ text.old.items ++ missed_words judged) }
{
    if is_passed(judged.verdict) {
        put_way(text, judged.way)
    } else {
        Ok(())
    }
}
