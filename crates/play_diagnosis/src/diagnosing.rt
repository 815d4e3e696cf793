//! Which single faults of a board's nets give just what a log says, as it is printed.

ghost use Rattle.std.specs.Prelude.{◌≡◌, ◌++◌, IfOk, OnOk, flat_map};
ghost use Rattle.std.specs.List.{AllByRecursion};
ghost use Rattle.output_words.specs.Statuses.{number};
ghost use Rattle.svf_programs.specs.Sizes.{program_of};
ghost use Rattle.board_plan.specs.View.{wiring};
ghost use Rattle.board_faults.specs.Faults.{IsFaultOf, faults, ways};
ghost use Rattle.board_faults.specs.Faulty.{CanBeJudged};
ghost use Rattle.board_faults.specs.Made.{IsReadyPlan};
ghost use Rattle.fault_serving.specs.Serving.{AreTold, MayServe};
ghost use Rattle.fault_serving.specs.Written.{Tells};
ghost use Rattle.play_diagnosis.specs.Benches.{IsBench};
ghost use Rattle.play_diagnosis.specs.Diagnosis as spec;
ghost use Rattle.play_diagnosis.specs.Diagnosis.{IsDiagnosis, PutsFault, PutsFaults, TellsFaults, fault_line};
ghost use Rattle.play_diagnosis.specs.Diagnosis.{fitting_ways, fitting_words};
ghost use Rattle.play_diagnosis.specs.Reading.{verdict_of};

use crate::fitting::{TriedWay, try_fault};
use crate::reading::Said;
use board_description::Untold;
use board_faults::{Fault, Faults, bench_of};
use board_plan::Plan;
use byte_streams::{Counted, Sink, put_all};
use fault_serving::{Chunk, Serving, next_chunk, put_fault, put_way, serving_of, told_behind};
use output_words::{Status, put};
use play_model::Ending;
use std::alloc::{AllocError, Global};
use svf_programs::Program;

/// Writes which single faults of a planned board's nets give just what a log says of a play of an accepted program, and
/// answers the exit status: 0 where there is one, 1 where there is none.
///
/// A line for each such fault, in the order of `Faults`, with its ways where not all of them do; or one that there is
/// none. So if the board that was played on behaves as this board with one of its faults, that fault is among those
/// told, and each that is told gives this very log.
///
/// Everything is made before the first byte is written, so nothing is where memory runs out. It asks that the plan is
/// ready, as those are that board files make. One play of the program tells of most ways how they end, and of bridges
/// which bits fail; only those that begin as the log does, and fail at no other bit by that, are played to their end.
pub fn write_diagnosis<W: Sink>(
    alloc: Global,
    plan: &Plan,
    program: &Program,
    said: &Said,
    out: &mut Counted<W>,
) -> Result<u8, Untold>
    requires ready { IsReadyPlan plan.now }
    requires whole { out.old.failures ≡ 0 }
    ensures { Tells W.contents out.old out.new
        (IsDiagnosis (verdict_of said.now) (program_of program.now) (wiring plan.now)) result }
{
    let diagnosis = diagnosis_of(alloc, plan, program, said)?;
    put_all(out, &diagnosis.text)?;
    Ok(diagnosis.status.number())
}

/// What is printed of the faults that give just what a log says, and the exit status.
#[derive(Drop)]
struct Diagnosis {
    text: Vec<u8>,
    status: Status,
}

fn diagnosis_of(
    alloc: Global,
    plan: &Plan,
    program: &Program,
    said: &Said,
) -> Result<Diagnosis, AllocError>
    requires { IsReadyPlan plan.now }
    ensures { IfOk result (λ d. IsDiagnosis (verdict_of said.now) (program_of program.now) (wiring plan.now)
        d.text.items (number d.status)) }
{
    let mut text = tell_faults(alloc, plan, program, said)?;
    let status = status_of(&text);
    put_none(&mut text)?;
    Ok(Diagnosis { text, status })
}

/// The exit status: a pass where a fault is told.
fn status_of(told: &[u8]) -> Status
    ensures { result ≡ spec.diagnosis_status told.now }
{
    if told.is_empty() {
        Status::Fail
    } else {
        Status::Pass
    }
}

/// Puts into a text of no faults that there are none.
fn put_none(told: &mut Vec<u8>) -> Result<(), AllocError>
    ensures { OnOk result (told.new.items ≡ spec.diagnosis told.old.items) }
{
    if told.is_empty() {
        put(told, &[b"none: no single fault gives these bits\n"])
    } else {
        Ok(())
    }
}

/// The lines of all faults of a planned board's nets that give just what a log says.
fn tell_faults(
    alloc: Global,
    plan: &Plan,
    program: &Program,
    said: &Said,
) -> Result<Vec<u8>, AllocError>
    requires { IsReadyPlan plan.now }
    ensures { IfOk result (λ v. TellsFaults (verdict_of said.now) (program_of program.now) (wiring plan.now)
        (faults (wiring plan.now).nets) v.items) }
{
    let mut bench = bench_of(alloc, plan)?;
    let serving = serving_of(alloc, plan, program, true)?;
    let mut text = Vec::new(alloc);
    let mut left = Faults::of(&plan.nets);
    'chunks: loop {
        let chunk = next_chunk(alloc, &serving, plan, program, &mut left)?;
        if chunk.faults.is_empty() {
            return Ok(text);
        }
        tell_chunk(
            alloc, &mut bench, plan, program, said, &serving, &chunk, &mut text,
        )?;
    }
}

/// Puts the lines of some faults behind a text.
fn tell_chunk(
    alloc: Global,
    bench: &mut Plan,
    plan: &Plan,
    program: &Program,
    said: &Said,
    serving: &Serving,
    chunk: &Chunk,
    text: &mut Vec<u8>,
) -> Result<(), AllocError>
    requires may { CanBeJudged (wiring plan.now) }
    requires bench { IsBench (wiring plan.now) bench.old }
    requires serving { MayServe (program_of program.now) (wiring plan.now) serving.now }
    requires faults { AllByRecursion (IsFaultOf (wiring plan.now).nets) chunk.now.faults.items }
    requires told { AreTold (program_of program.now) (wiring plan.now) (flat_map ways chunk.now.faults.items)
        chunk.now.endings.items }
    ensures bench { OnOk result (IsBench (wiring plan.now) bench.new) }
    ensures tells { OnOk result (PutsFaults (verdict_of said.now) (program_of program.now) (wiring plan.now)
        chunk.now.faults.items text.old.items text.new.items) }
{
    let mut told = chunk.endings.as_slice();
    for fault in &chunk.faults {
        tell_fault(
            alloc, bench, plan, program, said, serving, *fault, told, text,
        )?;
        told = told_behind(told, fault.way_count());
    }
    Ok(())
}

/// Puts the line of a fault of a planned board's nets (asked) behind a text, if it gives just what a log says.
fn tell_fault(
    alloc: Global,
    bench: &mut Plan,
    plan: &Plan,
    program: &Program,
    said: &Said,
    serving: &Serving,
    fault: Fault,
    told: &[Option<Ending>],
    text: &mut Vec<u8>,
) -> Result<(), AllocError>
    requires may { CanBeJudged (wiring plan.now) }
    requires bench { IsBench (wiring plan.now) bench.old }
    requires serving { MayServe (program_of program.now) (wiring plan.now) serving.now }
    requires fault { IsFaultOf (wiring plan.now).nets fault }
    requires told { AreTold (program_of program.now) (wiring plan.now) (ways fault) told.now }
    ensures bench { OnOk result (IsBench (wiring plan.now) bench.new) }
    ensures tells { OnOk result (PutsFault (verdict_of said.now) (program_of program.now) (wiring plan.now) fault
        text.old.items text.new.items) }
{
    let ways = try_fault(alloc, bench, plan, program, said, serving, fault, told)?;
    put_line(text, plan, fault, &ways)?;
    Ok(())
}

/// Puts the line of a fault behind a text; nothing where none of its ways fits.
fn put_line(
    text: &mut Vec<u8>,
    plan: &Plan,
    fault: Fault,
    ways: &[TriedWay],
) -> Result<(), AllocError>
    ensures { OnOk result (text.new.items ≡ text.old.items ++ fault_line (wiring plan.now) fault ways.now) }
{
    if !any_fits(ways) {
        return Ok(());
    }
    put_fault(text, plan, fault)?;
    put_ways(text, ways)?;
    put(text, &[b"\n"])
}

fn any_fits(ways: &[TriedWay]) -> bool
    ensures { result ≡ spec.any_fits ways.now }
{
    ways.iter().any(|tried| tried.fits)
}

fn all_fit(ways: &[TriedWay]) -> bool
    ensures { result ≡ spec.all_fit ways.now }
{
    ways.iter().all(|tried| tried.fits)
}

/// Puts the ways that fit behind a text; nothing where all do.
fn put_ways(text: &mut Vec<u8>, ways: &[TriedWay]) -> Result<(), AllocError>
    ensures { OnOk result (text.new.items ≡ text.old.items ++ fitting_ways ways.now) }
{
    if all_fit(ways) {
        return Ok(());
    }
    put_fitting(text, ways)
}

#[tactic(auto, using(output_words::proofs::TextLaws::flat_map_more))]
fn put_fitting(text: &mut Vec<u8>, ways: &[TriedWay]) -> Result<(), AllocError>
    ensures { OnOk result (text.new.items ≡ text.old.items ++ flat_map fitting_words ways.now) }
{
    for tried in ways {
        put_if_fits(text, *tried)?;
    }
    Ok(())
}

fn put_if_fits(text: &mut Vec<u8>, tried: TriedWay) -> Result<(), AllocError>
    ensures { OnOk result (text.new.items ≡ text.old.items ++ fitting_words tried) }
{
    if tried.fits {
        put_way(text, tried.way)
    } else {
        Ok(())
    }
}
