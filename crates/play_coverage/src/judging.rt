//! What a program makes of faults, one after another.

ghost use Rattle.std.specs.Prelude.{flat_map, option_map, IfOk, OnOk};
ghost use Rattle.std.specs.List.{AllByRecursion};
ghost use Rattle.svf_programs.specs.Sizes.{program_of};
ghost use Rattle.board_plan.specs.View.{wiring};
ghost use Rattle.board_faults.specs.Faults.{IsFaultOf, IsWayOf, ways};
ghost use Rattle.board_faults.specs.Faulty.{CanBeJudged};
ghost use Rattle.board_faults.specs.Judging.{JudgesFault, JudgesWayWith};
ghost use Rattle.board_faults.specs.Made.{IsReadyPlan};
ghost use Rattle.fault_serving.specs.Serving.{AreTold, IsToldOf};
ghost use Rattle.play_coverage.specs.Tallies.{TellsFaults, TellsMore};
ghost use Rattle.play_coverage.specs.Told.{IsBench, JudgesPassed};

use crate::tallies::{Tally, count_more, counting_for, tally_behind, tell};
use board_faults::{
    Fault, Faults, Judged, JudgedWay, Sights, Verdict, Way, bench_of, is_invisible, judge_way,
    sights_of,
};
use board_plan::Plan;
use fault_serving::{Chunk, next_sifted, serving_of, told_at, told_behind};
use play_model::Ending;
use std::alloc::{AllocError, Global};
use svf_programs::Program;

/// What the faults of a board are judged with: the board once more, to be wired with each of them, and what is seen of
/// its pins and nets.
#[derive(Drop)]
pub struct Bench {
    pub(crate) board: Plan,
    pub(crate) sights: Sights,
}

/// A bench for the faults of a planned board. Refused where memory runs out.
pub fn bench_for(alloc: Global, plan: &Plan) -> Result<Bench, AllocError>
    ensures { IfOk result (IsBench (wiring plan.now)) }
{
    let board = bench_of(alloc, plan)?;
    let sights = sights_of(alloc, &plan.devices, &plan.nets)?;
    Ok(Bench { board, sights })
}

/// What a program makes of every fault of a planned board's nets, in the order of `Faults`, told one after another
/// behind a text: how the play of the program on the board with it ends, from power-up, of each of its ways but those
/// that no program could catch. Refused where memory runs out, or where a count does not fit.
///
/// A play of the board tells it of some faults at a time, where the board has no strings and the program passes on it;
/// a way in which a bit that stays in a register is another is played as a whole, and elsewhere every way is. Bridges
/// that have no line are only counted, where the first captures of the play tell enough.
///
/// Asks that the plan is ready, as those are that board files make.
pub(crate) fn tell_faults(
    alloc: Global,
    plan: &Plan,
    program: &Program,
    listed: bool,
    text: Vec<u8>,
) -> Result<Tally, AllocError>
    requires { IsReadyPlan plan.now }
    ensures { IfOk result (TellsFaults (program_of program.now) (wiring plan.now) text.items listed) }
{
    // For the proof alone: what the type keeps of a program's steps.
    let _ = program.len();
    let mut bench = bench_for(alloc, plan)?;
    let serving = serving_of(alloc, plan, program, listed)?;
    let mut tally = tally_behind(text);
    let mut left = Faults::of(&plan.nets);
    'chunks: loop {
        let next = next_sifted(
            alloc,
            &serving,
            plan,
            program,
            &bench.sights,
            counting_for(listed, tally.told),
            &mut left,
        )?;
        tell_chunk(
            alloc,
            &mut bench,
            plan,
            program,
            listed,
            &next.chunk,
            &mut tally,
        )?;
        count_more(&mut tally, next.counts)?;
        if next.chunk.faults.is_empty() {
            return Ok(tally);
        }
    }
}

/// Tells some faults more.
fn tell_chunk(
    alloc: Global,
    bench: &mut Bench,
    plan: &Plan,
    program: &Program,
    listed: bool,
    chunk: &Chunk,
    tally: &mut Tally,
) -> Result<(), AllocError>
    requires may { CanBeJudged (wiring plan.now) }
    requires bench { IsBench (wiring plan.now) bench.old }
    requires faults { AllByRecursion (IsFaultOf (wiring plan.now).nets) chunk.now.faults.items }
    requires told { AreTold (program_of program.now) (wiring plan.now) (flat_map ways chunk.now.faults.items)
        chunk.now.endings.items }
    ensures bench { OnOk result (IsBench (wiring plan.now) bench.new) }
    ensures tells { OnOk result (TellsMore (program_of program.now) (wiring plan.now) listed chunk.now.faults.items
        tally.old tally.new) }
{
    let mut told = chunk.endings.as_slice();
    for fault in &chunk.faults {
        let ways = judge_fault(alloc, bench, plan, program, *fault, told)?;
        let judged = Judged {
            fault: *fault,
            ways,
        };
        tell(tally, plan, listed, &judged)?;
        told = told_behind(told, fault.way_count());
    }
    Ok(())
}

/// What a program makes of a fault of a planned board's nets (asked), given how it ends in its ways as far as that is
/// told (asked): of each of its ways, in their order, how the play on the board with it ends, from power-up, unless no
/// program could catch the way; nothing where the board with it has no meaning. Refused where memory runs out.
///
/// Asks that the plan's board is ready, and that every net shows what its drivers say, as of a board file it does.
pub fn judge_fault(
    alloc: Global,
    bench: &mut Bench,
    plan: &Plan,
    program: &Program,
    fault: Fault,
    told: &[Option<Ending>],
) -> Result<Option<Vec<JudgedWay>>, AllocError>
    requires may { CanBeJudged (wiring plan.now) }
    requires bench { IsBench (wiring plan.now) bench.old }
    requires fault { IsFaultOf (wiring plan.now).nets fault }
    requires told { AreTold (program_of program.now) (wiring plan.now) (ways fault) told.now }
    ensures bench { OnOk result (IsBench (wiring plan.now) bench.new) }
    ensures judged { IfOk result (λ o. JudgesFault (program_of program.now) (wiring plan.now) fault
        (option_map (λ js. js.items) o)) }
{
    let mut ways = Vec::with_capacity(alloc, 4)?;
    let mut k = 0;
    while let Some(way) = fault.way(k) {
        match verdict_of(alloc, bench, plan, program, way, told_at(told, k))? {
            None => return Ok(None),
            Some(verdict) => ways.push(JudgedWay { way, verdict })?,
        }
        k += 1;
    }
    Ok(Some(ways))
}

/// What a program makes of a way of a fault, given how it ends if that is told; nothing where it has no meaning.
fn verdict_of(
    alloc: Global,
    bench: &mut Bench,
    plan: &Plan,
    program: &Program,
    way: Way,
    told: Option<Ending>,
) -> Result<Option<Verdict>, AllocError>
    requires may { CanBeJudged (wiring plan.now) }
    requires bench { IsBench (wiring plan.now) bench.old }
    requires way { IsWayOf (wiring plan.now).nets way }
    requires told { IsToldOf (program_of program.now) (wiring plan.now) way told }
    ensures bench { OnOk result (IsBench (wiring plan.now) bench.new) }
    ensures judged { IfOk result (JudgesWayWith (program_of program.now) (wiring plan.now) way) }
{
    // For the proof alone: what the type keeps of a program's steps.
    let _ = program.len();
    match told {
        None => judge_way(
            alloc,
            &mut bench.board,
            &plan.nets,
            &bench.sights,
            program,
            way,
        ),
        Some(ending) => match ending {
            Ending::Pass => Ok(Some(passed_verdict(alloc, bench, plan, way)?)),
            _ => Ok(Some(Verdict::Played(ending))),
        },
    }
}

/// What is told of a way with which the program passes: that it is invisible, or that it passes.
fn passed_verdict(
    alloc: Global,
    bench: &Bench,
    plan: &Plan,
    way: Way,
) -> Result<Verdict, AllocError>
    requires may { CanBeJudged (wiring plan.now) }
    requires bench { IsBench (wiring plan.now) bench.now }
    requires way { IsWayOf (wiring plan.now).nets way }
    ensures { IfOk result (JudgesPassed (wiring plan.now) way) }
{
    if is_invisible(alloc, &bench.sights, &plan.nets, way)? {
        Ok(Verdict::Invisible)
    } else {
        Ok(Verdict::Played(Ending::Pass))
    }
}
