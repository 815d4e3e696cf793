//! Which ways in which a board's faults may show give just what a log says.

ghost use Rattle.std.specs.Prelude.{◌≡◌, ◌↔◌, false, length, map, true, IfOk, IsTrue, OnOk};
ghost use Rattle.svf_programs.specs.Sizes.{program_of};
ghost use Rattle.board_loops.specs.Depending.{wired};
ghost use Rattle.board_plan.specs.View.{net as planned_net, wiring};
ghost use Rattle.board_faults.specs.Faults.{IsFaultOf, IsWayOf, ways};
ghost use Rattle.board_faults.specs.Faulty.{CanBeJudged, SameDevices};
ghost use Rattle.fault_serving.specs.Serving.{AreTold, IsToldOf, MayServe};
ghost use Rattle.play_diagnosis.specs.Benches.{IsBench};
ghost use Rattle.play_diagnosis.specs.Fitting.{Fits, Gives, TriesFault};
ghost use Rattle.play_diagnosis.specs.Reading.{verdict_of};

use crate::endings::{are_same, by_told, is_first, is_pass};
use crate::reading::Said;
use board_faults::{Board, Fault, Way, play_program, wire_way};
use board_plan::{Plan, PlannedNet};
use fault_serving::{Serving, may_list, told_at};
use play_direct::play_program_all;
use play_model::Ending;
use scan_vectors::Failures;
use std::alloc::{AllocError, Global};
use svf_programs::Program;

/// A way of a fault, and whether it gives just what a log says.
#[derive(Drop, Clone, Copy)]
pub struct TriedWay {
    pub way: Way,
    pub fits: bool,
}

/// Of a fault of a planned board's nets (asked) each way in which it may show, and whether that gives just what a log
/// says: its play from power-up does, and the board with it has a meaning. Given are the board once more, to be wired
/// with each way, what one play tells, and how the program ends in these ways as far as that is told (asked). Refused
/// where memory runs out.
pub(crate) fn try_fault(
    alloc: Global,
    bench: &mut Plan,
    plan: &Plan,
    program: &Program,
    said: &Said,
    serving: &Serving,
    fault: Fault,
    told: &[Option<Ending>],
) -> Result<Vec<TriedWay>, AllocError>
    requires may { CanBeJudged (wiring plan.now) }
    requires bench { IsBench (wiring plan.now) bench.old }
    requires serving { MayServe (program_of program.now) (wiring plan.now) serving.now }
    requires fault { IsFaultOf (wiring plan.now).nets fault }
    requires told { AreTold (program_of program.now) (wiring plan.now) (ways fault) told.now }
    ensures bench { OnOk result (IsBench (wiring plan.now) bench.new) }
    ensures tries { IfOk result
        (λ ts. TriesFault (verdict_of said.now) (program_of program.now) (wiring plan.now) fault ts.items) }
{
    let mut ways = Vec::with_capacity(alloc, 4)?;
    let mut k = 0;
    while let Some(way) = fault.way(k) {
        let told = told_at(told, k);
        let fits = fits(alloc, bench, plan, program, said, serving, way, told)?;
        ways.push(TriedWay { way, fits })?;
        k += 1;
    }
    Ok(ways)
}

/// Whether a way gives just what a log says. It is played as a whole only where what is told of it does not say so.
fn fits(
    alloc: Global,
    bench: &mut Plan,
    plan: &Plan,
    program: &Program,
    said: &Said,
    serving: &Serving,
    way: Way,
    told: Option<Ending>,
) -> Result<bool, AllocError>
    requires may { CanBeJudged (wiring plan.now) }
    requires bench { IsBench (wiring plan.now) bench.old }
    requires serving { MayServe (program_of program.now) (wiring plan.now) serving.now }
    requires way { IsWayOf (wiring plan.now).nets way }
    requires told { IsToldOf (program_of program.now) (wiring plan.now) way told }
    ensures bench { OnOk result (IsBench (wiring plan.now) bench.new) }
    ensures fits { IfOk result
        (λ b. IsTrue b ↔ Fits (verdict_of said.now) (program_of program.now) (wiring plan.now) way) }
{
    if let Some(fits) = by_told(said, told) {
        return Ok(fits);
    }
    if !may_fit(serving, plan, program, said, way) {
        return Ok(false);
    }
    played_fit(alloc, bench, &plan.nets, program, said, way)
}

/// Whether a way may give what a log says, as far as one play of the board tells which bits fail: not where one does
/// that is not among all that the log lists.
fn may_fit(serving: &Serving, plan: &Plan, program: &Program, said: &Said, way: Way) -> bool
    requires may { CanBeJudged (wiring plan.now) }
    requires serving { MayServe (program_of program.now) (wiring plan.now) serving.now }
    requires way { IsWayOf (wiring plan.now).nets way }
    ensures { result ≡ false → Fits (verdict_of said.now) (program_of program.now) (wiring plan.now) way → ⊥ }
{
    let Said::All(failures) = said else {
        return true;
    };
    if !lists_all(failures) {
        return true;
    }
    may_list(serving, plan, program, way, failures.list.as_slice())
}

/// Whether all failures are listed.
fn lists_all(failures: &Failures) -> bool
    ensures { result ≡ true → failures.now.total ≡ length failures.now.list.items }
{
    failures.total == failures.list.len() as u64
}

/// Whether a way of a fault of these nets (asked) gives just what a log says, by the play of the program from power-up
/// on a board of the devices of a bench. Refused where memory runs out.
fn played_fit(
    alloc: Global,
    bench: &mut Plan,
    nets: &[PlannedNet],
    program: &Program,
    said: &Said,
    way: Way,
) -> Result<bool, AllocError>
    requires may { CanBeJudged (wired nets.now bench.old.devices.items) }
    requires way { IsWayOf (map planned_net nets.now) way }
    ensures same { OnOk result (SameDevices bench.old bench.new) }
    ensures fits { IfOk result (λ b. IsTrue b
        ↔ Fits (verdict_of said.now) (program_of program.now) (wired nets.now bench.old.devices.items) way) }
{
    if !wire_way(alloc, bench, nets, way)? {
        return Ok(false);
    }
    let mut board = Board::powered_up(alloc, bench)?;
    Ok(gives(said, program, &mut board))
}

/// Whether the play of a program on a board gives just what a log says.
fn gives(said: &Said, program: &Program, board: &mut Board) -> bool
    ensures { IsTrue result ↔ Gives (verdict_of said.now) (program_of program.now) board.old }
{
    match said {
        Said::Pass => is_pass(play_program(program, board)),
        Said::First(bit) => is_first(*bit, play_program(program, board)),
        Said::All(failures) => {
            let (_, found) = play_program_all(program, board);
            are_same(&found, failures)
        }
    }
}
