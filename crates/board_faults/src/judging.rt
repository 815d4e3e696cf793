//! What a program makes of the faults of a board.

ghost use Rattle.std.specs.Prelude.{map, IfOk, OnOk};
ghost use Rattle.svf_programs.specs.Sizes.{program_of};
ghost use Rattle.board_loops.specs.Depending.{wired};
ghost use Rattle.board_plan.specs.View.{member as planned_member, net as planned_net};
ghost use Rattle.board_faults.specs.Faulty.{CanBeJudged, SameDevices};
ghost use Rattle.board_faults.specs.Faults.{IsWayOf};
ghost use Rattle.board_faults.specs.Sights.{AreSights};
ghost use Rattle.board_faults.specs.Judging.{JudgesWayWith};

use crate::faulty::wire_way;
use crate::kinds::{Fault, Way};
use crate::sight::{Sights, is_invisible};
use board_plan::{Plan, PlannedNet};
use play_direct::{Board, play_program};
use play_model::Ending;
use std::alloc::{AllocError, Global};
use svf_programs::Program;

/// What is told of a way in which a fault may show.
#[derive(Drop, Clone, Copy)]
pub enum Verdict {
    /// It shows to no program.
    Invisible,
    /// How the program's play on the board with it ends.
    Played(Ending),
}

/// A way of a fault, and what is told of it.
#[derive(Drop, Clone, Copy)]
pub struct JudgedWay {
    pub way: Way,
    pub verdict: Verdict,
}

/// A fault, and its ways with what is told of each, in their order; nothing where the board with it has no meaning,
/// since a net depends on itself by strings.
#[derive(Drop)]
pub struct Judged {
    pub fault: Fault,
    pub ways: Option<Vec<JudgedWay>>,
}

/// What a program makes of a way of a fault of these nets (asked), by its play from power-up on a board of the devices
/// of a bench, unless no program could catch the way; nothing where the board with it has no meaning. Refused where
/// memory runs out.
pub fn judge_way(
    alloc: Global,
    bench: &mut Plan,
    nets: &[PlannedNet],
    sights: &Sights,
    program: &Program,
    way: Way,
) -> Result<Option<Verdict>, AllocError>
    requires may { CanBeJudged (wired nets.now bench.old.devices.items) }
    requires sights { AreSights (map planned_member bench.old.devices.items) (map planned_net nets.now) sights.now }
    requires way { IsWayOf (map planned_net nets.now) way }
    ensures same { OnOk result (SameDevices bench.old bench.new) }
    ensures judged { IfOk result (JudgesWayWith (program_of program.now) (wired nets.now bench.old.devices.items) way) }
{
    if !wire_way(alloc, bench, nets, way)? {
        return Ok(None);
    }
    if is_invisible(alloc, sights, nets, way)? {
        return Ok(Some(Verdict::Invisible));
    }
    let mut board = Board::powered_up(alloc, bench)?;
    Ok(Some(Verdict::Played(play_program(program, &mut board))))
}
