//! The boards that a wave is drawn on.

ghost use Rattle.std.specs.Prelude.{◌≡◌, IfOk};
ghost use Rattle.board_plan.specs.View.{wiring};
ghost use Rattle.jt_board.specs.Made.{IsReadyPlan, board_of};
ghost use Rattle.play_drawing.specs.Pens.{begun};
ghost use Rattle.play_waves.specs.Stages.{judge_for};

use board_plan::Plan;
use jt_board::Board;
use play_drawing::Drawing;
use play_model::Kind;
use std::alloc::{AllocError, Global};
use std::marker::Model;
use wave_files::Extras;

/// Boards that are the same, as they power up: two on which a wave is drawn, and for a play that stops at its first
/// failure a third, on which it is judged. Contracts see that board, and which kind of player plays on it.
#[derive(Drop)]
pub struct Stage {
    judge: Option<Board>,
    behind: Board,
    ahead: Board,
}

impl Model for Stage {
    ghost use Rattle.play_waves.specs.Stages.{StageValue};

    ghost Value = { StageValue };

    ghost use Rattle.std.specs.Prelude.{◌≡◌, ◌≤◌, length};
    ghost use Rattle.jt_limits.specs.Limits.{limits};
    ghost use Rattle.play_waves.specs.Stages.{IsJudgeOf, kind_judged};

    ghost view = { λ s. record { kind = kind_judged s.judge; board = s.ahead } };

    ghost invariant = { λ s. IsJudgeOf s.judge s.ahead × (s.behind ≡ s.ahead) × (length s.ahead.nets ≤ limits.nets) };
}

impl Stage {
    /// The board of a plan, for a player of this kind. Refuses for want of memory alone.
    ///
    /// Asks that the plan is ready, as those are that `plan_of_table` and `bare_plan` make.
    pub fn powered_up(alloc: Global, plan: &Plan, kind: Kind) -> Result<Stage, AllocError>
        requires { IsReadyPlan plan.now }
        ensures { IfOk result (λ s. s ≡ record { kind = kind; board = board_of (wiring plan.now) }) }
    {
        let judge = judge_on(alloc, plan, kind)?;
        Ok(Stage {
            judge,
            behind: Board::powered_up(alloc, plan)?,
            ahead: Board::powered_up(alloc, plan)?,
        })
    }

    /// What kind of player plays.
    pub(crate) fn kind(&self) -> Kind
        ensures { result ≡ self.now.kind }
    {
        match self.judge {
            Some(_) => Kind::Stops,
            None => Kind::PlaysOn,
        }
    }

    /// The board on which the play is judged, if it is, and a wave as it begins on the other two, with these extras.
    pub(crate) fn opened(self, extras: Extras) -> (Option<Board>, Drawing)
        ensures judge { result.0 ≡ judge_for self.kind self.board }
        ensures drawing { result.1 ≡ begun extras self.board }
    {
        let Stage {
            judge,
            behind,
            ahead,
        } = self;
        (judge, Drawing::new(behind, ahead, extras))
    }
}

/// The board of a plan on which a play of this kind is judged, if it is.
fn judge_on(alloc: Global, plan: &Plan, kind: Kind) -> Result<Option<Board>, AllocError>
    requires { IsReadyPlan plan.now }
    ensures { IfOk result (λ judge. judge ≡ judge_for kind (board_of (wiring plan.now))) }
{
    match kind {
        Kind::Stops => Ok(Some(Board::powered_up(alloc, plan)?)),
        Kind::PlaysOn => Ok(None),
    }
}
