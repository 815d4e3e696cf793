//! Devices that a cycle leaves as they are.

ghost use Rattle.std.specs.Prelude.{◌≡◌, ◌&&◌};
ghost use Rattle.std.specs.List.{list_all};
ghost use Rattle.board_model.specs.Chain as model;
ghost use Rattle.board_chips.specs.WiredChips.{chip_state};
ghost use Rattle.play_drawing.specs.Holding as spec;
ghost use Rattle.play_drawing.specs.Pens.{plain};

use crate::marks::{DRAWN_RESTS, Marks, draws_so};
use bitbang_protocol::Cycle;
use board_chain::{Chain, WiredChip};
use jt_board::Board;
use wave_files::is_same_state;

/// Whether a cycle comes again, in a stretch, to devices that stay.
pub(crate) fn is_held_by(cycle: Cycle, marks: Marks, board: &Board) -> bool
    ensures { result ≡ spec.is_held_by cycle (plain marks board.now) }
{
    marks.rested > DRAWN_RESTS
        && draws_so(marks.tms, cycle.tms)
        && draws_so(marks.tdi, cycle.tdi)
        && is_left(board, cycle.tms)
}

/// Whether TCK is high and a rising edge with this TMS leaves every controller where it is.
pub(crate) fn is_left(board: &Board, tms: bool) -> bool
    ensures { result ≡ (board.now.tck && list_all (spec.stays board.now.trst tms) board.now.chips) }
{
    let lines = board.snapshot();
    lines.tck() && all_stay(lines.trst(), tms, board.chain())
}

/// Whether every controller stays where it is on a rising edge with this TMS.
fn all_stay(trst: bool, tms: bool, chain: &Chain) -> bool
    ensures { result ≡ list_all (spec.stays trst tms) chain.now.chips }
{
    for i in 0..chain.devices() {
        if !stays(trst, tms, chain.chip(i)) {
            return false;
        }
    }
    true
}

/// Whether a controller stays in a stable state on a rising edge with this TMS, or is held there.
fn stays(trst: bool, tms: bool, chip: &WiredChip) -> bool
    ensures { result ≡ spec.stays trst tms (chip_state chip.now) }
{
    let state = chip.state();
    state.is_stable() && (is_held(trst, chip) || is_same_state(state.step(tms), state))
}

/// Whether TRST holds a controller in RESET.
fn is_held(trst: bool, chip: &WiredChip) -> bool
    ensures { result ≡ model.is_held trst (chip_state chip.now).member }
{
    trst && chip.device().has_trst()
}
