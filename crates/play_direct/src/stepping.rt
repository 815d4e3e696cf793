//! One step, played on whole registers: what the bytes of the step would do edge by edge, done at once.

ghost use Rattle.std.specs.Prelude.{◌≡◌, ◌+◌, ◌<◌, ◌^◌, length};
ghost use Rattle.jt_tap.specs.Controller as controller;
ghost use Rattle.bitbang_protocol.specs.Cycles.{opening};
ghost use Rattle.scan_vectors.specs.Failures.{differing, found, with_found};
ghost use Rattle.scan_vectors.specs.Held.{bits};
ghost use Rattle.scan_vectors.specs.Vector.{tdis};
ghost use Rattle.svf_programs.specs.Seen as seen;
ghost use Rattle.svf_programs.specs.Sound.{IsWithin, vector_limit};
ghost use Rattle.svf_programs.specs.Steps as steps;
ghost use Rattle.board_model.specs.Chain.{after_bytes, hear};
ghost use Rattle.board_model.specs.Resting.{IsAtRest};
ghost use Rattle.board_model.specs.Whole as whole;
ghost use Rattle.board_model.specs.Whole.{AtRest};
ghost use Rattle.jt_board.specs.Resting.{IsResting};
ghost use Rattle.play_model.specs.Meaning as meaning;
ghost use Rattle.play_model.specs.PlayingOn.{step_failures};

use jt_board::Board;
use jt_tap::{Column, State};
use scan_vectors::{Failures, Vector};
use svf_parse::TrstWord;
use svf_programs::{Action, Step};

/// The bytes that open a play: TRST is released, five cycles with TMS 1 follow, and TCK, TMS and TDI are low again.
pub(crate) const OPENING: &[u8] = b"r26262626260";

/// Opens a play, edge by edge, for a board may stand in the middle of a scan: TRST is released, and five cycles with
/// TMS 1 follow.
pub fn play_opening(board: &mut Board)
    ensures { board.new ≡ (hear opening board.old).board }
{
    take_all(board, OPENING);
}

/// The board takes bytes, one after another.
fn take_all(board: &mut Board, bytes: &[u8])
    ensures { board.new ≡ after_bytes bytes.now board.old }
{
    for byte in bytes {
        let _ = board.byte(*byte);
    }
}

/// Plays a step on a board at rest (asked), and notes every wanted bit that came out otherwise.
pub fn play_step(step: &Step<'_>, board: &mut Board, failures: &mut Failures)
    requires rests { IsResting board.old }
    requires within { IsWithin (seen.step step.now.what) }
    requires room { failures.old.total + vector_limit < 2 ^ 64 }
    ensures board { (m : AtRest) → IsAtRest board.old m
        → IsAtRest board.new (meaning.after_step (seen.step step.now.what) m) }
    ensures noted { (m : AtRest) → IsAtRest board.old m
        → found failures.new ≡ with_found (step_failures (seen.numbered step.now) m) (found failures.old) }
{
    // For the proof alone: no more are listed than there is room for.
    let _ = failures.list.len();
    match step.what {
        Action::Scan {
            column,
            vector,
            end,
        } => scan(column, &vector, end, step.number, board, failures),
        Action::Go(state) => move_to(state, board),
        Action::Path(path) => board.along(path),
        Action::Run { run, end, .. } => {
            move_unless_there(run, board);
            move_unless_there(end, board);
        }
        Action::Trst(word) => set_trst(word, board),
    }
}

/// Scans a whole vector, from rest (asked) to rest: what is pending is made, the registers capture, every wanted bit
/// that differs from what comes out is noted, and the registers take what stays in.
fn scan(
    column: Column,
    vector: &Vector,
    end: State,
    command: usize,
    board: &mut Board,
    failures: &mut Failures,
)
    requires rests { IsResting board.old }
    requires room { failures.old.total + length (bits vector.now) < 2 ^ 64 }
    ensures board { (m : AtRest) → IsAtRest board.old m
        → IsAtRest board.new (meaning.scan_end column end
        (whole.shift column (tdis (bits vector.now)) (whole.capture column (whole.settle m)))) }
    ensures noted { (m : AtRest) → IsAtRest board.old m → found failures.new
        ≡ with_found (differing command (bits vector.now)
        (whole.out column (tdis (bits vector.now)) (whole.capture column (whole.settle m)))) (found failures.old) }
{
    board.settle();
    board.capture(column);
    board.note(column, vector, command, failures);
    board.shift(column, vector);
    end_scan(column, end, board);
}

/// A scan of a board at rest (asked) ends, its bits shifted: one that ends in its own pause rests there with the update
/// pending.
pub fn end_scan(column: Column, end: State, board: &mut Board)
    requires { IsResting board.old }
    ensures { (m : AtRest) → IsAtRest board.old m → IsAtRest board.new (meaning.scan_end column end m) }
{
    if is_at(end, pause(column)) {
        board.stand(end);
    } else {
        board.update(column);
        board.arrive(end);
    }
}

/// Goes to a stable state by the default path.
fn move_to(state: State, board: &mut Board)
    requires { IsResting board.old }
    ensures { (m : AtRest) → IsAtRest board.old m → IsAtRest board.new (meaning.move_to state m) }
{
    board.settle();
    board.arrive(state);
}

/// Goes to a stable state, unless the board rests there.
fn move_unless_there(state: State, board: &mut Board)
    requires { IsResting board.old }
    ensures { (m : AtRest) → IsAtRest board.old m → IsAtRest board.new (meaning.move_unless_there state m) }
{
    if is_at(board.place(), state) {
        return;
    }
    move_to(state, board);
}

/// Drives the line TRST.
fn set_trst(word: TrstWord, board: &mut Board)
    requires { IsResting board.old }
    ensures { (m : AtRest) → IsAtRest board.old m → IsAtRest board.new (meaning.after_step (steps.Trst word) m) }
{
    match word {
        TrstWord::On => board.assert_trst(),
        TrstWord::Off | TrstWord::Z => board.release_trst(),
        TrstWord::Absent => {}
    }
}

/// The pause of a column.
fn pause(column: Column) -> State
    ensures { result ≡ controller.pause column }
{
    match column {
        Column::Dr => State::DrPause,
        Column::Ir => State::IrPause,
    }
}

/// Whether two states are one.
fn is_at(here: State, state: State) -> bool
    ensures { result ≡ controller.is_at here state }
{
    here == state
}
