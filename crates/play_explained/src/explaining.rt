//! A program played once more, for why its bits fail.

ghost use Rattle.std.specs.Prelude.{◌≡◌, ◌≤◌, ◌++◌, ◌∷◌, [], length, map, take};
ghost use Rattle.scan_vectors.specs.Held.{bits};
ghost use Rattle.scan_vectors.specs.Vector.{tdis};
ghost use Rattle.svf_programs.specs.Seen as seen;
ghost use Rattle.svf_programs.specs.Sizes.{program_of};
ghost use Rattle.svf_programs.specs.Sound.{IsWithin, vector_limit};
ghost use Rattle.board_model.specs.Chain.{members};
ghost use Rattle.board_model.specs.Resting.{IsAtRest};
ghost use Rattle.board_model.specs.Whole as whole;
ghost use Rattle.board_model.specs.Whole.{AtRest};
ghost use Rattle.board_reasons.specs.Planned.{CaptureAlike};
ghost use Rattle.jt_board.specs.Resting.{IsResting};
ghost use Rattle.play_model.specs.DirectPlay.{opened_state};
ghost use Rattle.play_model.specs.Meaning as meaning;
ghost use Rattle.play_model.specs.Streams.{most_kept};
ghost use Rattle.play_explained.specs.Explaining.{explained_of, explained_on, scan_explained, step_explained};
ghost use Rattle.play_explained.specs.Kept.{plates};

use arrayvec::ArrayVec;
use board_plan::PlannedDevice;
use board_reasons::{Chain, Holder, Reason, reason_of};
use jt_board::Board;
use jt_player::{end_scan, play_opening, play_step};
use jt_tap::{Column, State};
use play_model::Kind;
use scan_vectors::{Failures, Mismatch, Part, Vector};
use svf_programs::{Action, Program, Step};

/// The most bits that are explained: as many as a play to the end lists.
const MOST: usize = 256;

/// A wanted bit that did not come out, and why.
#[derive(Debug, Clone, Copy)]
pub struct Explained {
    /// The bit.
    pub failure: Mismatch,
    /// What was wanted, and what held the bit that came.
    pub reason: Reason,
}

impl Default for Explained {
    fn default() -> Explained {
        Explained {
            failure: Mismatch::default(),
            reason: Reason {
                wanted: false,
                holder: Holder::Tdi {
                    part: Part::Data,
                    bit: 0,
                },
            },
        }
    }
}

/// Bits that did not come out, in the order in which they failed, and why.
pub type Reasons = ArrayVec<Explained, 256>;

/// Plays an accepted program on a board for why its bits fail: of those that a play of this kind lists, the first or
/// the first 256, each with its reason. The play ends behind the scan of the last of them. Takes no memory.
///
/// Asks that the devices are those that the board was planned of, as far as EXTEST captures their update stages or not.
pub fn explain(
    program: &Program,
    kind: Kind,
    devices: &[PlannedDevice],
    board: &mut Board,
) -> Reasons
    requires { CaptureAlike devices.now (opened_state board.old).members }
    ensures explained { result.items ≡ explained_on kind (program_of program.now) board.old }

    // What is told of a reason, nets, names and descriptions, stays as it was.
    ensures nets { board.new.nets ≡ (opened_state board.old).nets }
    ensures names { plates (members board.new.chips) ≡ plates (opened_state board.old).members }
{
    // For the proof alone: what the types keep of a program's steps and of a board's devices.
    let _ = program.len();
    let _ = board.devices();
    let most = most_explained(kind);
    let mut list = ArrayVec::new();
    play_opening(board);
    for step in program.steps() {
        if list.len() >= most {
            return list;
        }
        explain_step(&step, most, devices, board, &mut list);
    }
    list
}

/// How many bits of a play of this kind are explained at most.
fn most_explained(kind: Kind) -> usize
    ensures most { result ≡ most_kept kind }
    ensures room { result ≤ 256 }
{
    match kind {
        Kind::Stops => 1,
        Kind::PlaysOn => MOST,
    }
}

/// Plays a step on a board at rest (asked), and explains the bits that fail, so many in all.
fn explain_step(
    step: &Step<'_>,
    most: usize,
    devices: &[PlannedDevice],
    board: &mut Board,
    list: &mut Reasons,
)
    requires alike { CaptureAlike devices.now (members board.old.chips) }
    requires rests { IsResting board.old }
    requires within { IsWithin (seen.step step.now.what) }
    requires most { most ≤ 256 }
    requires listed { length list.old.items ≤ most }
    ensures board { (m : AtRest) → IsAtRest board.old m
        → IsAtRest board.new (meaning.after_step (seen.step step.now.what) m) }
    ensures explained { (m : AtRest) → IsAtRest board.old m
        → list.new.items ≡ take most (list.old.items ++ step_explained (seen.numbered step.now) m) }
{
    match step.what {
        Action::Scan {
            column,
            vector,
            end,
        } => explain_scan(
            step.number,
            column,
            &vector,
            end,
            most,
            devices,
            board,
            list,
        ),
        Action::Go(_) => pass(step, board),
        Action::Path(_) => pass(step, board),
        Action::Run { .. } => pass(step, board),
        Action::Trst(_) => pass(step, board),
    }
}

/// Plays a step on a board at rest (asked).
fn pass(step: &Step<'_>, board: &mut Board)
    requires rests { IsResting board.old }
    requires within { IsWithin (seen.step step.now.what) }
    ensures { (m : AtRest) → IsAtRest board.old m
        → IsAtRest board.new (meaning.after_step (seen.step step.now.what) m) }
{
    let mut failures = Failures::new();
    play_step(step, board, &mut failures);
}

/// Scans a whole vector as a play does, and explains the bits that fail by the registers as they have captured.
fn explain_scan(
    command: usize,
    column: Column,
    vector: &Vector,
    end: State,
    most: usize,
    devices: &[PlannedDevice],
    board: &mut Board,
    list: &mut Reasons,
)
    requires alike { CaptureAlike devices.now (members board.old.chips) }
    requires rests { IsResting board.old }
    requires within { length (bits vector.now) ≤ vector_limit }
    requires most { most ≤ 256 }
    requires listed { length list.old.items ≤ most }
    ensures board { (m : AtRest) → IsAtRest board.old m
        → IsAtRest board.new (meaning.scan_end column end
        (whole.shift column (tdis (bits vector.now)) (whole.capture column (whole.settle m)))) }
    ensures explained { (m : AtRest) → IsAtRest board.old m
        → list.new.items ≡ take most (list.old.items ++ scan_explained command column (bits vector.now) m) }
{
    board.settle();
    board.capture(column);
    let mut failures = Failures::new();
    board.note(column, vector, command, &mut failures);
    let failed = failures.list.as_slice();
    explain_each(board.chain(), devices, column, vector, failed, most, list);
    board.shift(column, vector);
    end_scan(column, end, board);
}

/// Explains failing bits of a vector on a chain whose registers have captured, so many in all.
fn explain_each(
    chain: &Chain,
    devices: &[PlannedDevice],
    column: Column,
    vector: &Vector,
    failures: &[Mismatch],
    most: usize,
    list: &mut Reasons,
)
    requires alike { CaptureAlike devices.now (members chain.now.chips) }
    requires most { most ≤ 256 }
    requires listed { length list.old.items ≤ most }
    ensures { list.new.items ≡ take most (list.old.items
        ++ map (explained_of chain.now.nets (members chain.now.chips) column (bits vector.now)) failures.now) }
{
    for failure in failures {
        let explained = explain_bit(chain, devices, column, vector, *failure);
        keep(explained, most, list);
    }
}

/// A failing bit of a vector on a chain whose registers have captured, with its reason.
fn explain_bit(
    chain: &Chain,
    devices: &[PlannedDevice],
    column: Column,
    vector: &Vector,
    failure: Mismatch,
) -> Explained
    requires { CaptureAlike devices.now (members chain.now.chips) }
    ensures { result ≡ explained_of chain.now.nets (members chain.now.chips) column (bits vector.now) failure }
{
    let reason = reason_of(chain, devices, column, vector, failure);
    Explained { failure, reason }
}

/// One more, behind all others, where fewer than so many are listed.
fn keep(more: Explained, most: usize, list: &mut Reasons)
    requires most { most ≤ 256 }
    requires listed { length list.old.items ≤ most }
    ensures { list.new.items ≡ take most (list.old.items ++ more ∷ []) }
{
    if list.len() >= most {
        return;
    }
    list.push(more);
}
