//! Runs that say why bits fail.

ghost use Rattle.std.specs.Prelude.{◌≡◌, ◌⊎◌, ◌++◌, IfOk, OnOk};
ghost use Rattle.byte_streams.specs.Writes.{WritesAll};
ghost use Rattle.board_description.specs.Kept.{Told};
ghost use Rattle.board_plan.specs.View.{wiring};
ghost use Rattle.jt_board.specs.Made.{IsReadyPlan, board_of};
ghost use Rattle.jt_board.specs.Report.{report};
ghost use Rattle.play_model.specs.ScheduleLaws.{full};
ghost use Rattle.jt_player.specs.Links.{PlaysAllOver};
ghost use Rattle.jt_player.specs.Loops.{LoopsAllOver};
ghost use Rattle.play_model.specs.Endings.{status_of};
ghost use Rattle.play_model.specs.declared.ending.Ending as end;
ghost use Rattle.scan_vectors.specs.Failures.{Found, found};
ghost use Rattle.svf_programs.specs.Sizes.{program_of};
ghost use Rattle.jt_player.specs.Kinds.{MeansAsPlayed};
ghost use Rattle.jt_player.specs.Running.{Tells};
ghost use Rattle.play_explained.specs.Lines.{explained_lines, lines_in_program};
ghost use Rattle.board_reasons.specs.Planned.{CaptureAlike};
ghost use Rattle.play_model.specs.DirectPlay.{opened_state};
ghost use Rattle.play_explained.specs.Runs.{LacksMemory, explained_run, other_for, why_on};

use crate::explaining::explain;
use crate::telling::{Known, write_ended, write_explained};
use board_description::Untold;
use board_plan::{Plan, PlannedDevice};
use byte_streams::{Broken, Counted, End, Sink, Source};
use jt_board::{Board, write_report};
use jt_player::{fresh_player, loop_over_lent, play_and_note, play_over_lent};
use play_model::{Ending, Kind};
use player::Player;
use scan_vectors::Failures;
use std::alloc::{AllocError, Global};
use svf_programs::Program;

/// Plays an accepted program of a text, which is lent, on a board by a player of this kind and tells of it as
/// `jt_player::run_program` does, and behind the line of each failing bit where its statement starts and why it failed,
/// as it is found on the board of a plan, which is powered up where a bit failed. Answers the exit status: 0 pass, 1
/// fail.
///
/// Refused for want of memory for that board, which is asked for after the play; no write was lost then. `Broken`
/// comes exactly where the writer's first failure came in this call. In both it was told a front part of what it was
/// owed, and the board is as it was or as the whole play leaves it.
///
/// Asks that the plan is ready, as those are that `plan_of_table` and `bare_plan` make.
pub fn run_play_explained<W: Sink>(
    alloc: Global,
    kind: Kind,
    program: &Program,
    text: &[u8],
    bytes: bool,
    board: &mut Board,
    plan: &Plan,
    out: &mut Counted<W>,
) -> Result<u8, Untold>
    requires whole { out.old.failures ≡ 0 }
    requires ready { IsReadyPlan plan.now }
    // What it means over whole registers.
    ensures means { MeansAsPlayed kind (program_of program.now) board.old }
    // What is told, the exit status, and the board that is left.
    ensures writes { Told W.contents out.old out.new (explained_run kind bytes text.now (program_of program.now)
        board.old (board_of (wiring plan.now))).out result }
    ensures status { IfOk result (λ status. status ≡ (explained_run kind bytes text.now (program_of program.now)
        board.old (board_of (wiring plan.now))).status) }
    ensures left { OnOk result (board.new ≡ (full kind program.now.steps board.old).board) }
    ensures board { (board.new ≡ board.old) ⊎ (board.new ≡ (full kind program.now.steps board.old).board) }
{
    // For the proof alone: what the types keep of a program's steps and of a board's devices.
    let _ = program.len();
    let _ = board.devices();
    play_and_explain(alloc, kind, program, text, bytes, board, plan, out)
}

/// Plays and writes the bytes where they are asked for, how it ended with the reasons, and the report. Answers the exit
/// status of the ending.
fn play_and_explain<W: Sink>(
    alloc: Global,
    kind: Kind,
    program: &Program,
    text: &[u8],
    bytes: bool,
    board: &mut Board,
    plan: &Plan,
    out: &mut Counted<W>,
) -> Result<u8, Untold>
    requires whole { out.old.failures ≡ 0 }
    requires ready { IsReadyPlan plan.now }
    ensures writes { Told W.contents out.old out.new (explained_run kind bytes text.now (program_of program.now)
        board.old (board_of (wiring plan.now))).out result }
    ensures status { IfOk result (λ status. status ≡ (explained_run kind bytes text.now (program_of program.now)
        board.old (board_of (wiring plan.now))).status) }
    ensures left { OnOk result (board.new ≡ (full kind program.now.steps board.old).board) }
    ensures board { (board.new ≡ board.old) ⊎ (board.new ≡ (full kind program.now.steps board.old).board) }
{
    let (ending, failures) = play_and_note(kind, program, board, bytes, out)?;
    let other = other_board(alloc, ending, plan)?;
    write_by_other(
        kind, ending, &failures, program, text, plan, other, board, out,
    )?;
    Ok(ending.status())
}

/// The board of a plan on which reasons are looked for, where a play that ended so has any to tell. Refuses for want of
/// memory alone.
fn other_board(alloc: Global, ending: Ending, plan: &Plan) -> Result<Option<Board>, AllocError>
    requires { IsReadyPlan plan.now }
    ensures { IfOk result (λ other. other ≡ other_for ending (board_of (wiring plan.now))) }
{
    match ending {
        Ending::Fail { .. } => Ok(Some(Board::powered_up(alloc, plan)?)),
        _ => Ok(None),
    }
}

/// Writes how a play of this kind ended, with the reasons as they are found on the board of a plan, which is there
/// where there are any, and the report of a board.
fn write_by_other<W: Sink>(
    kind: Kind,
    ending: Ending,
    failures: &Failures,
    program: &Program,
    text: &[u8],
    plan: &Plan,
    other: Option<Board>,
    board: &Board,
    out: &mut Counted<W>,
) -> Result<(), Broken>
    requires whole { out.old.failures ≡ 0 }
    requires other { other ≡ other_for ending (board_of (wiring plan.now)) }
    ensures { WritesAll W.contents out.old out.new (explained_lines text.now (why_on kind (program_of program.now)
        (board_of (wiring plan.now))) kind ending (found failures.now) ++ report board.now) result }
{
    write_if_failed(kind, ending, failures, program, text, plan, other, out)?;
    write_report(board, out)
}

/// Writes how a play of this kind ended, with the reasons as they are found on the board of a plan, which is there
/// where there are any.
fn write_if_failed<W: Sink>(
    kind: Kind,
    ending: Ending,
    failures: &Failures,
    program: &Program,
    text: &[u8],
    plan: &Plan,
    other: Option<Board>,
    out: &mut Counted<W>,
) -> Result<(), Broken>
    requires whole { out.old.failures ≡ 0 }
    requires other { other ≡ other_for ending (board_of (wiring plan.now)) }
    ensures { WritesAll W.contents out.old out.new (explained_lines text.now (why_on kind (program_of program.now)
        (board_of (wiring plan.now))) kind ending (found failures.now)) result }
{
    match other {
        Some(mut other) => write_on_board(
            kind,
            ending,
            failures,
            program,
            text,
            &plan.devices,
            &mut other,
            out,
        ),
        None => write_ended(ending, text, out),
    }
}

/// Writes how a play of this kind ended, with the reasons as they are found on this board.
fn write_on_board<W: Sink>(
    kind: Kind,
    ending: Ending,
    failures: &Failures,
    program: &Program,
    text: &[u8],
    devices: &[PlannedDevice],
    board: &mut Board,
    out: &mut Counted<W>,
) -> Result<(), Broken>
    requires whole { out.old.failures ≡ 0 }
    requires alike { CaptureAlike devices.now (opened_state board.old).members }
    ensures { WritesAll W.contents out.old out.new (explained_lines text.now
        (why_on kind (program_of program.now) board.old) kind ending (found failures.now)) result }
{
    let reasons = explain(program, kind, devices, board);
    let known = Known::OnBoard {
        chain: board.chain(),
        explained: reasons.as_slice(),
    };
    write_explained(kind, ending, failures, text, known, out)
}

/// Plays an accepted program of a text on a board over the two ends of one connection and tells of it as
/// `jt_player::run_loop` does, and behind the line of each failing bit where its statement starts and why it failed: it
/// is played once more on the board of a plan. Answers the exit status: 0 pass, 1 fail, 3 a lost connection or a byte
/// that is no answer.
///
/// Refused for want of memory for that board, before anything is played: all is as it was then. `Broken` comes exactly
/// where the first failure of `out` came in this call.
///
/// Asks that the plan is ready, as those are that `plan_of_table` and `bare_plan` make.
pub fn run_loop_explained<P: End, B: End, O: Sink>(
    alloc: Global,
    kind: Kind,
    program: Program,
    player_end: &mut Counted<P>,
    board_end: &mut Counted<B>,
    board: &mut Board,
    text: &[u8],
    plan: &Plan,
    out: &mut Counted<O>,
) -> Result<u8, Untold>
    requires player_end { player_end.old.failures ≡ 0 }
    requires board_end { board_end.old.failures ≡ 0 }
    requires out_whole { out.old.failures ≡ 0 }
    requires ready { IsReadyPlan plan.now }
    ensures refused { LacksMemory result → (player_end.new ≡ player_end.old) × (board_end.new ≡ board_end.old)
        × (board.new ≡ board.old) × (out.new ≡ out.old) }
    ensures played { ¬ LacksMemory result → (ending : end.Ending) × (all : Found)
        × LoopsAllOver P.puts P.hears B.puts B.hears P.contents P.remaining B.contents B.remaining player_end.old
        player_end.new board_end.old board_end.new kind (program_of program) board.old board.new ending all
        × Told O.contents out.old out.new (explained_lines text.now (why_on kind (program_of program)
        (board_of (wiring plan.now))) kind ending all ++ report board.new) result
        × IfOk result (λ status. status ≡ status_of ending) }
{
    let mut other = Board::powered_up(alloc, plan)?;
    let mut player = fresh_player(alloc, kind, program);
    let ending = loop_over_lent(player_end, board_end, &mut player, board);
    write_with_report(
        kind,
        ending,
        &player,
        text,
        &plan.devices,
        &mut other,
        board,
        out,
    )?;
    Ok(ending.status())
}

/// Writes how the play of a player of this kind ended, with the reasons as they are found on the other board, and the
/// report of a board.
fn write_with_report<O: Sink>(
    kind: Kind,
    ending: Ending,
    player: &Player,
    text: &[u8],
    devices: &[PlannedDevice],
    other: &mut Board,
    board: &Board,
    out: &mut Counted<O>,
) -> Result<(), Broken>
    requires whole { out.old.failures ≡ 0 }
    requires alike { CaptureAlike devices.now (opened_state other.old).members }
    ensures { WritesAll O.contents out.old out.new (explained_lines text.now (why_on kind player.now.program other.old)
        kind ending player.now.found ++ report board.now) result }
{
    write_played(kind, ending, player, text, devices, other, out)?;
    write_report(board, out)
}

/// Writes how the play of a player of this kind ended, with the reasons as they are found on this board.
fn write_played<O: Sink>(
    kind: Kind,
    ending: Ending,
    player: &Player,
    text: &[u8],
    devices: &[PlannedDevice],
    board: &mut Board,
    out: &mut Counted<O>,
) -> Result<(), Broken>
    requires whole { out.old.failures ≡ 0 }
    requires alike { CaptureAlike devices.now (opened_state board.old).members }
    ensures { WritesAll O.contents out.old out.new (explained_lines text.now (why_on kind player.now.program board.old)
        kind ending player.now.found) result }
{
    write_on_board(
        kind,
        ending,
        player.failures(),
        player.program(),
        text,
        devices,
        board,
        out,
    )
}

/// Plays an accepted program of a text over a reader and a writer and tells of it as `jt_player::run_over` does, and
/// behind the line of each failing bit where its statement starts and what is wanted of it: of the board nothing is
/// known. Answers the exit status: 0 pass, 1 fail, 3 a lost connection or a byte that is no answer.
///
/// `Broken` comes exactly where the first failure of `out` came in this call.
pub fn run_over_explained<R: Source, W: Sink, O: Sink>(
    alloc: Global,
    kind: Kind,
    program: Program,
    reader: &mut Counted<R>,
    writer: &mut Counted<W>,
    text: &[u8],
    out: &mut Counted<O>,
) -> Result<u8, Broken>
    requires reader { reader.old.failures ≡ 0 }
    requires writer { writer.old.failures ≡ 0 }
    requires out_whole { out.old.failures ≡ 0 }
    ensures { (ending : end.Ending) × (all : Found)
        × PlaysAllOver W.puts R.hears W.contents R.remaining writer.old writer.new reader.old reader.new kind
        (program_of program) ending all
        × Tells O.contents out.old out.new (explained_lines text.now (lines_in_program program.steps) kind ending all)
        (status_of ending) result }
{
    let mut player = fresh_player(alloc, kind, program);
    let ending = play_over_lent(reader, writer, &mut player);
    tell_in_program(kind, ending, &player, text, out)
}

/// Writes how the play of a player of this kind ended, with what is wanted of the bits that failed. Answers the exit
/// status of the ending.
fn tell_in_program<O: Sink>(
    kind: Kind,
    ending: Ending,
    player: &Player,
    text: &[u8],
    out: &mut Counted<O>,
) -> Result<u8, Broken>
    requires { out.old.failures ≡ 0 }
    ensures { Tells O.contents out.old out.new (explained_lines text.now (lines_in_program player.now.program.steps)
        kind ending player.now.found) (status_of ending) result }
{
    write_in_program(kind, ending, player, text, out)?;
    Ok(ending.status())
}

/// Writes how the play of a player of this kind ended, with what is wanted of the bits that failed.
fn write_in_program<O: Sink>(
    kind: Kind,
    ending: Ending,
    player: &Player,
    text: &[u8],
    out: &mut Counted<O>,
) -> Result<(), Broken>
    requires { out.old.failures ≡ 0 }
    ensures { WritesAll O.contents out.old out.new (explained_lines text.now
        (lines_in_program player.now.program.steps) kind ending player.now.found) result }
{
    let known = Known::InProgram(player.program());
    write_explained(kind, ending, player.failures(), text, known, out)
}
