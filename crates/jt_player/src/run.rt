//! A whole run: a text is accepted or refused, played or only checked, and told of.

ghost use Rattle.std.specs.Prelude.{◌≡◌, ◌≢◌, ◌⊎◌, ◌++◌, IfOk, OnOk, codes};
ghost use Rattle.byte_streams.specs.Writes.{WritesAll};
ghost use Rattle.play_direct.specs.LeftOut.{left_out_lines};
ghost use Rattle.play_model.specs.ScheduleLaws.{full};
ghost use Rattle.play_model.specs.declared.kind.Kind.TheVariants.{Stops, PlaysOn};
ghost use Rattle.scan_vectors.specs.Failures.{found};
ghost use Rattle.svf_programs.specs.Sizes.{program_of};
ghost use Rattle.jt_player.specs.Kinds.{MeansAsPlayed, ending_in, found_in};
ghost use Rattle.jt_player.specs.Running.{Happens, IsCheckOf, IsRunOf, Run, Tells, note, played_run};
ghost use Rattle.jt_player.specs.Showing.{accepted_line, refusal_line};

use crate::play::{play_kind, play_kind_noted};
use crate::refusing::refuse_memory;
use crate::showing::{write_accepted, write_ending, write_refusal};
use byte_streams::{Broken, Counted, Sink, put_all};
use output_words::Status;
use play_direct::{Board, accept, write_left_out, write_report};
use play_model::{Ending, Kind};
use scan_vectors::Failures;
use std::alloc::Global;
use svf_parse::{Code, SvfFault};
use svf_programs::Program;

/// Plays a text on a board and tells of it: to `out` a line of the bytes sent where `bytes` asks for it, the verdict
/// and the board's report; to `err` the line of a refusal or of want of memory. Answers the exit status: 0 pass, 1
/// fail, 2 a refused text, 4 want of memory.
///
/// `Broken` comes exactly where the first failure of one of the two writers came in this call. Then each was told a
/// front part of what it was owed, and the board is as it was or as the whole play leaves it.
pub fn run_play<W: Sink, E: Sink>(
    alloc: Global,
    svf: &[u8],
    board: &mut Board,
    bytes: bool,
    out: &mut Counted<W>,
    err: &mut Counted<E>,
) -> Result<u8, Broken>
    requires out_whole { out.old.failures ≡ 0 }
    requires err_whole { err.old.failures ≡ 0 }
    ensures { (run : Run) × IsRunOf Stops svf.now bytes board.old run
        × Happens W.contents E.contents run board.old board.new out.old out.new err.old err.new result }
{
    run_kind(alloc, Kind::Stops, svf, board, bytes, out, err)
}

/// Plays a text on a board to its end, whatever fails, and tells of it as `run_play` does, but for the verdict: the
/// wanted bits that did not come out, the first 256 of them one a line, and how many there were; `pass` where there
/// was none.
pub fn run_play_all<W: Sink, E: Sink>(
    alloc: Global,
    svf: &[u8],
    board: &mut Board,
    bytes: bool,
    out: &mut Counted<W>,
    err: &mut Counted<E>,
) -> Result<u8, Broken>
    requires out_whole { out.old.failures ≡ 0 }
    requires err_whole { err.old.failures ≡ 0 }
    ensures { (run : Run) × IsRunOf PlaysOn svf.now bytes board.old run
        × Happens W.contents E.contents run board.old board.new out.old out.new err.old err.new result }
{
    run_kind(alloc, Kind::PlaysOn, svf, board, bytes, out, err)
}

/// Plays a text on a board by a player of this kind, and tells of it.
fn run_kind<W: Sink, E: Sink>(
    alloc: Global,
    kind: Kind,
    svf: &[u8],
    board: &mut Board,
    bytes: bool,
    out: &mut Counted<W>,
    err: &mut Counted<E>,
) -> Result<u8, Broken>
    requires out_whole { out.old.failures ≡ 0 }
    requires err_whole { err.old.failures ≡ 0 }
    ensures { (run : Run) × IsRunOf kind svf.now bytes board.old run
        × Happens W.contents E.contents run board.old board.new out.old out.new err.old err.new result }
{
    match accept(alloc, svf) {
        Ok(program) => run_program(kind, &program, board, bytes, out),
        Err(fault) => refuse_text(fault, err),
    }
}

/// Checks a text and tells of it: to `out` a line of how many statements it has and how many steps they make, and one
/// for each instruction of the board that stands for BYPASS; to `err` the line of a refusal or of want of memory.
/// Nothing is played. Answers the exit status: 0 accepted, 2 a refused text, 4 want of memory.
///
/// `Broken` comes exactly where the first failure of one of the two writers came in this call. Then each was told a
/// front part of what it was owed.
pub fn run_check<W: Sink, E: Sink>(
    alloc: Global,
    svf: &[u8],
    board: &Board,
    out: &mut Counted<W>,
    err: &mut Counted<E>,
) -> Result<u8, Broken>
    requires out_whole { out.old.failures ≡ 0 }
    requires err_whole { err.old.failures ≡ 0 }
    ensures { (run : Run) × IsCheckOf svf.now board.now run
        × Happens W.contents E.contents run board.now board.now out.old out.new err.old err.new result }
{
    match accept(alloc, svf) {
        Ok(program) => check_program(&program, board, out),
        Err(fault) => refuse_text(fault, err),
    }
}

/// Tells of an accepted program as `run_check` tells of its text, and plays nothing. Answers the exit status, 0.
///
/// `Broken` comes exactly where the writer's first failure came in this call.
pub fn check_program<W: Sink>(
    program: &Program,
    board: &Board,
    out: &mut Counted<W>,
) -> Result<u8, Broken>
    requires { out.old.failures ≡ 0 }
    ensures { Tells W.contents out.old out.new (accepted_line (program_of program.now) ++ left_out_lines board.now) 0
        result }
{
    write_check(program, board, out)?;
    Ok(Status::Pass.number())
}

/// Writes the line of an accepted text, and one for each instruction of the board that stands for BYPASS.
fn write_check<W: Sink>(
    program: &Program,
    board: &Board,
    out: &mut Counted<W>,
) -> Result<(), Broken>
    requires { out.old.failures ≡ 0 }
    ensures { WritesAll W.contents out.old out.new (accepted_line (program_of program.now) ++ left_out_lines board.now)
        result }
{
    write_accepted(program, out)?;
    write_left_out(board, out)
}

/// Plays an accepted program, which is lent, on a board by a player of this kind, and tells of it as `run_play` and
/// `run_play_all` do. Answers the exit status: 0 pass, 1 fail.
///
/// `Broken` comes exactly where the writer's first failure came in this call. Then it was told a front part of what it
/// was owed, and the board is as it was or as the whole play leaves it.
pub fn run_program<W: Sink>(
    kind: Kind,
    program: &Program,
    board: &mut Board,
    bytes: bool,
    out: &mut Counted<W>,
) -> Result<u8, Broken>
    requires { out.old.failures ≡ 0 }
    // What it means over whole registers.
    ensures means { MeansAsPlayed kind (program_of program.now) board.old }
    // What is told, the exit status, and the board that is left.
    ensures writes { WritesAll W.contents out.old out.new
        (played_run kind bytes (program_of program.now) board.old).out result }
    ensures status { IfOk result (λ status. status
        ≡ (played_run kind bytes (program_of program.now) board.old).status) }
    ensures left { OnOk result (board.new ≡ (full kind program.now.steps board.old).board) }
    ensures board { (board.new ≡ board.old) ⊎ (board.new ≡ (full kind program.now.steps board.old).board) }
{
    // For the proof alone: what the types keep of a program's steps and of a board's devices.
    let _ = program.len();
    let _ = board.devices();
    play_and_tell(kind, program, board, bytes, out)
}

/// Plays and writes the bytes, how it ended and the report. Answers the exit status of the ending.
fn play_and_tell<W: Sink>(
    kind: Kind,
    program: &Program,
    board: &mut Board,
    bytes: bool,
    out: &mut Counted<W>,
) -> Result<u8, Broken>
    requires none_lost { out.old.failures ≡ 0 }
    ensures writes { WritesAll W.contents out.old out.new
        (played_run kind bytes (program_of program.now) board.old).out result }
    ensures status { IfOk result (λ status. status
        ≡ (played_run kind bytes (program_of program.now) board.old).status) }
    ensures left { OnOk result (board.new ≡ (full kind program.now.steps board.old).board) }
    ensures board { (board.new ≡ board.old) ⊎ (board.new ≡ (full kind program.now.steps board.old).board) }
{
    let (ending, failures) = play_and_note(kind, program, board, bytes, out)?;
    write_ending(kind, ending, &failures, out)?;
    write_report(board, out)?;
    Ok(ending.status())
}

/// Plays a program on a board by a player of this kind, and writes the line of the bytes sent where they are asked for.
/// Answers how the play ended, and what it found.
///
/// `Broken` comes exactly where the writer's first failure came in this call. Then the board is as it was or as the
/// whole play leaves it.
pub fn play_and_note<W: Sink>(
    kind: Kind,
    program: &Program,
    board: &mut Board,
    bytes: bool,
    out: &mut Counted<W>,
) -> Result<(Ending, Failures), Broken>
    requires none_lost { out.old.failures ≡ 0 }
    ensures writes { WritesAll W.contents out.old out.new (note kind bytes (program_of program.now) board.old) result }
    ensures ending { IfOk result (λ r. r.0 ≡ ending_in kind (program_of program.now) board.old) }
    ensures found { IfOk result (λ r. found r.1 ≡ found_in kind (program_of program.now) board.old) }
    ensures left { OnOk result (board.new ≡ (full kind program.now.steps board.old).board) }
    ensures board { (board.new ≡ board.old) ⊎ (board.new ≡ (full kind program.now.steps board.old).board) }
{
    if !bytes {
        return Ok(play_kind(kind, program, board));
    }
    put_all(out, b"bytes ")?;
    let (ending, failures, noted) = play_kind_noted(kind, program, board, out);
    if !noted {
        return Err(Broken);
    }
    put_all(out, b"\n")?;
    Ok((ending, failures))
}

/// Writes the line of a text that is refused, or `memory`. Answers the exit status: 2 refused, 4 want of memory.
///
/// `Broken` comes exactly where the writer's first failure came in this call.
pub fn refuse_text<E: Sink>(fault: SvfFault, err: &mut Counted<E>) -> Result<u8, Broken>
    requires { err.old.failures ≡ 0 }
    ensures { ((fault.code ≡ Code.NoMemory) × Tells E.contents err.old err.new (codes "memory\n") 4 result)
        ⊎ ((fault.code ≢ Code.NoMemory) × Tells E.contents err.old err.new (refusal_line fault) 2 result) }
{
    if fault.code == Code::NoMemory {
        return refuse_memory(err);
    }
    write_refusal(fault, err)?;
    Ok(Status::Refused.number())
}
