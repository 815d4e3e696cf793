//! Runs over a connection: what is told of a play, and of a board that was served.

ghost use Rattle.std.specs.Prelude.{◌≡◌, ◌++◌};
ghost use Rattle.play_direct.specs.Report.{report};
ghost use Rattle.byte_streams.specs.Writes.{WritesAll};
ghost use Rattle.play_pipes.specs.Links.{PlaysAllOver};
ghost use Rattle.play_pipes.specs.Loops.{LoopsAllOver};
ghost use Rattle.play_pipes.specs.Serves.{ServesOver};
ghost use Rattle.play_model.specs.Endings.{status_of, verdict_line};
ghost use Rattle.play_model.specs.declared.kind.Kind.TheVariants.{Stops};
ghost use Rattle.play_model.specs.Streams.{new_stream};
ghost use Rattle.svf_programs.specs.Sizes.{program_of};
ghost use Rattle.play_model.specs.declared.ending.Ending as end;
ghost use Rattle.play_pipes.specs.Served as serving;
ghost use Rattle.jt_player.specs.Linking as spec;
ghost use Rattle.jt_player.specs.Linking.{listening_line, served_line, served_status};
ghost use Rattle.jt_player.specs.Running.{Tells};
ghost use Rattle.jt_player.specs.Showing.{ending_lines};
ghost use Rattle.scan_vectors.specs.Failures.{Found, found};

use crate::showing::write_ending;
use byte_streams::{Broken, Counted, End, Sink, Source, put_all, put_pieces};
use itoa::Buffer;
use output_words::{Status, hex_byte};
use play_direct::{Board, write_report};
use play_model::{Ending, Kind, write_verdict};
use play_pipes::{Player, Served, loop_over_all, play_over_all, serve_over};
use scan_vectors::Failures;
use std::alloc::Global;
use svf_programs::Program;

/// Plays a program over a reader and a writer by a player of this kind, and writes to `out` the line of its verdict, or
/// of one that plays on all that failed. Answers the exit status: 0 pass, 1 fail, 3 a lost connection or a byte that is
/// no answer.
///
/// `Broken` comes exactly where the first failure of `out` came in this call.
pub fn run_over<R: Source, W: Sink, O: Sink>(
    alloc: Global,
    kind: Kind,
    program: Program,
    reader: &mut Counted<R>,
    writer: &mut Counted<W>,
    out: &mut Counted<O>,
) -> Result<u8, Broken>
    requires reader { reader.old.failures ≡ 0 }
    requires writer { writer.old.failures ≡ 0 }
    requires out_whole { out.old.failures ≡ 0 }
    ensures { (ending : end.Ending) × (all : Found)
        × PlaysAllOver W.puts R.hears W.contents R.remaining writer.old writer.new reader.old reader.new kind
        (program_of program) ending all
        × Tells O.contents out.old out.new (ending_lines kind ending all) (status_of ending) result }
{
    let (ending, failures) = play_over_all(reader, writer, fresh_player(alloc, kind, program));
    tell_ending(kind, ending, &failures, out)
}

/// Plays a program on a board over the two ends of one connection by a player of this kind, and writes to `out` the
/// line of its verdict, or of one that plays on all that failed, and the board's report. Answers the exit status: 0
/// pass, 1 fail, 3 a lost connection or a byte that is no answer.
///
/// `Broken` comes exactly where the first failure of `out` came in this call.
pub fn run_loop<P: End, B: End, O: Sink>(
    alloc: Global,
    kind: Kind,
    program: Program,
    player_end: &mut Counted<P>,
    board_end: &mut Counted<B>,
    board: &mut Board,
    out: &mut Counted<O>,
) -> Result<u8, Broken>
    requires player_end { player_end.old.failures ≡ 0 }
    requires board_end { board_end.old.failures ≡ 0 }
    requires out_whole { out.old.failures ≡ 0 }
    ensures { (ending : end.Ending) × (all : Found)
        × LoopsAllOver P.puts P.hears B.puts B.hears P.contents P.remaining B.contents B.remaining player_end.old
        player_end.new board_end.old board_end.new kind (program_of program) board.old board.new ending all
        × Tells O.contents out.old out.new (ending_lines kind ending all ++ report board.new) (status_of ending)
        result }
{
    let player = fresh_player(alloc, kind, program);
    let (ending, failures) = loop_over_all(player_end, board_end, player, board);
    tell_played(kind, ending, &failures, board, out)
}

/// Serves a board over a reader and a writer, taking so many bytes at most, and writes to `out` the line of how it
/// ended. Answers the exit status: 0 `quit` or `closed`, 2 `refused`, 3 `bound` or `broken`.
///
/// `Broken` comes exactly where the first failure of `out` came in this call.
pub fn run_serve<R: Source, W: Sink, O: Sink>(
    board: &mut Board,
    reader: &mut Counted<R>,
    writer: &mut Counted<W>,
    max_bytes: u64,
    out: &mut Counted<O>,
) -> Result<u8, Broken>
    requires reader { reader.old.failures ≡ 0 }
    requires writer { writer.old.failures ≡ 0 }
    requires out_whole { out.old.failures ≡ 0 }
    ensures { (served : serving.Served)
        × ServesOver W.puts R.hears W.contents R.remaining writer.old writer.new reader.old reader.new board.old
        board.new max_bytes served
        × Tells O.contents out.old out.new (served_line served) (served_status served) result }
{
    let served = serve_over(reader, writer, board, max_bytes);
    tell_served(served, out)
}

/// A player of this kind, of which nothing was played yet.
pub fn fresh_player(alloc: Global, kind: Kind, program: Program) -> Player
    ensures { result ≡ new_stream kind (program_of program) }
{
    match kind {
        Kind::Stops => stopping_player(alloc, program),
        Kind::PlaysOn => Player::new_all(program),
    }
}

fn stopping_player(alloc: Global, program: Program) -> Player
    ensures { result ≡ new_stream Stops (program_of program) }
{
    match Player::new(alloc, program) {
        Ok(player) => player,
        Err(_) => unreachable!(),
    }
}

/// Writes the line of a verdict. Answers the exit status of the ending.
///
/// `Broken` comes exactly where the writer's first failure came in this call.
pub fn tell_verdict<O: Sink>(ending: Ending, out: &mut Counted<O>) -> Result<u8, Broken>
    requires { out.old.failures ≡ 0 }
    ensures { Tells O.contents out.old out.new (verdict_line ending) (status_of ending) result }
{
    write_verdict(ending, out)?;
    Ok(ending.status())
}

/// Writes how a play of this kind ended: the line of its verdict, or of one that plays on all that failed. Answers the
/// exit status of the ending.
///
/// `Broken` comes exactly where the writer's first failure came in this call.
fn tell_ending<O: Sink>(
    kind: Kind,
    ending: Ending,
    failures: &Failures,
    out: &mut Counted<O>,
) -> Result<u8, Broken>
    requires { out.old.failures ≡ 0 }
    ensures { Tells O.contents out.old out.new (ending_lines kind ending (found failures.now)) (status_of ending)
        result }
{
    write_ending(kind, ending, failures, out)?;
    Ok(ending.status())
}

/// Writes how a play of this kind ended, and the report of a board. Answers the exit status of the ending.
///
/// `Broken` comes exactly where the writer's first failure came in this call.
fn tell_played<O: Sink>(
    kind: Kind,
    ending: Ending,
    failures: &Failures,
    board: &Board,
    out: &mut Counted<O>,
) -> Result<u8, Broken>
    requires { out.old.failures ≡ 0 }
    ensures { Tells O.contents out.old out.new (ending_lines kind ending (found failures.now) ++ report board.now)
        (status_of ending) result }
{
    write_played(kind, ending, failures, board, out)?;
    Ok(ending.status())
}

/// Writes how a play of this kind ended, and the report of a board.
fn write_played<O: Sink>(
    kind: Kind,
    ending: Ending,
    failures: &Failures,
    board: &Board,
    out: &mut Counted<O>,
) -> Result<(), Broken>
    requires { out.old.failures ≡ 0 }
    ensures { WritesAll O.contents out.old out.new
        (ending_lines kind ending (found failures.now) ++ report board.now) result }
{
    write_ending(kind, ending, failures, out)?;
    write_report(board, out)
}

/// Writes the line of a verdict and the report of a board on which nothing was played. Answers the exit status of the
/// ending.
///
/// `Broken` comes exactly where the writer's first failure came in this call.
pub fn tell_unplayed<O: Sink>(
    ending: Ending,
    board: &Board,
    out: &mut Counted<O>,
) -> Result<u8, Broken>
    requires { out.old.failures ≡ 0 }
    ensures { Tells O.contents out.old out.new (verdict_line ending ++ report board.now) (status_of ending) result }
{
    tell_played(Kind::Stops, ending, &Failures::new(), board, out)
}

/// Writes the line of how serving a board ended: `quit`, `closed`, `refused 5a`, `bound` or `broken`. Answers the exit
/// status: 0 quit or closed, 2 refused, 3 bound or broken.
///
/// `Broken` comes exactly where the writer's first failure came in this call.
pub fn tell_served<O: Sink>(served: Served, out: &mut Counted<O>) -> Result<u8, Broken>
    requires { out.old.failures ≡ 0 }
    ensures { Tells O.contents out.old out.new (served_line served) (served_status served) result }
{
    write_served(served, out)?;
    Ok(exit_status(served).number())
}

/// Writes that a server takes connections, `listening on 127.0.0.1:PORT`.
///
/// `Broken` comes exactly where the writer's first failure came in this call.
pub fn tell_listening<E: Sink>(port: u16, err: &mut Counted<E>) -> Result<(), Broken>
    requires { err.old.failures ≡ 0 }
    ensures { WritesAll E.contents err.old err.new (listening_line port) result }
{
    let mut number = Buffer::new();
    put_pieces(
        err,
        &[
            b"listening on 127.0.0.1:",
            number.format(port).as_bytes(),
            b"\n",
        ],
    )
}

/// Writes the line of how serving ended.
fn write_served<O: Sink>(served: Served, out: &mut Counted<O>) -> Result<(), Broken>
    requires { out.old.failures ≡ 0 }
    ensures { WritesAll O.contents out.old out.new (served_line served) result }
{
    match served {
        Served::Quit => put_all(out, b"quit\n"),
        Served::Closed => put_all(out, b"closed\n"),
        Served::Refused(byte) => put_pieces(out, &[b"refused ", &hex_byte(byte), b"\n"]),
        Served::Bound => put_all(out, b"bound\n"),
        Served::Broken => put_all(out, b"broken\n"),
    }
}

/// The exit status of how serving ended.
fn exit_status(served: Served) -> Status
    ensures { result ≡ spec.exit_status served }
{
    match served {
        Served::Quit | Served::Closed => Status::Pass,
        Served::Refused(_) => Status::Refused,
        Served::Bound | Served::Broken => Status::Lost,
    }
}
