//! Direct play: player and board joined without pipes.

ghost use Rattle.std.specs.Prelude.{◌≡◌};
ghost use Rattle.byte_streams.specs.Writes.{WritesAll, flagged};
ghost use Rattle.play_model.specs.ScheduleLaws.{bytes_of_full_play, full};
ghost use Rattle.play_model.specs.Streams.{new_stream};
ghost use Rattle.scan_vectors.specs.Failures.{found};
ghost use Rattle.svf_programs.specs.Sizes.{program_of};
ghost use Rattle.jt_player.specs.Kinds.{MeansAsPlayed, ending_in, found_of_ending, found_in};

use byte_streams::{Counted, Sink};
use play_direct::{
    Board, play_program, play_program_all, play_program_all_noted, play_program_noted,
};
use play_model::{Ending, Kind};
use play_pipes::Player;
use scan_vectors::{Failures, Mismatch};
use svf_programs::Program;

/// Plays the program of a fresh player on a board, as if each byte were taken by the board as soon as it is made, and
/// each answer judged as it comes. What that leads to is done on whole registers.
///
/// Whatever state the board is in, the ending is that of the program's meaning over whole registers, from the state
/// after the opening, and the board is at rest in its last state: of a player that stops, the state after its first
/// failing step. Takes no memory.
pub fn play_board(player: Player, board: &mut Board) -> Ending
    requires { player ≡ new_stream player.kind player.program }
    ensures ending { result ≡ ending_in player.kind player.program board.old }
    ensures board { board.new ≡ (full player.kind player.program.steps board.old).board }
    ensures meaning { MeansAsPlayed player.kind player.program board.old }
{
    let (ending, _) = play_board_all(player, board);
    ending
}

/// Plays the program of a fresh player on a board as `play_board` does, and answers what it found too. One that plays
/// on finds every wanted bit that does not come out, by command and then by place in the whole vector: the first 256
/// of them, and how many they are. One that stops finds the first alone. Takes no memory.
pub fn play_board_all(player: Player, board: &mut Board) -> (Ending, Failures)
    requires { player ≡ new_stream player.kind player.program }
    ensures ending { result.0 ≡ ending_in player.kind player.program board.old }
    ensures found { found result.1 ≡ found_in player.kind player.program board.old }
    ensures board { board.new ≡ (full player.kind player.program.steps board.old).board }
    ensures meaning { MeansAsPlayed player.kind player.program board.old }
{
    play_kind(player.kind(), player.program(), board)
}

/// Plays a program on a board as `play_board` does, and writes the bytes that the player sends. The flag tells that all
/// of them were written; it is false exactly where the writer's first loss came in this call, and the play goes on all
/// the same.
pub fn play_noted<W: Sink>(
    player: Player,
    board: &mut Board,
    out: &mut Counted<W>,
) -> (Ending, bool)
    requires fresh { player ≡ new_stream player.kind player.program }
    requires none_lost { out.old.failures ≡ 0 }

    // The play.
    ensures ending { result.0 ≡ ending_in player.kind player.program board.old }
    ensures board { board.new ≡ (full player.kind player.program.steps board.old).board }
    ensures meaning { MeansAsPlayed player.kind player.program board.old }

    // What was written of it.
    ensures writes { WritesAll W.contents out.old out.new
        (bytes_of_full_play player.kind player.program.steps board.old) (flagged result.1) }
{
    let (ending, _, noted) = play_kind_noted(player.kind(), player.program(), board, out);
    (ending, noted)
}

/// Plays a program on a board by a player of this kind.
pub(crate) fn play_kind(kind: Kind, program: &Program, board: &mut Board) -> (Ending, Failures)
    ensures ending { result.0 ≡ ending_in kind (program_of program.now) board.old }
    ensures found { found result.1 ≡ found_in kind (program_of program.now) board.old }
    ensures board { board.new ≡ (full kind program.now.steps board.old).board }
    ensures meaning { MeansAsPlayed kind (program_of program.now) board.old }
{
    match kind {
        Kind::Stops => {
            let ending = play_program(program, board);
            (ending, first_alone(ending))
        }
        Kind::PlaysOn => play_program_all(program, board),
    }
}

/// Plays a program on a board by a player of this kind, and writes the bytes of the play. The flag tells that all of
/// them were written.
pub(crate) fn play_kind_noted<W: Sink>(
    kind: Kind,
    program: &Program,
    board: &mut Board,
    out: &mut Counted<W>,
) -> (Ending, Failures, bool)
    requires { out.old.failures ≡ 0 }
    ensures ending { result.0 ≡ ending_in kind (program_of program.now) board.old }
    ensures found { found result.1 ≡ found_in kind (program_of program.now) board.old }
    ensures board { board.new ≡ (full kind program.now.steps board.old).board }
    ensures meaning { MeansAsPlayed kind (program_of program.now) board.old }
    ensures writes { WritesAll W.contents out.old out.new (bytes_of_full_play kind program.now.steps board.old)
        (flagged result.2) }
{
    match kind {
        Kind::Stops => {
            let (ending, noted) = play_program_noted(program, board, out);
            (ending, first_alone(ending), noted)
        }
        Kind::PlaysOn => play_program_all_noted(program, board, out),
    }
}

/// What a player that stops has found.
fn first_alone(ending: Ending) -> Failures
    ensures { found result ≡ found_of_ending ending }
{
    let mut failures = Failures::new();
    if let Ending::Fail { command, part, bit } = ending {
        failures.note(Mismatch { command, part, bit });
    }
    failures
}
