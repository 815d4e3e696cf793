//! Both ends of a connection, in turn and in one thread.

ghost use Rattle.std.specs.Prelude.{◌≡◌, ◌<◌, ◌≤◌, ◌+◌, length, not, None};
ghost use Rattle.play_model.specs.Fronts.{IsPrefix};
ghost use Rattle.play_model.specs.Streams as stream;
ghost use Rattle.play_model.specs.Streams.{new_stream};
ghost use Rattle.scan_vectors.specs.Failures.{found};
ghost use Rattle.play_links.specs.Loops.{LoopsAllOver, LoopsOver};
ghost use Rattle.play_links.specs.Pieces.{piece_bytes};
ghost use Rattle.play_links.specs.Turns.{GivesAll, HearsWhole, Loops, ServesTurn, SomeTurn, TakesTurn, fits_stream};
ghost use Rattle.player.specs.Window.{window};

use crate::serving::{PIECE, Served, take_bytes};
use byte_streams::{Counted, End, Sink, Source, put_all};
use jt_board::Board;
use play_model::Ending;
use player::Player;
use scan_vectors::Failures;

/// Gives out the first of the bytes that may be sent, so many.
fn give_out_first(player: &mut Player, n: usize)
    requires few { n ≤ piece_bytes }
    requires wait { n ≤ length (stream.bytes_to_send window player.old) }
    ensures { player.new ≡ record player.old { given = player.old.given + n } }
{
    let mut scratch = [0; PIECE];
    player.next_bytes(&mut scratch[..n]);
}

/// Writes a piece of what may be sent, over writes that take only some of it, and gives out what the writer took.
/// Answers whether all was written.
fn give_all<W: Sink>(writer: &mut Counted<W>, player: &mut Player, piece: &[u8]) -> bool
    requires unlost { writer.old.failures ≡ 0 }
    requires few { length piece.now ≤ piece_bytes }
    requires front { IsPrefix piece.now (stream.bytes_to_send window player.old) }
    ensures { GivesAll W.puts W.contents writer.old writer.new piece.now player.old player.new result }
{
    let mut rest = piece;
    while !rest.is_empty() {
        match writer.put(rest) {
            Ok(0) | Err(_) => return false,
            Ok(n) => {
                give_out_first(player, n);
                rest = &rest[n..];
            }
        }
    }
    true
}

/// Fills a buffer, over reads that give only some of it. Answers whether it is full.
fn hear_all<R: Source>(reader: &mut Counted<R>, buffer: &mut [u8]) -> bool
    requires { reader.old.failures ≡ 0 }
    ensures { HearsWhole R.hears R.remaining reader.old reader.new buffer.new result }
{
    let mut filled = 0;
    while filled < buffer.len() {
        match reader.hear(&mut buffer[filled..]) {
            Ok(0) | Err(_) => return false,
            Ok(n) => filled += n,
        }
    }
    true
}

/// Whether what a board answered to a turn fits the player: as many answers as are owed, and a `Q` exactly where the
/// player sent it.
fn fits(player: &Player, answers: usize, stop: Option<Served>) -> bool
    ensures { result ≡ fits_stream player.now answers stop }
{
    let stopped = match stop {
        None => player.ended().is_none(),
        Some(Served::Quit) => player.ended().is_some(),
        Some(_) => false,
    };
    answers == player.owed() && stopped
}

/// The board's part of a turn: reads a buffer full, lets the board take it, and writes the answers, if they fit the
/// player. Answers whether all was kept.
fn serve_turn<B: End>(
    end: &mut Counted<B>,
    board: &mut Board,
    player: &Player,
    bytes: &mut [u8],
    answers: &mut [u8],
) -> bool
    requires unlost { end.old.failures ≡ 0 }
    requires room { length bytes.old ≤ length answers.old }
    ensures { ServesTurn B.puts B.hears B.contents B.remaining end.old end.new board.old board.new player.now
        (length bytes.old) result }
{
    if !hear_all(end, bytes) {
        return false;
    }
    let taken = take_bytes(board, bytes, answers);
    if !fits(player, taken.answers, taken.stop) {
        return false;
    }
    if put_all(end, &answers[..taken.answers]).is_err() {
        return false;
    }
    true
}

/// The player's part of a turn: reads the answers that are owed, and lets the player take them. Answers whether all
/// came.
fn take_back<P: Source>(end: &mut Counted<P>, player: &mut Player, back: &mut [u8]) -> bool
    requires unlost { end.old.failures ≡ 0 }
    requires owed { length back.old ≡ stream.owed window player.old }
    ensures { TakesTurn P.hears P.remaining end.old end.new player.old player.new result }
{
    if !hear_all(end, back) {
        return false;
    }
    player.answers(back);
    true
}

/// The player's part of a turn, with room for all answers that may be owed.
fn take_turn<P: Source>(end: &mut Counted<P>, player: &mut Player) -> bool
    requires { end.old.failures ≡ 0 }
    ensures { TakesTurn P.hears P.remaining end.old end.new player.old player.new result }
{
    let mut back = [0; PIECE];
    let owed = player.owed().min(PIECE);
    take_back(end, player, &mut back[..owed])
}

/// The board's part of a turn, with room for all answers.
fn answer_turn<B: End>(
    end: &mut Counted<B>,
    board: &mut Board,
    player: &Player,
    bytes: &mut [u8],
) -> bool
    requires unlost { end.old.failures ≡ 0 }
    requires few { length bytes.old ≤ piece_bytes }
    ensures { ServesTurn B.puts B.hears B.contents B.remaining end.old end.new board.old board.new player.now
        (length bytes.old) result }
{
    let mut answers = [0; PIECE];
    serve_turn(end, board, player, bytes, &mut answers)
}

/// One turn. Answers whether it was kept.
fn turn<P: End, B: End>(
    player_end: &mut Counted<P>,
    board_end: &mut Counted<B>,
    player: &mut Player,
    board: &mut Board,
) -> bool
    requires player_end { player_end.old.failures ≡ 0 }
    requires board_end { board_end.old.failures ≡ 0 }
    requires going { stream.ending_of_stream window player.old ≡ None }
    requires unowed { stream.owed window player.old ≡ 0 }
    ensures { SomeTurn P.puts P.hears B.puts B.hears P.contents P.remaining B.contents B.remaining player_end.old
        player_end.new board_end.old board_end.new board.old board.new player.old player.new result }
{
    let mut bytes = [0; PIECE];
    let count = player.show_bytes(&mut bytes);
    if !give_all(player_end, player, &bytes[..count]) {
        return false;
    }
    if !answer_turn(board_end, board, player, &mut bytes[..count]) {
        return false;
    }
    if player.ended().is_some() {
        return true;
    }
    take_turn(player_end, player)
}

/// Turns until the play has ended or one was lost. Answers whether it has ended.
fn go_on<P: End, B: End>(
    player_end: &mut Counted<P>,
    board_end: &mut Counted<B>,
    player: &mut Player,
    board: &mut Board,
) -> bool
    requires player_end { player_end.old.failures ≡ 0 }
    requires board_end { board_end.old.failures ≡ 0 }
    requires fresh { player.old ≡ new_stream player.old.kind player.old.program }
    ensures { Loops P.puts P.hears B.puts B.hears P.contents P.remaining B.contents B.remaining player_end.old
        player_end.new board_end.old board_end.new player.old.kind player.old.program board.old board.new player.new
        (not result) }
{
    while player.ended().is_none() {
        if !turn(player_end, board_end, player, board) {
            return false;
        }
    }
    true
}

/// Plays a fresh player's program on a board over the two ends of one connection of which no call was lost, in turn and
/// in one thread, whether the player stops after a failing step or plays on. Answers how the play ended.
///
/// In a turn at most 1,024 bytes go out at the player's end, as many are read at the board's end and taken, and their
/// answers go back. The play is [`Ending::Lost`] at a call that fails, writes 0 bytes or meets the end of input, and
/// where what the board read does not fit what the player wrote: it refuses a byte, meets a `Q` too early or none, or
/// has fewer or more answers than the player is owed. The answers of that turn are not taken, and no call follows.
pub fn loop_over<P: End, B: End>(
    player_end: &mut Counted<P>,
    board_end: &mut Counted<B>,
    player: Player,
    board: &mut Board,
) -> Ending
    requires player_end { player_end.old.failures ≡ 0 }
    requires board_end { board_end.old.failures ≡ 0 }
    requires fresh { player ≡ new_stream player.kind player.program }
    ensures { LoopsOver P.puts P.hears B.puts B.hears P.contents P.remaining B.contents B.remaining player_end.old
        player_end.new board_end.old board_end.new player.kind player.program board.old board.new result }
{
    let (ending, _) = loop_over_all(player_end, board_end, player, board);
    ending
}

/// Plays as [`loop_over`] does. Answers how the play ended, and the wanted bits that did not come out: of a player that
/// plays on the first 256 of them and how many they are, of one that stops the first alone. Where the play was lost, or
/// ended by a byte that is no answer, they are those of the answers that the player took before.
pub fn loop_over_all<P: End, B: End>(
    player_end: &mut Counted<P>,
    board_end: &mut Counted<B>,
    player: Player,
    board: &mut Board,
) -> (Ending, Failures)
    requires player_end { player_end.old.failures ≡ 0 }
    requires board_end { board_end.old.failures ≡ 0 }
    requires fresh { player ≡ new_stream player.kind player.program }
    ensures { LoopsAllOver P.puts P.hears B.puts B.hears P.contents P.remaining B.contents B.remaining player_end.old
        player_end.new board_end.old board_end.new player.kind player.program board.old board.new result.0
        (found result.1) }
{
    let mut player = player;
    let ending = loop_over_lent(player_end, board_end, &mut player, board);
    (ending, player.into_failures())
}

/// Plays as [`loop_over_all`] does, by a player that is lent: it keeps its program, and the wanted bits that did not
/// come out.
pub fn loop_over_lent<P: End, B: End>(
    player_end: &mut Counted<P>,
    board_end: &mut Counted<B>,
    player: &mut Player,
    board: &mut Board,
) -> Ending
    requires player_end { player_end.old.failures ≡ 0 }
    requires board_end { board_end.old.failures ≡ 0 }
    requires fresh { player.old ≡ new_stream player.old.kind player.old.program }
    ensures played { LoopsAllOver P.puts P.hears B.puts B.hears P.contents P.remaining B.contents B.remaining
        player_end.old player_end.new board_end.old board_end.new player.old.kind player.old.program board.old
        board.new result player.new.found }
    ensures program { player.new.program ≡ player.old.program }
{
    if !go_on(player_end, board_end, player, board) {
        let command = player.working();
        return Ending::Lost { command };
    }
    match player.ended() {
        Some(ending) => ending,
        None => unreachable!(),
    }
}
