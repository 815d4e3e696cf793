//! The player's end of a connection.

ghost use Rattle.std.specs.Prelude.{◌≡◌, ◌<◌, ◌≤◌, ◌+◌, [], None, length, not};
ghost use Rattle.play_model.specs.Fronts.{IsPrefix};
ghost use Rattle.play_model.specs.Streams as stream;
ghost use Rattle.play_model.specs.Streams.{new_stream};
ghost use Rattle.play_links.specs.Calls.{Goes, IsCall, IsHeard, IsPut};
ghost use Rattle.scan_vectors.specs.Failures.{found};
ghost use Rattle.player.specs.Window.{window};
ghost use Rattle.play_links.specs.Links.{PlaysAllOver, PlaysOver};

use crate::serving::PIECE;
use byte_streams::{Counted, Sink, Source};
use play_model::Ending;
use player::Player;
use scan_vectors::Failures;

/// Hands a writer a piece of what may be sent, and gives out what it took. Answers whether the call was kept.
fn put<W: Sink>(writer: &mut Counted<W>, player: &mut Player, piece: &mut [u8]) -> bool
    requires unlost { writer.old.failures ≡ 0 }
    requires some { 0 < length piece.old }
    requires front { IsPrefix piece.old (stream.bytes_to_send window player.old) }
    ensures { IsPut W.puts W.contents writer.old writer.new piece.old player.old player.new result }
{
    match writer.put(piece) {
        Ok(0) | Err(_) => false,
        Ok(n) => {
            player.give_out(&mut piece[..n]);
            true
        }
    }
}

/// Reads some of the answers that are owed, as many as the buffer has room for, and lets the player take them. Answers
/// whether the call was kept.
fn hear<R: Source>(reader: &mut Counted<R>, player: &mut Player, buffer: &mut [u8]) -> bool
    requires unlost { reader.old.failures ≡ 0 }
    requires some { 0 < length buffer.old }
    requires most { length buffer.old ≤ stream.owed window player.old }
    ensures { IsHeard R.hears R.remaining reader.old reader.new player.old player.new result }
{
    match reader.hear(buffer) {
        Ok(0) | Err(_) => false,
        Ok(n) => {
            player.answers(&buffer[..n]);
            true
        }
    }
}

/// The next call of a play: a put where something may be sent, and else a read. Answers whether it was kept.
fn call<R: Source, W: Sink>(
    reader: &mut Counted<R>,
    writer: &mut Counted<W>,
    player: &mut Player,
) -> bool
    requires reader { reader.old.failures ≡ 0 }
    requires writer { writer.old.failures ≡ 0 }
    requires going { stream.ending_of_stream window player.old ≡ None }
    ensures { IsCall W.puts R.hears W.contents R.remaining writer.old writer.new reader.old reader.new player.old
        player.new result }
{
    let mut piece = [0; PIECE];
    let count = player.show_ahead(&mut piece);
    if count > 0 {
        return put(writer, player, &mut piece[..count]);
    }
    let owed = player.owed().min(PIECE);
    hear(reader, player, &mut piece[..owed])
}

/// Calls until the play has ended or one was lost. Answers whether it has ended.
fn go_on<R: Source, W: Sink>(
    reader: &mut Counted<R>,
    writer: &mut Counted<W>,
    player: &mut Player,
) -> bool
    requires reader { reader.old.failures ≡ 0 }
    requires writer { writer.old.failures ≡ 0 }
    requires fresh { player.old ≡ new_stream player.old.kind player.old.program }
    ensures { Goes W.puts R.hears W.contents R.remaining writer.old writer.new reader.old reader.new
        player.old.kind player.old.program player.new (not result) }
{
    while player.ended().is_none() {
        if !call(reader, writer, player) {
            return false;
        }
    }
    true
}

/// Plays a fresh player's program over a reader and a writer of which no call was lost, whether the player stops after
/// a failing step or plays on. Answers how the play ended.
///
/// What may be sent is written before anything is read, and no more answers are read than are owed. A call that fails,
/// writes 0 bytes or meets the end of input ends the play as [`Ending::Lost`], with the command in work, and no call
/// follows it: what went out is then a front part of the play's bytes.
pub fn play_over<R: Source, W: Sink>(
    reader: &mut Counted<R>,
    writer: &mut Counted<W>,
    player: Player,
) -> Ending
    requires reader { reader.old.failures ≡ 0 }
    requires writer { writer.old.failures ≡ 0 }
    requires fresh { player ≡ new_stream player.kind player.program }
    ensures { PlaysOver W.puts R.hears W.contents R.remaining writer.old writer.new reader.old reader.new
        player.kind player.program result }
{
    let (ending, _) = play_over_all(reader, writer, player);
    ending
}

/// Plays as [`play_over`] does. Answers how the play ended, and the wanted bits that did not come out: of a player that
/// plays on the first 256 of them and how many they are, of one that stops the first alone. Where the play was lost, or
/// ended by a byte that is no answer, they are those of the answers before.
pub fn play_over_all<R: Source, W: Sink>(
    reader: &mut Counted<R>,
    writer: &mut Counted<W>,
    player: Player,
) -> (Ending, Failures)
    requires reader { reader.old.failures ≡ 0 }
    requires writer { writer.old.failures ≡ 0 }
    requires fresh { player ≡ new_stream player.kind player.program }
    ensures { PlaysAllOver W.puts R.hears W.contents R.remaining writer.old writer.new reader.old reader.new
        player.kind player.program result.0 (found result.1) }
{
    let mut player = player;
    let ending = play_over_lent(reader, writer, &mut player);
    (ending, player.into_failures())
}

/// Plays as [`play_over_all`] does, by a player that is lent: it keeps its program, and the wanted bits that did not
/// come out.
pub fn play_over_lent<R: Source, W: Sink>(
    reader: &mut Counted<R>,
    writer: &mut Counted<W>,
    player: &mut Player,
) -> Ending
    requires reader { reader.old.failures ≡ 0 }
    requires writer { writer.old.failures ≡ 0 }
    requires fresh { player.old ≡ new_stream player.old.kind player.old.program }
    ensures played { PlaysAllOver W.puts R.hears W.contents R.remaining writer.old writer.new reader.old reader.new
        player.old.kind player.old.program result player.new.found }
    ensures program { player.new.program ≡ player.old.program }
{
    if !go_on(reader, writer, player) {
        let command = player.working();
        return Ending::Lost { command };
    }
    match player.ended() {
        Some(ending) => ending,
        None => unreachable!(),
    }
}
