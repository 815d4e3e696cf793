//! Whole plays over pipes: the bytes of a player, and the edges of a board of a bare device.
ghost use Rattle.std.specs.Prelude.{◌<◌};

use crate::rows::{Row, Unit, digest, print_row};
use jt_board::Board;
use play_direct::accept;
use play_model::Ending;
use play_pipes::Joined;
use player::Player;
use std::alloc::{AllocError, Global};
use std::io;

/// A scan of 65,536 bits, each of which is wanted, and the bytes of its play: the opening, the way to the scan, three a
/// bit, the way back, and `Q`.
const WANTED: &[u8] = b"SDR 65536 TDI (0) TDO (0);";

const WANTED_BYTES: usize = 12 + 8 + 3 * 65536 + 5 + 1;

/// The same scan, of which no bit is wanted, and the bytes of its play.
const UNWANTED: &[u8] = b"SDR 65536 TDI (0);";

const UNWANTED_BYTES: usize = 12 + 8 + 2 * 65536 + 5 + 1;

pub fn rows(rt: &HostRuntime) -> io::Result<()> {
    let alloc = rt.alloc();
    let mut buffer = Vec::from_elem(alloc, 0, UNWANTED_BYTES)?;
    print_row(
        rt,
        "next_bytes",
        Unit::Byte,
        || Ok(next_bytes(alloc, &mut buffer)),
    )?;
    print_row(rt, "finish_1", Unit::Byte, || Ok(finished(alloc, 1)))?;
    print_row(rt, "finish_64", Unit::Byte, || Ok(finished(alloc, 64)))?;
    print_row(
        rt,
        "finish_65536",
        Unit::Byte,
        || Ok(finished(alloc, 65536)),
    )
}

/// A fresh player of a text.
fn player_of(alloc: Global, text: &[u8]) -> Option<Player> {
    Player::new(alloc, accept(alloc, text).ok()?).ok()
}

/// All bytes of a play that waits for no answer.
fn next_bytes(alloc: Global, buffer: &mut [u8]) -> Row {
    let count = match player_of(alloc, UNWANTED) {
        Some(mut player) => player.next_bytes(buffer),
        None => 0,
    };
    Row {
        count,
        check: digest(buffer),
    }
}

/// A play over two pipes of this room, on one device.
fn finished(alloc: Global, room: usize) -> Row {
    let mut check = 0;
    if let Some(player) = player_of(alloc, WANTED) {
        check = u64::from(joined_ending(alloc, player, room) == Some(Ending::Pass));
    }
    Row {
        count: WANTED_BYTES,
        check,
    }
}

/// How a play ends over two pipes, if there is memory for it.
fn joined_ending(alloc: Global, player: Player, room: usize) -> Option<Ending> {
    if room == 0 || !player.is_fresh() {
        return None;
    }
    let board = Board::bare(alloc, 1).ok()?;
    let mut joined = Joined::new(alloc, player, board, room, room).ok()?;
    Some(joined.finish())
}
