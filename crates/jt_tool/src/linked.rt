//! Plays over connections: on a server, and of the program with itself.
ghost use Rattle.std.specs.Prelude.{◌≡◌};

use crate::statuses::or_lost;
use board_description::Untold;
use byte_streams::{Broken, Counted, End, Plain, Sink};
use command_line::{Link, Planned, Server, connect, pair};
use play_explained::plain::{
    Board, Ending, Kind, Program, run_loop, run_over, tell_unplayed, tell_verdict,
};
use play_explained::{run_loop_explained, run_over_explained};
use std::alloc::Global;
use std::io;

/// How a play ends whose server was not reached.
const UNREACHED: Ending = Ending::Lost { command: 0 };

/// Plays a text on a server. One that cannot be reached loses the play before its first command. Answers the exit
/// status.
pub(crate) fn play_on_server(
    rt: &HostRuntime,
    alloc: Global,
    kind: Kind,
    program: Program,
    text: &[u8],
    explain: bool,
    server: Server<'_>,
) -> u8 {
    let mut out = Counted::new(Plain(io::writer(rt)));
    let status = match connect(rt, server) {
        Ok(link) => play_over_link(alloc, kind, program, text, explain, link, &mut out),
        Err(_) => tell_verdict(UNREACHED, &mut out),
    };
    or_lost(status)
}

/// Plays a text over a link; where the play is explained, by what the program wants.
fn play_over_link<O: Sink>(
    alloc: Global,
    kind: Kind,
    program: Program,
    text: &[u8],
    explain: bool,
    link: Link,
    out: &mut Counted<O>,
) -> Result<u8, Broken>
    requires { out.old.failures ≡ 0 }
{
    let mut reader = Counted::new(link.reader);
    let mut writer = Counted::new(link.writer);
    if explain {
        run_over_explained(alloc, kind, program, &mut reader, &mut writer, text, out)
    } else {
        run_over(alloc, kind, program, &mut reader, &mut writer, out)
    }
}

/// Plays a text on a board over a connection of the program with itself; where a plan is given, it is told of each bit
/// that fails why, as it is found on the board of that plan. Answers the exit status.
pub(crate) fn loop_over_socket(
    rt: &HostRuntime,
    alloc: Global,
    kind: Kind,
    program: Program,
    text: &[u8],
    board: &mut Board,
    planned: Option<&Planned>,
) -> Result<u8, Untold> {
    let mut out = Counted::new(Plain(io::writer(rt)));
    match pair(rt) {
        Ok((player, server)) => loop_over_ends(
            alloc,
            kind,
            program,
            &mut Counted::new(player),
            &mut Counted::new(server),
            board,
            text,
            planned,
            &mut out,
        ),
        Err(_) => Ok(tell_unplayed(UNREACHED, board, &mut out)?),
    }
}

/// Plays a text on a board over the two ends of a connection; where a plan is given, it is told of each bit that fails
/// why.
fn loop_over_ends<P: End, B: End, O: Sink>(
    alloc: Global,
    kind: Kind,
    program: Program,
    player_end: &mut Counted<P>,
    board_end: &mut Counted<B>,
    board: &mut Board,
    text: &[u8],
    planned: Option<&Planned>,
    out: &mut Counted<O>,
) -> Result<u8, Untold>
    requires player_end { player_end.old.failures ≡ 0 }
    requires board_end { board_end.old.failures ≡ 0 }
    requires out { out.old.failures ≡ 0 }
{
    match planned {
        Some(planned) => run_loop_explained(
            alloc,
            kind,
            program,
            player_end,
            board_end,
            board,
            text,
            planned.plan(),
            out,
        ),
        None => Ok(run_loop(alloc, kind, program, player_end, board_end, board, out)?),
    }
}
