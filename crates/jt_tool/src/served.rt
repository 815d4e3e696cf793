//! A board that is served to clients.
ghost use Rattle.std.specs.Prelude.{◌≡◌};

use byte_streams::{Broken, Counted, Plain, Sink};
use command_line::{Link, Serving, listen, next_client};
use output_words::Status;
use play_explained::plain::{Board, Served, run_serve, tell_listening, tell_served, write_report};
use std::io;
use std::net::TcpListener;

/// Serves a board to clients, one after another, and tells how each ended and how the board then stands. Answers the
/// exit status: the greatest that one of them ended with.
pub(crate) fn serve(rt: &HostRuntime, board: &mut Board, serving: Serving) -> Result<u8, Broken> {
    let status = match listen(rt, serving.port) {
        Ok(listener) => {
            tell_listening(serving.port, &mut Counted::new(Plain(rt.stderr())))?;
            serve_clients(rt, &listener, board, serving)?
        }
        Err(_) => tell_served(Served::Broken, &mut Counted::new(Plain(io::writer(rt))))?,
    };
    write_report(board, &mut Counted::new(Plain(io::writer(rt))))?;
    Ok(status)
}

/// Serves as many clients as are wanted. Answers the greatest exit status that one of them ended with.
fn serve_clients(
    rt: &HostRuntime,
    listener: &TcpListener,
    board: &mut Board,
    serving: Serving,
) -> Result<u8, Broken> {
    let mut worst = Status::Pass.number();
    for _ in 0..serving.connections {
        let status = serve_client(rt, listener, board, serving)?;
        worst = worst.max(status);
    }
    Ok(worst)
}

/// Waits for a client and serves it. Answers the exit status.
fn serve_client(
    rt: &HostRuntime,
    listener: &TcpListener,
    board: &mut Board,
    serving: Serving,
) -> Result<u8, Broken> {
    let mut out = Counted::new(Plain(io::writer(rt)));
    match next_client(listener, serving.timeout) {
        Ok(link) => serve_link(board, link, serving.at_most, &mut out),
        Err(_) => tell_served(Served::Broken, &mut out),
    }
}

/// Serves the client at the other end of a link.
fn serve_link<O: Sink>(
    board: &mut Board,
    link: Link,
    at_most: u64,
    out: &mut Counted<O>,
) -> Result<u8, Broken>
    requires { out.old.failures ≡ 0 }
{
    let mut reader = Counted::new(link.reader);
    let mut writer = Counted::new(link.writer);
    run_serve(board, &mut reader, &mut writer, at_most, out)
}
