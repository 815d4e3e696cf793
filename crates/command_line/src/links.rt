//! The connections of the program: as a client, as a server, and with itself.

use crate::request::Server;
use std::io;
use std::io::ErrorKind;
use std::net::{Ipv4Addr, TcpListener, TcpStream, ToSocketAddrs};
use std::time::Duration;

/// The system chooses a port that is free.
const ANY_PORT: u16 = 0;

/// A connection, read and written by a handle each.
#[derive(Drop)]
pub struct Link {
    /// What is read from.
    pub reader: TcpStream,
    /// What is written to.
    pub writer: TcpStream,
}

impl Link {
    /// A connection of which no call waits for the peer longer than so many seconds.
    fn new(stream: TcpStream, timeout: Option<u32>) -> io::Result<Link> {
        let timeout = timeout.map(duration);
        stream.set_nodelay(true)?;
        stream.set_read_timeout(timeout)?;
        stream.set_write_timeout(timeout)?;
        Ok(Link {
            reader: stream.try_clone()?,
            writer: stream,
        })
    }
}

/// Connects to a server, whose addresses are tried in turn.
pub fn connect(rt: &HostRuntime, server: Server<'_>) -> io::Result<Link> {
    Link::new(open(rt, server)?, server.timeout)
}

fn open(rt: &HostRuntime, server: Server<'_>) -> io::Result<TcpStream> {
    let place = (server.host, server.port);
    let Some(seconds) = server.timeout else {
        return TcpStream::connect(rt, place);
    };
    let mut last = io::Error::from(ErrorKind::AddrNotAvailable);
    for address in place.to_socket_addrs(rt)? {
        match TcpStream::connect_timeout(rt, &address, duration(seconds)) {
            Ok(stream) => return Ok(stream),
            Err(fault) => last = fault,
        }
    }
    Err(last)
}

/// Listens on a port of this machine alone.
pub fn listen(rt: &HostRuntime, port: u16) -> io::Result<TcpListener> {
    TcpListener::bind(rt, (Ipv4Addr::LOCALHOST, port))
}

/// Waits for the next client.
pub fn next_client(listener: &TcpListener, timeout: Option<u32>) -> io::Result<Link> {
    let (stream, _) = listener.accept()?;
    Link::new(stream, timeout)
}

/// Both ends of one connection of the program with itself: the player's, and the board's.
pub fn pair(rt: &HostRuntime) -> io::Result<(TcpStream, TcpStream)> {
    let listener = listen(rt, ANY_PORT)?;
    let player_end = TcpStream::connect(rt, listener.local_addr()?)?;
    let (board_end, _) = listener.accept()?;
    player_end.set_nodelay(true)?;
    board_end.set_nodelay(true)?;
    Ok((player_end, board_end))
}

fn duration(seconds: u32) -> Duration {
    Duration::from_secs(u64::from(seconds))
}
