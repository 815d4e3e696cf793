//! An end that fails from some byte on.

ghost use Rattle.std.specs.Prelude.{◌≡◌, ◌≤◌, ⊤};
ghost use Rattle.jt_player.specs.Stopping.{StopCalls};

use byte_streams::{Sink, Source};
use std::io;
use std::io::{Error, ErrorKind, Read, Write};

/// A reader or a writer around another that moves so many bytes, a few a call, and fails from then on: for tests of
/// what a loss at each byte does.
#[derive(Debug, Drop)]
pub struct Stop<T> {
    /// What the bytes are read from or written to.
    pub inner: T,
    /// The bytes that may still be moved; where none may, each call fails and changes nothing.
    pub left: usize,
    /// The most bytes of a call.
    pub piece: usize,
}

impl<T> Stop<T> {
    /// Moves `k` bytes, at most `piece` a call.
    pub fn new(inner: T, k: usize, piece: usize) -> Self
        requires { 1 ≤ piece }
        ensures { result ≡ record { inner = inner; left = k; piece = piece } }
    {
        Stop {
            inner,
            left: k,
            piece,
        }
    }
}

impl<R: Source> Read for Stop<R> {
    fn read(&mut self, buffer: &mut [u8]) -> io::Result<usize> {
        self.hear(buffer)
    }
}

impl<R: Source> Source for Stop<R> {
    ghost hears = { λ s buffer r t. StopCalls R.hears s buffer r t };

    fn hear(&mut self, buffer: &mut [u8]) -> io::Result<usize> {
        if self.left == 0 {
            return Err(Error::from(ErrorKind::ConnectionReset));
        }
        let most = buffer.len().min(self.left.min(self.piece));
        let count = self.inner.hear(&mut buffer[..most])?;
        self.left -= count;
        Ok(count)
    }
}

impl<W: Sink> Write for Stop<W> {
    fn write(&mut self, piece: &[u8]) -> io::Result<usize> {
        self.put(piece)
    }

    fn flush(&mut self) -> io::Result<()> {
        self.put_through()
    }
}

impl<W: Sink> Sink for Stop<W> {
    ghost puts = { λ s piece r t. StopCalls W.puts s piece r t };

    ghost flushes = { λ s r t. W.flushes s.inner r t.inner × (t.piece ≡ s.piece) × (t.left ≡ s.left) };

    fn put(&mut self, piece: &[u8]) -> io::Result<usize> {
        if self.left == 0 {
            return Err(Error::from(ErrorKind::BrokenPipe));
        }
        let most = piece.len().min(self.left.min(self.piece));
        let count = self.inner.put(&piece[..most])?;
        self.left -= count;
        Ok(count)
    }

    fn put_through(&mut self) -> io::Result<()> {
        self.inner.put_through()
    }
}
