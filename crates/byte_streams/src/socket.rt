//! A socket as an end.
ghost use Rattle.std.specs.Prelude.{⊤};

use crate::ends::{End, Sink, Source};
use std::io;
use std::io::{Read, Write};
use std::net::TcpStream;

/// A socket. No clause knows which bytes reach or leave it.
impl Source for TcpStream {
    ghost hears = { λ _ _ _ _. ⊤ };

    fn hear(&mut self, buffer: &mut [u8]) -> io::Result<usize> {
        self.read(buffer)
    }
}

impl Sink for TcpStream {
    ghost puts = { λ _ _ _ _. ⊤ };

    ghost flushes = { λ _ _ _. ⊤ };

    fn put(&mut self, piece: &[u8]) -> io::Result<usize> {
        self.write(piece)
    }

    fn put_through(&mut self) -> io::Result<()> {
        self.flush()
    }
}

impl End for TcpStream {
    ghost hear_keeps = { λ s buffer r t h. tt };

    ghost put_keeps = { λ s piece r t h. tt };

    ghost flush_keeps = { λ s r t h. tt };
}
