//! A source and a sink over memory.
ghost use Rattle.std.specs.Prelude.{◌≡◌, ◌++◌, min, length, take, drop, ⊤, Ok, MatchResult};
ghost use Rattle.std.specs.IoError.{error_kind};
ghost use Rattle.std.specs.declared.io.ErrorKind.TheVariants.{OutOfMemory};

use crate::ends::{Sink, Source};
use std::alloc::Allocator;
use std::io;
use std::io::{Read, Write};

/// Bytes in memory, which are heard from the front: as many as are left and as the buffer holds.
impl Source for &[u8] {
    ghost hears = { λ s buffer r t. (r ≡ Ok (min (length s.now) (length buffer)))
        × MatchResult r (λ n. (take n buffer ≡ take n s.now) × (t.now ≡ drop n s.now)) (λ _. ⊤) };

    fn hear(&mut self, buffer: &mut [u8]) -> io::Result<usize> {
        self.read(buffer)
    }
}

/// A vector takes a whole piece at its end, or nothing where memory is refused.
impl<A: Allocator> Sink for Vec<u8, A> {
    ghost puts = { λ s piece r t. MatchResult r
        (λ n. (n ≡ length piece) × (t.items ≡ s.items ++ piece))
        (λ e. (error_kind e ≡ OutOfMemory) × (t.items ≡ s.items)) };

    ghost flushes = { λ s r t. (r ≡ Ok tt) × (t ≡ s) };

    fn put(&mut self, piece: &[u8]) -> io::Result<usize> {
        self.write(piece)
    }

    fn put_through(&mut self) -> io::Result<()> {
        self.flush()
    }
}
