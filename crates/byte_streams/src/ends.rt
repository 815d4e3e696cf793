//! The readers and writers that a proof can follow from call to call.
ghost use Rattle.std.specs.Prelude.{ℕ, List, Result};
ghost use Rattle.std.specs.Io.{ReadsAtMost, WritesAtMost};
ghost use Rattle.std.specs.Io.KnownBytes.{Keeps, ReadConsumes, WriteAppends};
ghost use Rattle.std.specs.declared.io.Error.{Error};

use std::io;
use std::io::{Read, Write};

/// A reader whose calls a contract can name.
///
/// `Read::read` promises only what a call does to bytes that are known beforehand. At a socket nothing is known,
/// so the promise is empty, and a wrapper that never asked the reader inside it would keep it. `hear` is the same
/// call with one promise more: its answer stands in the relation `hears`, which each implementation defines, and
/// a wrapper states its own relation by that of the reader inside it.
pub trait Source: Read {
    // The reader before a call, the buffer after it, the answer, and the reader after it.
    ghost hears: { Self → List ℕ → Result ℕ Error → Self → Type 0 };

    /// Reads some bytes into `buffer` and answers how many, as `Read::read` does; 0 is the end of input, where
    /// `buffer` isn't empty. An error has read nothing.
    fn hear(&mut self, buffer: &mut [u8]) -> io::Result<usize>
        ensures bound { ReadsAtMost result buffer.new }
        ensures bytes { ReadConsumes (Self.remaining self.old) (Self.remaining self.new) result buffer.new }
        ensures hears { hears self.old buffer.new result self.new };
}

/// A writer whose calls a contract can name, as [`Source`] is for readers.
///
/// It has a relation for each of the two calls of `Write`: `puts` of a write and `flushes` of a flush.
pub trait Sink: Write {
    // The writer before a call, the piece, the answer, and the writer after it.
    ghost puts: { Self → List ℕ → Result ℕ Error → Self → Type 0 };

    // The writer before a flush, the answer, and the writer after it.
    ghost flushes: { Self → Result Unit Error → Self → Type 0 };

    /// Writes some bytes from the front of `piece` and answers how many, as `Write::write` does. An error has
    /// written nothing.
    fn put(&mut self, piece: &[u8]) -> io::Result<usize>
        ensures bound { WritesAtMost result piece.now }
        ensures bytes { WriteAppends (Self.contents self.old) (Self.contents self.new) result piece.now }
        ensures puts { puts self.old piece.now result self.new };

    /// Passes on what is held back, as `Write::flush` does.
    fn put_through(&mut self) -> io::Result<()>
        ensures bytes { Keeps (Self.contents self.old) (Self.contents self.new) }
        ensures flushes { flushes self.old result self.new };
}

/// Both directions of one connection, which are apart: hearing keeps what was written, and writing keeps what is
/// left to hear.
pub trait End: Source + Sink {
    ghost hear_keeps: { (s : Self) (buffer : List ℕ) (r : Result ℕ Error) (t : Self)
        → Self.hears s buffer r t → Keeps (Self.contents s) (Self.contents t) };

    ghost put_keeps: { (s : Self) (piece : List ℕ) (r : Result ℕ Error) (t : Self)
        → Self.puts s piece r t → Keeps (Self.remaining s) (Self.remaining t) };

    ghost flush_keeps: { (s : Self) (r : Result Unit Error) (t : Self)
        → Self.flushes s r t → Keeps (Self.remaining s) (Self.remaining t) };
}
