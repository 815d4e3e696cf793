//! Readers and writers of `std` as a source and a sink, and a source and a sink as one end.
ghost use Rattle.std.specs.Prelude.{◌≡◌, ⊤};
ghost use Rattle.std.specs.Io.{ReadsAtMost, WritesAtMost};
ghost use Rattle.std.specs.Io.KnownBytes.{Keeps, ReadConsumes, WriteAppends};
ghost use Rattle.byte_streams.specs.Frames.{kept_where_same};

use crate::ends::{End, Sink, Source};
use std::io;
use std::io::{Read, Write};

/// Any reader or writer of `std`, such as the one that `io::writer(rt)` makes, with what `std` says of it and
/// nothing more.
#[derive(Debug, Drop)]
pub struct Plain<T>(pub T);

impl<R: Read> Read for Plain<R> {
    ghost remaining = { λ p. R.remaining p.0 };

    fn read(&mut self, buffer: &mut [u8]) -> io::Result<usize> {
        self.0.read(buffer)
    }
}

impl<R: Read> Source for Plain<R> {
    ghost hears = { λ _ _ _ _. ⊤ };

    fn hear(&mut self, buffer: &mut [u8]) -> io::Result<usize> {
        self.read(buffer)
    }
}

impl<W: Write> Write for Plain<W> {
    ghost contents = { λ p. W.contents p.0 };

    fn write(&mut self, piece: &[u8]) -> io::Result<usize> {
        self.0.write(piece)
    }

    fn flush(&mut self) -> io::Result<()> {
        self.0.flush()
    }
}

impl<W: Write> Sink for Plain<W> {
    ghost puts = { λ _ _ _ _. ⊤ };

    ghost flushes = { λ _ _ _. ⊤ };

    fn put(&mut self, piece: &[u8]) -> io::Result<usize> {
        self.write(piece)
    }

    fn put_through(&mut self) -> io::Result<()> {
        self.flush()
    }
}

/// One end made of a reader and a writer that are apart, such as standard input and standard output.
#[derive(Debug, Drop)]
pub struct Both<R, W> {
    /// The reader.
    pub reader: R,
    /// The writer.
    pub writer: W,
}

impl<R: Source, W> Read for Both<R, W> {
    ghost remaining = { λ b. R.remaining b.reader };

    fn read(&mut self, buffer: &mut [u8]) -> io::Result<usize>
        ensures bound { ReadsAtMost result buffer.new }
        ensures bytes { ReadConsumes (R.remaining self.old.reader) (R.remaining self.new.reader) result buffer.new }
        ensures hears { R.hears self.old.reader buffer.new result self.new.reader }
        ensures writer { self.new.writer ≡ self.old.writer }
    {
        self.hear(buffer)
    }
}

impl<R: Source, W> Source for Both<R, W> {
    ghost hears = { λ s buffer r t. R.hears s.reader buffer r t.reader × (t.writer ≡ s.writer) };

    fn hear(&mut self, buffer: &mut [u8]) -> io::Result<usize> {
        self.reader.hear(buffer)
    }
}

impl<R, W: Sink> Write for Both<R, W> {
    ghost contents = { λ b. W.contents b.writer };

    fn write(&mut self, piece: &[u8]) -> io::Result<usize>
        ensures bound { WritesAtMost result piece.now }
        ensures bytes { WriteAppends (W.contents self.old.writer) (W.contents self.new.writer) result piece.now }
        ensures puts { W.puts self.old.writer piece.now result self.new.writer }
        ensures reader { self.new.reader ≡ self.old.reader }
    {
        self.put(piece)
    }

    fn flush(&mut self) -> io::Result<()>
        ensures bytes { Keeps (W.contents self.old.writer) (W.contents self.new.writer) }
        ensures flushes { W.flushes self.old.writer result self.new.writer }
        ensures reader { self.new.reader ≡ self.old.reader }
    {
        self.put_through()
    }
}

impl<R, W: Sink> Sink for Both<R, W> {
    ghost puts = { λ s piece r t. W.puts s.writer piece r t.writer × (t.reader ≡ s.reader) };

    ghost flushes = { λ s r t. W.flushes s.writer r t.writer × (t.reader ≡ s.reader) };

    fn put(&mut self, piece: &[u8]) -> io::Result<usize> {
        self.writer.put(piece)
    }

    fn put_through(&mut self) -> io::Result<()> {
        self.writer.put_through()
    }
}

impl<R: Source, W: Sink> End for Both<R, W> {
    ghost hear_keeps = { λ s buffer r t h. kept_where_same W.contents s.writer t.writer h.1 };

    ghost put_keeps = { λ s piece r t h. kept_where_same R.remaining s.reader t.reader h.1 };

    ghost flush_keeps = { λ s r t h. kept_where_same R.remaining s.reader t.reader h.1 };
}
