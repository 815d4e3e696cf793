//! A reader, a writer or an end that notes its first loss, and writing all of a text through one.
ghost use Rattle.std.specs.Prelude.{◌≡◌, ◌≤◌, false, IsTrue, flat_map, is_ok, map};
ghost use Rattle.std.specs.Io.{ReadsAtMost, WritesAtMost};
ghost use Rattle.std.specs.Io.KnownBytes.{Keeps, ReadConsumes, WriteAppends};
ghost use Rattle.byte_streams.specs.Counts.{CountedView, lost_after, flushed_after, ended_after};
ghost use Rattle.byte_streams.specs.Writes.{PutsAll, PutsEach, WritesAll};

use crate::ends::{End, Sink, Source};
use std::io;
use std::io::{Read, Write};
use std::marker::Model;
use thiserror::Error;

/// The output was lost: a write failed or took no byte.
#[derive(Debug, Clone, Copy, PartialEq, Eq, Error)]
#[error("the output could not be written")]
pub struct Broken;

/// How a call lost the connection.
#[derive(Debug, Clone, Copy, PartialEq, Eq)]
enum Loss {
    /// It failed, or took none of the bytes handed to it.
    Failed,
    /// It met the end of input.
    AtEnd,
}

/// A reader, a writer or an end around another, which notes the first call that lost the connection.
///
/// Each call is handed on, and its answer given back unchanged. A call counts as lost where it fails, where a read
/// meets the end of input and where a write takes 0 bytes. A read or a write that asks for no byte counts as
/// nothing, whatever its answer.
///
/// A contract sees it as a `CountedView` (`specs/Counts.antt`): `inner`, `failures` and `at_end`. Use `hear`, `put`,
/// `put_through` and [`put_all`], or `read`, `write` and `flush`, whose contracts say what they count: the contracts of
/// `std`'s methods above those, such as `write_all`, don't.
#[derive(Debug, Drop)]
pub struct Counted<T> {
    inner: T,
    first_loss: Option<Loss>,
}

impl<T> Model for Counted<T> {
    ghost use Rattle.byte_streams.specs.Counts.{CountedView};
    ghost use Rattle.byte_streams.specs.Losses.{loss_count, is_at_end};

    ghost Value = { CountedView T };

    ghost view = { λ c. record {
      inner = c.inner;
      failures = loss_count c.first_loss;
      at_end = is_at_end c.first_loss;
    } };
}

impl<T> Counted<T> {
    /// Wraps a reader, a writer or an end of which no call has been lost.
    pub fn new(inner: T) -> Self
        ensures { result ≡ record { inner = inner; failures = 0; at_end = false } }
    {
        Counted {
            inner,
            first_loss: None,
        }
    }

    /// How many calls were lost: 0, or 1 from the first one on.
    pub fn failures(&self) -> u32
        ensures value { result ≡ self.now.failures }
        ensures once { self.now.failures ≤ 1 }
    {
        u32::from(self.first_loss.is_some())
    }

    /// Whether the first lost call was a read that met the end of input.
    pub fn at_end(&self) -> bool
        ensures value { result ≡ self.now.at_end }
        ensures lost { IsTrue result → self.now.failures ≡ 1 }
    {
        self.first_loss == Some(Loss::AtEnd)
    }

    /// Gives back what `new` was given, as its calls have left it.
    pub fn into_inner(self) -> T
        ensures { result ≡ self.inner }
    {
        let Counted {
            inner,
            first_loss: _,
        } = self;
        inner
    }
}

impl<T: Source> Read for Counted<T> {
    ghost remaining = { λ c. T.remaining c.inner };

    fn read(&mut self, buffer: &mut [u8]) -> io::Result<usize>
        ensures bound { ReadsAtMost result buffer.new }
        ensures bytes { ReadConsumes (T.remaining self.old.inner) (T.remaining self.new.inner) result buffer.new }
        ensures hears { T.hears self.old.inner buffer.new result self.new.inner }
        ensures failures { self.new.failures ≡ lost_after self.old.failures result buffer.new }
        ensures at_end { self.new.at_end ≡ ended_after self.old.at_end self.old.failures result buffer.new }
    {
        self.hear(buffer)
    }
}

impl<T: Source> Source for Counted<T> {
    ghost hears = { λ s buffer r t. T.hears s.inner buffer r t.inner
        × (t.failures ≡ lost_after s.failures r buffer)
        × (t.at_end ≡ ended_after s.at_end s.failures r buffer) };

    fn hear(&mut self, buffer: &mut [u8]) -> io::Result<usize> {
        let result = self.inner.hear(buffer);
        let loss = match &result {
            _ if buffer.is_empty() => None,
            Ok(0) => Some(Loss::AtEnd),
            Ok(_) => None,
            Err(_) => Some(Loss::Failed),
        };
        self.first_loss = self.first_loss.or(loss);
        result
    }
}

impl<T: Sink> Write for Counted<T> {
    ghost contents = { λ c. T.contents c.inner };

    fn write(&mut self, piece: &[u8]) -> io::Result<usize>
        ensures bound { WritesAtMost result piece.now }
        ensures bytes { WriteAppends (T.contents self.old.inner) (T.contents self.new.inner) result piece.now }
        ensures puts { T.puts self.old.inner piece.now result self.new.inner }
        ensures failures { self.new.failures ≡ lost_after self.old.failures result piece.now }
        ensures at_end { self.new.at_end ≡ self.old.at_end }
    {
        self.put(piece)
    }

    fn flush(&mut self) -> io::Result<()>
        ensures bytes { Keeps (T.contents self.old.inner) (T.contents self.new.inner) }
        ensures flushes { T.flushes self.old.inner result self.new.inner }
        ensures failures { self.new.failures ≡ flushed_after self.old.failures result }
        ensures at_end { self.new.at_end ≡ self.old.at_end }
    {
        self.put_through()
    }
}

impl<T: Sink> Sink for Counted<T> {
    ghost puts = { λ s piece r t. T.puts s.inner piece r t.inner
        × (t.failures ≡ lost_after s.failures r piece)
        × (t.at_end ≡ s.at_end) };

    ghost flushes = { λ s r t. T.flushes s.inner r t.inner
        × (t.failures ≡ flushed_after s.failures r)
        × (t.at_end ≡ s.at_end) };

    fn put(&mut self, piece: &[u8]) -> io::Result<usize> {
        let result = self.inner.put(piece);
        let loss = match &result {
            _ if piece.is_empty() => None,
            Ok(0) | Err(_) => Some(Loss::Failed),
            Ok(_) => None,
        };
        self.first_loss = self.first_loss.or(loss);
        result
    }

    fn put_through(&mut self) -> io::Result<()> {
        let result = self.inner.put_through();
        let loss = if result.is_err() {
            Some(Loss::Failed)
        } else {
            None
        };
        self.first_loss = self.first_loss.or(loss);
        result
    }
}

impl<T: End> End for Counted<T> {
    ghost hear_keeps = { λ s buffer r t h. T.hear_keeps s.inner buffer r t.inner h.0 };

    ghost put_keeps = { λ s piece r t h. T.put_keeps s.inner piece r t.inner h.0 };

    ghost flush_keeps = { λ s r t h. T.flush_keeps s.inner r t.inner h.0 };
}

/// Writes all of `bytes`, over writes that take only some of them.
///
/// It stops at the first lost call and answers [`Broken`]; a front part of `bytes` is then written.
pub fn put_all<W: Sink>(out: &mut Counted<W>, bytes: &[u8]) -> Result<(), Broken>
    requires { out.old.failures ≡ 0 }
    ensures writes { WritesAll W.contents out.old out.new bytes.now result }
    ensures at_end { out.new.at_end ≡ out.old.at_end }

    // What the writer was asked, call by call.
    ensures calls { PutsAll W.puts out.old.inner bytes.now (is_ok result) out.new.inner }
{
    let mut rest = bytes;
    while !rest.is_empty() {
        match out.put(rest) {
            Ok(0) | Err(_) => return Err(Broken),
            Ok(n) => rest = &rest[n..],
        }
    }
    Ok(())
}

/// Writes pieces one after another, as `put_all` writes each.
pub fn put_pieces<W: Sink>(out: &mut Counted<W>, pieces: &[&[u8]]) -> Result<(), Broken>
    requires { out.old.failures ≡ 0 }
    ensures writes { WritesAll W.contents out.old out.new (flat_map (λ piece. piece.now) pieces.now) result }
    ensures at_end { out.new.at_end ≡ out.old.at_end }

    // What the writer was asked, piece by piece.
    ensures calls { PutsEach W.puts out.old.inner (map (λ piece. piece.now) pieces.now) (is_ok result) out.new.inner }
{
    for piece in pieces {
        put_all(out, piece)?;
    }
    Ok(())
}
