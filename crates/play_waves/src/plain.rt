//! Waves for readers that know no strings.

ghost use Rattle.std.specs.Prelude.{◌≡◌};
ghost use Rattle.play_waves.specs.Plain as spec;
ghost use Rattle.play_waves.specs.Plain.{PiecesAreOne};

use std::alloc::Global;
use std::io;
use std::io::{ErrorKind, Write};
use std::marker::Model;

/// A writer that hands a wave file on without its strings, line by line.
#[derive(Drop)]
pub struct WithoutStrings<W> {
    line: Vec<u8>,
    inner: W,
}

impl<W> Model for WithoutStrings<W> {
    ghost use Rattle.play_waves.specs.Plain.{PlainView};

    ghost Value = { PlainView W };

    ghost view = { λ p. record { line = p.line.items; inner = p.inner } };
}

impl<W: Write> WithoutStrings<W> {
    ghost use Rattle.std.specs.Prelude.{◌≡◌, [], OnOk};
    ghost use Rattle.std.specs.Io.KnownBytes.{Appends};
    ghost use Rattle.play_waves.specs.Plain.{held, kept_line, passed, taken_line, taken_text};

    /// A writer in front of another one.
    pub fn new(alloc: Global, inner: W) -> WithoutStrings<W>
        ensures line { result.line ≡ [] }
        ensures inner { result.inner ≡ inner }
    {
        WithoutStrings {
            line: Vec::new(alloc),
            inner,
        }
    }

    /// Takes a piece of a wave file: each line that it ends is handed on, unless it tells a string.
    pub fn pass(&mut self, piece: &[u8]) -> io::Result<()>
        ensures handed { OnOk result
            (Appends (W.contents self.old.inner) (W.contents self.new.inner) (passed self.old.line piece.now)) }
        ensures line { OnOk result (self.new.line ≡ held self.old.line piece.now) }
    {
        for byte in piece {
            self.take(*byte)?;
        }
        Ok(())
    }

    /// Takes a byte.
    fn take(&mut self, byte: u8) -> io::Result<()>
        ensures handed { OnOk result
            (Appends (W.contents self.old.inner) (W.contents self.new.inner) (taken_text self.old.line byte)) }
        ensures line { OnOk result (self.new.line ≡ taken_line self.old.line byte) }
    {
        if self.line.push(byte).is_err() {
            return Err(ErrorKind::OutOfMemory.into());
        }
        if byte == b'\n' {
            return self.end_line();
        }
        Ok(())
    }

    /// Hands the line on, unless it tells a string.
    fn end_line(&mut self) -> io::Result<()>
        ensures handed { OnOk result
            (Appends (W.contents self.old.inner) (W.contents self.new.inner) (kept_line self.old.line)) }
        ensures line { OnOk result (self.new.line ≡ []) }
    {
        if !tells_string(&self.line) {
            self.inner.write_all(&self.line)?;
        }
        self.line.clear();
        Ok(())
    }
}

impl<W: Write> Write for WithoutStrings<W> {
    ghost use Rattle.std.specs.Prelude.{None};

    ghost contents = { λ _. None };

    fn write(&mut self, buf: &[u8]) -> io::Result<usize> {
        match self.pass(buf) {
            Ok(()) => Ok(buf.len()),
            Err(fault) => Err(fault),
        }
    }

    fn flush(&mut self) -> io::Result<()> {
        self.inner.flush()
    }
}

/// Whether a line names a string variable, or tells the value of one.
fn tells_string(line: &[u8]) -> bool
    ensures { result ≡ spec.tells_string line.now }
{
    line.starts_with(b"s") || line.starts_with(b"$var string ")
}

/// Pieces of a wave file may be cut anywhere.
pub fn pieces_are_one()
    ensures { PiecesAreOne }
{}
