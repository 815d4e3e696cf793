//! Names as they are told.

ghost use Rattle.std.specs.Prelude.{◌≡◌, ◌<◌, ◌++◌, [], OnOk, IfSome, IsNone, length};
ghost use Rattle.byte_streams.specs.Writes.{WritesAll};
ghost use Rattle.output_words.specs.Names as spec;
ghost use Rattle.output_words.specs.Names.{shown};
ghost use Rattle.output_words.specs.Told.{told};

use crate::digits::hex_byte;
use crate::texts::put;
use byte_streams::{Broken, Counted, Sink, put_all, put_pieces};
use std::alloc::AllocError;

/// The byte DEL of ASCII, a control byte as those below the blank are.
const DELETE: u8 = 127;

/// The first byte, in UTF-8, of the characters from 128 to 191, of which those up to 159 are control characters.
const HIGH_CONTROL_LEAD: u8 = 0xC2;

/// What is told as one in a name.
#[derive(Debug, Clone, Copy, PartialEq, Eq)]
enum Told {
    /// A byte as it is.
    Plain(u8),
    /// A byte by its digits.
    Escaped(u8),
    /// Both bytes of a control character by their digits.
    EscapedPair(u8, u8),
}

/// Writes a name, its backslashes and the bytes of its control characters as `\x` and two digits.
///
/// `Broken` comes exactly where the writer's first failure came in this call.
pub fn write_shown<W: Sink>(name: &str, out: &mut Counted<W>) -> Result<(), Broken>
    requires { out.old.failures ≡ 0 }
    ensures { WritesAll W.contents out.old out.new (shown name.now) result }
{
    let mut rest = name.as_bytes();
    while let Some((first, behind)) = first_told(rest) {
        write_told(first, out)?;
        rest = behind;
    }
    Ok(())
}

/// Writes what is told as one.
fn write_told<W: Sink>(piece: Told, out: &mut Counted<W>) -> Result<(), Broken>
    requires { out.old.failures ≡ 0 }
    ensures { WritesAll W.contents out.old out.new (told piece) result }
{
    match piece {
        Told::Plain(byte) => put_all(out, &[byte]),
        Told::Escaped(byte) => put_pieces(out, &[b"\\x", &hex_byte(byte)]),
        Told::EscapedPair(first, second) => put_pieces(
            out,
            &[b"\\x", &hex_byte(first), b"\\x", &hex_byte(second)],
        ),
    }
}

/// Puts a name behind a text, its backslashes and the bytes of its control characters as `\x` and two digits. Refuses
/// for want of memory alone.
pub fn put_shown(text: &mut Vec<u8>, name: &str) -> Result<(), AllocError>
    ensures { OnOk result (text.new.items ≡ text.old.items ++ shown name.now) }
{
    let mut rest = name.as_bytes();
    while let Some((first, behind)) = first_told(rest) {
        put_told(text, first)?;
        rest = behind;
    }
    Ok(())
}

/// Puts what is told as one behind a text.
fn put_told(text: &mut Vec<u8>, piece: Told) -> Result<(), AllocError>
    ensures { OnOk result (text.new.items ≡ text.old.items ++ told piece) }
{
    match piece {
        Told::Plain(byte) => put(text, &[&[byte]]),
        Told::Escaped(byte) => put(text, &[b"\\x", &hex_byte(byte)]),
        Told::EscapedPair(first, second) => put(
            text,
            &[b"\\x", &hex_byte(first), b"\\x", &hex_byte(second)],
        ),
    }
}

/// What is told as one at the front of a name, and what stands behind it. None at its end.
fn first_told(name: &[u8]) -> Option<(Told, &[u8])>
    ensures none { IsNone result → name.now ≡ [] }
    ensures told { IfSome result (λ p. shown name.now ≡ told p.0 ++ shown p.1.now) }
    ensures fewer { IfSome result (λ p. length p.1.now < length name.now) }
{
    match name {
        [] => None,
        [first, second, behind @ ..] if is_high_control(*first, *second) => {
            Some((Told::EscapedPair(*first, *second), behind))
        }
        [first, behind @ ..] if is_escaped(*first) => Some((Told::Escaped(*first), behind)),
        [first, behind @ ..] => Some((Told::Plain(*first), behind)),
    }
}

/// Whether a byte of a name is told by its digits.
fn is_escaped(byte: u8) -> bool
    ensures { result ≡ spec.is_escaped byte }
{
    byte < b' ' || byte == DELETE || byte == b'\\'
}

/// Whether two bytes are a control character above ASCII, from 128 to 159.
fn is_high_control(lead: u8, byte: u8) -> bool
    ensures { result ≡ spec.is_high_control lead byte }
{
    lead == HIGH_CONTROL_LEAD && (128..=159).contains(&byte)
}
