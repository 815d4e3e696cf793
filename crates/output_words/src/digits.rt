//! Bits and bytes as digits.

ghost use Rattle.std.specs.Prelude.{◌≡◌, ◌++◌, OnOk};
ghost use Rattle.byte_streams.specs.Writes.{WritesAll};
ghost use Rattle.output_words.specs.Digits as spec;
ghost use Rattle.output_words.specs.Digits.{digit, digits, hexadecimal};

use byte_streams::{Broken, Counted, Sink, put_all};
use jt_bits::Bits;
use std::alloc::AllocError;

/// The digit of a bit.
pub fn digit_of(bit: bool) -> u8
    ensures { result ≡ digit bit }
{
    if bit { b'1' } else { b'0' }
}

/// Writes bits as digits, the highest first.
///
/// `Broken` comes exactly where the writer's first failure came in this call.
pub fn write_bits<W: Sink>(bits: &Bits, out: &mut Counted<W>) -> Result<(), Broken>
    requires { out.old.failures ≡ 0 }
    ensures { WritesAll W.contents out.old out.new (digits bits.now) result }
{
    let mut i = bits.len();
    while i > 0 {
        i -= 1;
        put_all(out, &[digit_of(bits.get(i))])?;
    }
    Ok(())
}

/// Puts bits as digits behind a text, the highest first. Refuses for want of memory alone.
pub fn put_bits(text: &mut Vec<u8>, bits: &Bits) -> Result<(), AllocError>
    ensures { OnOk result (text.new.items ≡ text.old.items ++ digits bits.now) }
{
    let mut i = bits.len();
    while i > 0 {
        i -= 1;
        text.push(digit_of(bits.get(i)))?;
    }
    Ok(())
}

/// Puts the lowest `count` hexadecimal digits of bits behind a text, the highest of them first and in upper case.
/// Refuses for want of memory alone.
#[tactic(auto, using(crate::proofs::DigitLaws::hexadecimal_down))]
pub fn put_hexadecimal(text: &mut Vec<u8>, bits: &Bits, count: usize) -> Result<(), AllocError>
    ensures { OnOk result (text.new.items ≡ text.old.items ++ hexadecimal count bits.now) }
{
    let mut k = count;
    while k > 0 {
        k -= 1;
        text.push(bits.hex_digit(k))?;
    }
    Ok(())
}

/// The two lower-case hexadecimal digits of a byte.
pub fn hex_byte(byte: u8) -> [u8; 2]
    ensures { result ≡ spec.hex_byte byte }
{
    let digits = b"0123456789abcdef";
    [
        digits[usize::from(byte / 16)],
        digits[usize::from(byte % 16)],
    ]
}
