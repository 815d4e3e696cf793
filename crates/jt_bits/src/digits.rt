//! Bits from hexadecimal text, and back.
ghost use Rattle.std.specs.Prelude.{◌≡◌, ◌≢◌, ◌≤◌, ◌<◌, ◌+◌, ◌*◌, ℕ, Err, None, true, IfOk, drop, length, position};
ghost use Rattle.std.specs.Prelude.{slice_index, take};
ghost use Rattle.std.specs.List.{list_all, list_any, AllPass};
ghost use Rattle.std.specs.Char as char_specs;
ghost use Rattle.std.specs.Char.{is_ascii_hexdigit};
ghost use Rattle.jt_bits.specs.Hex as spec;
ghost use Rattle.hex.specs.Hex.{is_hex_digit};
ghost use Rattle.jt_bits.specs.Lengths.{resized};
ghost use Rattle.jt_bits.specs.Words.{number};
ghost use Rattle.jt_bits.specs.Hex.{hex_value, hex_digit_of, bit_or_zero};

use crate::{Bits, words};
use std::alloc::{AllocError, Global};
use std::simd::prelude::*;
use thiserror::Error;

/// How many bytes of a text are judged at once.
const PIECE: usize = 64;

/// How many digits a word has.
const DIGITS: usize = 16;

/// Why hexadecimal text has no value at a length.
#[derive(Debug, Drop, Clone, Copy, PartialEq, Eq, Error)]
pub enum HexFault {
    /// No memory for the bits.
    #[error("memory")]
    NoMemory,
    /// At this place, counted in bytes from 0, stands a byte that is no hexadecimal digit and no white space.
    #[error("byte {0} is no hexadecimal digit")]
    BadDigit(usize),
    /// A 1 stands beyond the length.
    #[error("the digits have a 1 beyond the length")]
    TooWide,
}

impl Bits {
    /// The value of hexadecimal digits in `n` bits, as a field of the Serial Vector Format gives it: bit 0 is the
    /// lowest bit of the last digit. White space is skipped, missing leading digits are 0, and no digits are the value
    /// 0.
    ///
    /// Refused where a byte is no digit (the first of them is told), else where a 1 stands beyond the `n` bits.
    pub fn from_hex(alloc: Global, digits: &[u8], n: usize) -> Result<Bits, HexFault>
        ensures { result ≢ Err HexFault.NoMemory → result ≡ hex_value digits.now n }
    {
        let is_solid = is_hexadecimal(digits);
        if let Some(place) = bad_place(digits, is_solid) {
            return Err(HexFault::BadDigit(place));
        }
        if is_wider(digits, n, is_solid) {
            return Err(HexFault::TooWide);
        }
        lowest(alloc, digits, n, is_solid).map_err(|_| HexFault::NoMemory)
    }

    /// The `n` lowest binary digits of hexadecimal digits with no white space between them (asked), as
    /// [`Bits::from_hex`] gives them; a 1 beyond them is not looked for. Refused for want of memory alone.
    pub fn of_digits(alloc: Global, digits: &[u8], n: usize) -> Result<Bits, AllocError>
        requires { list_all is_ascii_hexdigit digits.now ≡ true }
        ensures { IfOk result (λ b. b ≡ spec.lowest n digits.now) }
    {
        lowest(alloc, digits, n, true)
    }

    /// The hexadecimal digit of the bits from `4 * k` on, in upper case. Digit 0 is the lowest; bits that are missing
    /// are 0.
    pub fn hex_digit(&self, k: usize) -> u8
        ensures { result ≡ hex_digit_of self.now k }
    {
        if k > self.len() / 4 {
            return b'0';
        }
        let value = self.weight(4 * k)
            + 2 * self.weight(4 * k + 1)
            + 4 * self.weight(4 * k + 2)
            + 8 * self.weight(4 * k + 3);
        b"0123456789ABCDEF"[value]
    }

    /// Bit `i` as a number, 0 where there is none.
    fn weight(&self, i: usize) -> usize
        ensures { result ≡ bit_or_zero self.now i }
    {
        if i < self.len() && self.get(i) { 1 } else { 0 }
    }
}

/// Whether hexadecimal text has a 1 beyond its `n` lowest binary digits. A solid text is digits alone.
fn is_wider(digits: &[u8], n: usize, is_solid: bool) -> bool
    requires { is_solid ≡ true → list_all is_ascii_hexdigit digits.now ≡ true }
    ensures { result ≡ spec.has_one_beyond n digits.now }
{
    if is_solid {
        digits_have_one_beyond(digits, n)
    } else {
        has_one_beyond(digits, n)
    }
}

/// Whether digits with no white space between them (asked) have a 1 beyond their `n` lowest binary digits. Looks at
/// those alone that do not lie below as a whole, so a long field takes no longer than a short one.
pub fn digits_have_one_beyond(digits: &[u8], n: usize) -> bool
    requires { list_all is_ascii_hexdigit digits.now ≡ true }
    ensures { result ≡ spec.has_one_beyond n digits.now }
{
    let (high, _) = digits.split_at(digits.len().saturating_sub(n / 4));
    has_one_beyond(high, n % 4)
}

/// Whether hexadecimal text has a 1 beyond its `n` lowest binary digits. Takes no memory, so that any length can be
/// asked.
pub fn has_one_beyond(digits: &[u8], n: usize) -> bool
    ensures { result ≡ spec.has_one_beyond n digits.now }
{
    let mut rest = digits;
    let mut left = n;
    while let Some((digit, front)) = rest.split_last() {
        // No more digits than there are places left, at four places a digit.
        if rest.len() <= left / 4 {
            return false;
        }
        if digit_has_one_beyond(*digit, left) {
            return true;
        }
        if !is_white(*digit) {
            left = left.saturating_sub(4);
        }
        rest = front;
    }
    false
}

fn digit_has_one_beyond(digit: u8, n: usize) -> bool
    ensures { result ≡ list_any (λ bit. bit) (drop n (spec.bits_of digit)) }
{
    n < 4 && !is_white(digit) && four_bits(digit).iter().skip(n).any(|bit| *bit)
}

/// Whether a text is hexadecimal digits alone, with no white space between them. Looks at most a piece beyond the first
/// byte that is none.
pub fn is_hexadecimal(text: &[u8]) -> bool
    ensures { result ≡ list_all is_ascii_hexdigit text.now }
{
    let mut rest = text;
    while !rest.is_empty() {
        let (piece, behind) = rest.split_at(rest.len().min(PIECE));
        if !are_digits(piece) {
            return false;
        }
        rest = behind;
    }
    true
}

/// Whether each byte of a piece is a hexadecimal digit.
fn are_digits(piece: &[u8]) -> bool
    ensures { result ≡ list_all is_ascii_hexdigit piece.now }
{
    // Every byte is looked at, with no way out at the first that is none: the digits of real vectors are random, and a
    // branch at each is predicted wrongly.
    let mut is_good = true;
    for byte in piece {
        is_good &= byte.is_ascii_hexdigit();
    }
    is_good
}

/// The `n` lowest binary digits of hexadecimal text, the lowest first: sixteen digits a word, from the last on. A solid
/// text is digits alone.
fn lowest(alloc: Global, digits: &[u8], n: usize, is_solid: bool) -> Result<Bits, AllocError>
    requires clean { position spec.is_bad digits.now ≡ None }
    requires solid { is_solid ≡ true → list_all is_ascii_hexdigit digits.now ≡ true }
    ensures { IfOk result (λ b. b ≡ spec.lowest n digits.now) }
{
    let count = words::words_for(n);
    let mut words = Vec::with_capacity(alloc, count)?;
    let mut rest = digits;
    for _k in 0..count {
        let last = last_word(rest, is_solid);
        words.push(last.value)?;
        rest = last.rest;
    }
    Ok(Bits {
        words,
        start: 0,
        len: n,
    })
}

/// What the last sixteen digits of a text are worth, and the text before them.
#[derive(Drop)]
struct Last<'a> {
    value: u64,
    rest: &'a [u8],
}

/// The last word of a text. A solid text is digits alone.
fn last_word(text: &[u8], is_solid: bool) -> Last<'_>
    requires clean { position spec.is_bad text.now ≡ None }
    requires solid { is_solid ≡ true → list_all is_ascii_hexdigit text.now ≡ true }
    ensures value { result.value ≡ number (take 64 (spec.binary text.now)) }
    ensures rest { spec.binary result.rest.now ≡ drop 64 (spec.binary text.now) }
    ensures good { position spec.is_bad result.rest.now ≡ None }
    ensures solid { is_solid ≡ true → list_all is_ascii_hexdigit result.rest.now ≡ true }
{
    if is_solid {
        last_solid(text)
    } else {
        last_spaced(text)
    }
}

/// The last word of a text that is digits alone.
fn last_solid(text: &[u8]) -> Last<'_>
    requires { list_all is_ascii_hexdigit text.now ≡ true }
    ensures value { result.value ≡ number (take 64 (spec.binary text.now)) }
    ensures rest { spec.binary result.rest.now ≡ drop 64 (spec.binary text.now) }
    ensures good { position spec.is_bad result.rest.now ≡ None }
    ensures solid { list_all is_ascii_hexdigit result.rest.now ≡ true }
{
    let (rest, piece) = text.split_at(text.len().saturating_sub(16));
    Last {
        value: digits_value(piece),
        rest,
    }
}

/// The value of at most sixteen digits.
fn digits_value(digits: &[u8]) -> u64
    requires few { length digits.now ≤ 16 }
    requires solid { list_all is_ascii_hexdigit digits.now ≡ true }
    ensures { result ≡ number (spec.binary digits.now) }
{
    if digits.len() == DIGITS {
        return word_value(digits);
    }
    let mut value = 0;
    for digit in digits {
        value = value * 16 + u64::from(digit_value(*digit));
    }
    value
}

/// The value of sixteen digits, all at once.
fn word_value(digits: &[u8]) -> u64
    requires long { length digits.now ≡ 16 }
    requires solid { list_all is_ascii_hexdigit digits.now ≡ true }
    ensures { result ≡ number (spec.binary digits.now) }
{
    let values = values_of(u8x16::from_slice(digits));
    u64::from_be_bytes(pairs_of(values).to_array())
}

/// The value of each of sixteen digits. The low half of `A` and of `a` is 1, and of the two bits above the sixth one is
/// set, as in no digit below them.
fn values_of(digits: u8x16) -> u8x16
    ensures long { length result ≡ 16 }
    ensures values { (i : ℕ) → i < 16 → is_ascii_hexdigit (slice_index digits i) ≡ true
        → slice_index result i ≡ char_specs.digit_value (slice_index digits i) }
{
    (digits & u8x16::splat(15)) + (digits >> u8x16::splat(6)) * u8x16::splat(9)
}

/// The bytes that two values each make, the first of the two above the other.
fn pairs_of(values: u8x16) -> u8x8
    ensures long { length result ≡ 8 }
    ensures pairs { (i : ℕ) → i < 8 → slice_index values (2 * i) < 16 → slice_index values (2 * i + 1) < 16
        → slice_index result i ≡ slice_index values (2 * i) * 16 + slice_index values (2 * i + 1) }
{
    let high = values.swizzle([0, 2, 4, 6, 8, 10, 12, 14]);
    let low = values.swizzle([1, 3, 5, 7, 9, 11, 13, 15]);
    high * u8x8::splat(16) + low
}

/// The value of each byte that is a hexadecimal digit, in either case. For a digit by itself a table is faster than
/// reckoning.
const VALUES: [u8; 256] = [
    0, 0, 0, 0, 0, 0, 0, 0, 0, 0, 0, 0, 0, 0, 0, 0, 0, 0, 0, 0, 0, 0, 0, 0, 0, 0, 0, 0, 0, 0, 0, 0,
    0, 0, 0, 0, 0, 0, 0, 0, 0, 0, 0, 0, 0, 0, 0, 0, 0, 1, 2, 3, 4, 5, 6, 7, 8, 9, 0, 0, 0, 0, 0, 0,
    0, 10, 11, 12, 13, 14, 15, 0, 0, 0, 0, 0, 0, 0, 0, 0, 0, 0, 0, 0, 0, 0, 0, 0, 0, 0, 0, 0, 0, 0,
    0, 0, 0, 10, 11, 12, 13, 14, 15, 0, 0, 0, 0, 0, 0, 0, 0, 0, 0, 0, 0, 0, 0, 0, 0, 0, 0, 0, 0, 0,
    0, 0, 0, 0, 0, 0, 0, 0, 0, 0, 0, 0, 0, 0, 0, 0, 0, 0, 0, 0, 0, 0, 0, 0, 0, 0, 0, 0, 0, 0, 0, 0,
    0, 0, 0, 0, 0, 0, 0, 0, 0, 0, 0, 0, 0, 0, 0, 0, 0, 0, 0, 0, 0, 0, 0, 0, 0, 0, 0, 0, 0, 0, 0, 0,
    0, 0, 0, 0, 0, 0, 0, 0, 0, 0, 0, 0, 0, 0, 0, 0, 0, 0, 0, 0, 0, 0, 0, 0, 0, 0, 0, 0, 0, 0, 0, 0,
    0, 0, 0, 0, 0, 0, 0, 0, 0, 0, 0, 0, 0, 0, 0, 0, 0, 0, 0, 0, 0, 0, 0, 0, 0, 0, 0, 0, 0, 0, 0, 0,
    0, 0, 0, 0,
];

/// The value of a digit.
fn digit_value(digit: u8) -> u8
    requires { is_ascii_hexdigit digit ≡ true }
    ensures { result ≡ char_specs.digit_value digit }
{
    VALUES[usize::from(digit)]
}

/// The last word of a text.
fn last_spaced(text: &[u8]) -> Last<'_>
    requires { position spec.is_bad text.now ≡ None }
    ensures value { result.value ≡ number (take 64 (spec.binary text.now)) }
    ensures rest { spec.binary result.rest.now ≡ drop 64 (spec.binary text.now) }
    ensures good { position spec.is_bad result.rest.now ≡ None }
{
    let piece = last_piece(text);
    Last {
        value: piece_value(&piece.digits),
        rest: piece.rest,
    }
}

/// The last sixteen digits of a text, led by `0` where there are fewer, and the text before them.
#[derive(Drop)]
struct Piece<'a> {
    digits: [u8; 16],
    rest: &'a [u8],
}

/// The last sixteen digits of a text; its white space is skipped.
fn last_piece(text: &[u8]) -> Piece<'_>
    requires { position spec.is_bad text.now ≡ None }
    ensures digits { AllPass is_hex_digit result.digits }
    ensures spelled { spec.binary result.digits ≡ resized 64 (spec.binary text.now) }
    ensures rest { spec.binary result.rest.now ≡ drop 64 (spec.binary text.now) }
    ensures good { position spec.is_bad result.rest.now ≡ None }
{
    let mut digits = [b'0'; 16];
    let mut left = 16;
    let mut rest = text;
    while let Some((digit, front)) = rest.split_last() {
        if !is_white(*digit) {
            left -= 1;
            digits[left] = *digit;
            if left == 0 {
                return Piece {
                    digits,
                    rest: front,
                };
            }
        }
        rest = front;
    }
    Piece { digits, rest }
}

/// The value of sixteen digits.
fn piece_value(digits: &[u8; 16]) -> u64
    requires { AllPass is_hex_digit digits.now }
    ensures { result ≡ number (spec.binary digits.now) }
{
    let mut bytes = [0; 8];
    match hex::decode_to_slice(digits.as_slice(), &mut bytes) {
        Ok(()) => u64::from_be_bytes(bytes),
        Err(_) => 0,
    }
}

/// The place of the first byte that is no hexadecimal digit and no white space. A solid text has none.
fn bad_place(digits: &[u8], is_solid: bool) -> Option<usize>
    requires { is_solid ≡ true → list_all is_ascii_hexdigit digits.now ≡ true }
    ensures { result ≡ position spec.is_bad digits.now }
{
    if is_solid {
        return None;
    }
    digits
        .iter()
        .position(|byte| !(byte.is_ascii_hexdigit() || is_white(*byte)))
}

fn is_white(byte: u8) -> bool
    ensures { result ≡ spec.is_white byte }
{
    matches!(byte, b' ' | b'\t'..=b'\r')
}

/// The binary digits of a digit, the lowest first.
fn four_bits(digit: u8) -> [bool; 4]
    ensures { result ≡ spec.four_bits (char_specs.digit_value digit) }
{
    let value = char::from(digit).to_digit(36).unwrap_or(36);
    [
        value % 2 == 1,
        value / 2 % 2 == 1,
        value / 4 % 2 == 1,
        value / 8 % 2 == 1,
    ]
}
