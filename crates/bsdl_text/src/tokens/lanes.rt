//! Sixteen bytes of a text at once.
ghost use Rattle.std.specs.Prelude.{◌≡◌, ◌+◌, ◌-◌, ◌≤◌, length, take, drop, slice_index};
ghost use Rattle.bsdl_text.specs.Bytes as bytes;
ghost use Rattle.bsdl_text.specs.Plain.{plain_len};

use crate::tokens::scan::is_word;
use std::simd::prelude::*;
use token_runs::{LANES, LETTERS, RunOf, first_set};

/// How many digits there are.
const DIGITS: u8 = 10;

/// How many bytes there are from `&` to `>`: marks, and the digits.
const FROM_AND_TO_GREATER: u8 = 25;

/// How many bytes of white space there are from the tab to the carriage return.
const FROM_TAB_TO_RETURN: u8 = 5;

/// The bytes that a word goes on with: letters, digits and `_`.
pub(crate) struct WordByte;

impl RunOf for WordByte {
    ghost belongs = { bytes.is_word };

    fn has(byte: u8) -> bool {
        is_word(byte)
    }

    #[inline(always)]
    fn run_in(text: &[u8], at: usize) -> usize {
        let v = u8x16::from_slice(&text[at..]);
        let from_a = (v | u8x16::splat(0x20)) - u8x16::splat(b'a');
        let from_zero = v - u8x16::splat(b'0');
        let stops = from_a.simd_ge(u8x16::splat(LETTERS))
            & from_zero.simd_ge(u8x16::splat(DIGITS))
            & v.simd_ne(u8x16::splat(b'_'));
        first_set(stops.to_bitmask())
    }
}

/// How many of the sixteen bytes from a place on are plain, each behind the byte before it.
#[inline(always)]
pub(crate) fn plain_in(text: &[u8], at: usize, ending: u8) -> usize
    requires behind { 1 ≤ at }
    requires within { at + LANES ≤ length text.now }
    ensures { result ≡ plain_len ending (slice_index text.now (at - 1)) (take LANES (drop at text.now)) }
{
    let v = u8x16::from_slice(&text[at..]);
    let from_a = (v | u8x16::splat(0x20)) - u8x16::splat(b'a');
    let from_and = v - u8x16::splat(b'&');
    let from_tab = v - u8x16::splat(b'\t');
    // One comparison for `Y`, `[`, `]` and `_`, which differ in two bits alone.
    let with_six = v | u8x16::splat(6);
    let is_neither = from_a.simd_ge(u8x16::splat(LETTERS))
        & from_and.simd_ge(u8x16::splat(FROM_AND_TO_GREATER))
        & from_tab.simd_ge(u8x16::splat(FROM_TAB_TO_RETURN))
        & with_six.simd_ne(u8x16::splat(b'_'))
        & v.simd_ne(u8x16::splat(b' '))
        & v.simd_ne(u8x16::splat(b'|'));
    let before = u8x16::from_slice(&text[at - 1..]);
    let before_from_a = (before | u8x16::splat(0x20)) - u8x16::splat(b'a');
    let before_from_zero = before - u8x16::splat(b'0');
    let is_no_word = before_from_a.simd_ge(u8x16::splat(LETTERS))
        & before_from_zero.simd_ge(u8x16::splat(DIGITS))
        & before.simd_ne(u8x16::splat(b'_'));
    let is_alone = v.simd_eq(u8x16::splat(b'_')) & is_no_word;
    let stops = v.simd_eq(u8x16::splat(ending)) | is_neither | is_alone;
    first_set(stops.to_bitmask())
}
