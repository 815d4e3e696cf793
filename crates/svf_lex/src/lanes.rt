//! The bytes of runs of SVF text, one by one and sixteen at once.
ghost use Rattle.svf_lex.specs.Bytes as bytes;

use std::simd::prelude::*;
use token_runs::{LETTERS, RunOf, first_set};

/// How many bytes there are from `+` to `9`. Of these `,` and `/` belong to no run.
const FROM_PLUS_TO_NINE: u8 = 15;

/// The bytes of a run: letters, digits, `.`, `+`, `-` and `_`.
pub(crate) struct RunByte;

impl RunOf for RunByte {
    ghost belongs = { bytes.is_run };

    fn has(byte: u8) -> bool {
        IS_RUN[usize::from(byte)]
    }

    #[inline(always)]
    fn run_in(text: &[u8], at: usize) -> usize {
        let v = u8x16::from_slice(&text[at..]);
        let from_a = (v | u8x16::splat(0x20)) - u8x16::splat(b'a');
        let from_plus = v - u8x16::splat(b'+');
        let is_no_sign_or_digit = from_plus.simd_ge(u8x16::splat(FROM_PLUS_TO_NINE))
            | v.simd_eq(u8x16::splat(b','))
            | v.simd_eq(u8x16::splat(b'/'));
        let stops = from_a.simd_ge(u8x16::splat(LETTERS))
            & is_no_sign_or_digit
            & v.simd_ne(u8x16::splat(b'_'));
        first_set(stops.to_bitmask())
    }
}

/// Which bytes belong to a run. Tests by branches are predicted wrongly at each other byte of random digits.
const IS_RUN: [bool; 256] = [
    false, false, false, false, false, false, false, false, false, false, false, false, false,
    false, false, false, false, false, false, false, false, false, false, false, false, false,
    false, false, false, false, false, false, false, false, false, false, false, false, false,
    false, false, false, false, true, false, true, true, false, true, true, true, true, true, true,
    true, true, true, true, false, false, false, false, false, false, false, true, true, true,
    true, true, true, true, true, true, true, true, true, true, true, true, true, true, true, true,
    true, true, true, true, true, true, true, false, false, false, false, true, false, true, true,
    true, true, true, true, true, true, true, true, true, true, true, true, true, true, true, true,
    true, true, true, true, true, true, true, true, false, false, false, false, false, false,
    false, false, false, false, false, false, false, false, false, false, false, false, false,
    false, false, false, false, false, false, false, false, false, false, false, false, false,
    false, false, false, false, false, false, false, false, false, false, false, false, false,
    false, false, false, false, false, false, false, false, false, false, false, false, false,
    false, false, false, false, false, false, false, false, false, false, false, false, false,
    false, false, false, false, false, false, false, false, false, false, false, false, false,
    false, false, false, false, false, false, false, false, false, false, false, false, false,
    false, false, false, false, false, false, false, false, false, false, false, false, false,
    false, false, false, false, false, false, false, false, false, false, false, false, false,
    false, false, false, false, false, false, false, false, false, false,
];
