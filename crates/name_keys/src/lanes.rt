//! Sixteen bytes of two names at once.
ghost use Rattle.std.specs.Prelude.{◌≡◌, ◌+◌, ◌≤◌, IsTrue, length, take, drop, map};
ghost use Rattle.std.specs.Char.{to_ascii_uppercase};

use std::simd::prelude::*;

/// So many bytes are compared at once.
pub(crate) const LANES: usize = 16;

/// How many letters there are in one case.
const LETTERS: u8 = 26;

/// How far behind its capital a small letter stands.
const CASE: u8 = b'a' - b'A';

/// Whether the sixteen bytes of two names from a place on are the same in upper case.
#[inline(always)]
pub(crate) fn same_but_for_case(one: &[u8], other: &[u8], at: usize) -> bool
    requires one { at + LANES ≤ length one.now }
    requires other { at + LANES ≤ length other.now }
    ensures { IsTrue result → map to_ascii_uppercase (take LANES (drop at one.now))
        ≡ map to_ascii_uppercase (take LANES (drop at other.now)) }
{
    in_upper_case(one, at)
        .simd_ne(in_upper_case(other, at))
        .to_bitmask()
        == 0
}

/// The sixteen bytes of a name from a place on in upper case.
#[inline(always)]
fn in_upper_case(name: &[u8], at: usize) -> u8x16
    requires { at + LANES ≤ length name.now }
    ensures { result ≡ map to_ascii_uppercase (take LANES (drop at name.now)) }
{
    let bytes = u8x16::from_slice(&name[at..]);
    let is_small = (bytes - u8x16::splat(b'a')).simd_lt(u8x16::splat(LETTERS));
    is_small.select(bytes - u8x16::splat(CASE), bytes)
}
