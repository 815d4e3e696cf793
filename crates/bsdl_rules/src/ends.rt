//! What patterns end in, as written: an X is neither 0 nor 1.
ghost use Rattle.std.specs.Prelude.{◌≡◌, Some, slice_get};
ghost use Rattle.bsdl_values.specs.InstructionValues.{bit as bit_of, pattern_of};
ghost use Rattle.bsdl_values.specs.InstructionView as rows_view;
ghost use Rattle.bsdl_rules.specs.Lengths as spec;
ghost use Rattle.bsdl_rules.specs.Sizes.{is_bit};

use bsdl_values::{Patterns, WrittenPattern};

/// Whether the two rightmost bits that the instruction register captures are 01.
#[tactic(auto, using(crate::proofs::EndLaws::captures_by_bits))]
pub fn captures_one(pattern: &WrittenPattern) -> bool
    ensures { result ≡ spec.captures_one (rows_view.pattern pattern.now) }
{
    has_bit(&pattern.digits, 0, true) && has_bit(&pattern.digits, 1, false)
}

/// Whether the rightmost bit of the first code is 1, where there is one.
#[tactic(auto, using(crate::proofs::EndLaws::first_ends, crate::proofs::EndLaws::none_ends))]
pub fn ends_in_one(codes: &Patterns) -> bool
    ensures { result ≡ spec.ends_in_one (rows_view.patterns codes.now) }
{
    match codes.first() {
        Some(digits) => has_bit(digits, 0, true),
        None => true,
    }
}

/// Whether a pattern of these digits has this bit so many places from the right.
fn has_bit(digits: &[u8], place: usize, bit: bool) -> bool
    ensures { result ≡ is_bit (slice_get (pattern_of digits.now) place) bit }
{
    let len = digits.len();
    if place >= len {
        return false;
    }
    is_digit(digits[len - 1 - place], bit)
}

fn is_digit(digit: u8, bit: bool) -> bool
    ensures { result ≡ is_bit (Some (bit_of digit)) bit }
{
    if bit { digit == b'1' } else { digit == b'0' }
}
