//! Patterns and opcodes of a device.
ghost use Rattle.std.specs.Prelude.{◌≡◌, map, option_map, slice_get, IfOk};
ghost use Rattle.bsdl_device.specs.Opcodes.{x_as_0 as bits_of_pattern};
ghost use Rattle.bsdl_values.specs.InstructionValues.{bit, pattern_of as pattern_of_digits};
ghost use Rattle.bsdl_values.specs.InstructionView as rows_view;
ghost use Rattle.bsdl_opcodes.specs.ResetOpcode.{opcode};

use bsdl_device::{Names, Opcode, Pattern};
use bsdl_values::{OpcodeRow, Patterns, PrivateName};
use jt_bits::Bits;
use std::alloc::{AllocError, Global};

/// The bits of a pattern by its digits, the rightmost first, X as 0. Refuses for want of memory alone.
pub fn bits_of(alloc: Global, digits: &[u8]) -> Result<Bits, AllocError>
    ensures { IfOk result (λ b. b ≡ bits_of_pattern (pattern_of_digits digits.now)) }
{
    let len = digits.len();
    let mut bits = Bits::zeros(alloc, len)?;
    for i in 0..len {
        bits.set(i, digits[len - 1 - i] == b'1');
    }
    Ok(bits)
}

/// The first code, where there is one. Refuses for want of memory alone.
#[tactic(auto, using(crate::proofs::FirstLaws::first_there, crate::proofs::FirstLaws::none_there))]
pub fn code_of(alloc: Global, codes: &Patterns) -> Result<Option<Bits>, AllocError>
    ensures { IfOk result (λ o. o ≡ option_map bits_of_pattern (slice_get (rows_view.patterns codes.now) 0)) }
{
    match codes.first() {
        Some(digits) => Ok(Some(bits_of(alloc, digits)?)),
        None => Ok(None),
    }
}

/// The opcodes of the instructions, in the order of their rows. Refuses for want of memory alone.
pub fn opcodes_of(alloc: Global, rows: &[OpcodeRow<'_>]) -> Result<Vec<Opcode>, AllocError>
    ensures { IfOk result (λ v. v.items ≡ map opcode (map rows_view.opcode_row rows.now)) }
{
    let mut opcodes = Vec::new(alloc);
    for row in rows {
        let found = opcode_of(alloc, row)?;
        opcodes.push(found)?;
    }
    Ok(opcodes)
}

fn opcode_of(alloc: Global, row: &OpcodeRow<'_>) -> Result<Opcode, AllocError>
    ensures { IfOk result (λ o. o ≡ opcode (rows_view.opcode_row row.now)) }
{
    let name = row.name.upper_name(alloc)?;
    let patterns = patterns_of(alloc, &row.patterns)?;
    Ok(Opcode::new(name, patterns))
}

fn patterns_of(alloc: Global, patterns: &Patterns) -> Result<Vec<Pattern>, AllocError>
    ensures { IfOk result (λ v. v.items ≡ rows_view.patterns patterns.now) }
{
    let mut all = Vec::new(alloc);
    for digits in patterns.iter() {
        let found = pattern_of(alloc, digits)?;
        all.push(found)?;
    }
    Ok(all)
}

/// A pattern by its digits, the rightmost bit first.
fn pattern_of(alloc: Global, digits: &[u8]) -> Result<Pattern, AllocError>
    ensures { IfOk result (λ p. p ≡ pattern_of_digits digits.now) }
{
    let mut bits = Vec::with_capacity(alloc, digits.len())?;
    for digit in digits {
        bits.push(bit_of(*digit))?;
    }
    bits.reverse();
    Ok(Pattern::new(bits))
}

fn bit_of(digit: u8) -> Option<bool>
    ensures { result ≡ bit digit }
{
    match digit {
        b'0' => Some(false),
        b'1' => Some(true),
        _ => None,
    }
}

/// The names of the private instructions, in upper case. Refuses for want of memory alone.
pub fn private_names_of(alloc: Global, names: &[PrivateName<'_>]) -> Result<Names, AllocError>
    ensures { IfOk result (λ n. n ≡ map rows_view.private_name names.now) }
{
    let mut all = Names::new(alloc);
    for private in names {
        let name = private.name.upper_name(alloc)?;
        all = all.with(name)?;
    }
    Ok(all)
}
