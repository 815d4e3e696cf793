//! Lengths of registers and of patterns.
ghost use Rattle.std.specs.Prelude.{◌≡◌, ◌&&◌, ℕ, map, option_map, unwrap_or, is_some, ◌==◌, IfOk};
ghost use Rattle.std.specs.List.{list_all};
ghost use Rattle.bsdl_text.specs.NumberView.{value};
ghost use Rattle.bsdl_entity.specs.declared.entity.Outline.{Outline};
ghost use Rattle.bsdl_values.specs.InstructionValues.{pattern_of};
ghost use Rattle.bsdl_values.specs.InstructionView as rows_view;
ghost use Rattle.bsdl_description.specs.View.{description};
ghost use Rattle.bsdl_rules.specs.Lengths as spec;
ghost use Rattle.bsdl_rules.specs.Sizes.{IsSize, captures_are, is_len};

use crate::agreeing::agree;
use bsdl_description::Description;
use bsdl_text::{Digits, same_name};
use bsdl_values::{AccessRow, Instr, OpcodeRow, Patterns};
use std::alloc::{AllocError, Global};

/// Whether every length fits: instructions have two bits at least, the boundary register one, codes 32; patterns are as
/// long as their registers, and a register of the device's own has one length. Refuses for want of memory alone.
pub fn lengths_fit(alloc: Global, described: &Description<'_>) -> Result<bool, AllocError>
    ensures { IfOk result (λ b. (o : Outline) → b ≡ spec.lengths_fit (description o described.now)) }
{
    if !has_bits(described) {
        return Ok(false);
    }
    if !instructions_fit(described) {
        return Ok(false);
    }
    if !codes_fit(described) {
        return Ok(false);
    }
    if !accesses_fit(&described.accesses, described.boundary_length.size()) {
        return Ok(false);
    }
    agree(alloc, &described.accesses)
}

/// Whether instructions have two bits at least, and the boundary register one.
fn has_bits(described: &Description<'_>) -> bool
    ensures { (o : Outline) → result ≡ spec.has_bits (description o described.now) }
{
    described.instruction_length.up_to(2) == 2 && described.boundary_length.up_to(1) == 1
}

/// Whether opcodes and what is captured are as long as instructions.
fn instructions_fit(described: &Description<'_>) -> bool
    ensures { (o : Outline) → result ≡ spec.instructions_fit (description o described.now) }
{
    let size = described.instruction_length.size();
    opcodes_fit(&described.opcodes, size) && has_len(&described.capture.digits, size)
}

/// Whether codes have 32 bits.
fn codes_fit(described: &Description<'_>) -> bool
    ensures { (o : Outline) → result ≡ spec.codes_fit (description o described.now) }
{
    all_have_len(&described.idcodes, Some(32)) && all_have_len(&described.usercodes, Some(32))
}

/// Whether a pattern of these digits is so long.
fn has_len(digits: &[u8], size: Option<usize>) -> bool
    ensures { result ≡ is_len size (pattern_of digits.now) }
{
    match size {
        Some(size) => digits.len() == size,
        None => false,
    }
}

fn all_have_len(patterns: &Patterns, size: Option<usize>) -> bool
    ensures { result ≡ list_all (is_len size) (rows_view.patterns patterns.now) }
{
    for digits in patterns.iter() {
        if !has_len(digits, size) {
            return false;
        }
    }
    true
}

fn opcodes_fit(rows: &[OpcodeRow<'_>], size: Option<usize>) -> bool
    ensures { result ≡ list_all (λ r. list_all (is_len size) r.patterns) (map rows_view.opcode_row rows.now) }
{
    for row in rows {
        if !all_have_len(&row.patterns, size) {
            return false;
        }
    }
    true
}

fn accesses_fit(rows: &[AccessRow<'_>], boundary: Option<usize>) -> bool
    ensures { (n : ℕ) → IsSize boundary n → result ≡ list_all (spec.access_fits n)
        (map rows_view.access_row rows.now) }
{
    for row in rows {
        if !access_fits(row, boundary) {
            return false;
        }
    }
    true
}

/// Whether a register has a bit, and what it captures has its length.
fn access_fits(row: &AccessRow<'_>, boundary: Option<usize>) -> bool
    ensures { (n : ℕ) → IsSize boundary n → result ≡ spec.access_fits n (rows_view.access_row row.now) }
{
    !is_empty(row.len) && captures_fit(&row.instrs, row_size(row, boundary))
}

fn is_empty(len: Option<Digits<'_>>) -> bool
    ensures { result ≡ (is_some (option_map value len.entry) && unwrap_or (option_map value len.entry) 0 == 0) }
{
    match len {
        Some(len) => len.up_to(1) == 0,
        None => false,
    }
}

/// The length of a row's register.
fn row_size(row: &AccessRow<'_>, boundary: Option<usize>) -> Option<usize>
    ensures { (n : ℕ) → IsSize boundary n → IsSize result (spec.row_len n (rows_view.access_row row.now)) }
{
    match row.len {
        Some(len) => len.size(),
        None => {
            if same_name(row.register.text, b"BOUNDARY") {
                boundary
            } else if same_name(row.register.text, b"BYPASS") {
                Some(1)
            } else {
                Some(32)
            }
        }
    }
}

fn captures_fit(instrs: &[Instr<'_>], size: Option<usize>) -> bool
    ensures { result ≡ list_all (captures_are size) (map rows_view.instr instrs.now) }
{
    for instr in instrs {
        if !capture_fits(instr, size) {
            return false;
        }
    }
    true
}

fn capture_fits(instr: &Instr<'_>, size: Option<usize>) -> bool
    ensures { result ≡ captures_are size (rows_view.instr instr.now) }
{
    match &instr.captures {
        Some(pattern) => has_len(&pattern.digits, size),
        None => true,
    }
}
