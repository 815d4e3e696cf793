//! Of what a length does not fit.
ghost use Rattle.std.specs.Prelude.{◌≡◌, ◌||◌, ◌&&◌, ◌==◌, nat_le, map, not, ℕ, option_map, unwrap_or, is_some};
ghost use Rattle.std.specs.List.{list_all};
ghost use Rattle.bsdl_text.specs.NumberView.{value};
ghost use Rattle.bsdl_values.specs.InstructionValues.{pattern_of};
ghost use Rattle.bsdl_values.specs.InstructionView as rows_view;
ghost use Rattle.bsdl_description.specs.View.{description};
ghost use Rattle.bsdl_rules.specs.Lengths as lengths;
ghost use Rattle.bsdl_rules.specs.Sizes.{IsSize};
ghost use Rattle.bsdl_sizes.specs.Lengths as spec;

use crate::spots::{Spot, attribute_spot, first_spot, inside, unless_fits};
use bsdl_description::Description;
use bsdl_entity::{Attribute, Outline};
use bsdl_text::{Digits, same_name};
use bsdl_values::{AccessRow, Instr, OpcodeRow, Patterns, WrittenPattern};

/// Of what a length does not fit, in the order of docs/bsdl.md.
pub(crate) fn length_spot(outline: &Outline<'_>, described: &Description<'_>) -> Option<Spot>
    ensures { result ≡ spec.length_spot (description outline.now described.now) }
{
    first_spot(&[
        unless_fits(
            is_at_least(described.instruction_length, 2),
            attribute_spot(outline, Attribute::InstructionLength),
        ),
        unless_fits(
            is_at_least(described.boundary_length, 1),
            attribute_spot(outline, Attribute::BoundaryLength),
        ),
        opcode_spot(described),
        unless_fits(
            capture_has_len(&described.capture, described.instruction_length),
            attribute_spot(outline, Attribute::InstructionCapture),
        ),
        unless_fits(
            are_codes(&described.idcodes),
            attribute_spot(outline, Attribute::IdcodeRegister),
        ),
        unless_fits(
            are_codes(&described.usercodes),
            attribute_spot(outline, Attribute::UsercodeRegister),
        ),
        instr_spot(described),
        attribute_spot(outline, Attribute::RegisterAccess),
    ])
}

fn is_at_least(number: Digits<'_>, least: usize) -> bool
    ensures { result ≡ nat_le least (value number.entry) }
{
    number.up_to(least) == least
}

/// The first instruction with an opcode that is not as long as instructions are.
fn opcode_spot(described: &Description<'_>) -> Option<Spot>
    ensures { result ≡ option_map (Spot.Inside described.now.opcode_start)
        (spec.unfit_opcode (value described.now.instruction_length)
        (map rows_view.opcode_row described.now.opcodes.items)) }
{
    inside(
        described.opcode_start,
        unfit_opcode(&described.opcodes, described.instruction_length),
    )
}

/// The first instruction whose register has no bit, or that captures what is not as long as its register.
fn instr_spot(described: &Description<'_>) -> Option<Spot>
    ensures { result ≡ option_map (Spot.Inside described.now.access_start)
        (spec.unfit_instr (value described.now.boundary_length)
        (map rows_view.access_row described.now.accesses.items)) }
{
    inside(
        described.access_start,
        unfit_instr(&described.accesses, described.boundary_length),
    )
}

/// The first instruction with an opcode that is not so long.
fn unfit_opcode(rows: &[OpcodeRow<'_>], len: Digits<'_>) -> Option<usize>
    ensures { result ≡ spec.unfit_opcode (value len.entry) (map rows_view.opcode_row rows.now) }
{
    unfit_by_size(rows, len.size())
}

fn unfit_by_size(rows: &[OpcodeRow<'_>], size: Option<usize>) -> Option<usize>
    ensures { (n : ℕ) → IsSize size n → result ≡ spec.unfit_opcode n (map rows_view.opcode_row rows.now) }
{
    for row in rows {
        if !all_have_len(&row.patterns, size) {
            return Some(row.name.start);
        }
    }
    None
}

/// Whether codes have 32 bits.
fn are_codes(patterns: &Patterns) -> bool
    ensures { result ≡ list_all (lengths.has_len 32) (rows_view.patterns patterns.now) }
{
    all_have_len(patterns, Some(32))
}

fn all_have_len(patterns: &Patterns, size: Option<usize>) -> bool
    ensures { (n : ℕ) → IsSize size n
        → result ≡ list_all (lengths.has_len n) (rows_view.patterns patterns.now) }
{
    for digits in patterns.iter() {
        if !has_len(digits, size) {
            return false;
        }
    }
    true
}

/// Whether a pattern of these digits is so long.
fn has_len(digits: &[u8], size: Option<usize>) -> bool
    ensures { (n : ℕ) → IsSize size n → result ≡ lengths.has_len n (pattern_of digits.now) }
{
    match size {
        Some(size) => digits.len() == size,
        None => false,
    }
}

/// Whether what the instruction register captures is so long.
fn capture_has_len(capture: &WrittenPattern, len: Digits<'_>) -> bool
    ensures { result ≡ lengths.has_len (value len.entry) (rows_view.pattern capture.now) }
{
    has_len(&capture.digits, len.size())
}

/// The first instruction whose register has no bit, or that captures what is not as long as its register, where the
/// boundary register is so long.
fn unfit_instr(rows: &[AccessRow<'_>], boundary: Digits<'_>) -> Option<usize>
    ensures { result ≡ spec.unfit_instr (value boundary.entry) (map rows_view.access_row rows.now) }
{
    unfit_instr_by_size(rows, boundary.size())
}

fn unfit_instr_by_size(rows: &[AccessRow<'_>], boundary: Option<usize>) -> Option<usize>
    ensures { (n : ℕ) → IsSize boundary n → result ≡ spec.unfit_instr n (map rows_view.access_row rows.now) }
{
    for row in rows {
        if let Some(start) = unfit_in_row(row, boundary) {
            return Some(start);
        }
    }
    None
}

fn unfit_in_row(row: &AccessRow<'_>, boundary: Option<usize>) -> Option<usize>
    ensures { (n : ℕ) → IsSize boundary n → result ≡ spec.unfit_in_row n (rows_view.access_row row.now) }
{
    unfit_among(&row.instrs, is_empty(row.len), row_size(row, boundary))
}

fn unfit_among(instrs: &[Instr<'_>], is_empty: bool, size: Option<usize>) -> Option<usize>
    ensures { (n : ℕ) → IsSize size n → result
        ≡ spec.unfit_among is_empty n (map rows_view.instr instrs.now) }
{
    for instr in instrs {
        if is_unfit(instr, is_empty, size) {
            return Some(instr.name.start);
        }
    }
    None
}

fn is_unfit(instr: &Instr<'_>, is_empty: bool, size: Option<usize>) -> bool
    ensures { (n : ℕ) → IsSize size n → result
        ≡ (is_empty || not (lengths.captures_fit n (rows_view.instr instr.now))) }
{
    is_empty || !capture_fits(instr, size)
}

fn is_empty(len: Option<Digits<'_>>) -> bool
    ensures { result ≡ (is_some (option_map value len.entry) && unwrap_or (option_map value len.entry) 0 == 0) }
{
    match len {
        Some(len) => len.up_to(1) == 0,
        None => false,
    }
}

/// The length of a row's register.
fn row_size(row: &AccessRow<'_>, boundary: Option<usize>) -> Option<usize>
    ensures { (n : ℕ) → IsSize boundary n → IsSize result (lengths.row_len n (rows_view.access_row row.now)) }
{
    match row.len {
        Some(len) => len.size(),
        None => {
            if same_name(row.register.text, b"BOUNDARY") {
                boundary
            } else if same_name(row.register.text, b"BYPASS") {
                Some(1)
            } else {
                Some(32)
            }
        }
    }
}

fn capture_fits(instr: &Instr<'_>, size: Option<usize>) -> bool
    ensures { (n : ℕ) → IsSize size n → result ≡ lengths.captures_fit n (rows_view.instr instr.now) }
{
    match &instr.captures {
        Some(pattern) => has_len(&pattern.digits, size),
        None => true,
    }
}
