//! The instruction that a reset loads.
ghost use Rattle.std.specs.Prelude.{◌≡◌, ◌==◌, map, reverse, option_map, option_and_then, unwrap_or, []};
ghost use Rattle.bsdl_device.specs.Opcodes.{x_as_0};
ghost use Rattle.std.specs.Prelude.{bytes_eq, codes, slice_get, false};
ghost use Rattle.std.specs.List.{list_all, find};
ghost use Rattle.bsdl_device.specs.Device as device;
ghost use Rattle.bsdl_device.specs.Opcodes as opcodes;
ghost use Rattle.bsdl_values.specs.InstructionValues.{bit, one_digit, pattern_of};
ghost use Rattle.bsdl_values.specs.InstructionView as rows_view;
ghost use Rattle.bsdl_opcodes.specs.ResetOpcode as spec;

use bsdl_text::same_name;
use bsdl_values::OpcodeRow;

/// Whether the opcode that a reset loads, if there is one, names IDCODE.
pub fn resets_to_idcode(rows: &[OpcodeRow<'_>]) -> bool
    ensures { result ≡ spec.resets_to_idcode (map spec.opcode (map rows_view.opcode_row rows.now)) }
{
    match reset_pattern(rows) {
        Some(digits) => names_idcode(rows, digits),
        None => true,
    }
}

/// The first opcode of IDCODE, by its digits.
#[tactic(auto, using(crate::proofs::FirstLaws::first_seen))]
fn reset_pattern<'r>(rows: &'r [OpcodeRow<'_>]) -> Option<&'r [u8]>
    ensures { option_map {U = device.Pattern} (λ digits. pattern_of digits.now) result
        ≡ option_and_then (λ o. slice_get o.patterns 0)
        (find (λ o. bytes_eq (codes "IDCODE") o.name) (map spec.opcode (map rows_view.opcode_row rows.now))) }
{
    match idcode_row(rows) {
        Some(row) => row.patterns.first(),
        None => None,
    }
}

/// The first row of IDCODE.
fn idcode_row<'r, 't>(rows: &'r [OpcodeRow<'t>]) -> Option<&'r OpcodeRow<'t>>
    ensures { option_map {U = device.Opcode} (λ row. spec.opcode (rows_view.opcode_row row.now)) result
        ≡ find (λ o. bytes_eq (codes "IDCODE") o.name) (map spec.opcode (map rows_view.opcode_row rows.now)) }
{
    for row in rows {
        if same_name(b"IDCODE", row.name.text) {
            return Some(row);
        }
    }
    None
}

/// Whether an opcode, by its digits with X as 0, names IDCODE.
fn names_idcode(rows: &[OpcodeRow<'_>], latch: &[u8]) -> bool
    ensures { result ≡ bytes_eq (unwrap_or (opcodes.named_instruction
        (map spec.opcode (map rows_view.opcode_row rows.now))
        (x_as_0 (reverse (map bit latch.now)))) []) (codes "IDCODE") }
{
    if are_ones(latch) {
        return false;
    }
    for row in rows {
        if is_named(row, latch) {
            return same_name(row.name.text, b"IDCODE");
        }
    }
    false
}

#[tactic(auto, using(crate::proofs::MatchLaws::ones_reversed))]
fn are_ones(latch: &[u8]) -> bool
    ensures { result ≡ list_all (λ b. b) (x_as_0 (reverse (map bit latch.now))) }
{
    are_all_ones(latch)
}

fn are_all_ones(latch: &[u8]) -> bool
    ensures { result ≡ list_all (λ d. d == one_digit) latch.now }
{
    latch.iter().all(|digit| *digit == b'1')
}

/// Whether a row has a pattern that matches an opcode.
fn is_named(row: &OpcodeRow<'_>, latch: &[u8]) -> bool
    ensures { result ≡ opcodes.names_it (x_as_0 (reverse (map bit latch.now)))
        (spec.opcode (rows_view.opcode_row row.now)) }
{
    for digits in row.patterns.iter() {
        if is_match(digits, latch) {
            return true;
        }
    }
    false
}

/// Whether a pattern matches an opcode of its own length, an X either bit.
fn is_match(pattern: &[u8], latch: &[u8]) -> bool
    ensures { result ≡ opcodes.matches (reverse (map bit pattern.now)) (x_as_0 (reverse (map bit latch.now))) }
{
    digits_match(pattern, latch)
}

fn digits_match(pattern: &[u8], latch: &[u8]) -> bool
    ensures { result ≡ opcodes.matches (map bit pattern.now) (x_as_0 (map bit latch.now)) }
{
    if pattern.len() != latch.len() {
        return false;
    }
    for i in 0..pattern.len() {
        if !digit_matches(pattern[i], latch[i]) {
            return false;
        }
    }
    true
}

fn digit_matches(digit: u8, latched: u8) -> bool
    ensures { result ≡ opcodes.matches_bit (bit digit) (unwrap_or (bit latched) false) }
{
    match digit {
        b'0' => latched != b'1',
        b'1' => latched == b'1',
        _ => true,
    }
}
