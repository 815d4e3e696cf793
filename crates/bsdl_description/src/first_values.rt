//! What the first giving of each attribute says.
ghost use Rattle.std.specs.Prelude.{◌≡◌, ◌<◌, ℕ, List, false, length, map, option_map, position, IfOk, IfSome, OnOk};
ghost use Rattle.bsdl_text.specs.NumberView.{value as number_value};
ghost use Rattle.bsdl_text.specs.Words.{upper};
ghost use Rattle.bsdl_values.specs.CellRows as cell_rows;
ghost use Rattle.bsdl_values.specs.CellView as cells_view;
ghost use Rattle.bsdl_values.specs.InstructionValues as rows;
ghost use Rattle.bsdl_values.specs.InstructionView as rows_view;
ghost use Rattle.bsdl_values.specs.Values as values;
ghost use Rattle.bsdl_values.specs.View.{value as value_view};
ghost use Rattle.bsdl_description.specs.FirstValues as spec;
ghost use Rattle.bsdl_description.specs.FirstView.{AreFirst, kept, with_first};

use bsdl_entity::{Attribute, Given};
use bsdl_text::{Digits, Word};
use bsdl_values::{
    AccessRow, CellRow, OpcodeRow, Patterns, PrivateName, Value, WrittenPattern, said,
};
use std::alloc::{AllocError, Global};

/// What the first giving of an attribute says.
#[derive(Debug, Drop)]
pub(crate) struct FirstValue<'a> {
    pub attribute: Attribute,
    pub value: Value<'a>,
}

/// What the first giving of each attribute says, or the first quote of the first text that says nothing, of whatever
/// giving. Of a later giving nothing is kept. Refuses for want of memory alone.
pub(crate) fn first_values<'o, 't: 'o>(
    alloc: Global,
    given: &'o [Given<'t>],
) -> Result<Result<Vec<FirstValue<'o>>, usize>, AllocError>
    ensures { IfOk result (λ found. AreFirst found given.now) }
{
    let mut firsts = Vec::new(alloc);
    for giving in given {
        match said(alloc, &giving.value)? {
            Ok(value) => keep_first(&mut firsts, giving.attribute, value)?,
            Err(place) => return Ok(Err(place)),
        }
    }
    Ok(Ok(firsts))
}

/// Keeps what an attribute says, unless it was given before.
fn keep_first<'o>(
    firsts: &mut Vec<FirstValue<'o>>,
    attribute: Attribute,
    value: Value<'o>,
) -> Result<(), AllocError>
    ensures { OnOk result (firsts.new.items ≡ with_first attribute value.entry firsts.old.items) }
{
    if value_of(firsts, attribute).is_none() {
        firsts.push(FirstValue { attribute, value })?;
    }
    Ok(())
}

/// Whether two attributes are the same.
fn is_attribute(one: Attribute, other: Attribute) -> bool
    ensures { result ≡ spec.is_attribute one other }
{
    one == other
}

/// What the first giving of an attribute says.
fn value_of<'s, 'o>(firsts: &'s [FirstValue<'o>], attribute: Attribute) -> Option<&'s Value<'o>>
    ensures { option_map {U = values.Value} (λ v. value_view v.now) result ≡ kept firsts.now attribute }
{
    for first in firsts {
        if is_attribute(attribute, first.attribute) {
            return Some(&first.value);
        }
    }
    None
}

/// The port of the TAP that an attribute names.
pub(crate) fn port_of<'o>(firsts: &[FirstValue<'o>], attribute: Attribute) -> Option<Word<'o>>
    ensures { option_map (λ w. upper w.text.now) result ≡ spec.as_port (kept firsts.now attribute) }
{
    match value_of(firsts, attribute) {
        Some(Value::Port(name)) => Some(*name),
        _ => None,
    }
}

/// The length that an attribute says.
pub(crate) fn count_of<'o>(firsts: &[FirstValue<'o>], attribute: Attribute) -> Option<Digits<'o>>
    ensures { option_map number_value result ≡ spec.as_count (kept firsts.now attribute) }
{
    match value_of(firsts, attribute) {
        Some(Value::Count(count)) => Some(*count),
        _ => None,
    }
}

/// Takes out what the first giving of an attribute says.
pub(crate) fn take<'o>(firsts: &mut Vec<FirstValue<'o>>, attribute: Attribute) -> Option<Value<'o>>
    ensures value { option_map value_view result ≡ kept firsts.old.items attribute }
    ensures others { (a : Attribute) → spec.is_attribute a attribute ≡ false
        → kept firsts.new.items a ≡ kept firsts.old.items a }
{
    let place = place_of(firsts, attribute)?;
    Some(firsts.remove(place).value)
}

fn place_of(firsts: &[FirstValue<'_>], attribute: Attribute) -> Option<usize>
    ensures place { result ≡ position (λ f. spec.is_attribute attribute f.attribute) firsts.now }
    ensures within { IfSome result (λ place. place < length firsts.now) }
{
    firsts
        .iter()
        .position(|first| is_attribute(attribute, first.attribute))
}

/// The opcodes, and where their text begins.
pub(crate) fn opcodes_in<'o>(value: Option<Value<'o>>) -> Option<(usize, Vec<OpcodeRow<'o>>)>
    ensures { option_map {U = ℕ × List rows.OpcodeRow} (λ p. (p.0, map rows_view.opcode_row p.1.items)) result
        ≡ spec.as_opcodes (option_map value_view value.entry) }
{
    match value {
        Some(Value::Opcodes(start, rows)) => Some((start, rows)),
        _ => None,
    }
}

/// What the instruction register captures.
pub(crate) fn capture_in(value: Option<Value<'_>>) -> Option<WrittenPattern>
    ensures { option_map rows_view.pattern result ≡ spec.as_pattern (option_map value_view value.entry) }
{
    match value {
        Some(Value::Capture(pattern)) => Some(pattern),
        _ => None,
    }
}

/// The rows of the boundary register.
pub(crate) fn cells_in<'o>(value: Option<Value<'o>>) -> Option<Vec<CellRow<'o>>>
    ensures { option_map {U = List cell_rows.CellRow} (λ v. map cells_view.cell_row v.items) result
        ≡ spec.as_cells (option_map value_view value.entry) }
{
    match value {
        Some(Value::Cells(rows)) => Some(rows),
        _ => None,
    }
}

/// The patterns of a code register; none where it is not given.
pub(crate) fn codes_in(alloc: Global, value: Option<Value<'_>>) -> Patterns
    ensures { rows_view.patterns result ≡ spec.as_codes (option_map value_view value.entry) }
{
    match value {
        Some(Value::Codes(patterns)) => patterns,
        _ => Patterns::new(alloc),
    }
}

/// The names of the private instructions; none where they are not given.
pub(crate) fn names_in<'o>(alloc: Global, value: Option<Value<'o>>) -> Vec<PrivateName<'o>>
    ensures { map rows_view.private_name result.items ≡ spec.as_names (option_map value_view value.entry) }
{
    match value {
        Some(Value::PrivateNames(names)) => names,
        _ => Vec::new(alloc),
    }
}

/// The registers, and where their text begins; none at place 0 where they are not given.
pub(crate) fn accesses_in<'o>(
    alloc: Global,
    value: Option<Value<'o>>,
) -> (usize, Vec<AccessRow<'o>>)
    ensures { (result.0, map rows_view.access_row result.1.items)
        ≡ spec.as_accesses (option_map value_view value.entry) }
{
    match value {
        Some(Value::Accesses(start, rows)) => (start, rows),
        _ => (0, Vec::new(alloc)),
    }
}
