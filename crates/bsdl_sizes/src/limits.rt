//! Of what a limit is passed.
ghost use Rattle.std.specs.Prelude.{◌≡◌, nat_le, map, not, option_map, unwrap_or, Some, []};
ghost use Rattle.jt_limits.specs.Limits.{limits};
ghost use Rattle.bsdl_text.specs.NumberView.{value};
ghost use Rattle.bsdl_text.specs.WordView.{word_lexeme};
ghost use Rattle.bsdl_values.specs.CellView.{cell_row};
ghost use Rattle.bsdl_values.specs.InstructionView as rows_view;
ghost use Rattle.bsdl_entity.specs.PortsView as ports_view;
ghost use Rattle.bsdl_description.specs.View.{description};
ghost use Rattle.bsdl_sizes.specs.Counting as counting;
ghost use Rattle.bsdl_sizes.specs.Limits as spec;

use crate::spots::{Spot, attribute_spot, first_spot, inside, outside, unless_fits};
use bsdl_description::Description;
use bsdl_entity::{Attribute, Group, Outline, Range};
use bsdl_text::{Digits, Word};
use bsdl_values::{AccessRow, CellRow, OpcodeRow};
use jt_limits::{ABOVE_SUBSCRIPTS, LIMITS, SUBSCRIPT_LIMIT};

const INSTRUCTION_BITS: usize = LIMITS.instruction_bits;

const INSTRUCTIONS: usize = LIMITS.instructions;

const CELLS: usize = LIMITS.cells;

const PORT_BITS: usize = LIMITS.port_bits;

const USER_REGISTER_BITS: usize = LIMITS.user_bits;

/// Of what a limit is passed, in the order of docs/bsdl.md.
pub(crate) fn limit_spot(outline: &Outline<'_>, described: &Description<'_>) -> Option<Spot>
    ensures { result ≡ spec.limit_spot (description outline.now described.now) }
{
    first_spot(&[
        unless_fits(
            is_at_most(described.instruction_length, INSTRUCTION_BITS),
            attribute_spot(outline, Attribute::InstructionLength),
        ),
        opcode_spot(described),
        unless_fits(
            is_at_most(described.boundary_length, CELLS),
            attribute_spot(outline, Attribute::BoundaryLength),
        ),
        unless_fits(
            cells_fit(described),
            attribute_spot(outline, Attribute::BoundaryRegister),
        ),
        port_spot(outline),
        instr_spot(described),
        attribute_spot(outline, Attribute::RegisterAccess),
    ])
}

fn is_at_most(number: Digits<'_>, most: usize) -> bool
    ensures { result ≡ nat_le (value number.entry) most }
{
    match number.size() {
        Some(size) => size <= most,
        None => false,
    }
}

/// The first instruction with an opcode that is one too many.
fn opcode_spot(described: &Description<'_>) -> Option<Spot>
    ensures { result ≡ option_map (Spot.Inside described.now.opcode_start)
        (spec.opcode_beyond (map rows_view.opcode_row described.now.opcodes.items)) }
{
    inside(described.opcode_start, opcode_beyond(&described.opcodes))
}

/// The first port with an index that is too large, or with which there are too many bits.
fn port_spot(outline: &Outline<'_>) -> Option<Spot>
    ensures { result ≡ option_map Spot.Outside
        (spec.port_beyond [] (ports_view.ports outline.now.groups.items)) }
{
    outside(port_beyond(&outline.groups))
}

/// The first instruction of the first row whose register has too many bits.
fn instr_spot(described: &Description<'_>) -> Option<Spot>
    ensures { result ≡ option_map (Spot.Inside described.now.access_start)
        (spec.long_register (map rows_view.access_row described.now.accesses.items)) }
{
    inside(described.access_start, long_register(&described.accesses))
}

/// Whether the numbers of cells keep their limit.
fn cells_fit(described: &Description<'_>) -> bool
    ensures { result ≡ spec.numbers_fit (map cell_row described.now.cells.items) }
{
    numbers_fit(&described.cells)
}

fn opcode_beyond(rows: &[OpcodeRow<'_>]) -> Option<usize>
    ensures { result ≡ spec.opcode_beyond (map rows_view.opcode_row rows.now) }
{
    match rows.get(INSTRUCTIONS) {
        Some(row) => Some(row.name.start),
        None => None,
    }
}

fn numbers_fit(rows: &[CellRow<'_>]) -> bool
    ensures { result ≡ spec.numbers_fit (map cell_row rows.now) }
{
    for row in rows {
        if !is_at_most(row.number, SUBSCRIPT_LIMIT) {
            return false;
        }
    }
    true
}

fn port_beyond(groups: &[Group<'_>]) -> Option<usize>
    ensures { result ≡ spec.port_beyond [] (ports_view.ports groups.now) }
{
    let mut left = PORT_BITS;
    for group in groups {
        match left_behind(group, left) {
            Ok(fewer) => left = fewer,
            Err(start) => return Some(start),
        }
    }
    None
}

/// How many of these bits a group of ports leaves, or its first port that is too large.
fn left_behind(group: &Group<'_>, most: usize) -> Result<usize, usize>
    ensures { result ≡ counting.left_behind most (ports_view.group group.now) }
{
    left_behind_names(&group.names, width_of(group.range), most)
}

/// The same of the names of a group whose ports have so many bits.
fn left_behind_names(names: &[Word<'_>], width: Option<usize>, most: usize) -> Result<usize, usize>
    ensures { result ≡ counting.names_behind most width (map word_lexeme names.now) }
{
    let mut left = most;
    for name in names {
        match bits_left(left, width) {
            Some(fewer) => left = fewer,
            None => return Err(name.start),
        }
    }
    Ok(left)
}

fn bits_left(most: usize, width: Option<usize>) -> Option<usize>
    ensures { result ≡ counting.bits_left most width }
{
    match width {
        Some(width) if width <= most => Some(most - width),
        _ => None,
    }
}

/// How many bits a port of this range has; none where an index is too large.
fn width_of(range: Option<Range<'_>>) -> Option<usize>
    ensures { result ≡ counting.width_within (option_map ports_view.range range.entry) }
{
    match range {
        Some(range) => bits_of_range(range),
        None => Some(1),
    }
}

fn bits_of_range(range: Range<'_>) -> Option<usize>
    ensures { result ≡ counting.width_within (Some (ports_view.range range.entry)) }
{
    if !is_at_most(range.high, SUBSCRIPT_LIMIT) {
        return None;
    }
    let high = range.high.up_to(ABOVE_SUBSCRIPTS);
    let low = range.low.up_to(ABOVE_SUBSCRIPTS);
    Some(high.saturating_sub(low) + 1)
}

fn long_register(rows: &[AccessRow<'_>]) -> Option<usize>
    ensures { result ≡ spec.long_register (map rows_view.access_row rows.now) }
{
    for row in rows {
        if is_long(row.len) {
            return first_instr(row);
        }
    }
    None
}

fn is_long(len: Option<Digits<'_>>) -> bool
    ensures { result ≡ not (nat_le (unwrap_or (option_map value len.entry) 0) limits.user_bits) }
{
    match len {
        Some(len) => !is_at_most(len, USER_REGISTER_BITS),
        None => false,
    }
}

fn first_instr(row: &AccessRow<'_>) -> Option<usize>
    ensures { result ≡ spec.first_start (rows_view.access_row row.now).instrs }
{
    match row.instrs.get(0) {
        Some(instr) => Some(instr.name.start),
        None => None,
    }
}
