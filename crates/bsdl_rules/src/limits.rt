//! The limits of a description.
ghost use Rattle.std.specs.Prelude.{◌≡◌, ◌+◌, ◌&&◌, map, min, nat_le, length, option_map, ◌≤◌, suc};
ghost use Rattle.std.specs.List.{list_all, sum_by};
ghost use Rattle.jt_limits.specs.Limits.{limits, subscript_limit};
ghost use Rattle.bsdl_text.specs.NumberView.{value};
ghost use Rattle.bsdl_values.specs.CellView.{cell_row};
ghost use Rattle.bsdl_entity.specs.declared.entity.Outline as declared_outline;
ghost use Rattle.bsdl_entity.specs.PortsView as ports_view;
ghost use Rattle.bsdl_description.specs.View.{description};
ghost use Rattle.bsdl_rules.specs.Limits as spec;
ghost use Rattle.bsdl_entity.specs.PortBits.{highest};
ghost use Rattle.bsdl_opcodes.specs.Users.{users_of};
ghost use Rattle.bsdl_opcodes.specs.UserView.{Lists};
ghost use Rattle.bsdl_rules.specs.Widths.{capped_width};

use bsdl_description::Description;
use bsdl_entity::{Group, Outline, Range};
use bsdl_opcodes::Users;
use bsdl_text::Digits;
use bsdl_values::CellRow;
use jt_limits::{ABOVE_SUBSCRIPTS, LIMITS, SUBSCRIPT_LIMIT};

/// The bits of an instruction, at most.
const INSTRUCTION_BITS: usize = LIMITS.instruction_bits;

/// The instructions that have opcodes, at most.
const INSTRUCTIONS: usize = LIMITS.instructions;

/// The cells of the boundary register, at most.
const CELLS: usize = LIMITS.cells;

/// The bits of ports, at most.
const PORT_BITS: usize = LIMITS.port_bits;

/// One bit too many: no more of them are counted.
const ABOVE_PORT_BITS: usize = LIMITS.port_bits + 1;

/// The registers of the device's own, at most.
const USER_REGISTERS: usize = LIMITS.user_registers;

/// The bits of a register of the device's own, at most.
const USER_REGISTER_BITS: usize = LIMITS.user_bits;

/// Whether a description keeps the limits: instructions of 64 bits, 256 of them; 4,096 cells; 8,192 port bits; 64
/// registers of the device's own with 4,096 bits; indices and numbers of cells up to 65,535.
pub fn is_within_limits(
    outline: &Outline<'_>,
    described: &Description<'_>,
    users: &Users<'_>,
) -> bool
    requires { Lists users.now (users_of (description outline.now described.now).accesses) }
    ensures { result ≡ spec.is_within_limits (description outline.now described.now) }
{
    if !instructions_within(described) {
        return false;
    }
    if !cells_within(described) {
        return false;
    }
    if !ports_within(&outline.groups) {
        return false;
    }
    users_within(&users.lengths)
}

fn instructions_within(described: &Description<'_>) -> bool
    ensures { (o : declared_outline.Outline) → result ≡ spec.instructions_within (description o described.now) }
{
    is_at_most(described.instruction_length, INSTRUCTION_BITS)
        && described.opcodes.len() <= INSTRUCTIONS
}

fn is_at_most(number: Digits<'_>, most: usize) -> bool
    ensures { result ≡ nat_le (value number.entry) most }
{
    match number.size() {
        Some(size) => size <= most,
        None => false,
    }
}

fn cells_within(described: &Description<'_>) -> bool
    ensures { (o : declared_outline.Outline) → result ≡ spec.cells_within (description o described.now) }
{
    is_at_most(described.boundary_length, CELLS) && numbers_within(&described.cells)
}

fn numbers_within(rows: &[CellRow<'_>]) -> bool
    ensures { result ≡ list_all (λ r. nat_le r.number subscript_limit) (map cell_row rows.now) }
{
    for row in rows {
        if !is_at_most(row.number, SUBSCRIPT_LIMIT) {
            return false;
        }
    }
    true
}

fn ports_within(groups: &[Group<'_>]) -> bool
    ensures { result ≡ spec.ports_fit (ports_view.ports groups.now) }
{
    few_bits(groups)
}

fn few_bits(groups: &[Group<'_>]) -> bool
    ensures { result ≡ (list_all (λ p. nat_le (highest p.range) subscript_limit) (ports_view.ports groups.now)
        && nat_le (sum_by (λ p. capped_width p.range) (ports_view.ports groups.now)) limits.port_bits) }
{
    highs_within(groups) && bit_count(groups) <= PORT_BITS
}

fn highs_within(groups: &[Group<'_>]) -> bool
    ensures { result ≡ list_all (λ p. nat_le (highest p.range) subscript_limit) (ports_view.ports groups.now) }
{
    for group in groups {
        if !high_within(group) {
            return false;
        }
    }
    true
}

/// Whether no index of a group's ports is above 65,535.
fn high_within(group: &Group<'_>) -> bool
    ensures { result ≡ list_all (λ p. nat_le (highest p.range) subscript_limit) (ports_view.group group.now) }
{
    group.names.is_empty() || is_range_within(group.range)
}

fn is_range_within(range: Option<Range<'_>>) -> bool
    ensures { result ≡ nat_le (highest (option_map ports_view.range range.entry)) subscript_limit }
{
    match range {
        Some(range) => is_at_most(range.high, SUBSCRIPT_LIMIT),
        None => true,
    }
}

/// How many port bits there are, at most one too many, where no index is above 65,535.
fn bit_count(groups: &[Group<'_>]) -> usize
    ensures { result ≡ min (sum_by (λ p. capped_width p.range) (ports_view.ports groups.now)) (suc limits.port_bits) }
{
    let mut count = 0;
    for group in groups {
        count = with_group(count, group);
    }
    count
}

/// With the port bits of a group, at most one too many.
fn with_group(before: usize, group: &Group<'_>) -> usize
    requires { before ≤ suc limits.port_bits }
    ensures { result ≡ min (before + sum_by (λ p. capped_width p.range) (ports_view.group group.now))
        (suc limits.port_bits) }
{
    let bits = width_of(group.range).saturating_mul(group.names.len());
    before.saturating_add(bits).min(ABOVE_PORT_BITS)
}

/// How many bits a port of this range has, where no index is above 65,535.
fn width_of(range: Option<Range<'_>>) -> usize
    ensures within { result ≤ suc (suc subscript_limit) }
    ensures width { result ≡ capped_width (option_map ports_view.range range.entry) }
{
    match range {
        Some(range) => {
            let high = range.high.up_to(ABOVE_SUBSCRIPTS);
            let low = range.low.up_to(ABOVE_SUBSCRIPTS);
            high.saturating_sub(low) + 1
        }
        None => 1,
    }
}

fn users_within(lengths: &[Digits<'_>]) -> bool
    ensures { result ≡ (nat_le (length lengths.now) limits.user_registers
        && list_all (λ n. nat_le n limits.user_bits) (map value lengths.now)) }
{
    lengths.len() <= USER_REGISTERS && are_lengths_within(lengths)
}

fn are_lengths_within(lengths: &[Digits<'_>]) -> bool
    ensures { result ≡ list_all (λ n. nat_le n limits.user_bits) (map value lengths.now) }
{
    for length in lengths {
        if !is_at_most(*length, USER_REGISTER_BITS) {
            return false;
        }
    }
    true
}
