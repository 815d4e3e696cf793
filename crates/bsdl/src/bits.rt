//! The numbers of port bits.
ghost use Rattle.std.specs.Prelude.{◌≡◌, ◌+◌, ◌++◌, ◌∷◌, [], List, Some, option_map, unwrap_or};
ghost use Rattle.std.specs.Prelude.{slice_get, IfOk, OnOk};
ghost use Rattle.bsdl_text.specs.NumberView.{value};
ghost use Rattle.bsdl_entity.specs.Ports as port_list;
ghost use Rattle.bsdl_entity.specs.PortsView as ports_view;
ghost use Rattle.bsdl_lookup.specs.View.{numbered_port as port_view};
ghost use Rattle.bsdl_entity.specs.PortBits.{bit_at, width};
ghost use Rattle.bsdl.specs.Bits.{firsts};

use crate::ports::size_of;
use bsdl_entity::{Group, Range};
use bsdl_lookup::NumberedPort;
use bsdl_text::Digits;
use std::alloc::{AllocError, Global};

/// The number of the first bit of each port so far, and that of the next.
#[derive(Debug, Drop)]
struct Firsts {
    bits: Vec<usize>,
    next: usize,
}

/// The numbers of the first bits of ports. Refuses for want of memory, and where a number is 2^64 or more, which
/// nothing that is judged has.
pub(crate) fn firsts_of(alloc: Global, groups: &[Group<'_>]) -> Result<Vec<usize>, AllocError>
    ensures { IfOk result (λ bits. bits.items ≡ firsts 0 (ports_view.ports groups.now)) }
{
    let mut all = Firsts {
        bits: Vec::new(alloc),
        next: 0,
    };
    for group in groups {
        add_group(&mut all, group)?;
    }
    Ok(all.bits)
}

fn add_group(all: &mut Firsts, group: &Group<'_>) -> Result<(), AllocError>
    ensures { OnOk result ((more : List port_list.Port) → all.new.bits.items ++ firsts all.new.next more
        ≡ all.old.bits.items ++ firsts all.old.next (ports_view.group group.now ++ more)) }
{
    let width = width_of(group.range)?;
    for _name in &group.names {
        add_port(all, width)?;
    }
    Ok(())
}

fn add_port(all: &mut Firsts, width: usize) -> Result<(), AllocError>
    ensures bits { OnOk result (all.new.bits.items ≡ all.old.bits.items ++ all.old.next ∷ []) }
    ensures next { OnOk result (all.new.next ≡ all.old.next + width) }
{
    let first = all.next;
    all.next = first.checked_add(width).ok_or(AllocError)?;
    all.bits.push(first)?;
    Ok(())
}

fn width_of(range: Option<Range<'_>>) -> Result<usize, AllocError>
    ensures { IfOk result (λ w. w ≡ width (option_map ports_view.range range.entry)) }
{
    match range {
        Some(range) => {
            let low = size_of(range.low)?;
            let high = size_of(range.high)?;
            high.saturating_sub(low).checked_add(1).ok_or(AllocError)
        }
        None => Ok(1),
    }
}

/// The number of the bit of a port that an index names, where the port has it. Refuses where a number is 2^64 or more,
/// which nothing that is judged has.
pub(crate) fn bit_in(
    port: NumberedPort<'_>,
    bits: &[usize],
    index: Option<Digits<'_>>,
) -> Result<Option<usize>, AllocError>
    ensures { IfOk result (λ o. o ≡ option_map (λ k. unwrap_or (slice_get bits.now (port_view port.entry).0) 0 + k)
        (bit_at (port_view port.entry).1 (option_map value index.entry))) }
{
    let first = first_bit(bits, port.number);
    match offset(port.range, index)? {
        Some(offset) => {
            let number = first.checked_add(offset).ok_or(AllocError)?;
            Ok(Some(number))
        }
        None => Ok(None),
    }
}

fn first_bit(bits: &[usize], port: usize) -> usize
    ensures { result ≡ unwrap_or (slice_get bits.now port) 0 }
{
    if port < bits.len() { bits[port] } else { 0 }
}

/// The place of an index among a port's bits.
fn offset(range: Option<Range<'_>>, index: Option<Digits<'_>>) -> Result<Option<usize>, AllocError>
    ensures { IfOk result (λ o. o ≡ bit_at (option_map ports_view.range range.entry) (option_map value index.entry)) }
{
    match (range, index) {
        (None, None) => Ok(Some(0)),
        (Some(range), Some(index)) => {
            let low = size_of(range.low)?;
            let high = size_of(range.high)?;
            let index = size_of(index)?;
            Ok(offset_in(low, high, index))
        }
        _ => Ok(None),
    }
}

fn offset_in(low: usize, high: usize, index: usize) -> Option<usize>
    ensures { result ≡ bit_at (Some (record { low = low; high = high })) (Some index) }
{
    if low <= index && index <= high {
        Some(index - low)
    } else {
        None
    }
}
