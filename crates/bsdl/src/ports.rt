//! The ports of a device, bit by bit.
ghost use Rattle.std.specs.Prelude.{◌≡◌, ◌<◌, ◌≤◌, ◌+◌, ◌-◌, ◌^◌, ◌++◌, option_map, IfOk, IfErr, IfSome};
ghost use Rattle.std.specs.List.{flat_map};
ghost use Rattle.bsdl_device.specs.View.{pair};
ghost use Rattle.bsdl_device.specs.Ports.{bits_of};
ghost use Rattle.bsdl_text.specs.Words.{upper};
ghost use Rattle.bsdl_text.specs.NumberView.{value};
ghost use Rattle.bsdl_entity.specs.PortsView as ports_view;
ghost use Rattle.bsdl_text.specs.Words.{is_among};
ghost use Rattle.bsdl_description.specs.View.{taps as taps_view};
ghost use Rattle.bsdl.specs.Boundary as spec;

use bsdl_description::{Taps, names_tap};
use bsdl_device::{Indices, Port, PortMode, Ports};
use bsdl_entity::{Group, Range};
use bsdl_text::{Digits, Word};
use std::alloc::{AllocError, Global};

/// The ports of an entity. Refuses for want of memory, and where a number is 2^64 or more, which nothing that is judged
/// has.
pub(crate) fn ports_of(
    alloc: Global,
    taps: &Taps<'_>,
    groups: &[Group<'_>],
) -> Result<Ports, AllocError>
    ensures { IfOk result (λ p. p ≡ flat_map (spec.port_bits (taps_view taps.now)) (ports_view.ports groups.now)) }
{
    let mut ports = Ports::new(alloc);
    for group in groups {
        ports = with_group(alloc, ports, taps, group)?;
    }
    Ok(ports)
}

fn with_group(
    alloc: Global,
    ports: Ports,
    taps: &Taps<'_>,
    group: &Group<'_>,
) -> Result<Ports, AllocError>
    ensures { IfOk result (λ p. p ≡ ports ++ flat_map (spec.port_bits (taps_view taps.now))
        (ports_view.group group.now)) }
{
    let indices = indices_of(group.range)?;
    let mut ports = ports;
    for name in &group.names {
        ports = with_port(alloc, ports, taps, *name, group.mode, indices)?;
    }
    Ok(ports)
}

fn with_port(
    alloc: Global,
    ports: Ports,
    taps: &Taps<'_>,
    name: Word<'_>,
    mode: PortMode,
    indices: Option<Indices>,
) -> Result<Ports, AllocError>
    requires { IfSome indices (λ i. i.low + i.len < 2 ^ 64) }
    ensures { IfOk result (λ p. p ≡ ports ++ bits_of (upper name.entry.text.now) mode
        (is_among (taps_view taps.now) (upper name.entry.text.now)) (option_map pair indices)) }
{
    let is_tap = names_tap(taps, name.text);
    let name = name.upper_name(alloc)?;
    ports.with(Port { name, mode, is_tap }, indices)
}

/// The indices of a port. Numbers from 2^64 on, which no port that is judged has, count as want of memory.
fn indices_of(range: Option<Range<'_>>) -> Result<Option<Indices>, AllocError>
    ensures fits { IfOk result (λ o. IfSome o (λ i. i.low + i.len < 2 ^ 64)) }
    ensures indices { IfOk result (λ o. option_map pair o
        ≡ option_map (λ r. (r.low, r.high - r.low + 1)) (option_map ports_view.range range.entry)) }
{
    let Some(range) = range else {
        return Ok(None);
    };
    let low = size_of(range.low)?;
    let high = size_of(range.high)?;
    let len = high.saturating_sub(low).checked_add(1).ok_or(AllocError)?;
    if low.checked_add(len).is_none() {
        return Err(AllocError);
    }
    Ok(Some(Indices { low, len }))
}

/// A number below 2^64; a larger one, which nothing that is judged has, counts as want of memory.
pub(crate) fn size_of(number: Digits<'_>) -> Result<usize, AllocError>
    ensures value { IfOk result (λ n. n ≡ value number.entry) }
    ensures large { IfErr result (λ e. 2 ^ 64 ≤ value number.entry) }
{
    match number.size() {
        Some(size) => Ok(size),
        None => Err(AllocError),
    }
}
