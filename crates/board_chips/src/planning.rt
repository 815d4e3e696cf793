//! The strings of a plan, each with the net of its source and the pin that takes its core bit.

ghost use Rattle.std.specs.Prelude.{◌≡◌, ◌<◌, ◌+◌, ◌++◌, List, Some, length, map, slice_get, All, IfOk, OnOk};
ghost use Rattle.board_plan.specs.AllCellNets.{lists_of};
ghost use Rattle.board_plan.specs.CellNets.{net_by};
ghost use Rattle.board_plan.specs.Planned.{all_pins};
ghost use Rattle.board_plan.specs.View.{member as planned_member, net as planned_net};
ghost use Rattle.board_chips.specs.Planning.{HaveNumbers, IsReadyForStrings, port_at, string_by, strings_of};
ghost use Rattle.board_chips.specs.Strings.{AreStrung, placed_of};

use crate::strings::WiredString;
use board_plan::{PlannedDevice, PlannedNet, all_port_nets, enter_pin, no_nets};
use bsdl_device::Cell;
use pin_nets::{Follow, Pin};
use std::alloc::{AllocError, Global};

/// The strings of a plan in an order, each wired. The order has their places among all strings, by devices and then
/// strings. Refused where memory runs out.
pub fn wired_strings(
    alloc: Global,
    devices: &[PlannedDevice],
    nets: &[PlannedNet],
    order: &[usize],
) -> Result<Vec<WiredString>, AllocError>
    requires ready { IsReadyForStrings (record {
      members = map planned_member devices.now;
      nets = map planned_net nets.now;
    }) }
    requires order { All (λ k. k < length (strings_of (map planned_member devices.now))) order.now }
    ensures strung { IfOk result (λ v. AreStrung (map planned_net nets.now)
        (map (λ m. m.device.cells) (map planned_member devices.now)) v.items) }
    ensures placed { IfOk result (λ v. map (λ s. Some (placed_of s)) v.items
        ≡ map (slice_get (strings_of (map planned_member devices.now))) order.now) }
{
    let mut strings = Vec::with_capacity(alloc, order.len())?;
    if order.is_empty() {
        return Ok(strings);
    }
    let all = all_strings(alloc, devices, nets)?;
    for place in order {
        strings.push(all[*place])?;
    }
    Ok(strings)
}

/// The strings of a plan, by devices and then strings, each wired.
fn all_strings(
    alloc: Global,
    devices: &[PlannedDevice],
    nets: &[PlannedNet],
) -> Result<Vec<WiredString>, AllocError>
    requires { IsReadyForStrings (record {
      members = map planned_member devices.now;
      nets = map planned_net nets.now;
    }) }
    ensures strung { IfOk result (λ v. AreStrung (map planned_net nets.now)
        (map (λ m. m.device.cells) (map planned_member devices.now)) v.items) }
    ensures placed { IfOk result (λ v. map placed_of v.items ≡ strings_of (map planned_member devices.now)) }
{
    let pins = pins_of(alloc, nets)?;
    let numbers = pin_numbers(alloc, &pins, devices)?;
    let tables = all_port_nets(alloc, nets, devices)?;
    let mut all = Vec::new(alloc);
    for (place, device) in devices.iter().enumerate() {
        let cells = device.device.get().cells();
        add_strings(
            &mut all,
            place,
            cells,
            &tables[place],
            &numbers[place],
            &device.follows,
        )?;
    }
    Ok(all)
}

/// The pins of all nets, one net after another.
fn pins_of(alloc: Global, nets: &[PlannedNet]) -> Result<Vec<Pin>, AllocError>
    ensures { IfOk result (λ v. v.items ≡ all_pins (map planned_net nets.now)) }
{
    let mut pins = Vec::new(alloc);
    for net in nets {
        pins.extend_from_slice(&net.pins)?;
    }
    Ok(pins)
}

/// Of each port bit of each device its pin, by its number: the device nearest the board's TDO first, of each port bit 0
/// first. The pins are gone through once, however many devices there are.
fn pin_numbers(
    alloc: Global,
    pins: &[Pin],
    devices: &[PlannedDevice],
) -> Result<Vec<Vec<Option<usize>>>, AllocError>
    ensures { IfOk result (λ v. HaveNumbers (map planned_member devices.now) pins.now (length pins.now)
        (lists_of v.items)) }
{
    let mut tables = no_nets(alloc, devices)?;
    for (number, pin) in pins.iter().enumerate() {
        enter_pin(&mut tables, number, *pin);
    }
    Ok(tables)
}

/// Adds the strings of the device at a place, given of its port bits their nets and the numbers of their pins.
fn add_strings(
    all: &mut Vec<WiredString>,
    place: usize,
    cells: &[Cell],
    nets: &[Option<usize>],
    pins: &[Option<usize>],
    strings: &[Follow],
) -> Result<(), AllocError>
    ensures { OnOk result (all.new.items
        ≡ all.old.items ++ map (string_by place cells.now nets.now pins.now) strings.now) }
{
    for string in strings {
        all.push(wired_string(place, cells, nets, pins, *string))?;
    }
    Ok(())
}

/// A string of the device at a place.
fn wired_string(
    place: usize,
    cells: &[Cell],
    nets: &[Option<usize>],
    pins: &[Option<usize>],
    string: Follow,
) -> WiredString
    ensures { result ≡ string_by place cells.now nets.now pins.now string }
{
    WiredString {
        device: place,
        cell: string.cell,
        source: string.source,
        inverted: string.inverted,
        net: entry(nets, Some(string.source)),
        pin: entry(pins, port_of(cells, string.cell)),
    }
}

/// What a table has of a port bit.
fn entry(table: &[Option<usize>], port: Option<usize>) -> Option<usize>
    ensures { result ≡ net_by table.now port }
{
    match port {
        Some(port) if port < table.len() => table[port],
        _ => None,
    }
}

/// The port bit that a cell is at.
fn port_of(cells: &[Cell], cell: usize) -> Option<usize>
    ensures { result ≡ port_at cells.now cell }
{
    match cells.get(cell) {
        Some(cell) => cell.port,
        None => None,
    }
}
