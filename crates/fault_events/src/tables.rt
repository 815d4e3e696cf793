//! The pins of a board's nets by numbers, net after net.
ghost use Rattle.std.specs.Prelude.{◌≡◌, ◌≢◌, ◌++◌, map, IfOk, OnOk};
ghost use Rattle.std.specs.List.{AllByRecursion, AllPairs};
ghost use Rattle.board_plan.specs.Planned.{IsPinOf, all_pins};
ghost use Rattle.board_plan.specs.View.{member as planned_member, net as planned_net};
ghost use Rattle.pin_nets.specs.declared.Pin.{Pin as ThePin};
ghost use Rattle.fault_events.specs.Drives.{AreDriverTables, HasDrivers, wire_in};
ghost use Rattle.fault_events.specs.Tables.{AreNumbered, entered, table_of, tables_of, with_pin};
ghost use Rattle.fault_events.specs.Blocks.{starts_of};

use crate::drives::PinWire;
use crate::numbers::number_at;
use board_plan::{PlannedDevice, PlannedNet};
use boundary::drivers;
use pin_nets::Pin;
use std::alloc::{AllocError, Global};

/// The pins of a board's nets: a pin's number is its place here. Beside them of each port bit of each device the number
/// of its pin, and of each pin the cell that drives it.
#[derive(Drop)]
pub(crate) struct PinNumbers {
    pub(crate) pins: Vec<Pin>,
    pub(crate) tables: Vec<Vec<Option<usize>>>,
    pub(crate) wires: Vec<PinWire>,
}

/// Numbers the pins of nets, net after net. Refused where memory runs out.
pub(crate) fn number_pins(
    alloc: Global,
    devices: &[PlannedDevice],
    nets: &[PlannedNet],
) -> Result<PinNumbers, AllocError>
    requires apart { AllPairs (λ (p q : ThePin). p ≢ q) (all_pins (map planned_net nets.now)) }
    requires ports { AllByRecursion (IsPinOf (map planned_member devices.now)) (all_pins (map planned_net nets.now)) }
    ensures pins { IfOk result (λ n. n.pins.items ≡ all_pins (map planned_net nets.now)) }
    ensures numbered { IfOk result (AreNumbered (map planned_member devices.now)) }
{
    let pins = pins_of(alloc, nets)?;
    let tables = number_tables(alloc, devices, &pins)?;
    let drivers = driver_tables(alloc, devices)?;
    let wires = pin_wires(alloc, &drivers, &pins)?;
    Ok(PinNumbers {
        pins,
        tables,
        wires,
    })
}

/// The pins of nets, net after net: a pin's number is its place here. Refused where memory runs out.
pub(crate) fn pins_of(alloc: Global, nets: &[PlannedNet]) -> Result<Vec<Pin>, AllocError>
    ensures { IfOk result (λ v. v.items ≡ all_pins (map planned_net nets.now)) }
{
    let mut pins = Vec::new(alloc);
    for net in nets {
        put_pins(&net.pins, &mut pins)?;
    }
    Ok(pins)
}

/// Where the pins of each net begin among those of all. Refused where memory runs out.
pub(crate) fn net_starts(alloc: Global, nets: &[PlannedNet]) -> Result<Vec<usize>, AllocError>
    ensures { IfOk result (λ v. v.items ≡ starts_of (map planned_net nets.now)) }
{
    let mut starts = Vec::with_capacity(alloc, nets.len())?;
    let mut pins = Vec::new(alloc);
    for net in nets {
        starts.push(pins.len())?;
        put_pins(&net.pins, &mut pins)?;
    }
    Ok(starts)
}

/// Pins, behind those listed.
fn put_pins(more: &[Pin], pins: &mut Vec<Pin>) -> Result<(), AllocError>
    ensures { OnOk result (pins.new.items ≡ pins.old.items ++ more.now) }
{
    for pin in more {
        pins.push(*pin)?;
    }
    Ok(())
}

/// Of each port bit of each device the number of its pin, if it is one of these. Refused where memory runs out.
pub(crate) fn number_tables(
    alloc: Global,
    devices: &[PlannedDevice],
    pins: &[Pin],
) -> Result<Vec<Vec<Option<usize>>>, AllocError>
    ensures { IfOk result (λ v. map (λ t. t.items) v.items ≡ tables_of pins.now (map planned_member devices.now)) }
{
    let mut tables = Vec::with_capacity(alloc, devices.len())?;
    for k in 0..devices.len() {
        tables.push(number_table(alloc, k, &devices[k], pins)?)?;
    }
    Ok(tables)
}

/// The same of one device.
fn number_table(
    alloc: Global,
    device: usize,
    planned: &PlannedDevice,
    pins: &[Pin],
) -> Result<Vec<Option<usize>>, AllocError>
    ensures { IfOk result (λ t. t.items ≡ table_of pins.now device (planned_member planned.now)) }
{
    let mut table = Vec::from_elem(alloc, None, planned.device.get().port_count())?;
    enter_pins(device, pins, &mut table);
    Ok(table)
}

/// Enters pins by their numbers at their port bits: those of one device.
fn enter_pins(device: usize, pins: &[Pin], table: &mut [Option<usize>])
    ensures { table.new ≡ entered device 0 pins.now table.old }
{
    for n in 0..pins.len() {
        enter(device, n, pins[n], table);
    }
}

fn enter(device: usize, n: usize, pin: Pin, table: &mut [Option<usize>])
    ensures { table.new ≡ with_pin device n pin table.old }
{
    if pin.device == device && pin.port < table.len() {
        table[pin.port] = Some(n);
    }
}

/// Of each port bit of each device the cell that drives it. Refused where memory runs out.
fn driver_tables(
    alloc: Global,
    devices: &[PlannedDevice],
) -> Result<Vec<Vec<Option<usize>>>, AllocError>
    ensures { IfOk result (λ v. AreDriverTables (map planned_member devices.now) (map (λ t. t.items) v.items)) }
{
    let mut tables = Vec::with_capacity(alloc, devices.len())?;
    for device in devices {
        let table = driver_table(alloc, device)?;
        tables.push(table)?;
    }
    Ok(tables)
}

/// The same of one device.
fn driver_table(alloc: Global, device: &PlannedDevice) -> Result<Vec<Option<usize>>, AllocError>
    ensures { IfOk result (λ t. HasDrivers (planned_member device.now) t.items) }
{
    let its = device.device.get();
    let table = drivers(alloc, its.cells(), its.port_count())?;
    Ok(table)
}

/// Of each pin its device and the cell that drives it, by those of all port bits. Refused where memory runs out.
pub(crate) fn pin_wires(
    alloc: Global,
    drivers: &[Vec<Option<usize>>],
    pins: &[Pin],
) -> Result<Vec<PinWire>, AllocError>
    ensures { IfOk result (λ v. v.items ≡ map (wire_in (map (λ t. t.items) drivers.now)) pins.now) }
{
    let mut wires = Vec::with_capacity(alloc, pins.len())?;
    for pin in pins {
        wires.push(pin_wire(drivers, *pin))?;
    }
    Ok(wires)
}

fn pin_wire(drivers: &[Vec<Option<usize>>], pin: Pin) -> PinWire
    ensures { result ≡ wire_in (map (λ t. t.items) drivers.now) pin }
{
    PinWire {
        device: pin.device,
        driver: number_at(drivers, pin.device, pin.port),
    }
}
