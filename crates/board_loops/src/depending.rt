//! Which nets of a planned board depend on which, by the strings of its devices.
ghost use Rattle.std.specs.Prelude.{◌≡◌, ◌+◌, ◌++◌, None, nat_lt, IfOk, OnOk, length, map, slice_index_or};
ghost use Rattle.std.specs.List.{AllByRecursion, list_any};
ghost use Rattle.board_loops.specs.Loops.{Settles};
ghost use Rattle.board_plan.specs.View.{member as planned_member};
ghost use Rattle.board_parts.specs.Strings.{HasStrings};
ghost use Rattle.board_loops.specs.Depending as spec;

use crate::net_loops::{Dependency, Settling, settle_order};
use crate::renumbering::renumber;
use board_plan::{PlannedDevice, PlannedNet, all_port_nets};
use board_tables::Places;
use bsdl_device::Cell;
use pin_nets::Follow;
use std::alloc::{AllocError, Global};

/// What the strings of a planned board come to: the place of the first that is on a loop, among all strings by devices
/// and then strings, or an order of work. Refused where memory runs out.
///
/// Asks that the strings of each device fit it.
pub fn settle_strings(
    alloc: Global,
    nets: &[PlannedNet],
    devices: &[PlannedDevice],
) -> Result<Settling, AllocError>
    requires { AllByRecursion HasStrings (map planned_member devices.now) }
    ensures { IfOk result (Settles (spec.dependencies (spec.wired nets.now devices.now))) }
{
    let strings = dependencies(alloc, nets, devices)?;
    let mut named = Places::new(alloc);
    let renumbered = renumber(alloc, &mut named, &strings)?;
    settle_order(alloc, named.len(), &renumbered)
}

/// The strings of a planned board, by devices and then strings, each with the numbers of its target's and its source's
/// net: a net with a name has its place, and each port bit on none of these a number behind them. Refused where memory
/// runs out.
///
/// Asks that the strings of each device fit it.
pub fn dependencies(
    alloc: Global,
    nets: &[PlannedNet],
    devices: &[PlannedDevice],
) -> Result<Vec<Dependency>, AllocError>
    requires { AllByRecursion HasStrings (map planned_member devices.now) }
    ensures { IfOk result (λ v. v.items ≡ spec.dependencies (spec.wired nets.now devices.now)) }
{
    let mut all = Vec::new(alloc);
    if !have_strings(devices) {
        return Ok(all);
    }
    let tables = all_port_nets(alloc, nets, devices)?;
    let mut first = nets.len();
    for (place, device) in devices.iter().enumerate() {
        let description = device.device.get();
        add_strings(
            &mut all,
            &tables[place],
            first,
            description.cells(),
            &device.follows,
        )?;
        first = number_behind(first, description.port_count())?;
    }
    Ok(all)
}

/// Whether one of the devices has a string.
fn have_strings(devices: &[PlannedDevice]) -> bool
    ensures { result ≡ list_any (λ d. nat_lt 0 (length d.follows.items)) devices.now }
{
    devices.iter().any(|device| has_strings(device))
}

fn has_strings(device: &PlannedDevice) -> bool
    ensures { result ≡ nat_lt 0 (length device.now.follows.items) }
{
    !device.follows.is_empty()
}

/// Adds the strings of a device, by a table of the nets of its port bits, and the number of the first of these for
/// where it is on none.
fn add_strings(
    all: &mut Vec<Dependency>,
    table: &[Option<usize>],
    first: usize,
    cells: &[Cell],
    strings: &[Follow],
) -> Result<(), AllocError>
    ensures { OnOk result (all.new.items
        ≡ all.old.items ++ map (spec.dependency_by table.now first cells.now) strings.now) }
{
    for string in strings {
        all.push(dependency(table, first, cells, *string)?)?;
    }
    Ok(())
}

/// A string's target's net depends on its source's net.
fn dependency(
    table: &[Option<usize>],
    first: usize,
    cells: &[Cell],
    string: Follow,
) -> Result<Dependency, AllocError>
    ensures { IfOk result (λ d. d ≡ spec.dependency_by table.now first cells.now string) }
{
    let target = number_by(table, first, port_of(cells, string.cell))?;
    let source = number_by(table, first, string.source)?;
    Ok(Dependency { target, source })
}

/// The number of the net of a port bit.
fn number_by(table: &[Option<usize>], first: usize, port: usize) -> Result<usize, AllocError>
    ensures { IfOk result (λ n. n ≡ spec.number_by table.now first port) }
{
    match net_in(table, port) {
        Some(net) => Ok(net),
        None => number_behind(first, port),
    }
}

/// The number so far behind another.
fn number_behind(first: usize, places: usize) -> Result<usize, AllocError>
    ensures { IfOk result (λ n. n ≡ first + places) }
{
    first.checked_add(places).ok_or(AllocError)
}

fn net_in(table: &[Option<usize>], port: usize) -> Option<usize>
    ensures { result ≡ slice_index_or table.now port None }
{
    if port < table.len() {
        table[port]
    } else {
        None
    }
}

/// The port bit that a cell is at.
fn port_of(cells: &[Cell], cell: usize) -> usize
    ensures { result ≡ spec.port_of cells.now cell }
{
    if cell < cells.len() {
        cells[cell].port.unwrap_or(0)
    } else {
        0
    }
}
