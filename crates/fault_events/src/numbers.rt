//! From which pins a capture of the data column takes its bits, by numbers.
ghost use Rattle.std.specs.Prelude.{◌≡◌, ◌++◌, List, length, map, replicate, None, OnOk};
ghost use Rattle.chip_instructions.specs.Fitting.{IsFormed, fixed_of};
ghost use Rattle.board_chips.specs.WiredChips.{member_of};
ghost use Rattle.board_model.specs.Chain.{members};
ghost use Rattle.fault_events.specs.Numbers.{AllFormed, number_in, number_of, number_of_cell, numbers};
ghost use Rattle.fault_events.specs.Sources.{fixed_bits, member_sources};

use board_chain::{Chain, WiredChip};
use boundary::sighted_port;
use bsdl_device::Cell;
use chip_instructions::{Decoded, Selected, decode, fixed_bits};
use std::alloc::AllocError;

/// Puts behind those listed of each bit that a capture of the data column takes, from TDO to TDI, the number of the pin
/// that it is taken from: the one that tables, one a device, have for the port bit, and none for a bit that hangs on no
/// net. Refused where memory runs out.
pub(crate) fn put_numbers(
    chain: &Chain,
    tables: &[Vec<Option<usize>>],
    list: &mut Vec<Option<usize>>,
) -> Result<(), AllocError>
    requires { AllFormed (members chain.now.chips) }
    ensures { OnOk result (list.new.items
        ≡ list.old.items ++ numbers (map (λ t. t.items) tables.now) (members chain.now.chips)) }
{
    for device in 0..chain.devices() {
        put_register(chain.chip(device), device, tables, list)?;
    }
    Ok(())
}

/// The same of the register of one device that the instruction in its latch selects.
fn put_register(
    chip: &WiredChip,
    device: usize,
    tables: &[Vec<Option<usize>>],
    list: &mut Vec<Option<usize>>,
) -> Result<(), AllocError>
    requires { IsFormed chip.now.chip.device }
    ensures { OnOk result (list.new.items ≡ list.old.items
        ++ map (number_of (map (λ t. t.items) tables.now)) (member_sources device (member_of chip.now))) }
{
    let meant = decode(chip.device(), chip.latch());
    if let Selected::Boundary = meant.selected {
        put_cells(chip.device().cells(), device, tables, list)
    } else {
        put_none(fixed_len(chip, meant), list)
    }
}

/// The same of boundary cells.
fn put_cells(
    cells: &[Cell],
    device: usize,
    tables: &[Vec<Option<usize>>],
    list: &mut Vec<Option<usize>>,
) -> Result<(), AllocError>
    ensures { OnOk result (list.new.items
        ≡ list.old.items ++ map (number_of_cell (map (λ t. t.items) tables.now) device) cells.now) }
{
    for cell in cells {
        list.push(cell_number(*cell, device, tables))?;
    }
    Ok(())
}

/// The number of the pin whose sight a cell of a device captures, if it does.
fn cell_number(cell: Cell, device: usize, tables: &[Vec<Option<usize>>]) -> Option<usize>
    ensures { result ≡ number_of_cell (map (λ t. t.items) tables.now) device cell }
{
    match sighted_port(cell.port, cell.function) {
        Some(port) => number_at(tables, device, port),
        None => None,
    }
}

/// The number that tables have for a port bit of a device.
pub(crate) fn number_at(tables: &[Vec<Option<usize>>], device: usize, port: usize) -> Option<usize>
    ensures { result ≡ number_in (map (λ t. t.items) tables.now) device port }
{
    match tables.get(device) {
        Some(table) => match table.get(port) {
            Some(number) => *number,
            None => None,
        },
        None => None,
    }
}

/// So many bits that hang on no net.
fn put_none(len: usize, list: &mut Vec<Option<usize>>) -> Result<(), AllocError>
    ensures { OnOk result (list.new.items ≡ list.old.items ++ replicate len None) }
{
    for _ in 0..len {
        list.push(None)?;
    }
    Ok(())
}

/// How many bits stand in a device's register that is no boundary register once it has captured.
fn fixed_len(chip: &WiredChip, meant: Decoded) -> usize
    requires { IsFormed chip.now.chip.device }
    ensures { result ≡ length (fixed_bits meant.selected (fixed_of chip.now.chip.device meant.fixed)
        (member_of chip.now).registers) }
{
    let fixed = fixed_bits(chip.device(), meant.fixed);
    match meant.selected {
        Selected::Bypass => 1,
        Selected::Boundary => 0,
        Selected::Identification => fixed.map_or(0, |bits| bits.len()),
        Selected::User(k) => match chip.user(k) {
            None => 0,
            Some((_, latch)) => fixed.unwrap_or(latch).len(),
        },
    }
}
