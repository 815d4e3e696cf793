//! The boundary cells of a device. Its ports are found by the keys of their names.
ghost use Rattle.std.specs.Prelude.{◌≡◌, ◌<◌, ◌==◌, ◌++◌, ℕ, List, map, filter, length, option_map, option_and_then};
ghost use Rattle.std.specs.Prelude.{option_to_list, if◌then◌else◌, Some, None, IfOk, OnOk};
ghost use Rattle.std.specs.BTreeMap.{get};
ghost use Rattle.std.specs.List.{flat_map, range_with_len};
ghost use Rattle.std.specs.Ordering.{nat_cmp};
ghost use Rattle.bsdl_text.specs.NumberView.{value};
ghost use Rattle.bsdl_values.specs.CellView as cells_view;
ghost use Rattle.bsdl_entity.specs.Ports as port_list;
ghost use Rattle.bsdl_device.specs.Driving.{drives as is_driver};
ghost use Rattle.bsdl_lookup.specs.Keyed.{AreKeyed};
ghost use Rattle.bsdl_lookup.specs.PortNumbers.{bit_number};
ghost use Rattle.bsdl.specs.Bits.{firsts, last_of};
ghost use Rattle.bsdl.specs.Boundary as spec;

use crate::bits::bit_in;
use crate::ports::size_of;
use bsdl_device::{Cell, Control3, Function};
use bsdl_lookup::{KeyedPorts, port_by_key};
use bsdl_values::{CellRow, Controlling, PortName};
use std::alloc::{AllocError, Global};
use std::collections::BTreeMap;

/// The cells by their numbers; each number below the length has one row. Refuses for want of memory, and where a number
/// is 2^64 or more, which nothing that is judged has.
pub(crate) fn cells_by_key<'a>(
    alloc: Global,
    keyed: &KeyedPorts<'a>,
    bits: &[usize],
    rows: &[CellRow<'a>],
    len: usize,
) -> Result<Vec<Cell>, AllocError>
    requires once { (k : ℕ) → k < len
        → length (filter (λ r. r.number == k) (map cells_view.cell_row rows.now)) ≡ 1 }
    ensures { IfOk result (λ v. (ps : List port_list.Port) → AreKeyed keyed.now ps → bits.now ≡ firsts 0 ps → v.items
        ≡ spec.cells_of ps (map cells_view.cell_row rows.now) len) }
{
    let table = table_of(alloc, keyed, bits, rows)?;
    listed(alloc, &table, len)
}

/// The last cell of each number.
fn table_of<'a>(
    alloc: Global,
    keyed: &KeyedPorts<'a>,
    bits: &[usize],
    rows: &[CellRow<'a>],
) -> Result<BTreeMap<usize, Cell>, AllocError>
    ensures { IfOk result (λ t. (ps : List port_list.Port) → AreKeyed keyed.now ps → bits.now ≡ firsts 0 ps → (n : ℕ)
        → get nat_cmp t n ≡ last_of (map (spec.cell ps)
        (filter (λ r. r.number == n) (map cells_view.cell_row rows.now)))) }
{
    let mut table = BTreeMap::new(alloc);
    for row in rows {
        add_row(&mut table, keyed, bits, row)?;
    }
    Ok(table)
}

fn add_row<'a>(
    table: &mut BTreeMap<usize, Cell>,
    keyed: &KeyedPorts<'a>,
    bits: &[usize],
    row: &CellRow<'a>,
) -> Result<(), AllocError>
    ensures { OnOk result ((ps : List port_list.Port) → AreKeyed keyed.now ps → bits.now ≡ firsts 0 ps → (n : ℕ)
        → get nat_cmp table.new n ≡ (if value row.now.number == n
        then Some (spec.cell ps (cells_view.cell_row row.now)) else get nat_cmp table.old n)) }
{
    let number = size_of(row.number)?;
    let cell = cell_of(keyed, bits, row)?;
    table.insert(number, cell)?;
    Ok(())
}

/// The cell of a row; its control counts where it drives.
fn cell_of<'a>(
    keyed: &KeyedPorts<'a>,
    bits: &[usize],
    row: &CellRow<'a>,
) -> Result<Cell, AllocError>
    ensures { IfOk result (λ c. (ps : List port_list.Port) → AreKeyed keyed.now ps → bits.now ≡ firsts 0 ps → c
        ≡ spec.cell ps (cells_view.cell_row row.now)) }
{
    let port = port_of(keyed, bits, row.port)?;
    let control = control_of(row.function, row.control)?;
    let function = row.function;
    Ok(Cell {
        function,
        port,
        control,
    })
}

fn port_of<'a>(
    keyed: &KeyedPorts<'a>,
    bits: &[usize],
    port: Option<PortName<'a>>,
) -> Result<Option<usize>, AllocError>
    ensures { IfOk result (λ o. (ps : List port_list.Port) → AreKeyed keyed.now ps → bits.now ≡ firsts 0 ps → o
        ≡ option_and_then (bit_number 0 ps) (option_map cells_view.port_name port.entry)) }
{
    match port {
        Some(port) => bit_of_port(keyed, bits, port),
        None => Ok(None),
    }
}

/// The number of the port bit that a row names, where it is declared.
fn bit_of_port<'a>(
    keyed: &KeyedPorts<'a>,
    bits: &[usize],
    port: PortName<'a>,
) -> Result<Option<usize>, AllocError>
    ensures { IfOk result (λ o. (ps : List port_list.Port) → AreKeyed keyed.now ps → bits.now ≡ firsts 0 ps → o
        ≡ bit_number 0 ps (cells_view.port_name port.entry)) }
{
    match port_by_key(keyed, port.name) {
        Some(found) => bit_in(found, bits, port.index),
        None => Ok(None),
    }
}

fn control_of(
    function: Function,
    control: Option<Controlling<'_>>,
) -> Result<Option<Control3>, AllocError>
    ensures { IfOk result (λ o. o ≡ (if is_driver function then option_map cells_view.control control.entry
        else None)) }
{
    if !function.drives() {
        return Ok(None);
    }
    match control {
        Some(control) => {
            let cell = size_of(control.cell)?;
            Ok(Some(Control3 {
                cell,
                disabling: control.disabling,
                leaves: control.leaves,
            }))
        }
        None => Ok(None),
    }
}

/// The cells of a table below a length.
fn listed(alloc: Global, table: &BTreeMap<usize, Cell>, len: usize) -> Result<Vec<Cell>, AllocError>
    ensures { IfOk result (λ v. v.items ≡ flat_map (λ k. option_to_list (get nat_cmp table.now k))
        (range_with_len 0 len)) }
{
    let mut cells = Vec::new(alloc);
    for number in 0..len {
        add_listed(&mut cells, table, number)?;
    }
    Ok(cells)
}

fn add_listed(
    cells: &mut Vec<Cell>,
    table: &BTreeMap<usize, Cell>,
    number: usize,
) -> Result<(), AllocError>
    ensures { OnOk result (cells.new.items ≡ cells.old.items ++ option_to_list (get nat_cmp table.now number)) }
{
    if let Some(cell) = table.get(&number) {
        cells.push(*cell)?;
    }
    Ok(())
}
