//! What is known of the ports and cells of a description, where the ports are found by the keys of their names, and the
//! least cell that is not fit.
ghost use Rattle.std.specs.Prelude.{◌≡◌, ◌≤◌, ◌==◌, ℕ, suc, max, min, not, nat_lt, map, IfOk, OnOk, if◌then◌else◌};
ghost use Rattle.std.specs.List.{find, fold, range_with_len};
ghost use Rattle.std.specs.BTreeMap.{get};
ghost use Rattle.std.specs.Ordering.{nat_cmp};
ghost use Rattle.jt_limits.specs.Limits.{subscript_limit};
ghost use Rattle.bsdl_text.specs.NumberView.{value};
ghost use Rattle.bsdl_values.specs.CellView.{cell_row};
ghost use Rattle.bsdl_entity.specs.declared.entity.Outline as declared_outline;
ghost use Rattle.bsdl_description.specs.Describing as described;
ghost use Rattle.bsdl_description.specs.View.{description};
ghost use Rattle.bsdl_lookup.specs.Table as cells;
ghost use Rattle.bsdl_rules.specs.Fits as spec;
ghost use Rattle.bsdl_rules.specs.Holds.{HoldsByKey};

use crate::cell_rows::{control_fits, has_no_port, port_index_fits};
use bsdl_description::{Description, Taps};
use bsdl_entity::Outline;
use bsdl_lookup::{
    Drivers, KeyedPorts, Table, controls_of, drivers_by_key, keyed_ports_of, port_index_by_key,
};
use bsdl_values::CellRow;
use jt_limits::{ABOVE_SUBSCRIPTS, SUBSCRIPT_LIMIT};
use std::alloc::{AllocError, Global};
use std::collections::BTreeSet;

/// The ports by the keys of their names, the lowest drivers, the controls and the ports of the TAP.
#[derive(Debug, Drop)]
pub struct KnownByKey<'o> {
    pub keyed: KeyedPorts<'o>,
    pub drivers: Drivers<'o>,
    pub controls: BTreeSet<usize>,
    pub taps: Taps<'o>,
}

/// What is known of a description. Refuses for want of memory alone.
pub fn known_by_key<'o>(
    alloc: Global,
    outline: &Outline<'o>,
    described: &Description<'o>,
) -> Result<KnownByKey<'o>, AllocError>
    ensures { IfOk result (λ k. HoldsByKey k (description outline.now described.now)) }
{
    let keyed = keyed_ports_of(alloc, &outline.groups)?;
    let drivers = drivers_by_key(alloc, &keyed, &described.cells)?;
    let controls = controls_of(alloc, &described.cells)?;
    Ok(KnownByKey {
        keyed,
        drivers,
        controls,
        taps: described.taps,
    })
}

/// The least cell, of those up to 65,535, that is listed twice, missing or not below the length, or whose port,
/// function or control does not fit. Refuses for want of memory alone.
pub fn unfit_cell_by_key<'a>(
    alloc: Global,
    known: &KnownByKey<'a>,
    described: &Description<'a>,
) -> Result<Option<usize>, AllocError>
    ensures { IfOk result (λ o. (f : declared_outline.Outline) → HoldsByKey known.now (description f described.now)
        → o ≡ spec.unfit_cell (description f described.now)) }
{
    let table = table_of(alloc, known, &described.cells)?;
    let length = described.boundary_length.up_to(ABOVE_SUBSCRIPTS);
    let end = cells_end(length, &described.cells);
    Ok(first_unfit(&table, length, end))
}

/// No cell from here on is below the length or listed, at most 65,536.
fn cells_end(length: usize, rows: &[CellRow<'_>]) -> usize
    requires { length ≤ suc subscript_limit }
    ensures { result ≡ min (fold (λ n r. max n (suc r.number)) length (map cell_row rows.now)) (suc subscript_limit) }
{
    let mut end = length;
    for row in rows {
        end = end.max(row.number.up_to(SUBSCRIPT_LIMIT) + 1);
    }
    end
}

fn first_unfit(table: &Table, length: usize, end: usize) -> Option<usize>
    ensures { result ≡ find (λ n. not (cells.is_fit (nat_lt n length) (get nat_cmp table.now.cells n)))
        (range_with_len 0 end) }
{
    (0..end).find(|number| !table.is_fit(*number, length))
}

/// The cells that rows list.
fn table_of<'a>(
    alloc: Global,
    known: &KnownByKey<'a>,
    rows: &[CellRow<'a>],
) -> Result<Table, AllocError>
    ensures { IfOk result (λ t. (d : described.Description) → HoldsByKey known.now d → (n : ℕ) → n ≤ subscript_limit
        → get nat_cmp t.cells n ≡ cells.only_row_fits (spec.row_fits d) (map cell_row rows.now) n) }
{
    let mut table = Table::new(alloc);
    for row in rows {
        add_row(&mut table, known, row)?;
    }
    Ok(table)
}

fn add_row<'a>(
    table: &mut Table,
    known: &KnownByKey<'a>,
    row: &CellRow<'a>,
) -> Result<(), AllocError>
    ensures { OnOk result ((d : described.Description) → HoldsByKey known.now d → (n : ℕ) → n ≤ subscript_limit
        → get nat_cmp table.new.cells n ≡ (if value row.now.number == n
        then cells.with_row (get nat_cmp table.old.cells n) (spec.row_fits d (cell_row row.now))
        else get nat_cmp table.old.cells n)) }
{
    let number = row.number.up_to(ABOVE_SUBSCRIPTS);
    if number > SUBSCRIPT_LIMIT {
        return Ok(());
    }
    let fits = row_fits(known, row, number);
    table.put(number, fits)?;
    Ok(())
}

/// Whether the row of a cell of this number fits.
fn row_fits<'a>(known: &KnownByKey<'a>, row: &CellRow<'a>, number: usize) -> bool
    requires { number ≤ subscript_limit }
    ensures { (d : described.Description) → HoldsByKey known.now d → number ≡ value row.now.number
        → result ≡ spec.row_fits d (cell_row row.now) }
{
    let port = port_fits(known, row, number);
    let control = control_fits(&known.controls, row.function, row.control, number);
    port && control
}

/// Whether the port of a row fits its function: `*`, or a port bit that is no TAP's and that no lower cell drives.
fn port_fits<'a>(known: &KnownByKey<'a>, row: &CellRow<'a>, number: usize) -> bool
    requires { number ≤ subscript_limit }
    ensures { (d : described.Description) → HoldsByKey known.now d → number ≡ value row.now.number
        → result ≡ spec.port_fits d (cell_row row.now) }
{
    if has_no_port(row.function) {
        return row.port.is_none();
    }
    match row.port {
        Some(port) => match port_index_by_key(&known.keyed, port) {
            Some(port_index) => {
                let (taps, drivers) = (&known.taps, &known.drivers);
                let function = row.function;
                port_index_fits(taps, drivers, function, port, port_index, number)
            }
            None => false,
        },
        None => false,
    }
}
