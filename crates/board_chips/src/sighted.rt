//! The cells of a device that capture what their port sees.

ghost use Rattle.std.specs.Prelude.{◌≡◌, ◌++◌, [], length, IfOk, OnOk};
ghost use Rattle.board_chips.specs.Sighted.{sighted_from, with_sighted};

use boundary::sighted_port;
use bsdl_device::Cell;
use std::alloc::{AllocError, Global};

/// A cell that captures what its port sees, with that port, and the net that it is on.
#[derive(Drop, Clone, Copy)]
pub(crate) struct SightedCell {
    pub(crate) cell: usize,
    pub(crate) port: usize,
    pub(crate) net: Option<usize>,
}

/// Of these cells, given the net of each, those that capture what their port sees. Refuses for want of memory alone.
pub(crate) fn sighted_cells(
    alloc: Global,
    cells: &[Cell],
    nets: &[Option<usize>],
) -> Result<Vec<SightedCell>, AllocError>
    requires { length nets.now ≡ length cells.now }
    ensures { IfOk result (λ v. v.items ≡ sighted_from 0 nets.now cells.now) }
{
    let mut sighted = Vec::with_capacity(alloc, count_sighted(cells))?;
    for cell in 0..cells.len() {
        let port = sighted_port(cells[cell].port, cells[cell].function);
        enter(&mut sighted, cell, port, nets[cell])?;
    }
    Ok(sighted)
}

/// How many of these cells capture what their port sees. Only the room of the table hangs on it, so no clause says it.
fn count_sighted(cells: &[Cell]) -> usize {
    cells
        .iter()
        .filter(|cell| sighted_port(cell.port, cell.function).is_some())
        .count()
}

/// One more cell, if it captures what a port sees.
fn enter(
    sighted: &mut Vec<SightedCell>,
    cell: usize,
    port: Option<usize>,
    net: Option<usize>,
) -> Result<(), AllocError>
    ensures { OnOk result (sighted.new.items ≡ sighted.old.items ++ with_sighted cell net port []) }
{
    if let Some(port) = port {
        sighted.push(SightedCell { cell, port, net })?;
    }
    Ok(())
}
