//! The nets that the cells of a device are on, by a table of the nets of its port bits.
ghost use Rattle.std.specs.Prelude.{◌≡◌, map, IfOk};
ghost use Rattle.board_plan.specs.CellNets.{net_by};

use chip_instructions::Cell;
use std::alloc::{AllocError, Global};

/// The nets of cells, by a table of the nets of port bits.
pub(crate) fn nets_by(
    alloc: Global,
    table: &[Option<usize>],
    cells: &[Cell],
) -> Result<Vec<Option<usize>>, AllocError>
    ensures { IfOk result (λ v. v.items ≡ map (λ c. net_by table.now c.port) cells.now) }
{
    let mut all = Vec::with_capacity(alloc, cells.len())?;
    for cell in cells {
        all.push(net_in(table, cell.port))?;
    }
    Ok(all)
}

/// The net of a port bit, by a table of the first of them.
fn net_in(table: &[Option<usize>], port: Option<usize>) -> Option<usize>
    ensures { result ≡ net_by table.now port }
{
    match port {
        Some(port) if port < table.len() => table[port],
        _ => None,
    }
}
