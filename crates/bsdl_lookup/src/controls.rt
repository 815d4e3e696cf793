//! Which cells control others.
ghost use Rattle.std.specs.Prelude.{◌≡◌, ◌≤◌, ◌||◌, ℕ, map, IfOk, OnOk};
ghost use Rattle.std.specs.List.{list_any};
ghost use Rattle.std.specs.BTreeSet.{contains_by};
ghost use Rattle.std.specs.Ordering.{nat_cmp};
ghost use Rattle.jt_limits.specs.Limits.{subscript_limit};
ghost use Rattle.bsdl_values.specs.CellView.{cell_row};
ghost use Rattle.bsdl_lookup.specs.Controls as spec;

use bsdl_device::Function;
use bsdl_values::CellRow;
use jt_limits::ABOVE_SUBSCRIPTS;
use std::alloc::{AllocError, Global};
use std::collections::BTreeSet;

/// The numbers of the cells that control others; numbers above 65,536 count as 65,536. Refuses for want of memory
/// alone.
pub fn controls_of(alloc: Global, rows: &[CellRow<'_>]) -> Result<BTreeSet<usize>, AllocError>
    ensures { IfOk result (λ s. (n : ℕ) → n ≤ subscript_limit → contains_by (nat_cmp n) s
        ≡ list_any (spec.controls_as n) (map cell_row rows.now)) }
{
    let mut controls = BTreeSet::new(alloc);
    for row in rows {
        add_row(&mut controls, row)?;
    }
    Ok(controls)
}

fn add_row(controls: &mut BTreeSet<usize>, row: &CellRow<'_>) -> Result<(), AllocError>
    ensures { OnOk result ((n : ℕ) → n ≤ subscript_limit → contains_by (nat_cmp n) controls.new
        ≡ contains_by (nat_cmp n) controls.old || spec.controls_as n (cell_row row.now)) }
{
    if is_control(row.function) {
        controls.insert(row.number.up_to(ABOVE_SUBSCRIPTS))?;
    }
    Ok(())
}

fn is_control(function: Function) -> bool
    ensures { result ≡ spec.is_control function }
{
    matches!(function, Function::Control | Function::ControlR)
}
