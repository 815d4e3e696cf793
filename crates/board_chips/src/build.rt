//! The devices of a plan, each with the nets of its cells.

ghost use Rattle.std.specs.Prelude.{◌≡◌, map, IfOk};
ghost use Rattle.board_plan.specs.View.{member as planned_member, net as planned_net};
ghost use Rattle.board_chips.specs.Building.{IsReady, wired_chips_of};

use crate::chip::WiredChip;
use board_plan::{PlannedDevice, PlannedNet, all_cell_nets};
use std::alloc::{AllocError, Global};

/// The devices of a plan as they power up, each with the nets of its cells; refused where memory runs out.
pub fn all_chips(
    alloc: Global,
    devices: &[PlannedDevice],
    nets: &[PlannedNet],
) -> Result<Vec<WiredChip>, AllocError>
    requires { IsReady (record { members = map planned_member devices.now; nets = map planned_net nets.now }) }
    ensures { IfOk result
        (λ v. v.items ≡ wired_chips_of (map planned_net nets.now) 0 (map planned_member devices.now)) }
{
    let all_cells = all_cell_nets(alloc, nets, devices)?;
    let mut chips = Vec::with_capacity(alloc, devices.len())?;
    for cells in all_cells {
        let place = chips.len();
        chips.push(WiredChip::new(alloc, &devices[place], cells)?)?;
    }
    Ok(chips)
}
