//! Boards with a fault.

ghost use Rattle.std.specs.Prelude.{◌≡◌, [], map, IfOk, OnOk};
ghost use Rattle.board_loops.specs.Depending.{wired};
ghost use Rattle.board_plan.specs.View.{member as planned_member, net as planned_net, wiring};
ghost use Rattle.board_faults.specs.Faulty.{CanBeJudged, SameDevices, Wires};
ghost use Rattle.board_faults.specs.Faults.{IsWayOf};

use crate::kinds::Way;
use crate::nets::nets_with;
use board_loops::{Settling, settle_strings};
use board_plan::{Plan, PlannedDevice, PlannedNet, copy_nets};
use std::alloc::{AllocError, Global};

/// Gives a bench the nets where a fault of these (asked) shows in a way, and an order of its strings. Answers whether
/// there is one: else a net depends on itself, and the board has no meaning. Refused where memory runs out.
pub fn wire_way(
    alloc: Global,
    bench: &mut Plan,
    nets: &[PlannedNet],
    way: Way,
) -> Result<bool, AllocError>
    requires may { CanBeJudged (wired nets.now bench.old.devices.items) }
    requires way { IsWayOf (map planned_net nets.now) way }
    ensures same { OnOk result (SameDevices bench.old bench.new) }
    ensures wires { IfOk result (Wires (wired nets.now bench.old.devices.items) way bench.new) }
{
    let faulty = nets_with(alloc, nets, way)?;
    let settling = settle_strings(alloc, &faulty, &bench.devices)?;
    match settling {
        Settling::Loop(_) => Ok(false),
        Settling::Order(order) => {
            bench.nets = faulty;
            bench.order = order;
            Ok(true)
        }
    }
}

/// A bench for the board of a plan: the same board once more, without an order of its strings, and without the files of
/// its descriptions. Refused where memory runs out.
pub fn bench_of(alloc: Global, plan: &Plan) -> Result<Plan, AllocError>
    ensures board { IfOk result (λ b. wiring b ≡ wiring plan.now) }
    ensures order { IfOk result (λ b. b.order.items ≡ []) }
{
    Ok(Plan {
        devices: copy_devices(alloc, &plan.devices)?,
        nets: copy_nets(alloc, &plan.nets)?,
        order: Vec::new(alloc),
    })
}

/// The same devices once more, but for the files of their descriptions. Refused where memory runs out.
fn copy_devices(alloc: Global, devices: &[PlannedDevice]) -> Result<Vec<PlannedDevice>, AllocError>
    ensures { IfOk result (λ v. map planned_member v.items ≡ map planned_member devices.now) }
{
    let mut copies = Vec::with_capacity(alloc, devices.len())?;
    for device in devices {
        copies.push(copy_device(alloc, device)?)?;
    }
    Ok(copies)
}

fn copy_device(alloc: Global, device: &PlannedDevice) -> Result<PlannedDevice, AllocError>
    ensures { IfOk result (λ d. planned_member d ≡ planned_member device.now) }
{
    Ok(PlannedDevice {
        name: String::from_str(alloc, &device.name)?,
        file: None,
        device: device.device.share()?,
        core: device.core.try_clone(alloc)?,
        follows: device.follows.to_vec(alloc)?,
        extest_update: device.extest_update,
    })
}
