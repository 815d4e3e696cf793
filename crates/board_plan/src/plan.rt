//! A board as it is wired, before power-up.
ghost use Rattle.std.specs.Prelude.{◌≡◌, map, IfOk};
ghost use Rattle.board_plan.specs.View.{net as planned_net};

use chip_instructions::{Bits, SharedDevice};
use pin_nets::{Follow, Pin, Pull, Rule};
use std::alloc::{AllocError, Global};

/// A device: its name, the file of its description (a bare device has none), its description, its core's constant bits
/// (one a cell, cell 0 first), the strings that its core follows, and whether EXTEST captures the update stage.
#[derive(Drop)]
pub struct PlannedDevice {
    pub name: String,
    pub file: Option<String>,
    pub device: SharedDevice,
    pub core: Bits,
    pub follows: Vec<Follow>,
    pub extest_update: bool,
}

/// A net: its name, its pull, its rule and its pins.
#[derive(Drop)]
pub struct PlannedNet {
    pub name: String,
    pub pull: Pull,
    pub rule: Rule,
    pub pins: Vec<Pin>,
}

/// The value of a board: the devices, the first nearest the board's TDO, the nets, and an order of work of the strings,
/// each by its place among all, by devices and then strings. Boards are powered up from it, which lends what they copy.
#[derive(Drop)]
pub struct Plan {
    pub devices: Vec<PlannedDevice>,
    pub nets: Vec<PlannedNet>,
    pub order: Vec<usize>,
}

/// The same nets once more. Refused where memory runs out.
pub fn copy_nets(alloc: Global, nets: &[PlannedNet]) -> Result<Vec<PlannedNet>, AllocError>
    ensures { IfOk result (λ v. map planned_net v.items ≡ map planned_net nets.now) }
{
    let mut copies = Vec::with_capacity(alloc, nets.len())?;
    for net in nets {
        copies.push(copy_net(alloc, net)?)?;
    }
    Ok(copies)
}

fn copy_net(alloc: Global, net: &PlannedNet) -> Result<PlannedNet, AllocError>
    ensures { IfOk result (λ n. planned_net n ≡ planned_net net.now) }
{
    Ok(PlannedNet {
        name: String::from_str(alloc, &net.name)?,
        pull: net.pull,
        rule: net.rule,
        pins: net.pins.to_vec(alloc)?,
    })
}
