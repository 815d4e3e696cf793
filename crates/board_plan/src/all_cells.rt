//! The nets that the cells of all devices are on.
ghost use Rattle.std.specs.Prelude.{◌≡◌, map, IfOk};
ghost use Rattle.board_plan.specs.AllCellNets.{AllPortsFit, EntersPins, HaveNets, all_cell_nets, empty_tables};
ghost use Rattle.board_plan.specs.AllCellNets.{lists_of, with_pin};
ghost use Rattle.board_plan.specs.View.{member as planned_member, net as planned_net};

use crate::cells::nets_by;
use crate::plan::{PlannedDevice, PlannedNet};
use pin_nets::Pin;
use std::alloc::{AllocError, Global};

/// Of each cell of each device the first net that its port is on: the device nearest the board's TDO first, of each
/// cell 0 first. The pins are gone through once, however many devices there are. Refused where memory runs out.
///
/// Asks that no net joins a port bit that its device does not have.
pub fn all_cell_nets(
    alloc: Global,
    nets: &[PlannedNet],
    devices: &[PlannedDevice],
) -> Result<Vec<Vec<Option<usize>>>, AllocError>
    requires { AllPortsFit (map planned_member devices.now) (map planned_net nets.now) }
    ensures { IfOk result (λ v. lists_of v.items
        ≡ all_cell_nets (map planned_net nets.now) 0 (map planned_member devices.now)) }
{
    let tables = all_port_nets(alloc, nets, devices)?;
    let mut all = Vec::with_capacity(alloc, devices.len())?;
    for (place, device) in devices.iter().enumerate() {
        all.push(nets_by(alloc, &tables[place], device.device.get().cells())?)?;
    }
    Ok(all)
}

/// Of each port bit of each device the first net that it is on: the device nearest the board's TDO first, of each port
/// bit 0 first. Refused where memory runs out.
pub fn all_port_nets(
    alloc: Global,
    nets: &[PlannedNet],
    devices: &[PlannedDevice],
) -> Result<Vec<Vec<Option<usize>>>, AllocError>
    ensures { IfOk result (λ v. HaveNets 0 (map planned_member devices.now) (map planned_net nets.now)
        (lists_of v.items)) }
{
    let mut tables = no_nets(alloc, devices)?;
    let mut net = nets.len();
    while net > 0 {
        net -= 1;
        enter_pins(&mut tables, net, &nets[net].pins);
    }
    Ok(tables)
}

/// Of each port bit of each device nothing yet: the device nearest the board's TDO first, of each port bit 0 first.
/// Refused where memory runs out.
pub fn no_nets(
    alloc: Global,
    devices: &[PlannedDevice],
) -> Result<Vec<Vec<Option<usize>>>, AllocError>
    ensures { IfOk result (λ v. lists_of v.items ≡ empty_tables (map planned_member devices.now)) }
{
    let mut tables = Vec::with_capacity(alloc, devices.len())?;
    for device in devices {
        tables.push(Vec::from_elem(alloc, None, device.device.get().port_count())?)?;
    }
    Ok(tables)
}

/// Enters a net at the port bits that its pins are.
fn enter_pins(tables: &mut [Vec<Option<usize>>], net: usize, pins: &[Pin])
    ensures { EntersPins net pins.now (lists_of tables.old) (lists_of tables.new) }
{
    for pin in pins {
        enter_pin(tables, net, *pin);
    }
}

/// Enters a number at the port bit that a pin is, if its device has it.
pub fn enter_pin(tables: &mut [Vec<Option<usize>>], number: usize, pin: Pin)
    ensures { lists_of tables.new ≡ with_pin number pin (lists_of tables.old) }
{
    if pin.device < tables.len() {
        let table = &mut tables[pin.device];
        if pin.port < table.len() {
            table[pin.port] = Some(number);
        }
    }
}
