//! The nets of a plan by the numbers of their pins.
ghost use Rattle.std.specs.Prelude.{◌≡◌, ◌++◌, length, map, IfOk, OnOk};
ghost use Rattle.std.specs.List.{range_with_len};
ghost use Rattle.pin_nets.specs.Building.{net_value};
ghost use Rattle.board_plan.specs.PinNumbers.{with_pin_numbers};
ghost use Rattle.board_plan.specs.Planned.{all_pins};
ghost use Rattle.board_plan.specs.View.{net as planned_net};

use crate::plan::PlannedNet;
use pin_nets::{NetSpec, Pin};
use std::alloc::{AllocError, Global};

/// The nets by the numbers of their pins, and the pins of all nets, net after net, each at its number. Refused where
/// memory runs out.
pub fn number_nets(
    alloc: Global,
    nets: &[PlannedNet],
) -> Result<(Vec<NetSpec>, Vec<Pin>), AllocError>
    ensures nets { IfOk result (λ p. map net_value p.0.items ≡ with_pin_numbers 0 (map planned_net nets.now)) }
    ensures pins { IfOk result (λ p. p.1.items ≡ all_pins (map planned_net nets.now)) }
{
    let mut pins = Vec::new(alloc);
    let mut specs = Vec::with_capacity(alloc, nets.len())?;
    for net in nets {
        let numbers = number_pins(alloc, &net.pins, &mut pins)?;
        specs.push(NetSpec {
            pins: numbers,
            pull: net.pull,
            rule: net.rule,
        })?;
    }
    Ok((specs, pins))
}

/// The numbers of more pins.
fn number_pins(alloc: Global, more: &[Pin], pins: &mut Vec<Pin>) -> Result<Vec<usize>, AllocError>
    ensures numbers { IfOk result (λ v. v.items ≡ range_with_len (length pins.old.items) (length more.now)) }
    ensures pins { OnOk result (pins.new.items ≡ pins.old.items ++ more.now) }
{
    let mut numbers = Vec::with_capacity(alloc, more.len())?;
    for pin in more {
        numbers.push(pins.len())?;
        pins.push(*pin)?;
    }
    Ok(numbers)
}
