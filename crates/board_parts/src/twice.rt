//! Pins that stand twice on a board.
ghost use Rattle.std.specs.Prelude.{◌≡◌, ◌++◌, [], List, false, length, map, IfOk};
ghost use Rattle.std.specs.List.{AllByRecursion, list_any};
ghost use Rattle.pin_nets.specs.declared.Pin.{Pin};
ghost use Rattle.board_parts.specs.Pins.{same_pin};
ghost use Rattle.board_plan.specs.Planned.{all_pins};
ghost use Rattle.board_plan.specs.View as planned;
ghost use Rattle.board_parts.specs.Twice.{IsAmong, IsWithin, Marks, is_some_twice};

use board_plan::PlannedNet;
use board_tables::Places;
use pin_nets::Pin;
use std::alloc::{AllocError, Global};

/// Whether a pin of these nets stands before it, on the same net or another. Refuses for want of memory alone: it takes
/// a byte for each of so many ports of each of so many devices, and where these are more than a number can count a tree
/// of the pins.
///
/// Asks that each pin is one of those ports.
pub fn has_pin_twice(
    alloc: Global,
    devices: usize,
    ports: usize,
    nets: &[PlannedNet],
) -> Result<bool, AllocError>
    requires { AllByRecursion (IsAmong devices ports) (all_pins (map planned.net nets.now)) }
    ensures { IfOk result (λ r. r ≡ is_some_twice [] (all_pins (map planned.net nets.now))) }
{
    let Some(room) = devices.checked_mul(ports) else {
        return is_found_twice(alloc, nets);
    };
    let mut seen = Vec::from_elem(alloc, false, room)?;
    Ok(mark_nets(&mut seen, ports, nets))
}

/// Marks the pins of nets in an empty table of so many ports a device, up to the first that is marked. Answers whether
/// one was.
fn mark_nets(seen: &mut [bool], ports: usize, nets: &[PlannedNet]) -> bool
    requires room { AllByRecursion (IsWithin ports (length seen.old)) (all_pins (map planned.net nets.now)) }
    requires empty { Marks ports [] seen.old }
    ensures { result ≡ is_some_twice [] (all_pins (map planned.net nets.now)) }
{
    for net in nets {
        if mark_pins(seen, ports, &net.pins) {
            return true;
        }
    }
    false
}

/// Marks pins in a table of so many ports a device, up to the first that is marked. Answers whether one was.
fn mark_pins(seen: &mut [bool], ports: usize, pins: &[Pin]) -> bool
    requires { AllByRecursion (IsWithin ports (length seen.old)) pins.now }
    ensures judged { (before : List Pin) → Marks ports before seen.old → result ≡ is_some_twice before pins.now }
    ensures added { result ≡ false → (before : List Pin) → Marks ports before seen.old
        → Marks ports (before ++ pins.now) seen.new }
{
    for pin in pins {
        let place = pin.device * ports + pin.port;
        if seen[place] {
            return true;
        }
        seen[place] = true;
    }
    false
}

/// Whether a pin of these nets stands before it, by a tree of the pins.
fn is_found_twice(alloc: Global, nets: &[PlannedNet]) -> Result<bool, AllocError>
    ensures { IfOk result (λ r. r ≡ is_some_twice [] (all_pins (map planned.net nets.now))) }
{
    let mut used = Places::new(alloc);
    for net in nets {
        if add_pins(&mut used, &net.pins)? {
            return Ok(true);
        }
    }
    Ok(false)
}

/// Adds pins, up to the first that is there. Answers whether one was.
fn add_pins(used: &mut Places<Pin>, pins: &[Pin]) -> Result<bool, AllocError>
    ensures judged { IfOk result (λ r. r ≡ is_some_twice used.old pins.now) }
    ensures added { IfOk result (λ r. r ≡ false → used.new ≡ used.old ++ pins.now) }
{
    for pin in pins {
        if has_pin(used, *pin) {
            return Ok(true);
        }
        used.push(*pin)?;
    }
    Ok(false)
}

fn has_pin(used: &Places<Pin>, pin: Pin) -> bool
    ensures { result ≡ list_any (same_pin pin) used.now }
{
    used.place(pin).is_some()
}
