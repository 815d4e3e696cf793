//! Judges the pins and nets of a board file, and plans the nets.
ghost use Rattle.std.specs.Prelude.{◌≡◌, ◌<◌, ◌||◌, not, nat_lt, [], length, map, None, IfOk};
ghost use Rattle.std.specs.List.{AllByRecursion};
ghost use Rattle.toml.specs.View.{items_view};
ghost use Rattle.jt_limits.specs.Limits.{limits};
ghost use Rattle.board_tables.specs.Fields.{tables_in};
ghost use Rattle.board_tables.specs.WordView.{texts_of};
ghost use Rattle.board_parts.specs.Pins.{twice_in_nets, unknown_in_nets};
ghost use Rattle.board_parts.specs.Parts.{net_of};
ghost use Rattle.board_parts.specs.Twice.{IsAmong, is_some_twice};
ghost use Rattle.board_plan.specs.Planned.{all_pins};
ghost use Rattle.board_plan.specs.View.{net as planned_net};
ghost use Rattle.board_file.specs.Ports as spec;
ghost use Rattle.board_file.specs.Wiring.{wire_fault};
ghost use Rattle.board_file.specs.View.{ChecksPins, IsMisfit};

use board_parts::{Unfound, first_twice, has_pin_twice, plan_known_nets};
use board_plan::PlannedNet;
use board_tables::Places;
use chip_instructions::SharedDevice;
use jt_limits::LIMITS;
use std::alloc::{AllocError, Global};
use toml::Value;

/// Why the pins and nets of a board file are refused.
pub(crate) enum Miswired<'t> {
    /// This text names no pin.
    UnknownPin(&'t str),
    /// The pin of this text stands before it.
    PinTwice(&'t str),
    /// There are too many devices or nets.
    TooLarge,
    Memory,
}

/// A board has at most so many devices.
const MOST_DEVICES: usize = LIMITS.devices;

/// A board has at most so many nets with a name.
const MOST_NETS: usize = LIMITS.nets;

/// The nets, where pins and nets fit, given the names of all devices, and the devices.
pub(crate) fn plan_fitting<'t>(
    alloc: Global,
    names: &Places<&str>,
    devices: &[SharedDevice],
    nets: &'t [Value],
) -> Result<Vec<PlannedNet>, Miswired<'t>>
    ensures judged { ChecksPins result
        (wire_fault (texts_of names.now) devices.now (tables_in (items_view nets.now))) }
    ensures nets { IfOk result (λ v. map planned_net v.items
        ≡ map (net_of (texts_of names.now) devices.now) (tables_in (items_view nets.now))) }
{
    let planned = match plan_known_nets(alloc, names, devices, nets) {
        Ok(planned) => planned,
        Err(Unfound::Unknown(text)) => return Err(Miswired::UnknownPin(text)),
        Err(Unfound::Memory) => return Err(Miswired::Memory),
    };
    match may_fit(alloc, names, devices, &planned) {
        Ok(true) => {}
        Ok(false) => {
            // The nets are let go before a tree of all pins is made.
            drop(planned);
            return Err(misfit(alloc, names, devices, nets));
        }
        Err(_) => return Err(Miswired::Memory),
    }
    if count_tables(nets) > MOST_NETS {
        return Err(Miswired::TooLarge);
    }
    Ok(planned)
}

/// Whether there are not too many devices, and no pin of these nets stands twice.
fn may_fit(
    alloc: Global,
    names: &Places<&str>,
    devices: &[SharedDevice],
    planned: &[PlannedNet],
) -> Result<bool, AllocError>
    requires { AllByRecursion (IsAmong (length devices.now) (spec.most_ports devices.now))
        (all_pins (map planned_net planned.now)) }
    ensures { IfOk result (λ r. r
        ≡ not (nat_lt limits.devices (length names.now) || is_some_twice [] (all_pins (map planned_net planned.now)))) }
{
    Ok(
        names.len() <= MOST_DEVICES
            && !has_pin_twice(alloc, devices.len(), most_ports(devices), planned)?,
    )
}

/// Why a board is refused on which a pin stands twice, or that has too many devices.
fn misfit<'t>(
    alloc: Global,
    names: &Places<&str>,
    devices: &[SharedDevice],
    nets: &'t [Value],
) -> Miswired<'t>
    requires known { unknown_in_nets (texts_of names.now) devices.now (tables_in (items_view nets.now)) ≡ None }
    requires misfit { twice_in_nets (texts_of names.now) devices.now [] (tables_in (items_view nets.now)) ≡ None
        → limits.devices < length names.now }
    ensures { IsMisfit result (wire_fault (texts_of names.now) devices.now (tables_in (items_view nets.now))) }
{
    match first_twice(alloc, names, devices, nets) {
        Ok(Some(text)) => Miswired::PinTwice(text),
        Ok(None) => Miswired::TooLarge,
        Err(_) => Miswired::Memory,
    }
}

/// The most port bits that one of the devices has.
fn most_ports(devices: &[SharedDevice]) -> usize
    ensures { result ≡ spec.most_ports devices.now }
{
    let mut most = 0;
    for device in devices {
        most = most.max(device.get().port_count());
    }
    most
}

fn count_tables(items: &[Value]) -> usize
    ensures { result ≡ length (tables_in (items_view items.now)) }
{
    items.iter().filter(|item| item.is_table()).count()
}
