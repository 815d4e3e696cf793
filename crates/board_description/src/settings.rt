//! The lines of what decides what a device shows and captures: its user code, its core, its strings and its ports.
ghost use Rattle.std.specs.Prelude.{◌≡◌, ◌++◌, ℕ, OnOk, flat_map, length, map};
ghost use Rattle.bsdl_device.specs.View.{port_bit};
ghost use Rattle.board_plan.specs.CellNets.{HasNets};
ghost use Rattle.board_plan.specs.View.{member as planned_member, net as planned_net};
ghost use Rattle.board_description.specs.Described as spec;
ghost use Rattle.board_description.specs.Described.{follow_line, setting_lines};
ghost use Rattle.board_description.specs.Words as words;

use crate::cells::{put_net, put_port};
use crate::text::CODE_DIGITS;
use crate::words::mode_word;
use board_plan::{PlannedDevice, PlannedNet};
use bsdl_device::{Device, PortBit};
use chip_instructions::Bits;
use output_words::{put, put_bits, put_hexadecimal};
use pin_nets::Follow;
use std::alloc::AllocError;

/// Puts the lines of a device's user code, core, strings and ports behind a text, given of each of its port bits the
/// first net that it is on. Refuses for want of memory alone.
pub(crate) fn put_settings(
    text: &mut Vec<u8>,
    nets: &[PlannedNet],
    table: &[Option<usize>],
    planned: &PlannedDevice,
) -> Result<(), AllocError>
    requires long { length table.now ≡ length planned.now.device.ports }
    ensures { (place : ℕ) → HasNets place (map planned_net nets.now) table.now → OnOk result (text.new.items
        ≡ text.old.items ++ setting_lines (map planned_net nets.now) place (planned_member planned.now)) }
{
    let name = planned.name.as_str();
    let device = planned.device.get();
    put_usercode(text, name, device)?;
    put_core(text, name, &planned.core, planned.extest_update)?;
    put_follows(text, name, device, &planned.follows)?;
    put_ports(text, nets, table, name, device)
}

/// Puts the line of a device's user code behind a text, nothing where it has none.
fn put_usercode(text: &mut Vec<u8>, name: &str, device: &Device) -> Result<(), AllocError>
    ensures { OnOk result (text.new.items ≡ text.old.items ++ spec.usercode_line name.now device.now) }
{
    match device.usercode() {
        None => Ok(()),
        Some(code) => {
            put(text, &[name.as_bytes(), b" usercode 0x"])?;
            put_hexadecimal(text, code, CODE_DIGITS)?;
            put(text, &[b"\n"])
        }
    }
}

/// Puts the line of a core behind a text: its constant bits, cell 0 last, and what EXTEST captures.
fn put_core(text: &mut Vec<u8>, name: &str, core: &Bits, update: bool) -> Result<(), AllocError>
    ensures { OnOk result (text.new.items ≡ text.old.items ++ spec.core_line name.now core.now update) }
{
    put(text, &[name.as_bytes(), b" core "])?;
    put_bits(text, core)?;
    put(text, &[extest_words(update)])
}

fn extest_words(update: bool) -> &'static [u8]
    ensures { result.now ≡ spec.extest_words update }
{
    if update {
        b" extest update\n"
    } else {
        b" extest core\n"
    }
}

/// Puts a line for each string of a device behind a text.
#[tactic(auto, using(output_words::proofs::TextLaws::flat_map_more))]
fn put_follows(
    text: &mut Vec<u8>,
    name: &str,
    device: &Device,
    follows: &[Follow],
) -> Result<(), AllocError>
    ensures { OnOk result (text.new.items
        ≡ text.old.items ++ flat_map (follow_line name.now device.now) follows.now) }
{
    for follow in follows {
        put_follow(text, name, device, *follow)?;
    }
    Ok(())
}

/// Puts the line of a string behind a text: the port that it drives, and the port that it sees.
fn put_follow(
    text: &mut Vec<u8>,
    name: &str,
    device: &Device,
    follow: Follow,
) -> Result<(), AllocError>
    ensures { OnOk result (text.new.items ≡ text.old.items ++ follow_line name.now device.now follow) }
{
    put(text, &[name.as_bytes(), b" follow "])?;
    put_target(text, device, follow.cell)?;
    put(text, &[equals_words(follow.inverted)])?;
    put_port_of(text, device, follow.source)?;
    put(text, &[b"\n"])
}

fn equals_words(inverted: bool) -> &'static [u8]
    ensures { result.now ≡ spec.equals_words inverted }
{
    if inverted { b" = !" } else { b" = " }
}

/// Puts the port that a cell drives behind a text, nothing where the device has no such cell.
fn put_target(text: &mut Vec<u8>, device: &Device, cell: usize) -> Result<(), AllocError>
    ensures { OnOk result (text.new.items ≡ text.old.items ++ spec.target_words device.now cell) }
{
    match device.cells().get(cell) {
        Some(cell) => put_port_if(text, device, cell.port),
        None => Ok(()),
    }
}

/// Puts a port bit behind a text, nothing where there is none.
fn put_port_if(text: &mut Vec<u8>, device: &Device, port: Option<usize>) -> Result<(), AllocError>
    ensures { OnOk result (text.new.items ≡ text.old.items ++ spec.port_if device.now port) }
{
    match port {
        Some(port) => put_port_of(text, device, port),
        None => Ok(()),
    }
}

/// Puts the port bit of a number behind a text, nothing where the device has none of it.
pub(crate) fn put_port_of(
    text: &mut Vec<u8>,
    device: &Device,
    port: usize,
) -> Result<(), AllocError>
    ensures { OnOk result (text.new.items ≡ text.old.items ++ words.port_of device.now port) }
{
    if port < device.port_count() {
        put_port(text, device.port(port))
    } else {
        Ok(())
    }
}

/// Puts a line for each port bit of a device behind a text, given of each the first net that it is on.
fn put_ports(
    text: &mut Vec<u8>,
    nets: &[PlannedNet],
    table: &[Option<usize>],
    name: &str,
    device: &Device,
) -> Result<(), AllocError>
    requires long { length table.now ≡ length device.now.ports }
    ensures { (place : ℕ) → HasNets place (map planned_net nets.now) table.now → OnOk result (text.new.items
        ≡ text.old.items ++ spec.port_lines (map planned_net nets.now) place name.now 0 device.now.ports) }
{
    for (port, net) in table.iter().enumerate() {
        put_port_line(text, nets, name, device.port(port), *net)?;
    }
    Ok(())
}

/// Puts the line of a port bit behind a text, given the first net that it is on.
fn put_port_line(
    text: &mut Vec<u8>,
    nets: &[PlannedNet],
    name: &str,
    port: PortBit<'_>,
    net: Option<usize>,
) -> Result<(), AllocError>
    ensures { OnOk result (text.new.items
        ≡ text.old.items ++ spec.port_line (map planned_net nets.now) name.now (port_bit port.entry) net) }
{
    put(text, &[name.as_bytes(), b" port "])?;
    put_port(text, port)?;
    put(text, &[b" ", mode_word(port.mode)])?;
    if port.is_tap {
        put(text, &[b" tap"])?;
    } else {
        put_net(text, nets, net)?;
    }
    put(text, &[b"\n"])
}
