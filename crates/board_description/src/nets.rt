//! The lines of nets, and of the chain.
ghost use Rattle.std.specs.Prelude.{◌≡◌, ◌++◌, OnOk, flat_map, length, map};
ghost use Rattle.board_plan.specs.View.{member as planned_member, net as planned_net, wiring};
ghost use Rattle.board_description.specs.Described as spec;
ghost use Rattle.board_description.specs.Described.{boundary_length, instruction_length, total};

use crate::settings::put_port_of;
use crate::words::pull_word;
use board_plan::{Plan, PlannedDevice, PlannedNet};
use itoa::Buffer;
use output_words::put;
use pin_nets::Pin;
use std::alloc::AllocError;

/// Puts the lines of a board's nets, of its devices' first bits and of its chain behind a text.
pub(crate) fn put_wiring(text: &mut Vec<u8>, plan: &Plan) -> Result<(), AllocError>
    ensures { OnOk result (text.new.items ≡ text.old.items ++ spec.wiring_lines (wiring plan.now)) }
{
    put_nets(text, plan)?;
    put_places(text, &plan.devices)?;
    put_chain(text, &plan.devices)
}

/// Puts the lines of a board's nets behind a text.
#[tactic(auto, using(output_words::proofs::TextLaws::flat_map_more))]
fn put_nets(text: &mut Vec<u8>, plan: &Plan) -> Result<(), AllocError>
    ensures { OnOk result (text.new.items ≡ text.old.items ++ spec.net_lines (wiring plan.now)) }
{
    for net in &plan.nets {
        put_net(text, &plan.devices, net)?;
    }
    Ok(())
}

/// Puts the line of a net behind a text.
fn put_net(
    text: &mut Vec<u8>,
    devices: &[PlannedDevice],
    net: &PlannedNet,
) -> Result<(), AllocError>
    ensures { OnOk result (text.new.items
        ≡ text.old.items ++ spec.net_line (map planned_member devices.now) (planned_net net.now)) }
{
    put(text, &[b"net ", net.name.as_bytes(), b" pull "])?;
    put(text, &[pull_word(net.pull)])?;
    put_pins(text, devices, &net.pins)?;
    put(text, &[b"\n"])
}

/// Puts pins behind a text.
#[tactic(auto, using(output_words::proofs::TextLaws::flat_map_more))]
fn put_pins(text: &mut Vec<u8>, devices: &[PlannedDevice], pins: &[Pin]) -> Result<(), AllocError>
    ensures { OnOk result (text.new.items
        ≡ text.old.items ++ flat_map (spec.pin_words (map planned_member devices.now)) pins.now) }
{
    for pin in pins {
        put_pin(text, devices, *pin)?;
    }
    Ok(())
}

/// Puts a pin behind a text, a blank before it, nothing where it is of no device of the board. Refuses for want of
/// memory alone.
#[tactic(auto, using(crate::proofs::TextLaws::pin_there, crate::proofs::TextLaws::pin_nowhere))]
pub fn put_pin(text: &mut Vec<u8>, devices: &[PlannedDevice], pin: Pin) -> Result<(), AllocError>
    ensures { OnOk result (text.new.items
        ≡ text.old.items ++ spec.pin_words (map planned_member devices.now) pin) }
{
    if pin.device < devices.len() {
        let device = &devices[pin.device];
        put(text, &[b" ", device.name.as_bytes(), b"."])?;
        put_port_of(text, device.device.get(), pin.port)
    } else {
        Ok(())
    }
}

/// Puts a line for each device behind a text: the first bits of its instruction and boundary registers, where the chain
/// joins those of all devices.
fn put_places(text: &mut Vec<u8>, devices: &[PlannedDevice]) -> Result<(), AllocError>
    ensures { OnOk result (text.new.items
        ≡ text.old.items ++ spec.place_lines 0 0 (map planned_member devices.now)) }
{
    let mut instruction: u128 = 0;
    let mut boundary: u128 = 0;
    for device in devices {
        put_place(text, &device.name, instruction, boundary)?;
        instruction += device.device.get().instruction_length() as u128;
        boundary += device.device.get().cells().len() as u128;
    }
    Ok(())
}

/// Puts the line of a device's first bits behind a text.
fn put_place(
    text: &mut Vec<u8>,
    name: &str,
    instruction: u128,
    boundary: u128,
) -> Result<(), AllocError>
    ensures { OnOk result (text.new.items ≡ text.old.items ++ spec.place_line instruction boundary name.now) }
{
    let mut first = Buffer::new();
    let mut second = Buffer::new();
    put(
        text,
        &[
            name.as_bytes(),
            b" first instruction bit ",
            first.format(instruction).as_bytes(),
            b" first boundary bit ",
            second.format(boundary).as_bytes(),
            b"\n",
        ],
    )
}

/// Puts the line of the chain behind a text.
fn put_chain(text: &mut Vec<u8>, devices: &[PlannedDevice]) -> Result<(), AllocError>
    ensures { OnOk result (text.new.items ≡ text.old.items ++ spec.chain_line (map planned_member devices.now)) }
{
    let mut count = Buffer::new();
    let mut instruction = Buffer::new();
    let mut boundary = Buffer::new();
    put(
        text,
        &[
            b"chain ",
            count.format(devices.len()).as_bytes(),
            b" devices, ",
            instruction.format(instruction_bits(devices)).as_bytes(),
            b" instruction bits, ",
            boundary.format(boundary_bits(devices)).as_bytes(),
            b" boundary bits\n",
        ],
    )
}

/// How many bits the joined instruction registers have.
#[tactic(auto, using(crate::proofs::TextLaws::total_next))]
fn instruction_bits(devices: &[PlannedDevice]) -> u128
    ensures { result ≡ total instruction_length (map planned_member devices.now) }
{
    let mut bits = 0;
    for device in devices {
        bits += device.device.get().instruction_length() as u128;
    }
    bits
}

/// How many bits the joined boundary registers have.
#[tactic(auto, using(crate::proofs::TextLaws::total_next))]
fn boundary_bits(devices: &[PlannedDevice]) -> u128
    ensures { result ≡ total boundary_length (map planned_member devices.now) }
{
    let mut bits = 0;
    for device in devices {
        bits += device.device.get().cells().len() as u128;
    }
    bits
}
