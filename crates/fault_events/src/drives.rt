//! What numbered pins drive.
ghost use Rattle.std.specs.Prelude.{◌≡◌, ◌++◌, ◌∷◌, [], map, OnOk};
ghost use Rattle.jt_bits.specs.Words.{bit_of};
ghost use Rattle.boundary.specs.Cells as cells;
ghost use Rattle.board_chips.specs.WiredChips.{member_of};
ghost use Rattle.board_faults.specs.Together.{driven};
ghost use Rattle.board_model.specs.Chain.{members};
ghost use Rattle.board_plan.specs.View.{member as planned_member};
ghost use Rattle.chip_instructions.specs.Fitting.{IsFormed};
ghost use Rattle.fault_events.specs.Drives.{mode_of, modes, started, wire_drive};
ghost use Rattle.fault_events.specs.Parts.{planned_parts};
ghost use Rattle.fault_events.specs.Numbers.{AllFormed};

use crate::notes::Note;
use board_chain::{Chain, WiredChip};
use board_faults::Driven;
use board_plan::PlannedDevice;
use bsdl_device::{Cell, Control3, Disabled};
use chip_instructions::{Mode, decode};
use jt_bits::Bits;
use pin_nets::Drive;
use std::alloc::AllocError;

/// The device of a pin, and the cell that drives it there, if one does.
#[derive(Drop, Clone, Copy)]
pub(crate) struct PinWire {
    pub(crate) device: usize,
    pub(crate) driver: Option<usize>,
}

/// Puts how each device drives its pins behind those listed, from TDO on. Refused where memory runs out.
pub(crate) fn put_modes(chain: &Chain, list: &mut Vec<Mode>) -> Result<(), AllocError>
    requires { AllFormed (members chain.now.chips) }
    ensures { OnOk result (list.new.items ≡ list.old.items ++ modes (members chain.now.chips)) }
{
    for device in 0..chain.devices() {
        list.push(chip_mode(chain.chip(device)))?;
    }
    Ok(())
}

/// How a device drives its pins.
fn chip_mode(chip: &WiredChip) -> Mode
    requires { IsFormed chip.now.chip.device }
    ensures { result ≡ mode_of (member_of chip.now) }
{
    decode(chip.device(), chip.latch()).mode
}

/// Puts behind those listed the note of each pin before any bit is marked: its drive. Refused where memory runs out.
pub(crate) fn put_started(
    chain: &Chain,
    devices: &[PlannedDevice],
    how: &[Mode],
    wires: &[PinWire],
    list: &mut Vec<Note>,
) -> Result<(), AllocError>
    requires same { planned_parts (members chain.now.chips) ≡ map planned_member devices.now }
    requires how { how.now ≡ modes (members chain.now.chips) }
    ensures { OnOk result (list.new.items ≡ list.old.items ++ map (started (members chain.now.chips)) wires.now) }
{
    for wire in wires {
        list.push(Note {
            made: driven_by(drive_of(chain, devices, how, *wire)),
            first: None,
            stays: false,
        })?;
    }
    Ok(())
}

/// What a pin drives.
fn drive_of(chain: &Chain, devices: &[PlannedDevice], how: &[Mode], wire: PinWire) -> Drive
    requires same { planned_parts (members chain.now.chips) ≡ map planned_member devices.now }
    requires how { how.now ≡ modes (members chain.now.chips) }
    ensures { result ≡ wire_drive (members chain.now.chips) wire }
{
    let device = wire.device;
    if device >= chain.devices() {
        return Drive::Nothing;
    }
    chip_drive(
        chain.chip(device),
        how[device],
        &devices[device].core,
        wire.driver,
    )
}

/// What a pin of a device drives in a mode whose driving cell is this one, by the core's bits.
fn chip_drive(chip: &WiredChip, mode: Mode, core: &Bits, driver: Option<usize>) -> Drive
    ensures { result
        ≡ cells.driven_in mode chip.now.chip.device.cells chip.now.chip.boundary.update core.now driver }
{
    let list = chip.device().cells();
    match mode {
        Mode::HighZ => Drive::Nothing,
        Mode::Extest | Mode::Clamp => driven_at(list, chip.boundary_update(), driver),
        Mode::Core => driven_at(list, core, driver),
    }
}

/// What the driving cell drives under the bits in force.
fn driven_at(list: &[Cell], bits: &Bits, driver: Option<usize>) -> Drive
    ensures { result ≡ cells.drive_of_driver bits.now driver list.now }
{
    match driver {
        None => Drive::Nothing,
        Some(k) => match list.get(k) {
            None => Drive::Nothing,
            Some(cell) => cell_drive(bits, k, cell.control),
        },
    }
}

fn cell_drive(bits: &Bits, k: usize, control: Option<Control3>) -> Drive
    ensures { result ≡ cells.cell_drive bits.now k control }
{
    match control {
        Some(control) if bit(bits, control.cell) == control.disabling => left_by(control.leaves),
        _ => Drive::Strong(bit(bits, k)),
    }
}

fn left_by(leaves: Disabled) -> Drive
    ensures { result ≡ cells.left_by leaves }
{
    match leaves {
        Disabled::Z | Disabled::Keeper => Drive::Nothing,
        Disabled::Weak0 | Disabled::Pull0 => Drive::Weak(false),
        Disabled::Weak1 | Disabled::Pull1 => Drive::Weak(true),
    }
}

fn bit(bits: &Bits, k: usize) -> bool
    ensures { result ≡ bit_of bits.now k }
{
    k < bits.len() && bits.get(k)
}

/// What one drive comes to, as ports see it.
fn driven_by(drive: Drive) -> Driven
    ensures { result ≡ driven (drive ∷ []) }
{
    Driven {
        zero: matches!(drive, Drive::Strong(false)),
        one: matches!(drive, Drive::Strong(true)),
        weak: matches!(drive, Drive::Weak(false)),
    }
}
