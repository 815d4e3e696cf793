//! Where a bit that came out of a scan stood.
ghost use Rattle.std.specs.Prelude.{◌≡◌, ◌<◌, Some, length, option_and_then, option_map, slice_get};
ghost use Rattle.std.specs.Prelude.{true};
ghost use Rattle.std.specs.List.{position};
ghost use Rattle.jt_tap.specs.declared.Column.TheVariants.{Dr};
ghost use Rattle.chip_instructions.specs.Instruction.{instruction, meaning, meaning_of};
ghost use Rattle.boundary.specs.Cells as cells;
ghost use Rattle.board_model.specs.Chain.{members};
ghost use Rattle.board_chips.specs.WiredChips.{chip_state, member_of};
ghost use Rattle.board_reasons.specs.Holders as spec;
ghost use Rattle.board_reasons.specs.Origins.{origin};
ghost use Rattle.board_reasons.specs.Reasons.{reason};
ghost use Rattle.scan_vectors.specs.Held.{bits};
ghost use Rattle.board_reasons.specs.Planned.{CaptureAlike, updates_at};
ghost use Rattle.board_reasons.specs.Within.{IsOfDevice};

use crate::origins::{Captured, Holder, NetLevel, Origin, Reason, SelectedBy};
use crate::vectors::{place_in, wanted_at};
use crate::words::cell_at;
use board_chain::{Chain, WiredChip};
use board_plan::PlannedDevice;
use bsdl_device::{Device, Function, Opcode};
use jt_tap::Column;
use scan_registers::{Link, Selected};
use scan_vectors::{Mismatch, Part, Vector};

/// Where bit `k` of what comes out of a chain, whose registers have captured, stands: in the registers of the column
/// joined from TDO on, or among the bits that go in. Takes no memory.
pub fn origin_of(chain: &Chain, column: Column, k: usize) -> Origin
    ensures value { result ≡ origin column (members chain.now.chips) k }
    ensures within { IsOfDevice (length chain.now.chips) result }
{
    let mut rest = k;
    for device in 0..chain.devices() {
        let len = chain.chip(device).register_len(column);
        if rest < len {
            return Origin::Register { device, bit: rest };
        }
        rest -= len;
    }
    Origin::Tdi(rest)
}

/// What holds bit `k` of what comes out of a chain whose registers have captured and into which this vector goes: the
/// register with the instruction that selected it, the cell with what it captured, or the bit that went in. Takes no
/// memory.
///
/// Asks that the devices are those that the chain was planned of, as far as EXTEST captures their update stages or not.
pub fn holder_of(
    chain: &Chain,
    devices: &[PlannedDevice],
    column: Column,
    vector: &Vector,
    k: usize,
) -> Holder
    requires { CaptureAlike devices.now (members chain.now.chips) }
    ensures { result ≡ spec.holder chain.now.nets (members chain.now.chips) column (bits vector.now) k }
{
    match origin_of(chain, column, k) {
        Origin::Tdi(bit) => gone_in(vector, bit),
        Origin::Register { device, bit } => held_in(chain, devices, column, device, bit),
    }
}

/// Why a failing bit of a vector did not come out of a chain whose registers have captured: what was wanted, and what
/// held the bit that came. Takes no memory.
///
/// Asks that the devices are those that the chain was planned of, as far as EXTEST captures their update stages or not.
pub fn reason_of(
    chain: &Chain,
    devices: &[PlannedDevice],
    column: Column,
    vector: &Vector,
    failure: Mismatch,
) -> Reason
    requires { CaptureAlike devices.now (members chain.now.chips) }
    ensures { result ≡ reason chain.now.nets (members chain.now.chips) column (bits vector.now) failure }
{
    let place = place_in(vector, failure.part, failure.bit);
    Reason {
        wanted: wanted_at(vector, place),
        holder: holder_of(chain, devices, column, vector, place),
    }
}

/// The bit of a vector that went in, by its part and its place there.
fn gone_in(vector: &Vector, k: usize) -> Holder
    ensures { result ≡ spec.gone_in (bits vector.now) k }
{
    if k >= vector.len() {
        let part = Part::Data;
        return Holder::Tdi { part, bit: k };
    }
    let (part, bit) = vector.part(k);
    Holder::Tdi { part, bit }
}

/// What holds a bit of a device.
fn held_in(
    chain: &Chain,
    devices: &[PlannedDevice],
    column: Column,
    device: usize,
    bit: usize,
) -> Holder
    requires inside { device < length chain.now.chips }
    requires alike { CaptureAlike devices.now (members chain.now.chips) }
    ensures { option_map (spec.held_in chain.now.nets (members chain.now.chips) column device bit)
        (slice_get (members chain.now.chips) device) ≡ Some result }
{
    let chip = chain.chip(device);
    match column {
        Column::Ir => Holder::Instruction { device, bit },
        Column::Dr => in_register(chain, devices, chip, device, bit),
    }
}

/// What holds a bit of the data register that the instruction of this device selects.
fn in_register(
    chain: &Chain,
    devices: &[PlannedDevice],
    chip: &WiredChip,
    device: usize,
    bit: usize,
) -> Holder
    requires inside { device < length chain.now.chips }
    requires alike { CaptureAlike devices.now (members chain.now.chips) }
    requires chip { slice_get chain.now.chips device ≡ Some (chip_state chip.now) }
    ensures { option_map (spec.held_in chain.now.nets (members chain.now.chips) Dr device bit)
        (slice_get (members chain.now.chips) device) ≡ Some result }
{
    match chip.selected() {
        Selected::Bypass => Holder::Bypass {
            device,
            by: selected_by(chip),
        },
        Selected::Identification => Holder::Identification { device, bit },
        Selected::Boundary => Holder::Cell {
            device,
            cell: bit,
            captured: captured_at(chain, devices, chip, device, bit),
        },
        Selected::User(register) => Holder::User {
            device,
            register,
            bit,
        },
    }
}

/// By which instruction the register of a device is selected.
fn selected_by(chip: &WiredChip) -> SelectedBy
    ensures { result ≡ spec.selected_by chip.now.chip.device.opcodes
        (instruction chip.now.chip.device chip.now.chip.latch) }
{
    match chip.instruction() {
        Some(name) => row_of(chip.device().opcodes(), name),
        None => SelectedBy::NoRow,
    }
}

/// By which row an instruction with this name is known: by the first that has the name.
fn row_of(rows: &[Opcode], name: &str) -> SelectedBy
    ensures { result ≡ spec.selected_by rows.now (Some name.now) }
{
    match place_of(rows, name) {
        Some(row) => SelectedBy::Row(row),
        None => SelectedBy::AllOnes,
    }
}

/// The place of the first row of an instruction that has a name.
fn place_of(rows: &[Opcode], name: &str) -> Option<usize>
    ensures { result ≡ position (spec.is_named name.now) rows.now }
{
    rows.iter().position(|row| is_named(name, row))
}

/// Whether a row is of the instruction with this name.
fn is_named(name: &str, row: &Opcode) -> bool
    ensures { result ≡ spec.is_named name.now row.now }
{
    row.name() == name
}

/// What a cell of a device captured, by its number.
fn captured_at(
    chain: &Chain,
    devices: &[PlannedDevice],
    chip: &WiredChip,
    device: usize,
    cell: usize,
) -> Captured
    requires inside { device < length chain.now.chips }
    requires alike { CaptureAlike devices.now (members chain.now.chips) }
    requires chip { slice_get chain.now.chips device ≡ Some (chip_state chip.now) }
    ensures { result ≡ spec.captured_at chain.now.nets (members chain.now.chips) device cell (member_of chip.now) }
{
    let from_update = takes_update(devices, chip, device);
    let net = cell_level(chain, chip, device, cell);
    match cell_at(chip.device(), cell) {
        Some(found) => captured_by(from_update, net, found.port, found.function),
        None => Captured::Core,
    }
}

/// The net of the port of a cell, with its level.
fn cell_level(chain: &Chain, chip: &WiredChip, device: usize, cell: usize) -> Option<NetLevel>
    requires inside { device < length chain.now.chips }
    requires chip { slice_get chain.now.chips device ≡ Some (chip_state chip.now) }
    ensures { result
        ≡ spec.cell_level chain.now.nets (members chain.now.chips) device cell chip.now.chip.device }
{
    net_level(chain, chain.cell_net(device, cell))
}

/// What one cell captures.
fn captured_by(
    from_update: bool,
    net: Option<NetLevel>,
    port: Option<usize>,
    function: Function,
) -> Captured
    ensures { result ≡ spec.captured_by from_update net port function }
{
    match (port, function) {
        (Some(_), Function::Input | Function::Clock | Function::ObserveOnly | Function::Bidir) => {
            Captured::Sight(net)
        }
        (_, Function::Internal) => Captured::Core,
        _ if from_update => Captured::Update,
        _ => Captured::Core,
    }
}

/// Whether a capture of a device takes its update stage.
fn takes_update(devices: &[PlannedDevice], chip: &WiredChip, device: usize) -> bool
    ensures { result ≡ cells.takes_update (updates_at devices.now device)
        (meaning chip.now.chip.device chip.now.chip.latch).mode }
{
    updates(devices, device) && is_in_extest(chip)
}

/// Whether EXTEST captures the update stage of the device at a place.
fn updates(devices: &[PlannedDevice], device: usize) -> bool
    ensures { result ≡ updates_at devices.now device }
{
    match devices.get(device) {
        Some(planned) => planned.extest_update,
        None => false,
    }
}

/// Whether the instruction of a device is EXTEST.
fn is_in_extest(chip: &WiredChip) -> bool
    ensures { result ≡ cells.takes_update true (meaning chip.now.chip.device chip.now.chip.latch).mode }
{
    match chip.instruction() {
        Some(name) => is_extest(chip.device(), name),
        None => false,
    }
}

/// Whether an instruction is EXTEST, and not one of the device's private ones.
fn is_extest(device: &Device, name: &str) -> bool
    ensures { result ≡ cells.takes_update true (meaning_of device.now (Some name.now)).mode }
{
    name == "EXTEST" && !device.is_private(name)
}

/// A net with its level.
fn net_level(chain: &Chain, net: Option<usize>) -> Option<NetLevel>
    ensures { result ≡ option_and_then (spec.net_level chain.now.nets (members chain.now.chips)) net }
{
    let net = net?;
    if net < chain.nets() {
        let level = chain.level(net);
        Some(NetLevel { net, level })
    } else {
        None
    }
}
