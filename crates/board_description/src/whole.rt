//! A whole board, described.
ghost use Rattle.std.specs.Prelude.{◌≡◌, ◌++◌, ℕ, OnOk, IfOk, map, string_bytes, length};
ghost use Rattle.board_plan.specs.AllCellNets.{HaveNets, lists_of};
ghost use Rattle.board_plan.specs.CellNets.{HasNets};
ghost use Rattle.board_plan.specs.View.{member as planned_member, net as planned_net, wiring};
ghost use Rattle.board_description.specs.Described as spec;
ghost use Rattle.board_description.specs.Described.{described, device_lines};
ghost use Rattle.board_description.specs.Kept.{Told};

use crate::cells::put_cells;
use crate::instructions::put_instructions;
use crate::nets::put_wiring;
use crate::settings::put_settings;
use crate::text::put_code;
use board_plan::{Plan, PlannedDevice, PlannedNet, all_port_nets};
use bsdl_device::Device;
use byte_streams::{Broken, Counted, Sink, put_all};
use chip_instructions::{instruction_of, reset_latch};
use itoa::Buffer;
use output_words::{put, put_bits, put_shown};
use std::alloc::{AllocError, Global};

/// Why what is to be told of a board was not told to its end.
#[derive(Debug, Clone, Copy, PartialEq, Eq)]
pub enum Untold {
    /// A write was lost.
    Broken,
    /// A growth was refused.
    NoMemory,
}

impl From<AllocError> for Untold {
    ghost use Rattle.board_description.specs.declared.whole.Untold.TheVariants.{NoMemory};

    ghost from_gives = { λ _ e. e ≡ NoMemory };

    fn from(_: AllocError) -> Untold {
        Untold::NoMemory
    }
}

impl From<Broken> for Untold {
    ghost use Rattle.board_description.specs.declared.whole.Untold.TheVariants.{Broken};

    ghost from_gives = { λ _ e. e ≡ Broken };

    fn from(_: Broken) -> Untold {
        Untold::Broken
    }
}

/// Writes what a test engineer needs to know of a board: of each device, from the one nearest TDO on, a line of its
/// own, one for its user code and one for its core, and one for each string, port bit, opcode of an instruction and
/// cell; then one for each net with a name, one for the first bits of each device, and one for the chain. A device
/// whose description is in no file has `-` for its file.
///
/// The lines of a device are made before they are written, so memory is in proportion to the longest of them.
pub fn write_description<W: Sink>(
    alloc: Global,
    plan: &Plan,
    out: &mut Counted<W>,
) -> Result<(), Untold>
    requires { out.old.failures ≡ 0 }
    ensures { Told W.contents out.old out.new
        (described (map spec.shown_file plan.now.devices.items) (wiring plan.now)) result }
{
    let tables = all_port_nets(alloc, &plan.nets, &plan.devices)?;
    write_devices(alloc, &plan.devices, &plan.nets, &tables, out)?;
    let mut text = Vec::new(alloc);
    put_wiring(&mut text, plan)?;
    put_all(out, &text)?;
    Ok(())
}

/// Writes the lines of the devices, given of each port bit of each the first net that it is on.
fn write_devices<W: Sink>(
    alloc: Global,
    devices: &[PlannedDevice],
    nets: &[PlannedNet],
    tables: &[Vec<Option<usize>>],
    out: &mut Counted<W>,
) -> Result<(), Untold>
    requires whole { out.old.failures ≡ 0 }
    requires tables { HaveNets 0 (map planned_member devices.now) (map planned_net nets.now) (lists_of tables.now) }
    ensures { Told W.contents out.old out.new
        (device_lines (map planned_net nets.now) 0 (map spec.shown_file devices.now) (map planned_member devices.now))
        result }
{
    let count = devices.len();
    let mut place = 0;
    while place < count {
        let text = device_text(alloc, &devices[place], nets, &tables[place])?;
        put_all(out, &text)?;
        place += 1;
    }
    Ok(())
}

/// The lines of a device, given of each of its port bits the first net that it is on.
fn device_text(
    alloc: Global,
    planned: &PlannedDevice,
    nets: &[PlannedNet],
    table: &[Option<usize>],
) -> Result<Vec<u8>, AllocError>
    requires long { length table.now ≡ length planned.now.device.ports }
    ensures { (place : ℕ) → HasNets place (map planned_net nets.now) table.now
        → IfOk result (λ v. v.items ≡ spec.device_part (map planned_net nets.now) place (spec.shown_file planned.now)
        (planned_member planned.now)) }
{
    let mut text = Vec::new(alloc);
    let file = shown_file(planned);
    let name = planned.name.as_str();
    let device = planned.device.get();
    put_device(alloc, &mut text, file, name, device)?;
    put_settings(&mut text, nets, table, planned)?;
    put_instructions(alloc, &mut text, name, device)?;
    put_cells(&mut text, nets, table, name, device)?;
    Ok(text)
}

/// The file of a device's description, `-` where it is in none.
fn shown_file(planned: &PlannedDevice) -> &str
    ensures { result.now ≡ spec.shown_file planned.now }
{
    match &planned.file {
        Some(file) => file.as_str(),
        None => "-",
    }
}

/// Puts the line of a device itself behind a text.
fn put_device(
    alloc: Global,
    text: &mut Vec<u8>,
    file: &str,
    name: &str,
    device: &Device,
) -> Result<(), AllocError>
    ensures { OnOk result (text.new.items ≡ text.old.items ++ spec.device_line file.now name.now device.now) }
{
    let mut digits = Buffer::new();
    put(text, &[name.as_bytes(), b" bsdl "])?;
    put_shown(text, file)?;
    put(
        text,
        &[
            b" length ",
            digits.format(device.instruction_length()).as_bytes(),
            b" capture ",
        ],
    )?;
    put_bits(text, device.capture())?;
    put_reset(alloc, text, device)?;
    put_code(text, device)?;
    put(text, &[b" trst ", yes_or_no(device.has_trst()), b"\n"])
}

/// Puts the instruction of a reset behind a text, and the word before the code.
fn put_reset(alloc: Global, text: &mut Vec<u8>, device: &Device) -> Result<(), AllocError>
    ensures { OnOk result (text.new.items ≡ text.old.items ++ spec.reset_words device.now) }
{
    let latch = reset_latch(alloc, device)?;
    match instruction_of(device, &latch) {
        Some(name) => put(text, &[b" reset ", name.as_bytes(), b" idcode "]),
        None => put(text, &[b" reset - idcode "]),
    }
}

fn yes_or_no(it_is: bool) -> &'static [u8]
    ensures { result.now ≡ spec.yes_or_no it_is }
{
    if it_is { b"yes" } else { b"no" }
}
