//! What is drawn besides, where it is asked for: of devices the name of the instruction, and TDO; and of pins what they
//! drive.

ghost use Rattle.std.specs.Prelude.{◌≡◌, ◌≤◌, true, length, zip};
ghost use Rattle.byte_streams.specs.Writes.{WritesAll};
ghost use Rattle.jt_limits.specs.Limits.{limits};
ghost use Rattle.board_chips.specs.WiredChips.{chip_state};
ghost use Rattle.wave_files.specs.Changes.{IsQuiet, KeepsInstructions};
ghost use Rattle.wave_files.specs.Extras as spec;
ghost use Rattle.wave_files.specs.Extras.{all_extra_changes, all_extra_lines, device_extra_changes, device_extra_lines};
ghost use Rattle.wave_files.specs.Extras.{extra_change, extra_lines};
ghost use Rattle.wave_files.specs.Values as values;
ghost use Rattle.wave_files.specs.Values.{by_numbers, extras_of_device, latch};

use crate::changes::{are_same, write_byte_change};
use crate::codes::{write_byte, write_word_line};
use crate::drives::{write_drive_changes, write_drive_values};
use crate::numbering::{EXTRAS_OF_DEVICE, first_of_extras};
use crate::shown::{UNDRIVEN, wire};
use board_chain::{Chain, WiredChip};
use byte_streams::{Broken, Counted, Sink, put_all};

/// What is drawn besides what always is.
#[derive(Debug, Clone, Copy, PartialEq, Eq)]
pub struct Extras {
    /// The name of each device's instruction, as a string.
    pub names: bool,
    /// Each device's TDO.
    pub tdos: bool,
    /// What each pin of a named net drives.
    pub drives: bool,
}

impl Extras {
    ghost use Rattle.std.specs.Prelude.{◌≡◌};
    ghost use Rattle.wave_files.specs.Extras.{draws_of_devices};

    /// Whether anything is drawn of devices besides.
    pub fn of_devices(self) -> bool
        ensures { result ≡ draws_of_devices self }
    {
        self.names || self.tdos
    }
}

/// Writes what is shown besides at the start.
pub(crate) fn write_extra_values<W: Sink>(
    extras: Extras,
    chain: &Chain,
    out: &mut Counted<W>,
) -> Result<(), Broken>
    requires none_lost { out.old.failures ≡ 0 }
    requires few { length chain.now.chips ≤ limits.devices }
    requires few_nets { length chain.now.nets ≤ limits.nets }
    ensures { WritesAll W.contents out.old out.new (all_extra_lines extras chain.now.chips chain.now.nets) result }
{
    write_values_of_devices(extras, chain, out)?;
    write_drive_values(extras.drives, chain, out)
}

/// Writes what is shown of devices besides at the start.
fn write_values_of_devices<W: Sink>(
    extras: Extras,
    chain: &Chain,
    out: &mut Counted<W>,
) -> Result<(), Broken>
    requires none_lost { out.old.failures ≡ 0 }
    requires few { length chain.now.chips ≤ limits.devices }
    requires few_nets { length chain.now.nets ≤ limits.nets }
    ensures { WritesAll W.contents out.old out.new (device_extra_lines extras chain.now.chips chain.now.nets) result }
{
    if !extras.of_devices() {
        return put_all(out, b"");
    }
    write_values(extras, first_of_extras(chain), chain, out)
}

/// Writes this of all devices, from a number on.
fn write_values<W: Sink>(
    extras: Extras,
    first: usize,
    chain: &Chain,
    out: &mut Counted<W>,
) -> Result<(), Broken>
    requires none_lost { out.old.failures ≡ 0 }
    requires few { length chain.now.chips ≤ limits.devices }
    requires early { first ≤ 200000 }
    ensures { WritesAll W.contents out.old out.new
        (by_numbers (extra_lines extras) extras_of_device first chain.now.chips) result }
{
    for i in 0..chain.devices() {
        let number = first + EXTRAS_OF_DEVICE * i;
        write_device_values(extras, number, chain.chip(i), out)?;
    }
    Ok(())
}

/// Writes this of a device.
fn write_device_values<W: Sink>(
    extras: Extras,
    number: usize,
    chip: &WiredChip,
    out: &mut Counted<W>,
) -> Result<(), Broken>
    requires none_lost { out.old.failures ≡ 0 }
    requires few { number ≤ 1000000 }
    ensures { WritesAll W.contents out.old out.new (extra_lines extras number (chip_state chip.now)) result }
{
    write_name(extras.names, number, chip, out)?;
    write_tdo(extras.tdos, number + 1, chip, out)
}

/// Writes the name of a device's instruction, where it is drawn.
fn write_name<W: Sink>(
    names: bool,
    number: usize,
    chip: &WiredChip,
    out: &mut Counted<W>,
) -> Result<(), Broken>
    requires { out.old.failures ≡ 0 }
    ensures { WritesAll W.contents out.old out.new (spec.name_line names number (chip_state chip.now)) result }
{
    if !names {
        return put_all(out, b"");
    }
    write_word_line(number, name_or_dash(chip), out)
}

/// The name of a device's instruction, `-` where it has none.
fn name_or_dash(chip: &WiredChip) -> &[u8]
    ensures { result.now ≡ spec.name_told (chip_state chip.now) }
{
    match chip.instruction() {
        Some(name) => name.as_bytes(),
        None => b"-",
    }
}

/// Writes the TDO of a device, where it is drawn.
fn write_tdo<W: Sink>(
    tdos: bool,
    number: usize,
    chip: &WiredChip,
    out: &mut Counted<W>,
) -> Result<(), Broken>
    requires { out.old.failures ≡ 0 }
    ensures { WritesAll W.contents out.old out.new (spec.tdo_line tdos number (chip_state chip.now)) result }
{
    if !tdos {
        return put_all(out, b"");
    }
    write_byte(number, byte_of_tdo(chip), out)
}

/// What is written for the TDO of a device.
fn byte_of_tdo(chip: &WiredChip) -> u8
    ensures { result ≡ values.wire values.undriven chip.now.chip.tdo }
{
    wire(UNDRIVEN, chip.tdo())
}

/// Writes what changed of what is drawn besides. Where `quiet` is set, no instruction did and nothing that a pin drives,
/// and none is looked at.
///
/// `Broken` comes exactly where the writer's first failure came in this call.
pub fn write_extra_changes<W: Sink>(
    extras: Extras,
    behind: &Chain,
    ahead: &Chain,
    quiet: bool,
    out: &mut Counted<W>,
) -> Result<(), Broken>
    requires none_lost { out.old.failures ≡ 0 }
    requires few { length behind.now.chips ≤ limits.devices }
    requires few_nets { length behind.now.nets ≤ limits.nets }
    requires alike { length ahead.now.chips ≡ length behind.now.chips }
    requires alike_nets { ahead.now.nets ≡ behind.now.nets }
    requires quiet { quiet ≡ true → IsQuiet behind.now.nets behind.now.chips ahead.now.chips }
    ensures { WritesAll W.contents out.old out.new
        (all_extra_changes extras behind.now.nets behind.now.chips ahead.now.chips) result }
{
    write_changes_of_devices(extras, behind, ahead, quiet, out)?;
    write_drive_changes(extras.drives, behind, ahead, quiet, out)
}

/// Writes what changed of what is drawn of devices besides. Where `quiet` is set, no instruction is looked at.
fn write_changes_of_devices<W: Sink>(
    extras: Extras,
    behind: &Chain,
    ahead: &Chain,
    quiet: bool,
    out: &mut Counted<W>,
) -> Result<(), Broken>
    requires none_lost { out.old.failures ≡ 0 }
    requires few { length behind.now.chips ≤ limits.devices }
    requires few_nets { length behind.now.nets ≤ limits.nets }
    requires alike { length ahead.now.chips ≡ length behind.now.chips }
    requires quiet { quiet ≡ true → KeepsInstructions behind.now.chips ahead.now.chips }
    ensures { WritesAll W.contents out.old out.new
        (device_extra_changes extras behind.now.nets behind.now.chips ahead.now.chips) result }
{
    if !extras.of_devices() {
        return put_all(out, b"");
    }
    write_each_change(extras, first_of_extras(behind), behind, ahead, quiet, out)
}

/// Writes this of all devices, from a number on.
fn write_each_change<W: Sink>(
    extras: Extras,
    first: usize,
    behind: &Chain,
    ahead: &Chain,
    quiet: bool,
    out: &mut Counted<W>,
) -> Result<(), Broken>
    requires none_lost { out.old.failures ≡ 0 }
    requires few { length behind.now.chips ≤ limits.devices }
    requires early { first ≤ 200000 }
    requires alike { length ahead.now.chips ≡ length behind.now.chips }
    requires quiet { quiet ≡ true → KeepsInstructions behind.now.chips ahead.now.chips }
    ensures { WritesAll W.contents out.old out.new
        (by_numbers (extra_change extras) extras_of_device first (zip behind.now.chips ahead.now.chips)) result }
{
    for i in 0..behind.devices() {
        let number = first + EXTRAS_OF_DEVICE * i;
        write_extra_change(extras, number, behind.chip(i), ahead.chip(i), quiet, out)?;
    }
    Ok(())
}

/// Writes this of a device.
fn write_extra_change<W: Sink>(
    extras: Extras,
    number: usize,
    before: &WiredChip,
    after: &WiredChip,
    quiet: bool,
    out: &mut Counted<W>,
) -> Result<(), Broken>
    requires none_lost { out.old.failures ≡ 0 }
    requires few { number ≤ 1000000 }
    requires quiet { quiet ≡ true → latch (chip_state before.now) ≡ latch (chip_state after.now) }
    ensures { WritesAll W.contents out.old out.new
        (extra_change extras number (chip_state before.now, chip_state after.now)) result }
{
    write_name_change(extras.names, number, before, after, quiet, out)?;
    write_tdo_change(extras.tdos, number + 1, before, after, out)
}

/// Writes the name of an instruction, where that changed.
fn write_name_change<W: Sink>(
    names: bool,
    number: usize,
    before: &WiredChip,
    after: &WiredChip,
    quiet: bool,
    out: &mut Counted<W>,
) -> Result<(), Broken>
    requires none_lost { out.old.failures ≡ 0 }
    requires quiet { quiet ≡ true → latch (chip_state before.now) ≡ latch (chip_state after.now) }
    ensures { WritesAll W.contents out.old out.new
        (spec.name_change names number (chip_state before.now) (chip_state after.now)) result }
{
    if quiet {
        return put_all(out, b"");
    }
    write_new_name(names, number, before, after, out)
}

/// The same where it is not known whether it changed.
fn write_new_name<W: Sink>(
    names: bool,
    number: usize,
    before: &WiredChip,
    after: &WiredChip,
    out: &mut Counted<W>,
) -> Result<(), Broken>
    requires { out.old.failures ≡ 0 }
    ensures { WritesAll W.contents out.old out.new
        (spec.name_change names number (chip_state before.now) (chip_state after.now)) result }
{
    if are_same(before.latch(), after.latch()) {
        return put_all(out, b"");
    }
    write_name(names, number, after, out)
}

/// Writes the TDO of a device, where it is drawn and changed.
fn write_tdo_change<W: Sink>(
    tdos: bool,
    number: usize,
    before: &WiredChip,
    after: &WiredChip,
    out: &mut Counted<W>,
) -> Result<(), Broken>
    requires { out.old.failures ≡ 0 }
    ensures { WritesAll W.contents out.old out.new
        (spec.tdo_change tdos number (chip_state before.now) (chip_state after.now)) result }
{
    if !tdos {
        return put_all(out, b"");
    }
    write_byte_change(number, byte_of_tdo(before), byte_of_tdo(after), out)
}
