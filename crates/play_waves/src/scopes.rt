//! The variables of what is drawn besides, in scopes that are opened once more.

ghost use Rattle.std.specs.Prelude.{◌≡◌, ◌≤◌, length};
ghost use Rattle.byte_streams.specs.Writes.{WritesAll};
ghost use Rattle.jt_limits.specs.Limits.{limits};
ghost use Rattle.board_chips.specs.WiredChips.{chip_state};
ghost use Rattle.wave_files.specs.Heading as heading;
ghost use Rattle.wave_files.specs.Heading.{all_extra_variables, device_extra_variables, extra_variables, extras_named};
ghost use Rattle.wave_files.specs.Values.{by_numbers, extras_of_device};

use crate::pins::write_drive_variables;
use crate::variables::{write_named, write_scope};
use board_chain::{Chain, WiredChip};
use byte_streams::{Broken, Counted, Sink, put_all};
use wave_files::{EXTRAS_OF_DEVICE, Extras, first_of_extras};

/// Writes the variables of what is drawn besides.
pub(crate) fn write_extra_variables<W: Sink>(
    extras: Extras,
    chain: &Chain,
    out: &mut Counted<W>,
) -> Result<(), Broken>
    requires none_lost { out.old.failures ≡ 0 }
    requires few { length chain.now.chips ≤ limits.devices }
    requires few_nets { length chain.now.nets ≤ limits.nets }
    ensures { WritesAll W.contents out.old out.new (all_extra_variables extras chain.now.chips chain.now.nets) result }
{
    write_variables_of_devices(extras, chain, out)?;
    write_drive_variables(extras.drives, chain, out)
}

/// Writes the variables of what is drawn of devices besides.
fn write_variables_of_devices<W: Sink>(
    extras: Extras,
    chain: &Chain,
    out: &mut Counted<W>,
) -> Result<(), Broken>
    requires none_lost { out.old.failures ≡ 0 }
    requires few { length chain.now.chips ≤ limits.devices }
    requires few_nets { length chain.now.nets ≤ limits.nets }
    ensures { WritesAll W.contents out.old out.new (device_extra_variables extras chain.now.chips chain.now.nets) result }
{
    if !extras.of_devices() {
        return put_all(out, b"");
    }
    write_scopes(extras, first_of_extras(chain), chain, out)
}

/// Writes these of all devices, from a number on.
fn write_scopes<W: Sink>(
    extras: Extras,
    first: usize,
    chain: &Chain,
    out: &mut Counted<W>,
) -> Result<(), Broken>
    requires none_lost { out.old.failures ≡ 0 }
    requires few { length chain.now.chips ≤ limits.devices }
    requires early { first ≤ 200000 }
    ensures { WritesAll W.contents out.old out.new
        (by_numbers (extra_variables extras) extras_of_device first chain.now.chips) result }
{
    for i in 0..chain.devices() {
        let number = first + EXTRAS_OF_DEVICE * i;
        write_extra_scope(extras, number, chain.chip(i), out)?;
    }
    Ok(())
}

/// Writes these of a device.
fn write_extra_scope<W: Sink>(
    extras: Extras,
    number: usize,
    chip: &WiredChip,
    out: &mut Counted<W>,
) -> Result<(), Broken>
    requires none_lost { out.old.failures ≡ 0 }
    requires few { number ≤ 1000000 }
    ensures { WritesAll W.contents out.old out.new (extra_variables extras number (chip_state chip.now)) result }
{
    write_extras_named(extras, number, chip.name(), out)
}

/// Writes these of a device of this name.
fn write_extras_named<W: Sink>(
    extras: Extras,
    number: usize,
    name: &str,
    out: &mut Counted<W>,
) -> Result<(), Broken>
    requires none_lost { out.old.failures ≡ 0 }
    requires few { number ≤ 1000000 }
    ensures { WritesAll W.contents out.old out.new (extras_named extras number name.now) result }
{
    write_scope(name, out)?;
    write_name_variable(extras.names, number, name, out)?;
    write_tdo_variable(extras.tdos, number + 1, name, out)?;
    put_all(out, b"$upscope $end\n")
}

/// Writes the variable of the name of an instruction, where it is drawn.
fn write_name_variable<W: Sink>(
    names: bool,
    number: usize,
    device: &str,
    out: &mut Counted<W>,
) -> Result<(), Broken>
    requires { out.old.failures ≡ 0 }
    ensures { WritesAll W.contents out.old out.new (heading.name_variable names number device.now) result }
{
    if !names {
        return put_all(out, b"");
    }
    put_all(out, b"$var string 1 ")?;
    write_named(number, device, b"_instruction_name", out)
}

/// Writes the variable of TDO, where it is drawn.
fn write_tdo_variable<W: Sink>(
    tdos: bool,
    number: usize,
    device: &str,
    out: &mut Counted<W>,
) -> Result<(), Broken>
    requires { out.old.failures ≡ 0 }
    ensures { WritesAll W.contents out.old out.new (heading.tdo_variable tdos number device.now) result }
{
    if !tdos {
        return put_all(out, b"");
    }
    put_all(out, b"$var wire 1 ")?;
    write_named(number, device, b"_tdo", out)
}
