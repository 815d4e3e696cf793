//! The variables of a wave in their scopes.

ghost use Rattle.std.specs.Prelude.{◌≡◌, ◌≤◌, codes, length};
ghost use Rattle.byte_streams.specs.Writes.{WritesAll};
ghost use Rattle.jt_limits.specs.Limits.{limits};
ghost use Rattle.board_chips.specs.WiredChips.{chip_state};
ghost use Rattle.wave_files.specs.Heading as spec;
ghost use Rattle.wave_files.specs.Heading.{device_variables, net_variable, scope, variable, variables};
ghost use Rattle.wave_files.specs.Heading.{variables_named};
ghost use Rattle.wave_files.specs.Values.{by_numbers, first_of_devices, first_of_nets, variables_of_device};

use crate::scopes::write_extra_variables;
use board_chain::{Chain, WiredChip};
use byte_streams::{Broken, Counted, Sink, put_all, put_pieces};
use itoa::Buffer;
use wave_files::{Extras, FIRST_OF_DEVICES, VARIABLES_OF_DEVICE, first_of_notes, write_code};

/// Writes the variables of a chain in their scopes. Where `noted` is set, among them are those that tell of the bits
/// that scans want, and by `extras` those of what is drawn besides.
pub(crate) fn write_variables<W: Sink>(
    noted: bool,
    extras: Extras,
    chain: &Chain,
    out: &mut Counted<W>,
) -> Result<(), Broken>
    requires none_lost { out.old.failures ≡ 0 }
    requires few { length chain.now.chips ≤ limits.devices }
    requires few_nets { length chain.now.nets ≤ limits.nets }
    ensures { WritesAll W.contents out.old out.new (variables noted extras chain.now.chips chain.now.nets) result }
{
    let number = first_of_notes(chain);
    put_all(out, b"$timescale 1 ps $end\n$scope module board $end\n")?;
    write_tap_variables(noted, number, out)?;
    write_device_variables(chain, out)?;
    write_net_variables(chain, out)?;
    write_extra_variables(extras, chain, out)?;
    put_all(out, b"$upscope $end\n$enddefinitions $end\n")
}

/// Writes the variables of the scope `tap`; those of bits that are wanted have their numbers from this one on.
fn write_tap_variables<W: Sink>(
    noted: bool,
    number: usize,
    out: &mut Counted<W>,
) -> Result<(), Broken>
    requires none_lost { out.old.failures ≡ 0 }
    requires few { number ≤ 100000 }
    ensures { WritesAll W.contents out.old out.new (spec.tap_variables noted number) result }
{
    write_line_variables(out)?;
    write_noted_variables(noted, number, out)?;
    put_all(out, b"$upscope $end\n")
}

/// Writes the variables that tell of bits that are wanted, where they are drawn.
fn write_noted_variables<W: Sink>(
    noted: bool,
    number: usize,
    out: &mut Counted<W>,
) -> Result<(), Broken>
    requires none_lost { out.old.failures ≡ 0 }
    requires few { number ≤ 100000 }
    ensures { WritesAll W.contents out.old out.new (spec.noted_variables noted number) result }
{
    if noted {
        write_note_variables(number, out)
    } else {
        put_all(out, b"")
    }
}

/// Writes the variables that tell of bits that are wanted.
fn write_note_variables<W: Sink>(number: usize, out: &mut Counted<W>) -> Result<(), Broken>
    requires none_lost { out.old.failures ≡ 0 }
    requires few { number ≤ 100000 }
    ensures { WritesAll W.contents out.old out.new (spec.note_variables number) result }
{
    write_variable(b"wire 1", number, b"wanted", out)?;
    write_variable(b"wire 1", number + 1, b"fail", out)?;
    write_variable(b"integer 32", number + 2, b"bit", out)?;
    write_variable(b"string 1", number + 3, b"part", out)
}

/// Writes the variables of the TAP's lines, and that of the statement.
fn write_line_variables<W: Sink>(out: &mut Counted<W>) -> Result<(), Broken>
    requires { out.old.failures ≡ 0 }
    ensures { WritesAll W.contents out.old out.new spec.line_variables result }
{
    put_all(
        out,
        b"$scope module tap $end\n$var wire 1 ! TCK $end\n$var wire 1 \" TMS $end\n",
    )?;
    put_all(
        out,
        b"$var wire 1 # TDI $end\n$var wire 1 $ TDO $end\n$var wire 1 % TRST $end\n",
    )?;
    put_all(out, b"$var integer 32 & statement $end\n")
}

/// Writes the variables of the devices.
fn write_device_variables<W: Sink>(chain: &Chain, out: &mut Counted<W>) -> Result<(), Broken>
    requires none_lost { out.old.failures ≡ 0 }
    requires few { length chain.now.chips ≤ limits.devices }
    ensures { WritesAll W.contents out.old out.new
        (by_numbers device_variables variables_of_device first_of_devices chain.now.chips) result }
{
    for i in 0..chain.devices() {
        let number = FIRST_OF_DEVICES + VARIABLES_OF_DEVICE * i;
        write_device_scope(number, chain.chip(i), out)?;
    }
    Ok(())
}

/// Writes the variables of a device.
fn write_device_scope<W: Sink>(
    number: usize,
    chip: &WiredChip,
    out: &mut Counted<W>,
) -> Result<(), Broken>
    requires none_lost { out.old.failures ≡ 0 }
    requires few { number ≤ 1000000 }
    ensures { WritesAll W.contents out.old out.new (device_variables number (chip_state chip.now)) result }
{
    write_variables_named(number, chip.name(), chip.latch().len(), out)
}

/// Writes the variables of a device of this name, with so many bits of instruction.
fn write_variables_named<W: Sink>(
    number: usize,
    name: &str,
    bits: usize,
    out: &mut Counted<W>,
) -> Result<(), Broken>
    requires none_lost { out.old.failures ≡ 0 }
    requires few { number ≤ 1000000 }
    ensures { WritesAll W.contents out.old out.new (variables_named number name.now bits) result }
{
    write_scope(name, out)?;
    put_all(out, b"$var reg 4 ")?;
    write_named(number, name, b"_state", out)?;
    put_all(out, b"$var string 1 ")?;
    write_named(number + 1, name, b"_word", out)?;
    write_bits_kind(bits, out)?;
    write_named(number + 2, name, b"_instruction", out)?;
    put_all(out, b"$upscope $end\n")
}

/// Writes the code of a variable and its name, which begins with its device's.
pub(crate) fn write_named<W: Sink>(
    number: usize,
    device: &str,
    leaf: &[u8],
    out: &mut Counted<W>,
) -> Result<(), Broken>
    requires { out.old.failures ≡ 0 }
    ensures { WritesAll W.contents out.old out.new (spec.named number device.now leaf.now) result }
{
    write_code(number, b' ', out)?;
    put_all(out, device.as_bytes())?;
    put_all(out, leaf)?;
    put_all(out, b" $end\n")
}

/// Writes that a scope begins.
pub(crate) fn write_scope<W: Sink>(name: &str, out: &mut Counted<W>) -> Result<(), Broken>
    requires { out.old.failures ≡ 0 }
    ensures { WritesAll W.contents out.old out.new (scope name.now) result }
{
    put_all(out, b"$scope module ")?;
    put_all(out, name.as_bytes())?;
    put_all(out, b" $end\n")
}

/// Writes a variable.
fn write_variable<W: Sink>(
    kind: &[u8],
    number: usize,
    name: &[u8],
    out: &mut Counted<W>,
) -> Result<(), Broken>
    requires { out.old.failures ≡ 0 }
    ensures { WritesAll W.contents out.old out.new (variable kind.now number name.now) result }
{
    put_all(out, b"$var ")?;
    put_all(out, kind)?;
    put_all(out, b" ")?;
    write_code(number, b' ', out)?;
    put_all(out, name)?;
    put_all(out, b" $end\n")
}

/// Writes the front of a variable of so many bits.
fn write_bits_kind<W: Sink>(bits: usize, out: &mut Counted<W>) -> Result<(), Broken>
    requires { out.old.failures ≡ 0 }
    ensures { WritesAll W.contents out.old out.new (spec.bits_kind bits) result }
{
    let mut length = Buffer::new();
    put_pieces(out, &[b"$var reg ", length.format(bits).as_bytes(), b" "])
}

/// Writes the variables of the nets.
fn write_net_variables<W: Sink>(chain: &Chain, out: &mut Counted<W>) -> Result<(), Broken>
    requires none_lost { out.old.failures ≡ 0 }
    requires few { length chain.now.chips ≤ limits.devices }
    requires few_nets { length chain.now.nets ≤ limits.nets }
    ensures { WritesAll W.contents out.old out.new
        (by_numbers net_variable 1 (first_of_nets chain.now.chips) chain.now.nets) result }
{
    let first = FIRST_OF_DEVICES + VARIABLES_OF_DEVICE * chain.devices();
    for k in 0..chain.nets() {
        write_net_variable(first + k, chain.net_name(k).as_bytes(), out)?;
    }
    Ok(())
}

/// Writes the variable of a net of this name, in four calls of the writer: a board may have thousands of them.
fn write_net_variable<W: Sink>(
    number: usize,
    name: &[u8],
    out: &mut Counted<W>,
) -> Result<(), Broken>
    requires { out.old.failures ≡ 0 }
    ensures { WritesAll W.contents out.old out.new (variable (codes "wire 1") number name.now) result }
{
    put_all(out, b"$var wire 1 ")?;
    write_code(number, b' ', out)?;
    put_all(out, name)?;
    put_all(out, b" $end\n")
}
