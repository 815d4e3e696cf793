//! What each variable shows at the start.

ghost use Rattle.std.specs.Prelude.{◌≡◌, ◌≤◌, length};
ghost use Rattle.byte_streams.specs.Writes.{WritesAll};
ghost use Rattle.jt_limits.specs.Limits.{limits};
ghost use Rattle.board_chips.specs.WiredChips.{chip_state};
ghost use Rattle.wave_files.specs.Heading as spec;
ghost use Rattle.wave_files.specs.Heading.{first_lines, first_values, net_line};
ghost use Rattle.wave_files.specs.Values.{by_numbers, device_lines, first_of_devices, first_of_nets};
ghost use Rattle.wave_files.specs.Values.{variables_of_device};

use crate::changes::level_of;
use crate::codes::{write_bits_line, write_byte, write_instruction, write_state, write_word_line};
use crate::extras::{Extras, write_extra_values};
use crate::numbering::{FIRST_OF_DEVICES, VARIABLES_OF_DEVICE, first_of_notes};
use crate::shown::{Shown, UNKNOWN};
use board_chain::{Chain, WiredChip};
use byte_streams::{Broken, Counted, Sink, put_all};

/// Writes what each variable shows at the start. Where `noted` is set, among them are those that tell of the bits that
/// scans want.
///
/// `Broken` comes exactly where the writer's first failure came in this call.
pub fn write_first_values<W: Sink>(
    noted: bool,
    extras: Extras,
    shown: Shown,
    chain: &Chain,
    out: &mut Counted<W>,
) -> Result<(), Broken>
    requires none_lost { out.old.failures ≡ 0 }
    requires few { length chain.now.chips ≤ limits.devices }
    requires few_nets { length chain.now.nets ≤ limits.nets }
    ensures { WritesAll W.contents out.old out.new (first_values noted extras shown chain.now.chips chain.now.nets)
        result }
{
    let number = first_of_notes(chain);
    put_all(out, b"#0\n$dumpvars\n")?;
    write_lines(shown, out)?;
    put_all(out, b"b0 &\n")?;
    write_board(chain, out)?;
    write_noted_values(noted, number, out)?;
    write_extra_values(extras, chain, out)?;
    put_all(out, b"$end\n")
}

/// Writes that no bit is wanted yet and none has failed, where that is drawn.
fn write_noted_values<W: Sink>(
    noted: bool,
    number: usize,
    out: &mut Counted<W>,
) -> Result<(), Broken>
    requires none_lost { out.old.failures ≡ 0 }
    requires few { number ≤ 100000 }
    ensures { WritesAll W.contents out.old out.new (spec.noted_values noted number) result }
{
    if noted {
        write_first_notes(number, out)
    } else {
        put_all(out, b"")
    }
}

/// Writes that no bit is wanted yet and none has failed.
fn write_first_notes<W: Sink>(number: usize, out: &mut Counted<W>) -> Result<(), Broken>
    requires none_lost { out.old.failures ≡ 0 }
    requires few { number ≤ 100000 }
    ensures { WritesAll W.contents out.old out.new (spec.first_notes number) result }
{
    write_byte(number, UNKNOWN, out)?;
    write_byte(number + 1, b'0', out)?;
    write_bits_line(number + 2, b"x", out)?;
    write_word_line(number + 3, b"none", out)
}

/// Writes what the lines of the TAP show.
fn write_lines<W: Sink>(shown: Shown, out: &mut Counted<W>) -> Result<(), Broken>
    requires { out.old.failures ≡ 0 }
    ensures { WritesAll W.contents out.old out.new (first_lines shown) result }
{
    write_byte(0, shown.tck, out)?;
    write_byte(1, shown.tms, out)?;
    write_byte(2, shown.tdi, out)?;
    write_byte(3, shown.tdo, out)?;
    write_byte(4, shown.trst, out)
}

/// Writes what the devices and the nets show.
fn write_board<W: Sink>(chain: &Chain, out: &mut Counted<W>) -> Result<(), Broken>
    requires none_lost { out.old.failures ≡ 0 }
    requires few { length chain.now.chips ≤ limits.devices }
    requires few_nets { length chain.now.nets ≤ limits.nets }
    ensures { WritesAll W.contents out.old out.new (spec.board_lines chain.now.chips chain.now.nets) result }
{
    write_devices(chain, out)?;
    write_nets(chain, out)
}

/// Writes what the devices show.
fn write_devices<W: Sink>(chain: &Chain, out: &mut Counted<W>) -> Result<(), Broken>
    requires none_lost { out.old.failures ≡ 0 }
    requires few { length chain.now.chips ≤ limits.devices }
    ensures { WritesAll W.contents out.old out.new
        (by_numbers device_lines variables_of_device first_of_devices chain.now.chips) result }
{
    for i in 0..chain.devices() {
        let number = FIRST_OF_DEVICES + VARIABLES_OF_DEVICE * i;
        write_device(number, chain.chip(i), out)?;
    }
    Ok(())
}

/// Writes what a device shows.
fn write_device<W: Sink>(
    number: usize,
    chip: &WiredChip,
    out: &mut Counted<W>,
) -> Result<(), Broken>
    requires none_lost { out.old.failures ≡ 0 }
    requires few { number ≤ 1000000 }
    ensures { WritesAll W.contents out.old out.new (device_lines number (chip_state chip.now)) result }
{
    write_state(number, chip.state(), out)?;
    write_instruction(number, chip.latch(), out)
}

/// Writes what the nets show.
fn write_nets<W: Sink>(chain: &Chain, out: &mut Counted<W>) -> Result<(), Broken>
    requires none_lost { out.old.failures ≡ 0 }
    requires few { length chain.now.chips ≤ limits.devices }
    requires few_nets { length chain.now.nets ≤ limits.nets }
    ensures { WritesAll W.contents out.old out.new
        (by_numbers (net_line chain.now.nets chain.now.chips) 1 (first_of_nets chain.now.chips) chain.now.nets) result }
{
    let first = FIRST_OF_DEVICES + VARIABLES_OF_DEVICE * chain.devices();
    for k in 0..chain.nets() {
        write_byte(first + k, level_of(chain.level(k)), out)?;
    }
    Ok(())
}
