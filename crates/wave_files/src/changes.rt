//! What changed from one state of a board to the next.

ghost use Rattle.std.specs.Prelude.{◌≡◌, ◌≤◌, true, length, zip};
ghost use Rattle.std.specs.Cmp.Lexicographic.{pointwise};
ghost use mathlib.Core.Bool.{beq};
ghost use Rattle.byte_streams.specs.Writes.{WritesAll};
ghost use Rattle.jt_limits.specs.Limits.{limits};
ghost use Rattle.board_chips.specs.WiredChips.{chip_state};
ghost use Rattle.jt_tap.specs.Controller.{is_at};
ghost use Rattle.wave_files.specs.Changes.{IsQuiet, KeepsInstructions, board_changes, further_lines, net_change};
ghost use Rattle.wave_files.specs.Changes.{stamped_changes};
ghost use Rattle.wave_files.specs.Values.{by_numbers, byte_change, device_change, first_of_devices, first_of_nets};
ghost use Rattle.wave_files.specs.Values.{instruction_change, latch, level_byte, state_change};
ghost use Rattle.wave_files.specs.Values.{variables_of_device};

use crate::codes::{write_byte, write_instruction, write_state};
use crate::numbering::{FIRST_OF_DEVICES, VARIABLES_OF_DEVICE};
use crate::shown::{Shown, UNDRIVEN, UNKNOWN};
use crate::stamps::write_time;
use board_chain::{Chain, WiredChip};
use byte_streams::{Broken, Counted, Sink, put_all};
use jt_bits::Bits;
use jt_tap::State;
use pin_nets::Level;

/// Writes each line of the TAP but TCK that changed.
fn write_further_lines<W: Sink>(
    before: Shown,
    after: Shown,
    out: &mut Counted<W>,
) -> Result<(), Broken>
    requires { out.old.failures ≡ 0 }
    ensures { WritesAll W.contents out.old out.new (further_lines before after) result }
{
    write_byte_change(1, before.tms, after.tms, out)?;
    write_byte_change(2, before.tdi, after.tdi, out)?;
    write_byte_change(3, before.tdo, after.tdo, out)?;
    write_byte_change(4, before.trst, after.trst, out)
}

/// Writes a level where it differs from the one before.
///
/// `Broken` comes exactly where the writer's first failure came in this call.
pub fn write_byte_change<W: Sink>(
    number: usize,
    before: u8,
    after: u8,
    out: &mut Counted<W>,
) -> Result<(), Broken>
    requires { out.old.failures ≡ 0 }
    ensures { WritesAll W.contents out.old out.new (byte_change number before after) result }
{
    if before == after {
        return put_all(out, b"");
    }
    write_byte(number, after, out)
}

/// What is written for the level of a net.
pub(crate) fn level_of(level: Level) -> u8
    ensures { result ≡ level_byte level }
{
    match level {
        Level::Zero => b'0',
        Level::One => b'1',
        Level::Float => UNDRIVEN,
        Level::Contend => UNKNOWN,
    }
}

/// Writes what changed of the devices, no instruction of which is looked at where it is known that none changed.
fn write_device_changes<W: Sink>(
    behind: &Chain,
    ahead: &Chain,
    quiet: bool,
    out: &mut Counted<W>,
) -> Result<(), Broken>
    requires none_lost { out.old.failures ≡ 0 }
    requires few { length behind.now.chips ≤ limits.devices }
    requires alike { length ahead.now.chips ≡ length behind.now.chips }
    requires quiet { quiet ≡ true → KeepsInstructions behind.now.chips ahead.now.chips }
    ensures { WritesAll W.contents out.old out.new
        (by_numbers device_change variables_of_device first_of_devices (zip behind.now.chips ahead.now.chips)) result }
{
    for i in 0..behind.devices() {
        let number = FIRST_OF_DEVICES + VARIABLES_OF_DEVICE * i;
        write_device_change(number, behind.chip(i), ahead.chip(i), quiet, out)?;
    }
    Ok(())
}

/// Writes what changed of a device.
fn write_device_change<W: Sink>(
    number: usize,
    before: &WiredChip,
    after: &WiredChip,
    quiet: bool,
    out: &mut Counted<W>,
) -> Result<(), Broken>
    requires none_lost { out.old.failures ≡ 0 }
    requires few { number ≤ 1000000 }
    requires quiet { quiet ≡ true → latch (chip_state before.now) ≡ latch (chip_state after.now) }
    ensures { WritesAll W.contents out.old out.new (device_change number (chip_state before.now, chip_state after.now))
        result }
{
    write_state_change(number, before.state(), after.state(), out)?;
    if quiet {
        return put_all(out, b"");
    }
    write_instruction_change(number, before.latch(), after.latch(), out)
}

/// Writes the state of a controller where it changed.
fn write_state_change<W: Sink>(
    number: usize,
    before: State,
    after: State,
    out: &mut Counted<W>,
) -> Result<(), Broken>
    requires none_lost { out.old.failures ≡ 0 }
    requires few { number ≤ 1000000 }
    ensures { WritesAll W.contents out.old out.new (state_change number before after) result }
{
    if is_same_state(before, after) {
        return put_all(out, b"");
    }
    write_state(number, after, out)
}

/// Writes an instruction where it changed.
fn write_instruction_change<W: Sink>(
    number: usize,
    before: &Bits,
    after: &Bits,
    out: &mut Counted<W>,
) -> Result<(), Broken>
    requires none_lost { out.old.failures ≡ 0 }
    requires few { number ≤ 1000000 }
    ensures { WritesAll W.contents out.old out.new (instruction_change number before.now after.now) result }
{
    if are_same(before, after) {
        return put_all(out, b"");
    }
    write_instruction(number, after, out)
}

/// Whether two instructions are one.
pub(crate) fn are_same(one: &Bits, other: &Bits) -> bool
    ensures { result ≡ pointwise beq one.now other.now }
{
    one == other
}

/// Writes each net whose level changed.
fn write_net_changes<W: Sink>(
    behind: &Chain,
    ahead: &Chain,
    out: &mut Counted<W>,
) -> Result<(), Broken>
    requires none_lost { out.old.failures ≡ 0 }
    requires few { length behind.now.chips ≤ limits.devices }
    requires few_nets { length behind.now.nets ≤ limits.nets }
    requires alike { ahead.now.nets ≡ behind.now.nets }
    ensures { WritesAll W.contents out.old out.new
        (by_numbers (net_change behind.now.nets behind.now.chips ahead.now.chips) 1 (first_of_nets behind.now.chips)
        behind.now.nets) result }
{
    let first = FIRST_OF_DEVICES + VARIABLES_OF_DEVICE * behind.devices();
    for k in 0..behind.nets() {
        let before = level_of(behind.level(k));
        let after = level_of(ahead.level(k));
        write_byte_change(first + k, before, after, out)?;
    }
    Ok(())
}

/// Whether two states are one.
pub fn is_same_state(one: State, other: State) -> bool
    ensures { result ≡ is_at one other }
{
    one == other
}

/// Writes the time, and each value that differs between two states of one board. Where `quiet` is set, no instruction
/// and no net does, and none is looked at.
///
/// `Broken` comes exactly where the writer's first failure came in this call.
pub fn write_changes<W: Sink>(
    time: u64,
    before: Shown,
    after: Shown,
    behind: &Chain,
    ahead: &Chain,
    quiet: bool,
    out: &mut Counted<W>,
) -> Result<(), Broken>
    requires none_lost { out.old.failures ≡ 0 }
    requires few { length behind.now.chips ≤ limits.devices }
    requires few_nets { length behind.now.nets ≤ limits.nets }
    requires alike { length ahead.now.chips ≡ length behind.now.chips }
    requires alike_nets { ahead.now.nets ≡ behind.now.nets }
    requires quiet { quiet ≡ true → IsQuiet behind.now.nets behind.now.chips ahead.now.chips }
    ensures { WritesAll W.contents out.old out.new
        (stamped_changes time before after behind.now.nets behind.now.chips ahead.now.chips) result }
{
    write_time(time, before.tck, after.tck, out)?;
    write_further_lines(before, after, out)?;
    write_board_changes(behind, ahead, quiet, out)
}

/// Writes what changed of the devices, and of the nets, none of which is looked at where it is known that none changed.
fn write_board_changes<W: Sink>(
    behind: &Chain,
    ahead: &Chain,
    quiet: bool,
    out: &mut Counted<W>,
) -> Result<(), Broken>
    requires none_lost { out.old.failures ≡ 0 }
    requires few { length behind.now.chips ≤ limits.devices }
    requires few_nets { length behind.now.nets ≤ limits.nets }
    requires alike { length ahead.now.chips ≡ length behind.now.chips }
    requires alike_nets { ahead.now.nets ≡ behind.now.nets }
    requires quiet { quiet ≡ true → IsQuiet behind.now.nets behind.now.chips ahead.now.chips }
    ensures { WritesAll W.contents out.old out.new
        (board_changes behind.now.nets behind.now.chips ahead.now.chips) result }
{
    write_device_changes(behind, ahead, quiet, out)?;
    if quiet {
        return put_all(out, b"");
    }
    write_net_changes(behind, ahead, out)
}
