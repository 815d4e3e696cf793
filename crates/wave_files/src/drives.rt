//! What each pin of a named net drives, where that is drawn.

ghost use Rattle.std.specs.Prelude.{◌≡◌, ◌≤◌, true, length};
ghost use Rattle.byte_streams.specs.Writes.{WritesAll};
ghost use Rattle.jt_limits.specs.Limits.{limits};
ghost use Rattle.board_plan.specs.Planned.{all_pins};
ghost use Rattle.wave_files.specs.Drives as spec;
ghost use Rattle.wave_files.specs.Drives.{KeepsDrives, drive_change, drive_changes, drive_line, drive_lines, driving};
ghost use Rattle.wave_files.specs.Values.{by_numbers};

use crate::changes::write_byte_change;
use crate::codes::write_byte;
use crate::numbering::first_of_drives;
use crate::shown::UNDRIVEN;
use board_chain::Chain;
use byte_streams::{Broken, Counted, Sink, put_all};
use output_words::digit_of;
use pin_nets::Drive;

/// What is written for what a pin drives: a level, or a weak one by a letter of GTKWave's, or `z`.
fn drive_byte(drive: Drive) -> u8
    ensures { result ≡ spec.drive_byte drive }
{
    match drive {
        Drive::Strong(level) => digit_of(level),
        Drive::Weak(false) => b'l',
        Drive::Weak(true) => b'h',
        Drive::Nothing => UNDRIVEN,
    }
}

/// Writes what each pin drives at the start, where that is drawn.
pub(crate) fn write_drive_values<W: Sink>(
    drives: bool,
    chain: &Chain,
    out: &mut Counted<W>,
) -> Result<(), Broken>
    requires none_lost { out.old.failures ≡ 0 }
    requires few { length chain.now.chips ≤ limits.devices }
    requires few_nets { length chain.now.nets ≤ limits.nets }
    ensures { WritesAll W.contents out.old out.new (drive_lines drives chain.now.chips chain.now.nets) result }
{
    if !drives {
        return put_all(out, b"");
    }
    write_drives(first_of_drives(chain), chain, out)
}

/// Writes this of all pins, from a number on.
fn write_drives<W: Sink>(first: usize, chain: &Chain, out: &mut Counted<W>) -> Result<(), Broken>
    requires none_lost { out.old.failures ≡ 0 }
    requires early { first ≤ 300000 }
    ensures { WritesAll W.contents out.old out.new
        (by_numbers (drive_line (driving chain.now.nets chain.now.chips)) 1 first (all_pins chain.now.nets)) result }
{
    for pin in 0..chain.pin_count() {
        write_byte(first + pin, drive_byte(chain.drive(pin)), out)?;
    }
    Ok(())
}

/// Writes what each pin drives that drove something else, where that is drawn. Where `quiet` is set, none is looked at.
pub(crate) fn write_drive_changes<W: Sink>(
    drives: bool,
    behind: &Chain,
    ahead: &Chain,
    quiet: bool,
    out: &mut Counted<W>,
) -> Result<(), Broken>
    requires none_lost { out.old.failures ≡ 0 }
    requires few { length behind.now.chips ≤ limits.devices }
    requires few_nets { length behind.now.nets ≤ limits.nets }
    requires alike { ahead.now.nets ≡ behind.now.nets }
    requires quiet { quiet ≡ true → KeepsDrives behind.now.nets behind.now.chips ahead.now.chips }
    ensures { WritesAll W.contents out.old out.new
        (drive_changes drives behind.now.nets behind.now.chips ahead.now.chips) result }
{
    if !drives {
        return put_all(out, b"");
    }
    if quiet {
        return put_all(out, b"");
    }
    write_each_drive(first_of_drives(behind), behind, ahead, out)
}

/// Writes this of all pins, from a number on.
fn write_each_drive<W: Sink>(
    first: usize,
    behind: &Chain,
    ahead: &Chain,
    out: &mut Counted<W>,
) -> Result<(), Broken>
    requires none_lost { out.old.failures ≡ 0 }
    requires early { first ≤ 300000 }
    requires alike { ahead.now.nets ≡ behind.now.nets }
    ensures { WritesAll W.contents out.old out.new
        (by_numbers (drive_change (driving behind.now.nets behind.now.chips)
        (driving behind.now.nets ahead.now.chips)) 1 first (all_pins behind.now.nets)) result }
{
    for pin in 0..behind.pin_count() {
        let before = drive_byte(behind.drive(pin));
        let after = drive_byte(ahead.drive(pin));
        write_byte_change(first + pin, before, after, out)?;
    }
    Ok(())
}
