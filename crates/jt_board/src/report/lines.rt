//! The lines of a board's report, and of the instructions that stand for BYPASS.

ghost use Rattle.std.specs.Prelude.{◌≡◌, ◌++◌, flat_map};
ghost use Rattle.byte_streams.specs.Writes.{WritesAll};
ghost use Rattle.jt_board.specs.Report.{device_line, instruction_part, level_line, net_line};
ghost use Rattle.jt_board.specs.Report as spec;
ghost use Rattle.jt_board.specs.LeftOut.{device_lines, left_out_line, name_lines};
ghost use Rattle.board_chain.specs.Chain.{members};
ghost use Rattle.board_chain.specs.WiredChips.{chip_state};
ghost use Rattle.chip_instructions.specs.Instruction.{instruction};

use board_chain::{Chain, WiredChip};
use board_plan::is_left_out;
use byte_streams::{Broken, Counted, Sink, put_all};
use output_words::{level_word, write_bits};
use pin_nets::Level;

/// Writes a line for each instruction of a chain's devices that has an opcode but no meaning of its own here, and so
/// stands for BYPASS: by devices, from the one nearest TDO on, and in the order of the opcode rows.
///
/// `Broken` comes exactly where the writer's first failure came in this call.
pub(super) fn write_all_left_out<W: Sink>(chain: &Chain, out: &mut Counted<W>) -> Result<(), Broken>
    requires { out.old.failures ≡ 0 }
    ensures { WritesAll W.contents out.old out.new (flat_map device_lines chain.now.chips) result }
{
    for i in 0..chain.devices() {
        write_instructions(chain.chip(i), out)?;
    }
    Ok(())
}

/// Writes the lines of a device.
fn write_instructions<W: Sink>(chip: &WiredChip, out: &mut Counted<W>) -> Result<(), Broken>
    requires { out.old.failures ≡ 0 }
    ensures { WritesAll W.contents out.old out.new (device_lines (chip_state chip.now)) result }
{
    let opcodes = chip.device().opcodes();
    for opcode in opcodes {
        write_if_left_out(chip, opcode.name(), out)?;
    }
    Ok(())
}

/// Writes the line of an instruction, if it stands for BYPASS.
fn write_if_left_out<W: Sink>(
    chip: &WiredChip,
    name: &str,
    out: &mut Counted<W>,
) -> Result<(), Broken>
    requires { out.old.failures ≡ 0 }
    ensures { WritesAll W.contents out.old out.new (name_lines chip.now.name chip.now.chip.device name.now) result }
{
    if is_left_out(chip.device(), name) {
        return write_instruction_line(chip.name(), name, out);
    }
    Ok(())
}

/// Writes the line of an instruction.
#[tactic(auto, using(byte_streams::proofs::Fronts::fronts))]
fn write_instruction_line<W: Sink>(
    device: &str,
    name: &str,
    out: &mut Counted<W>,
) -> Result<(), Broken>
    requires { out.old.failures ≡ 0 }
    ensures { WritesAll W.contents out.old out.new (left_out_line device.now name.now) result }
{
    write_field(device.as_bytes(), b" treats ", out)?;
    write_field(name.as_bytes(), b" as BYPASS\n", out)
}

/// Writes a line for each device, from the one nearest TDO on: its name, the word of its controller's state, the bits
/// of its instruction, highest first, and the instruction's name, `-` where it has none.
///
/// `Broken` comes exactly where the writer's first failure came in this call.
pub(super) fn write_devices<W: Sink>(chain: &Chain, out: &mut Counted<W>) -> Result<(), Broken>
    requires { out.old.failures ≡ 0 }
    ensures { WritesAll W.contents out.old out.new (flat_map device_line chain.now.chips) result }
{
    for i in 0..chain.devices() {
        write_device(chain.chip(i), out)?;
    }
    Ok(())
}

/// Writes a line for each net with a name: its name and its level.
///
/// `Broken` comes exactly where the writer's first failure came in this call.
pub(super) fn write_nets<W: Sink>(chain: &Chain, out: &mut Counted<W>) -> Result<(), Broken>
    requires { out.old.failures ≡ 0 }
    ensures { WritesAll W.contents out.old out.new
        (flat_map (net_line chain.now.nets (members chain.now.chips)) chain.now.nets) result }
{
    for k in 0..chain.nets() {
        write_level(chain.net_name(k), chain.level(k), out)?;
    }
    Ok(())
}

/// Writes the line of a net.
fn write_level<W: Sink>(name: &str, level: Level, out: &mut Counted<W>) -> Result<(), Broken>
    requires { out.old.failures ≡ 0 }
    ensures { WritesAll W.contents out.old out.new (level_line name.now level) result }
{
    write_field(name.as_bytes(), b" ", out)?;
    write_field(level_word(level), b"\n", out)
}

/// Writes the line of one device.
#[tactic(auto, using(byte_streams::proofs::Fronts::fronts))]
fn write_device<W: Sink>(chip: &WiredChip, out: &mut Counted<W>) -> Result<(), Broken>
    requires { out.old.failures ≡ 0 }
    ensures { WritesAll W.contents out.old out.new (device_line (chip_state chip.now)) result }
{
    write_field(chip.name().as_bytes(), b" ", out)?;
    write_field(chip.state().word().as_bytes(), b" ", out)?;
    write_instruction(chip, out)
}

/// Writes a device's instruction, its bits and its name, and ends the line.
#[tactic(auto, using(byte_streams::proofs::Fronts::fronts))]
fn write_instruction<W: Sink>(chip: &WiredChip, out: &mut Counted<W>) -> Result<(), Broken>
    requires { out.old.failures ≡ 0 }
    ensures { WritesAll W.contents out.old out.new (instruction_part (chip_state chip.now)) result }
{
    write_bits(chip.latch(), out)?;
    put_all(out, b" ")?;
    write_field(name_or_dash(chip), b"\n", out)
}

/// The name of a device's instruction, `-` where it has none.
fn name_or_dash(chip: &WiredChip) -> &[u8]
    ensures { result.now ≡ spec.name_or_dash (instruction chip.now.chip.device chip.now.chip.latch) }
{
    match chip.instruction() {
        Some(name) => name.as_bytes(),
        None => b"-",
    }
}

/// Writes a field and what ends it.
#[tactic(auto, using(byte_streams::proofs::Fronts::fronts))]
fn write_field<W: Sink>(field: &[u8], end: &[u8], out: &mut Counted<W>) -> Result<(), Broken>
    requires { out.old.failures ≡ 0 }
    ensures { WritesAll W.contents out.old out.new (field.now ++ end.now) result }
{
    put_all(out, field)?;
    put_all(out, end)
}
