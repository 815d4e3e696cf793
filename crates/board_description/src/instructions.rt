//! The lines of a device's instructions.
ghost use Rattle.std.specs.Prelude.{◌≡◌, ◌<◌, ◌++◌, OnOk, flat_map, length, slice_get, Some};
ghost use Rattle.board_tables.specs.WordView.{texts_of};
ghost use Rattle.board_description.specs.Described as spec;
ghost use Rattle.board_description.specs.Described.{instruction_lines, register_words};
ghost use Rattle.board_description.specs.Covered.{opcode_names, opcode_patterns};
ghost use Rattle.board_description.specs.Kept.{NamesUsers, own_names};
ghost use Rattle.board_description.specs.Opcodes.{Holds};

use crate::opcodes::Opcodes;
use crate::registers::{own_places, selected_by, user_names};
use crate::text::put_pattern;
use board_plan::is_left_out;
use board_tables::Places;
use bsdl_device::{Device, Opcode, Pattern};
use chip_instructions::Selected;
use itoa::Buffer;
use output_words::put;
use std::alloc::{AllocError, Global};

/// Puts a line for each opcode of a device behind a text. Refuses for want of memory alone.
#[tactic(auto, using(output_words::proofs::TextLaws::flat_map_more))]
pub(crate) fn put_instructions(
    alloc: Global,
    text: &mut Vec<u8>,
    name: &str,
    device: &Device,
) -> Result<(), AllocError>
    ensures { OnOk result (text.new.items
        ≡ text.old.items ++ flat_map (instruction_lines name.now device.now) device.now.opcodes) }
{
    let own = own_places(alloc, device)?;
    let users = user_names(alloc, device)?;
    let opcodes = Opcodes::new(alloc, device.opcodes())?;
    for row in device.opcodes() {
        put_instruction(text, name, device, &own, &users, &opcodes, row)?;
    }
    Ok(())
}

/// Puts the lines of an instruction behind a text.
#[tactic(auto, using(output_words::proofs::TextLaws::flat_map_more))]
fn put_instruction<'d>(
    text: &mut Vec<u8>,
    name: &str,
    device: &Device,
    own: &Places<&str>,
    users: &[&str],
    opcodes: &Opcodes<'d>,
    row: &'d Opcode,
) -> Result<(), AllocError>
    requires own { texts_of own.now ≡ own_names device.now }
    requires users { NamesUsers device.now.users device.now.accesses (texts_of users.now) }
    requires opcodes { Holds (opcode_names device.now.opcodes) (opcode_patterns device.now.opcodes) opcodes.now }
    ensures { OnOk result (text.new.items ≡ text.old.items ++ instruction_lines name.now device.now row.now) }
{
    for pattern in row.patterns() {
        let played = opcodes.played(row.name(), pattern);
        put_line(text, name, device, own, users, row.name(), pattern, played)?;
    }
    Ok(())
}

/// Puts the line of an opcode of an instruction behind a text, given the instruction that the board plays by it.
fn put_line(
    text: &mut Vec<u8>,
    device_name: &str,
    device: &Device,
    own: &Places<&str>,
    users: &[&str],
    name: &str,
    pattern: &Pattern,
    played: &str,
) -> Result<(), AllocError>
    requires own { texts_of own.now ≡ own_names device.now }
    requires users { NamesUsers device.now.users device.now.accesses (texts_of users.now) }
    ensures { OnOk result (text.new.items
        ≡ text.old.items ++ spec.opcode_line_by device_name.now device.now name.now pattern.now played.now) }
{
    put_opcode(text, device_name, name, pattern)?;
    put_register(text, device, users, selected_by(device, own, played))?;
    put_end(text, device, name, played)
}

/// Puts the front of an opcode's line behind a text.
fn put_opcode(
    text: &mut Vec<u8>,
    device: &str,
    name: &str,
    pattern: &Pattern,
) -> Result<(), AllocError>
    ensures { OnOk result (text.new.items ≡ text.old.items ++ spec.opcode_front device.now name.now pattern.now) }
{
    put(
        text,
        &[device.as_bytes(), b" instruction ", name.as_bytes(), b" "],
    )?;
    put_pattern(text, pattern)?;
    put(text, &[b" register "])
}

/// Puts what ends the line of an opcode behind a text, given the instruction that the board plays by it.
fn put_end(text: &mut Vec<u8>, device: &Device, name: &str, played: &str) -> Result<(), AllocError>
    ensures { OnOk result (text.new.items ≡ text.old.items ++ spec.end_words device.now name.now played.now) }
{
    if played != name {
        put(text, &[b" covered by ", played.as_bytes(), b"\n"])
    } else if is_left_out(device, name) {
        put(text, &[b" stands for BYPASS\n"])
    } else {
        put(text, &[b"\n"])
    }
}

/// Puts a register and its length behind a text, given the first instruction of each user register.
fn put_register(
    text: &mut Vec<u8>,
    device: &Device,
    users: &[&str],
    selected: Selected,
) -> Result<(), AllocError>
    requires { NamesUsers device.now.users device.now.accesses (texts_of users.now) }
    ensures { OnOk result (text.new.items ≡ text.old.items ++ register_words device.now selected) }
{
    let mut digits = Buffer::new();
    match selected {
        Selected::Bypass => put(text, &[b"bypass 1"]),
        Selected::Identification => put(text, &[b"identification 32"]),
        Selected::Boundary => put(
            text,
            &[b"boundary ", digits.format(device.cells().len()).as_bytes()],
        ),
        Selected::User(k) if k < device.users().len() => put(
            text,
            &[
                b"of ",
                users[k].as_bytes(),
                b" ",
                digits.format(device.users()[k]).as_bytes(),
            ],
        ),
        Selected::User(_) => Ok(()),
    }
}
