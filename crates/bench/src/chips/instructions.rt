//! The row of many instructions: devices that share a description of many opcodes, and new codes again and again.

use crate::chips::{cycle, device_of, opcode};
use crate::rows::{Row, Unit, print_row};
use boundary::Boundary;
use bsdl_device::Opcode;
use jt_bits::Bits;
use scan_registers::{Chip, Selected, SharedDevice, is_formed};
use std::alloc::{AllocError, Global};
use std::io;

/// The devices, of one description.
const DEVICES: u8 = 32;

/// The length of their instruction registers.
const LENGTH: u8 = 20;

/// The opcodes of the description, each of a row of its own: as many as stand in a text of 4 MiB.
const OPCODES: u64 = 110_000;

/// The instructions of a round, for each device.
const SCANS: u64 = 200;

/// The opcode of a row, each of which has another.
fn code(row: u64) -> u64 {
    row.wrapping_mul(48_271) & ((1 << LENGTH) - 1)
}

/// Rows of one opcode each: SAMPLE, and an instruction of the device's own, in turn.
fn rows_of(alloc: Global) -> Result<Vec<Opcode>, AllocError> {
    let mut rows = Vec::new(alloc);
    for row in 0..OPCODES {
        let name = if row % 2 == 0 { "SAMPLE" } else { "OWN" };
        rows.push(opcode(alloc, name, code(row), LENGTH)?)?;
    }
    Ok(rows)
}

/// A device of the description, where a chip can rest on it.
fn chip_of(
    alloc: Global,
    shared: &SharedDevice,
    core: &Bits,
) -> Result<Option<Chip<Boundary>>, AllocError> {
    if !is_formed(shared.get()) || core.len() != shared.get().cells().len() {
        return Ok(None);
    }
    let boundary = Boundary::new(alloc, shared, core, false)?;
    Ok(Some(Chip::new(alloc, shared, boundary)?))
}

/// An instruction is shifted in and takes effect, from RUN-TEST/IDLE to there.
fn scan(chip: &mut Chip<Boundary>, instruction: u64) {
    for tms in [true, true, false, false] {
        cycle(chip, tms, false);
    }
    for i in 0..LENGTH {
        cycle(chip, i + 1 == LENGTH, instruction >> i & 1 == 1);
    }
    cycle(chip, true, false);
    cycle(chip, false, false);
}

/// New instructions for each device, by edges. The check counts the codes that select the boundary register.
fn scans(chips: &mut [Chip<Boundary>]) -> Row {
    let mut check: u64 = 0;
    let mut count: usize = 0;
    let mut number: u64 = 1;
    for chip in chips.iter_mut() {
        cycle(chip, false, false);
        for turn in 0..SCANS {
            number = number
                .wrapping_mul(6_364_136_223_846_793_005)
                .wrapping_add(1_442_695_040_888_963_407);
            let random = number >> (64 - LENGTH);
            let instruction = if turn % 2 == 0 {
                random
            } else {
                code(random % OPCODES)
            };
            scan(chip, instruction);
            count = count.wrapping_add(2 * (usize::from(LENGTH) + 6));
            if chip.selected() == Selected::Boundary {
                check = check.wrapping_add(turn);
            }
        }
    }
    Row { count, check }
}

pub(crate) fn rows(rt: &HostRuntime) -> io::Result<()> {
    let alloc = rt.alloc();
    let device = device_of(alloc, rows_of(alloc)?, LENGTH, 1)?;
    let core = Bits::ones(alloc, 1)?;
    let shared = SharedDevice::new(alloc, device)?;
    let mut chips = Vec::new(alloc);
    for _ in 0..DEVICES {
        match chip_of(alloc, &shared, &core)? {
            Some(chip) => chips.push(chip)?,
            None => return Ok(()),
        }
    }
    print_row(rt, "decode_32", Unit::Edge, || Ok(scans(&mut chips)))
}
