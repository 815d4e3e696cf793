//! The rows of the benchmark of devices, edge by edge.
use crate::rows::{Row, Unit, print_row};
use boundary::Boundary;
use bsdl_device::{Cell, Device, Function, Names, Opcode, Parts, Pattern, Ports};
use jt_bits::Bits;
use scan_registers::{Chip, SharedDevice, is_formed};
use std::alloc::{AllocError, Global};
use std::io;

mod instructions;

/// The cells of the boundary register, which is shifted.
const CELLS: usize = 256;

/// The cycles of a round, of two edges each.
const CYCLES: usize = 500_000;

/// An instruction of one opcode of so many bits.
fn opcode(alloc: Global, name: &str, code: u64, length: u8) -> Result<Opcode, AllocError> {
    let mut bits = Vec::with_capacity(alloc, usize::from(length))?;
    for i in 0..length.min(64) {
        bits.push(Some(code >> i & 1 == 1))?;
    }
    let mut patterns = Vec::with_capacity(alloc, 1)?;
    patterns.push(Pattern::new(bits))?;
    let mut text = String::new(alloc);
    text.push_str(name)?;
    Ok(Opcode::new(text, patterns))
}

/// The instructions BYPASS 11, EXTEST 00 and SAMPLE 01.
fn three_opcodes(alloc: Global) -> Result<Vec<Opcode>, AllocError> {
    let mut opcodes = Vec::with_capacity(alloc, 3)?;
    opcodes.push(opcode(alloc, "BYPASS", 0b11, 2)?)?;
    opcodes.push(opcode(alloc, "EXTEST", 0b00, 2)?)?;
    opcodes.push(opcode(alloc, "SAMPLE", 0b01, 2)?)?;
    Ok(opcodes)
}

/// A device of these instructions, whose codes have this length, with so many cells, all inside it.
fn device_of(
    alloc: Global,
    opcodes: Vec<Opcode>,
    length: u8,
    cell_count: usize,
) -> Result<Device, AllocError> {
    let mut cells = Vec::with_capacity(alloc, cell_count)?;
    for _ in 0..cell_count {
        cells.push(Cell {
            function: Function::Internal,
            port: None,
            control: None,
        })?;
    }
    let mut capture = Bits::zeros(alloc, usize::from(length))?;
    if capture.len() > 0 {
        capture.set(0, true);
    }
    Ok(Device::new(Parts {
        ports: Ports::new(alloc),
        instruction_length: usize::from(length),
        opcodes,
        capture,
        idcode: None,
        usercode: None,
        cells,
        private_names: Names::new(alloc),
        accesses: Vec::new(alloc),
        users: Vec::new(alloc),
        has_trst: true,
    }))
}

/// A rising edge and a falling one.
fn cycle(chip: &mut Chip<Boundary>, tms: bool, tdi: bool) {
    chip.rise(tms, tdi);
    chip.fall();
}

pub fn rows(rt: &HostRuntime) -> io::Result<()> {
    let alloc = rt.alloc();
    let device = device_of(alloc, three_opcodes(alloc)?, 2, CELLS)?;
    if !is_formed(&device) || device.cells().len() != CELLS {
        return Ok(());
    }
    let shared = SharedDevice::new(alloc, device)?;
    let core = Bits::ones(alloc, CELLS)?;
    if core.len() != shared.get().cells().len() {
        return Ok(());
    }
    let boundary = Boundary::new(alloc, &shared, &core, false)?;
    let mut chip = Chip::new(alloc, &shared, boundary)?;
    print_row(rt, "chip_shift", Unit::Edge, || Ok(chip_shift(&mut chip)))?;
    instructions::rows(rt)
}

/// From anywhere to the shift of the boundary register, under SAMPLE, and then so many cycles there.
fn chip_shift(chip: &mut Chip<Boundary>) -> Row {
    for tms in [
        true, true, true, true, true, false, true, true, false, false,
    ] {
        cycle(chip, tms, false);
    }
    cycle(chip, false, true);
    for tms in [true, true, true, false, false] {
        cycle(chip, tms, false);
    }
    let mut check: u64 = 0;
    for i in 0..CYCLES {
        cycle(chip, false, i % 3 == 0);
        if chip.tdo() == Some(true) {
            check = check.wrapping_add(i as u64);
        }
    }
    Row {
        count: 2 * CYCLES,
        check,
    }
}
