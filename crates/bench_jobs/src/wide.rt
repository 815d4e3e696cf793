//! A wide board of which little moves: 32 devices of 4,096 cells on 2,047 nets of 32 pins, and short scans.

use crate::digests::{Digest, Run, add_run};
use crate::numbers::Numbers;
use crate::texts::Text;
use crate::wired;
use jt_player::Board;
use std::alloc::{AllocError, Global};

const JOB: u8 = 4;

const DEVICES: usize = 32;

/// The nets, each of which meets a pin of every device.
const NETS: usize = 2047;

/// The cells: one that sees and one that drives each pin, and what turns these on.
const CELLS: usize = 4096;

/// The scans of a text.
const SCANS: usize = 1000;

/// The identification of every device.
const IDENTIFICATION: u64 = 0x14C4_4247;

pub fn run(alloc: Global, seed: u32, rounds: u32) -> Result<u64, AllocError> {
    let mut digest = Digest::new();
    for round in 0..rounds {
        let mut numbers = Numbers::of(seed, JOB, round);
        let text = program(alloc, &mut numbers)?;
        if let Some(mut board) = board(alloc, &mut numbers)? {
            add_run(alloc, &mut digest, Run::Play, text.bytes(), &mut board);
        }
    }
    Ok(digest.number())
}

/// Scans of 64 bits: of the first two identifications, or through all bypass registers.
fn program(alloc: Global, numbers: &mut Numbers) -> Result<Text, AllocError> {
    let mut text = Text::with_room(alloc, 200_000)?;
    text.add("STATE RESET IDLE;\n")?;
    for _ in 0..SCANS {
        let word = numbers.draw();
        let is_named = numbers.below(2) == 0;
        if is_named {
            text.add("SIR 128 TDI (88888888888888888888888888888888);\n")?;
        } else {
            text.add("SIR 128 TDI (FFFFFFFFFFFFFFFFFFFFFFFFFFFFFFFF);\n")?;
        }
        let wanted = if is_named {
            IDENTIFICATION | (IDENTIFICATION << 32)
        } else {
            word << 32
        };
        text.add("SDR 64 TDI (")?;
        text.add_word(word)?;
        text.add(") TDO (")?;
        text.add_word(wanted)?;
        text.add(");\n")?;
    }
    Ok(text)
}

/// The board, with pulls on some nets.
fn board(alloc: Global, numbers: &mut Numbers) -> Result<Option<Board>, AllocError> {
    let mut device = Text::with_room(alloc, 300_000)?;
    wired::add_head(&mut device)?;
    wired::add_vector(&mut device, "B", "inout", NETS)?;
    wired::add_middle(&mut device, wired::usual_instructions(), CELLS)?;
    for i in 0..NETS {
        wired::add_cell(&mut device, 2 * i, "B", i, "input, X")?;
        wired::add_cell(&mut device, 2 * i + 1, "B", i, "output3, X, 4094, 0, Z")?;
    }
    device.add(" & \"4094 (BC_1, *, control, 0), 4095 (BC_1, *, internal, 0)\"")?;
    wired::add_tail(&mut device)?;
    let mut board = Text::with_room(alloc, 1_200_000)?;
    for number in 0..DEVICES {
        wired::add_device(&mut board, number)?;
    }
    for net in 0..NETS {
        wired::add_net(&mut board, net)?;
        for number in 0..DEVICES {
            wired::add_pin(&mut board, number, "B", net)?;
        }
        wired::end_net(&mut board)?;
        if numbers.below(4) == 0 {
            board.add("pull = \"up\"\n")?;
        }
    }
    Ok(wired::board_of(alloc, &board, &device))
}
