//! The interconnect of a board is tested: a ring of eight devices, each with 256 outputs on the inputs of the next.

use crate::digests::{Digest, Run, add_run};
use crate::numbers::Numbers;
use crate::pool::Pool;
use crate::texts::Text;
use crate::wired;
use jt_player::Board;
use std::alloc::{AllocError, Global};

const JOB: u8 = 3;

const DEVICES: usize = 8;

/// The bits of a bus between two devices, which are as many input and as many output cells.
const BUS: usize = 256;

/// The digits of a bus, a line of them.
const BUS_DIGITS: usize = 64;

/// A bus of which nothing is wanted.
const NOTHING: &str = "0000000000000000000000000000000000000000000000000000000000000000\n\t";

/// The scans of a text.
const SCANS: usize = 1000;

/// What a text begins with: the first vector is put behind the pins, and what follows is on them.
const PRELOAD: &str = "SIR 32 TDI (22222222);\nSDR 4096";

const EXTEST: &str = ";\nSIR 32 TDI (00000000);\n";

pub fn run(alloc: Global, seed: u32, rounds: u32) -> Result<u64, AllocError> {
    let mut digest = Digest::new();
    for round in 0..rounds {
        let mut numbers = Numbers::of(seed, JOB, round);
        let fails = round % 2 == 1;
        let text = program(alloc, &mut numbers, SCANS, fails)?;
        if let Some(mut board) = board(alloc, &mut numbers)? {
            let run = if fails { Run::PlayAll } else { Run::Play };
            add_run(alloc, &mut digest, run, text.bytes(), &mut board);
        }
    }
    Ok(digest.number())
}

/// So many scans, each of which wants what the one before it put on the nets; where `fails`, a bus of some is wrong.
pub fn program(
    alloc: Global,
    numbers: &mut Numbers,
    scans: usize,
    fails: bool,
) -> Result<Text, AllocError> {
    let pool = Pool::of(alloc, numbers)?;
    let mut text = Text::with_room(alloc, scans.saturating_mul(3400))?;
    let mut driven = [0; DEVICES];
    text.add(PRELOAD)?;
    add_vector(&mut text, numbers, &pool, &mut driven)?;
    text.add(EXTEST)?;
    for scan in 0..scans {
        let mut wanted = driven;
        if fails && scan % 16 == 15 {
            wanted[scan % DEVICES] = pool.place(numbers);
        }
        text.add("SDR 4096")?;
        add_vector(&mut text, numbers, &pool, &mut driven)?;
        add_wanted(&mut text, numbers, &pool, &wanted)?;
        text.add(";\n")?;
    }
    Ok(text)
}

/// Adds what goes in, and keeps the places of what the outputs of each device take of it.
fn add_vector(
    text: &mut Text,
    numbers: &mut Numbers,
    pool: &Pool,
    driven: &mut [usize; DEVICES],
) -> Result<(), AllocError> {
    text.add(" TDI (")?;
    for place in driven.iter_mut().rev() {
        *place = pool.place(numbers);
        text.add_lines(pool.piece(*place, BUS_DIGITS))?;
        text.add_lines(pool.piece(pool.place(numbers), BUS_DIGITS))?;
    }
    text.add(")\n")
}

/// Adds what the cells see: inputs the outputs of the device before, outputs nothing; and which inputs are looked at.
fn add_wanted(
    text: &mut Text,
    numbers: &mut Numbers,
    pool: &Pool,
    wanted: &[usize; DEVICES],
) -> Result<(), AllocError> {
    text.add(" TDO (")?;
    for device in 0..DEVICES {
        let before = (2 * DEVICES - 2 - device) % DEVICES;
        text.add(NOTHING)?;
        text.add_lines(pool.piece(wanted[before], BUS_DIGITS))?;
    }
    text.add(")\n MASK (")?;
    for _ in 0..DEVICES {
        text.add(NOTHING)?;
        text.add_lines(pool.piece(pool.place(numbers), BUS_DIGITS))?;
    }
    text.add(")")
}

/// The ring.
pub fn board(alloc: Global, numbers: &mut Numbers) -> Result<Option<Board>, AllocError> {
    let mut device = Text::with_room(alloc, 32768)?;
    wired::add_head(&mut device)?;
    wired::add_vector(&mut device, "D", "in", BUS)?;
    wired::add_vector(&mut device, "Q", "out", BUS)?;
    wired::add_middle(&mut device, wired::usual_instructions(), 2 * BUS)?;
    for i in 0..BUS {
        wired::add_cell(&mut device, i, "D", i, "input, X")?;
        wired::add_cell(&mut device, BUS + i, "Q", i, "output2, X")?;
    }
    wired::add_tail(&mut device)?;
    let mut board = Text::with_room(alloc, 131_072)?;
    for number in 0..DEVICES {
        wired::add_device(&mut board, number)?;
        wired::add_core(&mut board, numbers, 2 * BUS)?;
    }
    for number in 0..DEVICES {
        for i in 0..BUS {
            wired::add_net(&mut board, number * BUS + i)?;
            wired::add_pin(&mut board, number, "Q", i)?;
            wired::add_pin(&mut board, (number + 1) % DEVICES, "D", i)?;
            wired::end_net(&mut board)?;
        }
    }
    Ok(wired::board_of(alloc, &board, &device))
}
