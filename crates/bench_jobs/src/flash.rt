//! A large device is programmed: long fields of random digits, between the headers and trailers of three others.

use crate::digests::{Digest, Run, add_run};
use crate::numbers::Numbers;
use crate::pool::Pool;
use crate::texts::Text;
use crate::wired;
use jt_player::Board;
use std::alloc::{AllocError, Global};

const JOB: u8 = 2;

/// The scans of a text, of 2,560 to 16,384 digits each.
const SCANS: usize = 200;

const LEAST_DIGITS: usize = 2560;

const MORE_DIGITS: u64 = 16384 - 2560 + 1;

/// The devices, so that what goes in comes out again a digit later.
const DEVICES: usize = 4;

/// What every text begins with: three devices are passed by.
const HEAD: &str =
    "TRST OFF;\nENDIR IDLE;\nENDDR IDLE;\nSTATE RESET;\nHIR 4 TDI (F);\nTIR 8 TDI (FF);\n\
                    HDR 1 TDI (0);\nTDR 2 TDI (0);\nSIR 4 TDI (F) TDO (5);\n";

pub fn run(alloc: Global, seed: u32, rounds: u32) -> Result<u64, AllocError> {
    let mut digest = Digest::new();
    for round in 0..rounds {
        let mut numbers = Numbers::of(seed, JOB, round);
        let text = program(alloc, &mut numbers)?;
        if let Some(mut board) = board(alloc, &mut numbers)? {
            add_run(alloc, &mut digest, Run::Play, text.bytes(), &mut board);
        }
    }
    Ok(digest.number())
}

fn program(alloc: Global, numbers: &mut Numbers) -> Result<Text, AllocError> {
    let pool = Pool::of(alloc, numbers)?;
    let mut text = Text::with_room(alloc, 4_000_000)?;
    text.add(HEAD)?;
    for scan in 0..SCANS {
        let count = LEAST_DIGITS.saturating_add(numbers.below(MORE_DIGITS));
        let place = pool.place(numbers);
        text.add("SDR ")?;
        text.add_number(count.saturating_mul(4))?;
        text.add(" TDI (")?;
        text.add_lines(pool.piece(place, count))?;
        if scan % 4 == 3 {
            text.add(")\n TDO (")?;
            text.add_lines(pool.piece(place.saturating_add(1), count.saturating_sub(1)))?;
            text.add("0")?;
        }
        if scan % 8 == 7 {
            text.add(")\n MASK (")?;
            text.add_lines(pool.piece(pool.place(numbers), count))?;
        }
        text.add(");\nRUNTEST 100 TCK;\n")?;
    }
    Ok(text)
}

/// A board of four devices without nets.
fn board(alloc: Global, numbers: &mut Numbers) -> Result<Option<Board>, AllocError> {
    let mut device = Text::with_room(alloc, 4096)?;
    wired::add_head(&mut device)?;
    wired::add_vector(&mut device, "Q", "out", 8)?;
    wired::add_middle(&mut device, wired::usual_instructions(), 8)?;
    for i in 0..8 {
        wired::add_cell(&mut device, i, "Q", i, "output2, X")?;
    }
    wired::add_tail(&mut device)?;
    let mut board = Text::with_room(alloc, 256)?;
    for number in 0..DEVICES {
        wired::add_device(&mut board, number)?;
        wired::add_core(&mut board, numbers, 8)?;
    }
    Ok(wired::board_of(alloc, &board, &device))
}
