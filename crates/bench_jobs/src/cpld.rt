//! A small device is programmed and verified: short statements, as the tools of its makers write them.

use crate::digests::{Digest, Run, add_run};
use crate::numbers::Numbers;
use crate::pool::Pool;
use crate::texts::{Text, hex_of};
use crate::wired;
use jt_player::Board;
use std::alloc::{AllocError, Global};

const JOB: u8 = 1;

/// How often a row of a text is programmed and verified.
const ROWS: usize = 40_000;

/// The digits of a row.
const ROW_DIGITS: usize = 22;

/// How many kinds there are of what is wanted of a row.
const KINDS: u64 = 1000;

/// The bytes of a row.
const ROW_BYTES: usize = 240;

/// The instructions: programming shifts a row of 88 bits, which captures what is fixed here, HIGH and LOW.
const INSTRUCTIONS: &str = "  attribute INSTRUCTION_LENGTH of W : entity is 8;
  attribute INSTRUCTION_OPCODE of W : entity is
    \"BYPASS (11111111), EXTEST (00000000), SAMPLE (00000001), PRELOAD (00000001), IDCODE (11111110),\" &
    \"CLAMP (11111010), HIGHZ (11111100), USERCODE (11111101), ISC_ENABLE (11101000), ISC_ERASE (11101101),\" &
    \"ISC_PROGRAM (11101010), ISC_READ (11101110), ISC_DISABLE (11000000)\";
  attribute INSTRUCTION_CAPTURE of W : entity is \"00000001\";
  attribute IDCODE_REGISTER of W : entity is \"0001\" & \"0100110001000100\" & \"00100100011\" & \"1\";
  attribute USERCODE_REGISTER of W : entity is \"00000000000000000000000000000001\";
  attribute REGISTER_ACCESS of W : entity is
    \"ROW[88] (ISC_PROGRAM CAPTURES \" &
    \"101001011100001101011010\" & \"0001001000110100010101100111100010011010101111001101111011110000\" &
    \", ISC_ENABLE, ISC_ERASE, ISC_READ)\";
";

const HIGH: u64 = 0x00A5_C35A;

const LOW: u64 = 0x1234_5678_9ABC_DEF0;

pub fn run(alloc: Global, seed: u32, rounds: u32) -> Result<u64, AllocError> {
    let mut digest = Digest::new();
    for round in 0..rounds {
        let mut numbers = Numbers::of(seed, JOB, round);
        let text = program(alloc, &mut numbers, ROWS, RUNTEST)?;
        if let Some(mut board) = board(alloc, &mut numbers)? {
            let run = if round % 4 == 3 {
                Run::Check
            } else {
                Run::Play
            };
            add_run(alloc, &mut digest, run, text.bytes(), &mut board);
        }
    }
    Ok(digest.number())
}

/// A wait between programming and verifying.
pub const RUNTEST: &str = "RUNTEST IDLE\t20000 TCK;\n";

/// A program of so many rows.
pub fn program(
    alloc: Global,
    numbers: &mut Numbers,
    rows: usize,
    wait: &str,
) -> Result<Text, AllocError> {
    let pool = Pool::of(alloc, numbers)?;
    let wanted = wanted(alloc, numbers)?;
    let mut text = Text::with_room(alloc, rows.saturating_mul(ROW_BYTES))?;
    text.add("! A row is programmed, and read again.\nTRST OFF;\nENDIR IDLE;\nENDDR IDLE;\n")?;
    text.add("STATE RESET;\nFREQUENCY 1E6 HZ;\n")?;
    for _ in 0..rows {
        add_row(&mut text, numbers, &pool, wait)?;
        let kind = numbers.below(KINDS);
        if let Some(kind) = wanted.get(kind) {
            text.add_digits(kind.bytes())?;
        }
    }
    Ok(text)
}

/// What may be wanted of a row that is read, and at which bits: the ends of statements.
fn wanted(alloc: Global, numbers: &mut Numbers) -> Result<Vec<Text>, AllocError> {
    let mut all = Vec::with_capacity(alloc, 1000)?;
    for _ in 0..KINDS {
        let mut text = Text::with_room(alloc, 100)?;
        let (high, low) = (numbers.draw(), numbers.draw());
        let (other_high, other_low) = (numbers.draw(), numbers.draw());
        text.add("\tTDO (")?;
        add_bits(
            &mut text,
            (HIGH & high) | (other_high & !high),
            (LOW & low) | (other_low & !low),
        )?;
        text.add(")\n\tMASK (")?;
        add_bits(&mut text, high, low)?;
        text.add(");\n")?;
        put(&mut all, text)?;
    }
    Ok(all)
}

fn put(list: &mut Vec<Text>, item: Text) -> Result<(), AllocError> {
    list.push(item)?;
    Ok(())
}

/// Programs a row and begins to verify it.
fn add_row(
    text: &mut Text,
    numbers: &mut Numbers,
    pool: &Pool,
    wait: &str,
) -> Result<(), AllocError> {
    text.add("SIR 8\tTDI (EA);\nSDR 88\tTDI (")?;
    text.add_digits(pool.piece(pool.place(numbers), ROW_DIGITS))?;
    text.add(");\n")?;
    text.add(wait)?;
    text.add("SDR 88\tTDI (")?;
    text.add_digits(pool.piece(pool.place(numbers), ROW_DIGITS))?;
    text.add(")\n")
}

/// Adds a field of 88 bits.
fn add_bits(text: &mut Text, high: u64, low: u64) -> Result<(), AllocError> {
    text.add_digits(hex_of(high).as_slice().split_at(16 - 6).1)?;
    text.add_word(low)
}

/// A board of the device alone.
pub fn board(alloc: Global, numbers: &mut Numbers) -> Result<Option<Board>, AllocError> {
    let mut device = Text::with_room(alloc, 4096)?;
    wired::add_head(&mut device)?;
    wired::add_vector(&mut device, "Q", "out", 8)?;
    wired::add_middle(&mut device, INSTRUCTIONS, 8)?;
    for i in 0..8 {
        wired::add_cell(&mut device, i, "Q", i, "output2, X")?;
    }
    wired::add_tail(&mut device)?;
    let mut board = Text::with_room(alloc, 256)?;
    wired::add_device(&mut board, 1)?;
    wired::add_core(&mut board, numbers, 8)?;
    Ok(wired::board_of(alloc, &board, &device))
}
