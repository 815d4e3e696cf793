//! Texts of SVF, and the statements that they are.
use crate::bits::Numbers;
use crate::rows::{Row, Unit, print_row};
use jt_bits::Bits;
use std::alloc::{AllocError, Global};
use std::io;
use svf_parse::{Statement, parse};

/// How many statements of `STATE` a text has, or scans of 8 bits, or of 65,536.
const PATHS: usize = 100_000;

const SHORT_SCANS: usize = 50_000;

const LONG_SCANS: usize = 60;

/// How many digits a long field has.
const LONG_DIGITS: usize = 16384;

pub fn rows(rt: &HostRuntime) -> io::Result<()> {
    let alloc = rt.alloc();
    let paths = paths(alloc)?;
    print_row(rt, "svf_states", Unit::Byte, || Ok(read(alloc, &paths)))?;
    let short = short_scans(alloc)?;
    print_row(rt, "svf_short", Unit::Byte, || Ok(read(alloc, &short)))?;
    let long = long_scans(alloc)?;
    print_row(rt, "svf_long", Unit::Byte, || Ok(read(alloc, &long)))
}

fn paths(alloc: Global) -> Result<Vec<u8>, AllocError> {
    let mut text = Vec::new(alloc);
    for _ in 0..PATHS {
        text.extend_from_slice(b"STATE IDLE;")?;
    }
    Ok(text)
}

fn short_scans(alloc: Global) -> Result<Vec<u8>, AllocError> {
    let mut text = Vec::new(alloc);
    let mut numbers = Numbers::new();
    for _ in 0..SHORT_SCANS {
        text.extend_from_slice(b"SDR 8 TDI (")?;
        add_digits(&mut text, &mut numbers, 2)?;
        text.extend_from_slice(b") TDO (")?;
        add_digits(&mut text, &mut numbers, 2)?;
        text.extend_from_slice(b");\n")?;
    }
    Ok(text)
}

fn long_scans(alloc: Global) -> Result<Vec<u8>, AllocError> {
    let mut text = Vec::new(alloc);
    let mut numbers = Numbers::new();
    for _ in 0..LONG_SCANS {
        text.extend_from_slice(b"SDR 65536 TDI (")?;
        add_digits(&mut text, &mut numbers, LONG_DIGITS)?;
        text.extend_from_slice(b");\n")?;
    }
    Ok(text)
}

/// Adds so many digits that look random.
fn add_digits(text: &mut Vec<u8>, numbers: &mut Numbers, count: usize) -> Result<(), AllocError> {
    for _ in 0..count {
        let digit = (numbers.next() & 15) as usize;
        if digit < 16 {
            text.push(b"0123456789ABCDEF"[digit])?;
        }
    }
    Ok(())
}

/// The statements of a text: how many there are, their states, and the lengths and lowest bits of their fields.
fn read(alloc: Global, text: &[u8]) -> Row {
    let check = match parse(alloc, text) {
        Ok(statements) => check_of(&statements),
        Err(_) => 0,
    };
    Row {
        count: text.len(),
        check,
    }
}

fn check_of(statements: &[Statement]) -> u64 {
    let mut check: u64 = 0;
    for statement in statements {
        let said = match statement {
            Statement::States(states) => states.len() as u64,
            Statement::Scan {
                tdi,
                tdo,
                mask,
                smask,
                ..
            } => field_check(tdi)
                .wrapping_add(field_check(tdo))
                .wrapping_add(field_check(mask))
                .wrapping_add(field_check(smask)),
            _ => 0,
        };
        check = check.wrapping_add(1).wrapping_add(said);
    }
    check
}

fn field_check(field: &Option<Bits>) -> u64 {
    match field {
        Some(bits) if bits.len() > 0 => {
            let lowest = if bits.get(0) { 2 } else { 0 };
            (bits.len() as u64).wrapping_add(lowest)
        }
        _ => 0,
    }
}
