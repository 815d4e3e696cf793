//! Whole vectors of scans, and the bytes of steps.
ghost use Rattle.std.specs.Prelude.{◌≡◌};

use crate::bits::mixed;
use crate::rows::{Row, Unit, digest, print_row};
use bitbang::StepBytes;
use jt_bits::Bits;
use jt_tap::{Column, State};
use scan_vectors::{Part, Part3, Vector, join, judge};
use std::alloc::{AllocError, Global};
use std::io;
use svf_programs::{Action, Step};

/// The bits of a header, of the data and of a trailer, of which the vector has as many as a scan may have.
const HEADER: usize = 5;

const DATA: usize = 65520;

const TRAILER: usize = 11;

/// The cycles of a run.
const CYCLES: u64 = 100_000;

/// How often a round does each.
const TIMES: usize = 20;

/// The most bytes of a step here.
const ROOM: usize = 220_000;

/// The written fields of a part.
#[derive(Drop)]
struct Written {
    len: usize,
    tdi: Bits,
    tdo: Bits,
    mask: Bits,
}

impl Written {
    /// Fields that look random, the same as C's.
    fn mixed(alloc: Global, len: usize) -> Result<Written, AllocError> {
        Ok(Written {
            len,
            tdi: mixed(alloc, len, 3)?,
            tdo: mixed(alloc, len, 7)?,
            mask: mixed(alloc, len, 11)?,
        })
    }

    fn part(&self) -> Part3<'_>
        ensures { result.len ≡ self.now.len }
    {
        Part3 {
            len: self.len,
            tdi: Some(&self.tdi),
            tdo: Some(&self.tdo),
            mask: Some(&self.mask),
        }
    }
}

/// What comes out where the last wanted bit alone differs.
fn all_but_the_last(alloc: Global, vector: &Vector) -> Result<Bits, AllocError> {
    let mut out = Bits::zeros(alloc, vector.len())?;
    let mut last = 0;
    for i in 0..vector.len() {
        let (_, wanted) = vector.bit(i);
        if i < out.len() && wanted.is_some() {
            out.set(i, wanted == Some(true));
            last = i;
        }
    }
    if last < out.len() {
        let bit = out.get(last);
        out.set(last, !bit);
    }
    Ok(out)
}

pub fn rows(rt: &HostRuntime) -> io::Result<()> {
    let alloc = rt.alloc();
    let header = Written::mixed(alloc, HEADER)?;
    let data = Written::mixed(alloc, DATA)?;
    let trailer = Written::mixed(alloc, TRAILER)?;
    rows_of_parts(rt, &header, &data, &trailer)
}

/// The rows of a vector of these parts.
fn rows_of_parts(
    rt: &HostRuntime,
    header: &Written,
    data: &Written,
    trailer: &Written,
) -> io::Result<()> {
    if header.len > HEADER || data.len > DATA || trailer.len > TRAILER {
        return Ok(());
    }
    let vector = join(header.part(), data.part(), trailer.part());
    bit_rows(rt, &vector)?;
    byte_rows(rt, vector)
}

/// The rows of bits.
fn bit_rows(rt: &HostRuntime, vector: &Vector) -> io::Result<()> {
    let out = all_but_the_last(rt.alloc(), vector)?;
    print_row(rt, "vector_bits", Unit::Bit, || Ok(vector_bits(vector)))?;
    print_row(rt, "judge", Unit::Bit, || Ok(judged(vector, &out)))
}

/// The rows of bytes.
fn byte_rows(rt: &HostRuntime, vector: Vector) -> io::Result<()> {
    let mut buffer = Vec::from_elem(rt.alloc(), 0, ROOM)?;
    print_row(
        rt,
        "scan_bytes",
        Unit::Byte,
        || Ok(scan_bytes(vector, &mut buffer)),
    )?;
    print_row(rt, "run_bytes", Unit::Byte, || Ok(run_bytes(&mut buffer)))
}

fn vector_bits(vector: &Vector) -> Row {
    let mut check: u64 = 0;
    for _ in 0..TIMES {
        for i in 0..vector.len() {
            let (tdi, wanted) = vector.bit(i);
            let worth = match wanted {
                None => 0,
                Some(false) => 2,
                Some(true) => 4,
            };
            check = check.wrapping_add(u64::from(tdi) + worth);
        }
    }
    Row {
        count: TIMES * (HEADER + DATA + TRAILER),
        check,
    }
}

fn judged(vector: &Vector, out: &Bits) -> Row {
    let mut check: u64 = 0;
    for _ in 0..TIMES {
        if vector.len() == out.len() {
            let found = match judge(vector, out) {
                None => 0,
                Some((Part::Header, place)) => 1 + 4 * (place as u64 % 100_000),
                Some((Part::Data, place)) => 2 + 4 * (place as u64 % 100_000),
                Some((Part::Trailer, place)) => 3 + 4 * (place as u64 % 100_000),
            };
            check = check.wrapping_add(found);
        }
    }
    Row {
        count: TIMES * (HEADER + DATA + TRAILER),
        check,
    }
}

/// The bytes of a scan from IDLE to IDLE.
fn scan_bytes(vector: Vector, buffer: &mut [u8]) -> Row {
    let len = vector.len();
    let mut count = 0;
    if len > 0 && len <= 65536 {
        let what = Action::Scan {
            column: Column::Dr,
            vector,
            end: State::Idle,
        };
        let step = Step { number: 1, what };
        for _ in 0..TIMES {
            count = StepBytes::of(State::Idle, &step).fill(buffer);
        }
    }
    row_of(buffer, count)
}

/// The bytes of a run from IDLE in DRPAUSE, and back.
fn run_bytes(buffer: &mut [u8]) -> Row {
    let what = Action::Run {
        run: State::DrPause,
        cycles: CYCLES,
        end: State::Idle,
    };
    let step = Step { number: 1, what };
    let mut count = 0;
    for _ in 0..TIMES {
        count = StepBytes::of(State::Idle, &step).fill(buffer);
    }
    row_of(buffer, count)
}

fn row_of(buffer: &[u8], count: usize) -> Row {
    let count = count.min(ROOM);
    Row {
        count: TIMES * count,
        check: digest(buffer.get(..count).unwrap_or(&[])),
    }
}
