//! Lists of bits.
use crate::rows::{Row, Unit, print_row};
use jt_bits::{Bits, first_bad};
use std::alloc::{AllocError, Global};
use std::io;

/// The bits of a long register, and of a long vector.
const REGISTER: usize = 4096;

const VECTOR: usize = 65536;

/// How often a round does each call.
const SHIFTS: usize = 1_000_000;

const TIMES: usize = 100;

/// A row of numbers that look random, the same as C's.
#[derive(Drop)]
pub struct Numbers {
    last: u64,
}

impl Numbers {
    pub fn new() -> Numbers {
        Numbers {
            last: 88172645463325252,
        }
    }

    pub fn next(&mut self) -> u64 {
        self.last ^= self.last << 13;
        self.last ^= self.last >> 7;
        self.last ^= self.last << 17;
        self.last
    }
}

/// A list of `n` such bits, whose bit 0 has moved by `turned` places.
pub fn mixed(alloc: Global, n: usize, turned: usize) -> Result<Bits, AllocError> {
    let mut bits = Bits::zeros(alloc, n)?;
    let mut numbers = Numbers::new();
    for _ in 0..n.saturating_add(turned) {
        let bit = numbers.next() & 1 == 1;
        if bits.len() > 0 {
            bits.shift_in(bit);
        }
    }
    Ok(bits)
}

pub fn rows(rt: &HostRuntime) -> io::Result<()> {
    let alloc = rt.alloc();
    let mut register = mixed(alloc, REGISTER, 5)?;
    print_row(rt, "shift_in", Unit::Bit, || Ok(shift_in(&mut register)))?;
    let got = mixed(alloc, VECTOR, 5)?;
    let mut want = got.resized(alloc, VECTOR)?;
    let last = VECTOR - 1;
    if last < want.len() {
        let bit = want.get(last);
        want.set(last, !bit);
    }
    let mask = Bits::ones(alloc, VECTOR)?;
    print_row(
        rt,
        "first_bad",
        Unit::Bit,
        || Ok(find_first_bad(&got, &want, &mask)),
    )?;
    let mut digits = Vec::with_capacity(alloc, VECTOR / 4)?;
    for k in (0..VECTOR / 4).rev() {
        digits.push(got.hex_digit(k))?;
    }
    print_row(rt, "from_hex", Unit::Bit, || from_hex(alloc, &digits))?;
    let mut to = mixed(alloc, VECTOR, 11)?;
    print_row(rt, "copy_bits", Unit::Bit, || Ok(copy_bits(&mut to, &got)))
}

fn shift_in(register: &mut Bits) -> Row {
    let mut check: u64 = 0;
    for i in 0..SHIFTS {
        if register.len() > 0 && register.shift_in(i % 3 == 0) {
            check = check.wrapping_add(1);
        }
    }
    Row {
        count: SHIFTS,
        check,
    }
}

fn find_first_bad(got: &Bits, want: &Bits, mask: &Bits) -> Row {
    let mut check: u64 = 0;
    for _ in 0..TIMES {
        if got.len() == want.len() && got.len() == mask.len() {
            let place = first_bad(got, want, mask).unwrap_or(0);
            check = check.wrapping_add(place as u64);
        }
    }
    Row {
        count: TIMES * VECTOR,
        check,
    }
}

fn from_hex(alloc: Global, digits: &[u8]) -> Result<Row, AllocError> {
    let mut check: u64 = 0;
    for k in 0..TIMES {
        match Bits::from_hex(alloc, digits, VECTOR) {
            Ok(bits) => check = check.wrapping_add(bits.word(k)),
            Err(_) => return Err(AllocError),
        }
    }
    Ok(Row {
        count: TIMES * VECTOR,
        check,
    })
}

fn copy_bits(to: &mut Bits, from: &Bits) -> Row {
    const COUNT: usize = VECTOR - 100;
    let mut check: u64 = 0;
    for k in 0..TIMES {
        if k + COUNT <= to.len() && COUNT + 7 <= from.len() {
            to.copy_bits(k, from, 7, COUNT);
            check = check.wrapping_add(to.word(k));
        }
    }
    Row {
        count: TIMES * COUNT,
        check,
    }
}
