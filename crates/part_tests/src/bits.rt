//! Lists of bits: what no clause says of a shift, and the calls that no play makes.
use bitbang_protocol::{Cycle, cycle_bytes};
use chip_registers::{Plain, Register};
use jt_bits::{Bits, first_bad};
use std::alloc::{AllocError, Global};
use std::process::Abort;
use std::test::Fail;

/// How long lists are that are shifted: about a word, and many.
const LENGTHS: &[usize] = &[1, 63, 64, 65, 4096];

/// Bits that follow no round of 64.
fn mixed(alloc: Global, n: usize) -> Result<Bits, AllocError> {
    let mut bits = Bits::zeros(alloc, n)?;
    for i in 0..n {
        if i < bits.len() {
            bits.set(i, i % 3 == 0 || i % 7 == 2);
        }
    }
    Ok(bits)
}

/// The bit at a place of the packed words, counted round them.
fn packed_bit(words: &[u64], at: usize) -> bool {
    let place = at % words.len().wrapping_mul(64).max(1);
    let word = words.get(place / 64).copied().unwrap_or(0);
    word >> (place % 64) & 1 == 1
}

/// A shift moves the start on by one, round the words, and puts one of their bits: what a snapshot's readers see of it.
#[test]
fn a_shift_moves_the_start_and_puts_one_bit(rt: HostRuntime) -> Result<(), Fail> {
    for n in LENGTHS {
        let mut bits = mixed(rt.alloc(), *n)?;
        for i in 0..130 {
            assert_moves(&rt, rt.alloc(), &mut bits, i % 5 < 2)?;
        }
    }
    Ok(())
}

/// Asserts what a shift does to the words: the bit stands right behind the last one, and all others as before.
fn assert_moves(
    rt: &impl Abort,
    alloc: Global,
    bits: &mut Bits,
    bit: bool,
) -> Result<(), AllocError> {
    let before = bits.packed().to_vec(alloc)?;
    let start = bits.start();
    assert!(rt; bits.len() > 0);
    bits.shift_in(bit);
    let places = before.len().wrapping_mul(64).max(1);
    let end = start.wrapping_add(bits.len()) % places;
    assert_eq!(rt; bits.start(), start.wrapping_add(1) % places);
    for place in 0..places {
        let wanted = if place == end {
            bit
        } else {
            packed_bit(&before, place)
        };
        assert_eq!(rt; packed_bit(bits.packed(), place), wanted);
    }
    Ok(())
}

/// The bits of the longest scan.
const MOST: usize = 1_048_576;

/// Three bits are lengthened, copied to the end, and compared with what they were.
#[test]
fn bits_are_lengthened_copied_and_compared(rt: HostRuntime) -> Result<(), Fail> {
    let Ok(five) = Bits::from_hex(rt.alloc(), b"5", 3) else {
        return Err(Fail::from("no value"));
    };
    let want = five.resized(rt.alloc(), MOST)?;
    let mut got = want.try_clone(rt.alloc())?;
    assert_copied(&rt, &mut got, &five, MOST - 3);
    assert_differs(&rt, &got, &want, &Bits::ones(rt.alloc(), MOST)?, MOST - 3);
    Ok(())
}

/// Copies three bits to a place, and asserts the digits at both ends.
fn assert_copied(rt: &impl Abort, got: &mut Bits, three: &Bits, at: usize) {
    assert!(rt; 3 <= three.len());
    assert!(rt; at <= got.len() && 3 <= got.len() - at);
    got.copy_bits(at, three, 0, 3);
    assert_eq!(rt; (got.hex_digit(0), got.hex_digit(at / 4)), (b'5', b'A'));
}

/// Asserts the first bit that differs of those that the mask has.
fn assert_differs(rt: &impl Abort, got: &Bits, want: &Bits, mask: &Bits, first: usize) {
    assert!(rt; got.len() == want.len() && got.len() == mask.len());
    assert_eq!(rt; first_bad(got, want, mask), Some(first));
}

/// The protocol's bytes of a cycle, which is read while the clock is low.
#[test]
fn a_cycle_is_read_while_the_clock_is_low(rt: HostRuntime) {
    let cycle = Cycle {
        tms: false,
        tdi: true,
        read: true,
    };
    assert_eq!(rt; cycle_bytes(cycle).as_slice(), b"1R5".as_slice());
}

/// A register without pins: a bit is shifted in at its far end.
#[test]
fn a_plain_register_is_shifted(rt: HostRuntime) -> Result<(), Fail> {
    let mut register = Plain::new(rt.alloc(), 3)?;
    assert!(rt; register.len() == 3);
    assert!(rt; !register.shift_in(true));
    register.update();
    assert_eq!(rt; register.word_at(0), 4);
    Ok(())
}
