//! Long plays: whole registers beside edges.

use crate::rows::{Row, Unit, print_row};
use jt_board::{Board, Counted, Reply};
use play_direct::{accept, play_program, play_program_noted};
use play_model::Ending;
use std::alloc::{AllocError, Global};
use std::io;
use std::time::Instant;
use svf_programs::Program;

/// A scan of 65,536 bits, each of which is wanted, and how many bytes its play has.
const SCAN: &[u8] = b"SDR 65536 TDI (0) TDO (0);";

const SCAN_BYTES: usize = 12 + 8 + 3 * 65536 + 5 + 1;

/// The longest scan, each bit wanted.
const LONG_SCAN: &[u8] = b"SDR 1048576 TDI (0) TDO (0);";

/// How often a round plays it.
const PLAYS: usize = 100;

/// How many scans of 64 bits there are.
const SHORT_SCANS: usize = 200_000;

pub fn rows(rt: &HostRuntime) -> io::Result<()> {
    let alloc = rt.alloc();
    print_row(rt, "play_1", Unit::Byte, || Ok(whole(alloc, 1)))?;
    print_row(rt, "edges_1", Unit::Byte, || edges(alloc, 1))?;
    print_row(rt, "play_32", Unit::Byte, || Ok(whole(alloc, 32)))?;
    print_row(rt, "edges_32", Unit::Byte, || edges(alloc, 32))
}

/// Prints the seconds of plays that have no row in C.
pub fn tell(rt: &HostRuntime) -> io::Result<()> {
    for devices in &[1, 32, 256][..] {
        tell_play(
            rt,
            "RUNTEST of 4,294,967,295 cycles",
            b"RUNTEST 4294967295 TCK;",
            *devices,
        )?;
        tell_play(rt, "a scan of 65,536 bits", SCAN, *devices)?;
        tell_play(rt, "a scan of 1,048,576 bits", LONG_SCAN, *devices)?;
    }
    let mut text = Vec::new(rt.alloc());
    text.extend_from_slice(b"SDR 64 TDI (0) TDO (0);")?;
    for _ in 1..SHORT_SCANS {
        text.extend_from_slice(b"SDR 64;")?;
    }
    tell_play(rt, "200,000 scans of 64 bits", &text, 32)
}

/// Prints how long a text takes to be accepted, and to be played on so many devices.
fn tell_play(rt: &HostRuntime, name: &str, text: &[u8], devices: usize) -> io::Result<()> {
    let start = Instant::now(rt)?;
    let Ok(program) = accept(rt.alloc(), text) else {
        return rt.println(format_args!("{name}: refused"));
    };
    let accepted = start.elapsed(rt)?.as_micros();
    let start = Instant::now(rt)?;
    let passed = passes(rt.alloc(), &program, devices, 1);
    let played = start.elapsed(rt)?.as_micros();
    rt.println(format_args!(
        "{name} on {devices} devices: {passed} passed, accept {accepted} us, play {played} us"
    ))
}

/// How many of so many plays of a program pass on one board.
fn passes(alloc: Global, program: &Program, devices: usize, times: usize) -> u64 {
    let mut passed: u64 = 0;
    if let Ok(mut board) = Board::bare(alloc, devices) {
        for _ in 0..times {
            passed = passed.wrapping_add(u64::from(
                play_program(program, &mut board) == Ending::Pass,
            ));
        }
    }
    passed
}

/// The plays, whose scans go through whole registers.
fn whole(alloc: Global, devices: usize) -> Row {
    let check = match accept(alloc, SCAN) {
        Ok(program) => passes(alloc, &program, devices, PLAYS),
        Err(_) => 0,
    };
    Row {
        count: PLAYS * SCAN_BYTES,
        check,
    }
}

/// The bytes of one play.
fn bytes_of_play(alloc: Global, devices: usize) -> Vec<u8> {
    let mut out = Counted::new(Vec::new(alloc));
    if let Ok(program) = accept(alloc, SCAN) {
        if let Ok(mut board) = Board::bare(alloc, devices) {
            let _ = play_program_noted(&program, &mut board, &mut out);
        }
    }
    out.into_inner()
}

/// The same plays, each byte an edge through all devices.
fn edges(alloc: Global, devices: usize) -> Result<Row, AllocError> {
    let bytes = bytes_of_play(alloc, devices);
    let mut check: u64 = 0;
    if let Ok(mut board) = Board::bare(alloc, devices) {
        for _ in 0..PLAYS {
            let mut ones: u64 = 0;
            for byte in &bytes {
                if board.byte(*byte) == Reply::Answer(b'1') {
                    ones = ones.wrapping_add(1);
                }
            }
            check = check.wrapping_add(u64::from(ones == 0));
        }
    }
    Ok(Row {
        count: PLAYS * SCAN_BYTES,
        check,
    })
}
