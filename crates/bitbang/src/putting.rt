//! Putting the bytes of cycles into a buffer.

ghost use Rattle.std.specs.Prelude.{◌≡◌, ◌≤◌, ◌+◌, ◌*◌, ◌++◌, drop, length, replicate, take};
ghost use Rattle.tck_cycles.specs.Shifts.{shift_cycles};
ghost use Rattle.bitbang.specs.Left.{bytes_of, bytes_of_cycle};

use bitbang_protocol::{Cycle, Message, encode};
use tck_cycles::Shifts;

/// Puts the bytes of a cycle, so many times, to the front of a buffer. Answers how many bytes they are.
pub(crate) fn put_cycles(cycle: Cycle, times: usize, buffer: &mut [u8]) -> usize
    requires room { 3 * times ≤ length buffer.old }
    ensures count { result ≡ length (bytes_of (replicate times cycle)) }
    ensures filled { buffer.new ≡ bytes_of (replicate times cycle) ++ drop result buffer.old }
{
    let mut count = 0;
    for _i in 0..times {
        count = put_cycle(cycle, buffer, count);
    }
    count
}

/// Puts the bytes of cycles that shift, one after another, to the front of a buffer. Answers how many bytes they are.
pub(crate) fn put_shifts(shifts: Shifts, buffer: &mut [u8]) -> usize
    requires few { shifts.len ≤ 64 }
    requires room { 3 * shifts.len ≤ length buffer.old }
    ensures count { result ≡ length (bytes_of (shift_cycles shifts)) }
    ensures filled { buffer.new ≡ bytes_of (shift_cycles shifts) ++ drop result buffer.old }
{
    let mut count = 0;
    for j in 0..shifts.len {
        count = put_cycle(shifts.cycle(j), buffer, count);
    }
    count
}

/// Puts the bytes of a cycle to a place of a buffer. Answers the place behind them.
fn put_cycle(cycle: Cycle, buffer: &mut [u8], at: usize) -> usize
    requires room { at + 3 ≤ length buffer.old }
    ensures count { result ≡ at + length (bytes_of_cycle cycle) }
    ensures filled { buffer.new ≡ take at buffer.old ++ bytes_of_cycle cycle ++ drop result buffer.old }
{
    let Cycle { tms, tdi, read } = cycle;
    let low = encode(Message::Write {
        tck: false,
        tms,
        tdi,
    });
    let high = encode(Message::Write {
        tck: true,
        tms,
        tdi,
    });
    if read {
        buffer[at] = low;
        buffer[at + 1] = encode(Message::Ask);
        buffer[at + 2] = high;
        at + 3
    } else {
        buffer[at] = low;
        buffer[at + 1] = high;
        at + 2
    }
}
