//! What comes out of a scan, judged without TCK, a word of up to 64 bits at a time (Serial Vector Format, revision E,
//! SDR and SIR).
ghost use Rattle.std.specs.Prelude.{◌≡◌, ◌+◌, ◌-◌, ◌<◌, ◌≤◌, ◌^◌, List, Bool, length, take, drop};
ghost use Rattle.scan_vectors.specs.Failures.{differing, found, with_found};
ghost use Rattle.scan_vectors.specs.Vector.{tdis};
ghost use Rattle.scan_vectors.specs.Held.{bits};
ghost use Rattle.board_chain.specs.Pieces.{Begins};

use jt_bits::first_bad_bit;
use scan_vectors::{Failures, Mismatch, Vector};

/// Judges a word that comes out as the bits of a vector from `at` on, its lowest first, up to and with the first bit
/// that fails, and notes that one. Answers how many of its `len` bits it judged.
pub(crate) fn note_piece(
    vector: &Vector,
    at: usize,
    word: u64,
    len: usize,
    command: usize,
    failures: &mut Failures,
) -> usize
    requires some { 0 < len }
    requires few { len ≤ 64 }
    requires inside { at + len ≤ length (bits vector.now) }
    requires room { failures.old.total + 1 < 2 ^ 64 }
    ensures some { 0 < result }
    ensures most { result ≤ len }
    ensures noted { (out : List Bool) → Begins word out len → found failures.new
        ≡ with_found (differing command (take result (drop at (bits vector.now))) out) (found failures.old) }
{
    // For the proof alone: no more are listed than there is room for.
    let _ = failures.list.len();
    let run = vector.wanted_run(at);
    let count = run.len.min(len);
    match first_bad_bit(word, run.bits, run.care) {
        Some(bad) if bad < count => {
            let (part, bit) = vector.part(at + bad);
            failures.note(Mismatch { command, part, bit });
            bad + 1
        }
        _ => count,
    }
}

/// Notes every bit of a vector, from bit `at` on, whose wanted value differs from the vector's own TDI, which comes out
/// there behind the registers.
pub(crate) fn note_behind(vector: &Vector, at: usize, command: usize, failures: &mut Failures)
    requires inside { at ≤ length (bits vector.now) }
    requires room { failures.old.total + (length (bits vector.now) - at) < 2 ^ 64 }
    ensures { found failures.new
        ≡ with_found (differing command (drop at (bits vector.now)) (tdis (bits vector.now))) (found failures.old) }
{
    let end = vector.len() - at;
    let mut done = 0;
    while done < end {
        let free = vector.unwanted(at + done).min(end - done);
        if free > 0 {
            done += free;
            continue;
        }
        let run = vector.tdi_run(done);
        let few = (end - done).min(run.len);
        done += note_piece(vector, at + done, run.bits, few, command, failures);
    }
    // For the proof alone: no more are listed than there is room for.
    let _ = failures.list.len();
}
