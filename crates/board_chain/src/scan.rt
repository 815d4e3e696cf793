//! A scan through a whole chain at once, without TCK and without memory: what comes out is judged, and the registers
//! take what stays in (IEEE Std 1149.1-2001, clause 9).
ghost use Rattle.std.specs.Prelude.{◌≡◌, ◌+◌, ◌-◌, ◌<◌, ◌≤◌, ◌^◌, ℕ, [], length, drop, map, slice_get};
ghost use Rattle.std.specs.Prelude.{slice_index_or, Some};
ghost use Rattle.jt_bits.specs.Packed.{has_bit};
ghost use Rattle.jt_bits.specs.Words.{bit_of};
ghost use Rattle.scan_vectors.specs.Failures.{differing, found, with_found};
ghost use Rattle.scan_vectors.specs.Vector.{tdis};
ghost use Rattle.scan_vectors.specs.Held.{bits};
ghost use Rattle.board_chain.specs.Rows.{before, left, out, IsCutBack};

use jt_tap::Column;
use pieces::{note_behind, note_piece};
use scan_registers::Link;
use scan_vectors::{Failures, Vector};
pub(crate) use words::{shift_word, word_out};

mod pieces;
mod words;

/// Notes every bit of a vector whose wanted value differs from what comes out of the chain, of which the first link is
/// the nearest to TDO: first the registers that the column selects, and behind them the vector's own TDI.
pub fn note_chain<L: Link>(
    chain: &[L],
    column: Column,
    vector: &Vector,
    command: usize,
    failures: &mut Failures,
)
    requires room { failures.old.total + length (bits vector.now) < 2 ^ 64 }
    ensures { found failures.new ≡ with_found
        (differing command (bits vector.now) (out (bits vector.now) (map (λ c. L.register c column) chain.now)))
        (found failures.old) }
{
    let mut at = 0;
    for link in chain {
        note_link(link, column, vector, at, command, failures);
        let len = link.register_len(column);
        if len >= vector.len() - at {
            return;
        }
        at += len;
    }
    note_behind(vector, at, command, failures);
}

/// Notes every bit of a vector, from bit `at` on, whose wanted value differs from the link's register that comes out
/// there.
fn note_link<L: Link>(
    link: &L,
    column: Column,
    vector: &Vector,
    at: usize,
    command: usize,
    failures: &mut Failures,
)
    requires inside { at ≤ length (bits vector.now) }
    requires room { failures.old.total + (length (bits vector.now) - at) < 2 ^ 64 }
    ensures { found failures.new
        ≡ with_found (differing command (drop at (bits vector.now)) (L.register link.now column)) (found failures.old) }
{
    let end = (vector.len() - at).min(link.register_len(column));
    let mut done = 0;
    while done < end {
        let free = vector.unwanted(at + done).min(end - done);
        if free > 0 {
            done += free;
            continue;
        }
        let few = (end - done).min(64);
        let word = link.register_word(column, done);
        done += note_piece(vector, at + done, word, few, command, failures);
    }
    // For the proof alone: no more are listed than there is room for.
    let _ = failures.list.len();
}

/// A bit of the chain: the link and the bit in its register. Past the last link, a bit of what follows them.
#[derive(Debug, Clone, Copy)]
struct Spot {
    link: usize,
    bit: usize,
}

/// Bits that follow one another, the first of them the lowest.
#[derive(Debug, Clone, Copy)]
struct Run {
    bits: u64,
    len: usize,
}

/// Shifts a whole vector through the chain, of which the first link is the nearest to TDO: each register takes its part
/// of what stays in.
pub fn shift_chain<L: Link>(chain: &mut [L], column: Column, vector: &Vector)
    ensures { IsCutBack (λ c. L.register c column) (λ c stage d. L.is_put c column stage d)
        (left (bits vector.now) (map (λ c. L.register c column) chain.old)) chain.old chain.new }
{
    let mut from = spot_in_its_link(
        chain,
        column,
        Spot {
            link: 0,
            bit: vector.len(),
        },
    );
    for i in 0..chain.len() {
        let len = chain[i].register_len(column);
        let mut done = 0;
        while done < len {
            let run = run_at(chain, column, vector, from);
            let count = run.len.min(len - done);
            chain[i].put_register(column, done, run.bits, count);
            let next = Spot {
                link: from.link,
                bit: from.bit + count,
            };
            from = spot_in_its_link(chain, column, next);
            done += count;
        }
    }
}

/// The same bit, counted from the link in whose register it stands.
fn spot_in_its_link<L: Link>(chain: &[L], column: Column, spot: Spot) -> Spot
    requires { spot.link ≤ length chain.now }
    ensures within { result.link ≤ length chain.now }
    ensures same { before (map (λ c. L.register c column) chain.now) result.link + result.bit
        ≡ before (map (λ c. L.register c column) chain.now) spot.link + spot.bit }
    ensures stands { result.link < length chain.now
        → result.bit < length (slice_index_or (map (λ c. L.register c column) chain.now) result.link []) }
{
    let mut bit = spot.bit;
    for link in spot.link..chain.len() {
        let len = chain[link].register_len(column);
        if bit < len {
            return Spot { link, bit };
        }
        bit -= len;
    }
    Spot {
        link: chain.len(),
        bit,
    }
}

/// The bits from a spot on, as far as one word and one register or part has them.
fn run_at<L: Link>(chain: &[L], column: Column, vector: &Vector, spot: Spot) -> Run
    requires within { spot.link ≤ length chain.now }
    requires stands { spot.link < length chain.now
        → spot.bit < length (slice_index_or (map (λ c. L.register c column) chain.now) spot.link []) }
    requires behind { length chain.now ≤ spot.link → spot.bit < length (bits vector.now) }
    ensures some { 0 < result.len }
    ensures few { result.len ≤ 64 }
    ensures fits { spot.bit + result.len < 2 ^ 64 }
    ensures inside { spot.link < length chain.now
        → spot.bit + result.len ≤ length (slice_index_or (map (λ c. L.register c column) chain.now) spot.link []) }
    ensures register { spot.link < length chain.now → (j : ℕ) → j < result.len
        → has_bit result.bits j ≡ bit_of (slice_index_or (map (λ c. L.register c column) chain.now) spot.link [])
        (spot.bit + j) }
    ensures vector { length chain.now ≤ spot.link → (j : ℕ) → j < result.len
        → slice_get (tdis (bits vector.now)) (spot.bit + j) ≡ Some (has_bit result.bits j) }
{
    if spot.link == chain.len() {
        let run = vector.tdi_run(spot.bit);
        return Run {
            bits: run.bits,
            len: run.len,
        };
    }
    let len = chain[spot.link].register_len(column);
    Run {
        bits: chain[spot.link].register_word(column, spot.bit),
        len: (len - spot.bit).min(64),
    }
}
