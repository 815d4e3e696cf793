//! Up to 64 bits through a whole chain at once, handed over in a word.

ghost use Rattle.std.specs.Prelude.{◌≡◌, ◌+◌, ◌<◌, ◌≤◌, ◌^◌, ℕ, [], ◌++◌, length, drop, take, map, slice_get};
ghost use Rattle.std.specs.Prelude.{slice_index_or, Some};
ghost use Rattle.jt_bits.specs.Packed.{has_bit};
ghost use Rattle.jt_bits.specs.Words.{bit_of};
ghost use Rattle.board_chain.specs.Rows.{joined_registers, IsCutBack};
ghost use Rattle.board_chain.specs.Words.{word_bits};

use jt_tap::Column;
use scan_registers::{Link, WordLink};

/// What comes out of the chain, of which the first link is the nearest to TDO, when bits are shifted in, as many as
/// those: the first of the registers that the column selects, and behind them those bits, the lowest of `bits` first.
pub(crate) fn word_out<L: Link>(chain: &[L], column: Column, bits: u64) -> u64
    ensures { (n : ℕ) → n ≤ 64 → word_bits result n
        ≡ take n (joined_registers (map (λ c. L.register c column) chain.now) ++ word_bits bits n) }
{
    let mut out = 0;
    let mut at = 0;
    for link in chain {
        out |= link.register_word(column, 0) << at;
        let len = link.register_len(column);
        if len >= 64 - at {
            return out;
        }
        at += len;
    }
    out | bits << at
}

/// Shifts the lowest `n` bits of a word through the chain, its lowest first, of which the first link is the nearest to
/// TDO: each register takes its part of what stays in.
pub(crate) fn shift_word<L: WordLink>(chain: &mut [L], column: Column, bits: u64, n: usize)
    requires { n ≤ 64 }
    ensures { IsCutBack (λ c. L.register c column) (λ c stage d. L.is_put c column stage d)
        (drop n (joined_registers (map (λ c. L.register c column) chain.old) ++ word_bits bits n))
        chain.old chain.new }
{
    let mut entering = bits;
    let mut i = chain.len();
    while i > 0 {
        i -= 1;
        entering = chain[i].shift_register(column, entering, n);
    }
}
