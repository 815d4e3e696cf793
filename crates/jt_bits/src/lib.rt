//! Lists of bits: the registers and vectors of a scan chain.
#![tactic(auto)]

ghost use Rattle.std.specs.Prelude.{◌≡◌, ◌+◌, ◌*◌, ◌<◌, ◌≤◌, ℕ, true, false, length, replicate, slice_get};
ghost use Rattle.std.specs.Prelude.{◌++◌, drop, slice_set, take, IfOk};
ghost use Rattle.jt_bits.specs.Lengths.{resized};
ghost use Rattle.jt_bits.specs.Packed.{has_bit, bits_in_words, FewWords};
ghost use Rattle.jt_bits.specs.Runs.{RunSet, copied};
ghost use Rattle.jt_bits.specs.Shifting.{after_shift, after_shifts};
ghost use Rattle.jt_bits.specs.Words.{bit_of, word_bits, word_of, word_from, is_bad_at, is_bad_bit, IsFirst};

pub use digits::{HexFault, digits_have_one_beyond, has_one_beyond, is_hexadecimal};
use std::alloc::{AllocError, Global};
use std::marker::Model;

mod digits;
mod order;
mod words;

/// A list of bits of a fixed length. Contracts see it as that list. Bit 0 is the one nearest TDO: of a register the
/// first to leave it in a shift, of a vector the first to be shifted in.
///
/// The bits stand in words of 64, of which there are as few as hold them, and bit 0 at a place that moves: a shift
/// changes one bit and the place.
#[derive(Debug, Drop)]
pub struct Bits {
    words: Vec<u64>,
    start: usize,
    len: usize,
}

impl Model for Bits {
    ghost use Rattle.std.specs.Prelude.{◌+◌, ◌*◌, ◌^◌, ◌<◌, ◌≤◌, Bool, List, length};
    ghost use Rattle.jt_bits.specs.Packed.{bits_in_words};

    ghost Value = { List Bool };

    ghost view = { λ b. bits_in_words b.words.items b.start b.len };

    ghost invariant = { λ b. record {
      enough : b.len ≤ 64 * length b.words.items;
      no_more : 64 * length b.words.items < b.len + 64;
      start : 0 < b.len → b.start < 64 * length b.words.items;
      fits : 64 * length b.words.items ≤ 2 ^ 64;
    } };
}

/// How a list of bits is packed: bit `i` of the list is bit `(start + i) % room` of the words, where room is 64 times
/// their count, and the lowest bit of the first word is bit 0.
#[derive(Debug, Clone, Copy)]
pub struct Layout<'a> {
    /// As few words as hold the list. Their bits outside the list do not count.
    pub words: &'a [u64],
    /// The place of the list's bit 0 among the bits of the words.
    pub start: usize,
}

impl Bits {
    /// `len` bits that are 0. Refuses for want of memory alone.
    pub fn zeros(alloc: Global, len: usize) -> Result<Bits, AllocError>
        ensures { IfOk result (λ b. b ≡ replicate len false) }
    {
        Ok(Bits {
            words: Vec::from_elem(alloc, 0, words::words_for(len))?,
            start: 0,
            len,
        })
    }

    /// `len` bits that are 1. Refuses for want of memory alone.
    pub fn ones(alloc: Global, len: usize) -> Result<Bits, AllocError>
        ensures { IfOk result (λ b. b ≡ replicate len true) }
    {
        Ok(Bits {
            words: Vec::from_elem(alloc, u64::MAX, words::words_for(len))?,
            start: 0,
            len,
        })
    }

    /// A second list of the same bits. Refuses for want of memory alone.
    pub fn try_clone(&self, alloc: Global) -> Result<Bits, AllocError>
        ensures { IfOk result (λ b. b ≡ self.now) }
    {
        Ok(Bits {
            words: self.words.to_vec(alloc)?,
            start: self.start,
            len: self.len,
        })
    }

    /// A list of the lowest `len` bits; those that this list does not have are 0. Refuses for want of memory alone.
    pub fn resized(&self, alloc: Global, len: usize) -> Result<Bits, AllocError>
        ensures { IfOk result (λ b. b ≡ resized len self.now) }
    {
        let count = words::words_for(len);
        let mut words = Vec::with_capacity(alloc, count)?;
        for k in 0..count {
            words.push(self.word(k))?;
        }
        Ok(Bits {
            words,
            start: 0,
            len,
        })
    }

    /// How many bits there are.
    pub fn len(&self) -> usize
        ensures { result ≡ length self.now }
    {
        self.len
    }

    /// Bit `i`.
    pub fn get(&self, i: usize) -> bool
        requires { i < length self.now }
        ensures { slice_get self.now i ≡ Some result }
    {
        let place = words::place(self.words.len(), self.start, i);
        words::read(&self.words, place)
    }

    /// Makes bit `i` this bit and keeps all others.
    pub fn set(&mut self, i: usize, bit: bool)
        requires { i < length self.old }
        ensures { self.new ≡ slice_set self.old i bit }
    {
        let place = words::place(self.words.len(), self.start, i);
        words::put(&mut self.words, place, bit);
    }

    /// Moves every bit one place towards TDO, puts `bit` at the far end, and answers the bit that left: bit 0
    /// (IEEE Std 1149.1-2001, clause 9).
    pub fn shift_in(&mut self, bit: bool) -> bool
        requires { 0 < length self.old }
        ensures out { slice_get self.old 0 ≡ Some result }
        ensures bits { self.new ≡ after_shift self.old bit }
    {
        words::shift(&mut self.words, &mut self.start, self.len, bit)
    }

    /// Shifts in the lowest `n` bits of a word, the lowest first, as so many calls of `shift_in`. Answers the bits that
    /// left, the first of them the lowest; what stands above those has no meaning (IEEE Std 1149.1-2001, clause 9).
    pub fn shift_word(&mut self, bits: u64, n: usize) -> u64
        requires some { 0 < length self.old }
        requires few { n ≤ 64 }
        ensures out { word_bits result n ≡ take n (self.old ++ word_bits bits n) }
        ensures bits { self.new ≡ after_shifts self.old (word_bits bits n) }
        ensures left { self.new ≡ drop n (self.old ++ word_bits bits n) }
        ensures len { length self.new ≡ length self.old }
    {
        words::shift_word(&mut self.words, &mut self.start, self.len, bits, n)
    }

    /// Makes `n` bits from `at` on those of another list from `from_at` on, 64 at a time.
    pub fn copy_bits(&mut self, at: usize, from: &Bits, from_at: usize, n: usize)
        requires to { at + n ≤ length self.old }
        requires from { from_at + n ≤ length from.now }
        ensures { self.new ≡ copied self.old at from.now from_at n }
    {
        // Both lengths fit their type, and so do the sums below.
        let _ = (self.len(), from.len());
        let mut done = 0;
        while done < n {
            let count = (n - done).min(64);
            let bits = from.run(from_at + done);
            self.put_run(at + done, bits, count);
            done += count;
        }
    }

    /// The bits from `at` on as a number, as many as 64 of them, bit `at` lowest. What stands above the last of the
    /// list has no meaning.
    fn run(&self, at: usize) -> u64
        requires { at < length self.now }
        ensures { (j : ℕ) → j < 64 → at + j < length self.now → has_bit result j ≡ bit_of self.now (at + j) }
    {
        let place = words::place(self.words.len(), self.start, at);
        words::window(&self.words, place)
    }

    /// Makes the `n` bits from `at` on those of `bits`, its lowest first, and keeps all others.
    pub fn put_run(&mut self, at: usize, bits: u64, n: usize)
        requires some { 0 < n }
        requires few { n ≤ 64 }
        requires inside { at + n ≤ length self.old }
        ensures { RunSet self.old self.new at bits n }
    {
        let place = words::place(self.words.len(), self.start, at);
        words::put_run(&mut self.words, place, bits, n);
    }

    /// Takes all bits of another list of the same length, as a parallel load does.
    pub fn copy_from(&mut self, other: &Bits)
        requires { length self.old ≡ length other.now }
        ensures { self.new ≡ other.now }
    {
        self.words.copy_from_slice(&other.words);
        self.start = other.start;
    }

    /// The bits `64 * k` to `64 * k + 63` as a number, bit `64 * k` lowest; missing ones are 0.
    pub fn word(&self, k: usize) -> u64
        ensures { result ≡ word_of self.now k }
    {
        if k >= self.words.len() {
            return 0;
        }
        let place = words::place(self.words.len(), self.start, 64 * k);
        words::lowest_bits(words::window(&self.words, place), self.len - 64 * k)
    }

    /// The bits from place `i` on as a number, 64 of them, bit `i` lowest; missing ones are 0.
    pub fn word_at(&self, i: usize) -> u64
        ensures value { result ≡ word_from self.now i }
        ensures bits { (j : ℕ) → j < 64 → has_bit result j ≡ bit_of self.now (i + j) }
    {
        if i >= self.len {
            return 0;
        }
        let place = words::place(self.words.len(), self.start, i);
        words::lowest_bits(words::window(&self.words, place), self.len - i)
    }

    /// The words that the bits stand in, and where bit 0 stands in them.
    pub fn layout(&self) -> Layout<'_>
        ensures bits { self.now ≡ bits_in_words result.words.now result.start (length self.now) }
        ensures few { FewWords result.words.now (length self.now) }
        ensures start { 0 < length self.now → result.start < 64 * length result.words.now }
    {
        Layout {
            words: &self.words,
            start: self.start,
        }
    }

    /// The words of the layout.
    pub fn packed(&self) -> &[u64]
        ensures bits { (start : ℕ) × (self.now ≡ bits_in_words result.now start (length self.now)) }
        ensures few { FewWords result.now (length self.now) }
    {
        self.layout().words
    }

    /// The place of bit 0 in the words of the layout, which says how the two belong together.
    pub fn start(&self) -> usize
        ensures { 0 < length self.now → result < length self.now + 64 }
    {
        self.layout().start
    }
}

/// The first place where two lists differ and the mask is 1.
pub fn first_bad(got: &Bits, want: &Bits, mask: &Bits) -> Option<usize>
    requires want { length got.now ≡ length want.now }
    requires mask { length got.now ≡ length mask.now }
    ensures { IsFirst (is_bad_at got.now want.now mask.now) (length got.now) result }
{
    for k in 0..got.words.len() {
        let bad = (got.word(k) ^ want.word(k)) & mask.word(k);
        if bad != 0 {
            return Some(64 * k + bad.trailing_zeros() as usize);
        }
    }
    None
}

/// The least bit at which two words differ and the mask is 1.
pub fn first_bad_bit(got: u64, want: u64, mask: u64) -> Option<usize>
    ensures { IsFirst (is_bad_bit got want mask) 64 result }
{
    let bad = (got ^ want) & mask;
    if bad == 0 {
        return None;
    }
    Some(bad.trailing_zeros() as usize)
}
