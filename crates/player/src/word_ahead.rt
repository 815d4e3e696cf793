//! What is wanted of the next bits of a vector, known for a word of them at a time.

ghost use Rattle.std.specs.Prelude.{◌≡◌, ◌+◌, ◌-◌, ◌<◌, ◌≤◌, ℕ, true, false, Bool, Option, List, Some, IfSome};
ghost use Rattle.std.specs.Prelude.{drop, length, option_map, slice_get};
ghost use Rattle.jt_bits.specs.Packed.{has_bit};
ghost use Rattle.scan_vectors.specs.Held.{bits, wanted_of};
ghost use Rattle.scan_vectors.specs.Vector.{VectorBit, wanted_bits};
ghost use Rattle.player.specs.WordAhead.{IsAhead};

use scan_vectors::{Vector, WantedRun};

/// What is wanted from a bit of a vector on, as far as one word has it.
#[derive(Debug, Clone, Copy)]
pub(crate) struct WordAhead {
    from: usize,
    run: WantedRun,
}

impl WordAhead {
    /// Nothing is known yet.
    pub(crate) fn nothing() -> WordAhead
        ensures { (v : List VectorBit) → IsAhead v result }
    {
        let run = WantedRun {
            bits: 0,
            care: 0,
            len: 0,
        };
        WordAhead { from: 0, run }
    }

    /// The next bit from this place on that is wanted, where it is to be this one. Bits that are not wanted are passed
    /// by the word.
    pub(crate) fn expected(&mut self, vector: &Vector<'_>, from: usize, bit: bool) -> Option<usize>
        requires { IsAhead (bits vector.now) self.old }
        ensures known { IsAhead (bits vector.now) self.new }
        ensures inside { IfSome result (λ i. i < length (bits vector.now)) }
        ensures there { IfSome result (λ i.
            option_map {U = Option Bool} (λ b. b.wanted) (slice_get (bits vector.now) i) ≡ Some (Some bit)) }
        ensures next { IfSome result (λ i.
            wanted_bits (drop from (bits vector.now)) ≡ wanted_bits (drop i (bits vector.now))) }
    {
        self.look(vector, from);
        // For the proof alone: how long the vector is.
        let _ = vector.len();
        let mut i = from;
        while self.has(i) {
            match self.wanted(i) {
                Some(wanted) if is_same(wanted, bit) => return Some(i),
                Some(_) => return None,
                None => {
                    i += self.unwanted(i);
                    self.look(vector, i);
                }
            }
        }
        None
    }

    /// Makes bit `i` known, if the vector has it.
    fn look(&mut self, vector: &Vector<'_>, i: usize)
        requires { IsAhead (bits vector.now) self.old }
        ensures { IsAhead (bits vector.now) self.new }
    {
        if self.has(i) {
            return;
        }
        if i < vector.len() {
            let run = vector.wanted_run(i);
            *self = WordAhead { from: i, run };
        }
    }

    /// Whether bit `i` is known.
    fn has(&self, i: usize) -> bool
        ensures low { result ≡ true → self.now.from ≤ i }
        ensures high { result ≡ true → i < self.now.from + self.now.run.len }
    {
        i >= self.from && i - self.from < self.run.len
    }

    /// What is wanted out as bit `i`, which is known.
    fn wanted(&self, i: usize) -> Option<bool>
        requires low { self.now.from ≤ i }
        requires high { i < self.now.from + 64 }
        ensures { result ≡ wanted_of (has_bit self.now.run.care (i - self.now.from))
            (has_bit self.now.run.bits (i - self.now.from)) }
    {
        let j = i - self.from;
        if has_one(self.run.care, j) {
            Some(has_one(self.run.bits, j))
        } else {
            None
        }
    }

    /// How many of the known bits from bit `i` on are not wanted, up to the first that is. Bit `i` itself is not.
    fn unwanted(&self, i: usize) -> usize
        requires low { self.now.from ≤ i }
        requires high { i < self.now.from + self.now.run.len }
        requires few { self.now.run.len ≤ 64 }
        requires first { has_bit self.now.run.care (i - self.now.from) ≡ false }
        ensures some { 0 < result }
        ensures within { i + result ≤ self.now.from + self.now.run.len }
        ensures zeros { (k : ℕ) → k < result → has_bit self.now.run.care (i - self.now.from + k) ≡ false }
    {
        let j = i - self.from;
        zeros_from(self.run.care, j).max(1).min(self.run.len - j)
    }
}

/// How many bits of a word from bit `j` on are 0, up to the first that is 1 or to the word's end.
fn zeros_from(word: u64, j: usize) -> usize
    requires { j < 64 }
    ensures within { j + result ≤ 64 }
    ensures zeros { (k : ℕ) → k < result → has_bit word (j + k) ≡ false }
{
    let rest = word >> j;
    if rest == 0 {
        64 - j
    } else {
        rest.trailing_zeros() as usize
    }
}

/// Whether bit `j` of a word is 1.
fn has_one(word: u64, j: usize) -> bool
    requires { j < 64 }
    ensures { result ≡ has_bit word j }
{
    word >> j & 1 == 1
}

fn is_same(one: bool, other: bool) -> bool
    ensures { result ≡ true → one ≡ other }
{
    one == other
}
