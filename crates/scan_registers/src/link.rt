//! A device as one link of a scan chain.

ghost use Rattle.std.specs.Prelude.{◌≡◌, ◌+◌, ◌<◌, ◌≤◌, ◌++◌, ℕ, Bool, List, drop, length, take};
ghost use Rattle.jt_bits.specs.Packed.{has_bit};
ghost use Rattle.jt_bits.specs.Runs.{RunSet};
ghost use Rattle.jt_bits.specs.Words.{bit_of, word_bits};
ghost use Rattle.jt_tap.specs.declared.Column.{Column as TheColumn};

use jt_tap::Column;

/// What has in each column a register between TDI and TDO: the instruction register, and the selected data register.
pub trait Link {
    /// The bits of the column's register.
    ghost register: { Self → TheColumn → List Bool };

    /// The second is the first with these bits in the column's register, and nothing else changed.
    ghost is_put: { Self → TheColumn → List Bool → Self → Type 0 };

    /// How many bits the column's register has.
    fn register_len(&self, column: Column) -> usize
        ensures { result ≡ length (register self.now column) };

    /// The register's bits from place `i` on as a number, 64 of them, bit `i` lowest; missing ones are 0.
    fn register_word(&self, column: Column, i: usize) -> u64
        ensures { (j : ℕ) → j < 64 → has_bit result j ≡ bit_of (register self.now column) (i + j) };

    /// Makes the register's `n` bits from `at` on those of `bits`, its lowest first.
    fn put_register(&mut self, column: Column, at: usize, bits: u64, n: usize)
        requires some { 0 < n }
        requires few { n ≤ 64 }
        requires inside { at + n ≤ length (register self.old column) }
        ensures run { RunSet (register self.old column) (register self.new column) at bits n }
        ensures put { is_put self.old column (register self.new column) self.new };

    /// To put what is there changes nothing.
    ghost put_none: { (c : Self) (column : TheColumn) → is_put c column (register c column) c };

    /// Of two puts the second holds.
    ghost put_twice: { (a b c : Self) (column : TheColumn) (s t : List Bool)
        → is_put a column s b → is_put b column t c → is_put a column t c };
}

/// A link that also takes many bits at once.
pub trait WordLink: Link {
    /// Shifts the lowest `n` bits of a word into the column's register, the lowest first, as so many cycles in its
    /// Shift state do. Answers the bits that left, the first of them the lowest; what stands above those has no
    /// meaning.
    fn shift_register(&mut self, column: Column, bits: u64, n: usize) -> u64
        requires { n ≤ 64 }
        ensures out { word_bits result n ≡ take n (Self.register self.old column ++ word_bits bits n) }
        ensures put { Self.is_put self.old column
            (drop n (Self.register self.old column ++ word_bits bits n)) self.new };
}
