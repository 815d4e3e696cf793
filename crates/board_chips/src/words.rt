//! The bits of a word of 64.

ghost use Rattle.std.specs.Prelude.{◌≡◌, ◌≢◌, ◌<◌, ℕ, true, false};
ghost use Rattle.jt_bits.specs.Packed.{has_bit};

/// Bit `j` of a word.
pub(crate) fn bit(word: u64, j: usize) -> bool
    requires { j < 64 }
    ensures { result ≡ has_bit word j }
{
    word >> j & 1 == 1
}

/// The word with bit `j` set.
pub(crate) fn with_bit(word: u64, j: usize) -> u64
    requires { j < 64 }
    ensures here { has_bit result j ≡ true }
    ensures others { (k : ℕ) → k < 64 → k ≢ j → has_bit result k ≡ has_bit word k }
{
    word | 1 << j
}

/// The place of the lowest bit that is set.
pub(crate) fn lowest(word: u64) -> usize
    requires { 0 < word }
    ensures within { result < 64 }
    ensures marked { has_bit word result ≡ true }
{
    word.trailing_zeros() as usize
}

/// The word with bit `j` cleared.
pub(crate) fn without_bit(word: u64, j: usize) -> u64
    requires within { j < 64 }
    requires marked { has_bit word j ≡ true }
    ensures less { result < word }
    ensures here { has_bit result j ≡ false }
    ensures others { (k : ℕ) → k < 64 → k ≢ j → has_bit result k ≡ has_bit word k }
{
    word & !(1 << j)
}
