//! What nets and bridges show at up to 64 captures at once, by words.

ghost use Rattle.std.specs.Prelude.{◌≡◌, ◌<◌, ℕ, true, false, not, if◌then◌else◌};
ghost use Rattle.jt_bits.specs.Packed.{has_bit};
ghost use Rattle.board_faults.specs.Together as together;
ghost use Rattle.board_faults.specs.Planes.{driven_at, led};

use crate::kinds::Winner;
use crate::together::Table;
use pin_nets::Pull;

/// What pins drive together at up to 64 captures: bit `k` of each word says it of the k-th.
#[derive(Drop, Clone, Copy)]
pub struct DrivenWords {
    pub zero: u64,
    pub one: u64,
    pub weak: u64,
}

/// Nothing is driven.
const NOTHING: DrivenWords = DrivenWords {
    zero: 0,
    one: 0,
    weak: 0,
};

/// What the first of two nets makes in each of the 64 pairs of the eight: in the k-th the one at place k / 8.
pub(crate) const FIRST_OF_PAIRS: DrivenWords = DrivenWords {
    zero: 0xff00_ff00_ff00_ff00,
    one: 0xffff_0000_ffff_0000,
    weak: 0xffff_ffff_0000_0000,
};

/// What the second makes there: the one at place k % 8.
pub(crate) const SECOND_OF_PAIRS: DrivenWords = DrivenWords {
    zero: 0xaaaa_aaaa_aaaa_aaaa,
    one: 0xcccc_cccc_cccc_cccc,
    weak: 0xf0f0_f0f0_f0f0_f0f0,
};

impl DrivenWords {
    /// What both make together.
    fn together(self, other: DrivenWords) -> DrivenWords
        ensures { (k : ℕ) → driven_at result k ≡ together.together (driven_at self k) (driven_at other k) }
    {
        DrivenWords {
            zero: self.zero | other.zero,
            one: self.one | other.one,
            weak: self.weak | other.weak,
        }
    }

    /// What ports see.
    fn sees(self) -> u64
        ensures { (k : ℕ) → k < 64 → has_bit result k ≡ together.sees (driven_at self k) }
    {
        invert(self.zero) & (self.one | invert(self.weak))
    }
}

/// The word with every bit turned.
fn invert(word: u64) -> u64
    ensures { (k : ℕ) → k < 64 → has_bit result k ≡ not (has_bit word k) }
{
    !word
}

/// What a pull drives at every capture.
fn pulled(pull: Pull) -> DrivenWords
    ensures { (k : ℕ) → k < 64 → driven_at result k ≡ together.pulled pull }
{
    match pull {
        Pull::Down => DrivenWords {
            weak: u64::MAX,
            ..NOTHING
        },
        Pull::Up | Pull::Free => NOTHING,
    }
}

/// What ports see of a bridge with this pull whose nets' pins drive these.
pub fn bridge_words(winner: Winner, pull: Pull, f: DrivenWords, g: DrivenWords) -> u64
    ensures { (k : ℕ) → k < 64 → has_bit result k ≡ together.bridge_sees winner pull (driven_at f k) (driven_at g k) }
{
    let all = pulled(pull).together(f.together(g));
    chosen(all.zero & all.one, led(winner, f, g), all.sees())
}

/// The bits of one word where they are chosen, else those of another.
fn chosen(where_set: u64, word: u64, other: u64) -> u64
    ensures { (k : ℕ) → k < 64
        → has_bit result k ≡ (if has_bit where_set k then has_bit word k else has_bit other k) }
{
    (where_set & word) | (invert(where_set) & other)
}

/// A word of which every bit is this one.
pub(crate) fn same_bits(bit: bool) -> u64
    ensures { (k : ℕ) → k < 64 → has_bit result k ≡ bit }
{
    if bit { u64::MAX } else { 0 }
}

/// What ports see of it where its strong drivers are opposed.
fn led(winner: Winner, f: DrivenWords, g: DrivenWords) -> u64
    ensures { (k : ℕ) → k < 64 → has_bit result k ≡ led winner (driven_at f k) (driven_at g k) }
{
    match winner {
        Winner::Zeros => 0,
        Winner::Ones => u64::MAX,
        Winner::First => f.one & invert(f.zero),
        Winner::Second => g.one & invert(g.zero),
    }
}

/// At which captures a net with this pull shows another bit than a word says.
pub fn differing(pull: Pull, made: DrivenWords, after: u64) -> u64
    ensures { (k : ℕ) → k < 64 → has_bit result k
        ≡ together.unlike (together.sees (together.together (together.pulled pull) (driven_at made k)))
        (has_bit after k) }
{
    pulled(pull).together(made).sees() ^ after
}

/// At which captures pins can make what a word says that is driven, by the table of what they can.
pub(crate) fn can_make(table: Table, made: DrivenWords) -> u64
    ensures { (k : ℕ) → k < 64 → has_bit result k ≡ together.at_driven table (driven_at made k) }
{
    chosen(
        made.weak,
        by_strong(made, table.weak, table.weak_zero, table.weak_one, table.all),
        by_strong(made, table.nothing, table.zero, table.one, table.both),
    )
}

/// One of four at each capture: by whether a strong 0 and a strong 1 are driven.
fn by_strong(made: DrivenWords, neither: bool, zero: bool, one: bool, both: bool) -> u64
    ensures { (k : ℕ) → k < 64 → has_bit result k
        ≡ (if has_bit made.one k then (if has_bit made.zero k then both else one)
        else (if has_bit made.zero k then zero else neither)) }
{
    chosen(
        made.one,
        chosen(made.zero, same_bits(both), same_bits(one)),
        chosen(made.zero, same_bits(zero), same_bits(neither)),
    )
}

/// Whether a bit of a word is set.
pub(crate) fn is_any_set(word: u64) -> bool
    ensures none { result ≡ false → (k : ℕ) → k < 64 → has_bit word k ≡ false }
    ensures some { result ≡ true → (k : ℕ) × (k < 64) × (has_bit word k ≡ true) }
{
    word != 0
}
