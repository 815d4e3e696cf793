//! Words of 64 bits as a ring of bits, the lowest bit of the first word first.

ghost use Rattle.std.specs.Prelude.{◌≡◌, ◌+◌, ◌*◌, ◌/◌, ◌%◌, ◌^◌, ◌<◌, ◌≤◌, ◌-◌, ◌==◌, ◌&&◌, nat_lt, ℕ, false, length};
ghost use Rattle.std.specs.Prelude.{if◌then◌else◌};
ghost use Rattle.jt_bits.specs.Packed.{has_bit, packed_bit, RunPut};

/// How many words have room for `len` bits.
pub(crate) fn words_for(len: usize) -> usize
    ensures enough { len ≤ 64 * result }
    ensures no_more { 64 * result < len + 64 }
{
    len / 64 + (if len % 64 == 0 { 0 } else { 1 })
}

/// The place `i` places after `from` in a ring of so many words.
pub(crate) fn place(words: usize, from: usize, i: usize) -> usize
    requires room { 64 * words ≤ 2 ^ 64 }
    requires from_in { from < 64 * words }
    requires i_in { i ≤ 64 * words }
    ensures { result ≡ (from + i) % (64 * words) }
{
    let to_last = (words - 1) * 64 + 63 - from;
    if i <= to_last {
        from + i
    } else {
        i - to_last - 1
    }
}

/// The bit at a place.
pub(crate) fn read(words: &[u64], place: usize) -> bool
    requires { place < 64 * length words.now }
    ensures { result ≡ packed_bit words.now place }
{
    words[place / 64] >> (place % 64) & 1 == 1
}

/// Makes the bit at a place this bit.
pub(crate) fn put(words: &mut [u64], place: usize, bit: bool)
    requires { place < 64 * length words.old }
    ensures { (q : ℕ) → packed_bit words.new q ≡ (if q == place then bit else packed_bit words.old q) }
{
    let word = words[place / 64];
    let one = 1 << (place % 64);
    words[place / 64] = if bit { word | one } else { word & !one };
}

/// Shifts the `len` bits from `start` on: puts `bit` behind them, moves the start on by one, and answers the bit that
/// left.
pub(crate) fn shift(words: &mut [u64], start: &mut usize, len: usize, bit: bool) -> bool
    requires room { 64 * length words.old ≤ 2 ^ 64 }
    requires start_in { start.old < 64 * length words.old }
    requires len_in { len ≤ 64 * length words.old }
    ensures out { result ≡ packed_bit words.old start.old }
    ensures start { start.new ≡ (start.old + 1) % (64 * length words.old) }
    ensures one_bit { (q : ℕ)
        → packed_bit words.new q
        ≡ (if q == (start.old + len) % (64 * length words.old) then bit else packed_bit words.old q) }
{
    let out = read(words, *start);
    let end = place(words.len(), *start, len);
    put(words, end, bit);
    *start = place(words.len(), *start, 1);
    out
}

/// Shifts the `len` bits from `start` on by `n` places, as so many calls of `shift` do with the lowest bits of `bits`,
/// its lowest first: puts these behind them, moves the start on by `n`, and answers the bits that left.
pub(crate) fn shift_word(
    words: &mut [u64],
    start: &mut usize,
    len: usize,
    bits: u64,
    n: usize,
) -> u64
    requires room { 64 * length words.old ≤ 2 ^ 64 }
    requires start_in { start.old < 64 * length words.old }
    requires len_in { len ≤ 64 * length words.old }
    requires few { n ≤ 64 }
    ensures out { (j : ℕ) → j < n → has_bit result j ≡ (if nat_lt j len
        then packed_bit words.old ((start.old + j) % (64 * length words.old)) else has_bit bits (j - len)) }
    ensures start { start.new ≡ (start.old + n) % (64 * length words.old) }
    ensures run { RunPut words.old words.new ((start.old + len) % (64 * length words.old)) bits n }
{
    let held = lowest_bits(window(words, *start), len);
    let behind = place(words.len(), *start, len);
    put_run(words, behind, bits, n);
    *start = place(words.len(), *start, n);
    if len < 64 { held | bits << len } else { held }
}

/// Makes the bits of word `k` that the mask has those of `bits`.
fn put_masked(words: &mut [u64], k: usize, bits: u64, mask: u64)
    requires { k < length words.old }
    ensures { (q : ℕ) → packed_bit words.new q
        ≡ (if q / 64 == k && has_bit mask (q % 64) then has_bit bits (q % 64) else packed_bit words.old q) }
{
    words[k] = words[k] & !mask | bits & mask;
}

/// Makes the `n` bits from a place on those of `bits`, its lowest first.
pub(crate) fn put_run(words: &mut [u64], place: usize, bits: u64, n: usize)
    requires inside { place < 64 * length words.old }
    requires few { n ≤ 64 }
    ensures { RunPut words.old words.new place bits n }
{
    let k = place / 64;
    let below = place % 64;
    let mask = lowest_bits(u64::MAX, n);
    put_masked(words, k, bits << below, mask << below);
    if below > 0 {
        let next = if k + 1 == words.len() { 0 } else { k + 1 };
        put_masked(words, next, bits >> (64 - below), mask >> (64 - below));
    }
}

/// The 64 bits from a place on.
pub(crate) fn window(words: &[u64], place: usize) -> u64
    requires { place < 64 * length words.now }
    ensures { (j : ℕ) → j < 64 → has_bit result j ≡ packed_bit words.now ((place + j) % (64 * length words.now)) }
{
    let k = place / 64;
    let below = place % 64;
    let low = words[k] >> below;
    if below == 0 {
        return low;
    }
    let next = if k + 1 == words.len() { 0 } else { k + 1 };
    low | words[next] << (64 - below)
}

/// The lowest `n` bits of a word.
pub(crate) fn lowest_bits(word: u64, n: usize) -> u64
    ensures { (j : ℕ) → j < 64 → has_bit result j ≡ (if nat_lt j n then has_bit word j else false) }
{
    if n < 64 { word & ((1 << n) - 1) } else { word }
}
