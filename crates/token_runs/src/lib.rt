//! Runs of bytes at the front of a text, as tokens and the gaps between them are made of, sixteen bytes at once.
#![tactic(auto)]

ghost use Rattle.std.specs.Prelude.{◌≡◌, ◌==◌, ◌+◌, ◌≤◌, ℕ, Bool, length, take, drop, if◌then◌else◌};
ghost use Rattle.std.specs.Int.{trailing_zeros, w64};
ghost use Rattle.std.specs.List.{prefix_len, position_or_len};
ghost use Rattle.token_runs.specs.Bytes.{is_line_end};

use memchr::memchr2;

/// So many bytes are looked at at once.
pub const LANES: usize = 16;

/// How many letters there are in one case.
pub const LETTERS: u8 = 26;

/// The bytes that runs of one kind are made of.
pub trait RunOf {
    /// Which bytes belong to such a run.
    ghost belongs: { ℕ → Bool };

    /// Whether a byte belongs to such a run.
    fn has(byte: u8) -> bool
        ensures { result ≡ belongs byte };

    /// How many of the sixteen bytes from a place on belong to such a run, before the first that does not.
    fn run_in(text: &[u8], at: usize) -> usize
        requires { at + LANES ≤ length text.now }
        ensures { result ≡ prefix_len belongs (take LANES (drop at text.now)) };
}

/// How many bytes of a run stand at the front: sixteen bytes at once, and the last of the text one by one.
pub fn run_len<R: RunOf>(text: &[u8]) -> usize
    ensures value { result ≡ prefix_len R.belongs text.now }
    ensures within { result ≤ length text.now }
{
    let mut at = 0;
    while text.len() - at >= LANES {
        let run = R::run_in(text, at);
        if run < LANES {
            return at + run;
        }
        at += LANES;
    }
    at + run_by_bytes::<R>(&text[at..])
}

/// The same, byte by byte.
pub fn run_by_bytes<R: RunOf>(text: &[u8]) -> usize
    ensures value { result ≡ prefix_len R.belongs text.now }
    ensures within { result ≤ length text.now }
{
    text.iter().take_while(|byte| R::has(**byte)).count()
}

/// How many bytes stand before the next line feed or carriage return, or before the end.
pub fn line_len(text: &[u8]) -> usize
    ensures value { result ≡ position_or_len is_line_end text.now }
    ensures within { result ≤ length text.now }
{
    memchr2(b'\n', b'\r', text).unwrap_or(text.len())
}

/// The place of the lowest bit that is set, or so many lanes as there are.
#[inline(always)]
pub fn first_set(mask: u64) -> usize
    ensures { result ≡ (if mask == 0 then LANES else trailing_zeros w64 mask) }
{
    if mask == 0 {
        LANES
    } else {
        mask.trailing_zeros() as usize
    }
}
