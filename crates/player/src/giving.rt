//! Giving out the bytes of a step.

ghost use Rattle.std.specs.Prelude.{◌≡◌, [], false, IsTrue, ◌≤◌, ◌<◌, ◌==◌, ◌+◌, ◌-◌, ◌++◌, ◌∷◌, ℕ, List, Some, drop};
ghost use Rattle.std.specs.Prelude.{◌*◌, length, min, slice_get, take, if◌then◌else◌};
ghost use Rattle.bitbang_protocol.specs.Protocol.{ask_byte};
ghost use Rattle.bitbang.specs.Left.{left, whole};
ghost use Rattle.player.specs.PlaceInPlay.{IsSpaced, reads, up_to_reads};
ghost use Rattle.player.specs.Window.{window};

use bitbang::StepBytes;

/// How many answers may be owed.
pub(crate) const WINDOW: usize = 256;

/// Fills the buffer from its front with the next bytes of a step, as many as fit and as the window of owed answers
/// lets through. Answers how many they are, and how many answers are owed then.
pub(crate) fn give(bytes: &mut StepBytes<'_>, owed: usize, buffer: &mut [u8]) -> (usize, usize)
    requires allowed { owed ≤ window }
    requires spaced { IsSpaced (left bytes.old) }
    ensures count { result.0 ≡ min (length buffer.old) (length (up_to_reads (left bytes.old) (window - owed))) }
    ensures filled { buffer.new ≡ take result.0 (left bytes.old) ++ drop result.0 buffer.old }
    ensures left { left bytes.new ≡ drop result.0 (left bytes.old) }
    ensures whole { whole bytes.new ≡ whole bytes.old }
    ensures owed { result.1 ≡ owed + reads (take result.0 (left bytes.old)) }
    ensures allowed { result.1 ≤ window }
{
    let mut count = 0;
    let mut owed = owed;
    while count < buffer.len() {
        if is_held(bytes, owed) {
            return (count, owed);
        }
        let most = most_at_once(owed).min(buffer.len() - count);
        let (more, after) = give_some(bytes, owed, &mut buffer[count..count + most]);
        if more == 0 {
            return (count, owed);
        }
        owed = after;
        count += more;
    }
    (count, owed)
}

/// How many bytes of a step the window lets through, whatever they are, where it lets the next one through: of three in
/// a row one at most asks for TDO.
fn most_at_once(owed: usize) -> usize
    requires { owed ≤ window }
    ensures some { 0 < result }
    ensures most { result ≤ 3 * (window - owed) - 2 + (if owed == window then 1 else 0) }
{
    let free = WINDOW - owed;
    if free == 0 { 1 } else { 3 * free - 2 }
}

/// Fills the buffer from its front with the next bytes of a step, as many as fit, which the window lets through.
/// Answers how many they are, and how many answers are owed then.
fn give_some(bytes: &mut StepBytes<'_>, owed: usize, buffer: &mut [u8]) -> (usize, usize)
    requires { owed ≤ window }
    ensures count { result.0 ≡ min (length buffer.old) (length (left bytes.old)) }
    ensures filled { buffer.new ≡ take result.0 (left bytes.old) ++ drop result.0 buffer.old }
    ensures left { left bytes.new ≡ drop result.0 (left bytes.old) }
    ensures whole { whole bytes.new ≡ whole bytes.old }
    ensures owed { result.1 ≡ owed + reads (take result.0 (left bytes.old)) }
{
    let count = bytes.fill(buffer);
    (count, owed + reads_in(&buffer[..count]))
}

/// How many of these bytes ask for TDO.
fn reads_in(bytes: &[u8]) -> usize
    ensures value { result ≡ reads bytes.now }
    ensures most { result ≤ length bytes.now }
{
    let mut asked = 0;
    for byte in bytes {
        if *byte == b'R' {
            asked += 1;
        }
    }
    asked
}

/// Whether the next byte is held back: it asks for TDO, and as many answers are owed as may be.
fn is_held(bytes: &StepBytes<'_>, owed: usize) -> bool
    requires { owed ≤ window }
    ensures held { IsTrue result → up_to_reads (left bytes.now) (window - owed) ≡ [] }
    ensures free { result ≡ false → owed ≡ window → (b : ℕ) (rest : List ℕ) → left bytes.now ≡ b ∷ rest
        → (b == ask_byte) ≡ false }
{
    is_full(owed) && asks_next(bytes)
}

/// Whether as many answers are owed as may be.
pub(crate) fn is_full(owed: usize) -> bool
    ensures { result ≡ (owed == window) }
{
    owed == WINDOW
}

/// Whether the next byte asks for TDO.
fn asks_next(bytes: &StepBytes<'_>) -> bool
    ensures first { (b : ℕ) (rest : List ℕ) → left bytes.now ≡ b ∷ rest → result ≡ (b == ask_byte) }
    ensures some { IsTrue result → slice_get (left bytes.now) 0 ≡ Some ask_byte }
{
    match bytes.peek() {
        Some(byte) => byte == b'R',
        None => false,
    }
}
