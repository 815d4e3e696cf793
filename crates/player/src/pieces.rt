//! Giving out the bytes of a play.

ghost use Rattle.std.specs.Prelude.{◌≡◌, ◌<◌, ◌+◌, ◌++◌, None, IfSome, drop, length, min, take};
ghost use Rattle.svf_programs.specs.Sizes.{program_of};
ghost use Rattle.player.specs.Progress.{Gives, HasWorkLeft, IsProgressOf, state_of};
ghost use Rattle.player.specs.Window.{window};
ghost use Rattle.play_model.specs.Streams.{bytes_to_send};

use crate::giving::{give, is_full};
use crate::progress::{OPENING, Phase, Progress, turn_at_work};
use bitbang::{Spot, StepBytes};
use svf_programs::Program;

/// Fills the buffer from its front with bytes that wait. Answers where the player stands then, and how many they are:
/// none only where none waits or there is no room.
///
/// Within a step its bytes are tried first, so that a small buffer does not look twice at what is left of it. While
/// answers are owed no other turn is at work.
pub(crate) fn piece(program: &Program, p: Progress, buffer: &mut [u8]) -> (Progress, usize)
    requires stands { IsProgressOf program.now.steps p }
    requires good { p.bad ≡ None }
    ensures { Gives (program_of program.now) p buffer.old buffer.new result.0 result.1 }
{
    if let Phase::Within(spot) = p.phase {
        if let Some(given) = begun_piece(program, p, spot, buffer) {
            return given;
        }
        let (next, count) = step_piece(program, p, spot, buffer);
        if count > 0 || p.owed > 0 {
            return (next, count);
        }
    }
    piece_at_work(program, p, buffer)
}

/// The same, of the turn that is next at work.
fn piece_at_work(program: &Program, p: Progress, buffer: &mut [u8]) -> (Progress, usize)
    requires stands { IsProgressOf program.now.steps p }
    requires good { p.bad ≡ None }
    ensures { Gives (program_of program.now) p buffer.old buffer.new result.0 result.1 }
{
    let p = turn_at_work(program, p);
    match p.phase {
        Phase::Opening(n) => opening_piece(program, p, n, buffer),
        Phase::Within(spot) => step_piece(program, p, spot, buffer),
        Phase::Over(out) => quit_piece(program, p, out, buffer),
    }
}

/// Fills the buffer with the bytes that wait, as many as fit. Answers where the player stands then, and how many they
/// are.
pub(crate) fn fill(program: &Program, p: Progress, buffer: &mut [u8]) -> (Progress, usize)
    requires stands { IsProgressOf program.now.steps p }
    requires good { p.bad ≡ None }
    ensures stands { IsProgressOf program.now.steps result.0 }
    ensures state { state_of (program_of program.now) result.0
        ≡ record (state_of (program_of program.now) p) {
          given = (state_of (program_of program.now) p).given + result.1;
        } }
    ensures count { result.1
        ≡ min (length buffer.old) (length (bytes_to_send window (state_of (program_of program.now) p))) }
    ensures bytes { buffer.new
        ≡ take result.1 (bytes_to_send window (state_of (program_of program.now) p)) ++ drop result.1 buffer.old }
{
    let mut p = p;
    let mut count = 0;
    while count < buffer.len() {
        let (next, more) = piece(program, p, &mut buffer[count..]);
        p = next;
        count += more;
        // While it is owed answers, a piece that leaves room is all that waits.
        if more == 0 || p.owed > 0 {
            return (p, count);
        }
    }
    (p, count)
}

/// The next byte of the opening.
fn opening_piece(program: &Program, p: Progress, n: usize, buffer: &mut [u8]) -> (Progress, usize)
    requires stands { IsProgressOf program.now.steps p }
    requires is { p.phase ≡ Phase.Opening n }
    requires left { n < 12 }
    ensures { Gives (program_of program.now) p buffer.old buffer.new result.0 result.1 }
{
    let _ = program;
    if buffer.is_empty() {
        return (p, 0);
    }
    buffer[0] = OPENING[n];
    let phase = Phase::Opening(n + 1);
    (Progress { phase, ..p }, 1)
}

/// The next byte of a step, alone, where it is one of a cycle that is begun and is not held back: a buffer of one byte
/// does not make a step's paths anew for each.
fn begun_piece(
    program: &Program,
    p: Progress,
    spot: Spot,
    buffer: &mut [u8],
) -> Option<(Progress, usize)>
    requires stands { IsProgressOf program.now.steps p }
    requires is { p.phase ≡ Phase.Within spot }
    requires good { p.bad ≡ None }
    ensures gives { IfSome result (λ r. Gives (program_of program.now) p buffer.old buffer.new r.0 r.1) }
    ensures none { result ≡ None → buffer.new ≡ buffer.old }
{
    let _ = program;
    if buffer.len() != 1 {
        return None;
    }
    let (byte, next) = spot.begun_byte()?;
    let asks = byte == b'R';
    if asks && is_full(p.owed) {
        return None;
    }
    buffer[0] = byte;
    let phase = Phase::Within(next);
    let owed = p.owed + usize::from(asks);
    Some((Progress { phase, owed, ..p }, 1))
}

/// The next bytes of a step; none where none is left, as many answers are owed as may be, or there is no room.
fn step_piece(program: &Program, p: Progress, spot: Spot, buffer: &mut [u8]) -> (Progress, usize)
    requires stands { IsProgressOf program.now.steps p }
    requires is { p.phase ≡ Phase.Within spot }
    requires good { p.bad ≡ None }
    ensures gives { (result.1 ≡ 0 → HasWorkLeft (drop p.at program.now.steps) p (Phase.Within spot))
        → Gives (program_of program.now) p buffer.old buffer.new result.0 result.1 }
    ensures none { result.1 ≡ 0 → buffer.new ≡ buffer.old }
{
    let step = program.step(p.at);
    let mut bytes = StepBytes::resume(p.place, &step, spot);
    let (count, owed) = give(&mut bytes, p.owed, buffer);
    let phase = Phase::Within(bytes.spot());
    (Progress { phase, owed, ..p }, count)
}

/// `Q`, unless it is out.
fn quit_piece(program: &Program, p: Progress, out: bool, buffer: &mut [u8]) -> (Progress, usize)
    requires stands { IsProgressOf program.now.steps p }
    requires is { p.phase ≡ Phase.Over out }
    ensures { Gives (program_of program.now) p buffer.old buffer.new result.0 result.1 }
{
    let _ = program;
    if out {
        return (p, 0);
    }
    if buffer.is_empty() {
        return (p, 0);
    }
    buffer[0] = b'Q';
    let phase = Phase::Over(true);
    (Progress { phase, ..p }, 1)
}
