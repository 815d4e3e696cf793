//! Cycles that shift, among the bytes that a board is served.

ghost use Rattle.std.specs.Prelude.{◌≡◌, ◌+◌, ◌<◌, ◌≤◌, ◌++◌, true, false, length, map, take};
ghost use Rattle.std.specs.Prelude.{MatchOption, Some, ⊤};
ghost use Rattle.bitbang_protocol.specs.Protocol.{answer, decode};
ghost use Rattle.bitbang_protocol.specs.declared.Message.TheVariants.{Write};
ghost use Rattle.play_links.specs.Leaving.{left_behind};
ghost use Rattle.play_links.specs.Serves.{serve_bytes};
ghost use Rattle.play_links.specs.Shifts.{IsCycle, IsRun, picked, writes_low};
ghost use Rattle.jt_board.specs.Words.{word_bits};

use bitbang_protocol::Cycle;
use jt_board::Board;

/// The fewest cycles that the board takes at once: edge by edge each asks every device, a word asks each once.
const FEWEST: usize = 4;

/// The most: as many as a word has bits.
const MOST: usize = 64;

/// `count` cycles with TMS low that follow one another: their TDI, and whether TDO is asked for before the rising edge.
/// The lowest bits are those of the first.
#[derive(Debug, Clone, Copy)]
struct Run {
    tdi: u64,
    reads: u64,
    count: usize,
}

/// Lets a board that shifts take the cycles with TMS low at the front of the bytes at once, and puts their answers
/// behind the `count` first. Answers the bytes behind them.
///
/// Of a run of bytes with TMS low that is not taken at once the board is not asked again: `asks` is false until a byte
/// of another kind comes.
pub(crate) fn behind_shifts<'a>(
    board: &mut Board,
    bytes: &'a [u8],
    answers: &mut [u8],
    count: &mut usize,
    asks: &mut bool,
) -> &'a [u8]
    requires { count.old + length bytes.now ≤ length answers.old }
    ensures room { count.new + length result.now ≤ length answers.new }
    ensures few { length result.now ≤ length bytes.now }
    ensures answers { take count.new answers.new ++ (serve_bytes result.now board.new).answers
        ≡ take count.old answers.old ++ (serve_bytes bytes.now board.old).answers }
    ensures board { (serve_bytes result.now board.new).board ≡ (serve_bytes bytes.now board.old).board }
    ensures stop { (serve_bytes result.now board.new).stop ≡ (serve_bytes bytes.now board.old).stop }
    ensures left { left_behind result.now board.new ≡ left_behind bytes.now board.old }
{
    if !begins_with_a_rise(bytes, asks) || !board.shifts() {
        return bytes;
    }
    let (run, behind) = run_at(bytes);
    *asks = run.count >= FEWEST;
    if !*asks {
        return bytes;
    }
    let out = board.shift_word(run.tdi, run.count);
    *count = put_answers(answers, *count, run, out);
    behind
}

/// Whether the first byte writes TMS low and TCK high and the board is to be asked there. On a board that shifts TCK is
/// low before it, so it is an edge, which asks every device as a look at all of them does. A byte that no run has in it
/// makes that the board is asked again.
fn begins_with_a_rise(bytes: &[u8], asks: &mut bool) -> bool {
    match bytes.first() {
        Some(b'4' | b'5') => *asks,
        Some(b'0'..=b'3' | b'R') | None => false,
        Some(_) => {
            *asks = true;
            false
        }
    }
}

/// Puts the bits of `out` that the run asks for behind the `count` first answers. Answers how many they are then.
fn put_answers(answers: &mut [u8], count: usize, run: Run, out: u64) -> usize
    requires few { run.count ≤ 64 }
    requires room { count + run.count ≤ length answers.old }
    ensures few { result ≤ count + run.count }
    ensures answers { take result answers.new ≡ take count answers.old
        ++ map answer (picked (word_bits run.reads run.count) (word_bits out run.count)) }
{
    let mut at = count;
    for k in 0..run.count {
        if run.reads >> k & 1 == 1 {
            answers[at] = bitbang_protocol::answer(out >> k & 1 == 1);
            at += 1;
        }
    }
    at
}

/// The cycles with TMS low at the front of the bytes, up to 64, and the bytes behind them.
fn run_at(bytes: &[u8]) -> (Run, &[u8])
    ensures { IsRun result.0.tdi result.0.reads result.0.count bytes.now result.1.now }
{
    let mut run = Run {
        tdi: 0,
        reads: 0,
        count: 0,
    };
    let mut rest = bytes;
    while run.count < MOST {
        match cycle_at(rest) {
            None => return (run, rest),
            Some((cycle, behind)) => {
                run.tdi |= u64::from(cycle.tdi) << run.count;
                run.reads |= u64::from(cycle.read) << run.count;
                run.count += 1;
                rest = behind;
            }
        }
    }
    (run, rest)
}

/// The cycle with TMS low at the front of the bytes, if there is one, and the bytes behind it: `R` where it reads, TCK
/// high, TCK low.
fn cycle_at(bytes: &[u8]) -> Option<(Cycle, &[u8])>
    ensures { MatchOption result ⊤
        (λ p. IsCycle p.0 bytes.now p.1.now × (1 + length p.1.now ≤ length bytes.now)) }
{
    match bytes {
        [b'R', high, low, behind @ ..] => Some((cycle_of(true, *high, *low)?, behind)),
        [high, low, behind @ ..] => Some((cycle_of(false, *high, *low)?, behind)),
        _ => None,
    }
}

/// The cycle whose two edges these bytes are, if they are the edges of one with TMS low.
fn cycle_of(read: bool, high: u8, low: u8) -> Option<Cycle>
    ensures { MatchOption result ⊤ (λ c. (c.read ≡ read) × (decode high ≡ Some (Write true false c.tdi))
        × (writes_low (decode low) ≡ true)) }
{
    if !is_low(low) {
        return None;
    }
    let tdi = rise_of(high)?;
    Some(Cycle {
        tms: false,
        tdi,
        read,
    })
}

/// The TDI that a byte writes that writes TCK high and TMS low.
fn rise_of(byte: u8) -> Option<bool>
    ensures { MatchOption result ⊤ (λ tdi. decode byte ≡ Some (Write true false tdi)) }
{
    match byte {
        b'4' => Some(false),
        b'5' => Some(true),
        _ => None,
    }
}

/// Whether a byte writes TCK low.
fn is_low(byte: u8) -> bool
    ensures { result ≡ writes_low (decode byte) }
{
    byte & 0xFC == b'0'
}
