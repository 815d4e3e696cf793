//! Taking the answers.

ghost use Rattle.std.specs.Prelude.{◌≡◌, ◌<◌, ◌≤◌, ◌+◌, ◌^◌, ◌∷◌, false, true, List, [], MatchOption, None, Some, drop};
ghost use Rattle.std.specs.Prelude.{IfSome, length, slice_get};
ghost use Rattle.std.specs.Option.{option_to_list};
ghost use Rattle.scan_vectors.specs.Held.{bits};
ghost use Rattle.scan_vectors.specs.Vector.{VectorBit, wanted_bits};
ghost use Rattle.player.specs.WordAhead.{IsAhead, IsExpectedBy};
ghost use Rattle.svf_programs.specs.Sizes.{program_of};
ghost use Rattle.svf_programs.specs.Seen as seen;
ghost use Rattle.svf_programs.specs.Seen.{numbered};
ghost use Rattle.play_model.specs.Play.{is_bad};
ghost use Rattle.play_model.specs.PlayingOn as playing_on;
ghost use Rattle.play_model.specs.Streams.{hear_bytes, answers_taken, stops_for, with_more};
ghost use Rattle.play_model.specs.Streams as stream;
ghost use Rattle.player.specs.Each.{hear_each};
ghost use Rattle.player.specs.Findings.{IsKeptOf, keeping};
ghost use Rattle.player.specs.Progress.{IsProgressOf, state_of, vector_bits};
ghost use Rattle.player.specs.PlaceInPlay.{differing_bit};
ghost use Rattle.player.specs.Taking as taking;
ghost use Rattle.player.specs.Taking.{TakesFirst};
ghost use Rattle.player.specs.Window.{window};

use crate::findings::Findings;
use crate::progress::Progress;
use crate::word_ahead::WordAhead;
use bitbang::read_answer;
use scan_vectors::{Mismatch, Vector, difference, next_wanted};
use svf_programs::{Action, Program, Step};

/// Takes as many answers as are owed, up to and with the first that is none. Answers where the player stands then, and
/// how many were taken.
pub(crate) fn hear(
    program: &Program,
    p: Progress,
    kept: &mut Findings,
    bytes: &[u8],
) -> (Progress, usize)
    requires stands { IsProgressOf program.now.steps p }
    requires keeps { IsKeptOf (state_of (program_of program.now) p) kept.old }
    ensures stands { IsProgressOf program.now.steps result.0 }
    ensures keeps { IsKeptOf (state_of (program_of program.now) result.0) kept.new }
    ensures count { result.1 ≡ length (answers_taken window (state_of (program_of program.now) p) bytes.now) }
    ensures state { keeping kept.new (state_of (program_of program.now) result.0)
        ≡ hear_bytes (answers_taken window (state_of (program_of program.now) p) bytes.now)
        (keeping kept.old (state_of (program_of program.now) p)) }
    ensures each { keeping kept.new (state_of (program_of program.now) result.0)
        ≡ hear_each bytes.now (keeping kept.old (state_of (program_of program.now) p)) }
{
    if p.bad.is_some() {
        return (p, 0);
    }
    if p.owed == 0 {
        return (p, 0);
    }
    let step = program.step(p.at);
    let Some(vector) = vector_of(&step.what) else {
        return (p, 0);
    };
    let mut p = p;
    let mut ahead = WordAhead::nothing();
    let mut count = 0;
    while count < bytes.len() {
        if p.bad.is_some() {
            return (p, count);
        }
        if p.owed == 0 {
            return (p, count);
        }
        let rest = &bytes[count..];
        let (next, more) = hear_some(program, &step, &vector, &mut ahead, p, kept, rest);
        p = next;
        count += more;
    }
    (p, count)
}

/// The vector that a step scans, if it does.
fn vector_of<'a>(what: &Action<'a>) -> Option<Vector<'a>>
    ensures { MatchOption result (vector_bits (seen.step what.now) ≡ [])
        (λ v. vector_bits (seen.step what.now) ≡ bits v) }
{
    match what {
        Action::Scan { vector, .. } => Some(*vector),
        _ => None,
    }
}

/// Takes some of the answers that are left, one at least, of a step that scans this vector.
fn hear_some(
    program: &Program,
    step: &Step<'_>,
    vector: &Vector<'_>,
    ahead: &mut WordAhead,
    p: Progress,
    kept: &mut Findings,
    bytes: &[u8],
) -> (Progress, usize)
    requires ahead { IsAhead (bits vector.now) ahead.old }
    requires stands { IsProgressOf program.now.steps p }
    requires keeps { IsKeptOf (state_of (program_of program.now) p) kept.old }
    requires first { slice_get program.now.steps p.at ≡ Some (numbered step.now) }
    requires scans { vector_bits (seen.step step.now.what) ≡ bits vector.now }
    requires good { p.bad ≡ None }
    requires owed { 0 < p.owed }
    requires some { 0 < length bytes.now }
    ensures ahead { IsAhead (bits vector.now) ahead.new }
    ensures some { 0 < result.1 }
    ensures takes { TakesFirst (program_of program.now) p kept.old bytes.now result.0 kept.new result.1 }
{
    let (next, count) = hear_expected(program, step, vector, ahead, p, kept, bytes);
    if count > 0 {
        return (next, count);
    }
    (hear_one(program, step, vector, p, kept, bytes[0]), 1)
}

/// Takes answers as long as each is as the next wanted bit is to be, as words tell. A player that stops, since a bit
/// differed, takes none so.
///
/// Of these nothing but their number changes, so where the player stands is made once, behind them.
fn hear_expected(
    program: &Program,
    step: &Step<'_>,
    vector: &Vector<'_>,
    ahead: &mut WordAhead,
    p: Progress,
    kept: &Findings,
    bytes: &[u8],
) -> (Progress, usize)
    requires ahead { IsAhead (bits vector.now) ahead.old }
    requires stands { IsProgressOf program.now.steps p }
    requires keeps { IsKeptOf (state_of (program_of program.now) p) kept.now }
    requires first { slice_get program.now.steps p.at ≡ Some (numbered step.now) }
    requires scans { vector_bits (seen.step step.now.what) ≡ bits vector.now }
    requires good { p.bad ≡ None }
    requires owed { 0 < p.owed }
    ensures ahead { IsAhead (bits vector.now) ahead.new }
    ensures takes { TakesFirst (program_of program.now) p kept.now bytes.now result.0 kept.now result.1 }
{
    // For the proof alone: what is kept of the program, the step, and how long the vector is.
    let _ = (program.len(), step.number, vector.len());
    let is_over = kept.stops();
    if is_over {
        return (p, 0);
    }
    let most = bytes.len().min(p.owed);
    let mut judged = p.judged;
    let mut count = 0;
    while count < most {
        let Some(i) = expected_by(vector, ahead, judged, bytes[count]) else {
            return (behind_answers(p, judged, count), count);
        };
        judged = i + 1;
        count += 1;
    }
    (behind_answers(p, judged, count), count)
}

/// The next wanted bit from this place on, where this answer is as it is to be.
fn expected_by(vector: &Vector<'_>, ahead: &mut WordAhead, from: usize, byte: u8) -> Option<usize>
    requires { IsAhead (bits vector.now) ahead.old }
    ensures known { IsAhead (bits vector.now) ahead.new }
    ensures inside { IfSome result (λ i. i < length (bits vector.now)) }
    ensures expected { IfSome result (λ i. IsExpectedBy (bits vector.now) from byte i) }
{
    match read_answer(byte) {
        Some(bit) => ahead.expected(vector, from, bit),
        None => None,
    }
}

/// Where a player stands behind so many more answers, the last of them to a wanted bit before this one.
fn behind_answers(p: Progress, judged: usize, count: usize) -> Progress
    requires owed { count ≤ p.owed }
    requires fits { p.heard + count < 2 ^ 64 }
    ensures { result ≡ taking.behind_answers p judged count }
{
    Progress {
        heard: p.heard + count,
        owed: p.owed - count,
        judged,
        ..p
    }
}

/// Takes one answer, of a step that scans this vector.
fn hear_one(
    program: &Program,
    step: &Step<'_>,
    vector: &Vector<'_>,
    p: Progress,
    kept: &mut Findings,
    byte: u8,
) -> Progress
    requires stands { IsProgressOf program.now.steps p }
    requires keeps { IsKeptOf (state_of (program_of program.now) p) kept.old }
    requires first { slice_get program.now.steps p.at ≡ Some (numbered step.now) }
    requires scans { vector_bits (seen.step step.now.what) ≡ bits vector.now }
    requires good { p.bad ≡ None }
    requires owed { 0 < p.owed }
    ensures stands { IsProgressOf program.now.steps result }
    ensures keeps { IsKeptOf (state_of (program_of program.now) result) kept.new }
    ensures state { keeping kept.new (state_of (program_of program.now) result)
        ≡ stream.hear byte (keeping kept.old (state_of (program_of program.now) p)) }
    ensures at { result.at ≡ p.at }
    ensures taken { is_bad byte ≡ false → (result.owed + 1 ≡ p.owed) × (result.bad ≡ None) }
    ensures bad { is_bad byte ≡ true → result.bad ≡ Some byte }
{
    // For the proof alone: what is kept of the program, and how long the vector is.
    let _ = (program.len(), vector.len());
    let Some(bit) = read_answer(byte) else {
        let bad = Some(byte);
        return Progress { bad, ..p };
    };
    let p = after_judging(step.number, vector, p, kept, bit);
    Progress {
        heard: p.heard + 1,
        owed: p.owed - 1,
        ..p
    }
}

/// Judges one bit by the next wanted one, unless the player stops for an earlier one.
fn after_judging(
    command: usize,
    vector: &Vector<'_>,
    p: Progress,
    kept: &mut Findings,
    bit: bool,
) -> Progress
    requires room { kept.old.found.total + 1 < 2 ^ 64 }
    requires stops { stops_for kept.old.kind kept.old.found.list ≡ p.stopped }
    ensures rest { result ≡ record p { judged = result.judged; stopped = result.stopped } }
    ensures stops { stops_for kept.new.kind kept.new.found.list ≡ result.stopped }
    ensures full { stops_for kept.old.kind kept.old.found.list ≡ true → (result ≡ p) × (kept.new ≡ kept.old)
        × ((more : List playing_on.Mismatch) → with_more kept.old.kind more kept.old.found ≡ kept.old.found) }
    ensures judged { stops_for kept.old.kind kept.old.found.list ≡ false → (w : VectorBit) (ws : List VectorBit)
        → wanted_bits (drop p.judged (bits vector.now)) ≡ w ∷ ws
        → (wanted_bits (drop result.judged (bits vector.now)) ≡ ws)
        × (kept.new ≡ record kept.old {
          found = with_more kept.old.kind (option_to_list (differing_bit command w bit)) kept.old.found;
        }) }
{
    if kept.stops() {
        return p;
    }
    after_next(command, vector, p, kept, bit)
}

/// Judges one bit by the next wanted one, wherever that is.
fn after_next(
    command: usize,
    vector: &Vector<'_>,
    p: Progress,
    kept: &mut Findings,
    bit: bool,
) -> Progress
    requires goes_on { stops_for kept.old.kind kept.old.found.list ≡ false }
    requires room { kept.old.found.total + 1 < 2 ^ 64 }
    requires stops { stops_for kept.old.kind kept.old.found.list ≡ p.stopped }
    ensures rest { result ≡ record p { judged = result.judged; stopped = result.stopped } }
    ensures stops { stops_for kept.new.kind kept.new.found.list ≡ result.stopped }
    ensures judged { stops_for kept.old.kind kept.old.found.list ≡ false → (w : VectorBit) (ws : List VectorBit)
        → wanted_bits (drop p.judged (bits vector.now)) ≡ w ∷ ws
        → (wanted_bits (drop result.judged (bits vector.now)) ≡ ws)
        × (kept.new ≡ record kept.old {
          found = with_more kept.old.kind (option_to_list (differing_bit command w bit)) kept.old.found;
        }) }
{
    // For the proof alone: how long the vector is.
    let _ = vector.len();
    let Some(i) = next_wanted(vector, p.judged) else {
        return p;
    };
    let stopped = kept.note(mismatch_at(command, vector, i, bit));
    Progress {
        judged: i + 1,
        stopped,
        ..p
    }
}

/// What differs, if this is what came out as bit `i`.
fn mismatch_at(command: usize, vector: &Vector<'_>, i: usize, bit: bool) -> Option<Mismatch>
    requires { i < length (bits vector.now) }
    ensures { (v : VectorBit) → slice_get (bits vector.now) i ≡ Some v
        → result ≡ differing_bit command v bit }
{
    match difference(vector, i, bit) {
        Some((part, bit)) => Some(Mismatch { command, part, bit }),
        None => None,
    }
}
