//! What is noted of nets, put into words: up to 64 captures at once.

ghost use Rattle.std.specs.Prelude.{◌≡◌, ◌≢◌, ◌<◌, ◌≤◌, ℕ, List, true, false, drop, map, IfOk, IfSome};
ghost use Rattle.std.specs.List.{list_all};
ghost use Rattle.jt_bits.specs.Packed.{has_bit};
ghost use Rattle.board_faults.specs.declared.kinds.Way.TheVariants as way;
ghost use Rattle.board_faults.specs.declared.kinds.Winner.{Winner as TheWinner};
ghost use Rattle.board_faults.specs.Faults.{winners};
ghost use Rattle.board_plan.specs.View.{net as planned_net};
ghost use Rattle.fault_events.specs.declared.notes.Note.{Note as TheNote};
ghost use Rattle.fault_events.specs.Captures.{Noted};
ghost use Rattle.fault_events.specs.Marks.{nothing_noted};
ghost use Rattle.fault_events.specs.Nets.{seen};
ghost use Rattle.fault_serving.specs.Planes.{AreBlocksOf, AreNetWords, AreQuiet, AreWordsOf, IsFirstWanted, IsNoteAt};
ghost use Rattle.fault_serving.specs.Planes.{IsToldAt, ChangesTell, IsToldIn, IsToldOn, IsUntold, failing_at, fails_at};
ghost use Rattle.fault_serving.specs.Planes.{stays_at, tells_at};

use board_faults::{DrivenWords, Winner, bridge_words, differing, joined};
use board_plan::PlannedNet;
use fault_events::{NetCapture, Note, Pulls, note_at, pulls_of};
use std::alloc::{AllocError, Global};

/// What is noted of a net at up to 64 captures, bit `k` of each word at the k-th: what its pins drive together, whether
/// a wanted bit is taken from one of them, and whether a bit that stays is.
#[derive(Drop, Clone, Copy)]
pub struct NoteWords {
    pub(crate) made: DrivenWords,
    pub(crate) wanted: u64,
    pub(crate) stays: u64,
}

/// Nothing is noted at any capture.
const NO_NOTES: NoteWords = NoteWords {
    made: DrivenWords {
        zero: 0,
        one: 0,
        weak: 0,
    },
    wanted: 0,
    stays: 0,
};

/// Of each of so many nets what is noted at the first 64 captures. Refused where memory runs out.
pub(crate) fn net_words(
    alloc: Global,
    captures: &[NetCapture],
    count: usize,
) -> Result<Vec<NoteWords>, AllocError>
    ensures { IfOk result (λ v. AreNetWords (map seen captures.now) v.items) }
{
    let mut all = Vec::with_capacity(alloc, count)?;
    for net in 0..count {
        all.push(words_of(captures, net))?;
    }
    Ok(all)
}

/// What is noted of a net at the first 64 captures.
fn words_of(captures: &[NetCapture], net: usize) -> NoteWords
    ensures { AreWordsOf net (map seen captures.now) result }
{
    let mut words = NO_NOTES;
    for k in 0..captures.len().min(64) {
        words = with_note(words, k, note_at(net, &captures[k].nets));
    }
    words
}

/// The words with a note at the k-th capture, at which nothing is noted.
fn with_note(words: NoteWords, k: usize, note: Note) -> NoteWords
    requires below { k < 64 }
    requires free { IsNoteAt k nothing_noted words }
    ensures here { IsNoteAt k note result }
    ensures others { (j : ℕ) (n : TheNote) → j < 64 → j ≢ k → IsNoteAt j n words → IsNoteAt j n result }
{
    NoteWords {
        made: DrivenWords {
            zero: with_bit(words.made.zero, k, note.made.zero),
            one: with_bit(words.made.one, k, note.made.one),
            weak: with_bit(words.made.weak, k, note.made.weak),
        },
        wanted: with_bit(words.wanted, k, note.first.is_some()),
        stays: with_bit(words.stays, k, note.stays),
    }
}

/// The word with this in the place of bit `k`, which is 0.
fn with_bit(word: u64, k: usize, bit: bool) -> u64
    requires below { k < 64 }
    requires free { has_bit word k ≡ false }
    ensures here { has_bit result k ≡ bit }
    ensures others { (j : ℕ) → j < 64 → j ≢ k → has_bit result j ≡ has_bit word j }
{
    if bit { word | 1 << k } else { word }
}

/// At so many of the first captures a bridge tells nothing, by the words of nets; at none where it is none of theirs.
pub(crate) fn quiet_captures(
    words: &[NoteWords],
    nets: &[PlannedNet],
    first: usize,
    second: usize,
    winner: Winner,
) -> usize
    ensures { (ns : List Noted) → AreNetWords ns words.now
        → AreQuiet (map planned_net nets.now) (way.Short first second winner) ns result }
{
    let pulls = pulls_of(nets, first, second);
    if first < words.len() && second < words.len() {
        return quiet_front(winner, pulls, words[first], words[second]);
    }
    0
}

/// At which captures a bridge tells something: that a wanted bit is another, or that one that stays is.
#[derive(Drop, Clone, Copy)]
struct Changes {
    wanted: u64,
    stays: u64,
}

impl Changes {
    ghost use Rattle.std.specs.Prelude.{◌≡◌, ◌||◌, ℕ};
    ghost use Rattle.jt_bits.specs.Packed.{has_bit};

    /// Those of both.
    #[inline(always)]
    fn or(self, other: Changes) -> Changes
        ensures wanted { (k : ℕ) → has_bit result.wanted k ≡ (has_bit self.wanted k || has_bit other.wanted k) }
        ensures stays { (k : ℕ) → has_bit result.stays k ≡ (has_bit self.stays k || has_bit other.stays k) }
    {
        Changes {
            wanted: self.wanted | other.wanted,
            stays: self.stays | other.stays,
        }
    }
}

fn changes_of(winner: Winner, pulls: Pulls, one: NoteWords, two: NoteWords) -> Changes
    ensures wanted { (k : ℕ) → k < 64 → has_bit result.wanted k ≡ fails_at winner pulls one two k }
    ensures stays { (k : ℕ) → k < 64 → has_bit result.stays k ≡ stays_at winner pulls one two k }
{
    let after = bridge_words(
        winner,
        joined(pulls.first, pulls.second),
        one.made,
        two.made,
    );
    let first = differing(pulls.first, one.made, after);
    let second = differing(pulls.second, two.made, after);
    Changes {
        wanted: (first & one.wanted) | (second & two.wanted),
        stays: (one.stays & first) | (two.stays & second),
    }
}

/// At so many of the first captures, up to 64, a bridge tells nothing.
fn quiet_front(winner: Winner, pulls: Pulls, one: NoteWords, two: NoteWords) -> usize
    ensures few { result ≤ 64 }
    ensures quiet { (k : ℕ) → k < result → tells_at winner pulls one two k ≡ false }
{
    let changes = changes_of(winner, pulls, one, two);
    lowest(changes.wanted | changes.stays)
}

/// Which bit of a word is the lowest that is set; 64 where none is.
fn lowest(word: u64) -> usize
    ensures few { result ≤ 64 }
    ensures none { (k : ℕ) → k < result → (k < 64) × (has_bit word k ≡ false) }
    ensures set { result < 64 → has_bit word result ≡ true }
{
    if word == 0 {
        return 64;
    }
    word.trailing_zeros() as usize
}

/// Of each way of a bridge whether it fails; one that does not passes so far.
#[derive(Drop, Clone, Copy)]
pub(crate) struct Failing {
    pub(crate) zeros: bool,
    pub(crate) ones: bool,
    pub(crate) first: bool,
    pub(crate) second: bool,
}

impl Failing {
    /// Whether a way fails: the one in which this one wins.
    pub(crate) fn at(self, winner: Winner) -> bool
        ensures { result ≡ failing_at self winner }
    {
        match winner {
            Winner::Zeros => self.zeros,
            Winner::Ones => self.ones,
            Winner::First => self.first,
            Winner::Second => self.second,
        }
    }
}

/// No way fails.
const NONE_FAILING: Failing = Failing {
    zeros: false,
    ones: false,
    first: false,
    second: false,
};

/// Whether each way fails.
fn is_each_failing(failing: Failing) -> bool
    ensures { result ≡ list_all (failing_at failing) winners }
{
    WINNERS.iter().all(|winner| failing.at(*winner))
}

/// Who may win on a bridge.
pub(crate) const WINNERS: [Winner; 4] = [
    Winner::Zeros,
    Winner::Ones,
    Winner::First,
    Winner::Second,
];

/// Of each way of a bridge of these nets whether it fails at captures of a play, by words of nets, block after block,
/// if these tell it: that one passes only where they are whole, and have all captures.
pub(crate) fn failing_ways(
    blocks: &[Vec<NoteWords>],
    whole: bool,
    nets: &[PlannedNet],
    first: usize,
    second: usize,
) -> Option<Failing>
    ensures { (ns : List Noted) → AreBlocksOf (map planned_net nets.now) ns (map (λ b. b.items) blocks.now)
        → IfSome result (λ f. (winner : TheWinner)
        → IsToldIn whole (map planned_net nets.now) ns (failing_at f winner) (way.Short first second winner)) }
{
    let pulls = pulls_of(nets, first, second);
    let mut failing = NONE_FAILING;
    for words in blocks {
        failing = bridge_failing(failing, pulls, words, first, second)?;
        if is_each_failing(failing) {
            return Some(failing);
        }
    }
    if whole { Some(failing) } else { None }
}

/// The same by one block more than before, and by the words of all nets; nothing of nets that are none of theirs.
#[inline(always)]
fn bridge_failing(
    before: Failing,
    pulls: Pulls,
    words: &[NoteWords],
    first: usize,
    second: usize,
) -> Option<Failing>
    ensures { IfSome result (IsToldAt before pulls words.now first second) }
{
    if first < words.len() && second < words.len() {
        return failing_with(before, pulls, words[first], words[second]);
    }
    None
}

/// The same by the words of its nets: one that failed before does, and one that does not tells nothing in this block.
#[inline(always)]
fn failing_with(before: Failing, pulls: Pulls, one: NoteWords, two: NoteWords) -> Option<Failing>
    ensures { IfSome result (λ f. (winner : TheWinner)
        → IsToldOn (failing_at before winner) (failing_at f winner) winner pulls one two) }
{
    let zeros = changes_of(Winner::Zeros, pulls, one, two);
    let ones = changes_of(Winner::Ones, pulls, one, two);
    let first = changes_of(Winner::First, pulls, one, two);
    let second = changes_of(Winner::Second, pulls, one, two);
    if is_untold(zeros.or(ones).or(first).or(second)) {
        return Some(before);
    }
    Some(Failing {
        zeros: fails_with(before.zeros, zeros)?,
        ones: fails_with(before.ones, ones)?,
        first: fails_with(before.first, first)?,
        second: fails_with(before.second, second)?,
    })
}

/// The same of one way by what it changes.
#[inline(always)]
fn fails_with(before: bool, changes: Changes) -> Option<bool>
    ensures { IfSome result (ChangesTell before changes) }
{
    if before {
        return Some(true);
    }
    if fails(changes) {
        return Some(true);
    }
    if is_untold(changes) {
        return Some(false);
    }
    None
}

/// Whether a wanted bit is another, before any that stays is.
#[inline(always)]
fn fails(changes: Changes) -> bool
    ensures { result ≡ true → IsFirstWanted changes }
{
    let at = lowest(changes.wanted);
    at < 64 && at <= lowest(changes.stays)
}

/// Whether nothing is told: no wanted bit is another, and none that stays.
#[inline(always)]
fn is_untold(changes: Changes) -> bool
    ensures { result ≡ true → IsUntold changes }
{
    changes.wanted == 0 && changes.stays == 0
}

/// Captures behind so many.
pub(crate) fn captures_behind(captures: &[NetCapture], n: usize) -> &[NetCapture]
    ensures { result.now ≡ drop n captures.now }
{
    if n < captures.len() {
        &captures[n..]
    } else {
        &[]
    }
}
