//! The parts of a RUNTEST.
ghost use Rattle.std.specs.Prelude.{◌≡◌, ◌∷◌, option_map};
ghost use Rattle.svf_lex.specs.Left.{left};
ghost use Rattle.svf_words.specs.Words.{Word, groups_of, with_word, words_left};
ghost use Rattle.svf_parse.specs.Ahead.{GoesOn, groups_ahead, words_ahead};
ghost use Rattle.svf_parse.specs.Behind.{Behind};
ghost use Rattle.svf_parse.specs.RunTests as spec;
ghost use Rattle.svf_parse.specs.FormView as view;
ghost use Rattle.svf_words.specs.declared.keywords.Clock as declared_clock;

use jt_tap::State;
use svf_lex::Lexer;
use svf_words::{Clock, clock_of, is_number, reads, state_of, take_word};

/// A RUNTEST as it is written: each number as its word.
#[derive(Drop, Clone, Copy)]
pub struct RunTest<'a> {
    /// The state to run in.
    pub run: Option<State>,
    /// The number of cycles, and the clock that counts them.
    pub count: Option<(&'a [u8], Clock)>,
    /// The least time, in seconds.
    pub min: Option<&'a [u8]>,
    /// The longest time, in seconds.
    pub max: Option<&'a [u8]>,
    /// The state to end in.
    pub end: Option<State>,
}

/// The words that stand next, two at most, and the lexer behind them. A part needs no more to know whether it stands
/// there, so each word is cut once, whatever parts are absent.
#[derive(Clone, Copy)]
enum Ahead<'a> {
    /// None is left.
    Over(Lexer<'a>),
    /// The last one.
    One(&'a [u8], Lexer<'a>),
    /// Two, and perhaps more.
    Two(&'a [u8], &'a [u8], Lexer<'a>),
}

/// Takes the RUNTEST that the words are: `[state] [number TCK or SCK] [number SEC [MAXIMUM number SEC]] [ENDSTATE
/// state]`, with at least one of the count and the first time. The lexer stands behind the words that were read, also
/// where they are no RUNTEST.
#[tactic(auto, unfolding(crate::specs::RunTests::run_test_of))]
pub(crate) fn take_run_test<'a>(words: &mut Lexer<'a>) -> Option<RunTest<'a>>
    ensures value { option_map view.run_test result ≡ spec.run_test_of (words_left words.old) }
    ensures behind { Behind (left words.old) (left words.new) }
{
    let (run, ahead) = take_state(look(*words));
    let (count, ahead) = take_count(ahead);
    let (min, ahead) = take_time(ahead);
    let (max, ahead) = maximum_behind(min, ahead);
    let (end, ahead) = take_end(ahead);
    *words = lexer_behind(ahead);
    let Ahead::Over(_) = ahead else {
        return None;
    };
    if count.is_none() && min.is_none() {
        return None;
    }
    Some(RunTest {
        run,
        count,
        min,
        max,
        end,
    })
}

/// What stands next at a lexer.
fn look<'a>(words: Lexer<'a>) -> Ahead<'a>
    ensures words { words_ahead result ≡ words_left words.entry }
    ensures groups { groups_ahead result ≡ groups_of (left words.entry) }
{
    let mut rest = words;
    match take_word(&mut rest) {
        Some(word) => look_behind(word, rest),
        None => Ahead::Over(rest),
    }
}

/// This word and what stands behind it.
fn look_behind<'a>(word: &'a [u8], words: Lexer<'a>) -> Ahead<'a>
    ensures words { words_ahead result ≡ word.now ∷ words_left words.entry }
    ensures groups { groups_ahead result ≡ with_word word.now (groups_of (left words.entry)) }
{
    let mut rest = words;
    match take_word(&mut rest) {
        Some(second) => Ahead::Two(word, second, rest),
        None => Ahead::One(word, rest),
    }
}

/// The lexer behind all words that are cut.
fn lexer_behind<'a>(ahead: Ahead<'a>) -> Lexer<'a>
    ensures { GoesOn (groups_ahead ahead.entry) (groups_of (left result)) }
{
    match ahead {
        Ahead::Over(rest) => rest,
        Ahead::One(_, rest) => rest,
        Ahead::Two(_, _, rest) => rest,
    }
}

/// `[state]`, and what stands behind it.
#[tactic(auto, unfolding(crate::specs::RunTests::take_state))]
fn take_state<'a>(ahead: Ahead<'a>) -> (Option<State>, Ahead<'a>)
    ensures value { result.0 ≡ (spec.take_state (words_ahead ahead.entry)).0 }
    ensures rest { words_ahead result.1 ≡ (spec.take_state (words_ahead ahead.entry)).1 }
    ensures behind { GoesOn (groups_ahead ahead.entry) (groups_ahead result.1) }
{
    match ahead {
        Ahead::Two(word, second, rest) => match state_of(word) {
            Some(state) => (Some(state), look_behind(second, rest)),
            None => (None, ahead),
        },
        Ahead::One(word, rest) => match state_of(word) {
            Some(state) => (Some(state), Ahead::Over(rest)),
            None => (None, ahead),
        },
        Ahead::Over(_) => (None, ahead),
    }
}

/// `[number TCK or SCK]`, and what stands behind it.
#[tactic(auto, unfolding(crate::specs::RunTests::take_count))]
fn take_count<'a>(ahead: Ahead<'a>) -> (Option<(&'a [u8], Clock)>, Ahead<'a>)
    ensures value { option_map {U = Word × declared_clock.Clock} (λ c. (c.0.now, c.1)) result.0
        ≡ (spec.take_count (words_ahead ahead.entry)).0 }
    ensures rest { words_ahead result.1 ≡ (spec.take_count (words_ahead ahead.entry)).1 }
    ensures behind { GoesOn (groups_ahead ahead.entry) (groups_ahead result.1) }
{
    match ahead {
        Ahead::Two(number, unit, rest) => {
            if !is_number(number) {
                return (None, ahead);
            }
            match clock_of(unit) {
                Some(clock) => (Some((number, clock)), look(rest)),
                None => (None, ahead),
            }
        }
        Ahead::One(_, _) => (None, ahead),
        Ahead::Over(_) => (None, ahead),
    }
}

/// `[number SEC]`, and what stands behind it.
#[tactic(auto, unfolding(crate::specs::RunTests::take_time))]
fn take_time<'a>(ahead: Ahead<'a>) -> (Option<&'a [u8]>, Ahead<'a>)
    ensures value { option_map {U = Word} (λ w. w.now) result.0 ≡ (spec.take_time (words_ahead ahead.entry)).0 }
    ensures rest { words_ahead result.1 ≡ (spec.take_time (words_ahead ahead.entry)).1 }
    ensures behind { GoesOn (groups_ahead ahead.entry) (groups_ahead result.1) }
{
    match ahead {
        Ahead::Two(number, unit, rest) => {
            if is_number(number) && reads(unit, b"SEC") {
                (Some(number), look(rest))
            } else {
                (None, ahead)
            }
        }
        Ahead::One(_, _) => (None, ahead),
        Ahead::Over(_) => (None, ahead),
    }
}

/// `[MAXIMUM number SEC]`, and what stands behind it.
#[tactic(auto, unfolding(crate::specs::RunTests::take_maximum))]
fn take_maximum<'a>(ahead: Ahead<'a>) -> (Option<&'a [u8]>, Ahead<'a>)
    ensures value { option_map {U = Word} (λ w. w.now) result.0 ≡ (spec.take_maximum (words_ahead ahead.entry)).0 }
    ensures rest { words_ahead result.1 ≡ (spec.take_maximum (words_ahead ahead.entry)).1 }
    ensures behind { GoesOn (groups_ahead ahead.entry) (groups_ahead result.1) }
{
    match ahead {
        Ahead::Two(keyword, number, rest) => {
            if !reads(keyword, b"MAXIMUM") {
                return (None, ahead);
            }
            match take_time(look_behind(number, rest)) {
                (Some(number), rest) => (Some(number), rest),
                (None, _) => (None, ahead),
            }
        }
        Ahead::One(_, _) => (None, ahead),
        Ahead::Over(_) => (None, ahead),
    }
}

/// The same where a first time stands before it.
fn maximum_behind<'a>(min: Option<&'a [u8]>, ahead: Ahead<'a>) -> (Option<&'a [u8]>, Ahead<'a>)
    ensures value { option_map {U = Word} (λ w. w.now) result.0
        ≡ (spec.maximum_behind (option_map {U = Word} (λ w. w.now) min.entry) (words_ahead ahead.entry)).0 }
    ensures rest { words_ahead result.1
        ≡ (spec.maximum_behind (option_map {U = Word} (λ w. w.now) min.entry) (words_ahead ahead.entry)).1 }
    ensures behind { GoesOn (groups_ahead ahead.entry) (groups_ahead result.1) }
{
    match min {
        Some(_) => take_maximum(ahead),
        None => (None, ahead),
    }
}

/// `[ENDSTATE state]`, and what stands behind it.
#[tactic(auto, unfolding(crate::specs::RunTests::take_end))]
fn take_end<'a>(ahead: Ahead<'a>) -> (Option<State>, Ahead<'a>)
    ensures value { result.0 ≡ (spec.take_end (words_ahead ahead.entry)).0 }
    ensures rest { words_ahead result.1 ≡ (spec.take_end (words_ahead ahead.entry)).1 }
    ensures behind { GoesOn (groups_ahead ahead.entry) (groups_ahead result.1) }
{
    match ahead {
        Ahead::Two(keyword, word, rest) => {
            if !reads(keyword, b"ENDSTATE") {
                return (None, ahead);
            }
            match state_of(word) {
                Some(state) => (Some(state), look(rest)),
                None => (None, ahead),
            }
        }
        Ahead::One(_, _) => (None, ahead),
        Ahead::Over(_) => (None, ahead),
    }
}
