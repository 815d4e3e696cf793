//! The forms of the statements: what the words after a command are, up to the `;`. There is none where they do not fit
//! the command. Each is taken from a lexer, which then stands behind the words that were read, also where they have no
//! form.
ghost use Rattle.std.specs.Prelude.{◌≡◌, List, Option, IfOk, option_map};
ghost use Rattle.jt_tap.specs.declared.State as declared_state;
ghost use Rattle.svf_lex.specs.Left.{left};
ghost use Rattle.svf_words.specs.Words.{Word, words_left};
ghost use Rattle.svf_parse.specs.Behind.{Behind};
ghost use Rattle.svf_parse.specs.Forms as spec;
ghost use Rattle.svf_parse.specs.Forms.{scan_form};
ghost use Rattle.svf_words.specs.declared.keywords.Which as declared_which;
ghost use Rattle.svf_parse.specs.FormView as view;

use crate::fields::{Fields, take_fields};
use jt_tap::State;
use std::alloc::{AllocError, Global};
use svf_lex::Lexer;
use svf_words::{TrstWord, is_number, reads, state_of, take_word, trst_of};

/// One state.
#[tactic(auto, unfolding(crate::specs::Forms::one_state))]
pub(crate) fn one_state(words: &mut Lexer<'_>) -> Option<State>
    ensures says { result ≡ spec.one_state (words_left words.old) }
    ensures behind { Behind (left words.old) (left words.new) }
{
    let word = take_word(words)?;
    match take_word(words) {
        None => state_of(word),
        Some(_) => None,
    }
}

/// One word of TRST.
#[tactic(auto, unfolding(crate::specs::Forms::one_trst))]
pub(crate) fn one_trst(words: &mut Lexer<'_>) -> Option<TrstWord>
    ensures says { result ≡ spec.one_trst (words_left words.old) }
    ensures behind { Behind (left words.old) (left words.new) }
{
    let word = take_word(words)?;
    match take_word(words) {
        None => trst_of(word),
        Some(_) => None,
    }
}

/// States, at least one. Memory is taken for them.
pub(crate) fn some_states(
    alloc: Global,
    words: &mut Lexer<'_>,
) -> Result<Option<Vec<State>>, AllocError>
    ensures says { IfOk result (λ o. option_map {U = List declared_state.State} (λ v. v.items) o
        ≡ spec.some_states (words_left words.old)) }
    ensures behind { Behind (left words.old) (left words.new) }
{
    let mut all = Vec::new(alloc);
    while let Some(word) = take_word(words) {
        let Some(state) = state_of(word) else {
            return Ok(None);
        };
        all.push(state)?;
    }
    if all.is_empty() {
        return Ok(None);
    }
    Ok(Some(all))
}

/// `[number HZ]`.
#[tactic(auto, unfolding(crate::specs::Forms::hertz))]
pub(crate) fn hertz<'a>(words: &mut Lexer<'a>) -> Option<Option<&'a [u8]>>
    ensures says { option_map {U = Option Word} (λ o. option_map {U = Word} (λ w. w.now) o) result
        ≡ spec.hertz (words_left words.old) }
    ensures behind { Behind (left words.old) (left words.new) }
{
    let Some(number) = take_word(words) else {
        return Some(None);
    };
    let unit = take_word(words)?;
    if take_word(words).is_none() && is_number(number) && reads(unit, b"HZ") {
        Some(Some(number))
    } else {
        None
    }
}

/// A length and fields. Memory is taken for the digits of fields that are more than one run.
#[tactic(auto, unfolding(crate::specs::Forms::scan_of))]
pub(crate) fn take_scan<'a>(
    alloc: Global,
    words: &mut Lexer<'a>,
) -> Result<Option<(&'a [u8], Fields<'a>)>, AllocError>
    ensures says { (which : declared_which.Which) → IfOk result
        (λ o. option_map (λ p. scan_form which p.0.now (view.fields p.1)) o
        ≡ spec.scan_of which (words_left words.old)) }
    ensures behind { Behind (left words.old) (left words.new) }
{
    let Some(len) = take_word(words) else {
        return Ok(None);
    };
    if !is_number(len) {
        return Ok(None);
    }
    match take_fields(alloc, words)? {
        Some(fields) => Ok(Some((len, fields))),
        None => Ok(None),
    }
}
