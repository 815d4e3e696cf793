//! The fields of a scan.
ghost use Rattle.std.specs.Prelude.{◌≡◌, ◌++◌, List, ℕ, IfOk, MatchBool, Some, None, option_map};
ghost use Rattle.std.specs.Prelude.{if◌then◌else◌};
ghost use Rattle.svf_lex.specs.Left.{left};
ghost use Rattle.svf_words.specs.Words.{words_left};
ghost use Rattle.svf_parse.specs.Behind.{Behind};
ghost use Rattle.svf_parse.specs.Fields as spec;
ghost use Rattle.svf_parse.specs.Fields.{◌>>?◌, Closed, cut_at_close, no_fields, fields_say};
ghost use Rattle.svf_parse.specs.FormView.{digits_of, fields, given};

use std::alloc::{AllocError, Global};
use svf_lex::Lexer;
use svf_words::{FieldName, field_of, is_close, is_open, take_word};

/// The hexadecimal digits of a field as they are written: one run of the text, or any number of runs, joined.
#[derive(Drop)]
pub enum Digits<'a> {
    /// One run.
    Run(&'a [u8]),
    /// Runs, joined.
    Joined(Vec<u8>),
}

impl<'a> Digits<'a> {
    /// The digits.
    pub fn bytes(&self) -> &[u8]
        ensures { result.now ≡ digits_of self.now }
    {
        match self {
            Digits::Run(run) => run,
            Digits::Joined(digits) => digits,
        }
    }
}

/// The hexadecimal digits of each field that is given, as they are written. Digits that are one run are not copied.
#[derive(Drop)]
pub struct Fields<'a> {
    /// What goes in (TDI).
    pub tdi: Option<Digits<'a>>,
    /// What must come out (TDO).
    pub tdo: Option<Digits<'a>>,
    /// Which bits of TDO count (MASK).
    pub mask: Option<Digits<'a>>,
    /// Which bits of TDI count (SMASK).
    pub smask: Option<Digits<'a>>,
}

/// Takes the fields that the words up to the `;` are: each a name and digits between brackets, at most once. There are
/// none where the words are anything else; the lexer stands behind the words that were read, also then. Memory is taken
/// for digits of more than one run. Refuses for want of memory alone.
pub(crate) fn take_fields<'a>(
    alloc: Global,
    words: &mut Lexer<'a>,
) -> Result<Option<Fields<'a>>, AllocError>
    ensures says { IfOk result
        (λ o. option_map fields o ≡ fields_say no_fields (cut_at_close (words_left words.old))) }
    ensures behind { Behind (left words.old) (left words.new) }
{
    let mut all = Fields {
        tdi: None,
        tdo: None,
        mask: None,
        smask: None,
    };
    while let Some(word) = take_word(words) {
        let Some(name) = field_of(word) else {
            return Ok(None);
        };
        let Some(digits) = bracket(alloc, words)? else {
            return Ok(None);
        };
        if !put(&mut all, name, digits) {
            return Ok(None);
        }
    }
    Ok(Some(all))
}

/// Puts a field's digits, unless it is given already.
fn put<'a>(all: &mut Fields<'a>, name: FieldName, digits: Digits<'a>) -> bool
    ensures { spec.put name (digits_of digits.entry) (fields all.old)
        ≡ (if result then Some (fields all.new) else None) }
{
    match name {
        FieldName::Tdi => put_once(&mut all.tdi, digits),
        FieldName::Tdo => put_once(&mut all.tdo, digits),
        FieldName::Mask => put_once(&mut all.mask, digits),
        FieldName::Smask => put_once(&mut all.smask, digits),
    }
}

fn put_once<'a>(place: &mut Option<Digits<'a>>, digits: Digits<'a>) -> bool
    ensures { MatchBool result ((given place.old ≡ None) × (given place.new ≡ Some (digits_of digits.entry)))
        ((old : List ℕ) × (given place.old ≡ Some old)) }
{
    match place {
        Some(_) => false,
        None => {
            *place = Some(digits);
            true
        }
    }
}

/// Takes the digits between brackets.
fn bracket<'a>(alloc: Global, words: &mut Lexer<'a>) -> Result<Option<Digits<'a>>, AllocError>
    ensures found { IfOk result
        (λ o. option_map {U = List ℕ × Closed} (λ d. (digits_of d, cut_at_close (words_left words.new))) o
        ≡ spec.bracket (cut_at_close (words_left words.old))) }
    ensures behind { Behind (left words.old) (left words.new) }
{
    match take_word(words) {
        Some(word) if is_open(word) => runs(alloc, words),
        _ => Ok(None),
    }
}

/// Takes the runs up to `)`, and that.
fn runs<'a>(alloc: Global, words: &mut Lexer<'a>) -> Result<Option<Digits<'a>>, AllocError>
    ensures found { IfOk result
        (λ o. option_map {U = List ℕ × Closed} (λ d. (digits_of d, cut_at_close (words_left words.new))) o
        ≡ spec.runs (cut_at_close (words_left words.old))) }
    ensures behind { Behind (left words.old) (left words.new) }
{
    let Some(first) = take_word(words) else {
        return Ok(None);
    };
    if is_close(first) {
        return Ok(Some(Digits::Joined(Vec::new(alloc))));
    }
    if is_open(first) {
        return Ok(None);
    }
    let Some(second) = take_word(words) else {
        return Ok(None);
    };
    if is_close(second) {
        return Ok(Some(Digits::Run(first)));
    }
    if is_open(second) {
        return Ok(None);
    }
    match joined(alloc, first, second, words)? {
        Some(digits) => Ok(Some(Digits::Joined(digits))),
        None => Ok(None),
    }
}

/// Takes the runs up to `)`, and that, and joins them to these two runs.
fn joined<'a>(
    alloc: Global,
    first: &'a [u8],
    second: &'a [u8],
    words: &mut Lexer<'a>,
) -> Result<Option<Vec<u8>>, AllocError>
    ensures found { IfOk result
        (λ o. option_map {U = List ℕ × Closed} (λ d. (d.items, cut_at_close (words_left words.new))) o
        ≡ (spec.runs (cut_at_close (words_left words.old)) >>? λ p. Some ((first.now ++ second.now) ++ p.0, p.1))) }
    ensures behind { Behind (left words.old) (left words.new) }
{
    let mut digits = Vec::new(alloc);
    digits.extend_from_slice(first)?;
    digits.extend_from_slice(second)?;
    while let Some(word) = take_word(words) {
        if is_close(word) {
            return Ok(Some(digits));
        }
        if is_open(word) {
            return Ok(None);
        }
        digits.extend_from_slice(word)?;
    }
    Ok(None)
}
