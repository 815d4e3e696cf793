//! Patterns, many in one text.
ghost use Rattle.std.specs.Prelude.{◌≡◌, ◌<◌, ◌++◌, ◌∷◌, [], List, ℕ, length, option_map, slice_get};
ghost use Rattle.std.specs.Prelude.{IfOk, IfSome, OnOk, MatchOption, position, true};
ghost use Rattle.std.specs.List.{list_all};
ghost use Rattle.bsdl_text.specs.Left.{left};
ghost use Rattle.bsdl_text.specs.Marks.{comma};
ghost use Rattle.bsdl_text.specs.Reading.{separated};
ghost use Rattle.bsdl_text.specs.View.{Gives, closes as closes_view};
ghost use Rattle.bsdl_device.specs.Device as device;
ghost use Rattle.bsdl_values.specs.Left.{digits_left};
ghost use Rattle.bsdl_values.specs.Parts.{is_comma, parts};
ghost use Rattle.bsdl_values.specs.InstructionValues as spec;
ghost use Rattle.bsdl_values.specs.InstructionView as view;

use crate::instructions::patterns::{WrittenPattern, digits_of};
use bsdl_text::{Entry, Lexer, Stop, closes, mark};
use std::alloc::{AllocError, Global};
use std::marker::Model;

/// Patterns as they are written, seen as the digits of each. They stand in one text: of a pattern of two digits a list
/// of its own takes ten times as much.
#[derive(Debug, Drop)]
pub struct Patterns {
    // the digits of each, and a comma behind them
    text: Vec<u8>,
}

impl Model for Patterns {
    ghost use Rattle.std.specs.Prelude.{◌≡◌, List, ℕ, true};
    ghost use Rattle.bsdl_values.specs.Parts.{parts, is_closed};

    ghost Value = { List (List ℕ) };

    ghost view = { λ p. parts p.text.items };

    ghost invariant = { λ p. is_closed p.text.items ≡ true };
}

impl Patterns {
    /// No patterns. Takes no memory.
    pub fn new(alloc: Global) -> Patterns
        ensures { result ≡ [] }
    {
        Patterns {
            text: Vec::new(alloc),
        }
    }

    /// The digits of each pattern, in their order.
    pub fn iter(&self) -> PatternIter<'_>
        ensures { digits_left result ≡ self.now }
    {
        PatternIter { rest: &self.text }
    }

    /// The digits of the first pattern.
    pub fn first(&self) -> Option<&[u8]>
        ensures { option_map {U = List ℕ} (λ digits. digits.now) result ≡ slice_get self.now 0 }
    {
        match first_of(&self.text) {
            Some((digits, _)) => Some(digits),
            None => None,
        }
    }

    /// One pattern more. Refuses for want of memory alone.
    #[tactic(auto, using(crate::proofs::PartLaws::closed_again, crate::proofs::PartLaws::one_more))]
    fn push(&mut self, pattern: WrittenPattern) -> Result<(), AllocError>
        requires digits { list_all spec.is_digit pattern.digits.items ≡ true }
        ensures items { OnOk result (self.new ≡ self.old ++ pattern.digits.items ∷ []) }
    {
        let mut piece = pattern.digits;
        piece.push(b',')?;
        self.text.extend_from_slice(&piece)?;
        Ok(())
    }
}

/// The digits of each of the patterns that are left.
#[derive(Debug, Clone, Copy)]
pub struct PatternIter<'p> {
    rest: &'p [u8],
}

impl<'p> Iterator for PatternIter<'p> {
    type Item = &'p [u8];

    ghost use Rattle.std.specs.Iterator.{YieldsFirstBy, item_count};
    ghost use Rattle.bsdl_values.specs.Left.{digits_left};

    ghost next_gives = { YieldsFirstBy (λ digits. digits.now) digits_left };

    ghost remaining = { item_count digits_left };

    fn next(&mut self) -> Option<&'p [u8]> {
        let (digits, behind) = first_of(self.rest)?;
        self.rest = behind;
        Some(digits)
    }
}

/// What stands before the first comma of a text, and what stands behind it.
fn first_of(text: &[u8]) -> Option<(&[u8], &[u8])>
    ensures { MatchOption result (parts text.now ≡ []) (λ p. parts text.now ≡ p.0.now ∷ parts p.1.now) }
{
    let len = comma_place(text)?;
    Some((&text[..len], &text[len + 1..]))
}

/// The place of the first comma.
fn comma_place(text: &[u8]) -> Option<usize>
    ensures place { result ≡ position is_comma text.now }
    ensures within { IfSome result (λ place. place < length text.now) }
{
    text.iter().position(|byte| *byte == b',')
}

/// Patterns up to the end of the text.
impl<'a> Entry<'a> for Patterns {
    ghost Seen = { List device.Pattern };

    ghost seen = { view.patterns };

    ghost says = { spec.rows spec.pattern };

    fn read(alloc: Global, lexer: Lexer<'a>) -> Result<(Patterns, Lexer<'a>), Stop> {
        listed_patterns(alloc, lexer, None)
    }
}

/// Patterns between brackets. Refuses where the list of them does, at the next token where a bracket is missing, or at
/// the text's end, and for want of memory.
pub fn bracketed_patterns<'a>(
    alloc: Global,
    lexer: Lexer<'a>,
) -> Result<(Patterns, Lexer<'a>), Stop>
    ensures gives { Gives view.patterns result (spec.bracketed spec.pattern (left lexer.entry)) }
    ensures shorter { IfOk result (λ p. length (left p.1) < length (left lexer.entry)) }
{
    let rest = mark(lexer, b'(')?;
    let (all, rest) = listed_patterns(alloc, rest, Some(b')'))?;
    let rest = mark(rest, b')')?;
    Ok((all, rest))
}

/// Patterns with commas between them, of which one may stand behind the last too, up to where the list closes. Refuses
/// where a pattern does, at the next token behind a pattern where neither a comma stands nor the list closes, or at the
/// text's end, and for want of memory.
fn listed_patterns<'a>(
    alloc: Global,
    lexer: Lexer<'a>,
    close: Option<u8>,
) -> Result<(Patterns, Lexer<'a>), Stop>
    ensures gives { Gives view.patterns result
        (separated spec.pattern comma (closes_view close) (left lexer.entry)) }
    ensures shorter { IfOk result (λ p. length (left p.1) < length (left lexer.entry)) }
{
    let mut all = Patterns::new(alloc);
    let (first, behind) = digits_of(alloc, lexer)?;
    match all.push(first) {
        Ok(()) => {}
        Err(_) => return Err(Stop::Memory),
    }
    let mut rest = behind;
    'entries: loop {
        if closes(rest, close) {
            return Ok((all, rest));
        }
        let after = mark(rest, b',')?;
        if closes(after, close) {
            return Ok((all, after));
        }
        let (entry, more) = digits_of(alloc, after)?;
        match all.push(entry) {
            Ok(()) => rest = more,
            Err(_) => return Err(Stop::Memory),
        }
    }
}
