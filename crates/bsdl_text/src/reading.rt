//! Reading tokens from left to right.
ghost use Rattle.std.specs.Prelude.{◌≡◌, ◌<◌, ℕ, List, length, map, is_some, IfSome, IfOk};
ghost use Rattle.std.specs.List.{list_all};
ghost use Rattle.std.specs.Char.{is_ascii_digit};
ghost use Rattle.std.specs.Str.{str_eq_ignore_ascii_case};
ghost use Rattle.std.proofs.Common.{Bor};
ghost use Rattle.bsdl_text.specs.Cutting.{Lexeme};
ghost use Rattle.bsdl_text.specs.Left.{left, lexeme};
ghost use Rattle.bsdl_text.specs.NumberView.{value};
ghost use Rattle.bsdl_text.specs.WordView.{word_lexeme};
ghost use Rattle.bsdl_text.specs.Reading as spec;
ghost use Rattle.bsdl_text.specs.Words as words;
ghost use Rattle.bsdl_text.specs.View as view;
ghost use Rattle.bsdl_text.specs.View.{Gives, Passes, StopsAtMisfit};

use crate::digits::Digits;
use crate::names::Word;
use crate::tokens::{Kind, Lexer, Token};

/// Why reading stops.
#[derive(Debug, Drop, Clone, Copy, PartialEq, Eq)]
pub enum Stop {
    /// A growth was refused.
    Memory,
    /// The first token that does not fit stands at this place; `None` is the text's end.
    Misfit(Option<usize>),
}

/// A word, and the lexer behind it. Refuses at the next token where it is none, or at the text's end.
pub fn word<'a>(lexer: Lexer<'a>) -> Result<(Word<'a>, Lexer<'a>), Stop>
    ensures gives { Gives word_lexeme result (spec.word (left lexer.entry)) }
    ensures shorter { IfOk result (λ p. length (left p.1) < length (left lexer.entry)) }
    ensures misfit { StopsAtMisfit result }
{
    match lexer.next() {
        Some((token, rest)) => match token.kind {
            Kind::Word => {
                let found = Word {
                    text: token.text,
                    start: token.start,
                };
                Ok((found, rest))
            }
            _ => Err(Stop::Misfit(Some(token.start))),
        },
        None => Err(Stop::Misfit(None)),
    }
}

/// A string, and the lexer behind it. Refuses at the next token where it is none, or at the text's end.
pub(crate) fn string<'a>(lexer: Lexer<'a>) -> Result<(Token<'a>, Lexer<'a>), Stop>
    ensures gives { Gives lexeme result (spec.string (left lexer.entry)) }
    ensures shorter { IfOk result (λ p. length (left p.1) < length (left lexer.entry)) }
    ensures misfit { StopsAtMisfit result }
{
    match lexer.next() {
        Some((token, rest)) => match token.kind {
            Kind::Text => Ok((token, rest)),
            _ => Err(Stop::Misfit(Some(token.start))),
        },
        None => Err(Stop::Misfit(None)),
    }
}

/// The lexer behind this mark. Refuses at the next token where it is another, or at the text's end.
pub fn mark<'a>(lexer: Lexer<'a>, byte: u8) -> Result<Lexer<'a>, Stop>
    ensures passes { Passes result (spec.mark byte (left lexer.entry)) }
    ensures shorter { IfOk result (λ l. length (left l) < length (left lexer.entry)) }
    ensures misfit { StopsAtMisfit result }
{
    if let Some(rest) = behind(lexer, byte) {
        return Ok(rest);
    }
    match lexer.next() {
        Some((token, _)) => Err(Stop::Misfit(Some(token.start))),
        None => Err(Stop::Misfit(None)),
    }
}

/// The lexer behind this mark, where it stands next: `mark` and `stands` by one look.
pub(crate) fn behind<'a>(lexer: Lexer<'a>, byte: u8) -> Option<Lexer<'a>>
    ensures stands { is_some result ≡ spec.stands byte (left lexer.entry) }
    ensures passes { IfSome result (λ l. (t : Lexeme) × (spec.mark byte (left lexer.entry) ≡ spec.fits t (left l))) }
    ensures shorter { IfSome result (λ l. length (left l) < length (left lexer.entry)) }
{
    lexer.behind_byte(byte)
}

/// Whether this mark stands next.
pub fn stands(lexer: Lexer<'_>, byte: u8) -> bool
    ensures { result ≡ spec.stands byte (left lexer.entry) }
{
    behind(lexer, byte).is_some()
}

/// Whether no token is left.
pub fn is_over(lexer: Lexer<'_>) -> bool
    ensures { result ≡ spec.is_over (left lexer.entry) }
{
    lexer.is_over()
}

/// Whether a list closes here: at the end, or before a mark.
pub fn closes(lexer: Lexer<'_>, close: Option<u8>) -> bool
    ensures { result ≡ view.closes close (left lexer.entry) }
{
    match close {
        None => is_over(lexer),
        Some(byte) => stands(lexer, byte),
    }
}

/// Digits alone, and the lexer behind them. Refuses at the next token where it is not digits alone, or at the text's
/// end.
pub fn number<'a>(lexer: Lexer<'a>) -> Result<(Digits<'a>, Lexer<'a>), Stop>
    ensures gives { Gives value result (spec.number (left lexer.entry)) }
    ensures shorter { IfOk result (λ p. length (left p.1) < length (left lexer.entry)) }
    ensures misfit { StopsAtMisfit result }
{
    match lexer.next() {
        Some((token, rest)) => {
            if are_digits(token.text) {
                Ok((Digits { digits: token.text }, rest))
            } else {
                Err(Stop::Misfit(Some(token.start)))
            }
        }
        None => Err(Stop::Misfit(None)),
    }
}

fn are_digits(text: &[u8]) -> bool
    ensures { result ≡ list_all is_ascii_digit text.now }
{
    text.iter().all(|byte| byte.is_ascii_digit())
}

/// What the next token stands for in a table of words, in any case, and the lexer behind it. Refuses at the next token
/// where it stands for nothing, or at the text's end.
pub fn keyword<'a, A: Copy>(lexer: Lexer<'a>, table: &[(&[u8], A)]) -> Result<(A, Lexer<'a>), Stop>
    ensures gives { Gives (λ a. a) result (spec.keyword
        (words.stands_for (map {A = Bor (List ℕ) × A} (λ row. (row.0.now, row.1)) table.now)) (left lexer.entry)) }
    ensures shorter { IfOk result (λ p. length (left p.1) < length (left lexer.entry)) }
    ensures misfit { StopsAtMisfit result }
{
    match lexer.next() {
        Some((token, rest)) => match stands_for(table, token.text) {
            Some(found) => Ok((found, rest)),
            None => Err(Stop::Misfit(Some(token.start))),
        },
        None => Err(Stop::Misfit(None)),
    }
}

/// What a word stands for in a table of words, in any case.
pub fn stands_for<A: Copy>(table: &[(&[u8], A)], word: &[u8]) -> Option<A>
    ensures { result ≡ words.stands_for (map {A = Bor (List ℕ) × A} (λ row. (row.0.now, row.1)) table.now) word.now }
{
    for row in table {
        if same_name(word, row.0) {
            return Some(row.1);
        }
    }
    None
}

/// Whether two names are the same, in any case.
pub fn same_name(one: &[u8], other: &[u8]) -> bool
    ensures { result ≡ words.same_name one.now other.now }
{
    are_equal(one, other)
}

fn are_equal(one: &[u8], other: &[u8]) -> bool
    ensures { result ≡ str_eq_ignore_ascii_case one.now other.now }
{
    one.eq_ignore_ascii_case(other)
}
