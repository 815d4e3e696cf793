//! Strings, and the text that strings joined by `&` make.
ghost use Rattle.std.specs.Prelude.{◌≡◌, ◌<◌, length, IfOk};
ghost use Rattle.bsdl_text.specs.Left.{left, lexeme};
ghost use Rattle.bsdl_text.specs.Reading as spec;
ghost use Rattle.bsdl_text.specs.Words as words;
ghost use Rattle.bsdl_text.specs.View.{Gives};

use crate::reading::{Stop, behind, string};
use crate::tokens::{Lexer, Token};
use std::alloc::Global;

/// The text of a string, or of several joined by `&`, and the lexer behind them. Refuses at the next token where it is
/// no string, first or behind an `&`, or at the text's end, and for want of memory.
pub fn joined_text<'a>(alloc: Global, lexer: Lexer<'a>) -> Result<(Vec<u8>, Lexer<'a>), Stop>
    ensures gives { Gives (λ v. v.items) result (spec.joined_text (left lexer.entry)) }
    ensures shorter { IfOk result (λ p. length (left p.1) < length (left lexer.entry)) }
{
    let mut text = Vec::new(alloc);
    let (first, mut rest) = string(lexer)?;
    match text.extend_from_slice(inner(first)) {
        Ok(()) => {}
        Err(_) => return Err(Stop::Memory),
    }
    'strings: loop {
        let Some(after) = behind(rest, b'&') else {
            return Ok((text, rest));
        };
        let (next, more) = string(after)?;
        match text.extend_from_slice(inner(next)) {
            Ok(()) => rest = more,
            Err(_) => return Err(Stop::Memory),
        }
    }
}

/// The bytes between a string's quotes.
fn inner(token: Token<'_>) -> &[u8]
    ensures { result.now ≡ words.inner (lexeme token.entry) }
{
    let text = token.text;
    if text.len() < 2 {
        return &[];
    }
    &text[1..text.len() - 1]
}
