//! The tokens of a device description (BSDL: IEEE Std 1149.1-2001, Annex B, whose lexical elements are VHDL's).
//!
//! A text is words, numbers, strings and marks, and gaps between them: white space, and comments from `--` to the
//! line's end. What stands within the quotes of strings is cut in the same way, without comments and strings.
ghost use Rattle.std.specs.Prelude.{◌≡◌, ◌≤◌, ◌<◌, ◌^◌, ◌∷◌, ◌==◌, [], length, drop, is_some, MatchOption, IfSome};
ghost use Rattle.std.specs.Prelude.{false, true};
ghost use Rattle.bsdl_text.specs.Ascii.{IsAsciiWord};

use crate::tokens::scan::{behind_alone, first_token, is_over};
pub use scan::bad_byte;

mod lanes;
pub mod laws;
mod plain;
mod scan;

/// What a token is.
#[derive(Debug, Clone, Copy, PartialEq, Eq)]
pub enum Kind {
    /// A letter, and then letters, digits and `_`.
    Word,
    /// A digit, and then letters, digits, `_` and `.`.
    Number,
    /// A string, with its quotes.
    Text,
    /// A single byte of `( ) [ ] , ; : . & = * + - < > ' / |`.
    Mark,
}

/// A token of a text.
#[derive(Debug, Clone, Copy, PartialEq, Eq)]
pub struct Token<'a> {
    pub kind: Kind,
    /// Its bytes, which stand in the text at `start`.
    pub text: &'a [u8],
    /// The place of its first byte, counted in bytes from 0.
    pub start: usize,
    // the bytes of a word are ASCII
    pub ghost ascii: { IsAsciiWord kind text.now },
}

/// The tokens of a text that are left, in order, up to the first byte that begins none.
///
/// A copy is a bookmark: it goes on from its place.
#[derive(Debug, Clone, Copy)]
pub struct Lexer<'a> {
    source: &'a [u8],
    // where the next token or gap begins
    at: usize,
    // whether the text stands within quotes
    quoted: bool,
    ghost within: { at ≤ length source.now },
}

impl<'a> Lexer<'a> {
    ghost use Rattle.bsdl_text.specs.Alone.{stands_alone};
    ghost use Rattle.bsdl_text.specs.Left.{left, lexeme};
    ghost use Rattle.bsdl_text.specs.Cutting.{cuts_of, tokens};

    /// The tokens of a description. Takes no memory.
    #[tactic(auto, unfolding(crate::specs::Left::left))]
    pub fn new(source: &'a [u8]) -> Lexer<'a>
        ensures { left result ≡ tokens (cuts_of false source.now) }
    {
        Lexer {
            source,
            at: 0,
            quoted: false,
        }
    }

    /// The tokens of what stands within quotes, where `--` and `"` begin nothing of their own. Takes no memory.
    #[tactic(auto, unfolding(crate::specs::Left::left))]
    pub fn within_quotes(source: &'a [u8]) -> Lexer<'a>
        ensures { left result ≡ tokens (cuts_of true source.now) }
    {
        Lexer {
            source,
            at: 0,
            quoted: true,
        }
    }

    /// The next token, and the lexer behind it. There is none at the text's end and at a byte that begins nothing.
    #[tactic(auto, unfolding(crate::specs::Left::left))]
    pub fn next(self) -> Option<(Token<'a>, Lexer<'a>)>
        ensures tokens { MatchOption result (left self.entry ≡ []) (λ p. left self.entry ≡ lexeme p.0 ∷ left p.1) }
    {
        match first_token(self.source, self.quoted, self.at) {
            Some(Ok(token)) => {
                let behind = Lexer {
                    source: self.source,
                    at: token.start + token.text.len(),
                    quoted: self.quoted,
                };
                Some((token, behind))
            }
            _ => None,
        }
    }

    /// The lexer behind the next token, where that is this byte alone, as a mark is. Of another token nothing but its
    /// first byte is looked at, where the byte is a mark's. Takes no memory.
    #[tactic(auto, unfolding(crate::specs::Left::left))]
    pub fn behind_byte(self, byte: u8) -> Option<Lexer<'a>>
        ensures stands { is_some result ≡ stands_alone byte (left self.entry) }
        ensures behind { IfSome result (λ l. left l ≡ drop 1 (left self.entry)) }
    {
        let at = behind_alone(self.source, self.quoted, self.at, byte)?;
        Some(Lexer {
            source: self.source,
            at,
            quoted: self.quoted,
        })
    }

    /// Whether no token is left: the text is at its end, or at a byte that begins nothing.
    #[tactic(auto, unfolding(crate::specs::Left::left))]
    pub fn is_over(self) -> bool
        ensures { result ≡ (length (left self.entry) == 0) }
    {
        is_over(self.source, self.quoted, self.at)
    }
}
