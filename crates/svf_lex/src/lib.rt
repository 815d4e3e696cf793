//! The tokens of SVF text (Serial Vector Format, revision E).
//!
//! A text is runs of letters, digits, `.`, `+`, `-` and `_`, the marks `(`, `)` and `;`, and gaps between them: white
//! space, and comments from `!` or `//` to the line's end.
#![tactic(auto)]

ghost use Rattle.std.specs.Prelude.{◌≡◌, ◌≤◌, [], length};
ghost use Rattle.std.specs.Iterator.{YieldsFirstBy, item_count};

use crate::scan::first_token;
use thiserror::Error;

mod lanes;
mod laws;
mod scan;

pub use laws::{
    a_text_has_one_cutting, the_lexer_gives_the_tokens, tokens_and_gaps_join_to_the_text,
    tokens_are_slices_in_order, tokens_with_gaps_are_the_cut,
};

/// What a token is.
#[derive(Debug, Clone, Copy, PartialEq, Eq)]
pub enum Kind {
    /// The longest run of ASCII letters, digits, `.`, `+`, `-` and `_`: a word, a number or hexadecimal digits.
    Run,
    /// `(`
    Open,
    /// `)`
    Close,
    /// `;`, which ends a statement.
    Semi,
}

/// A token of a text.
#[derive(Debug, Clone, Copy, PartialEq, Eq)]
pub struct Token<'a> {
    /// What it is.
    pub kind: Kind,
    /// Its bytes, which stand in the text at `start`.
    pub text: &'a [u8],
    /// The place of its first byte, counted in bytes from 0.
    pub start: usize,
}

/// Why a text is no row of tokens. A place is counted in bytes from 0.
#[derive(Debug, Drop, Clone, Copy, PartialEq, Eq, Error)]
pub enum LexFault {
    /// At this place stands a byte that begins no token and no gap, as `#`, or a `/` with no other `/` behind it.
    #[error("byte {0} of the text belongs to no token, white space or comment")]
    BadByte(usize),
    /// The text ends in a statement with no `;`, whose first token starts at this place.
    #[error("the statement that begins at byte {0} is not closed by a semicolon")]
    Unclosed(usize),
}

/// The tokens of a text that are left, in order, and then the text's fault if it has one. Behind a fault and at the end
/// it gives nothing more.
///
/// A copy is a bookmark: it goes on from its place.
#[derive(Debug, Clone, Copy)]
pub struct Lexer<'a> {
    source: &'a [u8],
    // where the next token or gap begins
    at: usize,
    // where the statement that is open there began
    begun: Option<usize>,
    ghost within: { at ≤ length source.now },
}

impl<'a> Lexer<'a> {
    ghost use Rattle.svf_lex.specs.Left.{left};
    ghost use Rattle.svf_lex.specs.Cutting.{items_of};
    ghost use Rattle.svf_lex.specs.Statements.{NextOfStatement};

    /// The tokens of a whole text. Takes no memory.
    pub fn new(source: &'a [u8]) -> Lexer<'a>
        ensures { left result ≡ items_of source.now }
    {
        Lexer {
            source,
            at: 0,
            begun: None,
        }
    }

    /// The next token of a statement. At its `;`, at the text's end and at a fault there is none, and what is left
    /// stays; but the gap before that is passed, so that nobody walks through it again.
    pub fn next_of_statement(&mut self) -> Option<Token<'a>>
        ensures { NextOfStatement (left self.old) (left self.new) result }
    {
        match first_token(self.source, self.at) {
            Some(Ok(token)) => {
                if let Kind::Semi = token.kind {
                    self.at = token.start;
                    return None;
                }
                self.at = token.start + token.text.len();
                self.begun = Some(self.begun.unwrap_or(token.start));
                Some(token)
            }
            Some(Err(place)) => {
                self.at = place;
                None
            }
            None => {
                self.at = self.source.len();
                None
            }
        }
    }

    // Nothing is left.
    fn stop(&mut self)
        ensures { left self.new ≡ [] }
    {
        self.at = self.source.len();
        self.begun = None;
    }
}

impl<'a> Iterator for Lexer<'a> {
    type Item = Result<Token<'a>, LexFault>;

    ghost use Rattle.svf_lex.specs.Left.{left, seen};

    ghost next_gives = { YieldsFirstBy seen left };

    ghost remaining = { item_count left };

    fn next(&mut self) -> Option<Result<Token<'a>, LexFault>> {
        match first_token(self.source, self.at) {
            Some(Ok(token)) => {
                self.at = token.start + token.text.len();
                self.begun = match token.kind {
                    Kind::Semi => None,
                    _ => Some(self.begun.unwrap_or(token.start)),
                };
                Some(Ok(token))
            }
            Some(Err(place)) => {
                self.stop();
                Some(Err(LexFault::BadByte(place)))
            }
            None => {
                let begun = self.begun;
                self.stop();
                begun.map(|first| Err(LexFault::Unclosed(first)))
            }
        }
    }
}
