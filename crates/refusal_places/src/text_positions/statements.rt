//! Where the statements of SVF text start.
ghost use Rattle.std.specs.Prelude.{◌≡◌, ◌≤◌, length, MatchOption, [], ◌∷◌, true};
ghost use Rattle.svf_lex.specs.Left.{left};
ghost use Rattle.refusal_places.specs.Positions.{position_at};
ghost use Rattle.refusal_places.specs.Starts as spec;
ghost use Rattle.refusal_places.specs.Rising.{StartsRise, StartsRise-prop};
ghost use Rattle.refusal_places.specs.Starts.{starts};

use crate::text_positions::advance;
use output_words::Position;
use svf_lex::{Kind, Lexer};

/// Where the statements of SVF text start, one after another: each is the place of its first token. An empty statement
/// has none, and where a byte begins no token, nothing more comes.
#[derive(Debug, Clone, Copy)]
pub struct StatementPositions<'a> {
    text: &'a [u8],
    // the tokens that are left, behind the start that was given last
    lexer: Lexer<'a>,
    // whether a statement is open there
    is_open: bool,
    // an offset before them, and where it stands
    at: usize,
    here: Position,
    ghost within: { at ≤ length text.now },
    ghost stands: { here ≡ position_at text.now at },
    ghost rising: { StartsRise text.now at is_open lexer } by { StartsRise-prop text.now at is_open lexer },
}

impl<'a> StatementPositions<'a> {
    ghost use Rattle.refusal_places.specs.Left.{left_of};

    /// Those of a whole text. Takes no memory.
    pub fn new(text: &'a [u8]) -> StatementPositions<'a>
        ensures { left_of result ≡ spec.places_of text.now }
    {
        svf_lex::tokens_are_slices_in_order();
        StatementPositions {
            text,
            lexer: Lexer::new(text),
            is_open: false,
            at: 0,
            here: Position { line: 1, column: 1 },
        }
    }
}

impl<'a> Iterator for StatementPositions<'a> {
    type Item = Position;

    ghost use Rattle.std.specs.Iterator.{YieldsFirst, item_count};
    ghost use Rattle.refusal_places.specs.Left.{left_of};

    ghost next_gives = { YieldsFirst left_of };

    ghost remaining = { item_count left_of };

    fn next(&mut self) -> Option<Position> {
        let (start, lexer) = next_start(self.lexer, self.is_open)?;
        self.here = advance(self.text, self.at, start, self.here);
        self.at = start;
        self.lexer = lexer;
        self.is_open = true;
        Some(self.here)
    }
}

/// The next start of a statement, and the tokens behind it.
fn next_start<'a>(lexer: Lexer<'a>, is_open: bool) -> Option<(usize, Lexer<'a>)>
    ensures { MatchOption result (starts is_open (left lexer.entry) ≡ [])
        (λ found. starts is_open (left lexer.entry) ≡ found.0 ∷ starts true (left found.1)) }
{
    let mut rest = lexer;
    let mut open = is_open;
    while let Some(Ok(token)) = rest.next() {
        match token.kind {
            Kind::Semi => open = false,
            _ if open => {}
            _ => return Some((token.start, rest)),
        }
    }
    None
}

/// The position of the statement with a number, counted from 1: that of its first token. Empty statements do not count,
/// and there is none where the text has fewer statements before its first byte that begins no token. Takes no memory.
pub fn statement_position(text: &[u8], number: usize) -> Option<Position>
    ensures { result ≡ spec.statement_position text.now number }
{
    let mut before = number.checked_sub(1)?;
    for position in StatementPositions::new(text) {
        if before == 0 {
            return Some(position);
        }
        before -= 1;
    }
    None
}
