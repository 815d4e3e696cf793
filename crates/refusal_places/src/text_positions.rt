//! Where something stands in a text, as its reader counts: by lines, and by bytes in the line, both from 1.
//!
//! A line ends with a line feed, and with a carriage return that no line feed follows, so CR LF ends one line. Comments
//! of SVF text and of BSDL text end there too.
ghost use Rattle.std.specs.Prelude.{◌≡◌, ◌≤◌, ◌<◌, length};
ghost use Rattle.refusal_places.specs.Positions as positions;
ghost use Rattle.refusal_places.specs.Positions.{position_at};

use output_words::Position;
pub use statements::{StatementPositions, statement_position};

pub mod laws;
mod statements;

/// The line and column of the byte at an offset of a text, or of the text's end where the offset lies beyond it. Takes
/// no memory.
pub fn position_of(text: &[u8], offset: usize) -> Position
    ensures { result ≡ positions.position_of text.now offset }
{
    let start = Position { line: 1, column: 1 };
    advance(text, 0, offset.min(text.len()), start)
}

#[tactic(auto, using(crate::proofs::Small::line_small, crate::proofs::Small::column_small))]
/// Where offset `to` stands, from where `from` does.
fn advance(text: &[u8], from: usize, to: usize, position: Position) -> Position
    requires order { from ≤ to }
    requires within { to ≤ length text.now }
    requires stands { position ≡ position_at text.now from }
    ensures { result ≡ position_at text.now to }
{
    let mut here = position;
    let mut at = from;
    while at < to {
        here = if ends_line(text, at) {
            Position {
                line: here.line + 1,
                column: 1,
            }
        } else {
            Position {
                line: here.line,
                column: here.column + 1,
            }
        };
        at += 1;
    }
    here
}

/// Whether a line ends with the byte at a place.
fn ends_line(text: &[u8], at: usize) -> bool
    requires { at < length text.now }
    ensures { result ≡ positions.ends_line text.now at }
{
    match text[at] {
        b'\n' => true,
        b'\r' => text.get(at + 1) != Some(&b'\n'),
        _ => false,
    }
}
