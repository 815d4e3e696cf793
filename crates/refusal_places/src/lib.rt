//! Where a refusal lies, for a user who asks: where in which text, by lines and columns, or the name that it speaks of;
//! a control byte in a name, and the backslash, stand as `\x0a` does, so that no name is told as two lines.
//!
//! A place is found from the refusal and the text alone, by reading the text once more: the reader of a text that is
//! accepted pays nothing for it.
#![tactic(auto)]

ghost use Rattle.refusal_places.specs.PlaceRows.{PlaceRows};
ghost use Rattle.refusal_places.specs.QuotedRows.{QuotedRows};
ghost use Rattle.refusal_places.specs.TokenRows.{MisfitRows, OwnRows};

pub use misfits::a_misfit_is_the_first_with_which_no_statement_goes_on;
pub use refused::{
    place_in_description, refused_board, refused_description, refused_key, refused_text,
    refused_toml,
};
pub use text_positions::laws::{a_statement_stands_at_its_first_token, positions_compute};
pub use text_positions::{StatementPositions, statement_position};

mod misfits;
mod quoted_places;
mod refused;
mod text_positions;
mod token_faults;

/// Refusals with their second lines; statements with the token at fault, of S4 and of the others; and descriptions with
/// the token at fault within their quotes.
pub fn places_compute()
    ensures lines { PlaceRows }
    ensures misfits { MisfitRows }
    ensures own { OwnRows }
    ensures quoted { QuotedRows }
{}
