//! What of a device description is too long or too short, where a length does not fit or a limit is passed: the word
//! that tells it (BSDL: IEEE Std 1149.1-2001, Annex B.8.3 to B.8.14).
//!
//! It is found from the text alone, by reading it once more: the reader of a text that is accepted pays nothing for it.
#![tactic(auto)]

ghost use Rattle.bsdl_sizes.specs.SizeRows.{SizeRows};

pub use sizes::{Refused, spot_at_fault};
pub use spots::Spot;

mod lengths;
mod limits;
mod sizes;
mod spots;

/// Descriptions that are refused for a length or a limit, each with the word that tells it.
pub fn sizes_compute()
    ensures { SizeRows }
{}
