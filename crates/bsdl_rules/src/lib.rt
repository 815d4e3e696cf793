//! What may be wrong with a description that is well formed: names given twice, lengths of registers and patterns that
//! do not agree (BSDL: IEEE Std 1149.1-2001, Annex B.8.3 to B.8.14), rows of cells that do not fit (Annex B.8.14), and
//! the limits of this project (docs/bsdl.md).
#![tactic(auto)]

mod again;
mod agreeing;
mod cell_rows;
mod ends;
mod keyed;
mod lengths;
mod limits;
mod naming;

pub use again::given_again;
pub use ends::{captures_one, ends_in_one};
pub use keyed::{KnownByKey, known_by_key, unfit_cell_by_key};
pub use lengths::lengths_fit;
pub use limits::is_within_limits;
pub use naming::{Again, Position};
