//! Why bits of a play fail, for a user who asks: what was wanted, and what held the bit that came; and the runs that
//! say so.
//!
//! The reasons are found on a board of their own, on which the program is played once more, so that the play itself is
//! as without them.
#![tactic(auto)]

// The player whose plays are explained, and where refusals lie, with all that they give.
pub use explaining::{Explained, Reasons, explain};
pub use jt_player as plain;
pub use laws::{
    each_listed_bit_has_its_reason, ended_lines_compute, every_failure_is_explained,
    parts_are_called_alike, reasons_alone_are_added,
};
pub use refusal_places as refusals;
pub use runs::{run_loop_explained, run_over_explained, run_play_explained};
pub use telling::{Known, write_explained};

mod explaining;
mod laws;
mod places;
mod runs;
mod telling;
mod wanted;
