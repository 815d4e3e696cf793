//! The nets of a board, with what was last put to each pin, and the devices of its chain, each with the nets that its
//! cells are on: what an edge of TCK, TRST and each change at rest do to one of them, and what its pins put to the nets
//! (IEEE Std 1149.1-2001).
#![tactic(auto)]

mod block_numbers;
mod build;
mod chip;
mod driving;
mod planning;
mod refreshing;
mod sighted;
mod strings;
mod wires;
mod wiring;
mod words;

pub use build::all_chips;
pub use chip::WiredChip;
pub use driving::{DrivingPins, driving_pins};
pub use planning::wired_strings;
pub use refreshing::refresh_driving;
pub use strings::{WiredString, settle};
pub use wires::refresh;
pub use wiring::Wiring;
