//! What a device description gives as a whole (BSDL: IEEE Std 1149.1-2001, Annex B.8): of each attribute what its first
//! giving says, or the first attribute that is missing; and which ports are the TAP's.
#![tactic(auto)]

mod description;
mod first_values;
mod taps;

pub use description::{Description, Taps, Unfit, describe};
pub use taps::names_tap;
