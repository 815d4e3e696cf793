//! A chain of simulated devices with the nets between their pins, edge by edge (IEEE Std 1149.1-2001); and a scan
//! through all of it at once, without TCK and without memory, by words of up to 64 bits: what comes out is judged, and
//! the registers take what stays in (Serial Vector Format, revision E, SDR and SIR).
#![tactic(auto)]

mod build;
mod chain;
mod scan;
mod settled;

pub use board_chips::WiredChip;
pub use chain::Chain;
pub use scan::{note_chain, shift_chain};
