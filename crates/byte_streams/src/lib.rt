//! Ends of a byte connection, and what a program remembers of their calls.
//!
//! A [`Source`] hears bytes, a [`Sink`] is handed bytes, and an [`End`] does both. [`Counted`] wraps any of
//! them and notes the first call that lost the connection, so that a caller can tell a loss from an answer.
#![tactic(auto)]

mod adapters;
mod counting;
mod ends;
mod memory;
mod socket;

pub use adapters::{Both, Plain};
pub use counting::{Broken, Counted, put_all, put_pieces};
pub use ends::{End, Sink, Source};
