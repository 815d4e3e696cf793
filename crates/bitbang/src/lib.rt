//! The bytes of OpenOCD's remote_bitbang protocol, and those of the steps of a program.
#![tactic(auto)]

mod begun;
mod putting;
mod step_bytes;

pub use bitbang_protocol::{
    Cycle, Message, answer, cycle_bytes, decode, decoding_undoes_encoding, encode, read_answer,
};
pub use step_bytes::{Spot, StepBytes};
