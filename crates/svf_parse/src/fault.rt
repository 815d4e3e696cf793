//! Why reading stops: a refusal, or want of memory.
use svf_words::{Code, SvfFault};

/// Why a statement is not read.
#[derive(Drop, Clone, Copy)]
pub(crate) enum Refusal {
    Code(Code),
    Memory,
}

/// Why a text is not read.
#[derive(Drop, Clone, Copy)]
pub(crate) enum Stop {
    Fault(SvfFault),
    Memory,
}
