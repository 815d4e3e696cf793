//! What the words of SVF text say each for itself (Serial Vector Format, revision E): keywords, states, and numbers,
//! exactly; and the refusals of a text, by their numbers.
//!
//! A word is a run, `(` or `)`. Which words are a statement, and what they say together, is not looked at here.
#![tactic(auto)]

mod fault;
mod keywords;
mod laws;
mod number_laws;
mod numbers;
mod words;

pub use fault::{Code, SvfFault};
pub use keywords::{
    Clock, Command, FieldName, TrstWord, Which, clock_of, command_of, field_of, state_of, trst_of,
};
pub use laws::keywords_are_read_in_any_case;
pub use number_laws::{
    measures_are_exact, numbers_are_limited, numbers_are_read_as_they_are_written,
};
pub use numbers::{count, length, length_value, period, time};
pub use words::{is_close, is_number, is_open, reads, take_word};
