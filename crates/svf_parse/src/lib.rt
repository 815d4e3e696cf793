//! The statements of SVF text (Serial Vector Format, revision E): as they are written, with each number as its word
//! and each field as its digits, and what they say.
//!
//! [`parse`] reads a whole text: either all its statements in order, or its first refusal. What the statements set for
//! each other, such as the lengths and masks that a scan takes over, is not looked at here. [`next_statement`] reads
//! one statement of a text, for a caller that does not keep them all.
#![tactic(auto)]

mod fault;
mod fields;
mod form_laws;
mod forms;
mod judging;
mod laws;
mod run_test;
mod statement;
mod text;

pub use form_laws::forms_are_read_as_they_are_written;
pub use laws::{
    a_field_has_the_value_of_its_digits, a_text_is_judged_once, texts_are_limited,
    the_lowest_refusal_is_told,
};
pub use statement::Statement;
pub use svf_words::{Code, SvfFault, TrstWord, Which};
pub use text::{lexer_of, next_statement, parse};
