//! What a user reads, said once: the exit statuses, the words of levels, bits and bytes as digits, names, where
//! something stands in a text, and how many bits failed.
//!
//! Each has a definition of its bytes, and a call that gives them, writes them, or puts them behind a text that grows.
#![tactic(auto)]

ghost use Rattle.output_words.specs.Rows.{WordRows};

mod digits;
mod levels;
mod lines;
mod names;
mod status;
mod texts;

pub use digits::{digit_of, hex_byte, put_bits, put_hexadecimal, write_bits};
pub use levels::level_word;
pub use lines::{Position, write_position, write_position_line, write_total};
pub use names::{put_shown, write_shown};
pub use status::Status;
pub use texts::put;

/// Names, digits, a position and a total, worked out.
pub fn words_compute()
    ensures { WordRows }
{}
