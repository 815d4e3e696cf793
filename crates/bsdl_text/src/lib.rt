//! Reading a device description from left to right (BSDL: IEEE Std 1149.1-2001, Annex B): its tokens; names in any
//! case, keywords, whole numbers of any length, lists with separators, and the text of joined strings. Each reader
//! answers what stands next or the place of the first token that does not fit.
#![tactic(auto)]

mod digits;
mod laws;
mod lists;
mod names;
mod reading;
mod strings;
mod tokens;

pub use digits::Digits;
pub use laws::names_match_in_any_case;
pub use lists::{Entry, listed, room_for_one};
pub use names::Word;
pub use reading::{
    Stop, closes, is_over, keyword, mark, number, same_name, stands, stands_for, word,
};
pub use strings::joined_text;
pub use tokens::{Kind, Lexer, Token, bad_byte};
