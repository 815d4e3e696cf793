//! Worked examples, computed from the definitions: settings, plays on boards, descriptions and board files. And the
//! grammar of descriptions once more, said of whole texts, with the laws that texts are read by it.
#![tactic(auto)]

mod board_files;
mod descriptions;
mod grammar;
mod plays;
mod settings;

pub use board_files::{follow_rows_compute, loop_rows_compute, rows_compute};
pub use descriptions::rows;
pub use grammar::{
    a_text_spells_one_entity, other_texts_are_refused, quoted_texts_are_read, texts_are_read,
    tokens_are_read,
};
pub use plays::{edges_compute, following_computes, plays_compute};
pub use settings::{
    numbers_compute, settings_compute, statements_compute, tokens_compute, words_compute,
};
