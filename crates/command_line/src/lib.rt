//! What the words of a command line ask for, and what a command works on as it comes: the words, the texts, the board,
//! the connections.
#![tactic(auto)]

mod boards;
mod command_table;
mod commands;
mod descriptions;
mod help;
mod links;
mod nodes;
mod outputs;
mod request;
mod streams;
mod texts;
mod unmade;
mod usage;
mod words;

pub use boards::{Planned, make_board, plan_board};
pub use links::{Link, connect, listen, next_client, pair};
pub use outputs::{head_of, is_in_use};
pub use request::{Request, Server, Serving, Task, Waves, parse};
pub use streams::StandIns;
pub use texts::{InputFault, read_text};
pub use unmade::{NoToml, RefusedFile, RefusedKey, Unmade};
pub use usage::usage_is_read;
pub use words::command_words;
