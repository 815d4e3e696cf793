//! Why no board was made, and where it is asked for where that lies.

use jt_board::{BoardFault, BoardTable};
use std::alloc::AllocError;

/// Why no board was made. Where it is to be told where a refusal lies, one of a text, a key or a description comes with
/// what tells that.
#[derive(Drop)]
pub enum Unmade {
    /// A file of this name cannot be read.
    Unreadable(String),
    /// The board file is refused, or memory ran out.
    Refused(BoardFault),
    /// The board file is no TOML.
    NoToml(NoToml),
    /// A key of the board file is at fault.
    RefusedKey(RefusedKey),
    /// The description in a file is refused.
    RefusedFile(RefusedFile),
}

impl From<AllocError> for Unmade {
    fn from(_: AllocError) -> Unmade {
        Unmade::Refused(BoardFault::NoMemory)
    }
}

/// A board file that is no TOML.
#[derive(Drop)]
pub struct NoToml {
    /// Its text.
    pub text: Vec<u8>,
    /// The place where it stops being TOML.
    pub place: Option<usize>,
}

/// A key of a board file that is at fault.
#[derive(Drop)]
pub struct RefusedKey {
    /// The refusal.
    pub fault: BoardFault,
    /// The table in which it stands.
    pub table: Option<BoardTable>,
}

impl RefusedKey {
    /// The key.
    pub fn key(&self) -> &str {
        match &self.fault {
            BoardFault::BadField(key) => key.as_str(),
            _ => "",
        }
    }
}

/// A description that is refused.
#[derive(Drop)]
pub struct RefusedFile {
    /// The refusal.
    pub fault: BoardFault,
    /// The name of its file.
    pub name: String,
    /// Its text.
    pub text: Vec<u8>,
}
