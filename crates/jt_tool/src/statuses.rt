//! The exit statuses of what was told.

use board_description::Untold;
use byte_streams::Broken;
use output_words::Status;
use std::fmt;

/// The exit status that an answer says, or that what was told was lost.
pub(crate) fn or_lost(told: Result<u8, Broken>) -> u8 {
    told.unwrap_or(Status::Lost.number())
}

/// The same of what may have wanted memory too.
pub(crate) fn status_of<R: Eprint>(rt: &R, told: Result<u8, Untold>) -> u8 {
    match told {
        Ok(status) => status,
        Err(Untold::Broken) => Status::Lost.number(),
        Err(Untold::NoMemory) => tell_memory(rt),
    }
}

/// Writes a line to standard error. Answers this exit status, or that the line was lost.
pub(crate) fn tell_line<R: Eprint, T: fmt::Display + Drop>(rt: &R, line: T, status: Status) -> u8 {
    if rt.eprintln(line).is_err() {
        Status::Lost.number()
    } else {
        status.number()
    }
}

/// Writes that memory ran out. Answers the exit status.
pub(crate) fn tell_memory<R: Eprint>(rt: &R) -> u8 {
    tell_line(rt, "memory", Status::NoMemory)
}
