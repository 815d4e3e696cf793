//! The texts that are read: a program, a board file, descriptions of devices.

use jt_limits::LIMITS;
use std::alloc::{AllocError, Global};
use std::io::{ErrorKind, Read};
use std::rt::Files;
use std::{fs, io};

/// A text has at most 16 MiB; one byte more is read, so that a longer one is refused and not cut.
const MOST_BYTES: u64 = LIMITS.text_bytes as u64 + 1;
/// A description of a device has at most 4 MiB; one byte more is read, so that a longer one is refused and not cut.
const MOST_DESCRIPTION_BYTES: u64 = LIMITS.description_bytes as u64 + 1;

/// Why a text was not read.
#[derive(Clone, Copy)]
pub enum InputFault {
    /// It cannot be opened or read, or a board file is too long.
    Unreadable,
    /// Memory ran out.
    NoMemory,
}

impl From<io::Error> for InputFault {
    fn from(error: io::Error) -> InputFault {
        if error.kind() == ErrorKind::OutOfMemory {
            InputFault::NoMemory
        } else {
            InputFault::Unreadable
        }
    }
}

impl From<AllocError> for InputFault {
    fn from(_: AllocError) -> InputFault {
        InputFault::NoMemory
    }
}

/// Reads a board file; one of more than 16 MiB counts as unreadable.
pub(crate) fn read_board_file<R: Files + Input + AllocGlobal>(
    rt: &R,
    alloc: Global,
    name: &str,
) -> Result<Vec<u8>, InputFault> {
    let text = read_text(rt, alloc, Some(name))?;
    if text.len() as u64 == MOST_BYTES {
        return Err(InputFault::Unreadable);
    }
    Ok(text)
}

/// Reads a description of a device: all of it, or its first 4 MiB and one byte, which the reader of descriptions
/// refuses as too long.
pub(crate) fn read_description<R: Files + Input + AllocGlobal>(
    rt: &R,
    alloc: Global,
    name: &str,
) -> Result<Vec<u8>, InputFault> {
    let mut text = Vec::new(alloc);
    fs::open(rt, name)?
        .take(MOST_DESCRIPTION_BYTES)
        .read_to_end(&mut text)?;
    Ok(text)
}

/// Reads the text of a program, from the named file, or from standard input where none is named: all of it, or its
/// first 16 MiB and one byte, which the reader of programs refuses as too long.
pub fn read_text<R: Files + Input + AllocGlobal>(
    rt: &R,
    alloc: Global,
    name: Option<&str>,
) -> Result<Vec<u8>, InputFault> {
    let mut text = Vec::new(alloc);
    match name {
        Some(name) => fs::open(rt, name)?.take(MOST_BYTES).read_to_end(&mut text)?,
        None => rt.reader().take(MOST_BYTES).read_to_end(&mut text)?,
    };
    Ok(text)
}
