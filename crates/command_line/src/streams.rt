//! The standard streams, of which a caller may have closed some.

use std::fs::File;
use std::os::fd::AsFd;
use std::rt::Files;
use std::{fs, io};

/// What the system says of a descriptor that is closed (EBADF).
const CLOSED: i32 = 9;
/// A folder that is always there. It can be opened, and what it is opened as takes no bytes and gives none.
const ROOT: &str = "/";

/// What stands in the place of standard streams that are closed, so that nothing else that the program opens gets their
/// descriptors. What is read or written there fails, as it does where they are closed.
#[derive(Drop)]
pub struct StandIns {
    _input: Option<File>,
    _output: Option<File>,
    _error: Option<File>,
}

impl StandIns {
    /// Takes the descriptors of the standard streams that are closed, from the lowest on: the system gives out the
    /// lowest that is free.
    pub fn new(rt: &HostRuntime) -> io::Result<StandIns> {
        Ok(StandIns {
            _input: stand_in(rt, &rt.stdin())?,
            _output: stand_in(rt, &rt.stdout())?,
            _error: stand_in(rt, &rt.stderr())?,
        })
    }
}

/// What stands in for a stream, where that is closed.
fn stand_in<R: Files, S: AsFd>(rt: &R, stream: &S) -> io::Result<Option<R::File>> {
    match stream.as_fd().try_clone_to_owned() {
        Err(fault) if fault.raw_os_error() == Some(CLOSED) => Ok(Some(fs::open(rt, ROOT)?)),
        _ => Ok(None),
    }
}
