//! What names of files stand for.

use crate::texts::InputFault;
use std::fs;
use std::fs::Metadata;
use std::io::ErrorKind;
use std::os::unix::fs::MetadataExt;
use std::rt::Files;

/// What a file is, whatever it is called: its device, and its number there.
pub(crate) type Node = (u64, u64);

/// What is known of what a name stands for, where that can be asked for.
pub(crate) fn known<R: Files>(rt: &R, name: &str) -> Result<Option<Metadata>, InputFault> {
    match fs::metadata(rt, name) {
        Ok(known) => Ok(Some(known)),
        Err(fault) if fault.kind() == ErrorKind::OutOfMemory => Err(InputFault::NoMemory),
        Err(_) => Ok(None),
    }
}

/// Which file is known so.
pub(crate) fn node_of(known: &Metadata) -> Node {
    (known.dev(), known.ino())
}
