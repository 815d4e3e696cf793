//! The inputs of a command; or the exit status, where there are none, once it was told why.

use crate::explained::accept_text;
use crate::statuses::or_lost;
use byte_streams::{Counted, Plain};
use command_line::{InputFault, read_text};
use play_explained::plain::{Program, refuse_file, refuse_memory};
use std::alloc::Global;

/// Reads a text.
pub(crate) fn read_input(
    rt: &HostRuntime,
    alloc: Global,
    name: Option<&str>,
) -> Result<Vec<u8>, u8> {
    match read_text(rt, alloc, name) {
        Ok(text) => Ok(text),
        Err(fault) => Err(refuse_input(rt, name.unwrap_or("-"), fault)),
    }
}

/// Reads and accepts a text. No connection is opened where that fails.
pub(crate) fn read_accepted(
    rt: &HostRuntime,
    alloc: Global,
    name: Option<&str>,
    explain: bool,
) -> Result<(Vec<u8>, Program), u8> {
    let text = read_input(rt, alloc, name)?;
    match accept_text(rt, alloc, &text, explain) {
        Ok(program) => Ok((text, program)),
        Err(status) => Err(status),
    }
}

/// The program of a text that is read, accepted and let go.
pub(crate) fn read_program(
    rt: &HostRuntime,
    alloc: Global,
    name: Option<&str>,
    explain: bool,
) -> Result<Program, u8> {
    let text = read_input(rt, alloc, name)?;
    accept_text(rt, alloc, &text, explain)
}

/// Tells that a file cannot be read, or that memory ran out for it. Answers the exit status.
pub(crate) fn refuse_input(rt: &HostRuntime, name: &str, fault: InputFault) -> u8 {
    let mut err = Counted::new(Plain(rt.stderr()));
    let status = match fault {
        InputFault::Unreadable => refuse_file(name, &mut err),
        InputFault::NoMemory => refuse_memory(&mut err),
    };
    or_lost(status)
}
