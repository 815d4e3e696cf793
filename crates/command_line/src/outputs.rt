//! What would be lost where a file is made anew.

use crate::nodes::{Node, known, node_of};
use crate::request::Request;
use crate::texts::InputFault;
use std::alloc::Global;
use std::fs;
use std::fs::Metadata;
use std::io::Read;
use std::os::unix::fs::FileTypeExt;
use std::rt::Files;

/// The standard streams, by their names as files.
const STANDARD_INPUT: &str = "/dev/stdin";

const STANDARD_OUTPUT: &str = "/dev/stdout";

const STANDARD_ERROR: &str = "/dev/stderr";
/// What is written there is to be lost.
const NULL_DEVICE: &str = "/dev/null";

/// Whether a name is one more of a file that the request has a use for: its text, its board file or one of the board's
/// descriptions, standard output or standard error. The null device is none of these.
pub fn is_in_use<R: Files>(
    rt: &R,
    name: &str,
    request: &Request<'_>,
    descriptions: &[String],
) -> Result<bool, InputFault> {
    let Some(known) = known(rt, name)? else {
        return Ok(false);
    };
    let node = node_of(&known);
    if is_called(rt, node, NULL_DEVICE)? {
        return Ok(false);
    }
    let text = request.svf.unwrap_or(STANDARD_INPUT);
    let board = request.board.unwrap_or(text);
    Ok(
        is_called(rt, node, text)?
            || is_called(rt, node, board)?
            || is_called(rt, node, STANDARD_OUTPUT)?
            || is_called(rt, node, STANDARD_ERROR)?
            || has_one_of(rt, node, descriptions)?,
    )
}

/// Whether this file has one of these names.
fn has_one_of<R: Files>(rt: &R, node: Node, names: &[String]) -> Result<bool, InputFault> {
    for name in names {
        if is_called(rt, node, name.as_str())? {
            return Ok(true);
        }
    }
    Ok(false)
}

/// Whether this file has that name.
fn is_called<R: Files>(rt: &R, node: Node, name: &str) -> Result<bool, InputFault> {
    Ok(known(rt, name)?.is_some_and(|known| node_of(&known) == node))
}

/// The first bytes of what a file keeps, so many at most: none where it is not there, or is a folder, a pipe, a
/// terminal or another device that keeps nothing.
pub fn head_of<R: Files + AllocGlobal>(
    rt: &R,
    alloc: Global,
    name: &str,
    most: u64,
) -> Result<Vec<u8>, InputFault> {
    let mut head = Vec::new(alloc);
    if known(rt, name)?.is_some_and(|known| keeps_bytes(&known)) {
        fs::open(rt, name)?.take(most).read_to_end(&mut head)?;
    }
    Ok(head)
}

/// Whether bytes are kept there: in a file that is not empty, or on a disk.
fn keeps_bytes(known: &Metadata) -> bool {
    known.is_file() && known.len() > 0 || known.file_type().is_block_device()
}
