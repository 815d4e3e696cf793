//! What a call is given, and how it is told that it wanted memory.

use byte_streams::Counted;
use jt_player::{Board, write_report};
use std::alloc::{AllocError, Global};
use std::env;
use std::io::{self, Read};

/// Memory was refused before the call was made.
pub(crate) const BEFORE: &str = "call: before";
/// The call wanted memory, and told nothing else.
pub(crate) const REFUSED: &str = "call: refused";
/// The call wanted no memory that was refused.
pub(crate) const USUAL: &str = "call: usual";
/// The call wanted memory, and what it was given is not as it was.
pub(crate) const CHANGED: &str = "call: changed";

/// The first two words, empty where there are fewer, and the text from standard input.
pub(crate) fn words_and_text(rt: &HostRuntime) -> io::Result<(String, String, Vec<u8>)> {
    let mut words = env::args(rt)?;
    let _program = words.next();
    let call = words.next().unwrap_or(String::new(rt.alloc()));
    let how = words.next().unwrap_or(String::new(rt.alloc()));
    let mut text = Vec::new(rt.alloc());
    rt.reader().read_to_end(&mut text)?;
    Ok((call, how, text))
}

/// A board's report.
pub(crate) fn report_of(alloc: Global, board: &Board) -> Result<Vec<u8>, AllocError> {
    let mut out = Counted::new(Vec::new(alloc));
    if out.failures() > 0 {
        return Err(AllocError);
    }
    match write_report(board, &mut out) {
        Ok(()) => Ok(out.into_inner()),
        Err(_) => Err(AllocError),
    }
}
