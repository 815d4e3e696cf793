//! Texts, and the programs that they are.
use play_direct::accept;
use std::alloc::Global;
use std::io::{self, Read};
use std::time::Instant;
use svf_parse::parse;

/// A text has at most 16 MiB.
const MOST_BYTES: u64 = 16 * 1024 * 1024 + 1;

/// The text from standard input.
fn text(rt: &HostRuntime) -> io::Result<Vec<u8, Global>> {
    let mut text = Vec::new(rt.alloc());
    rt.reader().take(MOST_BYTES).read_to_end(&mut text)?;
    Ok(text)
}

/// The milliseconds since then, 0 where the clock cannot be read: what was made meanwhile is not dropped for it.
pub(crate) fn milliseconds(rt: &HostRuntime, start: &Instant) -> u128 {
    match start.elapsed(rt) {
        Ok(time) => time.as_millis(),
        Err(_) => 0,
    }
}

/// Reads a text from standard input, and tells how many statements it has, and the milliseconds that `parse` took.
pub fn tell_statements(rt: &HostRuntime) -> io::Result<()> {
    let text = text(rt)?;
    let start = Instant::now(rt)?;
    let found = parse(rt.alloc(), &text);
    let parsed = milliseconds(rt, &start);
    match found {
        Ok(statements) => {
            let count = statements.len();
            rt.println(format_args!("{count} statements parse {parsed} ms"))
        }
        Err(fault) => rt.println(fault),
    }
}

/// Reads a text from standard input, and tells how many statements and steps it has, and the milliseconds that `accept`
/// took.
pub fn tell_program(rt: &HostRuntime) -> io::Result<()> {
    let text = text(rt)?;
    let start = Instant::now(rt)?;
    let found = accept(rt.alloc(), &text);
    let accepted = milliseconds(rt, &start);
    match found {
        Ok(program) => {
            let (statements, steps) = (program.statements(), program.len());
            rt.println(format_args!("{statements} statements {steps} steps accept {accepted} ms"))
        }
        Err(fault) => rt.println(fault),
    }
}
