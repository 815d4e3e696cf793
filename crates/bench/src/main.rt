//! Measures calls of the crates below, for `ci/bench_calls`, which measures the same work in C beside them.
#![tactic(auto)]

use std::process::ExitCode;
use std::{env, io};

pub mod bits;
mod boards;
mod chips;
pub mod descriptions;
mod long_plays;
pub mod programs;
mod rows;
pub mod scans;
mod texts;
mod whole_plays;

fn main(rt: HostRuntime) -> ExitCode {
    let mut words = match env::args(&rt) {
        Ok(words) => words,
        Err(_) => return ExitCode::FAILURE,
    };
    let _program = words.next();
    let told = match words.next() {
        Some(word) if word.as_str() == "run" => measure(&rt),
        Some(word) if word.as_str() == "parse" => programs::tell_statements(&rt),
        Some(word) if word.as_str() == "accept" => programs::tell_program(&rt),
        Some(word) if word.as_str() == "describe" => descriptions::tell_device(&rt),
        Some(word) if word.as_str() == "long" => tell(&rt),
        _ => rt.println("usage: bench run | bench long | bench (parse | accept | describe) <text"),
    };
    if told.is_ok() {
        ExitCode::SUCCESS
    } else {
        ExitCode::FAILURE
    }
}

/// Tells the seconds that have no row in C.
fn tell(rt: &HostRuntime) -> io::Result<()> {
    long_plays::tell(rt)?;
    boards::tell(rt)
}

/// Measures each row and prints it.
fn measure(rt: &HostRuntime) -> io::Result<()> {
    bits::rows(rt)?;
    scans::rows(rt)?;
    chips::rows(rt)?;
    whole_plays::rows(rt)?;
    long_plays::rows(rt)?;
    boards::rows(rt)?;
    texts::rows(rt)?;
    descriptions::rows(rt)
}
