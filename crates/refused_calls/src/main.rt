//! One public call that takes memory, made so that `ci/refused_memory` can refuse each of its requests in turn. One
//! line tells whether the call wanted memory; the others tell what it answered in the end. A call that wanted memory
//! has told nothing else and left what it was given as it was, and the same call, made again, gives the usual answer.
#![tactic(auto)]

mod boards;
mod given;
mod playing;
mod steady;
mod texts;

use std::process::ExitCode;
use std::{env, io};

const USAGE: &str =
    "usage: refused_calls (parse | resolve | accept | read | names | from_text [blocks | strings | \
     circle] | bare | joined | play | all | check) <text, or refused_calls steady (start | bytes | \
     runs | play) <text";

fn main(rt: HostRuntime) -> ExitCode {
    match run(&rt) {
        Ok(()) => ExitCode::SUCCESS,
        Err(_) => ExitCode::FAILURE,
    }
}

/// Makes the call that the first word names, on the text from standard input.
fn run(rt: &HostRuntime) -> io::Result<()> {
    let Ok((call, how, text)) = given::words_and_text(rt) else {
        return rt.println(given::BEFORE);
    };
    match call.as_str() {
        "parse" => texts::parse_text(rt, &text),
        "resolve" => texts::resolve_text(rt, &text),
        "accept" => texts::accept_text(rt, &text),
        "read" => texts::read_text(rt, &text),
        "names" => boards::names_of(rt, &text),
        "from_text" => boards::from_text(rt, how.as_str(), &text),
        "bare" => boards::bare(rt),
        "joined" => playing::join(rt, &text),
        "play" => playing::play(rt, &text, false),
        "all" => playing::play(rt, &text, true),
        "check" => playing::check(rt, &text),
        "steady" => steady::run(rt, how.as_str(), &text),
        _ => rt.println(USAGE),
    }
}
