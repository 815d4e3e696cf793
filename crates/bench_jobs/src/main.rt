//! The jobs that users wait for, on inputs that a seed makes: `bench/run` times them in two builds.
#![tactic(auto)]

mod cpld;
mod described;
mod digests;
mod flash;
mod interconnect;
mod numbers;
mod piped;
mod pool;
mod served;
mod texts;
mod wide;
mod wired;

use std::alloc::{AllocError, Global};
use std::process::ExitCode;
use std::{env, io};

const USAGE: &str =
    "usage: bench_jobs (cpld | flash | interconnect | wide | served | described) SEED ROUNDS, \
     or all SEED ROUNDS";

/// The jobs by their names.
const JOBS: &[(&str, Job)] = &[
    ("cpld", Job::Cpld),
    ("flash", Job::Flash),
    ("interconnect", Job::Interconnect),
    ("wide", Job::Wide),
    ("served", Job::Served),
    ("described", Job::Described),
];

/// What is measured.
#[derive(Drop, Clone, Copy)]
enum Job {
    /// Short statements, played and checked.
    Cpld,
    /// Long fields between headers and trailers.
    Flash,
    /// Scans of whole boundary registers on many nets.
    Interconnect,
    /// A wide board, of which little moves.
    Wide,
    /// Boards played on byte by byte, and plays over pipes and links.
    Served,
    /// Boards of long descriptions.
    Described,
}

impl Job {
    /// A digest of all results of so many rounds, each on inputs of its own.
    fn run(self, alloc: Global, seed: u32, rounds: u32) -> Result<u64, AllocError> {
        match self {
            Job::Cpld => cpld::run(alloc, seed, rounds),
            Job::Flash => flash::run(alloc, seed, rounds),
            Job::Interconnect => interconnect::run(alloc, seed, rounds),
            Job::Wide => wide::run(alloc, seed, rounds),
            Job::Served => served::run(alloc, seed, rounds),
            Job::Described => described::run(alloc, seed, rounds),
        }
    }
}

fn main(rt: HostRuntime) -> ExitCode {
    match run(&rt) {
        Ok(()) => ExitCode::SUCCESS,
        Err(_) => ExitCode::FAILURE,
    }
}

/// Does the job that the words name, or all of them, and prints its digest.
fn run(rt: &HostRuntime) -> io::Result<()> {
    let mut words = env::args(rt)?;
    let _program = words.next();
    let job = words.next();
    let seed = number_of(words.next());
    let rounds = number_of(words.next());
    let (Some(job), Some(seed), Some(rounds)) = (job, seed, rounds) else {
        return rt.println(USAGE);
    };
    for (name, known) in JOBS {
        if job.as_str() == *name || job.as_str() == "all" {
            let digest = known.run(rt.alloc(), seed, rounds)?;
            rt.println(format_args!("{name} {digest}"))?;
        }
    }
    Ok(())
}

fn number_of(word: Option<String>) -> Option<u32> {
    word?.as_str().parse().ok()
}
