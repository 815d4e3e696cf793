//! Digests of what calls answer.

use jt_player::{Board, Counted, Ending, run_check, run_play, run_play_all};
use std::alloc::Global;

/// A number of all bytes in their order, by Fowler, Noll and Vo (FNV-1a of 64 bits).
#[derive(Drop)]
pub struct Digest {
    number: u64,
}

impl Digest {
    pub fn new() -> Self {
        Digest {
            number: 0xCBF2_9CE4_8422_2325,
        }
    }

    pub fn number(&self) -> u64 {
        self.number
    }

    pub fn add(&mut self, byte: u8) {
        self.number = (self.number ^ u64::from(byte)).wrapping_mul(0x0000_0100_0000_01B3);
    }

    pub fn add_all(&mut self, bytes: &[u8]) {
        for byte in bytes {
            self.add(*byte);
        }
    }

    /// Adds the exit status of an ending and the command that it names.
    pub fn add_ending(&mut self, ending: Ending) {
        self.add(ending.status());
        let command = match ending {
            Ending::Pass => 0,
            Ending::Fail { command, .. } => command,
            Ending::Lost { command } => command,
            Ending::BadAnswer { command, .. } => command,
        };
        self.add_all(&command.to_le_bytes());
    }
}

/// What a run does with a text.
#[derive(Drop, Clone, Copy)]
pub enum Run {
    Play,
    PlayAll,
    Check,
}

/// Runs a text on a board, and adds all that is told, and the status.
pub fn add_run(alloc: Global, digest: &mut Digest, run: Run, text: &[u8], board: &mut Board) {
    let mut out = Counted::new(Vec::new(alloc));
    let mut err = Counted::new(Vec::new(alloc));
    let status = match run {
        Run::Play => run_play(alloc, text, board, false, &mut out, &mut err),
        Run::PlayAll => run_play_all(alloc, text, board, false, &mut out, &mut err),
        Run::Check => run_check(alloc, text, board, &mut out, &mut err),
    };
    digest.add(status.unwrap_or(u8::MAX));
    let out = out.into_inner();
    digest.add_all(out.as_slice());
    let err = err.into_inner();
    digest.add_all(err.as_slice());
}
