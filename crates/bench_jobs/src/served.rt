//! A board is played on by another tool, byte by byte: an interconnect test, and a program of long waits; then plays
//! over pipes and links.

use crate::digests::Digest;
use crate::numbers::Numbers;
use crate::texts::Text;
use crate::{cpld, interconnect, piped};
use jt_player::{
    Board, Counted, Player, Served, Stop, accept, play_noted, serve_over, write_report,
};
use std::alloc::{AllocError, Global};

const JOB: u8 = 5;

/// The scans of the interconnect test, and the rows of the program with waits.
const SCANS: usize = 150;

const ROWS: usize = 500;

/// The most bytes of a read.
const MOST_PIECE: u64 = 4096;

pub fn run(alloc: Global, seed: u32, rounds: u32) -> Result<u64, AllocError> {
    let mut digest = Digest::new();
    for round in 0..rounds {
        let mut numbers = Numbers::of(seed, JOB, round);
        let text = interconnect::program(alloc, &mut numbers, SCANS, false)?;
        if let Some(first) = interconnect::board(alloc, &mut numbers)? {
            if let Some(second) = interconnect::board(alloc, &mut numbers)? {
                add_served(alloc, &mut digest, &mut numbers, &text, first, second);
            }
        }
        let text = cpld::program(alloc, &mut numbers, ROWS, cpld::RUNTEST)?;
        if let Some(first) = cpld::board(alloc, &mut numbers)? {
            if let Some(second) = cpld::board(alloc, &mut numbers)? {
                add_served(alloc, &mut digest, &mut numbers, &text, first, second);
            }
        }
        piped::add_all(alloc, &mut digest, &mut numbers)?;
    }
    Ok(digest.number())
}

/// Plays a text on the first board for its bytes, serves them to the second, and adds the answers and how it stands.
fn add_served(
    alloc: Global,
    digest: &mut Digest,
    numbers: &mut Numbers,
    text: &Text,
    mut first: Board,
    mut second: Board,
) {
    let mut noted = Counted::new(Vec::new(alloc));
    if let Some(player) = player_of(alloc, text) {
        if player.is_fresh() {
            let (ending, _) = play_noted(player, &mut first, &mut noted);
            digest.add_ending(ending);
        }
    }
    let bytes = noted.into_inner();
    let piece = numbers.below(MOST_PIECE).saturating_add(1);
    let mut reader = Counted::new(Stop::new(bytes.as_slice(), usize::MAX, piece));
    let mut writer = Counted::new(Vec::new(alloc));
    let served = serve_over(&mut reader, &mut writer, &mut second, u64::MAX);
    digest.add(u8::from(served == Served::Quit));
    let answers = writer.into_inner();
    digest.add_all(answers.as_slice());
    add_report(alloc, digest, &second);
}

/// A fresh player of a text.
pub fn player_of(alloc: Global, text: &Text) -> Option<Player> {
    Player::new(alloc, accept(alloc, text.bytes()).ok()?).ok()
}

/// Adds how a board stands.
pub fn add_report(alloc: Global, digest: &mut Digest, board: &Board) {
    let mut out = Counted::new(Vec::new(alloc));
    let told = write_report(board, &mut out);
    digest.add(u8::from(told.is_ok()));
    let out = out.into_inner();
    digest.add_all(out.as_slice());
}
