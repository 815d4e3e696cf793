//! Plays over two pipes, and over a link to a server.

use crate::digests::Digest;
use crate::numbers::Numbers;
use crate::served::{add_report, player_of};
use crate::texts::Text;
use jt_player::{Board, Counted, Joined, Stop, play_over};
use std::alloc::{AllocError, Global};

/// The words of a scan, whose bits are all wanted.
const WORDS: usize = 1024;

/// The rooms of the pipes, and how many scans are played over each.
const ROOMS: &[(usize, usize)] = &[(1, 1), (64, 3), (65536, 3)];

/// The scans that are played over a link.
const LINKED: usize = 16;

/// The most bytes of a read of a link.
const MOST_PIECE: u64 = 256;

pub fn add_all(
    alloc: Global,
    digest: &mut Digest,
    numbers: &mut Numbers,
) -> Result<(), AllocError> {
    for (room, scans) in ROOMS {
        let (text, _) = program(alloc, numbers, *scans)?;
        add_joined(alloc, digest, &text, *room);
    }
    let (text, answers) = program(alloc, numbers, LINKED)?;
    add_linked(alloc, digest, numbers, &text, answers.as_slice());
    Ok(())
}

/// So many scans through one bypass register, and what a bare device answers to them.
fn program(
    alloc: Global,
    numbers: &mut Numbers,
    scans: usize,
) -> Result<(Text, Vec<u8>), AllocError> {
    let mut text = Text::with_room(alloc, scans.saturating_mul(40_000))?;
    let mut answers = Vec::with_capacity(alloc, scans.saturating_mul(64 * WORDS))?;
    let mut words = Vec::with_capacity(alloc, WORDS)?;
    let mut wanted = Vec::with_capacity(alloc, WORDS)?;
    text.add("SIR 2 TDI (3);\n")?;
    for _ in 0..scans {
        draw_words(&mut words, numbers, WORDS)?;
        delay(&mut wanted, words.as_slice())?;
        text.add("SDR 65536")?;
        text.add_field("TDI", words.as_slice())?;
        text.add_field("TDO", wanted.as_slice())?;
        text.add(";\n")?;
        add_answers(&mut answers, wanted.as_slice())?;
    }
    Ok((text, answers))
}

/// Draws so many words.
fn draw_words(words: &mut Vec<u64>, numbers: &mut Numbers, count: usize) -> Result<(), AllocError> {
    words.clear();
    for _ in 0..count {
        words.push(numbers.draw())?;
    }
    Ok(())
}

/// What comes out of one bypass register while these words go in.
fn delay(late: &mut Vec<u64>, words: &[u64]) -> Result<(), AllocError> {
    late.clear();
    let mut before: u64 = 0;
    for word in words {
        late.push((*word << 1) | (before >> 63))?;
        before = *word;
    }
    Ok(())
}

/// Adds the answers that have these bits.
fn add_answers(answers: &mut Vec<u8>, words: &[u64]) -> Result<(), AllocError> {
    for word in words {
        let mut rest = *word;
        for _ in 0..64 {
            answers.push(if rest & 1 == 1 { b'1' } else { b'0' })?;
            rest >>= 1;
        }
    }
    Ok(())
}

/// Plays a text over two pipes of this room on a bare device, and adds how it ends and how the board stands.
fn add_joined(alloc: Global, digest: &mut Digest, text: &Text, room: usize) {
    let (Some(player), Ok(board)) = (player_of(alloc, text), Board::bare(alloc, 1)) else {
        return;
    };
    if room == 0 || !player.is_fresh() {
        return;
    }
    if let Ok(mut joined) = Joined::new(alloc, player, board, room, room) {
        digest.add_ending(joined.finish());
        add_report(alloc, digest, joined.board());
    }
}

/// Plays a text over a link that gives these answers, and adds how it ends and what went out.
fn add_linked(
    alloc: Global,
    digest: &mut Digest,
    numbers: &mut Numbers,
    text: &Text,
    answers: &[u8],
) {
    let Some(player) = player_of(alloc, text) else {
        return;
    };
    if !player.is_fresh() {
        return;
    }
    let piece = numbers.below(MOST_PIECE).saturating_add(1);
    let mut reader = Counted::new(Stop::new(answers, usize::MAX, piece));
    let mut writer = Counted::new(Vec::new(alloc));
    digest.add_ending(play_over(&mut reader, &mut writer, player));
    let bytes = writer.into_inner();
    digest.add_all(bytes.as_slice());
}
