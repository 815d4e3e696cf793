//! Calls that play a program on a board, or check one.

use crate::boards::tell_report;
use crate::given::{BEFORE, CHANGED, REFUSED, USUAL, report_of};
use byte_streams::{Counted, Plain};
use jt_player::{
    Board, Ending, Joined, Kind, Player, Unjoined, accept, run_check, run_play, run_play_all,
};
use std::alloc::Global;
use std::io;

/// How many bare devices programs are played on.
const DEVICES: usize = 2;

/// Room for bytes and for answers.
const ROOM: usize = 64;

/// The status of a run that wanted memory.
const NO_MEMORY: u8 = 4;

/// What a run that could not write answers here.
const BROKEN: u8 = 255;

/// A fresh player of a text and a board; `None` for want of memory or where the text is refused.
pub(crate) fn player_and_board(alloc: Global, text: &[u8]) -> Option<(Player, Board)> {
    let program = accept(alloc, text).ok()?;
    let board = Board::bare(alloc, DEVICES).ok()?;
    Some((Player::new_all(program), board))
}

/// A player and a board are joined by two pipes and play to the end.
pub(crate) fn join(rt: &HostRuntime, text: &[u8]) -> io::Result<()> {
    match player_and_board(rt.alloc(), text) {
        Some((player, board)) => match report_of(rt.alloc(), &board) {
            Ok(before) => join_both(rt, player, board, &before),
            Err(_) => rt.println(BEFORE),
        },
        None => rt.println(BEFORE),
    }
}

/// Joins a fresh player and a board, which reports this.
fn join_both(rt: &HostRuntime, player: Player, board: Board, before: &[u8]) -> io::Result<()> {
    let steps = player.program().len();
    if !player.is_fresh() {
        return rt.println(CHANGED);
    }
    match Joined::new(rt.alloc(), player, board, ROOM, ROOM) {
        Ok(mut joined) => tell_joined(rt, USUAL, &mut joined),
        Err(back) => join_again(rt, back, steps, before),
    }
}

/// What came back for want of memory is as it was, and is joined again.
fn join_again(rt: &HostRuntime, back: Unjoined, steps: usize, before: &[u8]) -> io::Result<()> {
    if !is_as_it_was(rt.alloc(), &back, steps, before) || !back.player.is_fresh() {
        return rt.println(CHANGED);
    }
    match Joined::new(rt.alloc(), back.player, back.board, ROOM, ROOM) {
        Ok(mut joined) => tell_joined(rt, REFUSED, &mut joined),
        Err(_) => rt.println(format_args!("{REFUSED}\nno memory")),
    }
}

/// Whether what came back is a fresh player of so many steps, and a board that reports this.
fn is_as_it_was(alloc: Global, back: &Unjoined, steps: usize, before: &[u8]) -> bool {
    back.player.is_fresh()
        && back.player.kind() == Kind::PlaysOn
        && back.player.program().len() == steps
        && back.player.failures().total == 0
        && report_of(alloc, &back.board).is_ok_and(|after| after.as_slice() == before)
}

/// Tells whether the call wanted memory, how the joined play ends, what failed in it, and how its board stands then.
fn tell_joined(rt: &HostRuntime, first: &str, joined: &mut Joined) -> io::Result<()> {
    rt.println(first)?;
    let ending: Ending = joined.finish();
    let total = joined.failures().total;
    rt.println(format_args!("{ending:?} {total}"))?;
    tell_report(rt, joined.board())
}

/// A program's text is played, up to its first failure or to its end.
pub(crate) fn play(rt: &HostRuntime, text: &[u8], all: bool) -> io::Result<()> {
    match Board::bare(rt.alloc(), DEVICES) {
        Ok(mut board) => play_on(rt, text, all, &mut board),
        Err(_) => rt.println(BEFORE),
    }
}

/// The same on this board.
fn play_on(rt: &HostRuntime, text: &[u8], all: bool, board: &mut Board) -> io::Result<()> {
    let Ok(before) = report_of(rt.alloc(), board) else {
        return rt.println(BEFORE);
    };
    let status = played(rt, text, all, board);
    if status != NO_MEMORY {
        return rt.println(format_args!("{USUAL}\nstatus {status}"));
    }
    if report_of(rt.alloc(), board).is_ok_and(|after| after.as_slice() == before.as_slice()) {
        rt.println(REFUSED)?;
        let status = played(rt, text, all, board);
        return rt.println(format_args!("status {status}"));
    }
    rt.println(CHANGED)
}

fn played(rt: &HostRuntime, text: &[u8], all: bool, board: &mut Board) -> u8 {
    let mut out = Counted::new(Plain(io::writer(rt)));
    let mut err = Counted::new(Plain(rt.stderr()));
    if out.failures() > 0 || err.failures() > 0 {
        return BROKEN;
    }
    let status = if all {
        run_play_all(rt.alloc(), text, board, true, &mut out, &mut err)
    } else {
        run_play(rt.alloc(), text, board, true, &mut out, &mut err)
    };
    status.unwrap_or(BROKEN)
}

/// A program's text is checked.
pub(crate) fn check(rt: &HostRuntime, text: &[u8]) -> io::Result<()> {
    match Board::bare(rt.alloc(), DEVICES) {
        Ok(board) => check_on(rt, text, &board),
        Err(_) => rt.println(BEFORE),
    }
}

/// The same with this board.
fn check_on(rt: &HostRuntime, text: &[u8], board: &Board) -> io::Result<()> {
    let status = checked(rt, text, board);
    if status != NO_MEMORY {
        return rt.println(format_args!("{USUAL}\nstatus {status}"));
    }
    rt.println(REFUSED)?;
    let status = checked(rt, text, board);
    rt.println(format_args!("status {status}"))
}

fn checked(rt: &HostRuntime, text: &[u8], board: &Board) -> u8 {
    let mut out = Counted::new(Plain(io::writer(rt)));
    let mut err = Counted::new(Plain(rt.stderr()));
    if out.failures() > 0 || err.failures() > 0 {
        return BROKEN;
    }
    run_check(rt.alloc(), text, board, &mut out, &mut err).unwrap_or(BROKEN)
}
