//! Runs of bytes that only move TCK.

ghost use Rattle.std.specs.Prelude.{◌≡◌, ◌≤◌, Bool, true, length, take};
ghost use Rattle.std.specs.List.{list_all, prefix_len};
ghost use Rattle.board_model.specs.Chain as chain;
ghost use Rattle.jt_board.specs.Idling as idling;
ghost use Rattle.jt_board.specs.Idling.{Moved, idle_count, idles, is_idle_byte, level};
ghost use Rattle.bitbang_protocol.specs.Protocol.{decode};

use super::Board;
use jt_tap::State;

/// So many bytes are looked at at once.
const PIECE: usize = 64;

impl Board {
    /// Takes as many of the first of these bytes as write TMS low, where every device rests in IDLE or in a pause and
    /// TRST is released: they change nothing but the level of TCK, and none of them has an answer (IEEE Std
    /// 1149.1-2001, clause 6). Elsewhere it takes none. Answers how many.
    ///
    /// The board is as `byte` leaves it after each of them.
    pub fn idle(&mut self, bytes: &[u8]) -> usize
        ensures count { result ≡ idle_count bytes.now self.old }
        ensures few { result ≤ length bytes.now }
        ensures idle { list_all is_idle_byte (take result bytes.now) ≡ true }
        ensures board { self.new ≡ chain.after_bytes (take result bytes.now) self.old }
    {
        if !self.idles() {
            return 0;
        }
        let (count, tck) = idle_run(bytes, self.tck);
        self.tck = tck;
        count
    }

    /// Whether every device rests, and TRST is released.
    fn idles(&self) -> bool
        ensures { result ≡ idles self.now }
    {
        if self.chain.trst() {
            return false;
        }
        for i in 0..self.chain.devices() {
            let chip = self.chain.chip(i);
            if !rests(chip.state(), chip.tdo()) {
                return false;
            }
        }
        true
    }
}

/// Whether a device rests in a state that TMS low keeps and in which nothing works.
fn rests(state: State, tdo: Option<bool>) -> bool
    ensures { result ≡ idling.rests state tdo }
{
    match (state, tdo) {
        (State::Idle | State::DrPause | State::IrPause, None) => true,
        _ => false,
    }
}

/// How many of the first bytes write TMS low, and the level of TCK behind them.
fn idle_run(bytes: &[u8], was: bool) -> (usize, bool)
    ensures count { result.0 ≡ prefix_len is_idle_byte bytes.now }
    ensures few { result.0 ≤ length bytes.now }
    ensures idle { list_all is_idle_byte (take result.0 bytes.now) ≡ true }
    ensures level { Moved (take result.0 bytes.now) was result.1 }
{
    let count = idle_len(bytes);
    (count, level_behind(&bytes[..count], was))
}

/// How many of the first bytes write TMS low. A wait has many, so they are passed a piece at a time.
fn idle_len(bytes: &[u8]) -> usize
    ensures count { result ≡ prefix_len is_idle_byte bytes.now }
    ensures few { result ≤ length bytes.now }
{
    let mut at = 0;
    while bytes.len() - at >= PIECE && are_idle(&bytes[at..at + PIECE]) {
        at += PIECE;
    }
    at + short_len(&bytes[at..])
}

/// The same, byte by byte.
fn short_len(bytes: &[u8]) -> usize
    ensures count { result ≡ prefix_len is_idle_byte bytes.now }
    ensures few { result ≤ length bytes.now }
{
    bytes.iter().take_while(|byte| is_idle_byte(**byte)).count()
}

/// Whether each byte of a piece writes TMS low.
fn are_idle(piece: &[u8]) -> bool
    ensures { result ≡ list_all is_idle_byte piece.now }
{
    // Every byte is looked at, with no way out at the first that does not: so all of them are compared at once.
    let mut all = true;
    for byte in piece {
        all &= is_idle_byte(*byte);
    }
    all
}

/// The level of TCK behind bytes that write TMS low: that of the last of them.
fn level_behind(idle: &[u8], was: bool) -> bool
    requires { list_all is_idle_byte idle.now ≡ true }
    ensures { Moved idle.now was result }
{
    match idle.last() {
        Some(last) => is_high(*last),
        None => was,
    }
}

/// Whether a byte writes TMS low: `0`, `1`, `4` or `5`.
fn is_idle_byte(byte: u8) -> bool
    ensures { result ≡ idling.is_idle_byte byte }
{
    byte & 0xFA == b'0'
}

/// Whether a byte that writes TMS low writes TCK high.
fn is_high(byte: u8) -> bool
    requires { idling.is_idle_byte byte ≡ true }
    ensures { (was : Bool) → result ≡ level (decode byte) was }
{
    byte & 4 != 0
}
