//! Cycles that shift, drawn at once: of a board whose devices all stand in one Shift state they change TCK, TDI and TDO
//! alone (IEEE Std 1149.1-2001, clause 6).

ghost use Rattle.std.specs.Prelude.{◌≡◌, ◌<◌, ◌≤◌, ◌++◌, ◌||◌, false};
ghost use Rattle.byte_streams.specs.Writes.{WritesAll};
ghost use Rattle.jt_bits.specs.Packed.{has_bit};
ghost use Rattle.jt_tap.specs.declared.State.TheVariants.{DrShift, IrShift};
ghost use Rattle.output_words.specs.Digits.{digit};
ghost use Rattle.wave_files.specs.Changes.{stamp};
ghost use Rattle.wave_files.specs.Values.{byte_change, byte_line};
ghost use Rattle.play_drawing.specs.Drawing.{after_drawing, draw};
ghost use Rattle.play_drawing.specs.Shifted as spec;
ghost use Rattle.play_drawing.specs.Shifted.{IsShifting, StandsInShift, edges, edges_text, tdo_bit};

use super::Drawing;
use crate::marks::{Marks, time_after};
use board_chain::Chain;
use byte_streams::{Broken, Counted, Sink, put_all};
use jt_board::Board;
use jt_tap::State;
use wave_files::{is_same_state, write_tck};

/// As many cycles are drawn at once as a word has bits.
const MOST_AT_ONCE: u64 = 64;

/// TDI and TDO of cycles that shift, as bits of words, the first cycle's lowest; behind the last bit of TDO one more.
#[derive(Debug, Clone, Copy)]
struct Lines {
    tdi: u64,
    tdo: u64,
    count: u64,
    last: bool,
}

impl Lines {
    /// TDI of cycle `j`.
    fn tdi(self, j: u64) -> bool
        requires { j < 64 }
        ensures { result ≡ has_bit self.tdi j }
    {
        bit(self.tdi, j)
    }

    /// TDO of cycle `j`, from where TCK goes low.
    fn tdo(self, j: u64) -> bool
        requires { j < 64 }
        ensures { result ≡ tdo_bit self.tdo self.count self.last j }
    {
        if j < self.count {
            bit(self.tdo, j)
        } else {
            self.last
        }
    }
}

impl Drawing {
    /// How many cycles that shift can be drawn at once: none unless the board stands in Shift, and no TDO is drawn but
    /// that of the board.
    pub(crate) fn shifts_at_once(&self) -> u64
        ensures few { result ≤ 64 }
        ensures stands { 0 < result → StandsInShift self.now.board }
        ensures alone { 0 < result → self.now.extras.tdos ≡ false }
    {
        // For the proof alone: what is kept of a board's devices.
        let _ = self.ahead.devices();
        if self.extras.tdos {
            return 0;
        }
        if !stands_in_shift(&self.ahead) {
            return 0;
        }
        MOST_AT_ONCE
    }

    /// Draws what follows where TCK low was drawn of a cycle that shifts: so many times TCK goes high, and low in the
    /// next cycle. TDI of these cycles are the bits of a word, the first one's the lowest.
    pub(crate) fn shift<W: Sink>(
        &mut self,
        tdi: u64,
        count: u64,
        period: u64,
        out: &mut Counted<W>,
    ) -> Result<(), Broken>
        requires none_lost { out.old.failures ≡ 0 }
        requires few { count < 64 }
        requires shifting { IsShifting (has_bit tdi 0) self.old }
        ensures writes { WritesAll W.contents out.old out.new (draw period (edges (has_bit tdi) 0 count) self.old)
            result }
        ensures pen { self.new ≡ after_drawing period (edges (has_bit tdi) 0 count) self.old }
    {
        if count == 0 {
            return put_all(out, b"");
        }
        // For the proof alone: what is kept of a board's devices.
        let _ = self.ahead.devices();
        let tdo = self.ahead.shift_word(tdi, count as usize);
        let _ = self.behind.shift_word(tdi, count as usize);
        let _ = self.ahead.devices();
        let lines = Lines {
            tdi,
            tdo,
            count,
            last: self.ahead.chain().tdo(),
        };
        let written = write_edges(self.marks.time, period, lines, out);
        self.marks = Marks {
            tdi: Some(lines.tdi(count)),
            time: time_after(self.marks.time, count.saturating_mul(period)),
            ..self.marks
        };
        written
    }
}

/// Whether TCK is high, TRST released, and every device stands in the Shift state of one and the same column.
fn stands_in_shift(board: &Board) -> bool
    ensures { result ≡ spec.stands_in_shift board.now }
{
    let lines = board.snapshot();
    lines.tck() && !lines.trst() && are_in_shift(board.chain())
}

/// Whether every device stands in the Shift state of one and the same column.
fn are_in_shift(chain: &Chain) -> bool
    ensures { result ≡ (spec.all_at DrShift chain.now.chips || spec.all_at IrShift chain.now.chips) }
{
    all_at(State::DrShift, chain) || all_at(State::IrShift, chain)
}

/// Whether every device stands in a state.
fn all_at(state: State, chain: &Chain) -> bool
    ensures { result ≡ spec.all_at state chain.now.chips }
{
    for i in 0..chain.devices() {
        if !is_same_state(chain.chip(i).state(), state) {
            return false;
        }
    }
    true
}

/// Writes the edges of cycles that shift, the first of them at a time.
fn write_edges<W: Sink>(
    time: u64,
    period: u64,
    lines: Lines,
    out: &mut Counted<W>,
) -> Result<(), Broken>
    requires none_lost { out.old.failures ≡ 0 }
    requires few { lines.count < 64 }
    ensures { WritesAll W.contents out.old out.new
        (edges_text period time (has_bit lines.tdi) (tdo_bit lines.tdo lines.count lines.last) 0 lines.count) result }
{
    let mut high = time;
    for j in 0..lines.count {
        let low = time_after(high, period / 2);
        let tdi = tdi_line(lines.tdi(j), lines.tdi(j + 1));
        let tdo = tdo_line(lines.tdo(j), lines.tdo(j + 1));
        write_two_edges(high, low, tdi, tdo, out)?;
        high = time_after(low, period - period / 2);
    }
    Ok(())
}

/// Writes that TCK goes high and low, and what else is to be told where it is low.
fn write_two_edges<W: Sink>(
    high: u64,
    low: u64,
    tdi: &[u8],
    tdo: &[u8],
    out: &mut Counted<W>,
) -> Result<(), Broken>
    requires { out.old.failures ≡ 0 }
    ensures { WritesAll W.contents out.old out.new
        (spec.high_text high ++ (stamp low ++ (byte_line 0 (digit false) ++ (tdi.now ++ tdo.now)))) result }
{
    write_tck(high, b'1', out)?;
    write_tck(low, b'0', out)?;
    put_all(out, tdi)?;
    put_all(out, tdo)
}

/// The line of TDI where it changes.
fn tdi_line(was: bool, is: bool) -> &'static [u8]
    ensures { result.now ≡ byte_change 2 (digit was) (digit is) }
{
    match (was, is) {
        (true, false) => b"0#\n",
        (false, true) => b"1#\n",
        _ => b"",
    }
}

/// The line of TDO where it changes.
fn tdo_line(was: bool, is: bool) -> &'static [u8]
    ensures { result.now ≡ byte_change 3 (digit was) (digit is) }
{
    match (was, is) {
        (true, false) => b"0$\n",
        (false, true) => b"1$\n",
        _ => b"",
    }
}

/// Bit `j` of a word.
fn bit(word: u64, j: u64) -> bool
    requires { j < 64 }
    ensures { result ≡ has_bit word j }
{
    word >> j & 1 == 1
}
