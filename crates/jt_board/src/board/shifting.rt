//! Runs of cycles in a Shift state.

ghost use Rattle.std.specs.Prelude.{◌≡◌, ◌<◌, ◌≤◌, true};
ghost use Rattle.bitbang_protocol.specs.Cycles.{closed_messages};
ghost use Rattle.board_model.specs.Chain as chain;
ghost use Rattle.board_chain.specs.Shifting.{all_shift};
ghost use Rattle.jt_board.specs.Shifting as shifting;
ghost use Rattle.jt_board.specs.Shifting.{shift_column, shift_cycles};
ghost use Rattle.board_chain.specs.Words.{word_bits};

use super::Board;
use jt_tap::{Column, State};

impl Board {
    /// Whether TCK is low, TRST released, and every device stands in the Shift state of one and the same column, its
    /// TDO the first bit of that register, as a falling edge there leaves it.
    pub fn shifts(&self) -> bool
        ensures { result ≡ shifting.shifts self.now }
    {
        if self.tck || self.chain.trst() {
            return false;
        }
        self.chain.shifts(Column::Dr) || self.chain.shifts(Column::Ir)
    }

    /// `n` cycles of TCK at once, all with TMS low, on a board that shifts (asked): the lowest `n` bits of `bits` are
    /// shifted in, the lowest first. Answers what TDO showed before each rising edge, that of the first the lowest bit
    /// (IEEE Std 1149.1-2001, clauses 6 and 9).
    ///
    /// The board is as `byte` leaves it after the bytes of those cycles and the byte that writes TCK low behind them.
    pub fn shift_word(&mut self, bits: u64, n: usize) -> u64
        requires shifts { shifting.shifts self.old ≡ true }
        requires some { 0 < n }
        requires few { n ≤ 64 }
        ensures { chain.hear (closed_messages (shift_cycles (word_bits bits n))) self.old
            ≡ record { answers = word_bits result n; board = self.new } }
    {
        let column = self.shift_column();
        let out = self.chain.word_out(column, bits);
        self.chain.shift_word(column, bits, n);
        self.chain.fall();
        out
    }

    /// The column whose Shift state the devices of a board that shifts (asked) stand in.
    fn shift_column(&self) -> Column
        requires { shifting.shifts self.now ≡ true }
        ensures shifts { all_shift result self.now.chips ≡ true }
        ensures column { result ≡ shift_column self.now }
    {
        match self.chain.chip(0).state() {
            State::IrShift => Column::Ir,
            _ => Column::Dr,
        }
    }
}
