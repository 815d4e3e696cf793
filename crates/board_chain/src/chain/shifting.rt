//! All devices of a chain in a Shift state: up to 64 bits through their registers at once (IEEE Std 1149.1-2001,
//! clauses 6, 7 and 9).

ghost use Rattle.std.specs.Prelude.{◌≡◌, ◌≤◌, ℕ};
ghost use Rattle.board_model.specs.Chain.{members};
ghost use Rattle.board_model.specs.Whole.{out_of_members};
ghost use Rattle.board_chain.specs.AtRest.{chain_as, shifted_through};
ghost use Rattle.board_chain.specs.Shifting as shifting;
ghost use Rattle.board_chain.specs.Shifting.{all_shift};
ghost use Rattle.board_chips.specs.WiredChips.{chip_state};
ghost use Rattle.board_chain.specs.Words.{word_bits};

use super::Chain;
use crate::scan::word_out;
use board_chips::WiredChip;
use jt_tap::{Column, State};
use scan_registers::Link;

impl Chain {
    /// Whether every controller stands in the column's Shift state, and every TDO shows the first bit of the column's
    /// register, as a falling edge there leaves it.
    pub fn shifts(&self, column: Column) -> bool
        ensures { result ≡ all_shift column self.now.chips }
    {
        for i in 0..self.devices() {
            if !device_shifts(self.chip(i), column) {
                return false;
            }
        }
        true
    }

    /// What comes out of the column's registers, joined from TDO to TDI, when bits are shifted in, as many as those:
    /// the lowest of `bits` first.
    pub fn word_out(&self, column: Column, bits: u64) -> u64
        ensures { (n : ℕ) → n ≤ 64
            → word_bits result n ≡ out_of_members column (word_bits bits n) (members self.now.chips) }
    {
        word_out(self.settled.chips(), column, bits)
    }

    /// The lowest `n` bits of a word are shifted through the column's registers, joined from TDO to TDI, its lowest
    /// first. No TDO changes before the next falling edge.
    pub fn shift_word(&mut self, column: Column, bits: u64, n: usize)
        requires { n ≤ 64 }
        ensures { self.new
            ≡ chain_as (shifted_through column (word_bits bits n) (members self.old.chips)) self.old }
    {
        self.settled.shift_word(column, bits, n);
    }
}

/// Whether a device stands in the column's Shift state, its TDO the first bit of the column's register.
fn device_shifts(chip: &WiredChip, column: Column) -> bool
    ensures { result ≡ shifting.shifts column (chip_state chip.now) }
{
    if !is_shift_of(column, chip.state()) {
        return false;
    }
    match chip.tdo() {
        Some(tdo) => tdo == (chip.register_word(column, 0) & 1 == 1),
        None => false,
    }
}

/// Whether this is the column's Shift state.
fn is_shift_of(column: Column, state: State) -> bool
    ensures { result ≡ shifting.is_shift_of column state }
{
    match (column, state) {
        (Column::Dr, State::DrShift) | (Column::Ir, State::IrShift) => true,
        _ => false,
    }
}
