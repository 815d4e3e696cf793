//! All devices at once, without TCK: capture, shift, update and reset (IEEE Std 1149.1-2001, clauses 6, 7 and 9).

ghost use Rattle.std.specs.Prelude.{◌≡◌, ◌≤◌, true, false, map};
ghost use Rattle.board_model.specs.Chain.{members};
ghost use Rattle.board_model.specs.Nets.{told};
ghost use Rattle.board_model.specs.Resting.{chip_at_rest};
ghost use Rattle.board_model.specs.Whole as whole;
ghost use Rattle.board_chain.specs.AtRest.{AssertsTrst, CapturesAt, Changes, Stands, as_members};
ghost use Rattle.board_chain.specs.AtRest.{in_registers, shifted_through};
ghost use Rattle.board_chain.specs.Settled.{Becomes, as_told};
ghost use Rattle.board_chain.specs.Sweeping.{EachFrom, Still};
ghost use Rattle.board_chips.specs.WiredChips.{chip_state};
ghost use Rattle.board_chips.specs.Wires.{IsWired};
ghost use Rattle.board_chain.specs.Words.{word_bits};
ghost use Rattle.jt_tap.specs.declared.State.TheVariants.{Reset};
ghost use Rattle.scan_vectors.specs.Held.{bits};
ghost use Rattle.scan_vectors.specs.Vector.{tdis};

use super::Settled;
use crate::scan::{shift_chain, shift_word};
use board_chips::{WiredChip, Wiring};
use jt_tap::{Column, State};
use scan_vectors::Vector;

impl Settled {
    /// The column's register of every device captures, each from the levels and the core bits in force before.
    pub(crate) fn capture(&mut self, column: Column)
        ensures { Becomes as_told (in_registers (whole.capture_all column
            (told self.old.nets (members (map chip_state self.old.chips))) 0)) self.old self.new }
    {
        capture_all(&mut self.chips, &self.nets.wiring, column);
    }

    /// A whole vector is shifted through the column's registers, joined from TDO to TDI.
    pub(crate) fn shift(&mut self, column: Column, vector: &Vector)
        ensures { Becomes as_told (in_registers (shifted_through column (tdis (bits vector.now)))) self.old self.new }
    {
        shift_chain(&mut self.chips, column, vector);
    }

    /// The lowest `n` bits of a word are shifted through the column's registers, joined from TDO to TDI, its lowest
    /// first.
    pub(crate) fn shift_word(&mut self, column: Column, bits: u64, n: usize)
        requires { n ≤ 64 }
        ensures { Becomes as_told (in_registers (shifted_through column (word_bits bits n))) self.old self.new }
    {
        shift_word(&mut self.chips, column, bits, n);
    }

    /// The column's register of every device updates; where that may have changed what they drive, that and the strings
    /// are put anew.
    pub(crate) fn update(&mut self, column: Column)
        ensures { Becomes as_told (in_registers (map (whole.update_member column))) self.old self.new }
    {
        if update_all(&mut self.chips, column) {
            self.nets.put_anew(&mut self.chips);
        }
    }

    /// Every device is reset, as in RESET, and what they drive from then on and the strings are put anew.
    pub(crate) fn reset(&mut self)
        ensures { Becomes as_told (in_registers (map whole.reset_member)) self.old self.new }
    {
        reset_all(&mut self.chips);
        self.nets.put_anew(&mut self.chips);
    }

    /// Every controller stands in this state, and no TDO is driven.
    pub(crate) fn stand(&mut self, state: State)
        ensures { Becomes as_told (λ chips. map (chip_at_rest state) (members chips)) self.old self.new }
    {
        stand_all(&mut self.chips, state);
    }

    /// TRST is asserted to all devices at rest in a state, and what they drive from then on and the strings are put
    /// anew.
    pub(crate) fn assert_trst(&mut self, rests: State)
        ensures { Becomes (λ _. true) (λ chips. map (chip_at_rest Reset)
            (map (whole.trst_member (whole.settled_member rests)) (members chips))) self.old self.new }
    {
        assert_trst_all(&mut self.chips, rests);
        self.nets.put_anew(&mut self.chips);
    }
}

/// A capture of all devices. It changes nothing that is driven, so each sees the levels of before.
fn capture_all(chips: &mut [WiredChip], wiring: &Wiring, column: Column)
    requires { IsWired chips.old wiring.now }
    ensures { EachFrom (CapturesAt wiring.now column) 0 chips.old chips.new }
{
    for chip in chips.iter_mut() {
        chip.capture(wiring, column);
    }
}

/// TRST is asserted to all devices at rest in a state.
fn assert_trst_all(chips: &mut [WiredChip], rests: State)
    ensures { EachFrom (AssertsTrst rests) 0 chips.old chips.new }
{
    for chip in chips.iter_mut() {
        chip.assert_trst(rests);
    }
}

/// An update of all devices. Answers whether what a pin drives may have changed.
fn update_all(chips: &mut [WiredChip], column: Column) -> bool
    ensures devices { EachFrom (Changes (whole.update_member column)) 0 chips.old chips.new }
    ensures still { result ≡ false → EachFrom Still 0 chips.old chips.new }
{
    let mut anew = false;
    for chip in chips.iter_mut() {
        if chip.update_anew(column) {
            anew = true;
        }
    }
    anew
}

/// A reset of all devices.
fn reset_all(chips: &mut [WiredChip])
    ensures { EachFrom (Changes whole.reset_member) 0 chips.old chips.new }
{
    for chip in chips.iter_mut() {
        chip.reset();
    }
}

/// Every controller stands in this state.
fn stand_all(chips: &mut [WiredChip], state: State)
    ensures { EachFrom (Stands state) 0 chips.old chips.new }
{
    for chip in chips.iter_mut() {
        chip.stand(state);
    }
}
