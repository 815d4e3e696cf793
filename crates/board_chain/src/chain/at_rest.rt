//! All devices of a chain at once, without TCK: capture, the judgement of what comes out, shift, update and reset (IEEE
//! Std 1149.1-2001, clauses 6, 7 and 9).

ghost use Rattle.std.specs.Prelude.{◌≡◌, ◌+◌, ◌<◌, ◌^◌, true, length, map};
ghost use Rattle.board_model.specs.Chain.{members};
ghost use Rattle.board_model.specs.Nets.{told};
ghost use Rattle.board_model.specs.Resting.{chip_at_rest};
ghost use Rattle.board_model.specs.Whole as whole;
ghost use Rattle.board_chain.specs.AtRest.{chain_as, shifted_through};
ghost use Rattle.jt_tap.specs.declared.State.TheVariants.{Reset};
ghost use Rattle.scan_vectors.specs.Failures.{differing, found, with_found};
ghost use Rattle.scan_vectors.specs.Held.{bits};
ghost use Rattle.scan_vectors.specs.Vector.{tdis};

use super::Chain;
use crate::scan::note_chain;
use jt_tap::{Column, State};
use scan_vectors::{Failures, Vector};

impl Chain {
    /// The column's register of every device captures, each from the levels and the core bits in force before.
    pub fn capture(&mut self, column: Column)
        ensures { self.new
            ≡ chain_as (whole.capture_all column (told self.old.nets (members self.old.chips)) 0
            (members self.old.chips)) self.old }
    {
        self.settled.capture(column);
    }

    /// Notes every bit of a vector whose wanted value differs from what comes out of the column's registers, joined
    /// from TDO to TDI, when the vector is shifted in.
    pub fn note(&self, column: Column, vector: &Vector, command: usize, failures: &mut Failures)
        requires room { failures.old.total + length (bits vector.now) < 2 ^ 64 }
        ensures { found failures.new ≡ with_found (differing command (bits vector.now)
            (whole.out_of_members column (tdis (bits vector.now)) (members self.now.chips))) (found failures.old) }
    {
        note_chain(self.settled.chips(), column, vector, command, failures);
    }

    /// A whole vector is shifted through the column's registers, joined from TDO to TDI.
    pub fn shift(&mut self, column: Column, vector: &Vector)
        ensures { self.new
            ≡ chain_as (shifted_through column (tdis (bits vector.now)) (members self.old.chips)) self.old }
    {
        self.settled.shift(column, vector);
    }

    /// The column's register of every device updates.
    pub fn update(&mut self, column: Column)
        ensures { self.new ≡ chain_as (map (whole.update_member column) (members self.old.chips)) self.old }
    {
        self.settled.update(column);
    }

    /// Every device is reset, as in RESET.
    pub fn reset(&mut self)
        ensures { self.new ≡ chain_as (map whole.reset_member (members self.old.chips)) self.old }
    {
        self.settled.reset();
    }

    /// Every controller stands in this state, and no TDO is driven.
    pub fn stand(&mut self, state: State)
        ensures { self.new ≡ record self.old { chips = map (chip_at_rest state) (members self.old.chips) } }
    {
        self.settled.stand(state);
    }

    /// TRST is asserted to a chain that rests in a state: a device without the port settles, and every device is reset
    /// and stands in RESET.
    pub fn assert_trst(&mut self, rests: State)
        ensures { self.new ≡ record self.old {
          trst = true;
          chips = map (chip_at_rest Reset)
              (map (whole.trst_member (whole.settled_member rests)) (members self.old.chips));
        } }
    {
        self.settled.assert_trst(rests);
        self.trst = true;
    }
}
