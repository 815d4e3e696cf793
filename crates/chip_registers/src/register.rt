//! A boundary register, as a chip needs it.

ghost use Rattle.std.specs.Prelude.{◌≡◌, ◌≢◌, ◌+◌, ◌<◌, ◌≤◌, ◌⊎◌, ◌++◌, ℕ, Bool, List, drop, length, slice_get, take};
ghost use Rattle.jt_bits.specs.Packed.{has_bit};
ghost use Rattle.jt_bits.specs.Runs.{RunSet};
ghost use Rattle.jt_bits.specs.Shifting.{after_shift};
ghost use Rattle.jt_bits.specs.Words.{bit_of, word_bits};
ghost use Rattle.chip_instructions.specs.declared.Mode.{Mode as TheMode};

use chip_instructions::Mode;

/// A register with a stage that shifts and an update part, both lists of one length.
pub trait Register: Drop {
    /// The bits between TDI and TDO.
    ghost stage: { Self → List Bool };

    /// The bits that the register holds.
    ghost update_part: { Self → List Bool };

    /// The same register with other bits in the two.
    ghost with_parts: { Self → (stage update_part : List Bool) → Self };

    /// What a capture would give the stage.
    ghost captured: { Self → TheMode → List Bool };

    /// What a reset would give the update part.
    ghost at_reset: { Self → List Bool };

    /// The same register when what a cell sees is this bit.
    ghost saw: { Self → ℕ → Bool → Self };

    /// The same register when the core's bit of a cell is this bit.
    ghost cored: { Self → ℕ → Bool → Self };

    /// How many cells it has.
    fn len(&self) -> usize
        ensures value { result ≡ length (stage self.now) }
        ensures update_part { length (update_part self.now) ≡ length (stage self.now) }
        ensures captured { (mode : TheMode) → length (captured self.now mode) ≡ length (stage self.now) }
        ensures at_reset { length (at_reset self.now) ≡ length (stage self.now) };

    /// The bit in the stage of a cell, cell 0 nearest TDO.
    fn get(&self, i: usize) -> bool
        requires { i < length (stage self.now) }
        ensures { slice_get (stage self.now) i ≡ Some result };

    /// Tells a cell, cell 0 nearest TDO, what its port sees.
    fn see(&mut self, cell: usize, bit: bool)
        requires { cell < length (stage self.old) }
        ensures { self.new ≡ saw self.old cell bit };

    /// The core's bit of a cell, cell 0 nearest TDO, is this one from now on; stage and update part are kept.
    fn set_core(&mut self, cell: usize, bit: bool)
        requires { cell < length (stage self.old) }
        ensures { self.new ≡ cored self.old cell bit };

    /// The stage captures under a mode; the update part is kept (clauses 9 and 11).
    fn capture(&mut self, mode: Mode)
        ensures stage { self.new ≡ with_parts self.old (captured self.old mode) (update_part self.old) }
        ensures len { length (stage self.new) ≡ length (stage self.old) };

    /// Shifts the stage one cell towards TDO, this bit into the cell nearest TDI; gives the bit that leaves cell 0
    /// (clauses 9 and 11).
    fn shift_in(&mut self, bit: bool) -> bool
        requires { 0 < length (stage self.old) }
        ensures out { slice_get (stage self.old) 0 ≡ Some result }
        ensures stage { self.new ≡ with_parts self.old (after_shift (stage self.old) bit) (update_part self.old) };

    /// The stage's bits from place `i` on as a number, 64 of them, bit `i` lowest; missing ones are 0.
    fn word_at(&self, i: usize) -> u64
        ensures { (j : ℕ) → j < 64 → has_bit result j ≡ bit_of (stage self.now) (i + j) };

    /// Makes the stage's `n` bits from `at` on those of `bits`, its lowest first, and keeps all others.
    fn put_run(&mut self, at: usize, bits: u64, n: usize)
        requires some { 0 < n }
        requires few { n ≤ 64 }
        requires inside { at + n ≤ length (stage self.old) }
        ensures run { RunSet (stage self.old) (stage self.new) at bits n }
        ensures stage { self.new ≡ with_parts self.old (stage self.new) (update_part self.old) };

    /// The update part becomes the stage (clauses 9 and 11).
    fn update(&mut self)
        ensures { self.new ≡ with_parts self.old (stage self.old) (stage self.old) };

    /// The update part becomes what a reset gives it; the stage is kept (clause 11).
    fn reset(&mut self)
        ensures { self.new ≡ with_parts self.old (stage self.old) (at_reset self.old) };

    /// The stage of a register with parts put in is the first of them.
    ghost stage_of: { (r : Self) (s u : List Bool) → stage (with_parts r s u) ≡ s };

    /// Its update part is the second of them.
    ghost update_of: { (r : Self) (s u : List Bool) → update_part (with_parts r s u) ≡ u };

    /// Of parts put in twice the second hold.
    ghost parts_twice: { (r : Self) (s u t v : List Bool) → with_parts (with_parts r s u) t v ≡ with_parts r t v };

    /// To put in the parts that are there changes nothing.
    ghost parts_same: { (r : Self) → with_parts r (stage r) (update_part r) ≡ r };

    /// What a capture would give does not depend on the stage.
    ghost captured_by_update: { (r : Self) (s : List Bool) (mode : TheMode)
        → captured (with_parts r s (update_part r)) mode ≡ captured r mode };

    /// What a reset would give does not depend on the stage.
    ghost reset_by_update: { (r : Self) (s : List Bool) → at_reset (with_parts r s (update_part r)) ≡ at_reset r };

    /// What a cell sees does not change the stage.
    ghost sees_stage: { (r : Self) (cell : ℕ) (bit : Bool) → stage (saw r cell bit) ≡ stage r };

    /// What a cell sees does not change the update part.
    ghost sees_update: { (r : Self) (cell : ℕ) (bit : Bool) → update_part (saw r cell bit) ≡ update_part r };

    /// What a cell sees changes only what that cell captures.
    ghost sees_alone: { (r : Self) (cell : ℕ) (bit : Bool) (mode : TheMode) (i : ℕ) → i ≢ cell
        → slice_get (captured (saw r cell bit) mode) i ≡ slice_get (captured r mode) i };

    /// What a cell sees does not change what a reset would give.
    ghost sees_reset: { (r : Self) (cell : ℕ) (bit : Bool) → at_reset (saw r cell bit) ≡ at_reset r };

    /// A sight and a change of the parts have one result in either order.
    ghost sees_parts: { (r : Self) (cell : ℕ) (bit : Bool) (s u : List Bool)
        → with_parts (saw r cell bit) s u ≡ saw (with_parts r s u) cell bit };

    /// The core's bit of a cell does not change the stage.
    ghost cores_stage: { (r : Self) (cell : ℕ) (bit : Bool) → stage (cored r cell bit) ≡ stage r };

    /// The core's bit of a cell does not change the update part.
    ghost cores_update: { (r : Self) (cell : ℕ) (bit : Bool) → update_part (cored r cell bit) ≡ update_part r };

    /// The core's bit of a cell changes only what that cell captures.
    ghost cores_alone: { (r : Self) (cell : ℕ) (bit : Bool) (mode : TheMode) (i : ℕ) → i ≢ cell
        → slice_get (captured (cored r cell bit) mode) i ≡ slice_get (captured r mode) i };

    /// The core's bit of a cell does not change what a reset would give.
    ghost cores_reset: { (r : Self) (cell : ℕ) (bit : Bool) → at_reset (cored r cell bit) ≡ at_reset r };

    /// A core's bit and a change of the parts have one result in either order.
    ghost cores_parts: { (r : Self) (cell : ℕ) (bit : Bool) (s u : List Bool)
        → with_parts (cored r cell bit) s u ≡ cored (with_parts r s u) cell bit };

    /// Of what a capture would give, a new update part changes only what is taken from it.
    ghost captured_part: { (r : Self) (mode : TheMode) (i : ℕ)
        → ((s u : List Bool) → length u ≡ length (update_part r)
        → slice_get (captured (with_parts r s u) mode) i ≡ slice_get (captured r mode) i)
        ⊎ ((s u : List Bool) → length u ≡ length (update_part r)
        → slice_get (captured (with_parts r s u) mode) i ≡ slice_get u i) };
}

/// A register that also takes many bits at once.
pub trait WordRegister: Register {
    /// Shifts in the lowest `n` bits of a word, the lowest first, as so many calls of `shift_in`; gives the bits that
    /// leave cell 0, the first of them the lowest. What stands above those has no meaning (clauses 9 and 11).
    fn shift_word(&mut self, bits: u64, n: usize) -> u64
        requires some { 0 < length (Self.stage self.old) }
        requires few { n ≤ 64 }
        ensures out { word_bits result n ≡ take n (Self.stage self.old ++ word_bits bits n) }
        ensures stage { self.new
            ≡ Self.with_parts self.old (drop n (Self.stage self.old ++ word_bits bits n)) (Self.update_part self.old) };
}
