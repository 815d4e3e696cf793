//! A device as a link of the chain, and what is done to its registers without TCK.

ghost use Rattle.std.specs.Prelude.{◌≡◌, ℕ, Bool, true, false, List, length};
ghost use Rattle.board_model.specs.Cells.{Member};
ghost use Rattle.board_model.specs.Resting.{chip_at_rest};
ghost use Rattle.board_model.specs.Whole.{capture_member, reset_member, settled_member, trst_member, update_member};
ghost use Rattle.board_chips.specs.AtRest.{IsSightedFor, as_member};
ghost use Rattle.board_chips.specs.WiredChips.{AreBelow, DrivesStill, IsKept, captures_boundary, chip_state, member_of};
ghost use Rattle.board_chips.specs.WiredChips.{told_by, updates_driving};
ghost use Rattle.board_chips.specs.Telling.{IsAt, sight};
ghost use Rattle.jt_tap.specs.declared.State.TheVariants.{Reset};
ghost use Rattle.jt_tap.specs.declared.Work.TheVariants.{Captures};
ghost use Rattle.chip_instructions.specs.Instruction.{meaning};

use super::WiredChip;
use crate::wiring::Wiring;
use jt_tap::{Column, State};
use scan_registers::{Link, Mode, Selected, WordLink, same_bits};

impl Link for WiredChip {
    ghost use Rattle.board_model.specs.Whole.{selected_bits_of};
    ghost use Rattle.board_chips.specs.AtRest.{IsPutInto, puts_both, puts_nothing};
    ghost use Rattle.board_chips.specs.WiredChips.{member_of};

    ghost register = { λ s column. selected_bits_of column (member_of s) };

    ghost is_put = { λ s column bits t. IsPutInto column bits s t };

    fn register_len(&self, column: Column) -> usize {
        self.chip.register_len(column)
    }

    fn register_word(&self, column: Column, i: usize) -> u64 {
        self.chip.register_word(column, i)
    }

    fn put_register(&mut self, column: Column, at: usize, bits: u64, n: usize) {
        self.chip.put_register(column, at, bits, n);
    }

    ghost put_none = { λ s column. puts_nothing s column };

    ghost put_twice = { λ a b c column s t first second. puts_both a b c column s t first second };
}

impl WordLink for WiredChip {
    fn shift_register(&mut self, column: Column, bits: u64, n: usize) -> u64 {
        self.chip.shift_register(column, bits, n)
    }
}

impl WiredChip {
    /// Whether a capture of the column is one of the boundary register.
    fn captures_boundary_of(&self, column: Column) -> bool
        ensures { result ≡ captures_boundary (Captures column)
            (meaning self.now.chip.device self.now.chip.latch).selected }
    {
        column == Column::Dr && self.chip.selected() == Selected::Boundary
    }

    /// The column's register captures; the boundary register takes the levels before, and the core bits that it holds.
    pub fn capture(&mut self, wiring: &Wiring, column: Column)
        requires below { AreBelow (length wiring.now.nets) self.old.nets }
        ensures kept { IsKept self.old self.new }
        ensures trst { self.new.chip.trst ≡ self.old.chip.trst }
        ensures chip { (place : ℕ) (held : List Member) → IsAt wiring.now place held self.old
            → chip_state self.new ≡ as_member (capture_member column
            (told_by (sight wiring.now held place) self.old) (member_of self.old)) (chip_state self.old) }
    {
        if self.captures_boundary_of(column) {
            self.tell(wiring);
        }
        self.capture_told(column);
    }

    /// The column's register captures, once the cells were told what their ports see.
    fn capture_told(&mut self, column: Column)
        ensures kept { IsKept self.old self.new }
        ensures trst { self.new.chip.trst ≡ self.old.chip.trst }
        ensures chip { (sees : ℕ → Bool) → IsSightedFor column sees self.old
            → chip_state self.new
            ≡ as_member (capture_member column (told_by sees self.old) (member_of self.old)) (chip_state self.old) }
    {
        self.chip.capture(column);
    }

    /// The column's register updates.
    pub fn update(&mut self, column: Column)
        ensures kept { IsKept self.old self.new }
        ensures trst { self.new.chip.trst ≡ self.old.chip.trst }
        ensures chip { chip_state self.new
            ≡ as_member (update_member column (member_of self.old)) (chip_state self.old) }
    {
        self.chip.update(column);
    }

    /// Whether an update of the column may change the bits that drive the pins.
    pub(super) fn updates_driving(&self, column: Column) -> bool
        ensures { result ≡ updates_driving column (meaning self.now.chip.device self.now.chip.latch).selected
            (meaning self.now.chip.device self.now.chip.latch).mode }
    {
        column == Column::Dr
            && self.chip.selected() == Selected::Boundary
            && matches!(self.chip.mode(), Mode::Extest | Mode::Clamp)
    }

    /// Whether an update of the boundary register would change its update stage. Answered true in vain it costs time
    /// alone, so the clause goes one way.
    fn boundary_differs(&self) -> bool
        ensures { result ≡ false → self.now.chip.boundary.stage ≡ self.now.chip.boundary.update }
    {
        let boundary = self.chip.boundary();
        // That both are as long as the cells.
        let _ = boundary.cells();
        !same_bits(boundary.stage(), boundary.update_stage())
    }

    /// The column's register updates. Answers whether what a pin drives may have changed: where none has, to answer
    /// true costs time alone, so clause `still` goes one way.
    pub fn update_anew(&mut self, column: Column) -> bool
        ensures kept { IsKept self.old self.new }
        ensures trst { self.new.chip.trst ≡ self.old.chip.trst }
        ensures chip { chip_state self.new
            ≡ as_member (update_member column (member_of self.old)) (chip_state self.old) }
        ensures still { result ≡ false → DrivesStill (member_of self.old) (member_of self.new) }
    {
        let mode = self.chip.mode();
        let driving = self.changes_driving(column);
        self.update(column);
        driving || !self.is_in(mode)
    }

    /// Whether an update of the column would change the bits that drive the pins. Answered true in vain it costs time
    /// alone, so the clause goes one way.
    fn changes_driving(&self, column: Column) -> bool
        ensures { result ≡ false
            → updates_driving column (meaning self.now.chip.device self.now.chip.latch).selected
            (meaning self.now.chip.device self.now.chip.latch).mode
            ≡ true
            → self.now.chip.boundary.stage ≡ self.now.chip.boundary.update }
    {
        self.updates_driving(column) && self.boundary_differs()
    }

    /// Whether its instruction drives the pins in this mode. Answered false in vain it costs time alone, so the clause
    /// goes one way.
    fn is_in(&self, mode: Mode) -> bool
        ensures { result ≡ true → (meaning self.now.chip.device self.now.chip.latch).mode ≡ mode }
    {
        self.chip.mode() == mode
    }

    /// The instruction and the boundary register are reset.
    pub fn reset(&mut self)
        ensures kept { IsKept self.old self.new }
        ensures trst { self.new.chip.trst ≡ self.old.chip.trst }
        ensures chip { chip_state self.new ≡ as_member (reset_member (member_of self.old)) (chip_state self.old) }
    {
        self.chip.reset();
    }

    /// The controller stands in this state, and TDO is not driven.
    pub fn stand(&mut self, state: State)
        ensures kept { IsKept self.old self.new }
        ensures trst { self.new.chip.trst ≡ self.old.chip.trst }
        ensures chip { chip_state self.new ≡ chip_at_rest state (member_of self.old) }
    {
        self.chip.stand(state);
    }

    /// A device that rests in a pause makes the update that is pending.
    fn settle(&mut self, rests: State)
        ensures kept { IsKept self.old self.new }
        ensures trst { self.new.chip.trst ≡ self.old.chip.trst }
        ensures chip { chip_state self.new
            ≡ as_member (settled_member rests (member_of self.old)) (chip_state self.old) }
    {
        match rests {
            State::DrPause => self.update(Column::Dr),
            State::IrPause => self.update(Column::Ir),
            _ => {}
        }
    }

    /// TRST is asserted to a device that rests in a state: one without the port settles, and is reset by TCK.
    pub fn assert_trst(&mut self, rests: State)
        ensures kept { IsKept self.old self.new }
        ensures trst { self.new.chip.trst ≡ true }
        ensures chip { chip_state self.new
            ≡ chip_at_rest Reset (trst_member (settled_member rests) (member_of self.old)) }
    {
        if !self.device().has_trst() {
            self.settle(rests);
            self.reset();
        }
        self.tell_trst(true);
        self.stand(State::Reset);
    }
}
