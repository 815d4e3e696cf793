//! A board at rest, its registers taken whole: what the edges of TCK would do, done at once (IEEE Std 1149.1-2001,
//! clauses 6, 7 and 9).

ghost use Rattle.std.specs.Prelude.{◌≡◌, ◌+◌, ◌<◌, ◌^◌, false, [], ◌∷◌, None, length};
ghost use Rattle.board_model.specs.Resting.{IsAtRest};
ghost use Rattle.board_model.specs.Whole as whole;
ghost use Rattle.board_model.specs.Whole.{AtRest};
ghost use Rattle.scan_vectors.specs.Failures.{differing, found, with_found};
ghost use Rattle.scan_vectors.specs.Held.{bits, fields};
ghost use Rattle.scan_vectors.specs.Vector.{tdis};
ghost use Rattle.jt_board.specs.Resting.{IsResting};

use super::Board;
use jt_tap::{Column, State, Work};
use scan_vectors::{Failures, Part3, Vector, join};

impl Board {
    /// The state in which the controllers of a board at rest (asked) stand.
    pub fn place(&self) -> State
        requires { IsResting self.now }
        ensures { (m : AtRest) → IsAtRest self.now m → result ≡ m.place }
    {
        self.chain.chip(0).state()
    }

    /// Of a board at rest (asked) in a pause the update that is pending is made.
    pub fn settle(&mut self)
        requires { IsResting self.old }
        ensures { (m : AtRest) → IsAtRest self.old m → IsAtRest self.new (whole.settle m) }
    {
        match self.place() {
            State::DrPause => self.update(Column::Dr),
            State::IrPause => self.update(Column::Ir),
            _ => {}
        }
    }

    /// Of a board at rest (asked) the column's register of every device captures, each from the levels and the core
    /// bits in force before.
    pub fn capture(&mut self, column: Column)
        requires { IsResting self.old }
        ensures { (m : AtRest) → IsAtRest self.old m → IsAtRest self.new (whole.capture column m) }
    {
        self.chain.capture(column);
    }

    /// Notes every bit of a vector whose wanted value differs from what comes out of the column's registers of a board
    /// at rest (asked) when the vector is shifted in.
    pub fn note(&self, column: Column, vector: &Vector, command: usize, failures: &mut Failures)
        requires rests { IsResting self.now }
        requires room { failures.old.total + length (bits vector.now) < 2 ^ 64 }
        ensures { (m : AtRest) → IsAtRest self.now m → found failures.new
            ≡ with_found (differing command (bits vector.now) (whole.out column (tdis (bits vector.now)) m))
            (found failures.old) }
    {
        self.chain.note(column, vector, command, failures);
    }

    /// A whole vector is shifted through the column's registers of a board at rest (asked).
    pub fn shift(&mut self, column: Column, vector: &Vector)
        requires { IsResting self.old }
        ensures { (m : AtRest) → IsAtRest self.old m
            → IsAtRest self.new (whole.shift column (tdis (bits vector.now)) m) }
    {
        self.chain.shift(column, vector);
    }

    /// Of a board at rest (asked) the column's register of every device updates.
    pub fn update(&mut self, column: Column)
        requires { IsResting self.old }
        ensures { (m : AtRest) → IsAtRest self.old m → IsAtRest self.new (whole.update column m) }
    {
        self.chain.update(column);
    }

    /// Every device of a board at rest (asked) is reset, as in RESET.
    pub fn reset(&mut self)
        requires { IsResting self.old }
        ensures { (m : AtRest) → IsAtRest self.old m → IsAtRest self.new (whole.reset_all m) }
    {
        self.chain.reset();
    }

    /// A board at rest (asked) stands in this state, and has done nothing there yet.
    pub fn stand(&mut self, state: State)
        requires { IsResting self.old }
        ensures { (m : AtRest) → IsAtRest self.old m → IsAtRest self.new (record m { place = state }) }
    {
        self.chain.stand(state);
    }

    /// A board at rest (asked) arrives in a stable state: it is reset in RESET, and captures in a pause.
    pub fn arrive(&mut self, state: State)
        requires { IsResting self.old }
        ensures { (m : AtRest) → IsAtRest self.old m → IsAtRest self.new (whole.arrive state m) }
    {
        match state {
            State::Reset => self.reset(),
            State::DrPause => self.capture(Column::Dr),
            State::IrPause => self.capture(Column::Ir),
            _ => {}
        }
        self.stand(state);
    }

    /// TRST is asserted on a board at rest (asked): a device without the port settles, and every device is reset and
    /// stands in RESET.
    pub fn assert_trst(&mut self)
        requires { IsResting self.old }
        ensures { (m : AtRest) → IsAtRest self.old m → IsAtRest self.new (whole.trst_asserted m) }
    {
        let place = self.place();
        self.chain.assert_trst(place);
    }

    /// TRST is released on a board at rest (asked).
    pub fn release_trst(&mut self)
        requires { IsResting self.old }
        ensures { (m : AtRest) → IsAtRest self.old m → IsAtRest self.new (record m { trst = false }) }
    {
        self.chain.tell_trst(false);
    }

    /// A board at rest (asked) goes along a path, and does in each of its states what the state does; what it shifts in
    /// is 0.
    pub fn along(&mut self, path: &[State])
        requires { IsResting self.old }
        ensures { (m : AtRest) → IsAtRest self.old m → IsAtRest self.new (whole.along path.now m) }
    {
        for state in path {
            self.work(state.work());
            self.stand(*state);
        }
    }

    /// A board at rest (asked) does what the devices do in a state; what it shifts in is 0.
    fn work(&mut self, work: Work)
        requires { IsResting self.old }
        ensures { (m : AtRest) → IsAtRest self.old m → IsAtRest self.new (whole.pass work m) }
    {
        match work {
            Work::Resets => self.reset(),
            Work::Captures(column) => self.capture(column),
            Work::Shifts(column) => self.shift(column, &one_zero()),
            Work::Updates(column) => self.update(column),
            Work::Waits => {}
        }
    }
}

/// The vector that shifts in one bit, a 0, and wants none.
fn one_zero() -> Vector<'static>
    ensures { tdis (bits result) ≡ false ∷ [] }
{
    let none = part(0);
    join(none, part(1), none)
}

/// A part of a vector that shifts in so many bits, all 0, and wants none.
fn part(len: usize) -> Part3<'static>
    ensures { fields result ≡ record { len = len; tdi = None; tdo = None; mask = None } }
{
    Part3 {
        len,
        tdi: None,
        tdo: None,
        mask: None,
    }
}
