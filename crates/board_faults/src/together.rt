//! What pins can make of a net together, as ports see it.

ghost use Rattle.std.specs.Prelude.{◌≡◌, ◌&&◌, ◌||◌, ◌∷◌, List};
ghost use Rattle.board_faults.specs.Together as spec;
ghost use Rattle.board_faults.specs.Together.{at_driven, can_make, table};

use pin_nets::Pull;

/// What pins drive together, as ports see it: whether one of them is a strong 0, a strong 1, a weak 0. A weak 1 is the
/// same to ports as nothing.
#[derive(Drop, Clone, Copy)]
pub struct Driven {
    pub zero: bool,
    pub one: bool,
    pub weak: bool,
}

/// Nothing is driven.
pub(crate) const NOTHING: Driven = Driven {
    zero: false,
    one: false,
    weak: false,
};

/// The eight, in the order of their places in a table.
pub(crate) const ALL: [Driven; 8] = [
    Driven {
        zero: false,
        one: false,
        weak: false,
    },
    Driven {
        zero: true,
        one: false,
        weak: false,
    },
    Driven {
        zero: false,
        one: true,
        weak: false,
    },
    Driven {
        zero: true,
        one: true,
        weak: false,
    },
    Driven {
        zero: false,
        one: false,
        weak: true,
    },
    Driven {
        zero: true,
        one: false,
        weak: true,
    },
    Driven {
        zero: false,
        one: true,
        weak: true,
    },
    Driven {
        zero: true,
        one: true,
        weak: true,
    },
];

impl Driven {
    /// What both make together.
    pub fn together(self, other: Driven) -> Driven
        ensures { result ≡ spec.together self other }
    {
        Driven {
            zero: self.zero || other.zero,
            one: self.one || other.one,
            weak: self.weak || other.weak,
        }
    }

    /// What ports see.
    pub fn sees(self) -> bool
        ensures { result ≡ spec.sees self }
    {
        !self.zero && (self.one || !self.weak)
    }
}

/// What a pull drives.
pub fn pulled(pull: Pull) -> Driven
    ensures { result ≡ spec.pulled pull }
{
    match pull {
        Pull::Down => Driven {
            weak: true,
            ..NOTHING
        },
        Pull::Up | Pull::Free => NOTHING,
    }
}

/// Of each of the eight whether it can be made.
#[derive(Drop, Clone, Copy)]
pub struct Table {
    pub nothing: bool,
    pub zero: bool,
    pub one: bool,
    pub both: bool,
    pub weak: bool,
    pub weak_zero: bool,
    pub weak_one: bool,
    pub all: bool,
}

/// No pins make nothing.
pub(crate) const NO_PINS: Table = Table {
    nothing: true,
    zero: false,
    one: false,
    both: false,
    weak: false,
    weak_zero: false,
    weak_one: false,
    all: false,
};

/// What pins can make, given what the others among them can, with one before them.
pub(crate) fn with_pin(its: Driven, others: Table) -> Table
    ensures { (os : List Driven) → others ≡ table (can_make os) → result ≡ table (can_make (its ∷ os)) }
{
    Table {
        nothing: others.nothing,
        zero: either(its.zero, others.nothing, others.zero),
        one: either(its.one, others.nothing, others.one),
        both: either(
            its.zero,
            others.one,
            either(its.one, others.zero, others.both),
        ),
        weak: either(its.weak, others.nothing, others.weak),
        weak_zero: either(
            its.zero,
            others.weak,
            either(its.weak, others.zero, others.weak_zero),
        ),
        weak_one: either(
            its.one,
            others.weak,
            either(its.weak, others.one, others.weak_one),
        ),
        all: either(
            its.zero,
            others.weak_one,
            either(
                its.one,
                others.weak_zero,
                either(its.weak, others.both, others.all),
            ),
        ),
    }
}

/// Whether a pin can add something to what the others make, or it can be made else.
fn either(can: bool, others: bool, rest: bool) -> bool
    ensures { result ≡ ((can && others) || rest) }
{
    (can && others) || rest
}

impl Table {
    /// Whether this can be made.
    pub(crate) fn can(self, driven: Driven) -> bool
        ensures { result ≡ at_driven self driven }
    {
        match (driven.weak, driven.one, driven.zero) {
            (false, false, false) => self.nothing,
            (false, false, true) => self.zero,
            (false, true, false) => self.one,
            (false, true, true) => self.both,
            (true, false, false) => self.weak,
            (true, false, true) => self.weak_zero,
            (true, true, false) => self.weak_one,
            (true, true, true) => self.all,
        }
    }
}
