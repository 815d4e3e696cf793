//! Faults, and the ways in which each may show.

ghost use Rattle.std.specs.Prelude.{◌≡◌, length, slice_get};
ghost use Rattle.board_faults.specs.Faults.{ways, winners};

/// A single fault of the nets of a board. Nets are counted from 0 in the order of the board file, pins in that of their
/// net.
#[derive(Debug, Drop, Clone, Copy, PartialEq, Eq)]
pub enum Fault {
    /// The joint of a pin is open.
    Open { net: usize, pin: usize },
    /// The pull of a net is missing, or the wrong one.
    Pull { net: usize },
    /// A net shows this bit, whatever drives it.
    Stuck { net: usize, bit: bool },
    /// Two nets are bridged, the second behind the first in the board file.
    Short { first: usize, second: usize },
}

/// Who wins on a bridge whose strong drivers are opposed.
#[derive(Debug, Drop, Clone, Copy, PartialEq, Eq)]
pub enum Winner {
    /// The drivers of 0: a wired and.
    Zeros,
    /// The drivers of 1: a wired or.
    Ones,
    /// The drivers of the first net.
    First,
    /// The drivers of the second net.
    Second,
}

/// A way in which a fault may show.
#[derive(Debug, Drop, Clone, Copy, PartialEq, Eq)]
pub enum Way {
    /// The joint of a pin is open, and what floats then reads this bit.
    Open {
        net: usize,
        pin: usize,
        bit: bool,
    },
    /// The pull of a net points the other way.
    Pull {
        net: usize,
    },
    /// A net shows this bit.
    Stuck {
        net: usize,
        bit: bool,
    },
    /// Two nets are bridged, and this is who wins.
    Short {
        first: usize,
        second: usize,
        winner: Winner,
    },
}

impl Fault {
    /// The k-th way in which it may show, counted from 0: of an open joint at 0 and at 1; of a bridge as a wired and,
    /// as a wired or, where the first net leads and where the second does; of others the one.
    pub fn way(self, k: usize) -> Option<Way>
        ensures { result ≡ slice_get (ways self) k }
    {
        match self {
            Fault::Open { net, pin } => match k {
                0 => Some(Way::Open {
                    net,
                    pin,
                    bit: false,
                }),
                1 => Some(Way::Open {
                    net,
                    pin,
                    bit: true,
                }),
                _ => None,
            },
            Fault::Pull { net } => match k {
                0 => Some(Way::Pull { net }),
                _ => None,
            },
            Fault::Stuck { net, bit } => match k {
                0 => Some(Way::Stuck { net, bit }),
                _ => None,
            },
            Fault::Short { first, second } => match winner_at(k) {
                Some(winner) => Some(Way::Short {
                    first,
                    second,
                    winner,
                }),
                None => None,
            },
        }
    }

    /// In how many ways it may show.
    pub fn way_count(self) -> usize
        ensures { result ≡ length (ways self) }
    {
        match self {
            Fault::Open { .. } => 2,
            Fault::Pull { .. } | Fault::Stuck { .. } => 1,
            Fault::Short { .. } => 4,
        }
    }
}

/// The k-th who may win on a bridge.
fn winner_at(k: usize) -> Option<Winner>
    ensures { result ≡ slice_get winners k }
{
    match k {
        0 => Some(Winner::Zeros),
        1 => Some(Winner::Ones),
        2 => Some(Winner::First),
        3 => Some(Winner::Second),
        _ => None,
    }
}
