//! Cycles of a scan, up to 64 at once.

ghost use Rattle.std.specs.Prelude.{◌≡◌, ◌<◌};
ghost use Rattle.tck_cycles.specs.Shifts as spec;

use bitbang_protocol::Cycle;

/// Up to 64 cycles that shift and do not leave the Shift state: TMS is 0 in each, and what goes in at TDI and whether
/// TDO is read are the bits of two words, the first cycle's lowest.
#[derive(Debug, Clone, Copy, PartialEq, Eq)]
pub struct Shifts {
    /// What goes in; bits from `len` on are no part of it.
    pub tdi: u64,
    /// A 1 for each cycle that reads TDO; bits from `len` on are no part of it.
    pub read: u64,
    /// How many cycles there are: 0 to 64.
    pub len: u64,
}

impl Shifts {
    /// No cycles.
    pub(crate) fn none() -> Shifts
        ensures { result.len ≡ 0 }
    {
        Shifts {
            tdi: 0,
            read: 0,
            len: 0,
        }
    }

    /// Cycle `j`, counted from 0.
    pub fn cycle(self, j: u64) -> Cycle
        requires { j < 64 }
        ensures { result ≡ spec.shift_cycle self j }
    {
        Cycle {
            tms: false,
            tdi: self.tdi >> j & 1 == 1,
            read: self.read >> j & 1 == 1,
        }
    }
}
