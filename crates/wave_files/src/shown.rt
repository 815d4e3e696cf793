//! What the lines of the TAP show.

ghost use Rattle.std.specs.Prelude.{◌≡◌};
ghost use Rattle.wave_files.specs.Values as spec;
ghost use Rattle.wave_files.specs.Values.{first_tdo, undriven};

use board_chain::Chain;
use output_words::digit_of;

/// What is written for a line that no one drives.
pub(crate) const UNDRIVEN: u8 = b'z';
/// What is written for a line that is not known.
pub const UNKNOWN: u8 = b'x';

/// What is written for each line of the TAP: `0`, `1`, `z` where no one drives it, `x` where it is not known.
#[derive(Debug, Clone, Copy, PartialEq, Eq)]
pub struct Shown {
    /// TCK.
    pub tck: u8,
    /// TMS.
    pub tms: u8,
    /// TDI.
    pub tdi: u8,
    /// TDO.
    pub tdo: u8,
    /// TRST, low while it is asserted.
    pub trst: u8,
}

impl Shown {
    /// What is written for the lines of a chain at these levels of those that are written, none where one is unknown,
    /// and with TRST asserted or not.
    pub fn of(
        tck: Option<bool>,
        tms: Option<bool>,
        tdi: Option<bool>,
        trst: bool,
        chain: &Chain,
    ) -> Shown
        ensures { result ≡ spec.shown_of tck tms tdi trst chain.now.chips }
    {
        Shown {
            tck: wire(UNKNOWN, tck),
            tms: wire(UNKNOWN, tms),
            tdi: wire(UNKNOWN, tdi),
            tdo: tdo_byte(chain),
            trst: trst_byte(trst),
        }
    }
}

/// What is written for a line: the digit of its level, or `none` where it has no level.
pub fn wire(none: u8, level: Option<bool>) -> u8
    ensures { result ≡ spec.wire none level }
{
    match level {
        Some(level) => digit_of(level),
        None => none,
    }
}

/// What is written for TDO: that of the device nearest it.
fn tdo_byte(chain: &Chain) -> u8
    ensures { result ≡ spec.wire undriven (first_tdo chain.now.chips) }
{
    wire(UNDRIVEN, tdo_of(chain))
}

/// The TDO of the device nearest it.
fn tdo_of(chain: &Chain) -> Option<bool>
    ensures { result ≡ first_tdo chain.now.chips }
{
    if chain.devices() == 0 {
        return None;
    }
    chain.chip(0).tdo()
}

/// What is written for TRST, which is low while it is asserted.
fn trst_byte(asserted: bool) -> u8
    ensures { result ≡ spec.trst_byte asserted }
{
    digit_of(!asserted)
}
