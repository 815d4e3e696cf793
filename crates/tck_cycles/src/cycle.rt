//! Cycles of TCK.

ghost use Rattle.std.specs.Prelude.{◌≡◌};
ghost use Rattle.bitbang_protocol.specs.Cycles as spec;

use bitbang_protocol::Cycle;
use jt_tap::State;

/// The cycle that enters a state.
pub(crate) fn entering(state: State) -> Cycle
    ensures { result ≡ spec.entering state }
{
    Cycle {
        tms: state.entered_by(),
        tdi: false,
        read: false,
    }
}
