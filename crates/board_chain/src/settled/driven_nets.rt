//! What all devices drive is put to the nets, and the strings behind it.

ghost use Rattle.std.specs.Prelude.{◌≡◌, map};
ghost use Rattle.board_chain.specs.Settled.{IsSettled, WasSettled};
ghost use Rattle.board_chips.specs.Strings.{less_core};

use board_chips::{DrivingPins, WiredChip, WiredString, Wiring, refresh_driving, settle};

/// The nets, with what is put to them.
#[derive(Drop)]
pub(super) struct DrivenNets {
    pub(super) wiring: Wiring,
    /// The pins that a cell drives, with what was last put to their nets.
    pub(super) driving: DrivingPins,
    /// The strings, each behind those that its source's net depends on.
    pub(super) strings: Vec<WiredString>,
}

impl DrivenNets {
    /// Devices whose registers have changed put what they drive to the nets, by the core bits that they held; then the
    /// strings, each behind those that its source's net depends on, make the core bits that are in force.
    pub(super) fn put_anew(&mut self, chips: &mut [WiredChip])
        requires { WasSettled chips.old self.old.wiring self.old.driving self.old.strings.items }
        ensures settled { IsSettled chips.new self.new.wiring self.new.driving self.new.strings.items }
        ensures same { map less_core chips.new ≡ map less_core chips.old }
        ensures nets { self.new.wiring.nets ≡ self.old.wiring.nets }
    {
        refresh_driving(&mut self.wiring, chips, &mut self.driving);
        settle(chips, &mut self.wiring, &self.strings);
    }
}
