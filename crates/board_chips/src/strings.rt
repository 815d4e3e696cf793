//! The strings of a chain: core bits that follow what a port of their device sees.

ghost use Rattle.std.specs.List.{list_any};
ghost use Rattle.std.specs.Prelude.{◌≡◌, ◌<◌, ℕ, false, Some, None, map, length, slice_get, slice_set};
ghost use Rattle.pin_nets.specs.declared.Pin.{Pin as ThePin};
ghost use Rattle.board_plan.specs.Planned.{all_pins};
ghost use Rattle.board_model.specs.Following.{after_string, after_strings};
ghost use Rattle.board_model.specs.Nets.{pin_drive};
ghost use Rattle.board_chips.specs.Driving.{cells_of};
ghost use Rattle.board_chips.specs.WiredChips.{held_of};
ghost use Rattle.board_chips.specs.Strings.{AreStrung, IsStrung, less_core, placed_of, puts};
ghost use Rattle.board_chips.specs.Wires.{ArePinsBelow, IsWired};

use crate::chip::WiredChip;
use crate::wiring::Wiring;

/// A core bit of a device that is what a port bit of the same device sees, or its opposite.
#[derive(Debug, Clone, Copy, Drop)]
pub struct WiredString {
    /// The place of the device, the first nearest TDO.
    pub(crate) device: usize,
    /// The cell whose core bit it is.
    pub(crate) cell: usize,
    /// The port bit that it follows.
    pub(crate) source: usize,
    /// Whether it is the opposite.
    pub(crate) inverted: bool,
    /// The net of that port bit; one on none is a net by itself.
    pub(crate) net: Option<usize>,
    /// The pin that takes the core bit, by its place among those of the nets; `None` where none does.
    pub(crate) pin: Option<usize>,
}

/// Puts strings one after another: each core bit takes what its source sees then, and the pin that takes it is put to
/// its net. Takes no memory.
pub fn settle(chips: &mut [WiredChip], wiring: &mut Wiring, strings: &[WiredString])
    requires wired { IsWired chips.old wiring.old }
    requires strings { AreStrung wiring.old.nets (map cells_of chips.old) strings.now }
    ensures nets { wiring.new.nets ≡ wiring.old.nets }
    ensures wired { IsWired chips.new wiring.new }
    ensures held { map held_of chips.new
        ≡ after_strings wiring.old.nets (map placed_of strings.now) (map held_of chips.old) }
    ensures same { map less_core chips.new ≡ map less_core chips.old }
    ensures others { (k : ℕ) → list_any (puts k) strings.now ≡ false
        → slice_get wiring.new.drives k ≡ slice_get wiring.old.drives k }
{
    for string in strings {
        settle_one(chips, wiring, *string);
    }
}

/// Puts one string.
fn settle_one(chips: &mut [WiredChip], wiring: &mut Wiring, string: WiredString)
    requires wired { IsWired chips.old wiring.old }
    requires string { IsStrung wiring.old.nets (map cells_of chips.old) string }
    ensures nets { wiring.new.nets ≡ wiring.old.nets }
    ensures wired { IsWired chips.new wiring.new }
    ensures held { map held_of chips.new ≡ after_string wiring.old.nets (placed_of string) (map held_of chips.old) }
    ensures same { map less_core chips.new ≡ map less_core chips.old }
    ensures others { (k : ℕ) → puts k string ≡ false
        → slice_get wiring.new.drives k ≡ slice_get wiring.old.drives k }
{
    let seen = chips[string.device].sight(string.net, string.source, wiring);
    let bit = if string.inverted { !seen } else { seen };
    chips[string.device].set_core(string.cell, bit);
    put_pin(chips, wiring, string.pin);
}

/// What a pin drives is put to its net, if there is one.
fn put_pin(chips: &[WiredChip], wiring: &mut Wiring, pin: Option<usize>)
    requires inside { (k : ℕ) → pin ≡ Some k → k < length (all_pins wiring.old.nets) }
    requires within { ArePinsBelow (length chips.now) (all_pins wiring.old.nets) }
    ensures none { pin ≡ None → wiring.new ≡ wiring.old }
    ensures some { (k : ℕ) (p : ThePin) → pin ≡ Some k → slice_get (all_pins wiring.old.nets) k ≡ Some p
        → wiring.new ≡ record wiring.old {
          drives = slice_set wiring.old.drives k (pin_drive (map held_of chips.now) p);
        } }
{
    if let Some(pin) = pin {
        let at = wiring.pin(pin);
        wiring.place(pin, chips[at.device].drive(at.port));
    }
}
