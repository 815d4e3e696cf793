//! What the pins of a board drive is put to its nets.

ghost use Rattle.std.specs.Prelude.{◌≡◌, map, length};
ghost use Rattle.board_plan.specs.Planned.{all_pins};
ghost use Rattle.board_model.specs.Nets.{pin_drive};
ghost use Rattle.board_chips.specs.WiredChips.{held_of};
ghost use Rattle.board_chips.specs.Wires.{ArePinsBelow};

use crate::chip::WiredChip;
use crate::wiring::Wiring;

/// What each pin drives is put to its net.
pub fn refresh(wiring: &mut Wiring, chips: &[WiredChip])
    requires { ArePinsBelow (length chips.now) (all_pins wiring.old.nets) }
    ensures { wiring.new ≡ record wiring.old {
      drives = map (pin_drive (map held_of chips.now))
          (all_pins wiring.old.nets);
    } }
{
    for k in 0..wiring.pin_count() {
        let pin = wiring.pin(k);
        wiring.put(k, chips[pin.device].drive(pin.port));
    }
}
