//! The nets of a board, with what was last put to them.

ghost use Rattle.std.specs.Prelude.{◌≡◌, ◌<◌, ◌^◌, ◌∷◌, map, length, slice_get, slice_set, option_map, replicate, Some};
ghost use Rattle.std.specs.Prelude.{IfOk, ◌≢◌, true, false};
ghost use Rattle.pin_nets.specs.declared.Drive.{Drive as TheDrive};
ghost use Rattle.pin_nets.specs.declared.Drive.TheVariants as driving;
ghost use Rattle.pin_nets.specs.declared.Pin.{Pin as ThePin};
ghost use Rattle.pin_nets.specs.Levels as levels;
ghost use Rattle.board_plan.specs.PinNumbers.{with_pin_numbers};
ghost use Rattle.board_plan.specs.Planned.{all_pins};
ghost use Rattle.board_plan.specs.View.{net as planned_net};
ghost use Rattle.board_chips.specs.WiringValues.{WiringValue};

use board_plan::{PlannedNet, copy_nets, number_nets};
use pin_nets::{Drive, Level, Nets, Pin};
use std::alloc::{AllocError, Global};
use std::marker::Model;

/// The nets by name, and their levels. Contracts see the nets, and what was last put to each of their pins.
#[derive(Drop)]
pub struct Wiring {
    nets: Vec<PlannedNet>,
    /// The pins of all nets; each has the same number here as among the levels.
    pins: Vec<Pin>,
    levels: Nets,
}

impl Model for Wiring {
    ghost use Rattle.std.specs.Prelude.{◌≡◌, map, length};
    ghost use Rattle.board_plan.specs.Planned.{all_pins};
    ghost use Rattle.board_plan.specs.View.{net as planned_net};
    ghost use Rattle.board_chips.specs.WiringValues.{WiringValue, all_nets};

    ghost Value = { WiringValue };

    ghost view = { λ w. record { nets = map planned_net w.nets.items; drives = w.levels.drives } };

    ghost invariant = { λ w. record {
      pins : w.pins.items ≡ all_pins (map planned_net w.nets.items);
      long : length w.levels.drives ≡ length w.pins.items;
      levels : w.levels.nets ≡ all_nets (map planned_net w.nets.items);
    } };
}

impl Wiring {
    /// These nets, to whose pins nothing was put yet; refused where memory runs out.
    pub fn new(alloc: Global, nets: &[PlannedNet]) -> Result<Wiring, AllocError>
        ensures { IfOk result (λ w. w ≡ record {
          nets = map planned_net nets.now;
          drives = replicate (length (all_pins (map planned_net nets.now))) driving.Nothing;
        }) }
    {
        let (specs, pins) = number_nets(alloc, nets)?;
        let levels = Nets::build(alloc, pins.len(), &specs)?;
        let nets = copy_nets(alloc, nets)?;
        Ok(Wiring { nets, pins, levels })
    }

    /// How many nets have a name.
    pub fn count(&self) -> usize
        ensures { result ≡ length self.now.nets }
    {
        self.nets.len()
    }

    /// The name of a net.
    pub fn name(&self, net: usize) -> &str
        requires { net < length self.now.nets }
        ensures { option_map (λ n. n.name) (slice_get self.now.nets net) ≡ Some result.now }
    {
        self.nets[net].name.as_str()
    }

    /// The level of a net by what was last put to its pins, which is by what they drive where that was put to each.
    pub fn level(&self, net: usize) -> Level
        requires { net < length self.now.nets }
        ensures put { option_map (levels.level self.now.drives) (slice_get (with_pin_numbers 0 self.now.nets) net)
            ≡ Some result }
        ensures driven { (f : ThePin → TheDrive) → self.now.drives ≡ map f (all_pins self.now.nets)
            → option_map (λ n. levels.shown n.rule (levels.pull_drive n.pull) (map f n.pins))
            (slice_get self.now.nets net) ≡ Some result }
    {
        self.levels.level(net)
    }

    /// What the ports on a net see by what was last put to its pins, as `level` has it: Contend reads 0, Float reads 1.
    pub fn seen(&self, net: usize) -> bool
        requires { net < length self.now.nets }
        ensures put { option_map (λ n. levels.reads (levels.level self.now.drives n))
            (slice_get (with_pin_numbers 0 self.now.nets) net) ≡ Some result }
        ensures driven { (f : ThePin → TheDrive) → self.now.drives ≡ map f (all_pins self.now.nets)
            → option_map (λ n. levels.reads (levels.shown n.rule (levels.pull_drive n.pull) (map f n.pins)))
            (slice_get self.now.nets net) ≡ Some result }
    {
        self.levels.seen(net)
    }

    /// Whether strong drivers of 0 and of 1 are on a net, by what was last put to its pins.
    pub fn is_opposed(&self, net: usize) -> bool
        requires { net < length self.now.nets }
        ensures { (f : ThePin → TheDrive) → self.now.drives ≡ map f (all_pins self.now.nets)
            → option_map (λ n. levels.opposed_by (levels.pull_drive n.pull) (map f n.pins))
            (slice_get self.now.nets net) ≡ Some result }
    {
        self.levels.is_opposed(net)
    }

    /// How many pins a net has.
    pub fn size(&self, net: usize) -> usize
        requires { net < length self.now.nets }
        ensures { option_map (λ n. length n.pins) (slice_get self.now.nets net) ≡ Some result }
    {
        self.nets[net].pins.len()
    }

    /// How many pins the nets have.
    pub fn pin_count(&self) -> usize
        ensures count { result ≡ length (all_pins self.now.nets) }
        ensures drives { result ≡ length self.now.drives }
        ensures few { result < 2 ^ 63 }
    {
        self.pins.len()
    }

    /// Which pin stands at this place among those of the nets, one net after another.
    pub fn pin(&self, pin: usize) -> Pin
        requires { pin < length (all_pins self.now.nets) }
        ensures { slice_get (all_pins self.now.nets) pin ≡ Some result }
    {
        self.pins[pin]
    }

    /// What was last put to a pin, by its place among those of the nets.
    pub fn drive(&self, pin: usize) -> Drive
        requires { pin < length (all_pins self.now.nets) }
        ensures { slice_get self.now.drives pin ≡ Some result }
    {
        self.levels.drive(pin)
    }

    /// A pin, by its place among those of the nets, drives this from now on. It is put to its net only where it is not
    /// what was last put there.
    pub fn put(&mut self, pin: usize, drive: Drive)
        requires { pin < length (all_pins self.old.nets) }
        ensures { self.new ≡ record self.old { drives = slice_set self.old.drives pin drive } }
    {
        if is_same(self.levels.drive(pin), drive) {
            return;
        }
        self.place(pin, drive);
    }

    /// A pin drives this from now on, as `put` has it, whatever was last put there: there is no branch on what it
    /// drove, which pays where many pins drive another level than before.
    pub fn place(&mut self, pin: usize, drive: Drive)
        requires { pin < length (all_pins self.old.nets) }
        ensures { self.new ≡ record self.old { drives = slice_set self.old.drives pin drive } }
    {
        self.levels.place(pin, drive);
    }
}

/// Whether two pins drive the same.
fn is_same(one: Drive, other: Drive) -> bool
    ensures same { result ≡ true → one ≡ other }
    ensures differ { result ≡ false → one ≢ other }
{
    one == other
}
