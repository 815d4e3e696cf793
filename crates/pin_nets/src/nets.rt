//! The nets of a board, whose numbers of drivers are kept.

ghost use Rattle.std.specs.Prelude.{◌≡◌, ◌≢◌, ◌↔◌, ◌<◌, IsTrue, length, option_map, slice_get, slice_set, Some};
ghost use Rattle.pin_nets.specs.Levels as levels;
ghost use Rattle.pin_nets.specs.Levels.{four, net_counts};

use crate::rows::exchange;
use crate::ruled::{is_opposed, level_by_rule, sees};
use crate::{Drive, Level, Pull, Rule, counts_of_row, differ};
use std::marker::Model;

/// A net: its pull, its rule, and its pins.
#[derive(Drop)]
pub(crate) struct Net {
    pub(crate) pull: Pull,
    pub(crate) rule: Rule,
    pub(crate) pins: Vec<usize>,
}

impl Model for Net {
    ghost use Rattle.pin_nets.specs.Levels.{NetValue};

    ghost Value = { NetValue };

    ghost view = { λ n. record { pull = n.pull; rule = n.rule; pins = n.pins.items } };
}

/// What each pin drives, and the nets. Contracts see it as the two lists.
///
/// The numbers of drivers of each net stand ready, and what its ports see: a pin's new drive changes those of its net
/// alone.
#[derive(Drop)]
pub struct Nets {
    pub(crate) drives: Vec<Drive>,
    pub(crate) net_of: Vec<Option<usize>>,
    pub(crate) nets: Vec<Net>,
    pub(crate) counts: Vec<[usize; 4]>,
    pub(crate) seen: Vec<bool>,
    /// Every net shows what its drivers say.
    pub(crate) all_counted: bool,
}

impl Model for Nets {
    ghost use Rattle.std.specs.Prelude.{◌≡◌, length, map};
    ghost use Rattle.std.specs.List.{list_all};
    ghost use Rattle.pin_nets.specs.Levels.{NetsValue, four, is_counted, level, net_counts, reads};
    ghost use Rattle.pin_nets.specs.Places.{Placed, AreShort};

    ghost Value = { NetsValue };

    ghost view = { λ n. record { drives = n.drives.items; nets = n.nets.items } };

    ghost invariant = { λ n. record {
      long : length n.net_of.items ≡ length n.drives.items;
      placed : Placed n.net_of.items n.nets.items;
      short : AreShort n.nets.items;
      counts : n.counts.items ≡ map (λ x. four (net_counts n.drives.items x)) n.nets.items;
      seen : n.seen.items ≡ map (λ x. reads (level n.drives.items x)) n.nets.items;
      rules : n.all_counted ≡ list_all (λ x. is_counted x.rule) n.nets.items;
    } };
}

impl Nets {
    /// A pin drives this from now on. Answers whether the level of its net changed.
    pub fn put(&mut self, pin: usize, drive: Drive) -> bool
        requires { pin < length self.old.drives }
        ensures drives { self.new ≡ record self.old { drives = slice_set self.old.drives pin drive } }
        ensures changed { IsTrue result ↔ (levels.all_levels self.old ≢ levels.all_levels self.new) }
    {
        match self.net_of[pin] {
            None => {
                self.place(pin, drive);
                false
            }
            Some(net) => {
                let before = self.level(net);
                self.place(pin, drive);
                differ(before, self.level(net))
            }
        }
    }

    /// A pin drives this from now on, as `put` has it.
    pub fn place(&mut self, pin: usize, drive: Drive)
        requires { pin < length self.old.drives }
        ensures { self.new ≡ record self.old { drives = slice_set self.old.drives pin drive } }
    {
        let old = self.drives[pin];
        self.drives[pin] = drive;
        if let Some(net) = self.net_of[pin] {
            let counted = exchange(&mut self.counts[net], old, drive);
            self.seen[net] = if self.all_counted {
                counted
            } else {
                sees(&self.nets[net], &self.counts[net], &self.drives)
            };
        }
    }

    /// What a pin drives.
    pub fn drive(&self, pin: usize) -> Drive
        requires { pin < length self.now.drives }
        ensures { slice_get self.now.drives pin ≡ Some result }
    {
        self.drives[pin]
    }

    /// The level of a net.
    pub fn level(&self, net: usize) -> Level
        requires { net < length self.now.nets }
        ensures { option_map (levels.level self.now.drives) (slice_get self.now.nets net) ≡ Some result }
    {
        level_by_rule(
            &self.nets[net],
            counts_of_row(&self.counts[net]),
            &self.drives,
        )
    }

    /// What the ports on a net see: Contend reads 0, Float reads 1.
    pub fn seen(&self, net: usize) -> bool
        requires { net < length self.now.nets }
        ensures { option_map (λ x. levels.reads (levels.level self.now.drives x)) (slice_get self.now.nets net)
            ≡ Some result }
    {
        self.seen[net]
    }

    /// Whether strong drivers of 0 and of 1 are on a net, whatever its rule makes of them.
    pub fn is_opposed(&self, net: usize) -> bool
        requires { net < length self.now.nets }
        ensures { option_map (λ x. levels.is_opposed (net_counts self.now.drives x)) (slice_get self.now.nets net)
            ≡ Some result }
    {
        is_opposed(counts_of_row(&self.counts[net]))
    }

    /// How many drivers a net has, its pull among them: to 0 and to 1, and weak ones to 0 and to 1.
    pub fn counts(&self, net: usize) -> &[usize; 4]
        requires { net < length self.now.nets }
        ensures { option_map (λ x. four (net_counts self.now.drives x)) (slice_get self.now.nets net)
            ≡ Some result.now }
    {
        &self.counts[net]
    }
}
