//! The chain of devices with its nets.

ghost use Rattle.std.specs.Prelude.{◌≡◌, ◌<◌, ◌^◌, true, false, length, map, option_map, slice_get, Some};
ghost use Rattle.std.specs.Prelude.{option_and_then, if◌then◌else◌};
ghost use Rattle.board_plan.specs.CellNets.{cell_net};
ghost use Rattle.board_plan.specs.Planned.{all_pins};
ghost use Rattle.board_model.specs.Chain as meant;
ghost use Rattle.board_model.specs.Nets as nets;
ghost use Rattle.board_chips.specs.WiredChips.{AllTold, chip_state};

mod at_rest;
mod shifting;

use crate::settled::Settled;
use board_chips::WiredChip;
use pin_nets::{Drive, Level, Pin};
use std::marker::Model;

/// Devices on one TAP, the first nearest the board's TDO, with the nets between their pins. Contracts see the level of
/// TRST, the nets, and of each device its controller, its registers and TDO.
#[derive(Drop)]
pub struct Chain {
    trst: bool,
    settled: Settled,
}

impl Model for Chain {
    ghost use Rattle.std.specs.Prelude.{map};
    ghost use Rattle.board_chain.specs.Chains.{ChainValue};
    ghost use Rattle.board_chips.specs.WiredChips.{AllTold, chip_state};

    ghost Value = { ChainValue };

    ghost view = { λ c. record { trst = c.trst; nets = c.settled.nets; chips = map chip_state c.settled.chips } };

    ghost invariant = { λ c. AllTold c.trst c.settled.chips };
}

impl Chain {
    /// Devices with TRST released, and the nets between them.
    pub(crate) fn of(settled: Settled) -> Chain
        requires { AllTold false settled.chips }
        ensures { result ≡ record { trst = false; nets = settled.nets; chips = map chip_state settled.chips } }
    {
        Chain {
            trst: false,
            settled,
        }
    }

    /// A rising edge of all devices at once, each from its own state, the levels and the core bits in force before the
    /// edge, and as TDI the TDO of the next device, 1 while undriven; the last takes `tdi`.
    pub fn rise(&mut self, tms: bool, tdi: bool)
        ensures { self.new ≡ record self.old {
          chips =
              meant.rise_all self.old.trst tms tdi (nets.told self.old.nets (meant.members self.old.chips)) 0
              self.old.chips;
        } }
    {
        self.settled.rise(tms, tdi);
    }

    /// A falling edge of all devices at once.
    pub fn fall(&mut self)
        ensures { self.new ≡ record self.old { chips = map meant.fall self.old.chips } }
    {
        self.settled.fall();
    }

    /// TRST is asserted or released.
    pub fn tell_trst(&mut self, trst: bool)
        ensures { self.new ≡ record self.old {
          trst = trst;
          chips = if trst then map meant.assert_trst self.old.chips else self.old.chips;
        } }
    {
        self.settled.tell_trst(trst);
        self.trst = trst;
    }

    /// Whether TRST is asserted.
    pub fn trst(&self) -> bool
        ensures { result ≡ self.now.trst }
    {
        self.trst
    }

    /// How many devices there are.
    pub fn devices(&self) -> usize
        ensures { result ≡ length self.now.chips }
    {
        self.settled.chips().len()
    }

    /// Device `i`, counted from the one nearest TDO.
    pub fn chip(&self, i: usize) -> &WiredChip
        requires { i < length self.now.chips }
        ensures { slice_get self.now.chips i ≡ Some (chip_state result.now) }
    {
        &self.settled.chips()[i]
    }

    /// The net that the port of a cell of device `i` is on; `None` where the cell has no port, or that is on no net
    /// with a name.
    pub fn cell_net(&self, i: usize, cell: usize) -> Option<usize>
        requires { i < length self.now.chips }
        ensures { option_map (λ c. option_and_then (cell_net self.now.nets i) (slice_get c.member.device.cells cell))
            (slice_get self.now.chips i) ≡ Some result }
    {
        self.settled.cell_net(i, cell)
    }

    /// How many nets have a name.
    pub fn nets(&self) -> usize
        ensures { result ≡ length self.now.nets }
    {
        self.settled.wiring().count()
    }

    /// The name of a net.
    pub fn net_name(&self, net: usize) -> &str
        requires { net < length self.now.nets }
        ensures { option_map (λ n. n.name) (slice_get self.now.nets net) ≡ Some result.now }
    {
        self.settled.wiring().name(net)
    }

    /// The level of a net: that of resolving it anew.
    pub fn level(&self, net: usize) -> Level
        requires { net < length self.now.nets }
        ensures { option_map (nets.level self.now.nets (meant.members self.now.chips)) (slice_get self.now.nets net)
            ≡ Some result }
    {
        self.settled.wiring().level(net)
    }

    /// Whether strong drivers of 0 and of 1 are on a net.
    pub fn is_opposed(&self, net: usize) -> bool
        requires { net < length self.now.nets }
        ensures { option_map (nets.is_opposed self.now.nets (meant.members self.now.chips))
            (slice_get self.now.nets net) ≡ Some result }
    {
        self.settled.wiring().is_opposed(net)
    }

    /// How many pins a net has.
    pub fn net_size(&self, net: usize) -> usize
        requires { net < length self.now.nets }
        ensures { option_map (λ n. length n.pins) (slice_get self.now.nets net) ≡ Some result }
    {
        self.settled.wiring().size(net)
    }

    /// How many pins all nets with a name have.
    pub fn pin_count(&self) -> usize
        ensures count { result ≡ length (all_pins self.now.nets) }
        ensures few { result < 2 ^ 63 }
    {
        self.settled.wiring().pin_count()
    }

    /// Which pin stands at this place among those of the nets, one net after another.
    pub fn pin(&self, pin: usize) -> Pin
        requires { pin < length (all_pins self.now.nets) }
        ensures { slice_get (all_pins self.now.nets) pin ≡ Some result }
    {
        self.settled.wiring().pin(pin)
    }

    /// What a pin drives, by its place among those of the nets.
    pub fn drive(&self, pin: usize) -> Drive
        requires { pin < length (all_pins self.now.nets) }
        ensures { option_map (nets.pin_drive (nets.in_force self.now.nets (meant.members self.now.chips)))
            (slice_get (all_pins self.now.nets) pin) ≡ Some result }
    {
        self.settled.wiring().drive(pin)
    }

    /// The TDO of the first device, which reads 1 while it is not driven.
    pub fn tdo(&self) -> bool
        ensures { result ≡ meant.tdi_before true self.now.chips }
    {
        self.settled.tdo()
    }
}
