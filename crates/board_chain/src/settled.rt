//! The devices of a chain with the nets between their pins, as they are between two edges.

ghost use Rattle.std.specs.Prelude.{◌≡◌, ◌<◌, Bool, true, false, drop, length, map, option_map, slice_get, Some};
ghost use Rattle.std.specs.Prelude.{option_and_then, if◌then◌else◌, IfOk};
ghost use Rattle.board_plan.specs.CellNets.{cell_net};
ghost use Rattle.board_model.specs.Chain as meant;
ghost use Rattle.board_model.specs.Following.{AreHeld, IsOrderOf};
ghost use Rattle.board_model.specs.Nets as nets;
ghost use Rattle.board_chips.specs.Driving.{cells_of};
ghost use Rattle.board_chips.specs.Strings.{AreStrung, placed_of};
ghost use Rattle.board_chips.specs.WiredChips.{AllTold, chip_state, held_of, member_of};
ghost use Rattle.board_chips.specs.Wires.{IsWired};
ghost use Rattle.board_chain.specs.Settled.{Becomes, as_they_are, as_told};
ghost use Rattle.board_chain.specs.Sweeping.{EachFrom, Falls, Rises, Still, TakesTrst};

mod at_rest;
mod driven_nets;

use self::driven_nets::DrivenNets;
use board_chips::{WiredChip, WiredString, Wiring, driving_pins, settle};
use std::alloc::{AllocError, Global};
use std::marker::Model;

/// Devices on one TAP, the first nearest the board's TDO, with the nets between their pins: what each pin drives is put
/// to its net, and every string holds.
#[derive(Drop)]
pub(crate) struct Settled {
    chips: Vec<WiredChip>,
    nets: DrivenNets,
}

impl Model for Settled {
    ghost use Rattle.board_chain.specs.Settled.{IsSettled, SettledValue};

    ghost Value = { SettledValue };

    ghost view = { λ s. record { nets = s.nets.wiring.nets; chips = s.chips.items } };

    ghost invariant = { λ s. IsSettled s.chips.items s.nets.wiring s.nets.driving s.nets.strings.items };
}

impl Settled {
    /// Devices that have put to their nets what they drive: the strings, each behind those that its source's net
    /// depends on, are put behind that.
    pub(crate) fn first(
        alloc: Global,
        chips: Vec<WiredChip>,
        wiring: Wiring,
        strings: Vec<WiredString>,
    ) -> Result<Settled, AllocError>
        requires wired { IsWired chips.items wiring }
        requires held { AreHeld (map member_of chips.items) (map held_of chips.items) }
        requires strung { AreStrung wiring.nets (map cells_of chips.items) strings.items }
        requires order { IsOrderOf wiring.nets (map member_of chips.items) (map placed_of strings.items) }
        ensures { IfOk result (λ s. Becomes as_told as_they_are (record {
          nets = wiring.nets;
          chips = chips.items;
        }) s) }
    {
        let mut chips = chips;
        let mut wiring = wiring;
        let driving = driving_pins(alloc, &wiring, &chips, &strings)?;
        settle(&mut chips, &mut wiring, &strings);
        Ok(Settled {
            chips,
            nets: DrivenNets {
                wiring,
                driving,
                strings,
            },
        })
    }

    /// The devices.
    pub(crate) fn chips(&self) -> &[WiredChip]
        ensures { result.now ≡ self.now.chips }
    {
        &self.chips
    }

    /// The nets, with what was last put to each pin.
    pub(crate) fn wiring(&self) -> &Wiring
        ensures nets { result.now.nets ≡ self.now.nets }
        ensures wired { IsWired self.now.chips result.now }
        ensures in_force { nets.in_force self.now.nets (map member_of self.now.chips) ≡ map held_of self.now.chips }
    {
        &self.nets.wiring
    }

    /// The net that the port of a cell of device `i` is on; `None` where the cell has no port, or that is on no net
    /// with a name.
    pub(crate) fn cell_net(&self, i: usize, cell: usize) -> Option<usize>
        requires { i < length self.now.chips }
        ensures { option_map (λ s. option_and_then (cell_net self.now.nets i) (slice_get s.chip.device.cells cell))
            (slice_get self.now.chips i) ≡ Some result }
    {
        self.chips[i].cell_net(cell)
    }

    /// The TDO of the first device, which reads 1 while it is not driven.
    pub(crate) fn tdo(&self) -> bool
        ensures { result ≡ meant.tdi_before true (map chip_state self.now.chips) }
    {
        tdi_of(&self.chips, 0, true)
    }

    /// A rising edge of all devices at once, each from its own state, the levels and the core bits in force before the
    /// edge, and as TDI the TDO of the next device, 1 while undriven; the last takes `tdi`.
    pub(crate) fn rise(&mut self, tms: bool, tdi: bool)
        ensures { (trst : Bool) → AllTold trst self.old.chips
            → Becomes as_told (meant.rise_all trst tms tdi (nets.told self.old.nets
            (meant.members (map chip_state self.old.chips))) 0) self.old self.new }
    {
        rise_all(&mut self.chips, &self.nets.wiring, tms, tdi);
    }

    /// A falling edge of all devices at once; where it may have changed what they drive, that and the strings are put
    /// anew.
    pub(crate) fn fall(&mut self)
        ensures { Becomes as_told (map meant.fall) self.old self.new }
    {
        if fall_all(&mut self.chips) {
            self.nets.put_anew(&mut self.chips);
        }
    }

    /// TRST is asserted to all devices, and what they drive from then on and the strings are put anew; or it is
    /// released.
    pub(crate) fn tell_trst(&mut self, trst: bool)
        ensures { Becomes (λ _. trst) (λ chips. if trst then map meant.assert_trst chips else chips) self.old
            self.new }
    {
        tell_trst_all(&mut self.chips, trst);
        if trst {
            self.nets.put_anew(&mut self.chips);
        }
    }
}

/// The TDI of what stands before device `i`: its TDO, which reads 1 while it is not driven, or the given level where
/// there is no such device.
fn tdi_of(chips: &[WiredChip], i: usize, tdi: bool) -> bool
    ensures { result ≡ meant.tdi_before tdi (drop i (map chip_state chips.now)) }
{
    match chips.get(i) {
        Some(chip) => chip.tdo().unwrap_or(true),
        None => tdi,
    }
}

/// A rising edge of all devices. TDO changes on falling edges alone, so each device sees the TDO of before.
fn rise_all(chips: &mut [WiredChip], wiring: &Wiring, tms: bool, tdi: bool)
    requires { IsWired chips.old wiring.now }
    ensures { EachFrom (Rises wiring.now tms tdi chips.old) 0 chips.old chips.new }
{
    for i in 0..chips.len() {
        let before = tdi_of(chips, i + 1, tdi);
        chips[i].rise(wiring, tms, before);
    }
}

/// A falling edge of all devices. Answers whether what a pin drives may have changed.
fn fall_all(chips: &mut [WiredChip]) -> bool
    ensures devices { EachFrom Falls 0 chips.old chips.new }
    ensures still { result ≡ false → EachFrom Still 0 chips.old chips.new }
{
    let mut anew = false;
    for chip in chips.iter_mut() {
        if chip.fall_anew() {
            anew = true;
        }
    }
    anew
}

/// TRST is asserted to all devices, or released.
fn tell_trst_all(chips: &mut [WiredChip], trst: bool)
    ensures { EachFrom (TakesTrst trst) 0 chips.old chips.new }
{
    for chip in chips.iter_mut() {
        chip.tell_trst(trst);
    }
}
