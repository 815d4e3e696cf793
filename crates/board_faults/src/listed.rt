//! The faults of a board's nets, one after another.

ghost use Rattle.std.specs.Prelude.{◌≡◌, ◌<◌, ◌+◌, ◌++◌, flat_map, length, slice_get, IfOk, IfSome, OnOk};
ghost use Rattle.board_plan.specs.View.{net as planned_net};
ghost use Rattle.board_faults.specs.Faults.{behind_opens, behind_pull, bridges, faults_of, ways};
ghost use Rattle.board_faults.specs.Listing.{AreNext, left_of};

use crate::kinds::{Fault, Way};
use board_plan::PlannedNet;
use pin_nets::Pull;
use std::alloc::{AllocError, Global};

/// The faults of a board's nets that are left, net after net: each of its pins' joints open, its pull, stuck at 0 and
/// at 1, and its bridges with later nets. It takes no memory.
#[derive(Drop)]
pub struct Faults<'a> {
    nets: &'a [PlannedNet],
    net: usize,
    at: usize,
}

impl<'a> Faults<'a> {
    ghost use Rattle.std.specs.Prelude.{◌≡◌, map};
    ghost use Rattle.board_plan.specs.View.{net as planned_net};
    ghost use Rattle.board_faults.specs.Faults.{faults};
    ghost use Rattle.board_faults.specs.Listing.{left_of};

    /// All faults of these nets.
    pub fn of(nets: &'a [PlannedNet]) -> Faults<'a>
        ensures { left_of result ≡ faults (map planned_net nets.now) }
    {
        Faults {
            nets,
            net: 0,
            at: 0,
        }
    }
}

impl<'a> Iterator for Faults<'a> {
    type Item = Fault;

    ghost use Rattle.std.specs.Iterator.{YieldsFirst, item_count};
    ghost use Rattle.board_faults.specs.Listing.{left_of};

    ghost next_gives = { YieldsFirst left_of };

    ghost remaining = { item_count left_of };

    fn next(&mut self) -> Option<Fault> {
        while self.net < self.nets.len() {
            let its = &self.nets[self.net];
            if let Some(fault) = fault_of(self.nets.len(), self.net, its, self.at) {
                self.at += 1;
                return Some(fault);
            }
            self.net += 1;
            self.at = 0;
        }
        None
    }
}

/// The fault of a net, among so many, with this place among its own, if there is one.
fn fault_of(count: usize, net: usize, its: &PlannedNet, at: usize) -> Option<Fault>
    requires { net < count }
    ensures value { result ≡ slice_get (faults_of count net (planned_net its.now)) at }
    ensures few { IfSome result (λ _. at < length its.now.pins.items + (count + 2)) }
{
    let pins = its.pins.len();
    if at < pins {
        Some(Fault::Open { net, pin: at })
    } else {
        behind_opens(count, net, its.pull, at - pins)
    }
}

/// The fault with this place among those of a net that are behind its opens.
fn behind_opens(count: usize, net: usize, pull: Pull, at: usize) -> Option<Fault>
    requires { net < count }
    ensures value { result ≡ slice_get (behind_opens count net pull) at }
    ensures few { IfSome result (λ _. at < count + 2) }
{
    match (pull, at) {
        (Pull::Free, _) => behind_pull(count, net, at),
        (_, 0) => Some(Fault::Pull { net }),
        _ => behind_pull(count, net, at - 1),
    }
}

/// The fault with this place among those of a net that are behind that of its pull.
fn behind_pull(count: usize, net: usize, at: usize) -> Option<Fault>
    requires { net < count }
    ensures value { result ≡ slice_get (behind_pull count net) at }
    ensures few { IfSome result (λ _. at < count + 1) }
{
    match at {
        0 => Some(Fault::Stuck { net, bit: false }),
        1 => Some(Fault::Stuck { net, bit: true }),
        _ => bridge_at(count, net, at - 2),
    }
}

/// The bridge with this place among those of a net.
fn bridge_at(count: usize, net: usize, at: usize) -> Option<Fault>
    requires { net < count }
    ensures value { result ≡ slice_get (bridges count net) at }
    ensures few { IfSome result (λ _. at + 1 < count) }
{
    if at < count - net - 1 {
        Some(Fault::Short {
            first: net,
            second: net + 1 + at,
        })
    } else {
        None
    }
}

/// The next of the faults that are left, so many or all of them; none where none is left. Refused where memory runs
/// out.
pub fn next_faults(
    alloc: Global,
    left: &mut Faults<'_>,
    most: usize,
) -> Result<Vec<Fault>, AllocError>
    requires { 0 < most }
    ensures { IfOk result (λ v. AreNext (left_of left.old) v.items (left_of left.new)) }
{
    let mut faults = Vec::new(alloc);
    'faults: while faults.len() < most {
        let Some(fault) = left.next() else {
            return Ok(faults);
        };
        faults.push(fault)?;
    }
    Ok(faults)
}

/// The ways in which faults may show, one fault after another. Refused where memory runs out.
pub fn ways_of(alloc: Global, faults: &[Fault]) -> Result<Vec<Way>, AllocError>
    ensures { IfOk result (λ v. v.items ≡ flat_map ways faults.now) }
{
    let mut all = Vec::new(alloc);
    for fault in faults {
        put_ways(*fault, &mut all)?;
    }
    Ok(all)
}

fn put_ways(fault: Fault, all: &mut Vec<Way>) -> Result<(), AllocError>
    ensures { OnOk result (all.new.items ≡ all.old.items ++ ways fault) }
{
    let mut k = 0;
    'ways: while let Some(way) = fault.way(k) {
        all.push(way)?;
        k += 1;
    }
    Ok(())
}
