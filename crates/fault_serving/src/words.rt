//! What faults and ways are called.

ghost use Rattle.std.specs.Prelude.{◌≡◌, ◌++◌, OnOk, map};
ghost use Rattle.board_plan.specs.View.{net as planned_net, wiring};
ghost use Rattle.fault_serving.specs.Words as spec;
ghost use Rattle.fault_serving.specs.Words.{fault_words, joint_words, way_words};

use board_description::{net_name, put_pin};
use board_faults::{Fault, Way, Winner};
use board_plan::{Plan, PlannedNet};
use output_words::{digit_of, put};
use pin_nets::Pin;
use std::alloc::AllocError;

/// Puts what a fault is called behind a text. Refuses for want of memory alone.
pub fn put_fault(text: &mut Vec<u8>, plan: &Plan, fault: Fault) -> Result<(), AllocError>
    ensures { OnOk result (text.new.items ≡ text.old.items ++ fault_words (wiring plan.now) fault) }
{
    match fault {
        Fault::Open { net, pin } => {
            put(text, &[b"open"])?;
            put_joint(text, plan, pin_at(&plan.nets, net, pin))
        }
        Fault::Pull { net } => put(text, &[b"pull ", net_name(&plan.nets, net).as_bytes()]),
        Fault::Stuck { net, bit } => put_stuck(text, net_name(&plan.nets, net), bit),
        Fault::Short { first, second } => put(
            text,
            &[
                b"short ",
                net_name(&plan.nets, first).as_bytes(),
                b" ",
                net_name(&plan.nets, second).as_bytes(),
            ],
        ),
    }
}

/// A pin of a net, each by its number, if there is one.
fn pin_at(nets: &[PlannedNet], net: usize, pin: usize) -> Option<Pin>
    ensures { result ≡ spec.pin_at (map planned_net nets.now) net pin }
{
    match nets.get(net) {
        Some(its) => its.pins.get(pin).copied(),
        None => None,
    }
}

/// Puts a pin behind a text, a blank before it.
fn put_joint(text: &mut Vec<u8>, plan: &Plan, pin: Option<Pin>) -> Result<(), AllocError>
    ensures { OnOk result (text.new.items ≡ text.old.items ++ joint_words (wiring plan.now) pin) }
{
    match pin {
        Some(pin) => put_pin(text, &plan.devices, pin),
        None => Ok(()),
    }
}

fn put_stuck(text: &mut Vec<u8>, net: &str, bit: bool) -> Result<(), AllocError>
    ensures { OnOk result (text.new.items ≡ text.old.items ++ spec.stuck_words net.now bit) }
{
    put(
        text,
        &[b"stuck ", net.as_bytes(), b" at ", &[digit_of(bit)]],
    )
}

/// Puts which way of its fault it is behind a text, a blank before it; nothing where the fault has one way.
pub fn put_way(text: &mut Vec<u8>, way: Way) -> Result<(), AllocError>
    ensures { OnOk result (text.new.items ≡ text.old.items ++ way_words way) }
{
    match way {
        Way::Open { bit, .. } => put(text, &[b" at ", &[digit_of(bit)]]),
        Way::Pull { .. } | Way::Stuck { .. } => Ok(()),
        Way::Short { winner, .. } => put(text, &[winner_words(winner)]),
    }
}

fn winner_words(winner: Winner) -> &'static [u8]
    ensures { result.now ≡ spec.winner_words winner }
{
    match winner {
        Winner::Zeros => b" wired-and",
        Winner::Ones => b" wired-or",
        Winner::First => b" first-leads",
        Winner::Second => b" second-leads",
    }
}
