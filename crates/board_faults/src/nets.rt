//! The nets of a board where a fault shows in a way.

ghost use Rattle.std.specs.Prelude.{◌≡◌, ◌<◌, ◌++◌, map, IfOk, OnOk, length};
ghost use Rattle.board_plan.specs.View.{net as planned_net};
ghost use Rattle.board_faults.specs.Faults as spec;
ghost use Rattle.board_faults.specs.Faults.{IsWayOf, with_way};
ghost use Rattle.board_faults.specs.declared.kinds.Way.TheVariants as way;

use crate::kinds::{Way, Winner};
use board_plan::{PlannedNet, copy_nets};
use pin_nets::{Pin, Pull, Rule};
use std::alloc::{AllocError, Global};

/// The nets where a fault of theirs (asked) shows in a way: a pin that stands alone is a net behind the others, without
/// a name; of two bridged nets the first is the whole, and the second is gone. Refused where memory runs out.
pub fn nets_with(
    alloc: Global,
    nets: &[PlannedNet],
    way: Way,
) -> Result<Vec<PlannedNet>, AllocError>
    requires { IsWayOf (map planned_net nets.now) way }
    ensures { IfOk result (λ v. map planned_net v.items ≡ with_way way (map planned_net nets.now)) }
{
    let all = copy_nets(alloc, nets)?;
    match way {
        Way::Open { net, pin, bit } => with_open(alloc, all, net, pin, bit),
        Way::Pull { net } => Ok(with_pull(all, net)),
        Way::Stuck { net, bit } => Ok(with_stuck(all, net, bit)),
        Way::Short {
            first,
            second,
            winner,
        } => with_short(alloc, all, first, second, winner),
    }
}

/// Nets of which a pin's joint is open.
fn with_open(
    alloc: Global,
    nets: Vec<PlannedNet>,
    net: usize,
    pin: usize,
    bit: bool,
) -> Result<Vec<PlannedNet>, AllocError>
    requires { IsWayOf (map planned_net nets.items) (way.Open net pin bit) }
    ensures { IfOk result (λ v. map planned_net v.items
        ≡ with_way (way.Open net pin bit) (map planned_net nets.items)) }
{
    let mut all = nets;
    let alone = open_pin(alloc, &mut all[net], pin, bit)?;
    all.push(alone)?;
    Ok(all)
}

/// Nets of which the pull of one points the other way.
fn with_pull(nets: Vec<PlannedNet>, net: usize) -> Vec<PlannedNet>
    requires { net < length nets.items }
    ensures { map planned_net result.items ≡ with_way (way.Pull net) (map planned_net nets.items) }
{
    let mut all = nets;
    turn_pull(&mut all[net]);
    all
}

/// Nets of which one is stuck at a bit.
fn with_stuck(nets: Vec<PlannedNet>, net: usize, bit: bool) -> Vec<PlannedNet>
    requires { net < length nets.items }
    ensures { map planned_net result.items ≡ with_way (way.Stuck net bit) (map planned_net nets.items) }
{
    let mut all = nets;
    tie(&mut all[net], bit);
    all
}

/// Nets of which two are bridged.
fn with_short(
    alloc: Global,
    nets: Vec<PlannedNet>,
    first: usize,
    second: usize,
    winner: Winner,
) -> Result<Vec<PlannedNet>, AllocError>
    requires order { first < second }
    requires there { second < length nets.items }
    ensures { IfOk result (λ v. map planned_net v.items
        ≡ with_way (way.Short first second winner) (map planned_net nets.items)) }
{
    let mut all = nets;
    let other = all.remove(second);
    bridge(alloc, &mut all[first], other, winner)?;
    Ok(all)
}

/// The joint of a pin is open: what is left of its net, and the pin as a net by itself.
fn open_pin(
    alloc: Global,
    net: &mut PlannedNet,
    pin: usize,
    bit: bool,
) -> Result<PlannedNet, AllocError>
    requires { pin < length net.old.pins.items }
    ensures rest { OnOk result (planned_net net.new ≡ spec.rest_of pin bit (planned_net net.old)) }
    ensures alone { IfOk result (λ n. planned_net n ≡ spec.pin_alone pin bit (planned_net net.old)) }
{
    let mut pins = Vec::with_capacity(alloc, 1)?;
    pins.push(net.pins.remove(pin))?;
    net.pull = rest_pull(bit, net.pull);
    Ok(PlannedNet {
        name: String::new(alloc),
        pull: pull_to(bit),
        rule: Rule::Counted,
        pins,
    })
}

/// The pull of a net points the other way.
fn turn_pull(net: &mut PlannedNet)
    ensures { planned_net net.new ≡ spec.turned_net (planned_net net.old) }
{
    net.pull = turned(net.pull);
}

/// A net shows a bit, whatever drives it.
fn tie(net: &mut PlannedNet, bit: bool)
    ensures { planned_net net.new ≡ spec.tied bit (planned_net net.old) }
{
    net.rule = Rule::Tied(bit);
}

/// Another net is bridged with a net.
fn bridge(
    alloc: Global,
    net: &mut PlannedNet,
    other: PlannedNet,
    winner: Winner,
) -> Result<(), AllocError>
    ensures { OnOk result (planned_net net.new ≡ spec.bridged winner (planned_net net.old) (planned_net other)) }
{
    let rule = match winner {
        Winner::Zeros => Rule::Counted,
        Winner::Ones => Rule::WiredOr,
        Winner::First => Rule::Led(net.pins.len()),
        Winner::Second => Rule::Led(other.pins.len()),
    };
    let pins = match winner {
        Winner::Second => both(alloc, &other.pins, &net.pins)?,
        _ => both(alloc, &net.pins, &other.pins)?,
    };
    net.pull = joined(net.pull, other.pull);
    net.rule = rule;
    net.pins = pins;
    Ok(())
}

/// Some pins, and others behind them.
fn both(alloc: Global, some: &[Pin], others: &[Pin]) -> Result<Vec<Pin>, AllocError>
    ensures { IfOk result (λ v. v.items ≡ some.now ++ others.now) }
{
    let mut pins = some.to_vec(alloc)?;
    pins.extend_from_slice(others)?;
    Ok(pins)
}

/// The pull that points the other way.
pub fn turned(pull: Pull) -> Pull
    ensures { result ≡ spec.turned pull }
{
    match pull {
        Pull::Up => Pull::Down,
        Pull::Down => Pull::Up,
        Pull::Free => Pull::Free,
    }
}

/// The pull towards a bit.
pub fn pull_to(bit: bool) -> Pull
    ensures { result ≡ spec.pull_to bit }
{
    if bit { Pull::Up } else { Pull::Down }
}

/// The pull of what is left of a net: its own, or towards the bit to which it floats.
pub fn rest_pull(bit: bool, pull: Pull) -> Pull
    ensures { result ≡ spec.rest_pull bit pull }
{
    match pull {
        Pull::Free => pull_to(bit),
        Pull::Up | Pull::Down => pull,
    }
}

/// The pull of two nets that are bridged: of two that are opposed ports read 0.
pub fn joined(one: Pull, other: Pull) -> Pull
    ensures { result ≡ spec.joined one other }
{
    match (one, other) {
        (Pull::Down, _) | (_, Pull::Down) => Pull::Down,
        (Pull::Up, _) | (_, Pull::Up) => Pull::Up,
        (Pull::Free, Pull::Free) => Pull::Free,
    }
}
