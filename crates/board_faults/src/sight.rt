//! Which ways of faults can show at all: by what pins can drive, whatever a program does, and which of them are read.

ghost use Rattle.std.specs.Prelude.{◌≡◌, ◌<◌, ◌↔◌, ◌&&◌, ◌||◌, ◌∷◌, [], drop, map, length, take, IfOk, IsTrue, List};
ghost use Rattle.std.specs.Prelude.{slice_index_or, Some};
ghost use Rattle.std.specs.List.{list_any, remove};
ghost use Rattle.boundary.specs.Masks as masks;
ghost use Rattle.board_plan.specs.Planned as planned;
ghost use Rattle.board_plan.specs.View.{member as planned_member, net as planned_net};
ghost use Rattle.board_faults.specs.Faults.{IsWayOf, nowhere};
ghost use Rattle.board_faults.specs.declared.kinds.Way.TheVariants as way;
ghost use Rattle.board_faults.specs.Sight.{IsInvisible, MayHaveFaults, drives_by, drives_of};
ghost use Rattle.board_faults.specs.Sights.{AreRead, AreSights, Marks, all_sights, any_read_in, makes_in, net_sight};
ghost use Rattle.board_faults.specs.Sights.{net_unseen, shows_by, sight_in, sights_of};
ghost use Rattle.board_faults.specs.Together as spec;
ghost use Rattle.board_faults.specs.Together.{all_driven, at_driven, open_differs, pull_differs, short_differs};
ghost use Rattle.board_faults.specs.Together.{some_pair, some_single, stuck_differs, table};

use crate::kinds::{Way, Winner};
use crate::nets::{joined, pull_to, rest_pull, turned};
use crate::planes::{
    FIRST_OF_PAIRS, SECOND_OF_PAIRS, bridge_words, can_make, differing, is_any_set, same_bits,
};
use crate::together::{ALL, Driven, NO_PINS, NOTHING, Table, pulled, with_pin};
use board_plan::{PlannedDevice, PlannedNet};
use boundary::{drivers, sighted_port};
use bsdl_device::{Cell, Disabled};
use pin_nets::{Follow, Pin, Pull};
use std::alloc::{AllocError, Global};

/// What a port bit can drive, each by itself, and whether it is read: by a cell, or as the source of a string.
#[derive(Drop, Clone, Copy)]
pub struct PortSight {
    pub can: Driven,
    pub read: bool,
}

/// What the pins of a net can make together, and whether one of them is read.
#[derive(Drop, Clone, Copy)]
pub struct NetSight {
    can: Table,
    read: bool,
}

/// Of each port bit of each device what it can drive, and whether it is read; and the same of each net.
#[derive(Drop)]
pub struct Sights {
    ports: Vec<Vec<PortSight>>,
    nets: Vec<NetSight>,
}

/// What the pins and the nets of a board can drive, and which of them are read. Refused where memory runs out.
pub fn sights_of(
    alloc: Global,
    devices: &[PlannedDevice],
    nets: &[PlannedNet],
) -> Result<Sights, AllocError>
    ensures { IfOk result (AreSights (map planned_member devices.now) (map planned_net nets.now)) }
{
    let ports = device_sights(alloc, devices)?;
    let nets = net_sights(alloc, &ports, nets)?;
    Ok(Sights { ports, nets })
}

/// Of each net what its pins can make together, and whether one of them is read.
fn net_sights(
    alloc: Global,
    ports: &[Vec<PortSight>],
    nets: &[PlannedNet],
) -> Result<Vec<NetSight>, AllocError>
    ensures { IfOk result
        (λ v. v.items ≡ map (net_sight (map (λ t. t.items) ports.now)) (map planned_net nets.now)) }
{
    let mut all = Vec::with_capacity(alloc, nets.len())?;
    for net in nets {
        all.push(net_sight(ports, net))?;
    }
    Ok(all)
}

fn net_sight(ports: &[Vec<PortSight>], net: &PlannedNet) -> NetSight
    ensures { result ≡ net_sight (map (λ t. t.items) ports.now) (planned_net net.now) }
{
    NetSight {
        can: table_of(ports, &net.pins),
        read: is_any_read(ports, &net.pins),
    }
}

/// Of each port bit of each device what it can drive, and whether it is read. Refused where memory runs out.
fn device_sights(
    alloc: Global,
    devices: &[PlannedDevice],
) -> Result<Vec<Vec<PortSight>>, AllocError>
    ensures { IfOk result (λ v. map (λ t. t.items) v.items ≡ all_sights (map planned_member devices.now)) }
{
    let mut all = Vec::with_capacity(alloc, devices.len())?;
    for device in devices {
        all.push(port_sights(alloc, device)?)?;
    }
    Ok(all)
}

/// Of each port bit of a device what it can drive, and whether it is read.
fn port_sights(alloc: Global, device: &PlannedDevice) -> Result<Vec<PortSight>, AllocError>
    ensures { IfOk result (λ v. v.items ≡ sights_of (planned_member device.now)) }
{
    let its = device.device.get();
    let count = its.port_count();
    let drivers = drivers(alloc, its.cells(), count)?;
    let read = reads_of(alloc, device)?;
    let mut sights = Vec::with_capacity(alloc, count)?;
    for port in 0..count {
        sights.push(PortSight {
            can: can_drive(its.cells(), drivers[port]),
            read: read[port],
        })?;
    }
    Ok(sights)
}

/// Of each port bit of a device whether it is read.
fn reads_of(alloc: Global, device: &PlannedDevice) -> Result<Vec<bool>, AllocError>
    ensures { IfOk result (λ v. AreRead (planned_member device.now) v.items) }
{
    let its = device.device.get();
    let mut read = Vec::from_elem(alloc, false, its.port_count())?;
    mark_cells(&mut read, its.cells());
    mark_sources(&mut read, &device.follows);
    Ok(read)
}

/// Marks the port bits that cells see.
fn mark_cells(read: &mut [bool], cells: &[Cell])
    ensures { Marks read.old read.new (map (λ c. masks.sighted_port c.port c.function) cells.now) }
{
    for cell in cells {
        mark(read, sighted_port(cell.port, cell.function));
    }
}

/// Marks the port bits that are sources of strings.
fn mark_sources(read: &mut [bool], follows: &[Follow])
    ensures { Marks read.old read.new (map (λ f. Some f.source) follows.now) }
{
    for follow in follows {
        mark(read, Some(follow.source));
    }
}

/// Marks a port bit, if there is one and it is there.
fn mark(read: &mut [bool], port: Option<usize>)
    ensures { Marks read.old read.new (port ∷ []) }
{
    if let Some(port) = port {
        if port < read.len() {
            read[port] = true;
        }
    }
}

/// What a pin can drive, each by itself, whose driving cell is this one.
fn can_drive(cells: &[Cell], driver: Option<usize>) -> Driven
    ensures { result ≡ spec.driven (drives_by cells.now driver) }
{
    match driver {
        Some(k) if k < cells.len() => cell_drives(k, cells[k]),
        _ => NOTHING,
    }
}

/// What the k-th cell of a device can drive, each by itself.
fn cell_drives(k: usize, cell: Cell) -> Driven
    ensures { result ≡ spec.driven (drives_of k cell.control) }
{
    match cell.control {
        None => Driven {
            zero: true,
            one: true,
            weak: false,
        },
        Some(control) => {
            let alone = control.cell == k;
            Driven {
                zero: !alone || control.disabling,
                one: !alone || !control.disabling,
                weak: matches!(control.leaves, Disabled::Weak0 | Disabled::Pull0),
            }
        }
    }
}

/// Whether no program could catch a way of a fault of these nets (asked), given what is seen of their board. Refused
/// where memory runs out.
pub fn is_invisible(
    alloc: Global,
    sights: &Sights,
    nets: &[PlannedNet],
    way: Way,
) -> Result<bool, AllocError>
    requires way { IsWayOf (map planned_net nets.now) way }
    ensures { (ms : List planned.Member) → MayHaveFaults (record { members = ms; nets = map planned_net nets.now })
        → AreSights ms (map planned_net nets.now) sights.now
        → IfOk result (λ r. IsTrue r ↔ IsInvisible (record { members = ms; nets = map planned_net nets.now }) way) }
{
    Ok(!shows(alloc, sights, nets, way)?)
}

/// Whether some of what the pins of a way's nets can make is seen otherwise with it.
fn shows(alloc: Global, sights: &Sights, nets: &[PlannedNet], way: Way) -> Result<bool, AllocError>
    requires way { IsWayOf (map planned_net nets.now) way }
    ensures { IfOk result (λ r. r ≡ shows_by sights.now (map planned_net nets.now) way) }
{
    match way {
        Way::Pull { net } => {
            let seen = seen_at(sights, net);
            Ok(some_pulled(seen.can, pull_at(nets, net), seen.read))
        }
        Way::Stuck { net, bit } => {
            let seen = seen_at(sights, net);
            Ok(some_stuck(seen.can, pull_at(nets, net), bit, seen.read))
        }
        Way::Open { net, pin, bit } => open_shows(alloc, &sights.ports, &nets[net], pin, bit),
        Way::Short {
            first,
            second,
            winner,
        } => Ok(bridge_shows(sights, nets, first, second, winner)),
    }
}

/// What is seen of a net; of none where there is none.
fn seen_at(sights: &Sights, net: usize) -> NetSight
    ensures { result ≡ slice_index_or sights.now.nets.items net net_unseen }
{
    if net < sights.nets.len() {
        sights.nets[net]
    } else {
        UNSEEN
    }
}

/// What is seen of no pins.
const UNSEEN: NetSight = NetSight {
    can: NO_PINS,
    read: false,
};

/// The pull of a net; none where there is none.
pub fn pull_at(nets: &[PlannedNet], net: usize) -> Pull
    ensures { result ≡ (slice_index_or (map planned_net nets.now) net nowhere).pull }
{
    if net < nets.len() {
        nets[net].pull
    } else {
        Pull::Free
    }
}

/// Whether a bridge of two nets shows to some program where this one wins, given what is seen of their board.
pub fn bridge_shows(
    sights: &Sights,
    nets: &[PlannedNet],
    first: usize,
    second: usize,
    winner: Winner,
) -> bool
    ensures { result ≡ shows_by sights.now (map planned_net nets.now) (way.Short first second winner) }
{
    let one = seen_at(sights, first);
    let other = seen_at(sights, second);
    let pull = pull_at(nets, first);
    let other_pull = pull_at(nets, second);
    pairs_show(winner, pull, other_pull, one, other)
}

/// Whether some pair of what the pins of two nets with these pulls can make is seen otherwise with a bridge of them, by a
/// pin that is read: bit `k` of each word is of the k-th pair.
fn pairs_show(winner: Winner, pull: Pull, other_pull: Pull, one: NetSight, other: NetSight) -> bool
    ensures { result ≡ spec.some_pair (at_driven one.can) (at_driven other.can)
        (short_differs winner pull other_pull one.read other.read) }
{
    let after = bridge_words(
        winner,
        joined(pull, other_pull),
        FIRST_OF_PAIRS,
        SECOND_OF_PAIRS,
    );
    let first = same_bits(one.read) & differing(pull, FIRST_OF_PAIRS, after);
    let second = same_bits(other.read) & differing(other_pull, SECOND_OF_PAIRS, after);
    let can = can_make(one.can, FIRST_OF_PAIRS) & can_make(other.can, SECOND_OF_PAIRS);
    is_any_set(can & (first | second))
}

fn open_shows(
    alloc: Global,
    sights: &[Vec<PortSight>],
    net: &PlannedNet,
    pin: usize,
    bit: bool,
) -> Result<bool, AllocError>
    requires { pin < length net.now.pins.items }
    ensures { IfOk result (λ r. r ≡ some_pair
        (makes_in (map (λ t. t.items) sights.now) (take 1 (drop pin net.now.pins.items)))
        (makes_in (map (λ t. t.items) sights.now) (remove net.now.pins.items pin))
        (open_differs net.now.pull bit
        (any_read_in (map (λ t. t.items) sights.now) (take 1 (drop pin net.now.pins.items)))
        (any_read_in (map (λ t. t.items) sights.now) (remove net.now.pins.items pin)))) }
{
    let mut rest = net.pins.to_vec(alloc)?;
    let mut alone = Vec::with_capacity(alloc, 1)?;
    alone.push(rest.remove(pin))?;
    let joint = OpenJoint {
        pull: net.pull,
        bit,
        pin: is_any_read(sights, &alone),
        rest: is_any_read(sights, &rest),
    };
    Ok(some_pair(table_of(sights, &alone), table_of(sights, &rest), joint))
}

// ---- groups of pins

/// What a pin can drive, and whether it is read.
fn sight_of(sights: &[Vec<PortSight>], pin: Pin) -> PortSight
    ensures { result ≡ sight_in (map (λ t. t.items) sights.now) pin }
{
    if pin.device < sights.len() {
        let ports = &sights[pin.device];
        if pin.port < ports.len() {
            return ports[pin.port];
        }
    }
    PortSight {
        can: NOTHING,
        read: false,
    }
}

/// What pins can make together, by a table of the eight.
fn table_of(sights: &[Vec<PortSight>], pins: &[Pin]) -> Table
    ensures { result ≡ table (makes_in (map (λ t. t.items) sights.now) pins.now) }
{
    let mut table = NO_PINS;
    let mut k = pins.len();
    while k > 0 {
        k -= 1;
        table = with_pin(sight_of(sights, pins[k]).can, table);
    }
    table
}

/// Whether one of these pins is read.
fn is_any_read(sights: &[Vec<PortSight>], pins: &[Pin]) -> bool
    ensures { result ≡ any_read_in (map (λ t. t.items) sights.now) pins.now }
{
    pins.iter().any(|pin| sight_of(sights, *pin).read)
}

// ---- what is seen otherwise

/// An open joint: the pull of its net, the bit to which its pin floats, and whether its pin is read, and one of the rest.
#[derive(Drop, Clone, Copy)]
pub(crate) struct OpenJoint {
    pull: Pull,
    bit: bool,
    pin: bool,
    rest: bool,
}

/// Whether some of what pins can make is seen otherwise with the other pull.
fn some_pulled(table: Table, pull: Pull, read: bool) -> bool
    ensures { result ≡ some_single (at_driven table) (pull_differs pull read) }
{
    ALL.iter()
        .any(|f| table.can(*f) && pull_differs(pull, read, *f))
}

/// Whether some of what pins can make is seen otherwise where the net is stuck.
fn some_stuck(table: Table, pull: Pull, bit: bool, read: bool) -> bool
    ensures { result ≡ some_single (at_driven table) (stuck_differs pull bit read) }
{
    ALL.iter()
        .any(|f| table.can(*f) && stuck_differs(pull, bit, read, *f))
}

/// Whether some of what the pin of an open joint and the rest of its net can make is seen otherwise.
fn some_pair(pin: Table, rest: Table, joint: OpenJoint) -> bool
    ensures { result ≡ spec.some_pair (at_driven pin) (at_driven rest)
        (open_differs joint.pull joint.bit joint.pin joint.rest) }
{
    ALL.iter()
        .any(|f| pin.can(*f) && some_second(rest, joint, *f))
}

fn some_second(rest: Table, joint: OpenJoint, f: Driven) -> bool
    ensures { result ≡ list_any
        (λ g. at_driven rest g && open_differs joint.pull joint.bit joint.pin joint.rest f g) all_driven }
{
    ALL.iter()
        .any(|g| rest.can(*g) && open_differs(joint, f, *g))
}

fn pull_differs(pull: Pull, read: bool, f: Driven) -> bool
    ensures { result ≡ spec.pull_differs pull read f }
{
    read && pulled(pull).together(f).sees() != pulled(turned(pull)).together(f).sees()
}

fn stuck_differs(pull: Pull, bit: bool, read: bool, f: Driven) -> bool
    ensures { result ≡ spec.stuck_differs pull bit read f }
{
    read && pulled(pull).together(f).sees() != bit
}

fn open_differs(joint: OpenJoint, f: Driven, g: Driven) -> bool
    ensures { result ≡ open_differs joint.pull joint.bit joint.pin joint.rest f g }
{
    let before = pulled(joint.pull).together(f.together(g)).sees();
    (joint.pin && before != pulled(pull_to(joint.bit)).together(f).sees())
        || (joint.rest && before != pulled(rest_pull(joint.bit, joint.pull)).together(g).sees())
}

/// What ports see of a bridge with this pull whose nets' pins drive these.
pub fn bridge_sees(winner: Winner, pull: Pull, f: Driven, g: Driven) -> bool
    ensures { result ≡ spec.bridge_sees winner pull f g }
{
    let all = pulled(pull).together(f.together(g));
    if all.zero && all.one {
        match winner {
            Winner::Zeros => false,
            Winner::Ones => true,
            Winner::First => f.one && !f.zero,
            Winner::Second => g.one && !g.zero,
        }
    } else {
        all.sees()
    }
}
