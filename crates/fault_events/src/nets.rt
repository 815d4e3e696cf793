//! Captures as faults of whole nets are judged by them: what is noted of each net.
ghost use Rattle.std.specs.Prelude.{◌≡◌, ◌++◌, drop, map, take, IfOk, OnOk};
ghost use Rattle.board_plan.specs.View.{net as planned_net};
ghost use Rattle.fault_events.specs.Captures as captures;
ghost use Rattle.fault_events.specs.Endings as endings;
ghost use Rattle.fault_events.specs.Nets as spec;
ghost use Rattle.fault_events.specs.Nets.{ending_by_nets, nets_noted, seen, with_nets_noted};
ghost use Rattle.fault_events.specs.Notes.{net_at};

use crate::captures::Capture;
use crate::differing::{Pulls, both, first_other, stays_other};
use crate::notes::Note;
use board_faults::{Driven, Way};
use board_plan::PlannedNet;
use pin_nets::Pull;
use play_model::Ending;
use std::alloc::{AllocError, Global};

/// A capture of the data column: the number of its statement, from 1, and what is noted of each net's pins together.
#[derive(Drop)]
pub struct NetCapture {
    pub command: usize,
    pub nets: Vec<Note>,
}

/// Captures with what is noted of each net, by what is noted of its pins. Refused where memory runs out.
pub fn net_captures(
    alloc: Global,
    nets: &[PlannedNet],
    list: &[Capture],
) -> Result<Vec<NetCapture>, AllocError>
    ensures { IfOk result
        (λ v. map seen v.items ≡ map (λ c. with_nets_noted (map planned_net nets.now) (captures.seen c)) list.now) }
{
    let mut all = Vec::with_capacity(alloc, list.len())?;
    put_net_captures(alloc, nets, list, &mut all)?;
    Ok(all)
}

/// The same, put behind others.
pub fn put_net_captures(
    alloc: Global,
    nets: &[PlannedNet],
    list: &[Capture],
    all: &mut Vec<NetCapture>,
) -> Result<(), AllocError>
    ensures { OnOk result (map seen all.new.items
        ≡ map seen all.old.items ++ map (λ c. with_nets_noted (map planned_net nets.now) (captures.seen c)) list.now) }
{
    for capture in list {
        all.push(NetCapture {
            command: capture.command,
            nets: net_notes(alloc, nets, &capture.pins)?,
        })?;
    }
    Ok(())
}

/// What is noted of each net, by the notes of all pins, net after net.
fn net_notes(alloc: Global, nets: &[PlannedNet], notes: &[Note]) -> Result<Vec<Note>, AllocError>
    ensures { IfOk result (λ v. v.items ≡ nets_noted (map planned_net nets.now) notes.now) }
{
    let mut all = Vec::with_capacity(alloc, nets.len())?;
    let mut rest = notes;
    for net in nets {
        all.push(all_of(front(rest, net.pins.len())))?;
        rest = behind(rest, net.pins.len());
    }
    Ok(all)
}

pub(crate) fn front(notes: &[Note], n: usize) -> &[Note]
    ensures { result.now ≡ take n notes.now }
{
    if n < notes.len() { &notes[..n] } else { notes }
}

pub(crate) fn behind(notes: &[Note], n: usize) -> &[Note]
    ensures { result.now ≡ drop n notes.now }
{
    if n < notes.len() { &notes[n..] } else { &[] }
}

/// What is noted of pins together.
pub(crate) fn all_of(notes: &[Note]) -> Note
    ensures { result ≡ endings.all_of notes.now }
{
    all_with(notes, NOTHING_NOTED)
}

/// What is noted of pins together, and of others behind them.
pub(crate) fn all_with(notes: &[Note], rest: Note) -> Note
    ensures { result ≡ endings.all_with notes.now rest }
{
    let mut all = rest;
    let mut k = notes.len();
    while k > 0 {
        k -= 1;
        all = both(notes[k], all);
    }
    all
}

/// What is noted of no pins.
const NOTHING_NOTED: Note = Note {
    made: Driven {
        zero: false,
        one: false,
        weak: false,
    },
    first: None,
    stays: false,
};

/// How a program that passes ends where a fault of whole nets shows in a way, by its captures; nothing where they do
/// not tell, since a bit that stays in a register is another: there the way is to be played as a whole.
pub fn net_ending(
    captures: &[NetCapture],
    way: Way,
    pulls: Pulls,
    first: usize,
    second: usize,
) -> Option<Ending>
    ensures { result ≡ ending_by_nets way pulls first second (map seen captures.now) }
{
    for capture in captures {
        let one = note_at(first, &capture.nets);
        let two = note_at(second, &capture.nets);
        if let Some(spot) = first_other(way, pulls, one, two) {
            return Some(Ending::Fail {
                command: capture.command,
                part: spot.part,
                bit: spot.bit,
            });
        }
        if stays_other(way, pulls, one, two) {
            return None;
        }
    }
    Some(Ending::Pass)
}

/// What is noted of a net, by the notes of all.
pub fn note_at(k: usize, notes: &[Note]) -> Note
    ensures { result ≡ spec.note_at k notes.now }
{
    match notes.get(k) {
        Some(note) => *note,
        None => NOTHING_NOTED,
    }
}

/// The pulls of two nets.
pub fn pulls_of(nets: &[PlannedNet], first: usize, second: usize) -> Pulls
    ensures first { result.first ≡ (net_at (map planned_net nets.now) first).pull }
    ensures second { result.second ≡ (net_at (map planned_net nets.now) second).pull }
{
    Pulls {
        first: pull_of(nets, first),
        second: pull_of(nets, second),
    }
}

fn pull_of(nets: &[PlannedNet], net: usize) -> Pull
    ensures { result ≡ (net_at (map planned_net nets.now) net).pull }
{
    if net < nets.len() {
        nets[net].pull
    } else {
        Pull::Free
    }
}
