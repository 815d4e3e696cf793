//! What the captures of one play tell of a board's faults.
ghost use Rattle.std.specs.Prelude.{◌≡◌, drop, map, take, IfOk};
ghost use Rattle.std.specs.List.{remove};
ghost use Rattle.board_plan.specs.View.{net as planned_net};
ghost use Rattle.board_faults.specs.declared.kinds.Way.TheVariants as way;
ghost use Rattle.fault_events.specs.Captures.{seen};
ghost use Rattle.fault_events.specs.Endings as endings;
ghost use Rattle.fault_events.specs.Endings.{ending_noted};
ghost use Rattle.fault_events.specs.Blocks.{IsBlock, noted_in, starts_of};

use crate::captures::Capture;
use crate::differing::{first_other, stays_other};
use crate::nets::{
    NetCapture, all_of, all_with, behind, front, net_captures, net_ending, pulls_of,
};
use crate::notes::Note;
use crate::tables::net_starts;
use board_faults::Way;
use board_plan::PlannedNet;
use play_model::Ending;
use std::alloc::{AllocError, Global};

/// Some captures of the data column in one play, one after another: what is noted at each of every pin of the board's
/// nets, net after net, and of every net; and where the pins of each net begin.
#[derive(Drop)]
pub struct Block {
    pins: Vec<Capture>,
    nets: Vec<NetCapture>,
    starts: Vec<usize>,
}

impl Block {
    ghost use Rattle.std.specs.Prelude.{◌≡◌};

    /// What is noted of every net, capture after capture.
    pub fn captures(&self) -> &[NetCapture]
        ensures { result.now ≡ self.now.nets.items }
    {
        &self.nets
    }

    /// The same, without what is noted of pins.
    pub fn into_captures(self) -> Vec<NetCapture>
        ensures { result ≡ self.nets }
    {
        self.nets
    }
}

/// Captures of a play on these nets, as faults are judged by them. Refused where memory runs out.
pub fn block_of(alloc: Global, nets: &[PlannedNet], pins: Vec<Capture>) -> Result<Block, AllocError>
    ensures block { IfOk result (IsBlock (map planned_net nets.now)) }
    ensures noted { IfOk result (λ b. noted_in b ≡ map seen pins.items) }
{
    let by_net = net_captures(alloc, nets, &pins)?;
    let starts = net_starts(alloc, nets)?;
    Ok(Block {
        pins,
        nets: by_net,
        starts,
    })
}

/// How a program that passes ends on the board where a fault of these nets shows in a way, by these captures of it.
/// Nothing where they do not tell: where a bit that stays in a register is another before one that is wanted. Such a
/// way is to be played as a whole.
///
/// Asks that they are of these nets.
pub fn way_ending(block: &Block, nets: &[PlannedNet], way: Way) -> Option<Ending>
    requires { IsBlock (map planned_net nets.now) block.now }
    ensures { result ≡ ending_noted (map planned_net nets.now) way (noted_in block.now) }
{
    match way {
        Way::Open { net, pin, bit } => open_ending(&block.pins, &block.starts, nets, net, pin, bit),
        Way::Pull { net } => net_ending(&block.nets, way, pulls_of(nets, net, net), net, net),
        Way::Stuck { net, .. } => net_ending(&block.nets, way, pulls_of(nets, net, net), net, net),
        Way::Short { first, second, .. } => {
            net_ending(
                &block.nets,
                way,
                pulls_of(nets, first, second),
                first,
                second,
            )
        }
    }
}

/// The same of a pin whose joint is open, by its captures and where the pins of each net begin.
fn open_ending(
    list: &[Capture],
    starts: &[usize],
    nets: &[PlannedNet],
    net: usize,
    pin: usize,
    bit: bool,
) -> Option<Ending>
    requires { starts.now ≡ starts_of (map planned_net nets.now) }
    ensures { result ≡ ending_noted (map planned_net nets.now) (way.Open net pin bit) (map seen list.now) }
{
    let way = Way::Open { net, pin, bit };
    let pulls = pulls_of(nets, net, net);
    for capture in list {
        let its = notes_of(starts, nets, net, &capture.pins);
        let one = pin_note(its, pin);
        let two = rest_note(its, pin);
        if let Some(spot) = first_other(way, pulls, one, two) {
            return Some(Ending::Fail {
                command: capture.command,
                part: spot.part,
                bit: spot.bit,
            });
        }
        if stays_other(way, pulls, one, two) {
            return None;
        }
    }
    Some(Ending::Pass)
}

/// Of the notes of all pins, net after net, those of a net's, by where the pins of each net begin.
fn notes_of<'a>(starts: &[usize], nets: &[PlannedNet], net: usize, notes: &'a [Note]) -> &'a [Note]
    requires { starts.now ≡ starts_of (map planned_net nets.now) }
    ensures { result.now ≡ endings.notes_of (map planned_net nets.now) net notes.now }
{
    let count = nets.len();
    if net < count {
        front(behind(notes, starts[net]), nets[net].pins.len())
    } else {
        &[]
    }
}

/// What is noted of one of these pins.
fn pin_note(notes: &[Note], pin: usize) -> Note
    ensures { result ≡ endings.all_of (take 1 (drop pin notes.now)) }
{
    all_of(front(behind(notes, pin), 1))
}

/// What is noted of the others together.
fn rest_note(notes: &[Note], pin: usize) -> Note
    ensures { result ≡ endings.all_of (remove notes.now pin) }
{
    all_with(front(notes, pin), all_of(behind(behind(notes, pin), 1)))
}
