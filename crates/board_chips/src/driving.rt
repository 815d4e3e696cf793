//! The pins of a board that a cell drives, in a table of the cells.

ghost use Rattle.std.specs.Prelude.{◌≡◌, ◌<◌, ◌+◌, ◌*◌, ◌%◌, ◌++◌, ℕ, List, [], ◌∷◌, length, IfOk, OnOk, true, false};
ghost use Rattle.std.specs.BTreeSet.{contains_by};
ghost use Rattle.std.specs.List.{Contains, list_any};
ghost use Rattle.std.specs.Ordering.{nat_cmp};
ghost use Rattle.boundary.specs.Cells.{driver_from};
ghost use Rattle.board_plan.specs.Planned.{all_pins};
ghost use Rattle.board_chips.specs.Blocks.{AreParts, AreSlots, HasRoom};
ghost use Rattle.board_chips.specs.Driving.{driving_of, with_driving};
ghost use Rattle.board_chips.specs.Strings.{puts};
ghost use Rattle.board_chips.specs.Tables.{AreDrivenBelow, IsApart, IsTable, WerePut};
ghost use Rattle.board_chips.specs.Wires.{ArePinsBelow};
ghost use Rattle.board_chips.specs.declared.driving.DrivingPin.{DrivingPin as Entry};
ghost use Rattle.bsdl_device.specs.declared.Cell.{Cell as TheCell};
ghost use Rattle.pin_nets.specs.declared.Drive.{Drive};

use crate::block_numbers::BlockNumbers;
use crate::chip::WiredChip;
use crate::strings::WiredString;
use crate::wiring::Wiring;
use crate::words::{bit, with_bit};
use boundary::DrivenCells;
use bsdl_device::Cell;
use std::alloc::{AllocError, Global};
use std::collections::BTreeSet;
use std::marker::Model;

/// A pin of a board, by its number, that a cell drives: the place of its device, and the cell.
#[derive(Drop, Clone, Copy)]
pub(crate) struct DrivingPin {
    pub(crate) device: usize,
    pub(crate) cell: usize,
    pub(crate) pin: usize,
}

/// 64 cells of a device among which some drive pins.
#[derive(Drop, Clone, Copy)]
pub(crate) struct Block {
    pub(crate) device: usize,
    /// The number of the first of these cells, a multiple of 64.
    pub(crate) first: usize,
    /// Which of them drive a pin: bit `j` is that of the cell `first + j`.
    pub(crate) slots: u64,
}

/// The pins of a board that a cell drives, by their cells, with what was last put to their nets. Any other pin drives
/// nothing, whatever the devices do.
#[derive(Drop)]
pub struct DrivingPins {
    pub(crate) blocks: Vec<Block>,
    /// Of each block the pins that its 64 cells drive; that of a cell that drives none does not count.
    pub(crate) pins: Vec<usize>,
    /// Of each block what was last put to its pins.
    pub(crate) put: Vec<DrivenCells>,
    /// The pins that stand in no block: those that strings put, and those whose cells are few among their 64.
    pub(crate) rest: Vec<DrivingPin>,
}

impl Model for DrivingPins {
    ghost use Rattle.board_chips.specs.DrivingTable.{DrivingTable};

    ghost Value = { DrivingTable };

    ghost view = { λ d. record {
      blocks = d.blocks.items;
      pins = d.pins.items;
      put = d.put.items;
      rest = d.rest.items;
    } };
}

const NO_CELLS: DrivenCells = DrivenCells {
    own: 0,
    bits: 0,
    off: 0,
    mute: 0,
};

/// So many pins among 64 cells make a block. For fewer it takes longer to look for them than to ask each cell.
const BLOCK_PINS: usize = 8;

/// The pins that a cell drives, to whose nets nothing is known to have been put. Those that strings put stand in no
/// block, since a string puts them anew whatever was put there last. Refused where memory runs out.
pub fn driving_pins(
    alloc: Global,
    wiring: &Wiring,
    chips: &[WiredChip],
    strings: &[WiredString],
) -> Result<DrivingPins, AllocError>
    requires { ArePinsBelow (length chips.now) (all_pins wiring.now.nets) }
    ensures table { IfOk result (λ d. IsTable (driving_of chips.now wiring.now.nets) (length chips.now) d) }
    ensures put { IfOk result (λ d. (cells : List (List TheCell)) (drives : List Drive)
        → WerePut cells d.blocks d.pins d.put drives) }
    ensures apart { IfOk result (λ d. IsApart strings.now d) }
{
    let all = all_driving(alloc, wiring, chips)?;
    let counts = block_counts(alloc, chips, &all)?;
    let taken = pins_of_strings(alloc, strings)?;
    let mut close = Vec::new(alloc);
    let mut rest = Vec::new(alloc);
    divide(&counts, &taken, &all, &mut close, &mut rest)?;
    let places = BlockNumbers::zeros(alloc, chips, &close)?;
    let (blocks, pins) = blocks_of(alloc, places, &close)?;
    let put = Vec::from_elem(alloc, NO_CELLS, blocks.len())?;
    Ok(DrivingPins {
        blocks,
        pins,
        put,
        rest,
    })
}

/// The pins that a cell drives, one after another.
fn all_driving(
    alloc: Global,
    wiring: &Wiring,
    chips: &[WiredChip],
) -> Result<Vec<DrivingPin>, AllocError>
    requires { ArePinsBelow (length chips.now) (all_pins wiring.now.nets) }
    ensures { IfOk result (λ v. v.items ≡ driving_of chips.now wiring.now.nets) }
{
    let mut driving = Vec::new(alloc);
    for k in 0..wiring.pin_count() {
        let pin = wiring.pin(k);
        let driver = chips[pin.device].driver(pin.port);
        enter(&mut driving, k, pin.device, driver)?;
    }
    Ok(driving)
}

/// One more pin, if a cell drives it.
fn enter(
    driving: &mut Vec<DrivingPin>,
    pin: usize,
    device: usize,
    driver: Option<usize>,
) -> Result<(), AllocError>
    ensures { OnOk result (driving.new.items ≡ driving.old.items ++ with_driving pin device driver []) }
{
    if let Some(cell) = driver {
        driving.push(DrivingPin { device, cell, pin })?;
    }
    Ok(())
}

/// Of each 64 cells of a device how many drive a pin.
fn block_counts(
    alloc: Global,
    chips: &[WiredChip],
    all: &[DrivingPin],
) -> Result<BlockNumbers, AllocError> {
    let mut counts = BlockNumbers::zeros(alloc, chips, all)?;
    for it in all {
        counts.put(*it, counts.number(*it).saturating_add(1));
    }
    Ok(counts)
}

/// The pins that strings put, by their numbers.
fn pins_of_strings(alloc: Global, strings: &[WiredString]) -> Result<BTreeSet<usize>, AllocError>
    ensures { IfOk result (λ taken. (k : ℕ) → contains_by (nat_cmp k) taken ≡ list_any (puts k) strings.now) }
{
    let mut taken = BTreeSet::new(alloc);
    for string in strings {
        if let Some(pin) = string.pin {
            taken.insert(pin)?;
        }
    }
    Ok(taken)
}

/// The pins that stand in blocks, none of them one that a string puts, and those that go one by one.
fn divide(
    counts: &BlockNumbers,
    taken: &BTreeSet<usize>,
    all: &[DrivingPin],
    close: &mut Vec<DrivingPin>,
    rest: &mut Vec<DrivingPin>,
) -> Result<(), AllocError>
    requires close { close.old.items ≡ [] }
    requires rest { rest.old.items ≡ [] }
    ensures parts { OnOk result (AreParts all.now close.new.items rest.new.items) }
    ensures apart { OnOk result ((e : Entry) → Contains close.new.items e
        → contains_by (nat_cmp e.pin) taken.now ≡ false) }
{
    for it in all {
        if goes_alone(counts, taken, *it) {
            rest.push(*it)?;
        } else {
            close.push(*it)?;
        }
    }
    Ok(())
}

/// Whether a string puts a pin, or fewer of its cell's 64 drive pins than make a block. All are put to their nets
/// alike, so no clause says which is which, but that those that strings put are among them.
fn goes_alone(counts: &BlockNumbers, taken: &BTreeSet<usize>, it: DrivingPin) -> bool
    ensures { result ≡ false → contains_by (nat_cmp it.pin) taken.now ≡ false }
{
    taken.contains(&it.pin) || counts.number(it) < BLOCK_PINS
}

/// The blocks of these pins' cells, and the pins of each block. `places` has for each 64 cells which block is theirs,
/// as soon as there is one.
fn blocks_of(
    alloc: Global,
    places: BlockNumbers,
    driving: &[DrivingPin],
) -> Result<(Vec<Block>, Vec<usize>), AllocError>
    ensures { IfOk result (λ t. (n : ℕ) → AreDrivenBelow n driving.now
        → AreSlots driving.now n t.0.items t.1.items) }
{
    let mut places = places;
    let mut blocks = Vec::new(alloc);
    let mut pins = Vec::new(alloc);
    for it in driving {
        let place = enter_slot(&mut blocks, &mut pins, places.number(*it), *it)?;
        places.put(*it, place);
    }
    Ok((blocks, pins))
}

/// One more pin: in the block at a place, if that has room for it, or in a new one. Answers the place of its block.
fn enter_slot(
    blocks: &mut Vec<Block>,
    pins: &mut Vec<usize>,
    place: usize,
    it: DrivingPin,
) -> Result<usize, AllocError>
    requires { length pins.old.items ≡ 64 * length blocks.old.items }
    ensures long { OnOk result (length pins.new.items ≡ 64 * length blocks.new.items) }
    ensures slots { OnOk result ((n : ℕ) (es : List Entry) → it.device < n
        → AreSlots es n blocks.old.items pins.old.items
        → AreSlots (es ++ it ∷ []) n blocks.new.items pins.new.items) }
{
    if !has_room(blocks, place, it) {
        return open(blocks, pins, it);
    }
    fill(blocks, pins, place, it);
    Ok(place)
}

/// Whether the cell of a pin is one of the block at a place, and drives no pin yet. Answered false in vain it opens a
/// block more, so the clause goes one way.
fn has_room(blocks: &[Block], place: usize, it: DrivingPin) -> bool
    ensures { result ≡ true → HasRoom blocks.now place it }
{
    if place >= blocks.len() {
        return false;
    }
    let block = blocks[place];
    block.device == it.device
        && block.first == it.cell - it.cell % 64
        && !bit(block.slots, it.cell % 64)
}

/// One more block, with a pin. Answers its place.
fn open(blocks: &mut Vec<Block>, pins: &mut Vec<usize>, it: DrivingPin) -> Result<usize, AllocError>
    requires { length pins.old.items ≡ 64 * length blocks.old.items }
    ensures long { OnOk result (length pins.new.items ≡ 64 * length blocks.new.items) }
    ensures slots { OnOk result ((n : ℕ) (es : List Entry) → it.device < n
        → AreSlots es n blocks.old.items pins.old.items
        → AreSlots (es ++ it ∷ []) n blocks.new.items pins.new.items) }
{
    let place = blocks.len();
    open_empty(blocks, pins, it)?;
    fill(blocks, pins, place, it);
    Ok(place)
}

/// One more block, for the cell of a pin.
fn open_empty(
    blocks: &mut Vec<Block>,
    pins: &mut Vec<usize>,
    it: DrivingPin,
) -> Result<(), AllocError>
    requires { length pins.old.items ≡ 64 * length blocks.old.items }
    ensures long { OnOk result (length pins.new.items ≡ 64 * length blocks.new.items) }
    ensures room { OnOk result (HasRoom blocks.new.items (length blocks.old.items) it) }
    ensures slots { OnOk result ((n : ℕ) (es : List Entry) → it.device < n
        → AreSlots es n blocks.old.items pins.old.items → AreSlots es n blocks.new.items pins.new.items) }
{
    pins.extend_from_slice(&[0; 64])?;
    blocks.push(Block {
        device: it.device,
        first: it.cell - it.cell % 64,
        slots: 0,
    })?;
    Ok(())
}

/// A pin is entered in the block at a place, at the slot of its cell.
fn fill(blocks: &mut Vec<Block>, pins: &mut Vec<usize>, place: usize, it: DrivingPin)
    requires long { length pins.old.items ≡ 64 * length blocks.old.items }
    requires room { HasRoom blocks.old.items place it }
    ensures long { length pins.new.items ≡ 64 * length blocks.new.items }
    ensures slots { (n : ℕ) (es : List Entry) → AreSlots es n blocks.old.items pins.old.items
        → AreSlots (es ++ it ∷ []) n blocks.new.items pins.new.items }
{
    let j = it.cell % 64;
    let block = blocks[place];
    blocks[place] = Block {
        slots: with_bit(block.slots, j),
        ..block
    };
    pins[64 * place + j] = it.pin;
}

/// The first of these cells that drives a port bit.
pub(crate) fn first_driver(list: &[Cell], port: usize) -> Option<usize>
    ensures { result ≡ driver_from port 0 list.now }
{
    for k in 0..list.len() {
        if list[k].function.drives() && list[k].port == Some(port) {
            return Some(k);
        }
    }
    None
}
