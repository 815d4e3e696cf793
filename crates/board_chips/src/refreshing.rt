//! What the pins that a cell drives drive is put to their nets, where it has changed.

ghost use Rattle.std.specs.Prelude.{◌≡◌, ◌<◌, ◌≤◌, ◌+◌, ◌*◌, ◌%◌, ◌&&◌, not, ℕ, List, Some, map, length, slice_get};
ghost use Rattle.std.specs.Prelude.{slice_set};
ghost use Rattle.jt_bits.specs.Packed.{has_bit};
ghost use Rattle.board_plan.specs.Planned.{all_pins};
ghost use Rattle.board_model.specs.Nets.{pin_drive};
ghost use Rattle.board_chips.specs.Blocks.{TellsBlock, stands};
ghost use Rattle.board_chips.specs.Driving.{cells_of, drives_at, entry_drives};
ghost use Rattle.board_chips.specs.WiredChips.{WiredChipValue, held_of};
ghost use Rattle.board_chips.specs.Tables.{AreTargeted, IsDriving, IsRefreshed, SlotsSettled, HasTargets, WerePut};
ghost use Rattle.board_chips.specs.Tables.{Settled, Settles, IsTargeted, WasPut, targets};
ghost use Rattle.board_chips.specs.declared.driving.Block.{Block as TheBlock};
ghost use Rattle.board_chips.specs.declared.driving.DrivingPin.{DrivingPin as Entry};

use crate::chip::WiredChip;
use crate::driving::{Block, DrivingPin, DrivingPins};
use crate::wiring::Wiring;
use crate::words::{bit, lowest, without_bit};
use boundary::{Drive, DrivenCells};

/// What each pin drives is put to its net, given the pins that a cell drives; what was put to the nets before is what
/// each pin drove while the registers of the devices were others.
///
/// Where eight or more of 64 cells drive a pin, only those are put of which it is not known that they drive what was
/// last put: their own bit, what their control leaves while it disables them, or nothing in HIGHZ. Pins of few among 64
/// are put each time.
pub fn refresh_driving(wiring: &mut Wiring, chips: &[WiredChip], driving: &mut DrivingPins)
    requires { IsDriving (map cells_of chips.now) wiring.old driving.old }
    ensures nets { wiring.new.nets ≡ wiring.old.nets }
    ensures driving { IsDriving (map cells_of chips.now) wiring.new driving.new }
    ensures table { driving.new ≡ record driving.old { put = driving.new.put } }
    ensures drives { (before : List WiredChipValue) → map cells_of before ≡ map cells_of chips.now
        → wiring.old.drives ≡ map (pin_drive (map held_of before)) (all_pins wiring.old.nets)
        → wiring.new ≡ record wiring.old {
          drives = map (pin_drive (map held_of chips.now))
              (all_pins wiring.old.nets);
        } }
{
    refresh_blocks(
        wiring,
        chips,
        &driving.blocks,
        &driving.pins,
        &mut driving.put,
    );
    refresh_rest(wiring, chips, &driving.rest);
}

/// What the cells of all blocks drive is put to their nets.
fn refresh_blocks(
    wiring: &mut Wiring,
    chips: &[WiredChip],
    blocks: &[Block],
    pins: &[usize],
    put: &mut [DrivenCells],
)
    requires full { length wiring.old.drives ≡ length (all_pins wiring.old.nets) }
    requires long { length pins.now ≡ 64 * length blocks.now }
    requires slots { (i : ℕ) (b : TheBlock) → slice_get blocks.now i ≡ Some b
        → AreTargeted (map held_of chips.now) (targets chips.now wiring.old.nets) pins.now (64 * i) b }
    requires put { WerePut (map cells_of chips.now) blocks.now pins.now put.old wiring.old.drives }
    ensures nets { wiring.new.nets ≡ wiring.old.nets }
    ensures settles { Settles (targets chips.now wiring.old.nets) wiring.old.drives wiring.new.drives }
    ensures long { length put.new ≡ length put.old }
    ensures blocks { (i : ℕ) (b : TheBlock) → slice_get blocks.now i ≡ Some b
        → IsRefreshed (map cells_of chips.now) (map held_of chips.now) (targets chips.now wiring.old.nets)
        wiring.new.drives pins.now put.new i b }
{
    for i in 0..blocks.len() {
        let now = refresh_block(wiring, chips, blocks[i], pins, 64 * i, put[i]);
        put[i] = now;
    }
}

/// What the cells of a block drive is put to their nets. Answers what they drive, as words tell it.
fn refresh_block(
    wiring: &mut Wiring,
    chips: &[WiredChip],
    block: Block,
    pins: &[usize],
    at: usize,
    put: DrivenCells,
) -> DrivenCells
    requires full { length wiring.old.drives ≡ length (all_pins wiring.old.nets) }
    requires room { at + 64 ≤ length pins.now }
    requires slots { AreTargeted (map held_of chips.now) (targets chips.now wiring.old.nets) pins.now at block }
    requires put { WasPut (map cells_of chips.now) (map held_of chips.now) (targets chips.now wiring.old.nets)
        wiring.old.drives pins.now at block put }
    ensures nets { wiring.new.nets ≡ wiring.old.nets }
    ensures settles { Settles (targets chips.now wiring.old.nets) wiring.old.drives wiring.new.drives }
    ensures settled { SlotsSettled (targets chips.now wiring.old.nets) wiring.new.drives pins.now at block.slots }
    ensures tells { TellsBlock (map cells_of chips.now) (map held_of chips.now) block result }
{
    let now = chips[block.device].driven_cells(block.first);
    let changed = changed_slots(block.slots, put, now);
    put_slots(wiring, chips, block, now, pins, at, changed);
    now
}

/// The slots of which it is not known that their cells drive what was put.
fn changed_slots(slots: u64, put: DrivenCells, now: DrivenCells) -> u64
    ensures { (j : ℕ) → j < 64 → has_bit result j ≡ (has_bit slots j && not (stands put now j)) }
{
    let own = slots & put.own & now.own;
    let other = slots & (put.off & now.off | put.mute & now.mute);
    (slots & !own | own & (put.bits ^ now.bits)) & !other
}

/// What the cells of these slots of a block drive is put to their nets.
fn put_slots(
    wiring: &mut Wiring,
    chips: &[WiredChip],
    block: Block,
    now: DrivenCells,
    pins: &[usize],
    at: usize,
    slots: u64,
)
    requires full { length wiring.old.drives ≡ length (all_pins wiring.old.nets) }
    requires room { at + 64 ≤ length pins.now }
    requires device { block.device < length chips.now }
    requires first { block.first % 64 ≡ 0 }
    requires now { TellsBlock (map cells_of chips.now) (map held_of chips.now) block now }
    requires slots { HasTargets (map held_of chips.now) (targets chips.now wiring.old.nets) pins.now at block slots }
    ensures nets { wiring.new.nets ≡ wiring.old.nets }
    ensures settles { Settles (targets chips.now wiring.old.nets) wiring.old.drives wiring.new.drives }
    ensures settled { SlotsSettled (targets chips.now wiring.old.nets) wiring.new.drives pins.now at slots }
{
    let mut left = slots;
    while left != 0 {
        let j = lowest(left);
        let drive = drive_in(chips, block, now, j);
        wiring.place(pins[at + j], drive);
        left = without_bit(left, j);
    }
}

/// What cell `j` of a block drives: its own bit, as the words tell, or what its device says.
fn drive_in(chips: &[WiredChip], block: Block, now: DrivenCells, j: usize) -> Drive
    requires within { j < 64 }
    requires device { block.device < length chips.now }
    requires first { block.first % 64 ≡ 0 }
    requires now { TellsBlock (map cells_of chips.now) (map held_of chips.now) block now }
    ensures { result ≡ drives_at (map held_of chips.now) block.device (block.first + j) }
{
    if bit(now.own, j) {
        return Drive::Strong(bit(now.bits, j));
    }
    chips[block.device].driven(block.first + j)
}

/// What the cells of pins that stand in no block drive is put to their nets.
fn refresh_rest(wiring: &mut Wiring, chips: &[WiredChip], rest: &[DrivingPin])
    requires full { length wiring.old.drives ≡ length (all_pins wiring.old.nets) }
    requires rest { (k : ℕ) (e : Entry) → slice_get rest.now k ≡ Some e
        → IsTargeted (map held_of chips.now) (targets chips.now wiring.old.nets) e }
    ensures nets { wiring.new.nets ≡ wiring.old.nets }
    ensures settles { Settles (targets chips.now wiring.old.nets) wiring.old.drives wiring.new.drives }
    ensures settled { (k : ℕ) (e : Entry) → slice_get rest.now k ≡ Some e
        → Settled (targets chips.now wiring.old.nets) wiring.new.drives e.pin }
{
    for it in rest {
        put_one(wiring, chips, *it);
    }
}

/// What the cell of a pin drives is put to its net.
fn put_one(wiring: &mut Wiring, chips: &[WiredChip], it: DrivingPin)
    requires device { it.device < length chips.now }
    requires pin { it.pin < length (all_pins wiring.old.nets) }
    ensures { wiring.new ≡ record wiring.old {
      drives = slice_set wiring.old.drives it.pin (entry_drives (map held_of chips.now) it);
    } }
{
    wiring.place(it.pin, chips[it.device].driven(it.cell));
}
