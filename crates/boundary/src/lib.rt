//! The boundary register of a device on the board: what its cells capture, what a reset gives them, what the pins drive
//! (IEEE Std 1149.1-2001, clauses 8 and 11, and Annex B.8.14 for the cell table).
#![tactic(auto)]

ghost use Rattle.std.specs.Prelude.{◌≡◌, ◌<◌, ◌+◌, ℕ, List, length, true, Some, IfOk};
ghost use Rattle.jt_bits.specs.Words.{bit_of};
ghost use Rattle.boundary.specs.Cells as cells;
ghost use Rattle.boundary.specs.Cells.{AreDisabling, AreDrivers, BoundaryValue, DrivenByCell, EntersDisabling};
ghost use Rattle.boundary.specs.Cells.{EntersDriver, IsWhole};
ghost use Rattle.boundary.specs.Controls.{AreGroups};
ghost use Rattle.boundary.specs.Driven.{TellsBy, TellsCells};
ghost use Rattle.boundary.specs.Plain.{plain_cells};
ghost use Rattle.boundary.specs.Sight.{CapturesBySight};
ghost use Rattle.bsdl_device.specs.declared.Cell.{Cell as TheCell};

mod captures;
mod controls;
mod resets;
mod sights;

use bsdl_device::{Cell, Control3, Disabled, Function};
pub use captures::sighted_port;
use captures::{Masks, capture_all, held_bits, masks_of, takes_update};
use chip_registers::{Mode, Register, SharedDevice, WordRegister};
use controls::{Controls, by_groups, controls_of};
use jt_bits::Bits;
pub use pin_nets::Drive;
use resets::reset_all;
use sights::Sights;
use std::alloc::{AllocError, Global};
use std::marker::Model;

/// The cells of a device with what each was last told that its port sees, their core's bits, and the two lists of the
/// register; beside them the disabling values that a reset gives, which cells capture what, have no control, and take
/// their disabling values, and which are disabled together.
#[derive(Drop)]
pub struct Boundary {
    stage: Bits,
    update: Bits,
    seen: Sights,
    core: Bits,
    masks: Masks,
    controls: Controls,
    disabling: Bits,
    device: SharedDevice,
    extest_update: bool,
}

impl Model for Boundary {
    ghost use Rattle.std.specs.Prelude.{◌≡◌, length};
    ghost use Rattle.boundary.specs.Cells.{AreDisabling, BoundaryValue};
    ghost use Rattle.boundary.specs.Controls.{AreGroups};
    ghost use Rattle.boundary.specs.Masks.{AreMasks};
    ghost use Rattle.boundary.specs.Plain.{plain_cells};
    ghost use Rattle.boundary.specs.Resets.{reset_cells};

    ghost Value = { BoundaryValue };

    ghost view = { λ b. record {
      cells = b.device.cells;
      core = b.core;
      extest_update = b.extest_update;
      seen = b.seen;
      stage = b.stage;
      update = b.update;
    } };

    ghost invariant = { λ b. record {
      core : length b.core ≡ length b.device.cells;
      seen : length b.seen ≡ length b.device.cells;
      stage : length b.stage ≡ length b.device.cells;
      update : length b.update ≡ length b.device.cells;
      disabling : AreDisabling b.device.cells b.disabling;
      masks : AreMasks b.device.cells b.masks.sighted b.masks.inner;
      plain : b.masks.plain ≡ plain_cells b.device.cells;
      reset : b.masks.reset ≡ reset_cells b.device.cells;
      controls : AreGroups b.device.cells b.controls.groups.items;
    } };
}

impl Register for Boundary {
    ghost use Rattle.std.specs.Prelude.{refl, slice_set};
    ghost use Rattle.boundary.specs.Cells as cells;
    ghost use Rattle.boundary.specs.Laws.{core_alone, seen_alone, taken_part};

    ghost stage = { λ b. b.stage };

    ghost update_part = { λ b. b.update };

    ghost with_parts = { λ b s u. record b { stage = s; update = u } };

    ghost captured = { cells.captured_bits };

    ghost at_reset = { cells.at_reset };

    ghost saw = { λ b cell bit. record b { seen = slice_set b.seen cell bit } };

    ghost cored = { λ b cell bit. record b { core = slice_set b.core cell bit } };

    fn len(&self) -> usize {
        self.stage.len()
    }

    fn get(&self, i: usize) -> bool {
        self.stage.get(i)
    }

    fn see(&mut self, cell: usize, bit: bool) {
        self.seen.set(cell, bit);
    }

    fn set_core(&mut self, cell: usize, bit: bool) {
        self.core.set(cell, bit);
    }

    fn capture(&mut self, mode: Mode) {
        let from_update = takes_update(self.extest_update, mode);
        let held = held_bits(from_update, &self.update, &self.core);
        capture_all(&self.masks, &self.seen, held, &self.core, &mut self.stage);
    }

    fn shift_in(&mut self, bit: bool) -> bool {
        self.stage.shift_in(bit)
    }

    fn word_at(&self, i: usize) -> u64 {
        self.stage.word_at(i)
    }

    fn put_run(&mut self, at: usize, bits: u64, n: usize) {
        self.stage.put_run(at, bits, n);
    }

    fn update(&mut self) {
        self.update.copy_from(&self.stage);
    }

    fn reset(&mut self) {
        reset_all(&self.masks.reset, &self.disabling, &mut self.update);
    }

    ghost stage_of = { λ r s u. refl };

    ghost update_of = { λ r s u. refl };

    ghost parts_twice = { λ r s u t v. refl };

    ghost parts_same = { λ r. refl };

    ghost captured_by_update = { λ r s mode. refl };

    ghost reset_by_update = { λ r s. refl };

    ghost sees_stage = { λ r cell bit. refl };

    ghost sees_update = { λ r cell bit. refl };

    ghost sees_alone = { λ r cell bit mode i apart. seen_alone r.cells r.seen r.update r.core
        (cells.takes_update r.extest_update mode) cell bit i apart };

    ghost sees_reset = { λ r cell bit. refl };

    ghost sees_parts = { λ r cell bit s u. refl };

    ghost cores_stage = { λ r cell bit. refl };

    ghost cores_update = { λ r cell bit. refl };

    ghost cores_alone = { λ r cell bit mode i apart. core_alone r.cells r.seen r.update r.core
        (cells.takes_update r.extest_update mode) cell bit i apart };

    ghost cores_reset = { λ r cell bit. refl };

    ghost cores_parts = { λ r cell bit s u. refl };

    ghost captured_part = { λ r mode i. taken_part r mode i };
}

impl WordRegister for Boundary {
    fn shift_word(&mut self, bits: u64, n: usize) -> u64 {
        self.stage.shift_word(bits, n)
    }
}

/// Once each cell with a port was told what its port sees, a capture is the board's.
pub fn captures_what_ports_see()
    ensures { CapturesBySight }
{}

/// The disabling value of each control cell: that of the lowest cell that names it, 0 if none does.
fn disabling_values(alloc: Global, list: &[Cell]) -> Result<Bits, AllocError>
    ensures { IfOk result (λ bits. AreDisabling list.now bits) }
{
    let mut bits = Bits::zeros(alloc, list.len())?;
    let mut k = list.len();
    while k > 0 {
        k -= 1;
        enter_disabling(&mut bits, list[k].control);
    }
    Ok(bits)
}

/// The control cell that a cell names takes the disabling value that it names.
fn enter_disabling(bits: &mut Bits, control: Option<Control3>)
    ensures { EntersDisabling bits.old bits.new control }
{
    if let Some(control) = control {
        if control.cell < bits.len() {
            bits.set(control.cell, control.disabling);
        }
    }
}

impl Boundary {
    /// The boundary register of a device at power-up: every bit 0, but for the controlr cells of the update stage,
    /// which have their disabling values. `core` has a bit for each cell; with `extest_update` a capture under EXTEST
    /// takes the update stage in place of the core's bits. Refuses for want of memory alone.
    pub fn new(
        alloc: Global,
        device: &SharedDevice,
        core: &Bits,
        extest_update: bool,
    ) -> Result<Boundary, AllocError>
        requires { length core.now ≡ length device.now.cells }
        ensures { IfOk result (λ b. b ≡ cells.powered device.now.cells core.now extest_update) }
    {
        let device = device.share()?;
        let masks = masks_of(alloc, device.get().cells())?;
        let disabling = disabling_values(alloc, device.get().cells())?;
        let mut update = Bits::zeros(alloc, core.len())?;
        reset_all(&masks.reset, &disabling, &mut update);
        let seen = Sights::none(alloc, device.get().cells())?;
        let stage = Bits::zeros(alloc, core.len())?;
        let controls = controls_of(alloc, device.get().cells())?;
        Ok(Boundary {
            device,
            masks,
            controls,
            disabling,
            core: core.try_clone(alloc)?,
            extest_update,
            seen,
            stage,
            update,
        })
    }

    /// The bits between TDI and TDO, that of cell 0, nearest TDO, at bit 0.
    pub fn stage(&self) -> &Bits
        ensures { result.now ≡ self.now.stage }
    {
        &self.stage
    }

    /// The bits that drive under EXTEST and CLAMP, that of cell 0, nearest TDO, at bit 0.
    pub fn update_stage(&self) -> &Bits
        ensures { result.now ≡ self.now.update }
    {
        &self.update
    }

    /// What a port bit drives in a mode.
    pub fn drive(&self, port: usize, mode: Mode) -> Drive
        ensures { result ≡ cells.drive_in mode self.now.cells self.now.update self.now.core port }
    {
        match mode {
            Mode::HighZ => Drive::Nothing,
            Mode::Extest | Mode::Clamp => drive_of(self.device.get().cells(), &self.update, port),
            Mode::Core => drive_of(self.device.get().cells(), &self.core, port),
        }
    }

    /// The cells, cell 0 nearest TDO; each of the four lists has a bit for each of them.
    pub fn cells(&self) -> &[Cell]
        ensures cells { result.now ≡ self.now.cells }
        ensures whole { IsWhole self.now }
    {
        self.device.get().cells()
    }

    /// What a port bit drives in a mode whose driving cell is this one; without a driving cell it drives nothing.
    pub fn driven(&self, driver: Option<usize>, mode: Mode) -> Drive
        ensures { result ≡ cells.driven_in mode self.now.cells self.now.update self.now.core driver }
    {
        let bits = match mode {
            Mode::HighZ => return Drive::Nothing,
            Mode::Extest | Mode::Clamp => &self.update,
            Mode::Core => &self.core,
        };
        drive_of_cell(self.device.get().cells(), bits, driver)
    }

    /// What each of the 64 cells from `first` on, a multiple of 64, drives its port with in a mode, where it drives
    /// one. Of a cell that no word tells of, nothing is known: that costs time alone, so the clause goes one way.
    pub fn driven_cells(&self, first: usize, mode: Mode) -> DrivenCells
        ensures { TellsCells mode self.now first result }
    {
        match mode {
            Mode::HighZ => DrivenCells {
                own: 0,
                bits: 0,
                off: 0,
                mute: u64::MAX,
            },
            Mode::Extest | Mode::Clamp => {
                driven_from(&self.masks.plain, &self.controls, &self.update, first)
            }
            Mode::Core => driven_from(&self.masks.plain, &self.controls, &self.core, first),
        }
    }
}

/// What 64 cells drive under the bits in force, with a mask of those without a control.
fn driven_from(mask: &Bits, controls: &Controls, bits: &Bits, first: usize) -> DrivenCells
    ensures { (all : List TheCell) → mask.now ≡ plain_cells all → AreGroups all controls.now.groups.items
        → TellsBy all bits.now first result }
{
    let from = controls.from(first);
    let words = by_groups(&controls.groups, from, bits, first);
    DrivenCells {
        own: mask.word_at(first) | words.on,
        bits: bits.word_at(first),
        off: words.off,
        mute: 0,
    }
}

/// What 64 cells drive their ports with, where they drive one. Bit `j` of each word is that of cell `j` of the 64; a
/// cell that has a bit in none of the three but `bits` may drive anything.
#[derive(Debug, Clone, Copy, Drop)]
pub struct DrivenCells {
    /// Which cells drive their own bits.
    pub own: u64,
    /// These bits.
    pub bits: u64,
    /// Which cells drive what their control leaves, since it disables them.
    pub off: u64,
    /// Which cells drive nothing, since the mode is HIGHZ.
    pub mute: u64,
}

/// What the driving cell drives under the bits in force.
fn drive_of_cell(list: &[Cell], bits: &Bits, driver: Option<usize>) -> Drive
    ensures { result ≡ cells.drive_of_driver bits.now driver list.now }
{
    match driver {
        None => Drive::Nothing,
        Some(k) => match list.get(k) {
            None => Drive::Nothing,
            Some(cell) => cell_drive(bits, k, cell.control),
        },
    }
}

/// A port bit's drive is that of its driving cell.
pub fn a_driving_cell_drives_its_port()
    ensures { DrivenByCell }
{}

/// For each of the first `ports` port bits the cell that drives it: the lowest that may. Refuses for want of memory
/// alone.
pub fn drivers(alloc: Global, list: &[Cell], ports: usize) -> Result<Vec<Option<usize>>, AllocError>
    ensures long { IfOk result (λ v. length v.items ≡ ports) }
    ensures drivers { IfOk result (λ v. AreDrivers list.now v.items) }
{
    let mut table = Vec::from_elem(alloc, None, ports)?;
    let mut k = list.len();
    while k > 0 {
        k -= 1;
        enter_driver(&mut table, k, list[k]);
    }
    Ok(table)
}

/// Cell `k` drives its port, if it drives.
fn enter_driver(table: &mut [Option<usize>], k: usize, cell: Cell)
    ensures { EntersDriver table.old table.new k cell }
{
    if let Some(port) = cell.port {
        if cell.function.drives() && port < table.len() {
            table[port] = Some(k);
        }
    }
}

/// The drive of a port bit under the bits in force.
fn drive_of(list: &[Cell], bits: &Bits, port: usize) -> Drive
    ensures { result ≡ cells.drive_from bits.now port 0 list.now }
{
    for k in 0..list.len() {
        if list[k].function.drives() && list[k].port == Some(port) {
            return cell_drive(bits, k, list[k].control);
        }
    }
    Drive::Nothing
}

fn cell_drive(bits: &Bits, k: usize, control: Option<Control3>) -> Drive
    ensures { result ≡ cells.cell_drive bits.now k control }
{
    match control {
        Some(control) if bit(bits, control.cell) == control.disabling => left_by(control.leaves),
        _ => Drive::Strong(bit(bits, k)),
    }
}

fn left_by(leaves: Disabled) -> Drive
    ensures { result ≡ cells.left_by leaves }
{
    match leaves {
        Disabled::Z | Disabled::Keeper => Drive::Nothing,
        Disabled::Weak0 | Disabled::Pull0 => Drive::Weak(false),
        Disabled::Weak1 | Disabled::Pull1 => Drive::Weak(true),
    }
}

fn bit(bits: &Bits, k: usize) -> bool
    ensures { result ≡ bit_of bits.now k }
{
    k < bits.len() && bits.get(k)
}
