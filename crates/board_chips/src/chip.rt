//! One device at its place in the chain.

ghost use Rattle.std.specs.Prelude.{◌≡◌, ◌≢◌, ◌<◌, ℕ, Bool, false, List, [], ◌∷◌, length, slice_get, Some, None};
ghost use Rattle.std.specs.Prelude.{option_and_then, option_map, if◌then◌else◌, IfOk};
ghost use Rattle.jt_tap.specs.Controller.{work};
ghost use Rattle.chip_instructions.specs.Fitting.{IsFormed, has_code};
ghost use Rattle.chip_instructions.specs.Instruction.{instruction, meaning};
ghost use Rattle.pin_nets.specs.Levels as levels;
ghost use Rattle.pin_nets.specs.declared.Drive.TheVariants as driving;
ghost use Rattle.boundary.specs.Cells as cells;
ghost use Rattle.board_plan.specs.CellNets.{first_net};
ghost use Rattle.board_plan.specs.View.{member as planned_member};
ghost use Rattle.board_model.specs.Cells.{Member};
ghost use Rattle.board_model.specs.Cells as meant;
ghost use Rattle.board_model.specs.Chain as chain;
ghost use Rattle.board_chips.specs.Building.{wired_chip_of};
ghost use Rattle.board_chips.specs.WiredChips.{AreBelow, DrivesStill, IsKept, IsSighted, captures_boundary, chip_state};
ghost use Rattle.board_chips.specs.WiredChips.{falls_driving, held_of, member_of, told_by, with_seen};
ghost use Rattle.board_chips.specs.Blocks.{TellsOwn};
ghost use Rattle.board_chips.specs.Driving.{cell_drives};
ghost use Rattle.board_chips.specs.Sighted.{IsBelow, sighted_of};
ghost use Rattle.board_chips.specs.Strings.{with_core};
ghost use Rattle.board_chips.specs.Telling.{IsAt, TellsAll, sight};

mod at_rest;

use crate::driving::first_driver;
use crate::sighted::{SightedCell, sighted_cells};
use crate::wiring::Wiring;
use board_plan::PlannedDevice;
use boundary::{Boundary, Drive, DrivenCells, drivers};
use bsdl_device::Device;
use jt_bits::Bits;
use jt_tap::{Column, State, Work};
use pin_nets::Follow;
use scan_registers::{Chip, Selected};
use std::alloc::{AllocError, Global};
use std::marker::Model;

/// A device with its name and, for its cells and port bits, what they are wired to. Contracts see it without the tables
/// of the cells that drive and that are told what their ports see, which its description and its nets give.
#[derive(Drop)]
pub struct WiredChip {
    name: String,
    chip: Chip<Boundary>,
    /// The bits of its core where no string is for them, one a cell.
    constants: Bits,
    /// The strings that its core follows.
    follows: Vec<Follow>,
    /// Of each cell the net that its port is on.
    nets: Vec<Option<usize>>,
    /// Of each port bit the cell that drives it.
    drivers: Vec<Option<usize>>,
    /// The cells that capture what their port sees.
    sighted: Vec<SightedCell>,
}

impl Model for WiredChip {
    ghost use Rattle.std.specs.Prelude.{◌≡◌, length, string_bytes};
    ghost use Rattle.boundary.specs.Cells.{AreDrivers};
    ghost use Rattle.board_chips.specs.WiredChips.{WiredChipValue};
    ghost use Rattle.board_chips.specs.Sighted.{sighted_from};

    ghost Value = { WiredChipValue };

    ghost view = { λ s. record {
      name = string_bytes s.name;
      chip = s.chip;
      constants = s.constants;
      follows = s.follows.items;
      nets = s.nets.items;
    } };

    ghost invariant = { λ s. record {
      cells : s.chip.boundary.cells ≡ s.chip.device.cells;
      nets : length s.nets.items ≡ length s.chip.device.cells;
      drivers : AreDrivers s.chip.device.cells s.drivers.items;
      sighted : s.sighted.items ≡ sighted_from 0 s.nets.items s.chip.device.cells;
    } };
}

impl WiredChip {
    /// A planned device as it powers up, given the net of each of its cells.
    pub(crate) fn new(
        alloc: Global,
        device: &PlannedDevice,
        nets: Vec<Option<usize>>,
    ) -> Result<WiredChip, AllocError>
        requires formed { IsFormed device.now.device }
        requires core { length device.now.core ≡ length device.now.device.cells }
        requires nets { length nets.items ≡ length device.now.device.cells }
        ensures { IfOk result (λ s. s ≡ wired_chip_of nets.items (planned_member device.now)) }
    {
        let description = device.device.get();
        let name = String::from_str(alloc, &device.name)?;
        let drivers = drivers(alloc, description.cells(), description.port_count())?;
        let sighted = sighted_cells(alloc, description.cells(), &nets)?;
        let boundary = Boundary::new(alloc, &device.device, &device.core, device.extest_update)?;
        let chip = Chip::new(alloc, &device.device, boundary)?;
        Ok(WiredChip {
            name,
            chip,
            constants: device.core.try_clone(alloc)?,
            follows: device.follows.to_vec(alloc)?,
            nets,
            drivers,
            sighted,
        })
    }

    /// The name of the device on the board.
    pub fn name(&self) -> &str
        ensures { result.now ≡ self.now.name }
    {
        self.name.as_str()
    }

    /// Its description.
    pub fn device(&self) -> &Device
        ensures { result.now ≡ self.now.chip.device }
    {
        self.chip.device()
    }

    /// The state of its controller.
    pub fn state(&self) -> State
        ensures { result ≡ self.now.chip.state }
    {
        self.chip.state()
    }

    /// Its present instruction, bit 0 nearest TDO.
    pub fn latch(&self) -> &Bits
        ensures { result.now ≡ self.now.chip.latch }
    {
        self.chip.latch()
    }

    /// The name of the instruction in its latch; `None` where the description has none for it.
    pub fn instruction(&self) -> Option<&str>
        ensures { option_map {U = List ℕ} (λ s. s.now) result ≡ instruction self.now.chip.device self.now.chip.latch }
    {
        self.chip.instruction()
    }

    /// Its instruction stage, the shift register in the IR column, bit 0 nearest TDO.
    pub fn stage(&self) -> &Bits
        ensures { result.now ≡ self.now.chip.stage }
    {
        self.chip.stage()
    }

    /// The one bit of its bypass register.
    pub fn bypass(&self) -> bool
        ensures { result ≡ self.now.chip.bypass }
    {
        self.chip.bypass()
    }

    /// Its identification register, bit 0 nearest TDO, where its description has a code.
    pub fn id(&self) -> Option<&Bits>
        ensures { option_map {U = List Bool} (λ b. b.now) result
            ≡ (if has_code self.now.chip.device then Some self.now.chip.identification else None) }
    {
        self.chip.id()
    }

    /// The shift stage of its boundary register, bit 0 that of cell 0, nearest TDO.
    pub fn boundary(&self) -> &Bits
        ensures { result.now ≡ self.now.chip.boundary.stage }
    {
        self.chip.boundary().stage()
    }

    /// The update stage of its boundary register, bit 0 that of cell 0, nearest TDO.
    pub fn boundary_update(&self) -> &Bits
        ensures { result.now ≡ self.now.chip.boundary.update }
    {
        self.chip.boundary().update_stage()
    }

    /// The stage and the latch of its user register `k`, bit 0 nearest TDO, counted in the order in which the
    /// description first names them; `None` past the last.
    pub fn user(&self, k: usize) -> Option<(&Bits, &Bits)>
        ensures { option_map {U = List Bool × List Bool} (λ p. (p.0.now, p.1.now)) result
            ≡ option_map (λ u. (u.stage, u.latch)) (slice_get self.now.chip.users k) }
    {
        self.chip.user(k)
    }

    /// The data register that the instruction in its latch selects.
    pub fn selected(&self) -> Selected
        ensures { result ≡ (meaning self.now.chip.device self.now.chip.latch).selected }
    {
        self.chip.selected()
    }

    /// The net that the port of a cell is on; `None` where the cell has no port, or that is on no net with a name.
    pub fn cell_net(&self, cell: usize) -> Option<usize>
        ensures { result ≡ option_and_then (λ net. net) (slice_get self.now.nets cell) }
    {
        match self.nets.get(cell) {
            Some(net) => *net,
            None => None,
        }
    }

    /// The level of TDO since the last falling edge, `None` while it is not driven.
    pub fn tdo(&self) -> Option<bool>
        ensures { result ≡ self.now.chip.tdo }
    {
        self.chip.tdo()
    }

    /// What a port bit drives.
    pub(crate) fn drive(&self, port: usize) -> Drive
        ensures { result ≡ meant.drive (held_of self.now) port }
    {
        self.chip
            .boundary()
            .driven(self.driver(port), self.chip.mode())
    }

    /// The cell that drives a port bit. The table has the device's ports. A description that is made by hand, and not
    /// read from a text, may have a cell at a port that it does not count: that cell is looked for.
    pub(crate) fn driver(&self, port: usize) -> Option<usize>
        ensures { result ≡ cells.driver_from port 0 self.now.chip.device.cells }
    {
        match self.drivers.get(port) {
            Some(driver) => *driver,
            None => first_driver(self.chip.device().cells(), port),
        }
    }

    /// What a cell drives its port with.
    pub(crate) fn driven(&self, cell: usize) -> Drive
        ensures { result ≡ cell_drives (held_of self.now) cell }
    {
        self.chip.boundary().driven(Some(cell), self.chip.mode())
    }

    /// What each of the 64 cells from `first` on drives its port with, where it drives one, as far as words tell.
    pub(crate) fn driven_cells(&self, first: usize) -> DrivenCells
        ensures { TellsOwn (held_of self.now) first result }
    {
        self.chip.boundary().driven_cells(first, self.chip.mode())
    }

    /// Whether the rising edge that comes captures the boundary register.
    fn captures_boundary(&self) -> bool
        ensures { result ≡ captures_boundary (work self.now.chip.state)
            (meaning self.now.chip.device self.now.chip.latch).selected }
    {
        self.chip.state().work() == Work::Captures(Column::Dr)
            && self.chip.selected() == Selected::Boundary
    }

    /// How many cells capture what their port sees.
    fn sighted_count(&self) -> usize
        ensures count { result ≡ length (sighted_of self.now) }
        ensures nets { length self.now.nets ≡ length self.now.chip.device.cells }
        ensures cells { self.now.chip.boundary.cells ≡ self.now.chip.device.cells }
        ensures whole { cells.IsWhole self.now.chip.boundary }
    {
        // That each list of the boundary has a bit for each cell.
        let _ = self.chip.boundary().cells();
        self.sighted.len()
    }

    /// Number `i` of the cells that capture what their port sees.
    fn sighted_cell(&self, i: usize) -> SightedCell
        requires { i < length (sighted_of self.now) }
        ensures { slice_get (sighted_of self.now) i ≡ Some result }
    {
        self.sighted[i]
    }

    /// A cell is told what its port sees.
    fn tell_cell(&mut self, it: SightedCell, wiring: &Wiring)
        requires cell { it.cell < length self.old.chip.device.cells }
        requires below { IsBelow (length wiring.now.nets) it.net }
        ensures same { self.new ≡ with_seen self.new.chip.boundary.seen self.old }
        ensures long { length self.new.chip.boundary.seen ≡ length self.old.chip.boundary.seen }
        ensures others { (j : ℕ) → j ≢ it.cell
            → slice_get self.new.chip.boundary.seen j ≡ slice_get self.old.chip.boundary.seen j }
        ensures told { (place : ℕ) (held : List Member) → IsAt wiring.now place held self.old
            → it.net ≡ first_net place it.port 0 wiring.now.nets
            → slice_get self.new.chip.boundary.seen it.cell ≡ Some (sight wiring.now held place it.port) }
    {
        // That each list of the boundary has a bit for each cell.
        let _ = self.chip.boundary().cells();
        let bit = self.sight(it.net, it.port, wiring);
        self.chip.see(it.cell, bit);
    }

    /// What a port on this net sees; one on none is a net by itself.
    pub(crate) fn sight(&self, net: Option<usize>, port: usize, wiring: &Wiring) -> bool
        requires { IsBelow (length wiring.now.nets) net }
        ensures { (place : ℕ) (held : List Member) → IsAt wiring.now place held self.now
            → net ≡ first_net place port 0 wiring.now.nets
            → result ≡ sight wiring.now held place port }
    {
        match net {
            Some(net) => wiring.seen(net),
            None => sees_alone(self.drive(port)),
        }
    }

    /// Each cell that captures what its port sees is told that.
    fn tell(&mut self, wiring: &Wiring)
        requires below { AreBelow (length wiring.now.nets) self.old.nets }
        ensures same { self.new ≡ with_seen self.new.chip.boundary.seen self.old }
        ensures whole { cells.IsWhole self.new.chip.boundary }
        ensures told { TellsAll wiring.now self.old self.new }
    {
        for i in 0..self.sighted_count() {
            let it = self.sighted_cell(i);
            self.tell_cell(it, wiring);
        }
    }

    /// A rising edge: the boundary register captures the levels before the edge, and the core bits that it holds.
    pub fn rise(&mut self, wiring: &Wiring, tms: bool, tdi: bool)
        requires below { AreBelow (length wiring.now.nets) self.old.nets }
        ensures kept { IsKept self.old self.new }
        ensures trst { self.new.chip.trst ≡ self.old.chip.trst }
        ensures chip { (place : ℕ) (held : List Member) → IsAt wiring.now place held self.old
            → chip_state self.new ≡ chain.rise self.old.chip.trst tms tdi
            (told_by (sight wiring.now held place) self.old) (chip_state self.old) }
    {
        if self.captures_boundary() {
            return self.rise_telling(wiring, tms, tdi);
        }
        self.rise_told(tms, tdi);
    }

    /// A rising edge, before which the cells are told what their ports see. Other edges, which most are, ask for their
    /// state once, since this stands by itself.
    fn rise_telling(&mut self, wiring: &Wiring, tms: bool, tdi: bool)
        requires below { AreBelow (length wiring.now.nets) self.old.nets }
        ensures kept { IsKept self.old self.new }
        ensures trst { self.new.chip.trst ≡ self.old.chip.trst }
        ensures chip { (place : ℕ) (held : List Member) → IsAt wiring.now place held self.old
            → chip_state self.new ≡ chain.rise self.old.chip.trst tms tdi
            (told_by (sight wiring.now held place) self.old) (chip_state self.old) }
    {
        self.tell(wiring);
        self.rise_told(tms, tdi);
    }

    /// A rising edge, once the cells were told what their ports see.
    #[inline(always)]
    fn rise_told(&mut self, tms: bool, tdi: bool)
        ensures kept { IsKept self.old self.new }
        ensures trst { self.new.chip.trst ≡ self.old.chip.trst }
        ensures chip { (sees : ℕ → Bool) → IsSighted sees self.old
            → chip_state self.new
            ≡ chain.rise self.old.chip.trst tms tdi (told_by sees self.old) (chip_state self.old) }
    {
        self.chip.rise(tms, tdi);
    }

    /// A falling edge.
    #[inline(always)]
    pub fn fall(&mut self)
        ensures kept { IsKept self.old self.new }
        ensures trst { self.new.chip.trst ≡ self.old.chip.trst }
        ensures chip { chip_state self.new ≡ chain.fall (chip_state self.old) }
    {
        self.chip.fall();
    }

    /// A falling edge. Answers whether what a pin drives may have changed: where none has, to answer true costs time
    /// alone, so clause `still` goes one way.
    pub fn fall_anew(&mut self) -> bool
        ensures kept { IsKept self.old self.new }
        ensures trst { self.new.chip.trst ≡ self.old.chip.trst }
        ensures chip { chip_state self.new ≡ chain.fall (chip_state self.old) }
        ensures still { result ≡ false → DrivesStill (member_of self.old) (member_of self.new) }
    {
        match self.chip.state().work() {
            Work::Updates(_) | Work::Resets => self.fall_at_work(),
            _ => {
                self.fall();
                false
            }
        }
    }

    /// A falling edge with an update or a reset. Answers whether what a pin drives may have changed: where none has, to
    /// answer true costs time alone, so clause `still` goes one way.
    fn fall_at_work(&mut self) -> bool
        ensures kept { IsKept self.old self.new }
        ensures trst { self.new.chip.trst ≡ self.old.chip.trst }
        ensures chip { chip_state self.new ≡ chain.fall (chip_state self.old) }
        ensures still { result ≡ false → DrivesStill (member_of self.old) (member_of self.new) }
    {
        let mode = self.chip.mode();
        let driving = self.falls_driving();
        self.fall();
        driving || self.chip.mode() != mode
    }

    /// Whether the falling edge that comes may change the bits that drive the pins.
    fn falls_driving(&self) -> bool
        ensures { result ≡ falls_driving (work self.now.chip.state)
            (meaning self.now.chip.device self.now.chip.latch).selected
            (meaning self.now.chip.device self.now.chip.latch).mode }
    {
        match self.chip.state().work() {
            Work::Updates(column) => self.updates_driving(column),
            Work::Resets => true,
            _ => false,
        }
    }

    /// The core's bit of a cell is this one from now on.
    pub(crate) fn set_core(&mut self, cell: usize, bit: bool)
        requires { cell < length self.old.chip.device.cells }
        ensures { self.new ≡ with_core self.old cell bit }
    {
        // That each list of the boundary has a bit for each cell.
        let _ = self.chip.boundary().cells();
        self.chip.set_core(cell, bit);
    }

    /// TRST is asserted or released.
    pub fn tell_trst(&mut self, trst: bool)
        ensures kept { IsKept self.old self.new }
        ensures trst { self.new.chip.trst ≡ trst }
        ensures chip { chip_state self.new
            ≡ (if trst then chain.assert_trst (chip_state self.old) else chip_state self.old) }
    {
        self.chip.trst(trst);
    }
}

/// What a port bit sees that is a net by itself.
fn sees_alone(drive: Drive) -> bool
    ensures { result ≡ levels.reads (levels.level_of (driving.Nothing ∷ drive ∷ [])) }
{
    match drive {
        Drive::Strong(bit) | Drive::Weak(bit) => bit,
        Drive::Nothing => true,
    }
}
