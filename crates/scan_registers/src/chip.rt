//! One device, edge by edge.

ghost use Rattle.std.specs.Prelude.{◌≡◌, ◌<◌, ℕ, Bool, true, List, None, Some, length, option_map};
ghost use Rattle.std.specs.Prelude.{slice_get, if◌then◌else◌, IfOk};
ghost use Rattle.jt_tap.specs.declared.State.TheVariants.{DrShift};
ghost use Rattle.jt_tap.specs.Controller.{work};
ghost use Rattle.scan_registers.specs.Chips.{ChipValue, one_chip, surroundings_of, powered, registers, with_registers};
ghost use Rattle.jt_bits.specs.Shifting.{after_shift};
ghost use Rattle.scan_registers.specs.Edges.{rise, fall, after_trst};
ghost use Rattle.scan_registers.specs.Edges.{tdo_after};
ghost use Rattle.chip_instructions.specs.Fitting.{IsFormed, meaning_by, has_code as is_coded};
ghost use Rattle.chip_instructions.specs.Instruction.{instruction, meaning};
ghost use Rattle.chip_instructions.specs.declared.Selected.TheVariants.{Bypass};
ghost use Rattle.chip_registers.specs.Registers.{after_capture, put, selected_bits, after_update, after_reset};

use crate::{Link, WordLink, same_bits};
use chip_instructions::{
    Decoded, Device, Mode, Selected, SharedDevice, code_length, fixed_bits, has_code,
    instruction_of, reset_latch,
};
use chip_registers::{DataRegisters, Register, WordRegister};
use jt_bits::Bits;
use jt_tap::{Column, State, Work};
use std::alloc::{AllocError, Global};
use std::marker::Model;

/// A device with its controller, round a boundary register.
///
/// The instruction in the latch is decoded when the latch changes, and not at each edge nor at each update; that of the
/// reset latch once. What each edge looks at stands together, since fields lie in this order.
#[derive(Drop)]
pub struct Chip<B: Register> {
    reset_latch: Bits,
    reset_decoded: Decoded,
    latch: Bits,
    stage: Bits,
    device: SharedDevice,
    decoded: Decoded,
    state: State,
    tdo: Option<bool>,
    trst: bool,
    registers: DataRegisters<B>,
}

impl<B: Register> Model for Chip<B> {
    ghost use Rattle.std.specs.Prelude.{◌≡◌, length};
    ghost use Rattle.scan_registers.specs.Chips.{ChipValue, lengths_in};
    ghost use Rattle.chip_instructions.specs.Fitting.{IsFormed, Fits, meaning_by};
    ghost use Rattle.chip_instructions.specs.Instruction as named;
    ghost use Rattle.chip_registers.specs.Data.{lengths_of};

    ghost Value = { ChipValue B };

    ghost view = { λ c. record {
      device = c.device;
      state = c.state;
      tdo = c.tdo;
      trst = c.trst;
      latch = c.latch;
      stage = c.stage;
      bypass = c.registers.bypass;
      identification = c.registers.identification;
      boundary = c.registers.boundary;
      users = c.registers.users.items;
    } };

    ghost invariant = { λ c. record {
      formed : IsFormed c.device;
      reset_latch : c.reset_latch ≡ named.reset_latch c.device;
      reset_decoded : meaning_by c.device c.reset_decoded ≡ named.meaning c.device (named.reset_latch c.device);
      reset_fits : Fits c.device c.reset_decoded;
      decoded : meaning_by c.device c.decoded ≡ named.meaning c.device c.latch;
      fits : Fits c.device c.decoded;
      latch : length c.latch ≡ c.device.instruction_length;
      stage : length c.stage ≡ c.device.instruction_length;
      lengths : lengths_of B.stage c.registers ≡ lengths_in c.device;
    } };
}

impl<B: Register> Chip<B> {
    /// The device at power-up, round a boundary register of a bit for each of its cells: in RESET with its reset
    /// instruction, all else 0. Refuses for want of memory alone.
    pub fn new(alloc: Global, device: &SharedDevice, boundary: B) -> Result<Chip<B>, AllocError>
        requires formed { IsFormed device.now }
        requires cells { length (B.stage boundary) ≡ length device.now.cells }
        ensures { IfOk result (λ c. c ≡ powered device.now boundary) }
    {
        let description = device.get();
        let length = description.instruction_length();
        let reset_latch = reset_latch(alloc, description)?;
        let latch = reset_latch.try_clone(alloc)?;
        let stage = Bits::zeros(alloc, length)?;
        let registers = DataRegisters::new(
            alloc,
            code_length(description),
            description.users(),
            boundary,
        )?;
        let decoded = device.decode(&latch);
        let device = device.share()?;
        Ok(Chip {
            device,
            reset_latch,
            reset_decoded: decoded,
            decoded,
            state: State::Reset,
            tdo: None,
            trst: false,
            latch,
            stage,
            registers,
        })
    }

    /// A rising edge of TCK: the state's capture or shift, and then the move to the next state. A device that TRST
    /// holds in RESET stays as it is (clause 6).
    #[inline(always)]
    pub fn rise(&mut self, tms: bool, tdi: bool)
        ensures chip { one_chip B.stage B.update_part self.new
            ≡ rise tms tdi (surroundings_of B.captured B.at_reset self.old) (one_chip B.stage B.update_part self.old) }
        ensures boundary { self.new.boundary
            ≡ B.with_parts self.old.boundary (B.stage self.new.boundary) (B.update_part self.new.boundary) }
    {
        if self.is_bypassed() && !self.trst {
            self.registers.bypass = tdi;
            self.state = self.state.step(tms);
            return;
        }
        if self.trst && self.device.get().has_trst() {
            return;
        }
        match self.state.work() {
            Work::Captures(column) => self.capture(column),
            Work::Shifts(column) => self.shift(column, tdi),
            _ => {}
        }
        self.state = self.state.step(tms);
    }

    /// A falling edge of TCK: the state's update or reset, and then TDO.
    #[inline(always)]
    pub fn fall(&mut self)
        ensures chip { one_chip B.stage B.update_part self.new
            ≡ fall (surroundings_of B.captured B.at_reset self.old) (one_chip B.stage B.update_part self.old) }
        ensures boundary { self.new.boundary
            ≡ B.with_parts self.old.boundary (B.stage self.new.boundary) (B.update_part self.new.boundary) }
    {
        if self.is_bypassed() {
            self.tdo = Some(self.registers.bypass);
            return;
        }
        match self.state.work() {
            Work::Updates(column) => self.update(column),
            Work::Resets => self.reset(),
            _ => {}
        }
        self.tdo = self.first_bit();
    }

    /// Whether the device shifts through its bypass register: asked for at once, since on most edges of a scan most
    /// devices of a chain do.
    #[inline(always)]
    fn is_bypassed(&self) -> bool
        ensures state { result ≡ true → self.now.state ≡ DrShift }
        ensures selected { result ≡ true → (meaning self.now.device self.now.latch).selected ≡ Bypass }
    {
        matches!(self.state, State::DrShift) && matches!(self.decoded.selected, Selected::Bypass)
    }

    /// TRST is asserted or released. Where it is asserted, a device with a TRST port is reset at once and stands in
    /// RESET, its TDO undriven (clauses 4 and 6).
    pub fn trst(&mut self, trst: bool)
        ensures chip { one_chip B.stage B.update_part self.new
            ≡ after_trst trst (surroundings_of B.captured B.at_reset self.old)
            (one_chip B.stage B.update_part self.old) }
        ensures boundary { self.new.boundary
            ≡ B.with_parts self.old.boundary (B.stage self.new.boundary) (B.update_part self.new.boundary) }
    {
        if trst && self.device.get().has_trst() {
            self.reset();
            self.state = State::Reset;
            self.tdo = None;
        }
        self.trst = trst;
    }

    /// A cell of the boundary register sees this bit.
    pub fn see(&mut self, cell: usize, bit: bool)
        requires { cell < length (B.stage self.old.boundary) }
        ensures { self.new ≡ record self.old { boundary = B.saw self.old.boundary cell bit } }
    {
        self.registers.boundary.see(cell, bit);
    }

    /// The core's bit of a cell of the boundary register is this one from now on.
    pub fn set_core(&mut self, cell: usize, bit: bool)
        requires { cell < length (B.stage self.old.boundary) }
        ensures { self.new ≡ record self.old { boundary = B.cored self.old.boundary cell bit } }
    {
        self.registers.boundary.set_core(cell, bit);
    }

    /// The description.
    pub fn device(&self) -> &Device
        ensures { result.now ≡ self.now.device }
    {
        self.device.get()
    }

    /// The state of its controller (clause 6).
    pub fn state(&self) -> State
        ensures { result ≡ self.now.state }
    {
        self.state
    }

    /// The level of TDO since the last falling edge, `None` while it is not driven.
    pub fn tdo(&self) -> Option<bool>
        ensures { result ≡ self.now.tdo }
    {
        self.tdo
    }

    /// How the instruction in the latch drives the pins (clause 8).
    pub fn mode(&self) -> Mode
        ensures { result ≡ (meaning self.now.device self.now.latch).mode }
    {
        self.decoded.mode
    }

    /// The data register that the instruction in the latch selects.
    pub fn selected(&self) -> Selected
        ensures { result ≡ (meaning self.now.device self.now.latch).selected }
    {
        self.decoded.selected
    }

    /// The present instruction, bit 0 nearest TDO (clause 7).
    pub fn latch(&self) -> &Bits
        ensures { result.now ≡ self.now.latch }
    {
        &self.latch
    }

    /// The shift stage of the instruction register, bit 0 nearest TDO (clause 7).
    pub fn stage(&self) -> &Bits
        ensures { result.now ≡ self.now.stage }
    {
        &self.stage
    }

    /// The bit of the bypass register (clause 10).
    pub fn bypass(&self) -> bool
        ensures { result ≡ self.now.bypass }
    {
        self.registers.bypass
    }

    /// The boundary register, cell 0 nearest TDO (clause 11).
    pub fn boundary(&self) -> &B
        ensures { result.now ≡ self.now.boundary }
    {
        &self.registers.boundary
    }

    /// The stage of the identification register, bit 0 nearest TDO, where the device has one (clause 12).
    pub fn id(&self) -> Option<&Bits>
        ensures { option_map {U = List Bool} (λ b. b.now) result
            ≡ (if is_coded self.now.device then Some self.now.identification else None) }
    {
        if has_code(self.device.get()) {
            Some(&self.registers.identification)
        } else {
            None
        }
    }

    /// The stage and the latch of user register `k`, bit 0 nearest TDO, counted in the order in which the description
    /// first names them; `None` past the last.
    pub fn user(&self, k: usize) -> Option<(&Bits, &Bits)>
        ensures { option_map {U = List Bool × List Bool} (λ p. (p.0.now, p.1.now)) result
            ≡ option_map (λ u. (u.stage, u.latch)) (slice_get self.now.users k) }
    {
        match self.registers.users.get(k) {
            Some(user) => Some((&user.stage, &user.latch)),
            None => None,
        }
    }

    /// The name of the instruction in the latch, in upper case; `None` where no opcode matches.
    pub fn instruction(&self) -> Option<&str>
        ensures { option_map {U = List ℕ} (λ s. s.now) result ≡ instruction self.now.device self.now.latch }
    {
        instruction_of(self.device.get(), &self.latch)
    }

    /// The column's register captures, as on a rising edge in the column's Capture state.
    pub fn capture(&mut self, column: Column)
        ensures chip { one_chip B.stage B.update_part self.new
            ≡ with_registers (after_capture self.old.device column (surroundings_of B.captured B.at_reset self.old)
            (registers B.stage B.update_part self.old)) (one_chip B.stage B.update_part self.old) }
        ensures boundary { self.new.boundary
            ≡ B.with_parts self.old.boundary (B.stage self.new.boundary) (B.update_part self.new.boundary) }
    {
        match column {
            Column::Ir => self.stage.copy_from(self.device.get().capture()),
            Column::Dr => self.registers.capture(
                self.decoded.selected,
                self.decoded.mode,
                fixed_bits(self.device.get(), self.decoded.fixed),
            ),
        }
    }

    /// The column's register moves one place towards TDO.
    fn shift(&mut self, column: Column, tdi: bool)
        ensures chip { one_chip B.stage B.update_part self.new
            ≡ with_registers (put self.old.device column
            (after_shift (selected_bits self.old.device column (registers B.stage B.update_part self.old)) tdi)
            (registers B.stage B.update_part self.old)) (one_chip B.stage B.update_part self.old) }
        ensures boundary { self.new.boundary
            ≡ B.with_parts self.old.boundary (B.stage self.new.boundary) (B.update_part self.new.boundary) }
    {
        match column {
            Column::Ir => {
                self.stage.shift_in(tdi);
            }
            Column::Dr => self.registers.shift_in(self.decoded.selected, tdi),
        }
    }

    /// The latch takes the instruction stage, or a selected register's update part takes its stage, as on a falling
    /// edge in the column's Update state.
    pub fn update(&mut self, column: Column)
        ensures chip { one_chip B.stage B.update_part self.new
            ≡ with_registers (after_update self.old.device column (registers B.stage B.update_part self.old))
            (one_chip B.stage B.update_part self.old) }
        ensures boundary { self.new.boundary
            ≡ B.with_parts self.old.boundary (B.stage self.new.boundary) (B.update_part self.new.boundary) }
    {
        match column {
            Column::Ir => {
                // What the latch has already need not be decoded anew.
                let is_same = same_bits(&self.latch, &self.stage);
                self.latch.copy_from(&self.stage);
                if !is_same {
                    self.decoded = self.device.decode(&self.latch);
                }
            }
            Column::Dr => self.registers.update(self.decoded.selected),
        }
    }

    /// The latch takes its reset instruction, and the boundary register is reset, as on a falling edge in RESET.
    pub fn reset(&mut self)
        ensures chip { one_chip B.stage B.update_part self.new
            ≡ with_registers (after_reset self.old.device (surroundings_of B.captured B.at_reset self.old)
            (registers B.stage B.update_part self.old)) (one_chip B.stage B.update_part self.old) }
        ensures boundary { self.new.boundary
            ≡ B.with_parts self.old.boundary (B.stage self.new.boundary) (B.update_part self.new.boundary) }
    {
        self.latch.copy_from(&self.reset_latch);
        self.decoded = self.reset_decoded;
        self.registers.boundary.reset();
    }

    /// The controller stands in this state, and TDO is not driven, as after a falling edge in a state that does not
    /// shift.
    pub fn stand(&mut self, state: State)
        ensures { self.new ≡ record self.old { state = state; tdo = None } }
    {
        self.state = state;
        self.tdo = None;
    }

    /// What TDO shows from a falling edge on: bit 0 of the selected register in a Shift state.
    fn first_bit(&self) -> Option<bool>
        ensures { result ≡ tdo_after (work self.now.state) self.now.device (registers B.stage B.update_part self.now) }
    {
        match self.state.work() {
            Work::Shifts(Column::Ir) => Some(self.stage.get(0)),
            Work::Shifts(Column::Dr) => Some(self.registers.first_bit(self.decoded.selected)),
            _ => None,
        }
    }
}

impl<B: Register> Link for Chip<B> {
    ghost use Rattle.scan_registers.specs.Chips.{IsPut, registers};
    ghost use Rattle.chip_registers.specs.Registers as meant;
    ghost use Rattle.scan_registers.specs.Puts.{put_nothing, put_both};

    ghost register = { λ c column. meant.selected_bits c.device column (registers B.stage B.update_part c) };

    ghost is_put = { λ c column bits d. IsPut B.stage B.update_part B.with_parts column bits c d };

    fn register_len(&self, column: Column) -> usize {
        match column {
            Column::Ir => self.stage.len(),
            Column::Dr => self.registers.len(self.decoded.selected),
        }
    }

    fn register_word(&self, column: Column, i: usize) -> u64 {
        match column {
            Column::Ir => self.stage.word_at(i),
            Column::Dr => self.registers.word_at(self.decoded.selected, i),
        }
    }

    fn put_register(&mut self, column: Column, at: usize, bits: u64, n: usize) {
        match column {
            Column::Ir => self.stage.put_run(at, bits, n),
            Column::Dr => self.registers.put_run(self.decoded.selected, at, bits, n),
        }
    }

    ghost put_none = { λ c column. put_nothing B.stage B.update_part B.with_parts B.parts_same c column };

    ghost put_twice = { λ a b c column s t h k. put_both B.stage B.update_part B.with_parts B.parts_twice a b c column
        s t h k };
}

impl<B: WordRegister> WordLink for Chip<B> {
    fn shift_register(&mut self, column: Column, bits: u64, n: usize) -> u64 {
        match column {
            Column::Ir => self.stage.shift_word(bits, n),
            Column::Dr => self.registers.shift_word(self.decoded.selected, bits, n),
        }
    }
}
