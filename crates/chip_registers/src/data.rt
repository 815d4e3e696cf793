//! The data registers of a device, of which an instruction selects one.

ghost use Rattle.std.specs.Prelude.{◌≡◌, ◌+◌, ◌<◌, ◌≤◌, ℕ, false, Bool, List, [], ◌∷◌, Some, length, map, option_map};
ghost use Rattle.std.specs.Prelude.{◌++◌, drop, slice_get, take, unwrap_or, IfOk};
ghost use Rattle.jt_bits.specs.Packed.{has_bit};
ghost use Rattle.jt_bits.specs.Runs.{RunSet};
ghost use Rattle.jt_bits.specs.Shifting.{after_shift};
ghost use Rattle.jt_bits.specs.Words.{bit_of, word_bits};
ghost use Rattle.chip_registers.specs.Data.{registers_of, lengths_of, IsThere, FixedFits};
ghost use Rattle.chip_registers.specs.Registers.{zeros, new_user, stage_of, with_stage, capture_of, update_selected};

use crate::users::{self, UserRegister, new_users};
use crate::{Register, WordRegister};
use chip_instructions::{Mode, Selected};
use jt_bits::Bits;
use std::alloc::{AllocError, Global};

/// The data registers of a device (clause 9). What its calls do to the selected one, they do whatever the instruction
/// register holds.
#[derive(Drop)]
pub struct DataRegisters<B: Register> {
    /// The one bit of the bypass register (clause 10).
    pub bypass: bool,
    /// The boundary register (clause 11).
    pub boundary: B,
    /// The stage of the identification register, bit 0 nearest TDO; empty on a device without a code (clause 12).
    pub identification: Bits,
    /// The user registers, in the order in which the description first names them.
    pub users: Vec<UserRegister>,
}

impl<B: Register> DataRegisters<B> {
    /// Round a boundary register: an identification register of `code` bits and user registers of these lengths, all
    /// bits 0. Refuses for want of memory alone.
    pub fn new(
        alloc: Global,
        code: usize,
        users: &[usize],
        boundary: B,
    ) -> Result<DataRegisters<B>, AllocError>
        ensures { IfOk result (λ d. (d.bypass ≡ false) × (d.identification ≡ zeros code) × (d.boundary ≡ boundary)
            × (d.users.items ≡ map new_user users.now)) }
    {
        let identification = Bits::zeros(alloc, code)?;
        let users = new_users(alloc, users)?;
        Ok(DataRegisters {
            bypass: false,
            identification,
            boundary,
            users,
        })
    }

    /// The selected register captures: bypass 0, the boundary what its cells give under the mode, the others their
    /// fixed bits, or, of a user register without such, what it holds.
    pub fn capture(&mut self, selected: Selected, mode: Mode, fixed: Option<&Bits>)
        requires there { IsThere (lengths_of B.stage self.old) selected }
        requires fixed { FixedFits (lengths_of B.stage self.old) selected
            (option_map {U = List Bool} (λ x. x.now) fixed) }
        ensures data { (latch instruction : List Bool)
            → registers_of B.stage B.update_part latch instruction self.new
            ≡ with_stage selected
            (capture_of selected (option_map {U = List Bool} (λ x. x.now) fixed.entry)
            (B.captured self.old.boundary mode) (registers_of B.stage B.update_part latch instruction self.old))
            (registers_of B.stage B.update_part latch instruction self.old) }
        ensures boundary { self.new.boundary
            ≡ B.with_parts self.old.boundary (B.stage self.new.boundary) (B.update_part self.new.boundary) }
        ensures lengths { lengths_of B.stage self.new ≡ lengths_of B.stage self.old }
    {
        match selected {
            Selected::Bypass => self.bypass = false,
            Selected::Identification => copy_fixed(&mut self.identification, fixed),
            Selected::Boundary => self.boundary.capture(mode),
            Selected::User(k) => users::capture(&mut self.users, k, fixed),
        }
    }

    /// The selected register moves one place towards TDO, and takes this bit at the far end.
    pub fn shift_in(&mut self, selected: Selected, tdi: bool)
        requires { IsThere (lengths_of B.stage self.old) selected }
        ensures data { (latch instruction : List Bool)
            → registers_of B.stage B.update_part latch instruction self.new
            ≡ with_stage selected
            (after_shift (stage_of selected (registers_of B.stage B.update_part latch instruction self.old)) tdi)
            (registers_of B.stage B.update_part latch instruction self.old) }
        ensures boundary { self.new.boundary
            ≡ B.with_parts self.old.boundary (B.stage self.new.boundary) (B.update_part self.new.boundary) }
        ensures lengths { lengths_of B.stage self.new ≡ lengths_of B.stage self.old }
    {
        match selected {
            Selected::Bypass => self.bypass = tdi,
            Selected::Identification => {
                self.identification.shift_in(tdi);
            }
            Selected::Boundary => {
                self.boundary.shift_in(tdi);
            }
            Selected::User(k) => users::shift(&mut self.users, k, tdi),
        }
    }

    /// The selected register's update part or latch takes its stage; bypass and identification have none.
    pub fn update(&mut self, selected: Selected)
        requires { IsThere (lengths_of B.stage self.old) selected }
        ensures data { (latch instruction : List Bool)
            → registers_of B.stage B.update_part latch instruction self.new
            ≡ update_selected selected (registers_of B.stage B.update_part latch instruction self.old) }
        ensures boundary { self.new.boundary
            ≡ B.with_parts self.old.boundary (B.stage self.new.boundary) (B.update_part self.new.boundary) }
        ensures lengths { lengths_of B.stage self.new ≡ lengths_of B.stage self.old }
    {
        match selected {
            Selected::Bypass | Selected::Identification => {}
            Selected::Boundary => self.boundary.update(),
            Selected::User(k) => users::update(&mut self.users, k),
        }
    }

    /// How many bits the selected register has.
    pub fn len(&self, selected: Selected) -> usize
        requires { IsThere (lengths_of B.stage self.now) selected }
        ensures { (latch instruction : List Bool) → result
            ≡ length (stage_of selected (registers_of B.stage B.update_part latch instruction self.now)) }
    {
        match selected {
            Selected::Bypass => 1,
            Selected::Identification => self.identification.len(),
            Selected::Boundary => self.boundary.len(),
            Selected::User(k) => users::len(&self.users, k),
        }
    }

    /// The bit of the selected register that is nearest TDO.
    pub fn first_bit(&self, selected: Selected) -> bool
        requires { IsThere (lengths_of B.stage self.now) selected }
        ensures { (latch instruction : List Bool) → slice_get
            (stage_of selected (registers_of B.stage B.update_part latch instruction self.now)) 0 ≡ Some result }
    {
        match selected {
            Selected::Bypass => self.bypass,
            Selected::Identification => self.identification.get(0),
            Selected::Boundary => self.boundary.get(0),
            Selected::User(k) => users::first_bit(&self.users, k),
        }
    }

    /// The bits of the selected register from place `i` on as a number, 64 of them, bit `i` lowest; missing ones are 0.
    pub fn word_at(&self, selected: Selected, i: usize) -> u64
        requires { IsThere (lengths_of B.stage self.now) selected }
        ensures { (latch instruction : List Bool) (j : ℕ) → j < 64 → has_bit result j
            ≡ bit_of (stage_of selected (registers_of B.stage B.update_part latch instruction self.now)) (i + j) }
    {
        match selected {
            Selected::Bypass => bypass_word(self.bypass, i),
            Selected::Identification => self.identification.word_at(i),
            Selected::Boundary => self.boundary.word_at(i),
            Selected::User(k) => users::word_at(&self.users, k, i),
        }
    }

    /// Makes the `n` bits of the selected register from `at` on those of `bits`, its lowest first, and keeps all else.
    pub fn put_run(&mut self, selected: Selected, at: usize, bits: u64, n: usize)
        requires there { IsThere (lengths_of B.stage self.old) selected }
        requires some { 0 < n }
        requires few { n ≤ 64 }
        requires inside { (latch instruction : List Bool) → at + n
            ≤ length (stage_of selected (registers_of B.stage B.update_part latch instruction self.old)) }
        ensures run { (latch instruction : List Bool)
            → RunSet (stage_of selected (registers_of B.stage B.update_part latch instruction self.old))
            (stage_of selected (registers_of B.stage B.update_part latch instruction self.new)) at bits n }
        ensures data { (latch instruction : List Bool)
            → registers_of B.stage B.update_part latch instruction self.new
            ≡ with_stage selected
            (stage_of selected (registers_of B.stage B.update_part latch instruction self.new))
            (registers_of B.stage B.update_part latch instruction self.old) }
        ensures boundary { self.new.boundary
            ≡ B.with_parts self.old.boundary (B.stage self.new.boundary) (B.update_part self.new.boundary) }
        ensures lengths { lengths_of B.stage self.new ≡ lengths_of B.stage self.old }
    {
        match selected {
            Selected::Bypass => put_bypass(&mut self.bypass, at, bits, n),
            Selected::Identification => self.identification.put_run(at, bits, n),
            Selected::Boundary => self.boundary.put_run(at, bits, n),
            Selected::User(k) => users::put_run(&mut self.users, k, at, bits, n),
        }
    }
}

impl<B: WordRegister> DataRegisters<B> {
    /// The selected register moves `n` places towards TDO, and takes the lowest bits of a word at the far end, the
    /// lowest first, as so many calls of `shift_in`. Answers the bits that left, the first of them the lowest; what
    /// stands above those has no meaning.
    pub fn shift_word(&mut self, selected: Selected, bits: u64, n: usize) -> u64
        requires there { IsThere (lengths_of B.stage self.old) selected }
        requires few { n ≤ 64 }
        ensures out { (latch instruction : List Bool) → word_bits result n ≡ take n
            (stage_of selected (registers_of B.stage B.update_part latch instruction self.old) ++ word_bits bits n) }
        ensures data { (latch instruction : List Bool)
            → registers_of B.stage B.update_part latch instruction self.new
            ≡ with_stage selected
            (drop n (stage_of selected (registers_of B.stage B.update_part latch instruction self.old)
            ++ word_bits bits n))
            (registers_of B.stage B.update_part latch instruction self.old) }
        ensures boundary { self.new.boundary
            ≡ B.with_parts self.old.boundary (B.stage self.new.boundary) (B.update_part self.new.boundary) }
        ensures lengths { lengths_of B.stage self.new ≡ lengths_of B.stage self.old }
    {
        match selected {
            Selected::Bypass => shift_bypass(&mut self.bypass, bits, n),
            Selected::Identification => self.identification.shift_word(bits, n),
            Selected::Boundary => self.boundary.shift_word(bits, n),
            Selected::User(k) => users::shift_word(&mut self.users, k, bits, n),
        }
    }
}

/// A register takes the bits, if there are some.
fn copy_fixed(register: &mut Bits, bits: Option<&Bits>)
    requires { (b : List Bool) → option_map {U = List Bool} (λ x. x.now) bits ≡ Some b
        → length b ≡ length register.old }
    ensures { register.new ≡ unwrap_or (option_map {U = List Bool} (λ x. x.now) bits.entry) register.old }
{
    if let Some(other) = bits {
        register.copy_from(other);
    }
}

/// The one bit of a bypass register from place `i` on.
fn bypass_word(bypass: bool, i: usize) -> u64
    ensures { (j : ℕ) → j < 64 → has_bit result j ≡ bit_of (bypass ∷ []) (i + j) }
{
    if i == 0 && bypass { 1 } else { 0 }
}

/// Makes the one bit of a bypass register the lowest of `bits`.
fn put_bypass(bypass: &mut bool, at: usize, bits: u64, n: usize)
    requires some { 0 < n }
    requires inside { at + n ≤ 1 }
    ensures { RunSet (bypass.old ∷ []) (bypass.new ∷ []) at bits n }
{
    *bypass = bits % 2 == 1;
}

/// The one bit of a bypass register moves `n` places towards TDO, and the lowest bits of a word behind it. Answers
/// those that left, the first of them the lowest.
fn shift_bypass(bypass: &mut bool, bits: u64, n: usize) -> u64
    requires { n ≤ 64 }
    ensures out { word_bits result n ≡ take n (bypass.old ∷ word_bits bits n) }
    ensures bit { bypass.new ∷ [] ≡ drop n (bypass.old ∷ word_bits bits n) }
{
    let out = bits << 1 | u64::from(*bypass);
    if n > 0 {
        *bypass = bits >> (n - 1) & 1 == 1;
    }
    out
}
