//! What an instruction does, from a device's description.

ghost use Rattle.std.specs.Prelude.{◌≡◌, ℕ, List, Bool, Some, option_map, slice_get, map};
ghost use Rattle.std.specs.List.{list_all};
ghost use Rattle.chip_instructions.specs.Fitting.{Fits, IsFormed, fixed_of, meaning_by};
ghost use Rattle.bsdl_device.specs.Opcodes.{matches, names_it};
ghost use Rattle.chip_instructions.specs.Instruction.{reads_code, instruction, meaning, meaning_of};
ghost use Rattle.chip_instructions.specs.Instruction.{look_up, access_meaning};
ghost use Rattle.std.specs.List.{find};
ghost use Rattle.chip_instructions.specs.declared.decoding.Fixed.TheVariants.{Free};

use crate::{Mode, Selected};
use bsdl_device::{Bits, Device, Opcode, Pattern, Place};

/// The list that the capture of the identification register, or of a register of the device's own, is fixed to, as a
/// place of the description.
#[derive(Debug, Clone, Copy, PartialEq, Eq)]
pub enum Fixed {
    /// Nothing fixed.
    Free,
    /// The identification code.
    Idcode,
    /// The user code.
    Usercode,
    /// What the own instruction at this place of `Device::accesses` captures, if that is fixed.
    Access(usize),
}

/// What an instruction does.
#[derive(Debug, Clone, Copy)]
pub struct Decoded {
    /// How it drives the pins.
    pub mode: Mode,
    /// The register that it puts between TDI and TDO.
    pub selected: Selected,
    /// What that register captures, where this is fixed.
    pub fixed: Fixed,
}

pub(crate) const BYPASSED: Decoded = Decoded {
    mode: Mode::Core,
    selected: Selected::Bypass,
    fixed: Fixed::Free,
};

/// What the instruction in a latch does (clause 8): that of the name by which the device's opcodes know it, and BYPASS
/// where none does, where the name is private, INTEST or RUNBIST, or where the device lacks what it names.
pub fn decode(device: &Device, latch: &Bits) -> Decoded
    requires { IsFormed device.now }
    ensures meaning { meaning_by device.now result ≡ meaning device.now latch.now }
    ensures fits { Fits device.now result }
{
    if all_ones(latch) {
        return BYPASSED;
    }
    match row_of(device.opcodes(), latch) {
        None => BYPASSED,
        Some(row) => meaning_of_name(device, row.name()),
    }
}

/// The name of the instruction in a latch, in upper case: BYPASS for all ones, else that of the first row with
/// an opcode that matches (clauses 7 and 8); `None` where no opcode matches.
pub fn instruction_of<'a>(device: &'a Device, latch: &Bits) -> Option<&'a str>
    ensures { option_map {U = List ℕ} (λ s. s.now) result ≡ instruction device.now latch.now }
{
    if all_ones(latch) {
        return Some("BYPASS");
    }
    match row_of(device.opcodes(), latch) {
        Some(row) => Some(row.name()),
        None => None,
    }
}

/// What the instruction of a name does.
pub(crate) fn meaning_of_name(device: &Device, name: &str) -> Decoded
    requires { IsFormed device.now }
    ensures meaning { meaning_by device.now result ≡ meaning_of device.now (Some name.now) }
    ensures fits { Fits device.now result }
{
    if device.is_private(name) {
        return BYPASSED;
    }
    match name {
        "BYPASS" => BYPASSED,
        "EXTEST" => selects(Mode::Extest, Selected::Boundary),
        "SAMPLE" | "PRELOAD" => selects(Mode::Core, Selected::Boundary),
        "CLAMP" => selects(Mode::Clamp, Selected::Bypass),
        "HIGHZ" => selects(Mode::HighZ, Selected::Bypass),
        "IDCODE" => idcode(device),
        "USERCODE" => usercode(device),
        "INTEST" | "RUNBIST" => BYPASSED,
        _ => own(device, name),
    }
}

/// The mode with the register selected, its capture fixed to nothing.
fn selects(mode: Mode, selected: Selected) -> Decoded
    ensures { result ≡ record { mode = mode; selected = selected; fixed = Free } }
{
    Decoded {
        mode,
        selected,
        fixed: Fixed::Free,
    }
}

/// What IDCODE does.
fn idcode(device: &Device) -> Decoded
    requires { IsFormed device.now }
    ensures meaning { meaning_by device.now result ≡ reads_code device.now.idcode }
    ensures fits { Fits device.now result }
{
    if device.idcode().is_some() {
        Decoded {
            mode: Mode::Core,
            selected: Selected::Identification,
            fixed: Fixed::Idcode,
        }
    } else {
        BYPASSED
    }
}

/// What USERCODE does.
fn usercode(device: &Device) -> Decoded
    requires { IsFormed device.now }
    ensures meaning { meaning_by device.now result ≡ reads_code device.now.usercode }
    ensures fits { Fits device.now result }
{
    if device.usercode().is_some() {
        Decoded {
            mode: Mode::Core,
            selected: Selected::Identification,
            fixed: Fixed::Usercode,
        }
    } else {
        BYPASSED
    }
}

/// What an own instruction of the device does.
fn own(device: &Device, name: &str) -> Decoded
    requires { IsFormed device.now }
    ensures meaning { meaning_by device.now result
        ≡ look_up name.now (map (access_meaning device.now) device.now.accesses) }
    ensures fits { Fits device.now result }
{
    for (k, access) in device.accesses().iter().enumerate() {
        if name == access.instruction() {
            return at_place(device, k, access.place());
        }
    }
    BYPASSED
}

/// What the own instruction of access `k` does, whose register is there.
fn at_place(device: &Device, k: usize, place: Place) -> Decoded
    requires formed { IsFormed device.now }
    requires place { option_map (λ a. a.place) (slice_get device.now.accesses k) ≡ Some place }
    ensures meaning { option_map (λ a. (access_meaning device.now a).1) (slice_get device.now.accesses k)
        ≡ Some (meaning_by device.now result) }
    ensures fits { Fits device.now result }
{
    match place {
        Place::AtBypass => BYPASSED,
        Place::AtBoundary => selects(Mode::Core, Selected::Boundary),
        Place::AtDeviceId => idcode(device),
        Place::AtUser(u) => Decoded {
            mode: Mode::Core,
            selected: Selected::User(u),
            fixed: Fixed::Access(k),
        },
    }
}

/// The bits that a capture is fixed to, bit 0 nearest TDO; `None` where it is fixed to nothing.
pub fn fixed_bits(device: &Device, fixed: Fixed) -> Option<&Bits>
    ensures { option_map {U = List Bool} (λ b. b.now) result ≡ fixed_of device.now fixed }
{
    match fixed {
        Fixed::Free => None,
        Fixed::Idcode => device.idcode(),
        Fixed::Usercode => device.usercode(),
        Fixed::Access(k) => match device.accesses().get(k) {
            Some(access) => access.captures(),
            None => None,
        },
    }
}

pub(crate) fn all_ones(bits: &Bits) -> bool
    ensures { result ≡ list_all (λ b. b) bits.now }
{
    for i in 0..bits.len() {
        if !bits.get(i) {
            return false;
        }
    }
    true
}

/// The first row with an opcode that is this latch.
fn row_of<'a>(rows: &'a [Opcode], latch: &Bits) -> Option<&'a Opcode>
    ensures { option_map (λ o. o.now) result ≡ find (names_it latch.now) rows.now }
{
    for row in rows {
        if has_opcode(row, latch) {
            return Some(row);
        }
    }
    None
}

fn has_opcode(row: &Opcode, latch: &Bits) -> bool
    ensures { result ≡ names_it latch.now row.now }
{
    for pattern in row.patterns() {
        if is_opcode(pattern, latch) {
            return true;
        }
    }
    false
}

/// Whether a pattern matches a latch, an X either bit.
pub(crate) fn is_opcode(pattern: &Pattern, latch: &Bits) -> bool
    ensures { result ≡ matches pattern.now latch.now }
{
    let digits = pattern.bits();
    if digits.len() != latch.len() {
        return false;
    }
    for i in 0..digits.len() {
        if let Some(wanted) = digits[i] {
            if latch.get(i) != wanted {
                return false;
            }
        }
    }
    true
}
