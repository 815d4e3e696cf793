//! Whether a description is one that a chip can rest on.

ghost use Rattle.std.specs.Prelude.{◌≡◌, Bool, List, IsTrue, length, option_map};
ghost use Rattle.chip_instructions.specs.Fitting.{AccessFits, AllFit, HaveLengthIfGiven, IsFormed};
ghost use Rattle.chip_instructions.specs.Instruction.{reset_latch};

use crate::start::idcode_opcode;
use bsdl_device::{Access, Bits, Device, Place};

/// The length of an identification code (IEEE Std 1149.1-2001, clause 12).
const CODE: usize = 32;

/// Whether each list that a register of the device takes has that register's length: the test for what a chip asks of
/// its description.
pub fn is_formed(device: &Device) -> bool
    ensures formed { IsTrue result → IsFormed device.now }
    ensures needed { IsFormed device.now → IsTrue result }
{
    let instruction = device.instruction_length();
    if instruction == 0 || device.capture().len() != instruction {
        return false;
    }
    if device.cells().is_empty() || !resets_whole(device) {
        return false;
    }
    if !is_long(device.idcode(), CODE) || !is_long(device.usercode(), CODE) {
        return false;
    }
    accesses_fit(device)
}

/// Whether these bits, if there are some, are so many.
fn is_long(bits: Option<&Bits>, n: usize) -> bool
    ensures fits { IsTrue result → HaveLengthIfGiven (option_map {U = List Bool} (λ x. x.now) bits.entry) n }
    ensures needed { HaveLengthIfGiven (option_map {U = List Bool} (λ x. x.now) bits.entry) n → IsTrue result }
{
    match bits {
        Some(found) => found.len() == n,
        None => true,
    }
}

/// Whether the latch that a reset gives is as long as the instruction register.
fn resets_whole(device: &Device) -> bool
    ensures fits { IsTrue result → length (reset_latch device.now) ≡ device.now.instruction_length }
    ensures needed { length (reset_latch device.now) ≡ device.now.instruction_length → IsTrue result }
{
    match (device.idcode(), idcode_opcode(device.opcodes())) {
        (Some(_), Some(opcode)) => opcode.bits().len() == device.instruction_length(),
        _ => true,
    }
}

/// Whether each access to a user register names one that is there, and captures as many bits.
fn accesses_fit(device: &Device) -> bool
    ensures fits { IsTrue result → AllFit device.now }
    ensures needed { AllFit device.now → IsTrue result }
{
    for access in device.accesses() {
        if !access_fits(device, access) {
            return false;
        }
    }
    true
}

/// Whether an access to a user register names one that is there, and captures as many bits.
fn access_fits(device: &Device, access: &Access) -> bool
    ensures fits { IsTrue result → AccessFits device.now access.now }
    ensures needed { AccessFits device.now access.now → IsTrue result }
{
    match access.place() {
        Place::AtUser(u) => match device.users().get(u) {
            Some(n) => *n > 0 && is_long(access.captures(), *n),
            None => false,
        },
        _ => true,
    }
}
