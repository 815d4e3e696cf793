//! What a reset gives.

ghost use Rattle.std.specs.Prelude.{◌≡◌, IfOk, option_map, if◌then◌else◌};
ghost use Rattle.bsdl_device.specs.Opcodes.{idcode_opcode, x_as_0};
ghost use Rattle.bsdl_device.specs.Device.{Pattern as ThePattern};
ghost use Rattle.chip_instructions.specs.Fitting.{has_code as is_coded};
ghost use Rattle.chip_instructions.specs.Instruction as named;

use bsdl_device::{Bits, Device, Opcode, Pattern};
use std::alloc::{AllocError, Global};

/// Whether the device has an identification register (clause 12): it has an identification code or a user code.
pub fn has_code(device: &Device) -> bool
    ensures { result ≡ is_coded device.now }
{
    device.idcode().is_some() || device.usercode().is_some()
}

/// The length of the identification register in bits (clause 12), 0 where the device has none.
pub fn code_length(device: &Device) -> usize
    ensures { result ≡ (if is_coded device.now then 32 else 0) }
{
    if has_code(device) { 32 } else { 0 }
}

/// The latch that a reset gives, bit 0 nearest TDO (clause 7): the first opcode of IDCODE with X as 0, where the device
/// has the code and the opcode, and else all ones. Its only refusal is want of memory.
pub fn reset_latch(alloc: Global, device: &Device) -> Result<Bits, AllocError>
    ensures { IfOk result (λ b. b ≡ named.reset_latch device.now) }
{
    match (device.idcode(), idcode_opcode(device.opcodes())) {
        (Some(_), Some(opcode)) => x_as_0(alloc, opcode.bits()),
        _ => Bits::ones(alloc, device.instruction_length()),
    }
}

/// The first opcode of IDCODE.
pub(crate) fn idcode_opcode(rows: &[Opcode]) -> Option<&Pattern>
    ensures { option_map {U = ThePattern} (λ p. p.now) result ≡ idcode_opcode rows.now }
{
    for row in rows {
        if row.name() == "IDCODE" {
            return row.patterns().first();
        }
    }
    None
}

/// A pattern's bits, X as 0.
pub(crate) fn x_as_0(alloc: Global, digits: &[Option<bool>]) -> Result<Bits, AllocError>
    ensures { IfOk result (λ b. b ≡ x_as_0 digits.now) }
{
    let mut bits = Bits::zeros(alloc, digits.len())?;
    for i in 0..digits.len() {
        bits.set(i, digits[i].unwrap_or(false));
    }
    Ok(bits)
}
