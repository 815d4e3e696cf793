//! The instructions of a device that stand for BYPASS.
ghost use Rattle.std.specs.Prelude.{◌≡◌, option_map, slice_get};
ghost use Rattle.board_plan.specs.LeftOut as spec;

use chip_instructions::Device;

/// The name of the k-th instruction, counted from 0, that has an opcode and no meaning of its own here, so that it
/// stands for BYPASS: the standard's INTEST and RUNBIST, and the private ones, in the order of the opcode rows.
pub fn left_out(device: &Device, k: usize) -> Option<&str>
    ensures { option_map (λ s. s.now) result ≡ slice_get (spec.left_out device.now) k }
{
    let mut before = k;
    for opcode in device.opcodes() {
        if is_left_out(device, opcode.name()) {
            if before == 0 {
                return Some(opcode.name());
            }
            before -= 1;
        }
    }
    None
}

/// Whether an instruction with this name, in upper case, has no meaning of its own here, so that it stands for BYPASS:
/// the standard's INTEST and RUNBIST, and the private ones of the device (clause 8).
pub fn is_left_out(device: &Device, name: &str) -> bool
    ensures { result ≡ spec.is_left_out device.now name.now }
{
    name == "INTEST" || name == "RUNBIST" || device.is_private(name)
}

/// An instruction that is left out does what BYPASS does, whatever else the description says of it: it selects the
/// bypass register, and leaves the pins to the core.
pub fn left_out_means_bypass()
    ensures { spec.LeftOutMeansBypass }
{}
