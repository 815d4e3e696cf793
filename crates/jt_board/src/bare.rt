//! The bare device, and the plan of a board of bare devices.

ghost use Rattle.std.specs.Prelude.{◌≡◌, [], ◌∷◌, ◌<◌, ◌≤◌, true, false, Some, map, string_bytes, IfOk};
ghost use Rattle.jt_limits.specs.Limits.{limits};
ghost use Rattle.board_plan.specs.View.{member, wiring};
ghost use Rattle.board_model.specs.Bare.{bare};
ghost use Rattle.jt_board.specs.Bares.{bare_at, bare_planned, bare_wiring, two_bits};
ghost use Rattle.jt_board.specs.Made.{IsReadyPlan};

use board_plan::{Plan, PlannedDevice};
use bsdl_device::{Cell, Device, Function, Names, Opcode, Parts, Pattern, Port, PortMode, Ports};
use chip_instructions::SharedDevice;
use jt_bits::Bits;
use std::alloc::{AllocError, Global};

/// The plan of so many bare devices, 1 to 256, named U1, U2 and so on, whose cores are 0. Refuses for want of memory
/// alone.
pub fn bare_plan(alloc: Global, n: usize) -> Result<Plan, AllocError>
    requires some { 0 < n }
    requires most { n ≤ limits.devices }
    ensures wired { IfOk result (λ p. wiring p ≡ bare_wiring n) }
    ensures ready { IfOk result (λ p. IsReadyPlan p) }
{
    let device = SharedDevice::new(alloc, bare_device(alloc)?)?;
    let devices = bare_devices(alloc, &device, n)?;
    Ok(Plan {
        devices,
        nets: Vec::new(alloc),
        order: Vec::new(alloc),
    })
}

/// So many devices of this description, named U1, U2 and so on.
fn bare_devices(
    alloc: Global,
    device: &SharedDevice,
    n: usize,
) -> Result<Vec<PlannedDevice>, AllocError>
    requires small { n ≤ limits.devices }
    requires bare { device.now ≡ bare }
    ensures { IfOk result (λ v. map member v.items ≡ bare_planned 1 n) }
{
    let mut devices = Vec::with_capacity(alloc, n)?;
    for i in 0..n {
        devices.push(planned_device(alloc, device, i + 1)?)?;
    }
    Ok(devices)
}

/// The device U and this number, of this description.
fn planned_device(
    alloc: Global,
    device: &SharedDevice,
    number: usize,
) -> Result<PlannedDevice, AllocError>
    requires { device.now ≡ bare }
    ensures { IfOk result (λ d. member d ≡ bare_at number) }
{
    Ok(PlannedDevice {
        name: format!(in alloc; "U{number}")?,
        file: None,
        device: device.share()?,
        core: Bits::zeros(alloc, 1)?,
        follows: Vec::new(alloc),
        extest_update: false,
    })
}

/// Two instruction bits, BYPASS 11 and EXTEST 00, capture 01, no code, one internal cell, and the TAP's four ports.
fn bare_device(alloc: Global) -> Result<Device, AllocError>
    ensures { IfOk result (λ d. d ≡ bare) }
{
    let mut capture = Bits::zeros(alloc, 2)?;
    capture.set(0, true);
    let mut cells = Vec::with_capacity(alloc, 1)?;
    cells.push(Cell {
        function: Function::Internal,
        port: None,
        control: None,
    })?;
    let mut opcodes = Vec::with_capacity(alloc, 2)?;
    opcodes.push(opcode(alloc, "BYPASS", true)?)?;
    opcodes.push(opcode(alloc, "EXTEST", false)?)?;
    Ok(Device::new(Parts {
        ports: tap_ports(alloc)?,
        instruction_length: 2,
        opcodes,
        capture,
        idcode: None,
        usercode: None,
        cells,
        private_names: Names::new(alloc),
        accesses: Vec::new(alloc),
        users: Vec::new(alloc),
        has_trst: false,
    }))
}

/// The TAP's four ports.
fn tap_ports(alloc: Global) -> Result<Ports, AllocError>
    ensures { IfOk result (λ p. p ≡ bare.ports) }
{
    Ports::new(alloc)
        .with(tap_port(alloc, "TDI", PortMode::In)?, None)?
        .with(tap_port(alloc, "TMS", PortMode::In)?, None)?
        .with(tap_port(alloc, "TCK", PortMode::In)?, None)?
        .with(tap_port(alloc, "TDO", PortMode::Out)?, None)
}

/// One port of the TAP.
fn tap_port(alloc: Global, name: &str, mode: PortMode) -> Result<Port, AllocError>
    ensures name { IfOk result (λ p. string_bytes p.name ≡ name.now) }
    ensures mode { IfOk result (λ p. p.mode ≡ mode) }
    ensures is_tap { IfOk result (λ p. p.is_tap ≡ true) }
{
    Ok(Port {
        name: String::from_str(alloc, name)?,
        mode,
        is_tap: true,
    })
}

/// An instruction whose opcode is two of these bits.
fn opcode(alloc: Global, name: &str, bit: bool) -> Result<Opcode, AllocError>
    ensures { IfOk result (λ o. o ≡ record { name = name.now; patterns = two_bits bit ∷ [] }) }
{
    let mut bits = Vec::with_capacity(alloc, 2)?;
    bits.push(Some(bit))?;
    bits.push(Some(bit))?;
    let mut patterns = Vec::with_capacity(alloc, 1)?;
    patterns.push(Pattern::new(bits))?;
    Ok(Opcode::new(String::from_str(alloc, name)?, patterns))
}
