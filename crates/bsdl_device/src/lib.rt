//! What a device description says of a device (IEEE Std 1149.1-2001, Annex B). Data alone; bits stand lowest first.
#![tactic(auto)]

ghost use Rattle.std.specs.Prelude.{◌≡◌};
ghost use Rattle.bsdl_device.specs.Driving as spec;

pub use jt_bits::Bits;
pub use name_keys::NameKey;
pub use names::Names;
pub use port_bits::{Indices, Port, PortBit, Ports};
pub use rows::{Access, Opcode, Pattern};
pub use whole::{Device, Parts};

mod names;
mod numbers;
mod port_bits;
mod rows;
mod whole;

/// How a port lies (Annex B.8.3).
#[derive(Debug, Clone, Copy, PartialEq, Eq)]
pub enum PortMode {
    In,
    Out,
    InOut,
    Buffer,
    Linkage,
}

/// What a boundary cell does (Annex B.8.14).
#[derive(Debug, Clone, Copy, PartialEq, Eq)]
pub enum Function {
    Input,
    Clock,
    ObserveOnly,
    Bidir,
    Output2,
    Output3,
    Control,
    ControlR,
    Internal,
}

impl Function {
    /// Whether a cell of this function drives its port.
    pub fn drives(self) -> bool
        ensures { result ≡ spec.drives self }
    {
        matches!(
            self,
            Function::Output2 | Function::Output3 | Function::Bidir
        )
    }
}

/// What a pin shows while its driver is disabled (Annex B.8.14).
#[derive(Debug, Clone, Copy, PartialEq, Eq)]
pub enum Disabled {
    Z,
    Keeper,
    Weak0,
    Weak1,
    Pull0,
    Pull1,
}

/// A driving cell's control: the cell that disables it, by which value, and what is driven then.
#[derive(Debug, Clone, Copy, PartialEq, Eq)]
pub struct Control3 {
    pub cell: usize,
    pub disabling: bool,
    pub leaves: Disabled,
}

/// One boundary cell; cell 0 is nearest TDO. Its port is the number of a port bit.
#[derive(Debug, Clone, Copy, PartialEq, Eq)]
pub struct Cell {
    pub function: Function,
    pub port: Option<usize>,
    pub control: Option<Control3>,
}

/// The register that an instruction of the device's own selects (Annex B.8.13).
#[derive(Debug, Clone, Copy, PartialEq, Eq)]
pub enum Place {
    AtBypass,
    AtBoundary,
    AtDeviceId,
    /// The user register of this number.
    AtUser(usize),
}
