//! The words of boundary cells, in any case.
use bsdl_device::{Disabled, Function};

pub(crate) const FUNCTIONS: [(&[u8], Function); 9] = [
    (b"INPUT", Function::Input),
    (b"CLOCK", Function::Clock),
    (b"OBSERVE_ONLY", Function::ObserveOnly),
    (b"BIDIR", Function::Bidir),
    (b"OUTPUT2", Function::Output2),
    (b"OUTPUT3", Function::Output3),
    (b"CONTROL", Function::Control),
    (b"CONTROLR", Function::ControlR),
    (b"INTERNAL", Function::Internal),
];

pub(crate) const DISABLED: [(&[u8], Disabled); 6] = [
    (b"Z", Disabled::Z),
    (b"WEAK0", Disabled::Weak0),
    (b"WEAK1", Disabled::Weak1),
    (b"PULL0", Disabled::Pull0),
    (b"PULL1", Disabled::Pull1),
    (b"KEEPER", Disabled::Keeper),
];

/// A cell's safe value has no meaning here.
pub(crate) const SAFE: [(&[u8], bool); 3] = [(b"0", true), (b"1", true), (b"X", true)];

pub(crate) const BITS: [(&[u8], bool); 2] = [(b"0", false), (b"1", true)];
