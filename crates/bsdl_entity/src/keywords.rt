//! The words of an entity, in any case.
use bsdl_device::PortMode;
use bsdl_values::Attribute;

pub(crate) const ENTITY: [(&[u8], bool); 1] = [(b"ENTITY", true)];

pub(crate) const PORT: [(&[u8], bool); 1] = [(b"PORT", true)];

pub(crate) const MODES: [(&[u8], PortMode); 5] = [
    (b"IN", PortMode::In),
    (b"OUT", PortMode::Out),
    (b"INOUT", PortMode::InOut),
    (b"BUFFER", PortMode::Buffer),
    (b"LINKAGE", PortMode::Linkage),
];

/// Whether a port has several bits.
pub(crate) const KINDS: [(&[u8], bool); 2] = [(b"BIT", false), (b"BIT_VECTOR", true)];

/// Whether a range rises.
pub(crate) const DIRECTIONS: [(&[u8], bool); 2] = [(b"TO", true), (b"DOWNTO", false)];

pub(crate) const ATTRIBUTE: [(&[u8], bool); 1] = [(b"ATTRIBUTE", true)];

pub(crate) const OF: [(&[u8], bool); 1] = [(b"OF", true)];

pub(crate) const IS: [(&[u8], bool); 1] = [(b"IS", true)];

pub(crate) const END: [(&[u8], bool); 1] = [(b"END", true)];

pub(crate) const ATTRIBUTES: [(&[u8], Attribute); 14] = [
    (b"TAP_SCAN_IN", Attribute::TapScanIn),
    (b"TAP_SCAN_OUT", Attribute::TapScanOut),
    (b"TAP_SCAN_MODE", Attribute::TapScanMode),
    (b"TAP_SCAN_CLOCK", Attribute::TapScanClock),
    (b"TAP_SCAN_RESET", Attribute::TapScanReset),
    (b"INSTRUCTION_LENGTH", Attribute::InstructionLength),
    (b"BOUNDARY_LENGTH", Attribute::BoundaryLength),
    (b"INSTRUCTION_OPCODE", Attribute::InstructionOpcode),
    (b"INSTRUCTION_CAPTURE", Attribute::InstructionCapture),
    (b"BOUNDARY_REGISTER", Attribute::BoundaryRegister),
    (b"IDCODE_REGISTER", Attribute::IdcodeRegister),
    (b"USERCODE_REGISTER", Attribute::UsercodeRegister),
    (b"INSTRUCTION_PRIVATE", Attribute::InstructionPrivate),
    (b"REGISTER_ACCESS", Attribute::RegisterAccess),
];
