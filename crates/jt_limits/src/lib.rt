//! The limits of texts, descriptions, boards and plays: each number stands here once, for the code and the definitions.
#![tactic(auto)]

ghost use Rattle.std.specs.Prelude.{◌≡◌};
ghost use Rattle.jt_limits.specs.Limits as spec;
ghost use Rattle.jt_limits.specs.Limits.{IsAtMost};

/// The most that is accepted of each kind.
#[derive(Debug, Clone, Copy, PartialEq, Eq)]
pub struct Limits {
    /// Bytes of a text of SVF.
    pub text_bytes: usize,
    /// Statements of a text.
    pub statements: usize,
    /// Bits of one scan.
    pub scan_bits: usize,
    /// Bits of a whole vector: header, body and trailer.
    pub vector_bits: usize,
    /// Cycles of a count, and of a run.
    pub cycles: u64,
    /// Picoseconds of a period, and of a time.
    pub picoseconds: u64,
    /// Bytes of a description.
    pub description_bytes: usize,
    /// Bits of an instruction.
    pub instruction_bits: usize,
    /// Instructions of a device.
    pub instructions: usize,
    /// Cells of a boundary register.
    pub cells: usize,
    /// Port bits of a device.
    pub port_bits: usize,
    /// Registers of a device's own.
    pub user_registers: usize,
    /// Bits of one of them.
    pub user_bits: usize,
    /// Devices of a board.
    pub devices: usize,
    /// Nets of a board that have a name.
    pub nets: usize,
}

/// The limits that stood before scans of 1,048,576 bits and boards of 256 devices.
pub const EARLIER_LIMITS: Limits = Limits {
    text_bytes: 16_777_216,
    statements: 200_000,
    scan_bits: 65_536,
    vector_bits: 65_536,
    cycles: 4_294_967_295,
    picoseconds: 1_000_000_000_000_000_000,
    description_bytes: 4_194_304,
    instruction_bits: 64,
    instructions: 256,
    cells: 4_096,
    port_bits: 8_192,
    user_registers: 64,
    user_bits: 4_096,
    devices: 32,
    nets: 4_096,
};

/// The limits that stand.
pub const LIMITS: Limits = Limits {
    text_bytes: 16_777_216,
    statements: 200_000,
    scan_bits: 1_048_576,
    vector_bits: 1_048_576,
    cycles: 4_294_967_295,
    picoseconds: 1_000_000_000_000_000_000,
    description_bytes: 4_194_304,
    instruction_bits: 64,
    instructions: 256,
    cells: 4_096,
    port_bits: 8_192,
    user_registers: 64,
    user_bits: 4_096,
    devices: 256,
    nets: 16_384,
};

/// The largest index of a port, and the largest number of a row of the boundary register.
pub const SUBSCRIPT_LIMIT: usize = 65_535;

/// One more than the largest: what is larger counts as this.
pub const ABOVE_SUBSCRIPTS: usize = SUBSCRIPT_LIMIT + 1;

/// A number of SVF text has at most so many digits before its exponent: one with more has no value.
pub const DIGITS_LIMIT: usize = 18;

/// An exponent of SVF text is at most this, in either direction: a number with a larger one has no value.
pub const EXPONENT_LIMIT: u32 = 18;

/// Each of the earlier limits is at most the one that stands.
pub fn earlier_limits_are_lower()
    ensures { IsAtMost spec.earlier_limits spec.limits }
{}

/// The limits that stand, with the numbers that the definitions state.
pub fn limits_that_stand() -> Limits
    ensures { result ≡ spec.limits }
{
    LIMITS
}

/// Those that stood before, with the numbers that the definitions state.
pub fn limits_that_stood() -> Limits
    ensures { result ≡ spec.earlier_limits }
{
    EARLIER_LIMITS
}

/// The largest subscript, with the number that the definitions state.
pub fn subscripts_that_stand() -> usize
    ensures { result ≡ spec.subscript_limit }
{
    SUBSCRIPT_LIMIT
}

/// The digits and the exponent that a number of SVF has at most, with the numbers that the definitions state.
pub fn numbers_that_stand() -> (usize, u32)
    ensures { result ≡ (spec.digit_limit, spec.exponent_limit) }
{
    (DIGITS_LIMIT, EXPONENT_LIMIT)
}
