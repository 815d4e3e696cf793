//! Patterns, opcodes and the registers of a device's own instructions.
ghost use Rattle.std.specs.Prelude.{◌≡◌, List, Bool, option_map, string_bytes};

use crate::Place;
use jt_bits::Bits;
use std::marker::Model;

/// One pattern of 0, 1 and X, the rightmost first; X is `None`.
#[derive(Debug, Drop)]
pub struct Pattern {
    bits: Vec<Option<bool>>,
}

impl Model for Pattern {
    ghost use Rattle.bsdl_device.specs.Device as described;

    ghost Value = { described.Pattern };

    ghost view = { λ p. p.bits.items };
}

impl Pattern {
    /// A pattern of these bits, bit 0 nearest TDO; `None` is an X.
    pub fn new(bits: Vec<Option<bool>>) -> Pattern
        ensures { result ≡ bits.items }
    {
        Pattern { bits }
    }

    /// Its bits, bit 0 nearest TDO; `None` is an X.
    pub fn bits(&self) -> &[Option<bool>]
        ensures { result.now ≡ self.now }
    {
        &self.bits
    }
}

/// An instruction's name and its opcodes, as written.
#[derive(Debug, Drop)]
pub struct Opcode {
    name: String,
    patterns: Vec<Pattern>,
}

impl Model for Opcode {
    ghost use Rattle.std.specs.Prelude.{string_bytes};
    ghost use Rattle.bsdl_device.specs.Device as described;

    ghost Value = { described.Opcode };

    ghost view = { λ o. record { name = string_bytes o.name; patterns = o.patterns.items } };
}

impl Opcode {
    /// A row of this name in upper case.
    pub fn new(name: String, patterns: Vec<Pattern>) -> Opcode
        ensures { result ≡ record { name = string_bytes name; patterns = patterns.items } }
    {
        Opcode { name, patterns }
    }

    /// The instruction's name, in upper case.
    pub fn name(&self) -> &str
        ensures { result.now ≡ self.now.name }
    {
        self.name.as_str()
    }

    /// Its opcodes, in the order in which they are written.
    pub fn patterns(&self) -> &[Pattern]
        ensures { result.now ≡ self.now.patterns }
    {
        &self.patterns
    }
}

/// An own instruction, its register, and what it captures there, if that is fixed.
#[derive(Debug, Drop)]
pub struct Access {
    instruction: String,
    place: Place,
    captures: Option<Bits>,
}

impl Model for Access {
    ghost use Rattle.std.specs.Prelude.{string_bytes};
    ghost use Rattle.bsdl_device.specs.Device as described;

    ghost Value = { described.Access };

    ghost view = { λ a. record { instruction = string_bytes a.instruction; place = a.place; captures = a.captures } };
}

impl Access {
    /// An instruction of this name in upper case.
    pub fn new(instruction: String, place: Place, captures: Option<Bits>) -> Access
        ensures { result ≡ record { instruction = string_bytes instruction; place = place; captures = captures } }
    {
        Access {
            instruction,
            place,
            captures,
        }
    }

    /// The instruction's name, in upper case.
    pub fn instruction(&self) -> &str
        ensures { result.now ≡ self.now.instruction }
    {
        self.instruction.as_str()
    }

    /// The register that it selects.
    pub fn place(&self) -> Place
        ensures { result ≡ self.now.place }
    {
        self.place
    }

    /// What it captures there, bit 0 nearest TDO; `None` where that is not fixed.
    pub fn captures(&self) -> Option<&Bits>
        ensures { option_map {U = List Bool} (λ b. b.now) result ≡ self.now.captures }
    {
        self.captures.as_ref()
    }
}
