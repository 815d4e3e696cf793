//! A whole description.
ghost use Rattle.std.specs.Prelude.{◌≡◌, ◌<◌, List, Bool, length, option_map, bytes_eq, slice_get, IfOk};
ghost use Rattle.std.specs.List.{list_any};
ghost use Rattle.bsdl_device.specs.Ports.{bit_number};
ghost use Rattle.bsdl_device.specs.View.{port_bit};

use crate::{Access, Cell, Names, Opcode, PortBit, Ports};
use jt_bits::Bits;
use std::alloc::{AllocError, Global};
use std::marker::Model;

/// The parts that a description is made of, each as [`Device`] has it.
#[derive(Debug, Drop)]
pub struct Parts {
    pub ports: Ports,
    pub instruction_length: usize,
    pub opcodes: Vec<Opcode>,
    pub capture: Bits,
    pub idcode: Option<Bits>,
    pub usercode: Option<Bits>,
    pub cells: Vec<Cell>,
    pub private_names: Names,
    pub accesses: Vec<Access>,
    pub users: Vec<usize>,
    pub has_trst: bool,
}

/// A device as its description has it. Contracts see it as the record of these parts.
#[derive(Debug, Drop)]
pub struct Device {
    parts: Parts,
}

impl Model for Device {
    ghost use Rattle.bsdl_device.specs.Device as described;

    ghost Value = { described.Device };

    ghost view = { λ d. record {
      ports = d.parts.ports;
      instruction_length = d.parts.instruction_length;
      opcodes = d.parts.opcodes.items;
      capture = d.parts.capture;
      idcode = d.parts.idcode;
      usercode = d.parts.usercode;
      cells = d.parts.cells.items;
      private_names = d.parts.private_names;
      accesses = d.parts.accesses.items;
      users = d.parts.users.items;
      has_trst = d.parts.has_trst;
    } };
}

impl Device {
    /// The description that has these parts.
    pub fn new(parts: Parts) -> Device
        ensures { result ≡ record {
          ports = parts.ports;
          instruction_length = parts.instruction_length;
          opcodes = parts.opcodes.items;
          capture = parts.capture;
          idcode = parts.idcode;
          usercode = parts.usercode;
          cells = parts.cells.items;
          private_names = parts.private_names;
          accesses = parts.accesses.items;
          users = parts.users.items;
          has_trst = parts.has_trst;
        } }
    {
        Device { parts }
    }

    /// How many port bits there are, those of the TAP among them.
    pub fn port_count(&self) -> usize
        ensures { result ≡ length self.now.ports }
    {
        self.parts.ports.len()
    }

    /// The port bit of this number: in the order in which ports are declared, within a port by rising index.
    pub fn port(&self, number: usize) -> PortBit<'_>
        requires { number < length self.now.ports }
        ensures { slice_get self.now.ports number ≡ Some (port_bit result) }
    {
        self.parts.ports.get(number)
    }

    /// The number of the port bit of this name, in any case, and index. It takes memory for the name in lower case, by
    /// which the ports are kept.
    pub fn find_port(
        &self,
        alloc: Global,
        name: &str,
        index: Option<usize>,
    ) -> Result<Option<usize>, AllocError>
        ensures { IfOk result (λ number. number ≡ bit_number name.now index self.now.ports) }
    {
        self.parts.ports.find(alloc, name, index)
    }

    /// The length of the instruction register.
    pub fn instruction_length(&self) -> usize
        ensures { result ≡ self.now.instruction_length }
    {
        self.parts.instruction_length
    }

    /// The instructions that have opcodes, in the order of their rows.
    pub fn opcodes(&self) -> &[Opcode]
        ensures { result.now ≡ self.now.opcodes }
    {
        &self.parts.opcodes
    }

    /// What the instruction register captures, X as 0.
    pub fn capture(&self) -> &Bits
        ensures { result.now ≡ self.now.capture }
    {
        &self.parts.capture
    }

    /// The identification code, X as 0.
    pub fn idcode(&self) -> Option<&Bits>
        ensures { option_map {U = List Bool} (λ b. b.now) result ≡ self.now.idcode }
    {
        self.parts.idcode.as_ref()
    }

    /// The user's code, X as 0.
    pub fn usercode(&self) -> Option<&Bits>
        ensures { option_map {U = List Bool} (λ b. b.now) result ≡ self.now.usercode }
    {
        self.parts.usercode.as_ref()
    }

    /// The boundary register, cell 0 first.
    pub fn cells(&self) -> &[Cell]
        ensures { result.now ≡ self.now.cells }
    {
        &self.parts.cells
    }

    /// Whether the instruction of this name, in upper case, is private.
    pub fn is_private(&self, name: &str) -> bool
        ensures { result ≡ list_any (bytes_eq name.now) self.now.private_names }
    {
        self.parts.private_names.contains(name)
    }

    /// The device's own instructions with the registers that they select.
    pub fn accesses(&self) -> &[Access]
        ensures { result.now ≡ self.now.accesses }
    {
        &self.parts.accesses
    }

    /// The lengths of the user registers, in the order in which they are first named.
    pub fn users(&self) -> &[usize]
        ensures { result.now ≡ self.now.users }
    {
        &self.parts.users
    }

    /// Whether the device has a TRST port.
    pub fn has_trst(&self) -> bool
        ensures { result ≡ self.now.has_trst }
    {
        self.parts.has_trst
    }
}
