//! A description that several chips share.

ghost use Rattle.std.specs.Prelude.{◌≡◌, IfOk, length};
ghost use Rattle.chip_instructions.specs.Fitting.{Fits, IsFormed, meaning_by};
ghost use Rattle.chip_instructions.specs.Instruction.{meaning};

use crate::Decoded;
use crate::decoding::{BYPASSED, all_ones, meaning_of_name};
use crate::opcode_table::OpcodeTable;
use bsdl_device::{Bits, Device};
use std::alloc::{AllocError, Global};
use std::marker::Model;
use std::rc::Rc;

/// A device's description, kept once for all its chips and their boundary registers, with its opcodes sorted. Contracts
/// see it as the description.
#[derive(Drop)]
pub struct SharedDevice {
    device: Rc<SortedDevice>,
}

impl Model for SharedDevice {
    ghost use Rattle.std.specs.Rc.{rc_value};
    ghost use Rattle.bsdl_device.specs.Device as described;

    ghost Value = { described.Device };

    ghost view = { λ s. rc_value s.device };
}

/// A description with the table of its opcodes. Contracts see it as the description.
#[derive(Drop)]
struct SortedDevice {
    device: Device,
    opcodes: OpcodeTable,
}

impl Model for SortedDevice {
    ghost use Rattle.bsdl_device.specs.Device as described;
    ghost use Rattle.chip_instructions.specs.OpcodeTable.{IsTable};

    ghost Value = { described.Device };

    ghost view = { λ s. s.device };

    ghost invariant = { λ s. IsTable s.device.instruction_length s.device.opcodes s.opcodes };
}

impl SharedDevice {
    /// Takes a description over, to be shared. Refuses for want of memory alone.
    pub fn new(alloc: Global, device: Device) -> Result<SharedDevice, AllocError>
        ensures { IfOk result (λ s. s ≡ device) }
    {
        let sorted = SortedDevice::new(alloc, device)?;
        Ok(SharedDevice {
            device: Rc::new(alloc, sorted)?,
        })
    }

    /// One more that shares the same description, of which no copy is made. Refuses only where `usize::MAX` share it.
    /// No `alloc` is handed in, since no memory is taken: those that share it are counted beside it.
    pub fn share(&self) -> Result<SharedDevice, AllocError>
        ensures { IfOk result (λ s. s ≡ self.now) }
    {
        Ok(SharedDevice {
            device: self.device.clone()?,
        })
    }

    /// The description.
    pub fn get(&self) -> &Device
        ensures { result.now ≡ self.now }
    {
        self.device.device()
    }

    /// What the instruction in a latch does, as [`crate::decode`] says. A code without an X is found by a search among
    /// the sorted opcodes; of those with an X the rows before it are looked through.
    pub fn decode(&self, latch: &Bits) -> Decoded
        requires formed { IsFormed self.now }
        requires length { length latch.now ≡ self.now.instruction_length }
        ensures meaning { meaning_by self.now result ≡ meaning self.now latch.now }
        ensures fits { Fits self.now result }
    {
        self.device.decode(latch)
    }
}

impl SortedDevice {
    fn new(alloc: Global, device: Device) -> Result<SortedDevice, AllocError>
        ensures { IfOk result (λ s. s ≡ device) }
    {
        let opcodes = OpcodeTable::new(alloc, device.opcodes(), device.instruction_length())?;
        Ok(SortedDevice { device, opcodes })
    }

    fn device(&self) -> &Device
        ensures { result.now ≡ self.now }
    {
        &self.device
    }

    /// What the instruction in a latch does.
    fn decode(&self, latch: &Bits) -> Decoded
        requires formed { IsFormed self.now }
        requires length { length latch.now ≡ self.now.instruction_length }
        ensures meaning { meaning_by self.now result ≡ meaning self.now latch.now }
        ensures fits { Fits self.now result }
    {
        if all_ones(latch) {
            return BYPASSED;
        }
        let Some(number) = self.opcodes.row(latch) else {
            return BYPASSED;
        };
        match self.device.opcodes().get(number) {
            Some(row) => meaning_of_name(&self.device, row.name()),
            None => BYPASSED,
        }
    }
}
