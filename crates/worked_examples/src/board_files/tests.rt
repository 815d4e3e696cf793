//! How often descriptions are read, of one small device of three cells, of which cell 0 drives Q and cell 1 drives B.
ghost use Rattle.std.specs.Prelude.{◌≡◌, [], ◌∷◌, IfOk, string_bytes};
ghost use Rattle.worked_examples.specs.Small.{small_both, small_cell, small_device, small_driver, small_ports};

use board_file::{Describe, Unread, plan_of_text};
use bsdl_device::{
    Cell as BoundaryCell, Device, Function, Indices, Names, Parts, Port, PortMode, Ports,
};
use jt_bits::Bits;
use std::alloc::{AllocError, Global};
use std::cell::Cell;
use std::test::Fail;

fn port(alloc: Global, name: &str, mode: PortMode, is_tap: bool) -> Result<Port, AllocError>
    ensures name { IfOk result (λ p. string_bytes p.name ≡ name.now) }
    ensures mode { IfOk result (λ p. p.mode ≡ mode) }
    ensures tap { IfOk result (λ p. p.is_tap ≡ is_tap) }
{
    Ok(Port {
        name: String::from_str(alloc, name)?,
        mode,
        is_tap,
    })
}

fn ports(alloc: Global) -> Result<Ports, AllocError>
    ensures { IfOk result (λ p. p ≡ small_ports) }
{
    let ports = Ports::new(alloc);
    let ports = ports.with(port(alloc, "TDI", PortMode::In, true)?, None)?;
    let ports = ports.with(port(alloc, "Q", PortMode::Out, false)?, None)?;
    let ports = ports.with(port(alloc, "D", PortMode::In, false)?, None)?;
    let bus = Indices { low: 2, len: 2 };
    let ports = ports.with(port(alloc, "A", PortMode::In, false)?, Some(bus))?;
    let ports = ports.with(port(alloc, "VCC", PortMode::Linkage, false)?, None)?;
    ports.with(port(alloc, "B", PortMode::InOut, false)?, None)
}

fn cells(alloc: Global) -> Result<Vec<BoundaryCell>, AllocError>
    ensures { IfOk result (λ v. v.items ≡ small_driver ∷ small_both ∷ small_cell ∷ []) }
{
    let driver = BoundaryCell {
        function: Function::Output2,
        port: Some(1),
        control: None,
    };
    let both = BoundaryCell {
        function: Function::Bidir,
        port: Some(6),
        control: None,
    };
    let cell = BoundaryCell {
        function: Function::Internal,
        port: None,
        control: None,
    };
    let mut cells = Vec::new(alloc);
    cells.push(driver)?;
    cells.push(both)?;
    cells.push(cell)?;
    Ok(cells)
}

fn device(alloc: Global) -> Result<Device, AllocError>
    ensures { IfOk result (λ d. d ≡ small_device) }
{
    Ok(Device::new(Parts {
        ports: ports(alloc)?,
        instruction_length: 2,
        opcodes: Vec::new(alloc),
        capture: Bits::ones(alloc, 1)?,
        idcode: None,
        usercode: None,
        cells: cells(alloc)?,
        private_names: Names::new(alloc),
        accesses: Vec::new(alloc),
        users: Vec::new(alloc),
        has_trst: false,
    }))
}

/// A reader to which `K` is the small device; it refuses any other text.
struct Small;

impl Describe for Small {
    type Fault = u8;

    ghost use Rattle.std.specs.Prelude.{◌≡◌};
    ghost use Rattle.worked_examples.specs.Small.{small_says};

    ghost says = { small_says };

    ghost refuses = { λ _ fault. fault ≡ 6 };

    fn read(&self, alloc: Global, text: &[u8]) -> Result<Device, Unread<u8>> {
        if text != b"K".as_slice() {
            return Err(Unread::Refused(6));
        }
        match device(alloc) {
            Ok(device) => Ok(device),
            Err(_) => Err(Unread::Memory),
        }
    }
}

/// A file of so many devices of one description.
fn many(alloc: Global, devices: usize) -> Result<String, AllocError> {
    let mut text = String::new(alloc);
    for i in 0..devices {
        text.push_str(format!(in alloc; "[[device]]\nname = \"U{i}\"\nbsdl = \"k\"\n")?.as_str())?;
    }
    Ok(text)
}

/// A reader that counts.
#[derive(Drop)]
struct Counting {
    reads: Cell<u32>,
}

impl Describe for Counting {
    type Fault = u8;

    ghost use Rattle.std.specs.Prelude.{◌≡◌};
    ghost use Rattle.worked_examples.specs.Small.{small_says};

    ghost says = { small_says };

    ghost refuses = { λ _ fault. fault ≡ 6 };

    fn read(&self, alloc: Global, text: &[u8]) -> Result<Device, Unread<u8>> {
        self.reads.set(self.reads.get().wrapping_add(1));
        Small.read(alloc, text)
    }
}

#[test]
fn a_file_is_read_once(rt: HostRuntime) -> Result<(), Fail> {
    let alloc = rt.alloc();
    let reader = Counting {
        reads: Cell::new(0),
    };
    let files: [(&str, &[u8]); 2] = [("k", b"K"), ("other", b"K")];
    let text = many(alloc, 32)?;
    assert!(&rt; plan_of_text(alloc, &reader, text.as_bytes(), &files).is_ok());
    assert_eq!(&rt; reader.reads.get(), 1);
    Ok(())
}
