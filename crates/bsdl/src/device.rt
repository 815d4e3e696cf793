//! A whole device.
ghost use Rattle.std.specs.Prelude.{◌≡◌, ◌<◌, ◌==◌, ℕ, filter, length, map, IfOk};
ghost use Rattle.bsdl_text.specs.NumberView.{value};
ghost use Rattle.bsdl_description.specs.View.{description};
ghost use Rattle.bsdl_lookup.specs.Keyed.{AreKeyed};
ghost use Rattle.bsdl.specs.Boundary as boundary;
ghost use Rattle.bsdl.specs.Built as spec;

use crate::bits::firsts_of;
use crate::cells::cells_by_key;
use crate::ports::{ports_of, size_of};
use bsdl_description::Description;
use bsdl_device::{Cell, Device, Parts};
use bsdl_entity::Outline;
use bsdl_lookup::KeyedPorts;
use bsdl_opcodes::{accesses_of, bits_of, code_of, opcodes_of, private_names_of, users_of};
use bsdl_text::Digits;
use std::alloc::{AllocError, Global};

/// The device that a description says, where the ports are known by the keys of their names; each cell below the length
/// of the boundary register has one row. Refuses for want of memory, and where a number is 2^64 or more, which nothing
/// that is judged has.
pub fn device_by_key<'o>(
    alloc: Global,
    outline: &Outline<'o>,
    described: &Description<'o>,
    keyed: &KeyedPorts<'o>,
) -> Result<Device, AllocError>
    requires keyed { AreKeyed keyed.now (description outline.now described.now).ports }
    requires once { (k : ℕ) → k < (description outline.now described.now).boundary_length
        → length (filter (λ r. r.number == k) (description outline.now described.now).cells) ≡ 1 }
    ensures { IfOk result (λ v. v ≡ spec.device (description outline.now described.now)) }
{
    let cells = boundary_by_key(alloc, outline, described, keyed)?;
    device_with(alloc, outline, described, cells)
}

/// The same, where the boundary register is known.
fn device_with(
    alloc: Global,
    outline: &Outline<'_>,
    described: &Description<'_>,
    cells: Vec<Cell>,
) -> Result<Device, AllocError>
    requires { cells.items ≡ boundary.cells_of (description outline.now described.now).ports
        (description outline.now described.now).cells (description outline.now described.now).boundary_length }
    ensures { IfOk result (λ v. v ≡ spec.device (description outline.now described.now)) }
{
    let ports = ports_of(alloc, &described.taps, &outline.groups)?;
    let instruction_length = size_of(described.instruction_length)?;
    let opcodes = opcodes_of(alloc, &described.opcodes)?;
    let capture = bits_of(alloc, &described.capture.digits)?;
    let idcode = code_of(alloc, &described.idcodes)?;
    let usercode = code_of(alloc, &described.usercodes)?;
    let private_names = private_names_of(alloc, &described.private_names)?;
    let known = users_of(alloc, &described.accesses)?;
    let accesses = accesses_of(alloc, &known, &described.accesses)?;
    let users = lengths_of(alloc, &known.lengths)?;
    let has_trst = described.taps.reset.is_some();
    Ok(Device::new(Parts {
        ports,
        instruction_length,
        opcodes,
        capture,
        idcode,
        usercode,
        cells,
        private_names,
        accesses,
        users,
        has_trst,
    }))
}

/// The boundary register, where the ports are known by the keys of their names.
fn boundary_by_key<'o>(
    alloc: Global,
    outline: &Outline<'o>,
    described: &Description<'o>,
    keyed: &KeyedPorts<'o>,
) -> Result<Vec<Cell>, AllocError>
    requires keyed { AreKeyed keyed.now (description outline.now described.now).ports }
    requires once { (k : ℕ) → k < (description outline.now described.now).boundary_length
        → length (filter (λ r. r.number == k) (description outline.now described.now).cells) ≡ 1 }
    ensures { IfOk result (λ v. v.items
        ≡ boundary.cells_of (description outline.now described.now).ports (description outline.now described.now).cells
        (description outline.now described.now).boundary_length) }
{
    let firsts = firsts_of(alloc, &outline.groups)?;
    let len = size_of(described.boundary_length)?;
    cells_by_key(alloc, keyed, &firsts, &described.cells, len)
}

fn lengths_of(alloc: Global, lengths: &[Digits<'_>]) -> Result<Vec<usize>, AllocError>
    ensures { IfOk result (λ v. v.items ≡ map value lengths.now) }
{
    let mut all = Vec::new(alloc);
    for length in lengths {
        let size = size_of(*length)?;
        all.push(size)?;
    }
    Ok(all)
}
