//! What is noted of every pin of a board at a capture.
ghost use Rattle.std.specs.Prelude.{◌≡◌, map, IfOk};
ghost use Rattle.scan_vectors.specs.Held.{bits};
ghost use Rattle.board_model.specs.Chain.{members};
ghost use Rattle.board_plan.specs.View.{member as planned_member};
ghost use Rattle.fault_events.specs.Drives.{started};
ghost use Rattle.fault_events.specs.Parts.{planned_parts};
ghost use Rattle.fault_events.specs.Marks.{marked};
ghost use Rattle.fault_events.specs.Notes.{noted};
ghost use Rattle.fault_events.specs.Numbers.{AllFormed, numbers};
ghost use Rattle.fault_events.specs.Tables.{AreNumbered};

use crate::drives::{PinWire, put_modes, put_started};
use crate::marks::mark_all;
use crate::notes::Note;
use crate::numbers::put_numbers;
use crate::tables::PinNumbers;
use board_chain::Chain;
use board_plan::PlannedDevice;
use scan_vectors::Vector;
use std::alloc::{AllocError, Global};

/// What is noted of each pin, by its number, before a capture of the data column behind which a vector is shifted.
/// Refused where memory runs out.
pub(crate) fn note_pins(
    alloc: Global,
    chain: &Chain,
    devices: &[PlannedDevice],
    numbers: &PinNumbers,
    vector: &Vector,
) -> Result<Vec<Note>, AllocError>
    requires same { planned_parts (members chain.now.chips) ≡ map planned_member devices.now }
    requires formed { AllFormed (members chain.now.chips) }
    requires numbered { AreNumbered (map planned_member devices.now) numbers.now }
    ensures { IfOk result (λ v. v.items ≡ noted numbers.now.pins.items (members chain.now.chips) (bits vector.now)) }
{
    marked_pins(alloc, chain, devices, numbers, vector)
}

/// The same, as it is made: each pin with what it drives, and then marked by the bits that are taken from it.
fn marked_pins(
    alloc: Global,
    chain: &Chain,
    devices: &[PlannedDevice],
    pins: &PinNumbers,
    vector: &Vector,
) -> Result<Vec<Note>, AllocError>
    requires same { planned_parts (members chain.now.chips) ≡ map planned_member devices.now }
    requires formed { AllFormed (members chain.now.chips) }
    ensures { IfOk result (λ v. v.items ≡ marked (bits vector.now) 0
        (numbers (map (λ t. t.items) pins.now.tables.items) (members chain.now.chips))
        (map (started (members chain.now.chips)) pins.now.wires.items)) }
{
    let taken = taken_from(alloc, chain, &pins.tables)?;
    let mut notes = started_pins(alloc, chain, devices, &pins.wires)?;
    mark_all(&taken, vector, &mut notes);
    Ok(notes)
}

/// Of each bit that a capture of the data column takes the number of the pin that it is taken from.
fn taken_from(
    alloc: Global,
    chain: &Chain,
    tables: &[Vec<Option<usize>>],
) -> Result<Vec<Option<usize>>, AllocError>
    requires { AllFormed (members chain.now.chips) }
    ensures { IfOk result (λ v. v.items ≡ numbers (map (λ t. t.items) tables.now) (members chain.now.chips)) }
{
    let mut taken = Vec::new(alloc);
    put_numbers(chain, tables, &mut taken)?;
    Ok(taken)
}

/// The note of each pin before any bit is marked.
fn started_pins(
    alloc: Global,
    chain: &Chain,
    devices: &[PlannedDevice],
    wires: &[PinWire],
) -> Result<Vec<Note>, AllocError>
    requires same { planned_parts (members chain.now.chips) ≡ map planned_member devices.now }
    requires formed { AllFormed (members chain.now.chips) }
    ensures { IfOk result (λ v. v.items ≡ map (started (members chain.now.chips)) wires.now) }
{
    let mut how = Vec::with_capacity(alloc, devices.len())?;
    put_modes(chain, &mut how)?;
    let mut notes = Vec::with_capacity(alloc, wires.len())?;
    put_started(chain, devices, &how, wires, &mut notes)?;
    Ok(notes)
}
