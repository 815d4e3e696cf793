//! The bits of a capture, marked at the pins that they are taken from.
ghost use Rattle.std.specs.Prelude.{◌≡◌, ◌<◌, length, option_map, slice_get, Some};
ghost use Rattle.scan_vectors.specs.Held.{bits};
ghost use Rattle.fault_events.specs.Marks.{mark_bit, mark_number, marked, spot_at};

use crate::notes::{Note, Spot};
use scan_vectors::Vector;

/// Marks every bit of a capture at the pin that it is taken from, by the numbers of these pins from TDO to TDI: the
/// least wanted one of the vector that is shifted behind the capture, and whether one stays.
pub(crate) fn mark_all(numbers: &[Option<usize>], vector: &Vector, notes: &mut [Note])
    ensures { notes.new ≡ marked (bits vector.now) 0 numbers.now notes.old }
{
    for k in 0..numbers.len() {
        mark_one(numbers[k], k, vector, notes);
    }
}

/// Marks bit `k` at a pin, if it is taken from one.
fn mark_one(number: Option<usize>, k: usize, vector: &Vector, notes: &mut [Note])
    ensures { notes.new ≡ mark_number (bits vector.now) k number notes.old }
{
    if let Some(n) = number {
        if n < notes.len() {
            notes[n] = with_bit(notes[n], k, vector);
        }
    }
}

/// A note with bit `k` marked.
fn with_bit(note: Note, k: usize, vector: &Vector) -> Note
    ensures { result ≡ mark_bit k (slice_get (bits vector.now) k) note }
{
    if k >= vector.len() {
        return Note {
            stays: true,
            ..note
        };
    }
    if vector.bit(k).1.is_none() || note.first.is_some() {
        return note;
    }
    Note {
        first: Some(spot_of(vector, k)),
        ..note
    }
}

/// Bit `k` of a vector, with its part and its place there.
fn spot_of(vector: &Vector, k: usize) -> Spot
    requires { k < length (bits vector.now) }
    ensures { option_map (λ b. spot_at k b) (slice_get (bits vector.now) k) ≡ Some result }
{
    let (part, bit) = vector.part(k);
    Spot {
        index: k,
        part,
        bit,
    }
}
