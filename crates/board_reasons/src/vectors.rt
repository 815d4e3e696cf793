//! Bits of a whole vector, by their part and their place there.

ghost use Rattle.std.specs.Prelude.{◌≡◌, ◌<◌, ◌≤◌, ◌-◌, ℕ, length, option_map, slice_get, Some};
ghost use Rattle.scan_vectors.specs.declared.part.Part as declared;
ghost use Rattle.scan_vectors.specs.Held.{bits};
ghost use Rattle.board_reasons.specs.Reasons as spec;

use scan_vectors::{Part, Vector};

/// Where a bit of a part stands in a whole vector, counted from the bit that goes first; the vector's length where
/// there is no such bit. Takes no memory, and looks at one bit of each part.
pub fn place_in(vector: &Vector, part: Part, bit: usize) -> usize
    ensures { result ≡ spec.place_in (bits vector.now) part bit }
{
    let mut end = vector.len();
    while end > 0 {
        let (last, place) = last_before(vector, end);
        let start = end - 1 - place;
        if is_same_part(last, part) && bit <= place {
            return start + bit;
        }
        end = start;
    }
    vector.len()
}

/// The part and the place there of the bit before a place of a vector.
fn last_before(vector: &Vector, end: usize) -> (Part, usize)
    requires some { 0 < end }
    requires inside { end ≤ length (bits vector.now) }
    ensures part { option_map {U = declared.Part × ℕ} (λ b. (b.part, b.place)) (slice_get (bits vector.now) (end - 1))
        ≡ Some result }
    ensures room { result.1 < end }
{
    vector.part(end - 1)
}

/// Whether two parts are one.
pub fn is_same_part(part: Part, other: Part) -> bool
    ensures { result ≡ spec.is_same_part part other }
{
    part == other
}

/// The value that is wanted of the bit at a place of a vector; 0 where none is. Takes no memory.
pub fn wanted_at(vector: &Vector, place: usize) -> bool
    ensures { result ≡ spec.wanted_at (bits vector.now) place }
{
    if place >= vector.len() {
        return false;
    }
    is_one(vector.bit(place).1)
}

/// Whether a 1 is wanted.
fn is_one(wanted: Option<bool>) -> bool
    ensures { result ≡ spec.is_one wanted }
{
    match wanted {
        Some(bit) => bit,
        None => false,
    }
}
