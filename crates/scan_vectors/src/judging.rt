//! The wanted bits of a vector, one by one, for a player that judges each answer as it comes.

ghost use Rattle.std.specs.Prelude.{◌≡◌, ◌+◌, ◌<◌, [], ◌∷◌, Option, Some, None, MatchOption, drop, length};
ghost use Rattle.std.specs.Prelude.{slice_get, if◌then◌else◌};
ghost use Rattle.scan_vectors.specs.Held.{bits};
ghost use Rattle.scan_vectors.specs.Vector.{VectorBit, differs, wanted_bits};

use crate::{Part, Vector};

/// The first bit from this place on that is wanted.
pub fn next_wanted(vector: &Vector, from: usize) -> Option<usize>
    ensures { MatchOption result (wanted_bits (drop from (bits vector.now)) ≡ [])
        (λ i. (i < length (bits vector.now)) × (v : VectorBit) × (slice_get (bits vector.now) i ≡ Some v)
        × (wanted_bits (drop from (bits vector.now)) ≡ v ∷ wanted_bits (drop (i + 1) (bits vector.now)))) }
{
    for i in from..vector.len() {
        if vector.bit(i).1.is_some() {
            return Some(i);
        }
    }
    None
}

/// The part of a bit, and its place there, if what came out of it is not what is wanted.
pub fn difference(vector: &Vector, i: usize, out: bool) -> Option<(Part, usize)>
    requires { i < length (bits vector.now) }
    ensures { (v : VectorBit) → slice_get (bits vector.now) i ≡ Some v
        → result ≡ (if differs v.wanted out then Some (v.part, v.place) else None) }
{
    match vector.bit(i).1 {
        Some(bit) if bit != out => Some(vector.part(i)),
        _ => None,
    }
}
