//! Whole vectors.

ghost use Rattle.std.specs.Prelude.{◌+◌, ◌<◌, ◌^◌};

use crate::part::{Part, Part3, TdiRun, WantedRun};

/// The whole vector of a scan.
#[derive(Debug, Clone, Copy)]
pub struct Vector<'a> {
    header: Part3<'a>,
    body: Part3<'a>,
    trailer: Part3<'a>,
    ghost fits: { header.len + body.len + trailer.len < 2 ^ 64 },
}

impl<'a> Vector<'a> {
    ghost use Rattle.std.specs.Prelude.{◌≡◌, ◌+◌, ◌-◌, ◌<◌, ◌≤◌, ◌^◌, Bool, Option, Some, None, ℕ, length, slice_get};
    ghost use Rattle.std.specs.Prelude.{option_map, is_some, min, if◌then◌else◌};
    ghost use Rattle.jt_bits.specs.Packed.{has_bit};
    ghost use Rattle.scan_vectors.specs.declared.part.Part as declared;
    ghost use Rattle.scan_vectors.specs.Fields.{vector_of};
    ghost use Rattle.scan_vectors.specs.Held.{HoldsPartFrom, bits, fields, left_in_part, tdo_there, wanted_of};
    ghost use Rattle.scan_vectors.specs.Vector.{tdis};

    pub(crate) fn of(header: Part3<'a>, body: Part3<'a>, trailer: Part3<'a>) -> Vector<'a>
        requires { header.len + body.len + trailer.len < 2 ^ 64 }
        ensures { bits result ≡ vector_of (fields header.entry) (fields body.entry) (fields trailer.entry) }
    {
        Vector {
            header,
            body,
            trailer,
        }
    }

    /// How many bits there are.
    pub fn len(&self) -> usize
        ensures { result ≡ length (bits self.now) }
    {
        self.header.len + self.body.len + self.trailer.len
    }

    /// What is shifted in as bit `i`, and what is wanted out as bit `i`, if anything is.
    pub fn bit(&self, i: usize) -> (bool, Option<bool>)
        requires { i < length (bits self.now) }
        ensures { option_map {U = Bool × Option Bool} (λ b. (b.tdi, b.wanted)) (slice_get (bits self.now) i)
            ≡ Some result }
    {
        let (_, part, place) = self.find(i);
        part.bit(place)
    }

    /// What is shifted in as bit `i` and as the bits behind it, up to the end of the part or 64 bits.
    pub fn tdi_run(&self, i: usize) -> TdiRun
        requires { i < length (bits self.now) }
        ensures some { 0 < result.len }
        ensures few { result.len ≤ 64 }
        ensures len { result.len ≡ min 64 (left_in_part self.now i) }
        ensures inside { i + result.len ≤ length (bits self.now) }
        ensures bits { (j : ℕ) → j < result.len
            → slice_get (tdis (bits self.now)) (i + j) ≡ Some (has_bit result.bits j) }
    {
        let (_, part, place) = self.find(i);
        part.tdi_run(place)
    }

    /// What is wanted out as bit `i` and as the bits behind it, up to the end of the part or 64 bits.
    pub fn wanted_run(&self, i: usize) -> WantedRun
        requires { i < length (bits self.now) }
        ensures some { 0 < result.len }
        ensures few { result.len ≤ 64 }
        ensures len { result.len ≡ min 64 (left_in_part self.now i) }
        ensures inside { i + result.len ≤ length (bits self.now) }
        ensures bits { (j : ℕ) → j < result.len
            → option_map {U = Option Bool} (λ b. b.wanted) (slice_get (bits self.now) (i + j))
            ≡ Some (wanted_of (has_bit result.care j) (has_bit result.bits j)) }
    {
        let (_, part, place) = self.find(i);
        part.wanted_run(place)
    }

    /// How many bits from bit `i` on are not wanted because their part has no TDO: up to the end of the part, or none.
    pub fn unwanted(&self, i: usize) -> usize
        requires { i < length (bits self.now) }
        ensures inside { i + result ≤ length (bits self.now) }
        ensures len { result ≡ (if is_some (tdo_there self.now i) then 0 else left_in_part self.now i) }
        ensures bits { (j : ℕ) → j < result
            → option_map {U = Option Bool} (λ b. b.wanted) (slice_get (bits self.now) (i + j)) ≡ Some None }
    {
        let (_, part, place) = self.find(i);
        part.unwanted(place)
    }

    /// The part in which bit `i` stands, and its place there.
    pub fn part(&self, i: usize) -> (Part, usize)
        requires { i < length (bits self.now) }
        ensures { option_map {U = declared.Part × ℕ} (λ b. (b.part, b.place)) (slice_get (bits self.now) i)
            ≡ Some result }
    {
        let (part, _, place) = self.find(i);
        (part, place)
    }

    /// The part in which bit `i` stands, with its fields, and the bit's place there.
    fn find(&self, i: usize) -> (Part, &Part3<'a>, usize)
        requires { i < length (bits self.now) }
        ensures inside { result.2 < result.1.now.len }
        ensures left { left_in_part self.now i ≡ result.1.now.len - result.2 }
        ensures whole { i + (result.1.now.len - result.2) ≤ length (bits self.now) }
        ensures tdo { tdo_there self.now i ≡ (fields result.1.now).tdo }
        ensures bits { HoldsPartFrom (bits self.now) i result.0 (fields result.1.now) result.2 }
    {
        if i < self.header.len {
            (Part::Header, &self.header, i)
        } else if i - self.header.len < self.body.len {
            (Part::Data, &self.body, i - self.header.len)
        } else {
            (
                Part::Trailer,
                &self.trailer,
                i - self.header.len - self.body.len,
            )
        }
    }
}
