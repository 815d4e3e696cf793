//! Whole vectors of scans (Serial Vector Format, revision E): header, data and trailer.
//!
//! A vector takes no memory of its own. It borrows the fields of its parts as the text has them written, and works
//! out each bit from them.
#![tactic(auto)]

ghost use Rattle.std.specs.Prelude.{◌≡◌, ◌+◌, ◌<◌, ◌^◌, length};
ghost use Rattle.scan_vectors.specs.Vector as spec;
ghost use Rattle.scan_vectors.specs.Fields.{vector_of};
ghost use Rattle.scan_vectors.specs.Held.{bits, fields};

pub use failures::{Failures, Mismatch};
use jt_bits::Bits;
pub use judging::{difference, next_wanted};
pub use part::{Part, Part3, TdiRun, WantedRun};
pub use vector::Vector;

mod failures;
mod judging;
mod part;
mod vector;

/// The whole vector of a header, a body and a trailer. It takes no memory.
pub fn join<'a>(header: Part3<'a>, body: Part3<'a>, trailer: Part3<'a>) -> Vector<'a>
    requires { header.len + body.len + trailer.len < 2 ^ 64 }
    ensures { bits result ≡ vector_of (fields header.entry) (fields body.entry) (fields trailer.entry) }
{
    Vector::of(header, body, trailer)
}

/// The least bit of a vector whose wanted value differs from what came out: its part and its place there.
pub fn judge(vector: &Vector, out: &Bits) -> Option<(Part, usize)>
    requires { length (bits vector.now) ≡ length out.now }
    ensures { result ≡ spec.judge (bits vector.now) out.now }
{
    for i in 0..out.len() {
        if differs(vector.bit(i).1, out.get(i)) {
            return Some(vector.part(i));
        }
    }
    None
}

/// Whether a bit that came out is not the wanted one.
fn differs(wanted: Option<bool>, out: bool) -> bool
    ensures { result ≡ spec.differs wanted out }
{
    match wanted {
        Some(bit) => bit != out,
        None => false,
    }
}
