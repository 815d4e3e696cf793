//! Whether what a play found is what a log says.

ghost use Rattle.std.specs.Prelude.{◌≡◌};
ghost use Rattle.scan_vectors.specs.Failures.{found};
ghost use Rattle.play_diagnosis.specs.Ended as ended;
ghost use Rattle.play_diagnosis.specs.Reading.{verdict_of};

use crate::reading::Said;
use play_model::Ending;
use scan_vectors::{Failures, Mismatch};

/// Whether a play whose ending is told, if it is, gives what a log says; nothing where only the whole play tells.
pub(crate) fn by_told(said: &Said, told: Option<Ending>) -> Option<bool>
    ensures { result ≡ ended.by_told (verdict_of said.now) told }
{
    match told {
        Some(ending) => by_ending(said, ending),
        None => None,
    }
}

/// The same of one that ends so.
fn by_ending(said: &Said, ending: Ending) -> Option<bool>
    ensures { result ≡ ended.by_ending (verdict_of said.now) ending }
{
    match said {
        Said::Pass => Some(is_pass(ending)),
        Said::First(bit) => Some(is_first(*bit, ending)),
        Said::All(failures) => by_first(failures.list.as_slice(), ending),
    }
}

/// The same of a log with these bits of a play to the end.
fn by_first(bits: &[Mismatch], ending: Ending) -> Option<bool>
    ensures { result ≡ ended.by_first bits.now ending }
{
    match bits {
        [] => None,
        [bit, ..] => {
            if is_first(*bit, ending) {
                None
            } else {
                Some(false)
            }
        }
    }
}

pub(crate) fn is_pass(ending: Ending) -> bool
    ensures { result ≡ ended.is_pass ending }
{
    match ending {
        Ending::Pass => true,
        _ => false,
    }
}

/// Whether this is the first bit that failed.
pub(crate) fn is_first(first: Mismatch, ending: Ending) -> bool
    ensures { result ≡ ended.is_first first ending }
{
    match ending {
        Ending::Fail { command, part, bit } => {
            command == first.command && part == first.part && bit == first.bit
        }
        _ => false,
    }
}

/// Whether two lists of failures are the same, and of the same length where they are cut short.
pub(crate) fn are_same(one: &Failures, other: &Failures) -> bool
    ensures { result ≡ ended.are_same (found one.now) (found other.now) }
{
    one.total == other.total && same_bits(one.list.as_slice(), other.list.as_slice())
}

/// Whether the same bits are listed in the same order.
fn same_bits(one: &[Mismatch], other: &[Mismatch]) -> bool
    ensures { result ≡ ended.same_bits one.now other.now }
{
    one == other
}
