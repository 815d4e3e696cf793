//! Numbers of nets along strings. A string lowers them where its source's net has a lower one than its target's, and
//! raises them where it has a higher one.
ghost use Rattle.std.specs.Prelude.{◌≡◌, ◌<◌, ℕ, All, IfOk, length, slice_index, true};
ghost use Rattle.board_loops.specs.Loops.{HasNoLoop, IsWithin};
ghost use Rattle.board_loops.specs.Marks.{IsCount};
ghost use Rattle.board_loops.specs.Numbers.{IsLowered, IsUnraised};

use crate::net_loops::Dependency;
use crate::net_loops::chains::Chains;
use crate::net_loops::marks::independent_count;
use std::alloc::{AllocError, Global};

/// Numbers of so many nets that no string raises: those that are there, if none does. Refused where memory runs out.
pub(crate) fn unraised_numbers(
    alloc: Global,
    nets: usize,
    strings: &[Dependency],
    numbers: Vec<usize>,
) -> Result<Vec<usize>, AllocError>
    requires within { All (IsWithin nets) strings.now }
    requires numbered { length numbers.items ≡ nets }
    ensures long { IfOk result (λ v. length v.items ≡ nets) }
    ensures unraised { IfOk result (λ v. All (IsUnraised v.items) strings.now) }
{
    if none_is_raised(strings, &numbers) {
        return Ok(numbers);
    }
    // This does not come, but it is not proved of the walk. No string raises numbers that are all the same.
    let same = Vec::from_elem(alloc, 0, nets)?;
    Ok(same)
}

/// Whether no string raises the numbers.
fn none_is_raised(strings: &[Dependency], numbers: &[usize]) -> bool
    requires { All (IsWithin (length numbers.now)) strings.now }
    ensures { result ≡ true → All (IsUnraised numbers.now) strings.now }
{
    for string in strings {
        if numbers[string.source] > numbers[string.target] {
            return false;
        }
    }
    true
}

/// Whether each string lowers the numbers.
pub(crate) fn is_each_lowered(strings: &[Dependency], numbers: &[usize]) -> bool
    requires { All (IsWithin (length numbers.now)) strings.now }
    ensures { result ≡ true → All (IsLowered numbers.now) strings.now }
{
    for string in strings {
        if numbers[string.source] >= numbers[string.target] {
            return false;
        }
    }
    true
}

/// Of each of so many nets how many do not depend on it: numbers that each string lowers, where none is on a loop.
/// Refused where memory runs out.
pub(crate) fn independent_counts(
    alloc: Global,
    nets: usize,
    strings: &[Dependency],
    chains: &Chains,
) -> Result<Vec<usize>, AllocError>
    requires { All (IsWithin nets) strings.now }
    ensures long { IfOk result (λ v. length v.items ≡ nets) }
    ensures counts { IfOk result (λ v. (net : ℕ) → net < nets
        → IsCount strings.now nets net (slice_index v.items net)) }
    ensures lowered { IfOk result (λ v. HasNoLoop strings.now → All (IsLowered v.items) strings.now) }
{
    let mut counts = Vec::with_capacity(alloc, nets)?;
    for net in 0..nets {
        counts.push(independent_count(alloc, nets, strings, chains, net)?)?;
    }
    Ok(counts)
}
