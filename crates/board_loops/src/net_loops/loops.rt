//! Strings on a loop.
ghost use Rattle.std.specs.Prelude.{◌≡◌, All, IfOk, MatchBool, MatchOption, length};
ghost use Rattle.board_loops.specs.Loops.{DependsOn, HasNoLoop, IsFirstOnLoop, IsWithin};
ghost use Rattle.board_loops.specs.Numbers.{IsUnraised};

use crate::net_loops::Dependency;
use crate::net_loops::chains::Chains;
use crate::net_loops::marks::dependents;
use std::alloc::{AllocError, Global};

/// The first string on a loop, if there is one, by numbers of the nets that no string raises. Refused where memory
/// runs out.
pub(crate) fn first_on_loop(
    alloc: Global,
    nets: usize,
    strings: &[Dependency],
    chains: &Chains,
    numbers: &[usize],
) -> Result<Option<usize>, AllocError>
    requires within { All (IsWithin nets) strings.now }
    requires long { length numbers.now ≡ nets }
    requires unraised { All (IsUnraised numbers.now) strings.now }
    ensures { IfOk result (λ o. MatchOption o (HasNoLoop strings.now) (IsFirstOnLoop strings.now)) }
{
    for (place, string) in strings.iter().enumerate() {
        if leads_back(alloc, nets, strings, chains, numbers, *string)? {
            return Ok(Some(place));
        }
    }
    Ok(None)
}

/// Whether the source's net of a string depends on its target's net. Where the string lowers the numbers it does
/// not, and else the nets that depend on its target's net are marked.
fn leads_back(
    alloc: Global,
    nets: usize,
    strings: &[Dependency],
    chains: &Chains,
    numbers: &[usize],
    string: Dependency,
) -> Result<bool, AllocError>
    requires within { All (IsWithin nets) strings.now }
    requires inside { IsWithin nets string }
    requires long { length numbers.now ≡ nets }
    requires unraised { All (IsUnraised numbers.now) strings.now }
    ensures { IfOk result (λ b. MatchBool b (DependsOn strings.now string.source string.target)
        (¬ (DependsOn strings.now string.source string.target))) }
{
    if numbers[string.source] < numbers[string.target] {
        return Ok(false);
    }
    let marks = dependents(alloc, nets, strings, chains, string.target)?;
    Ok(marks[string.source])
}
