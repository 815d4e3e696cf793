//! Marks of the nets that depend on one of them.
ghost use Rattle.std.specs.Prelude.{◌≡◌, ◌<◌, ℕ, All, IfOk, MatchOption, OnOk, false, length};
ghost use Rattle.board_loops.specs.Loops.{IsWithin};
ghost use Rattle.board_loops.specs.Marks.{AreDependents, IsClosed, IsCount, IsGrownBy, IsOpen};
ghost use Rattle.board_loops.specs.Marks.{is_marked, is_open, unmarked};

use crate::net_loops::Dependency;
use crate::net_loops::chains::Chains;
use std::alloc::{AllocError, Global};

/// How many of so many nets do not depend on one of them. Refused where memory runs out.
pub(crate) fn independent_count(
    alloc: Global,
    nets: usize,
    strings: &[Dependency],
    chains: &Chains,
    net: usize,
) -> Result<usize, AllocError>
    requires within { All (IsWithin nets) strings.now }
    requires inside { net < nets }
    ensures { IfOk result (λ n. IsCount strings.now nets net n) }
{
    let marks = dependents(alloc, nets, strings, chains, net)?;
    Ok(unmarked_count(&marks))
}

fn unmarked_count(marks: &[bool]) -> usize
    ensures { result ≡ unmarked marks.now }
{
    marks.iter().filter(|mark| !**mark).count()
}

/// Of each of so many nets whether it depends on one of them. That one does. Refused where memory runs out.
pub(crate) fn dependents(
    alloc: Global,
    nets: usize,
    strings: &[Dependency],
    chains: &Chains,
    net: usize,
) -> Result<Vec<bool>, AllocError>
    requires within { All (IsWithin nets) strings.now }
    requires inside { net < nets }
    ensures long { IfOk result (λ v. length v.items ≡ nets) }
    ensures marks { IfOk result (λ v. AreDependents strings.now net v.items) }
{
    let mut marks = Vec::from_elem(alloc, false, nets)?;
    mark_dependents(alloc, strings, chains, net, &mut marks)?;
    Ok(marks)
}

/// Marks the nets that depend on one of them, where none is marked.
fn mark_dependents(
    alloc: Global,
    strings: &[Dependency],
    chains: &Chains,
    net: usize,
    marks: &mut [bool],
) -> Result<(), AllocError>
    requires within { All (IsWithin (length marks.old)) strings.now }
    requires inside { net < length marks.old }
    requires none { (n : ℕ) → is_marked marks.old n ≡ false }
    ensures { OnOk result (AreDependents strings.now net marks.new) }
{
    marks[net] = true;
    spread(alloc, strings, chains, net, marks)?;
    close(strings, marks);
    Ok(())
}

/// Marks nets along the strings from a marked one, from those that are marked so, and on.
fn spread(
    alloc: Global,
    strings: &[Dependency],
    chains: &Chains,
    net: usize,
    marks: &mut [bool],
) -> Result<(), AllocError>
    requires { All (IsWithin (length marks.old)) strings.now }
    ensures { OnOk result (IsGrownBy strings.now marks.old marks.new) }
{
    let mut ahead = Vec::new(alloc);
    ahead.push(chains.last_from(net))?;
    // Each string comes once, and once each net of which no string is left.
    let turns = marks.len().saturating_add(strings.len());
    'along: for _ in 0..turns {
        let Some(place) = ahead.pop() else {
            break;
        };
        go_along(strings, chains, place, marks, &mut ahead)?;
    }
    Ok(())
}

/// Goes along the string at a place, if there is one. The next from the same net is then ahead, and so are those
/// from its target's net, if that had no mark.
fn go_along(
    strings: &[Dependency],
    chains: &Chains,
    place: usize,
    marks: &mut [bool],
    ahead: &mut Vec<usize>,
) -> Result<(), AllocError>
    requires { All (IsWithin (length marks.old)) strings.now }
    ensures { OnOk result (IsGrownBy strings.now marks.old marks.new) }
{
    if place >= strings.len() {
        return Ok(());
    }
    let string = strings[place];
    if let Some(link) = chains.link(place) {
        ahead.push(link.before)?;
    }
    if !is_open(marks, string) {
        return Ok(());
    }
    marks[string.target] = true;
    ahead.push(chains.last_from(string.target))?;
    Ok(())
}

/// Marks the target's net of each string whose source's net alone is marked, until there is none. Behind `spread`
/// there is none, and this looks at each string once.
fn close(strings: &[Dependency], marks: &mut [bool])
    requires { All (IsWithin (length marks.old)) strings.now }
    ensures grown { IsGrownBy strings.now marks.old marks.new }
    ensures closed { IsClosed strings.now marks.new }
{
    'rounds: while let Some(string) = first_open(strings, marks) {
        marks[string.target] = true;
    }
}

/// The first string whose source's net alone is marked.
fn first_open(strings: &[Dependency], marks: &[bool]) -> Option<Dependency>
    requires { All (IsWithin (length marks.now)) strings.now }
    ensures { MatchOption result (IsClosed strings.now marks.now) (IsOpen strings.now marks.now) }
{
    for string in strings {
        if is_open(marks, *string) {
            return Some(*string);
        }
    }
    None
}

/// Whether of a string's nets the source's alone is marked.
fn is_open(marks: &[bool], string: Dependency) -> bool
    requires { IsWithin (length marks.now) string }
    ensures { result ≡ is_open marks.now string }
{
    marks[string.source] && !marks[string.target]
}
