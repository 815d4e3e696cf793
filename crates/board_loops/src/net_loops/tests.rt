//! Worked rows: what small lists of strings come to.
ghost use Rattle.std.specs.Prelude.{◌≡◌, All, IfOk, true};
ghost use Rattle.board_loops.specs.Loops.{IsWithin};

use crate::net_loops::chains::Chains;
use crate::net_loops::components::component_numbers;
use crate::net_loops::marks::dependents;
use crate::net_loops::numbers::{independent_counts, unraised_numbers};
use crate::net_loops::{Dependency, Settling, settle_order};
use std::alloc::Global;
use std::process::Abort;
use std::test::Fail;

/// Strings between so many nets, each given as its target and its source.
fn strings_of(alloc: Global, nets: usize, pairs: &[(usize, usize)]) -> Result<Vec<Dependency>, Fail>
    ensures { IfOk result (λ v. All (IsWithin nets) v.items) }
{
    let mut strings = Vec::new(alloc);
    for pair in pairs {
        let string = Dependency {
            target: pair.0,
            source: pair.1,
        };
        if !is_within(nets, string) {
            return Err(Fail::from("a net past the last"));
        }
        strings.push(string)?;
    }
    Ok(strings)
}

fn is_within(nets: usize, string: Dependency) -> bool
    ensures { result ≡ true → IsWithin nets string }
{
    string.target < nets && string.source < nets
}

fn settled(alloc: Global, nets: usize, pairs: &[(usize, usize)]) -> Result<Settling, Fail> {
    let strings = strings_of(alloc, nets, pairs)?;
    Ok(settle_order(alloc, nets, &strings)?)
}

/// Asserts that strings come to this order.
fn assert_order(
    rt: &impl Abort,
    alloc: Global,
    nets: usize,
    pairs: &[(usize, usize)],
    wanted: &[usize],
) -> Result<(), Fail> {
    let Settling::Order(order) = settled(alloc, nets, pairs)? else {
        return Err(Fail::from("a loop"));
    };
    assert_eq!(rt; order.as_slice(), wanted);
    Ok(())
}

/// Asserts that the string at this place is the first on a loop.
fn assert_loop(
    rt: &impl Abort,
    alloc: Global,
    nets: usize,
    pairs: &[(usize, usize)],
    wanted: usize,
) -> Result<(), Fail> {
    let Settling::Loop(place) = settled(alloc, nets, pairs)? else {
        return Err(Fail::from("no loop"));
    };
    assert_eq!(rt; place, wanted);
    Ok(())
}

#[test]
fn orders(rt: HostRuntime) -> Result<(), Fail> {
    assert_order(&rt, rt.alloc(), 1, &[], &[])?;
    assert_order(&rt, rt.alloc(), 2, &[(1, 0)], &[0])?;
    // a chain that is given from its end
    assert_order(&rt, rt.alloc(), 4, &[(3, 2), (2, 1), (1, 0)], &[2, 1, 0])?;
    // two ways from net 0 to net 3, one of them longer
    let ways = [(3, 2), (3, 0), (2, 1), (1, 0)];
    assert_order(&rt, rt.alloc(), 4, &ways, &[3, 2, 0, 1])?;
    // the same string twice
    assert_order(&rt, rt.alloc(), 3, &[(2, 1), (1, 0), (1, 0)], &[1, 2, 0])
}

#[test]
fn loops(rt: HostRuntime) -> Result<(), Fail> {
    // a net that depends on itself
    assert_loop(&rt, rt.alloc(), 3, &[(0, 1), (2, 2)], 1)?;
    assert_loop(&rt, rt.alloc(), 2, &[(0, 1), (1, 0)], 0)?;
    // strings out of the loop of nets 1 and 2 and into it
    assert_loop(&rt, rt.alloc(), 4, &[(0, 1), (1, 3), (1, 2), (2, 1)], 2)?;
    // a string between two loops
    let between = [(0, 2), (2, 3), (0, 1), (3, 2), (1, 0)];
    assert_loop(&rt, rt.alloc(), 4, &between, 1)?;
    // the first loop ends last
    assert_loop(&rt, rt.alloc(), 4, &[(0, 1), (2, 3), (3, 2), (1, 0)], 0)?;
    // a loop through nets that each have another way on
    let ring = [(4, 0), (0, 1), (1, 4), (1, 2), (2, 3), (3, 1), (4, 3)];
    assert_loop(&rt, rt.alloc(), 5, &ring, 0)
}

/// The length of a long chain.
const MANY: usize = 1000;

#[test]
fn a_long_chain(rt: HostRuntime) -> Result<(), Fail> {
    let mut pairs = Vec::new(rt.alloc());
    let mut wanted = Vec::new(rt.alloc());
    for net in 0..MANY {
        pairs.push((net + 1, net))?;
        wanted.push(net)?;
    }
    assert_order(&rt, rt.alloc(), MANY + 1, &pairs, &wanted)?;
    // its last net depends on itself
    pairs.push((MANY, MANY))?;
    assert_loop(&rt, rt.alloc(), MANY + 1, &pairs, MANY)
}

#[test]
fn counts_that_stand_in(rt: HostRuntime) -> Result<(), Fail> {
    let strings = strings_of(rt.alloc(), 4, &[(3, 1), (1, 0), (2, 1)])?;
    let chains = Chains::new(rt.alloc(), 4, &strings)?;
    let counts = independent_counts(rt.alloc(), 4, &strings, &chains)?;
    assert_eq!(&rt; counts.as_slice(), [0, 1, 3, 3].as_slice());
    Ok(())
}

/// How many nets the scattered strings are between.
const NETS: usize = 8;

/// From none to 15 strings between any two of the nets.
fn scattered(alloc: Global, seed: u32) -> Result<Vec<Dependency>, Fail>
    ensures { IfOk result (λ v. All (IsWithin NETS) v.items) }
{
    let mut pairs = Vec::new(alloc);
    let mut x = seed;
    for _ in 0..seed % 16 {
        x = x.wrapping_mul(1664525).wrapping_add(1013904223);
        pairs.push(((x >> 28) as usize % NETS, (x >> 24) as usize % NETS))?;
    }
    strings_of(alloc, NETS, &pairs)
}

/// Whether exactly the strings that are on no loop lower the numbers of the walk.
fn are_decided(alloc: Global, strings: &[Dependency]) -> Result<bool, Fail>
    requires { All (IsWithin NETS) strings.now }
{
    let chains = Chains::new(alloc, NETS, strings)?;
    let found = component_numbers(alloc, NETS, &chains)?;
    let numbers = unraised_numbers(alloc, NETS, strings, found)?;
    for string in strings {
        let marks = dependents(alloc, NETS, strings, &chains, string.target)?;
        let is_lowered = numbers[string.source] < numbers[string.target];
        if is_lowered == marks[string.source] {
            return Ok(false);
        }
    }
    Ok(true)
}

#[test]
fn numbers_decide(rt: HostRuntime) -> Result<(), Fail> {
    for seed in 0..400 {
        let strings = scattered(rt.alloc(), seed)?;
        let decided = are_decided(rt.alloc(), &strings)?;
        assert!(&rt; decided, "at {seed}");
    }
    Ok(())
}
