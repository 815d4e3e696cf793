//! Strings between nets, each of which makes one net depend on another: the first of them that is on a loop, or an
//! order of work in which each stands behind those that it depends on. Nets are numbers, and of boards nothing is
//! known here.
ghost use Rattle.std.specs.Prelude.{All, IfOk};
ghost use Rattle.board_loops.specs.Loops.{IsWithin, OrdersHaveEachOnce, Settles};

use chains::Chains;
use components::component_numbers;
use loops::first_on_loop;
use numbers::{independent_counts, is_each_lowered, unraised_numbers};
use order::order_by;
use std::alloc::{AllocError, Global};

mod chains;
mod components;
mod loops;
mod marks;
mod numbers;
mod order;
#[cfg(test)]
mod tests;

/// A string between two nets, each told by its number: what the target's net shows depends on what the source's net
/// shows.
#[derive(Debug, Clone, Copy, PartialEq, Eq)]
pub struct Dependency {
    /// The net that depends on the other.
    pub target: usize,
    /// The net that it depends on.
    pub source: usize,
}

/// What strings come to.
#[derive(Debug, Drop)]
pub enum Settling {
    /// No string is on a loop. The places of all strings, each behind those whose target is its source.
    Order(Vec<usize>),
    /// The place of the first string on a loop.
    Loop(usize),
}

/// What strings between so many nets come to: the first that is on a loop, where its source depends on its target in
/// any number of steps, or else an order of work. Refused where memory runs out.
///
/// Takes the time of going along each string a few times, and of one sort. Asks that each string is between two of
/// the nets.
pub(crate) fn settle_order(
    alloc: Global,
    nets: usize,
    strings: &[Dependency],
) -> Result<Settling, AllocError>
    requires { All (IsWithin nets) strings.now }
    ensures { IfOk result (Settles strings.now) }
{
    let chains = Chains::new(alloc, nets, strings)?;
    let numbers = component_numbers(alloc, nets, &chains)?;
    if is_each_lowered(strings, &numbers) {
        let order = order_by(alloc, strings, &numbers)?;
        return Ok(Settling::Order(order));
    }
    let unraised = unraised_numbers(alloc, nets, strings, numbers)?;
    match first_on_loop(alloc, nets, strings, &chains, &unraised)? {
        Some(place) => Ok(Settling::Loop(place)),
        None => {
            // This does not come, but it is not proved of the walk that all strings on no loop lower its numbers.
            let counts = independent_counts(alloc, nets, strings, &chains)?;
            let order = order_by(alloc, strings, &counts)?;
            Ok(Settling::Order(order))
        }
    }
}

/// An order of work has each string at one place, and nothing else.
pub fn orders_have_each_once()
    ensures { OrdersHaveEachOnce }
{}
