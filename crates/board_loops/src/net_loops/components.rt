//! Numbers of nets by a walk along the strings, from sources to targets: nets that depend on each other have one
//! number, and of two that do not the one that depends on the other has the higher. It is Tarjan's walk over
//! strongly connected components in the form that D. J. Pearce gave it ("A space-efficient algorithm for finding
//! strongly connected components", 2016), with a path in place of calls.
//!
//! Of the walk no more is proved than that it ends: whether no string raises the numbers is looked at behind it.
ghost use Rattle.std.specs.Prelude.{◌≡◌, IfOk, length};

use crate::net_loops::chains::Chains;
use std::alloc::{AllocError, Global};

/// The rank of a net that was not met yet.
const UNMET: usize = 0;

/// A net on the walk's path.
#[derive(Clone, Copy)]
struct Visit {
    net: usize,
    /// Its rank when it was met.
    rank: usize,
    /// The place of the string to go along next.
    next: usize,
}

/// Where a walk stands. While a net's component is open, its rank is the least that it was found to lead to; once it
/// is closed, its rank is the component's number, above all others.
#[derive(Drop)]
struct Walk {
    /// The nets from the one where the walk began to the one where it is.
    path: Vec<Visit>,
    /// The nets of open components, in the order in which they were met.
    unclosed: Vec<usize>,
    /// How many nets were met.
    met: usize,
    /// The number of the component that is closed next.
    number: usize,
}

/// Numbers of so many nets. Refused where memory runs out.
pub(crate) fn component_numbers(
    alloc: Global,
    nets: usize,
    chains: &Chains,
) -> Result<Vec<usize>, AllocError>
    ensures { IfOk result (λ v. length v.items ≡ nets) }
{
    let mut ranks = Vec::from_elem(alloc, UNMET, nets)?;
    walk_all(alloc, chains, &mut ranks)?;
    Ok(ranks)
}

/// Walks from each net that was not met before.
fn walk_all(alloc: Global, chains: &Chains, ranks: &mut [usize]) -> Result<(), AllocError> {
    // A turn meets a net, leaves one, or goes past a string, and each comes but once.
    let turns = ranks.len().saturating_mul(2).saturating_add(chains.len());
    let mut walk = Walk {
        path: Vec::with_capacity(alloc, ranks.len())?,
        unclosed: Vec::with_capacity(alloc, ranks.len())?,
        met: 0,
        number: usize::MAX,
    };
    for net in 0..ranks.len() {
        if rank_of(ranks, net) == UNMET {
            walk.meet(chains, ranks, net)?;
            for _ in 0..turns {
                let Some(visit) = walk.path.pop() else {
                    break;
                };
                walk.turn(chains, ranks, visit)?;
            }
        }
    }
    Ok(())
}

impl Walk {
    /// Meets a net: it has the next rank, and all strings from it are ahead.
    fn meet(&mut self, chains: &Chains, ranks: &mut [usize], net: usize) -> Result<(), AllocError> {
        self.met = self.met.saturating_add(1);
        set_rank(ranks, net, self.met);
        self.unclosed.push(net)?;
        self.path.push(Visit {
            net,
            rank: self.met,
            next: chains.last_from(net),
        })?;
        Ok(())
    }

    /// Goes on from the net where the walk is, along the next string from it. A string to a net that was not met is
    /// gone along a second time when that net was left.
    fn turn(
        &mut self,
        chains: &Chains,
        ranks: &mut [usize],
        visit: Visit,
    ) -> Result<(), AllocError> {
        let Some(link) = chains.link(visit.next) else {
            self.leave(ranks, visit);
            return Ok(());
        };
        let rank = rank_of(ranks, link.target);
        if rank == UNMET {
            self.path.push(visit)?;
            return self.meet(chains, ranks, link.target);
        }
        if rank < rank_of(ranks, visit.net) {
            set_rank(ranks, visit.net, rank);
        }
        self.path.push(Visit {
            net: visit.net,
            rank: visit.rank,
            next: link.before,
        })?;
        Ok(())
    }

    /// Leaves a net, with all strings from it behind. The net of a component that was met first closes it.
    fn leave(&mut self, ranks: &mut [usize], visit: Visit) {
        if rank_of(ranks, visit.net) < visit.rank {
            return;
        }
        'component: while let Some(net) = self.unclosed.pop() {
            set_rank(ranks, net, self.number);
            if net == visit.net {
                break;
            }
        }
        self.number = self.number.saturating_sub(1);
    }
}

/// The rank of a net.
fn rank_of(ranks: &[usize], net: usize) -> usize {
    ranks.get(net).copied().unwrap_or(UNMET)
}

fn set_rank(ranks: &mut [usize], net: usize, rank: usize) {
    if net < ranks.len() {
        ranks[net] = rank;
    }
}
