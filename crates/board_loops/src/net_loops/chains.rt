//! The strings from each net, one after another.
ghost use Rattle.std.specs.Prelude.{All};
ghost use Rattle.board_loops.specs.Loops.{IsWithin};

use crate::net_loops::Dependency;
use std::alloc::{AllocError, Global};

/// A string as those from its source's net are gone along.
#[derive(Clone, Copy)]
pub(crate) struct Link {
    pub(crate) target: usize,
    /// The place of the string before it from the same net.
    pub(crate) before: usize,
}

/// Of each net the place of the last string from it, and of each string its link. Where there is no further string
/// stands a place past the last.
#[derive(Drop)]
pub(crate) struct Chains {
    last: Vec<usize>,
    links: Vec<Link>,
}

impl Chains {
    /// The chains of strings between so many nets. Refused where memory runs out.
    pub(crate) fn new(
        alloc: Global,
        nets: usize,
        strings: &[Dependency],
    ) -> Result<Chains, AllocError>
        requires { All (IsWithin nets) strings.now }
    {
        let mut last = Vec::from_elem(alloc, usize::MAX, nets)?;
        let mut links = Vec::with_capacity(alloc, strings.len())?;
        for (place, string) in strings.iter().enumerate() {
            links.push(Link {
                target: string.target,
                before: last[string.source],
            })?;
            last[string.source] = place;
        }
        Ok(Chains { last, links })
    }

    /// The place of the last string from a net.
    pub(crate) fn last_from(&self, net: usize) -> usize {
        self.last.get(net).copied().unwrap_or(usize::MAX)
    }

    /// The link of the string at a place, if there is one.
    pub(crate) fn link(&self, place: usize) -> Option<Link> {
        self.links.get(place).copied()
    }

    /// How many strings there are.
    pub(crate) fn len(&self) -> usize {
        self.links.len()
    }
}
