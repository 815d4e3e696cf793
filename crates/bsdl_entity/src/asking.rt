//! Which ports are single bits, asked by name.
ghost use Rattle.std.specs.Prelude.{◌≡◌, ℕ, List, IfOk, IfSome};
ghost use Rattle.std.proofs.Props.{props};
ghost use Rattle.std.specs.List.{list_any};
ghost use Rattle.std.specs.BTreeMap.{get_by_text};
ghost use Rattle.bsdl_text.specs.Words.{same_name as are_same};
ghost use Rattle.bsdl_entity.specs.Scalars.{first_scalar, is_scalar as is_single_bit};
ghost use Rattle.bsdl_entity.specs.PortsView as view;

use crate::ports::Group;
use crate::scalars::{is_scalar, scalars_of};
use bsdl_device::NameKey;
use bsdl_text::Word;
use std::alloc::{AllocError, Global};
use std::collections::BTreeMap;

/// So many names are looked for port by port, which costs less than a tree of all ports: a TAP has at most five ports.
const WALKS: usize = 5;

/// The ports of an entity, which are asked by name whether they are single bits. A tree of them is made where more
/// names are asked for than a TAP has ports: no text makes the look-ups slow.
#[derive(Drop)]
pub struct Scalars<'g, 't> {
    pub groups: &'g [Group<'t>],
    walks: usize,
    by_name: Option<BTreeMap<String, bool>>,
    ghost kept: { IfSome by_name (λ m. (q : List ℕ)
        → get_by_text m q ≡ first_scalar (view.ports groups.now) q) } by { Prim.hlevel props },
}

impl<'g, 't> Scalars<'g, 't> {
    /// The ports of these groups. Takes no memory.
    pub fn of(groups: &'g [Group<'t>]) -> Scalars<'g, 't>
        ensures { result.groups.now ≡ groups.now }
    {
        Scalars {
            groups,
            walks: 0,
            by_name: None,
        }
    }

    /// One more name may be asked for. Refuses for want of memory alone.
    pub fn expect_one(&mut self, alloc: Global) -> Result<(), AllocError>
        ensures { self.new.groups.now ≡ self.old.groups.now }
    {
        if self.walks < WALKS {
            self.walks += 1;
        } else if self.by_name.is_none() {
            self.by_name = Some(scalars_of(alloc, self.groups)?);
        }
        Ok(())
    }

    /// Whether a word, in any case, names a port that is a single bit. Refuses for want of memory alone.
    pub fn is_scalar(&self, alloc: Global, name: Word<'_>) -> Result<bool, AllocError>
        ensures { IfOk result (λ b. b ≡ is_single_bit (view.ports self.now.groups.now) name.entry.text.now) }
    {
        match &self.by_name {
            Some(by_name) => is_scalar(alloc, by_name, name),
            None => Ok(is_scalar_among(self.groups, name.text)),
        }
    }
}

/// Whether a word, in any case, names a port of these groups that is a single bit.
fn is_scalar_among(groups: &[Group<'_>], name: &[u8]) -> bool
    ensures { result ≡ is_single_bit (view.ports groups.now) name.now }
{
    for group in groups {
        if has_name(group, name) {
            return group.range.is_none();
        }
    }
    false
}

/// Whether a port of a group has this name, in any case.
fn has_name(group: &Group<'_>, name: &[u8]) -> bool
    ensures { result ≡ list_any (λ w. are_same w.text.now name.now) group.now.names.items }
{
    group.names.iter().any(|found| are_alike(found.text, name))
}

/// Whether two names are the same, in any case. Names of one length are compared by their ends first.
fn are_alike(one: &[u8], other: &[u8]) -> bool
    ensures { result ≡ are_same one.now other.now }
{
    one.len() == other.len() && NameKey::new(one) == NameKey::new(other)
}
