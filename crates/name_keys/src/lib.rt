//! Names as keys of sorted trees. Many names begin alike and differ at their ends, as those of the bits of a bus do, so
//! that in the order of their bytes they are compared to their ends again and again. Keys are compared by their last
//! eight bytes first, and by all only where these are the same.
#![tactic(auto)]

ghost use Rattle.std.specs.Prelude.{◌≡◌, ◌≤◌, Some, refl, length, map, take};
ghost use Rattle.std.specs.Char.{to_ascii_uppercase};
ghost use Rattle.std.specs.Cmp.{partial_equiv_from_equiv, partial_order_from_agreeing_total};
ghost use Rattle.std.specs.Cmp.Lexicographic.{nat_list_eq_equiv, pointwise, slice_cmp};
ghost use Rattle.std.specs.Bool.{nat_eq};
ghost use Rattle.std.specs.Ordering.{nat_cmp};
ghost use Rattle.name_keys.specs.Keys.{end_of, key_order};
ghost use Rattle.name_keys.specs.OrderLaws.{key_order_total, key_order_ties};

use lanes::{LANES, same_but_for_case};
pub use owned::OwnedNameKey;
use std::cmp::Ordering;
use std::marker::Model;

mod lanes;
mod owned;

/// How many bytes of a name's end are compared first.
const END: usize = 8;

/// A name as a key that lends it, in any case. Contracts see it as the name in upper case.
#[derive(Debug, Drop)]
pub struct NameKey<'a> {
    end: u64,
    name: &'a [u8],
}

impl<'a> Model for NameKey<'a> {
    ghost use Rattle.std.specs.Prelude.{◌≡◌, ℕ, List, map};
    ghost use Rattle.std.specs.Char.{to_ascii_uppercase};
    ghost use Rattle.name_keys.specs.Keys.{end_of};

    ghost Value = { List ℕ };

    ghost view = { λ k. map to_ascii_uppercase k.name.now };

    ghost invariant = { λ k. k.end ≡ end_of (map to_ascii_uppercase k.name.now) };
}

impl<'a> NameKey<'a> {
    /// The key of a name. It takes no memory.
    pub fn new(name: &'a [u8]) -> NameKey<'a>
        ensures { result ≡ map to_ascii_uppercase name.now }
    {
        let end = end_of(name);
        NameKey { end, name }
    }
}

impl<'a> PartialEq for NameKey<'a> {
    ghost eq = { pointwise nat_eq };

    ghost laws = { partial_equiv_from_equiv nat_list_eq_equiv };

    fn eq(&self, other: &NameKey<'a>) -> bool {
        self.cmp(other).is_eq()
    }
}

impl<'a> Eq for NameKey<'a> {
    ghost laws = { nat_list_eq_equiv };
}

impl<'a> PartialOrd for NameKey<'a> {
    ghost partial_cmp = { λ p q. Some (key_order p q) };

    ghost laws = { partial_order_from_agreeing_total key_order key_order_total (λ p q. refl) key_order_ties };

    fn partial_cmp(&self, other: &NameKey<'a>) -> Option<Ordering> {
        Some(self.cmp(other))
    }
}

impl<'a> Ord for NameKey<'a> {
    ghost cmp = { key_order };

    ghost total = { key_order_total };

    ghost matches_partial_cmp = { λ p q. refl };

    ghost matches_eq = { key_order_ties };

    fn cmp(&self, other: &NameKey<'a>) -> Ordering {
        match self.end.cmp(&other.end) {
            Ordering::Equal => compare(self.name, other.name),
            apart => apart,
        }
    }
}

/// The order of two names in upper case.
fn compare(one: &[u8], other: &[u8]) -> Ordering
    ensures { result ≡ slice_cmp nat_cmp (map to_ascii_uppercase one.now) (map to_ascii_uppercase other.now) }
{
    if one == other {
        return Ordering::Equal;
    }
    let both = one.len().min(other.len());
    for i in alike(one, other)..both {
        let upper = one[i].to_ascii_uppercase();
        let order = upper.cmp(&other[i].to_ascii_uppercase());
        if order.is_ne() {
            return order;
        }
    }
    one.len().cmp(&other.len())
}

/// How many bytes two names begin with alike in upper case, counted in groups.
fn alike(one: &[u8], other: &[u8]) -> usize
    ensures within { (result ≤ length one.now) × (result ≤ length other.now) }
    ensures alike { map to_ascii_uppercase (take result one.now) ≡ map to_ascii_uppercase (take result other.now) }
{
    let both = one.len().min(other.len());
    let mut same = 0;
    while LANES <= both - same {
        let end = same + LANES;
        if one[same..end] != other[same..end] && !same_but_for_case(one, other, same) {
            return same;
        }
        same = end;
    }
    same
}

/// The last eight bytes of a name in upper case as a number, or all where there are fewer.
fn end_of(name: &[u8]) -> u64
    ensures { result ≡ end_of (map to_ascii_uppercase name.now) }
{
    let start = name.len().saturating_sub(END);
    let mut end: u64 = 0;
    for byte in &name[start..] {
        end = end
            .wrapping_mul(256)
            .wrapping_add(u64::from(byte.to_ascii_uppercase()));
    }
    end
}
