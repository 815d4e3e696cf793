//! Keys that keep their names.
ghost use Rattle.std.specs.Prelude.{◌≡◌, Some, refl, string_bytes};
ghost use Rattle.std.specs.Cmp.{partial_equiv_from_equiv, partial_order_from_agreeing_total};
ghost use Rattle.std.specs.Cmp.Lexicographic.{nat_list_eq_equiv, pointwise};
ghost use Rattle.std.specs.Bool.{nat_eq};
ghost use Rattle.name_keys.specs.Keys.{end_of, key_order};
ghost use Rattle.name_keys.specs.OrderLaws.{key_order_total, key_order_ties};

use crate::END;
use std::cmp::Ordering;
use std::fmt;
use std::fmt::Debug;
use std::marker::Model;

/// A name as a key that keeps it, in its own case. Contracts see it as the name's bytes.
#[derive(Drop)]
pub struct OwnedNameKey {
    end: u64,
    name: String,
}

impl Model for OwnedNameKey {
    ghost use Rattle.std.specs.Prelude.{◌≡◌, ℕ, List, string_bytes};
    ghost use Rattle.name_keys.specs.Keys.{end_of};

    ghost Value = { List ℕ };

    ghost view = { λ k. string_bytes k.name };

    ghost invariant = { λ k. k.end ≡ end_of (string_bytes k.name) };
}

impl OwnedNameKey {
    /// The key of a name.
    pub fn new(name: String) -> OwnedNameKey
        ensures { result ≡ string_bytes name }
    {
        let end = end_of_text(name.as_str());
        OwnedNameKey { end, name }
    }
}

/// As its name is.
impl Debug for OwnedNameKey {
    fn fmt<W: fmt::Write>(&self, f: &mut fmt::Formatter<W>) -> fmt::Result {
        Debug::fmt(&self.name, f)
    }
}

impl PartialEq for OwnedNameKey {
    ghost eq = { pointwise nat_eq };

    ghost laws = { partial_equiv_from_equiv nat_list_eq_equiv };

    fn eq(&self, other: &OwnedNameKey) -> bool {
        self.cmp(other).is_eq()
    }
}

impl Eq for OwnedNameKey {
    ghost laws = { nat_list_eq_equiv };
}

impl PartialOrd for OwnedNameKey {
    ghost partial_cmp = { λ p q. Some (key_order p q) };

    ghost laws = { partial_order_from_agreeing_total key_order key_order_total (λ p q. refl) key_order_ties };

    fn partial_cmp(&self, other: &OwnedNameKey) -> Option<Ordering> {
        Some(self.cmp(other))
    }
}

impl Ord for OwnedNameKey {
    ghost cmp = { key_order };

    ghost total = { key_order_total };

    ghost matches_partial_cmp = { λ p q. refl };

    ghost matches_eq = { key_order_ties };

    fn cmp(&self, other: &OwnedNameKey) -> Ordering {
        match self.end.cmp(&other.end) {
            Ordering::Equal => self.name.cmp(&other.name),
            apart => apart,
        }
    }
}

/// The last eight bytes of a name as a number, or all where there are fewer.
fn end_of_text(name: &str) -> u64
    ensures { result ≡ end_of name.now }
{
    let bytes = name.as_bytes();
    let start = bytes.len().saturating_sub(END);
    let mut end: u64 = 0;
    for byte in &bytes[start..] {
        end = end.wrapping_mul(256).wrapping_add(u64::from(*byte));
    }
    end
}
