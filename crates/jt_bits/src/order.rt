//! Lists of bits as keys of sorted trees.
ghost use Rattle.std.specs.Prelude.{◌≡◌, Some, refl, length};
ghost use Rattle.std.specs.Cmp.{partial_equiv_from_equiv, partial_order_from_agreeing_total};
ghost use Rattle.std.specs.Cmp.Lexicographic.{pointwise, slice_cmp};
ghost use Rattle.std.specs.Ordering.{bool_cmp};
ghost use Rattle.jt_bits.specs.Order.{bits_order};
ghost use Rattle.jt_bits.specs.OrderLaws.{bits_equiv, bits_order_total, bits_order_ties};
ghost use mathlib.Core.Bool.{beq};

use crate::{Bits, first_bad_bit};
use std::cmp::Ordering;

impl PartialEq for Bits {
    ghost eq = { pointwise beq };

    ghost laws = { partial_equiv_from_equiv bits_equiv };

    fn eq(&self, other: &Bits) -> bool {
        self.cmp(other).is_eq()
    }
}

impl Eq for Bits {
    ghost laws = { bits_equiv };
}

impl PartialOrd for Bits {
    ghost partial_cmp = { λ p q. Some (bits_order p q) };

    ghost laws = { partial_order_from_agreeing_total bits_order bits_order_total (λ p q. refl) bits_order_ties };

    fn partial_cmp(&self, other: &Bits) -> Option<Ordering> {
        Some(self.cmp(other))
    }
}

/// Shorter lists first, and those of one length by their first bits that differ, 0 before 1.
impl Ord for Bits {
    ghost cmp = { bits_order };

    ghost total = { bits_order_total };

    ghost matches_partial_cmp = { λ p q. refl };

    ghost matches_eq = { bits_order_ties };

    fn cmp(&self, other: &Bits) -> Ordering {
        match self.len().cmp(&other.len()) {
            Ordering::Equal => by_words(self, other),
            apart => apart,
        }
    }
}

/// The order of two lists of one length, 64 bits at a time.
fn by_words(one: &Bits, other: &Bits) -> Ordering
    requires { length one.now ≡ length other.now }
    ensures { result ≡ slice_cmp bool_cmp one.now other.now }
{
    for k in 0..one.len().div_ceil(64) {
        if let Some(j) = first_bad_bit(one.word(k), other.word(k), u64::MAX) {
            let i = 64 * k + j;
            return one.get(i).cmp(&other.get(i));
        }
    }
    Ordering::Equal
}
