//! Whether two lists of bits are the same.

ghost use Rattle.std.specs.Prelude.{◌≡◌, true, length};

use jt_bits::Bits;

/// Whether two lists of the same length have the same bits, 64 at a time.
pub fn same_bits(one: &Bits, other: &Bits) -> bool
    requires { length one.now ≡ length other.now }
    ensures same { result ≡ true → one.now ≡ other.now }
    ensures found { one.now ≡ other.now → result ≡ true }
{
    for k in 0..one.len().div_ceil(64) {
        if one.word(k) != other.word(k) {
            return false;
        }
    }
    true
}
