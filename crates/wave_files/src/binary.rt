//! Numbers in binary.

ghost use Rattle.std.specs.Prelude.{◌≡◌, ◌≤◌, drop, length};
ghost use Rattle.wave_files.specs.Codes.{binary};

/// As many binary digits has the largest number.
const MOST_DIGITS: usize = 64;

/// The binary digits of a number above 0, the highest first, and where they begin.
pub(crate) fn binary_digits(value: usize) -> ([u8; MOST_DIGITS], usize)
    ensures digits { drop result.1 result.0 ≡ binary value }
    ensures start { result.1 ≤ 64 }
    ensures whole { length result.0 ≡ 64 }
{
    let mut digits = [b'0'; MOST_DIGITS];
    let mut start = MOST_DIGITS;
    let mut left = value;
    while left > 0 {
        start -= 1;
        digits[start] = b'0' + (left % 2) as u8;
        left /= 2;
    }
    (digits, start)
}
