//! Whole numbers of any length.
ghost use Rattle.std.specs.Prelude.{◌≡◌, ◌==◌, ◌≤◌, ◌^◌, ◌<◌, ◌+◌, ◌-◌, ◌*◌, true, min, length, take, SomeIff};
ghost use Rattle.std.specs.Char.{is_ascii_digit};
ghost use Rattle.std.specs.List.{list_all, prefix_len};
ghost use Rattle.std.specs.Ordering.{nat_cmp};
ghost use Rattle.std.specs.Str.Parse.{digits_value};
ghost use Rattle.bsdl_text.specs.Numbers.{significant, zero_digit};

use std::cmp::Ordering;

/// A whole number of any length, by its digits.
#[derive(Debug, Clone, Copy)]
pub struct Digits<'a> {
    pub digits: &'a [u8],
    pub ghost all: { list_all is_ascii_digit digits.now ≡ true },
}

impl<'a> Digits<'a> {
    /// How two numbers compare, however long they are.
    pub fn compare(self, other: Digits<'_>) -> Ordering
        ensures { result ≡ nat_cmp (digits_value 10 self.entry.digits.now) (digits_value 10 other.entry.digits.now) }
    {
        compare(significant(self.digits), significant(other.digits))
    }

    /// The same number without zeros before it, and 0 without digits: two such compare in the time of the shorter.
    pub fn significant(self) -> Digits<'a>
        ensures digits { result.digits.now ≡ significant self.entry.digits.now }
        ensures value { digits_value 10 result.digits.now ≡ digits_value 10 self.entry.digits.now }
    {
        Digits {
            digits: significant(self.digits),
        }
    }

    /// The number, or `most` where it is larger.
    pub fn up_to(self, most: usize) -> usize
        ensures { result ≡ min (digits_value 10 self.entry.digits.now) most }
    {
        up_to(self.digits, most as u128) as usize
    }

    /// The number, where it is below 2^64.
    pub fn size(self) -> Option<usize>
        ensures { SomeIff result (digits_value 10 self.entry.digits.now < 2 ^ 64)
            (digits_value 10 self.entry.digits.now) }
    {
        let value = up_to(self.digits, 1 << 64);
        if value < 1 << 64 {
            Some(value as usize)
        } else {
            None
        }
    }
}

/// The digits without zeros before them.
fn significant(digits: &[u8]) -> &[u8]
    requires { list_all is_ascii_digit digits.now ≡ true }
    ensures digits { result.now ≡ significant digits.now }
    ensures all { list_all is_ascii_digit result.now ≡ true }
    ensures value { digits_value 10 result.now ≡ digits_value 10 digits.now }
    ensures starts { significant result.now ≡ result.now }
{
    behind_zeros(digits)
}

fn behind_zeros(digits: &[u8]) -> &[u8]
    ensures { result.now ≡ significant digits.now }
{
    &digits[zeros(digits)..]
}

/// How many zeros stand before the other digits.
fn zeros(digits: &[u8]) -> usize
    ensures within { result ≤ length digits.now }
    ensures value { result ≡ prefix_len (λ d. d == zero_digit) digits.now }
{
    digits.iter().take_while(|digit| **digit == b'0').count()
}

/// How two numbers without zeros before them compare: the one with more digits is larger, and of as many digits each
/// the one whose first digit that differs is.
fn compare(one: &[u8], other: &[u8]) -> Ordering
    requires one { list_all is_ascii_digit one.now ≡ true }
    requires other { list_all is_ascii_digit other.now ≡ true }
    requires one_starts { significant one.now ≡ one.now }
    requires other_starts { significant other.now ≡ other.now }
    ensures { result ≡ nat_cmp (digits_value 10 one.now) (digits_value 10 other.now) }
{
    match one.len().cmp(&other.len()) {
        Ordering::Less => Ordering::Less,
        Ordering::Equal => one.cmp(other),
        Ordering::Greater => Ordering::Greater,
    }
}

fn digit_of(digits: &[u8], i: usize) -> u8
    requires all { list_all is_ascii_digit digits.now ≡ true }
    requires within { i < length digits.now }
    ensures small { result ≤ 9 }
    ensures value { digits_value 10 (take (i + 1) digits.now) ≡ digits_value 10 (take i digits.now) * 10 + result }
{
    digits[i] - b'0'
}

fn up_to(digits: &[u8], most: u128) -> u128
    requires digits { list_all is_ascii_digit digits.now ≡ true }
    requires most { most < 2 ^ 65 }
    ensures { result ≡ min (digits_value 10 digits.now) most }
{
    let mut value = 0;
    for i in 0..digits.len() {
        value = (value * 10 + u128::from(digit_of(digits, i))).min(most);
    }
    value
}
