//! Numbers with a point and an exponent, exactly.
ghost use Rattle.std.specs.Prelude.{◌≡◌, ◌≢◌, ◌+◌, ◌*◌, ◌^◌, ◌%◌, ◌<◌, ◌≤◌, List, ℕ, Bool, true, length, min, Ok, Err};
ghost use Rattle.std.specs.Prelude.{MatchResult, MatchOption, IfSome, option_map, ⊤};
ghost use Rattle.std.specs.List.{list_all, prefix_len};
ghost use Rattle.std.specs.Int.{div_ceil};
ghost use Rattle.std.specs.Char.{is_ascii_digit};
ghost use Rattle.std.specs.Str.Parse.{digits_value, digits_value_after};
ghost use Rattle.jt_limits.specs.Limits.{digit_limit, exponent_limit};
ghost use Rattle.svf_words.specs.Numbers as spec;
ghost use Rattle.svf_words.specs.Numbers.{Numeral};

use crate::fault::Code;
use jt_limits::{DIGITS_LIMIT, EXPONENT_LIMIT, LIMITS};

/// A frequency's period and a time are at most so many picoseconds.
const PICOSECONDS_LIMIT: u128 = LIMITS.picoseconds as u128;

/// A count of cycles is at most this.
const COUNT_LIMIT: u128 = LIMITS.cycles as u128;

/// A scan has at most so many bits.
const LENGTH_LIMIT: usize = LIMITS.scan_bits;

/// A number as it is written: digits, digits behind the point, and the exponent's sign and digits.
#[derive(Clone, Copy)]
struct Spelt<'a> {
    whole: &'a [u8],
    fraction: &'a [u8],
    negative: bool,
    exponent: &'a [u8],
}

/// A number as a count of units of 10^-36, of which each number within the limits has a whole count: the mantissa, and
/// how many zeros stand behind it.
#[derive(Clone, Copy)]
struct Scaled {
    mantissa: u64,
    zeros: u32,
}

/// The period of a frequency in hertz, in picoseconds, rounded up (FREQUENCY).
///
/// Refused are a word that is no number, and 0 (S5); and a number with more than 18 digits or an exponent beyond 18,
/// and a period above 10^18 ps (S15).
pub fn period(word: &[u8]) -> Result<u64, Code>
    ensures { result ≡ spec.period_says word.now }
{
    let number = number_value(word)?;
    if number.mantissa == 0 {
        return Err(Code::BadNumber);
    }
    // From 10^48 units on a period is at most a picosecond; below 10^30 units it is above 10^18 ps.
    if number.zeros >= 48 {
        return Ok(1);
    }
    if number.zeros <= 11 {
        return Err(Code::TooLarge);
    }
    let dividend = 10u128.pow(48 - number.zeros);
    let period = dividend.div_ceil(u128::from(number.mantissa));
    if period > PICOSECONDS_LIMIT {
        Err(Code::TooLarge)
    } else {
        Ok(period as u64)
    }
}

/// A time in seconds, in picoseconds, rounded up (RUNTEST).
///
/// Refused are a word that is no number (S5); and a number with more than 18 digits or an exponent beyond 18, and a
/// time above 10^18 ps (S15).
pub fn time(word: &[u8]) -> Result<u64, Code>
    ensures { result ≡ spec.time_says word.now }
{
    let number = number_value(word)?;
    if number.mantissa == 0 {
        return Ok(0);
    }
    // 10^42 units are 10^18 ps.
    if number.zeros > 42 {
        return Err(Code::TooLarge);
    }
    let time = picoseconds(number.mantissa, number.zeros);
    if time > PICOSECONDS_LIMIT {
        Err(Code::TooLarge)
    } else {
        Ok(time as u64)
    }
}

/// A time in picoseconds, rounded up.
fn picoseconds(mantissa: u64, zeros: u32) -> u128
    requires mantissa { mantissa < 10 ^ digit_limit }
    requires zeros { zeros ≤ 42 }
    ensures { result ≡ div_ceil (mantissa * 10 ^ zeros) spec.picosecond_units }
{
    if zeros >= 24 {
        u128::from(mantissa) * 10u128.pow(zeros - 24)
    } else {
        u128::from(mantissa).div_ceil(10u128.pow(24 - zeros))
    }
}

/// A count of cycles, which is whole (RUNTEST).
///
/// Refused are a word that is no number, and a number that is not whole (S5); and a number with more than 18 digits or
/// an exponent beyond 18, and a count of 2^32 or more (S15).
pub fn count(word: &[u8]) -> Result<u32, Code>
    ensures { result ≡ spec.count_says word.now }
{
    let number = number_value(word)?;
    match whole(number.mantissa, number.zeros) {
        None => Err(Code::BadNumber),
        Some(count) if count > COUNT_LIMIT => Err(Code::TooLarge),
        Some(count) => Ok(count as u32),
    }
}

/// The value of a number, if it is whole.
fn whole(mantissa: u64, zeros: u32) -> Option<u128>
    requires mantissa { mantissa < 10 ^ digit_limit }
    requires zeros { zeros ≤ spec.unit_power + exponent_limit }
    ensures { MatchOption result ((mantissa * 10 ^ zeros) % spec.whole_units ≢ 0)
        (λ n. mantissa * 10 ^ zeros ≡ n * spec.whole_units) }
{
    let mantissa = u128::from(mantissa);
    if zeros >= 36 {
        return Some(mantissa * 10u128.pow(zeros - 36));
    }
    let divisor = 10u128.pow(36 - zeros);
    if mantissa % divisor == 0 {
        Some(mantissa / divisor)
    } else {
        None
    }
}

/// The length of a scan in bits.
///
/// Refused are a word that is not decimal digits alone (S5), and more than 18 digits or more than 1,048,576 bits (S15).
/// An empty word, which no text has, is 0.
pub fn length(word: &[u8]) -> Result<usize, Code>
    ensures { result ≡ spec.len_says word.now }
{
    if !are_digits(word) {
        return Err(Code::BadNumber);
    }
    match length_value(word) {
        Some(length) if length <= LENGTH_LIMIT => Ok(length),
        _ => Err(Code::TooLarge),
    }
}

/// The value of a length in bits, above the limit too. There is none where the word is not decimal digits alone, at
/// most 18 of them.
pub fn length_value(word: &[u8]) -> Option<usize>
    ensures { result ≡ spec.len_value word.now }
{
    if are_digits(word) && word.len() <= DIGITS_LIMIT {
        Some(digits_after(0, word) as usize)
    } else {
        None
    }
}

/// The value of a number, in units of 10^-36.
#[tactic(auto, unfolding(crate::specs::Numbers::number_value))]
fn number_value(word: &[u8]) -> Result<Scaled, Code>
    ensures value { MatchResult result (λ s. spec.number_value word.now ≡ Ok (s.mantissa * 10 ^ s.zeros))
        (λ c. spec.number_value word.now ≡ Err c) }
    ensures small { MatchResult result
        (λ s. (s.mantissa < 10 ^ digit_limit) × (s.zeros ≤ spec.unit_power + exponent_limit)) (λ c. ⊤) }
{
    let Some(spelt) = numeral_of(word) else {
        return Err(Code::BadNumber);
    };
    if spelt.whole.len() + spelt.fraction.len() > DIGITS_LIMIT {
        return Err(Code::TooLarge);
    }
    let exponent = capped_value(spelt.exponent);
    if exponent > EXPONENT_LIMIT {
        return Err(Code::TooLarge);
    }
    let whole = digits_after(0, spelt.whole);
    let mantissa = digits_after(whole, spelt.fraction);
    let places = 36 - spelt.fraction.len() as u32;
    let zeros = if spelt.negative {
        places - exponent
    } else {
        places + exponent
    };
    Ok(Scaled { mantissa, zeros })
}

/// The parts of a number, if the word spells one.
#[tactic(auto, unfolding(crate::specs::Numbers::numeral_of))]
fn numeral_of(word: &[u8]) -> Option<Spelt<'_>>
    ensures value { option_map {U = Numeral}
        (λ n. record {
          whole = n.whole.now;
          fraction = n.fraction.now;
          negative = n.negative;
          exponent = n.exponent.now;
        }) result ≡ spec.numeral_of word.now }
    ensures digits { IfSome result
        (λ n. (list_all is_ascii_digit n.whole.now ≡ true) × (list_all is_ascii_digit n.fraction.now ≡ true)
        × (list_all is_ascii_digit n.exponent.now ≡ true)) }
{
    let (whole, behind) = split_digits(word);
    let (fraction, rest) = split_fraction(behind);
    if whole.is_empty() && fraction.is_empty() {
        return None;
    }
    let (negative, exponent) = exponent_of(rest)?;
    Some(Spelt {
        whole,
        fraction,
        negative,
        exponent,
    })
}

/// The digits at the front, and the rest.
fn split_digits(text: &[u8]) -> (&[u8], &[u8])
    ensures front { result.0.now ≡ (spec.split_digits text.now).0 }
    ensures rest { result.1.now ≡ (spec.split_digits text.now).1 }
    ensures digits { list_all is_ascii_digit result.0.now ≡ true }
{
    text.split_at(digits_len(text))
}

/// How many digits stand at the front.
fn digits_len(text: &[u8]) -> usize
    ensures value { result ≡ prefix_len is_ascii_digit text.now }
    ensures within { result ≤ length text.now }
{
    text.iter().take_while(|byte| byte.is_ascii_digit()).count()
}

/// The digits behind a point, if there is one, and the rest.
fn split_fraction(text: &[u8]) -> (&[u8], &[u8])
    ensures front { result.0.now ≡ (spec.split_fraction text.now).0 }
    ensures rest { result.1.now ≡ (spec.split_fraction text.now).1 }
    ensures digits { list_all is_ascii_digit result.0.now ≡ true }
{
    match text {
        [b'.', rest @ ..] => split_digits(rest),
        _ => (&text[..0], text),
    }
}

/// The exponent: whether it is negative, and its digits, of which there are none where there is no exponent.
fn exponent_of(text: &[u8]) -> Option<(bool, &[u8])>
    ensures value { option_map {U = Bool × List ℕ} (λ e. (e.0, e.1.now)) result ≡ spec.exponent_of text.now }
    ensures digits { IfSome result (λ e. list_all is_ascii_digit e.1.now ≡ true) }
{
    match text {
        [] => Some((false, text)),
        [b'E' | b'e', b'-', digits @ ..] => exponent_digits(true, digits),
        [b'E' | b'e', b'+', digits @ ..] => exponent_digits(false, digits),
        [b'E' | b'e', digits @ ..] => exponent_digits(false, digits),
        _ => None,
    }
}

fn exponent_digits(negative: bool, digits: &[u8]) -> Option<(bool, &[u8])>
    ensures value { option_map {U = Bool × List ℕ} (λ e. (e.0, e.1.now)) result
        ≡ spec.exponent_digits negative digits.now }
    ensures digits { IfSome result (λ e. list_all is_ascii_digit e.1.now ≡ true) }
{
    if !digits.is_empty() && are_digits(digits) {
        Some((negative, digits))
    } else {
        None
    }
}

fn are_digits(text: &[u8]) -> bool
    ensures { result ≡ list_all is_ascii_digit text.now }
{
    text.iter().all(|byte| byte.is_ascii_digit())
}

/// The number that the digits write after those of `start`.
fn digits_after(start: u64, digits: &[u8]) -> u64
    requires digits { list_all is_ascii_digit digits.now ≡ true }
    requires room { (start + 1) * 10 ^ length digits.now ≤ 10 ^ digit_limit }
    ensures value { result ≡ digits_value_after 10 start digits.now }
    ensures small { result < 10 ^ digit_limit }
    ensures bound { result + 1 ≤ (start + 1) * 10 ^ length digits.now }
{
    let mut value = start;
    for byte in digits {
        value = value * 10 + u64::from(*byte - b'0');
    }
    value
}

/// The number that the digits write, or the first one above the limit of exponents where it is above that.
fn capped_value(digits: &[u8]) -> u32
    requires { list_all is_ascii_digit digits.now ≡ true }
    ensures { result ≡ min (exponent_limit + 1) (digits_value 10 digits.now) }
{
    let mut value = 0;
    for byte in digits {
        value = (value * 10 + u32::from(*byte - b'0')).min(EXPONENT_LIMIT + 1);
    }
    value
}
