//! What a line of a log says.

ghost use Rattle.std.specs.Prelude.{◌≡◌, ◌<◌, ◌≤◌, ◌+◌, ◌*◌, ◌^◌, ◌∷◌, ◌==◌, false, true, length, map, option_map};
ghost use Rattle.std.specs.Prelude.{take, IfSome};
ghost use Rattle.std.specs.Char.{is_ascii_digit};
ghost use Rattle.std.specs.List.{list_all, list_any, slice_split};
ghost use Rattle.std.specs.Str.{bytes_eq};
ghost use Rattle.std.specs.Str.Lines.{strip_carriage_return};
ghost use Rattle.std.specs.Str.Parse.{digits_value};
ghost use Rattle.play_diagnosis.specs.LogLines as spec;
ghost use Rattle.play_diagnosis.specs.Pieces.{pieces};

use arrayvec::ArrayVec;
use memchr::memchr;
use scan_vectors::{Mismatch, Part};

/// A line of a log says more than by so many words by its first word alone.
const MOST_WORDS: usize = 7;

/// A number has so many digits at most.
const MOST_DIGITS: usize = 18;

/// The levels of nets.
const LEVELS: [&[u8]; 4] = [b"Zero", b"One", b"Contend", b"Float"];

/// The states of controllers.
const STATES: [&[u8]; 16] = [
    b"RESET",
    b"IDLE",
    b"DRSELECT",
    b"DRCAPTURE",
    b"DRSHIFT",
    b"DREXIT1",
    b"DRPAUSE",
    b"DREXIT2",
    b"DRUPDATE",
    b"IRSELECT",
    b"IRCAPTURE",
    b"IRSHIFT",
    b"IREXIT1",
    b"IRPAUSE",
    b"IREXIT2",
    b"IRUPDATE",
];

/// What a line of a log says.
#[derive(Debug, Drop, Clone, Copy)]
pub enum Line {
    /// The play passed.
    Pass,
    /// A bit failed.
    Fail(Mismatch),
    /// So many bits failed.
    Total(u64),
    /// The play came to no verdict: it was lost, or got a bad answer.
    Cut,
    /// Nothing of the verdict: a device, a net, the bytes, why a bit failed, or nothing at all.
    Beside,
    /// Nothing that a play prints.
    Unknown,
}

/// What a line says; it may end in a carriage return.
pub(crate) fn line_of(line: &[u8]) -> Line
    ensures { result ≡ spec.line_of line.now }
{
    by_words(&first_words(without_return(line)))
}

/// A line without the carriage return at its end.
fn without_return(line: &[u8]) -> &[u8]
    ensures { result.now ≡ strip_carriage_return line.now }
{
    match line.split_last() {
        Some((b'\r', front)) => front,
        _ => line,
    }
}

/// The bytes before the first of this value, and those behind it, if there is one.
pub(crate) fn cut(text: &[u8], byte: u8) -> (&[u8], Option<&[u8]>)
    ensures pieces { slice_split (λ b. b == byte) text.now
        ≡ result.0.now ∷ pieces byte (option_map (λ r. r.now) result.1) }
    ensures shorter { IfSome result.1 (λ rest. length rest.now < length text.now) }
{
    match memchr(byte, text) {
        Some(at) => (&text[..at], Some(&text[at + 1..])),
        None => (text, None),
    }
}

/// The first words of a line.
fn first_words(line: &[u8]) -> ArrayVec<&[u8], 7>
    ensures { map (λ w. w.now) result.items ≡ take 7 (spec.words line.now) }
{
    let mut words = ArrayVec::new();
    let mut rest = Some(line);
    while let Some(left) = rest {
        if words.len() == MOST_WORDS {
            return words;
        }
        let (word, behind) = cut(left, b' ');
        words.push(word);
        rest = behind;
    }
    words
}

/// Whether a word is this one.
fn is(word: &[u8], name: &[u8]) -> bool
    ensures { result ≡ bytes_eq word.now name.now }
{
    word == name
}

/// What a line says, by its first words.
fn by_words(words: &[&[u8]]) -> Line
    ensures { result ≡ spec.by_words (map (λ w. w.now) words.now) }
{
    match words {
        [] => Line::Unknown,
        [a] => one_word(a),
        [a, b] => two_words(a, b),
        [a, b, c] => three_words(a, b, c),
        [a, b, c, d] => four_words(a, b, c, d),
        [a, b, c, d, e] => five_words(a, b, c, d, e),
        [a, b, c, d, e, f] => six_words(a, b, c, d, e, f),
        [a, _, _, _, _, _, _, ..] => from(a),
    }
}

fn one_word(a: &[u8]) -> Line
    ensures { result ≡ spec.one_word a.now }
{
    if is(a, b"pass") {
        Line::Pass
    } else if a.is_empty() {
        Line::Beside
    } else {
        Line::Unknown
    }
}

/// A net and its level, a number of bits that failed, or the bytes of a play.
fn two_words(a: &[u8], b: &[u8]) -> Line
    ensures { result ≡ spec.two_words a.now b.now }
{
    if is_level(b) {
        Line::Beside
    } else if is(a, b"failures") {
        total(number(b))
    } else if is(a, b"bytes") {
        Line::Beside
    } else {
        Line::Unknown
    }
}

fn total(number: Option<u64>) -> Line
    ensures { result ≡ spec.total number }
{
    match number {
        Some(total) => Line::Total(total),
        None => Line::Unknown,
    }
}

/// A play that was lost.
fn three_words(a: &[u8], b: &[u8], c: &[u8]) -> Line
    ensures { result ≡ spec.three_words a.now b.now c.now }
{
    if is(a, b"lost") && is(b, b"command") {
        cut_short(number(c))
    } else {
        Line::Unknown
    }
}

/// A play that came to no verdict, if its statement is named.
fn cut_short(command: Option<u64>) -> Line
    ensures { result ≡ spec.cut command }
{
    match command {
        Some(_) => Line::Cut,
        None => Line::Unknown,
    }
}

/// A device, or what was wanted of a bit that failed.
fn four_words(a: &[u8], b: &[u8], c: &[u8], d: &[u8]) -> Line
    ensures { result ≡ spec.four_words a.now b.now c.now d.now }
{
    if is_state(b) && are_bits(c) {
        Line::Beside
    } else if is(a, b"wanted") && are_bits(b) && is(c, b"got") && are_bits(d) {
        Line::Beside
    } else {
        Line::Unknown
    }
}

/// A play that got a bad answer, where a statement starts, or what held a bit that failed.
fn five_words(a: &[u8], b: &[u8], c: &[u8], d: &[u8], e: &[u8]) -> Line
    ensures { result ≡ spec.five_words a.now b.now c.now d.now e.now }
{
    if is(a, b"bad") && is(b, b"answer") && is(d, b"command") {
        cut_short(number(e))
    } else if is(a, b"at") && is(b, b"line") && is(d, b"column") {
        position(number(c), number(e))
    } else {
        from(a)
    }
}

fn position(line: Option<u64>, column: Option<u64>) -> Line
    ensures { result ≡ spec.position line column }
{
    match (line, column) {
        (Some(_), Some(_)) => Line::Beside,
        _ => Line::Unknown,
    }
}

/// A bit that failed, or what held one.
fn six_words(a: &[u8], b: &[u8], c: &[u8], d: &[u8], e: &[u8], f: &[u8]) -> Line
    ensures { result ≡ spec.six_words a.now b.now c.now d.now e.now f.now }
{
    if is(a, b"fail") && is(b, b"command") && is(e, b"bit") {
        failed(number(c), part(d), number(f))
    } else {
        from(a)
    }
}

fn failed(command: Option<u64>, part: Option<Part>, bit: Option<u64>) -> Line
    ensures { result ≡ spec.failed command part bit }
{
    match (command, part, bit) {
        (Some(command), Some(part), Some(bit)) => Line::Fail(Mismatch {
            command: command as usize,
            part,
            bit: bit as usize,
        }),
        _ => Line::Unknown,
    }
}

/// What held a bit that failed, if the line begins so.
fn from(a: &[u8]) -> Line
    ensures { result ≡ spec.from a.now }
{
    if is(a, b"from") {
        Line::Beside
    } else {
        Line::Unknown
    }
}

/// Whether a word is one of these.
fn is_among(word: &[u8], names: &[&[u8]]) -> bool
    ensures { result ≡ list_any (λ name. bytes_eq word.now name.now) names.now }
{
    names.iter().any(|name| is(word, name))
}

/// The level of a net.
fn is_level(word: &[u8]) -> bool
    ensures { result ≡ spec.is_level word.now }
{
    is_among(word, &LEVELS)
}

/// The state of a controller.
fn is_state(word: &[u8]) -> bool
    ensures { result ≡ spec.is_state word.now }
{
    is_among(word, &STATES)
}

/// Whether each byte is a 0 or a 1, and there is one.
fn are_bits(word: &[u8]) -> bool
    ensures { result ≡ spec.are_bits word.now }
{
    !word.is_empty() && all_bits(word)
}

fn all_bits(word: &[u8]) -> bool
    ensures { result ≡ list_all spec.is_bit word.now }
{
    word.iter().all(|byte| is_bit(*byte))
}

fn is_bit(byte: u8) -> bool
    ensures { result ≡ spec.is_bit byte }
{
    byte == b'0' || byte == b'1'
}

/// The part of a vector that a word names.
fn part(word: &[u8]) -> Option<Part>
    ensures { result ≡ spec.part word.now }
{
    if is(word, b"header") {
        Some(Part::Header)
    } else if is(word, b"data") {
        Some(Part::Data)
    } else if is(word, b"trailer") {
        Some(Part::Trailer)
    } else {
        None
    }
}

/// The number that a word writes as numbers are printed.
fn number(word: &[u8]) -> Option<u64>
    ensures { result ≡ spec.number word.now }
{
    if is_number(word) {
        Some(value(word))
    } else {
        None
    }
}

fn is_number(word: &[u8]) -> bool
    ensures { result ≡ spec.is_number word.now }
{
    !word.is_empty() && are_digits(word) && word.len() <= MOST_DIGITS && begins_well(word)
}

fn are_digits(word: &[u8]) -> bool
    ensures { result ≡ list_all is_ascii_digit word.now }
{
    word.iter().all(|byte| byte.is_ascii_digit())
}

/// Whether no 0 stands before others.
fn begins_well(word: &[u8]) -> bool
    requires { 0 < length word.now }
    ensures { result ≡ spec.begins_well word.now }
{
    word.len() == 1 || word[0] != b'0'
}

/// The number that digits write.
fn value(digits: &[u8]) -> u64
    requires digits { list_all is_ascii_digit digits.now ≡ true }
    requires few { length digits.now ≤ 18 }
    ensures { result ≡ digits_value 10 digits.now }
{
    let mut value = 0;
    for i in 0..digits.len() {
        value = value * 10 + u64::from(digit_of(digits, i));
    }
    value
}

fn digit_of(digits: &[u8], i: usize) -> u8
    requires all { list_all is_ascii_digit digits.now ≡ true }
    requires within { i < length digits.now }
    ensures small { result ≤ 9 }
    ensures value { digits_value 10 (take (i + 1) digits.now) ≡ digits_value 10 (take i digits.now) * 10 + result }
{
    digits[i] - b'0'
}
