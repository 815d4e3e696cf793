//! What stands at a place of a text.
ghost use Rattle.std.specs.Prelude.{◌≡◌, ◌≤◌, ◌<◌, ◌==◌, ◌||◌, length, drop, is_some, IfSome, IfOk, None, false};
ghost use Rattle.std.specs.List.{prefix_len};
ghost use Rattle.bsdl_text.specs.Bytes as bytes;
ghost use Rattle.bsdl_text.specs.Cutting.{cut, front, behind, cuts_of, bad_place, tokens};
ghost use Rattle.bsdl_text.specs.Scanning.{cuts_from, gap, NoGap};
ghost use Rattle.bsdl_text.specs.Alone.{stands_alone};
ghost use Rattle.bsdl_text.specs.Left.{end_of};

use crate::tokens::lanes::WordByte;
use crate::tokens::plain::clear_len;
use crate::tokens::{Kind, Token};
use memchr::memchr3;
use token_runs::{line_len, run_len};

/// What the first byte of a text begins, and how many bytes that has behind it. Gaps are passed before it is asked, so
/// that only what is said of whole texts names them.
#[derive(Clone, Copy)]
enum Front {
    Gap(usize),
    Token(Kind, usize),
    Bad,
}

/// The first token from a place on, or the place of the byte in its way that begins nothing.
pub(crate) fn first_token<'a>(
    source: &'a [u8],
    quoted: bool,
    from: usize,
) -> Option<Result<Token<'a>, usize>>
    requires { from ≤ length source.now }
    ensures cuts { cut quoted 0 from (drop from source.now) ≡ cuts_from quoted source.now result }
    ensures within { IfSome result (λ found. IfOk found (λ token. end_of token ≤ length source.now)) }
    ensures on { IfSome result (λ found. IfOk found (λ token. from < end_of token)) }
{
    let at = gaps_end(source, quoted, from);
    if at == source.len() {
        return None;
    }
    match front_of(quoted, source[at], &source[at + 1..]) {
        Front::Token(kind, more) => Some(Ok(Token {
            kind,
            text: &source[at..at + 1 + more],
            start: at,
        })),
        _ => Some(Err(at)),
    }
}

/// The place behind the first token from a place on, where that is this byte alone, as a mark is.
pub(crate) fn behind_alone(source: &[u8], quoted: bool, from: usize, byte: u8) -> Option<usize>
    requires { from ≤ length source.now }
    ensures alone { is_some result ≡ stands_alone byte (tokens (cut quoted 0 from (drop from source.now))) }
    ensures behind { IfSome result (λ at. tokens (cut quoted 0 at (drop at source.now))
        ≡ drop 1 (tokens (cut quoted 0 from (drop from source.now)))) }
    ensures within { IfSome result (λ at. at ≤ length source.now) }
{
    let at = gaps_end(source, quoted, from);
    if at == source.len() || source[at] != byte {
        return None;
    }
    if is_mark(byte) {
        return Some(at + 1);
    }
    match first_token(source, quoted, at) {
        Some(Ok(token)) if token.text == [byte].as_slice() => Some(token.start + 1),
        _ => None,
    }
}

/// Whether no token stands from a place on, up to a byte that begins nothing.
pub(crate) fn is_over(source: &[u8], quoted: bool, from: usize) -> bool
    requires { from ≤ length source.now }
    ensures { result ≡ (length (tokens (cut quoted 0 from (drop from source.now))) == 0) }
{
    let at = gaps_end(source, quoted, from);
    if at == source.len() {
        return true;
    }
    if begins_any(source[at]) {
        return false;
    }
    !matches!(first_token(source, quoted, at), Some(Ok(_)))
}

/// The place behind the gaps that stand from a place on.
#[inline(always)]
fn gaps_end(source: &[u8], quoted: bool, from: usize) -> usize
    requires { from ≤ length source.now }
    ensures cuts { cut quoted 0 from (drop from source.now) ≡ cut quoted 0 result (drop result source.now) }
    ensures on { from ≤ result }
    ensures within { result ≤ length source.now }
    ensures ends { NoGap quoted source.now result }
{
    let mut at = from;
    while at < source.len() {
        match gap_of(quoted, source[at], &source[at + 1..]) {
            Some(more) => at += 1 + more,
            None => return at,
        }
    }
    at
}

/// How many bytes a gap has behind its first, where the byte begins one before this rest of the text.
#[inline(always)]
fn gap_of(quoted: bool, first: u8, rest: &[u8]) -> Option<usize>
    ensures value { result ≡ gap quoted first rest.now }
    ensures within { IfSome result (λ more. more ≤ length rest.now) }
{
    match first {
        b' ' | b'\t'..=b'\r' => Some(0),
        b'-' if !quoted && rest.first() == Some(&b'-') => Some(line_len(rest)),
        _ => None,
    }
}

/// The place of the first byte of a text that begins no token and no gap, as `#`, or as the quote of a string that is
/// not closed on its line.
pub fn bad_byte(source: &[u8], quoted: bool) -> Option<usize>
    ensures { result ≡ bad_place (cuts_of quoted source.now) }
{
    // At the start and behind each string it is looked how far the text is clear. A look ends before the next string,
    // so that no byte is looked at twice.
    let mut at = clear_len(source, quoted);
    loop {
        match first_token(source, quoted, at) {
            Some(Ok(token)) => {
                at = token.start + token.text.len();
                if token.kind == Kind::Text {
                    at += clear_len(&source[at..], quoted);
                }
            }
            Some(Err(place)) => return Some(place),
            None => return None,
        }
    }
}

/// What a byte that begins no gap begins before this rest of the text.
#[inline(always)]
fn front_of(quoted: bool, first: u8, rest: &[u8]) -> Front
    requires { gap quoted first rest.now ≡ None }
    ensures value { result ≡ front quoted first rest.now }
    ensures within { behind result ≤ length rest.now }
{
    match first {
        b'"' if !quoted => string_front(rest),
        b'A'..=b'Z' | b'a'..=b'z' => Front::Token(Kind::Word, run_len::<WordByte>(rest)),
        b'0'..=b'9' => Front::Token(Kind::Number, number_len(rest)),
        b'&'..=b'/' | b':'..=b'>' | b'[' | b']' | b'|' => Front::Token(Kind::Mark, 0),
        _ => Front::Bad,
    }
}

/// What a quote begins before this rest of the text: a string, where its line has another quote.
fn string_front(rest: &[u8]) -> Front
    ensures value { result ≡ front false 34 rest.now }
    ensures within { behind result ≤ length rest.now }
{
    let len = within_len(rest);
    if rest.get(len) == Some(&b'"') {
        Front::Token(Kind::Text, len + 1)
    } else {
        Front::Bad
    }
}

/// How many bytes at the front can stand within a string.
fn within_len(text: &[u8]) -> usize
    ensures value { result ≡ prefix_len bytes.is_within text.now }
    ensures within { result ≤ length text.now }
{
    memchr3(b'"', b'\n', b'\r', text).unwrap_or(text.len())
}

/// How many bytes of a number stand at the front.
fn number_len(text: &[u8]) -> usize
    ensures value { result ≡ prefix_len bytes.is_number text.now }
    ensures within { result ≤ length text.now }
{
    text.iter().take_while(|byte| is_number(**byte)).count()
}

pub(crate) fn is_word(byte: u8) -> bool
    ensures { result ≡ bytes.is_word byte }
{
    byte.is_ascii_alphanumeric() || byte == b'_'
}

/// Whether a byte that begins no gap begins a token, whatever stands behind it.
fn begins_any(byte: u8) -> bool
    ensures { result ≡ (bytes.begins_word byte || (bytes.begins_number byte || bytes.is_mark byte)) }
{
    byte.is_ascii_alphanumeric() || is_mark(byte)
}

fn is_mark(byte: u8) -> bool
    ensures { result ≡ bytes.is_mark byte }
{
    matches!(byte, b'&'..=b'/' | b':'..=b'>' | b'[' | b']' | b'|')
}

fn is_number(byte: u8) -> bool
    ensures { result ≡ bytes.is_number byte }
{
    byte.is_ascii_alphanumeric() || matches!(byte, b'_' | b'.')
}
