//! How far it is plain, without a cut, that each byte of a text belongs to a token or a gap.
ghost use Rattle.std.specs.Prelude.{◌≡◌, ◌≤◌, length, false};
ghost use Rattle.bsdl_text.specs.Bytes.{is_word};
ghost use Rattle.bsdl_text.specs.Plain as plain;
ghost use Rattle.bsdl_text.specs.Plain.{HasNoBad};

use crate::tokens::lanes::{WordByte, plain_in};
use crate::tokens::scan::is_word;
use token_runs::{LANES, RunOf};

/// How many bytes at the front of a text are known to belong to tokens and gaps. Behind them a token, a gap or a bad
/// byte stands, or the text ends.
pub(crate) fn clear_len(text: &[u8], quoted: bool) -> usize
    ensures within { result ≤ length text.now }
    ensures same { HasNoBad quoted text.now result }
{
    // A `-` outside quotes may begin a comment, and a `"` begins nothing within them.
    let ending = if quoted { b'"' } else { b'-' };
    let len = plain_len(text, ending);
    // A `_` may go on with a number that has a point before it.
    if text.get(len) == Some(&b'_') { 0 } else { len }
}

/// How many bytes at the front of a text are plain, as behind a space. Sixteen are looked at at once, and the last of
/// the text one by one.
fn plain_len(text: &[u8], ending: u8) -> usize
    requires { is_word ending ≡ false }
    ensures value { result ≡ plain.plain_len ending 32 text.now }
    ensures within { result ≤ length text.now }
{
    if text.is_empty() || !is_plain_behind(text[0], ending, b' ') {
        return 0;
    }
    let mut at = 1;
    while text.len() - at >= LANES {
        // Names are long: of sixteen bytes of one word the last fifteen are plain.
        if WordByte::run_in(text, at - 1) == LANES {
            at += LANES - 1;
            continue;
        }
        let plain = plain_in(text, at, ending);
        if plain < LANES {
            return at + plain;
        }
        at += LANES;
    }
    at + plain_end_len(&text[at..], ending, text[at - 1])
}

/// The same behind a byte, byte by byte.
fn plain_end_len(text: &[u8], ending: u8, before: u8) -> usize
    ensures value { result ≡ plain.plain_len ending before text.now }
    ensures within { result ≤ length text.now }
{
    let mut last = before;
    for (at, byte) in text.iter().enumerate() {
        if !is_plain_behind(*byte, ending, last) {
            return at;
        }
        last = *byte;
    }
    text.len()
}

fn is_plain_behind(byte: u8, ending: u8, before: u8) -> bool
    ensures { result ≡ plain.is_plain_behind ending before byte }
{
    byte != ending && (is_plain(byte) || byte == b'_' && is_word(before))
}

fn is_plain(byte: u8) -> bool
    ensures { result ≡ plain.is_plain byte }
{
    match byte {
        b' ' | b'\t'..=b'\r' => true,
        b'A'..=b'Z' | b'a'..=b'z' | b'0'..=b'9' => true,
        b'&'..=b'/' | b':'..=b'>' | b'[' | b']' | b'|' => true,
        _ => false,
    }
}
