//! What stands at a place of a text.
ghost use Rattle.std.specs.Prelude.{◌≡◌, ◌≤◌, length, drop, IfSome, IfOk};
ghost use Rattle.std.specs.List.{prefix_len};
ghost use Rattle.svf_lex.specs.Bytes as bytes;
ghost use Rattle.svf_lex.specs.Cutting.{cut, front, behind};
ghost use Rattle.svf_lex.specs.Scanning.{cuts_from, end_of, place_of};

use crate::lanes::RunByte;
use crate::{Kind, Token};
use token_runs::{RunOf, line_len, run_by_bytes, run_len};

/// So many bytes of a run are looked up one by one.
const SHORT: usize = 8;

/// What the first byte of a text begins, and how many bytes that has behind it.
#[derive(Clone, Copy)]
enum Front {
    Gap(usize),
    Token(Kind, usize),
    Bad,
}

/// The first token from a place on, or the place of the byte in its way that begins nothing. In line, since its answer
/// goes through memory else, for each token.
#[inline(always)]
pub(crate) fn first_token<'a>(source: &'a [u8], from: usize) -> Option<Result<Token<'a>, usize>>
    requires { from ≤ length source.now }
    ensures cuts { cut 0 from (drop from source.now) ≡ cuts_from source.now result }
    ensures gap { IfSome result
        (λ found. cut 0 from (drop from source.now) ≡ cut 0 (place_of found) (drop (place_of found) source.now)) }
    ensures inside { IfSome result (λ found. place_of found ≤ length source.now) }
    ensures within { IfSome result (λ found. IfOk found (λ token. end_of token ≤ length source.now)) }
{
    let mut at = from;
    while at < source.len() {
        match front_of(source[at], &source[at + 1..]) {
            Front::Gap(more) => at += 1 + more,
            Front::Token(kind, more) => {
                return Some(Ok(Token {
                    kind,
                    text: &source[at..at + 1 + more],
                    start: at,
                }));
            }
            Front::Bad => return Some(Err(at)),
        }
    }
    None
}

/// What the byte begins before this rest of the text.
fn front_of(first: u8, rest: &[u8]) -> Front
    ensures value { result ≡ front first rest.now }
    ensures within { behind result ≤ length rest.now }
{
    match first {
        b' ' | b'\t'..=b'\r' => Front::Gap(0),
        b'!' => Front::Gap(line_len(rest)),
        b'/' if rest.first() == Some(&b'/') => Front::Gap(line_len(rest)),
        b'(' => Front::Token(Kind::Open, 0),
        b')' => Front::Token(Kind::Close, 0),
        b';' => Front::Token(Kind::Semi, 0),
        _ if RunByte::has(first) => Front::Token(Kind::Run, rest_len(rest)),
        _ => Front::Bad,
    }
}

/// How many bytes of a run stand at the front. Most runs are short: their first bytes are looked up one by one, which
/// is soonest done. Long ones are passed sixteen bytes at once.
fn rest_len(text: &[u8]) -> usize
    ensures value { result ≡ prefix_len bytes.is_run text.now }
    ensures within { result ≤ length text.now }
{
    let (front, rest) = text.split_at(text.len().min(SHORT));
    let len = run_by_bytes::<RunByte>(front);
    if len < SHORT {
        len
    } else {
        len + run_len::<RunByte>(rest)
    }
}
