//! Patterns of 0, 1 and X.
ghost use Rattle.std.specs.Prelude.{◌≡◌, ◌<◌, length, map, true, IfOk};
ghost use Rattle.bsdl_text.specs.Left.{left};
ghost use Rattle.bsdl_text.specs.View.{Gives};
ghost use Rattle.bsdl_values.specs.InstructionValues as spec;
ghost use Rattle.bsdl_device.specs.Device as device;
ghost use Rattle.bsdl_values.specs.InstructionView as view;
ghost use Rattle.std.specs.List.{list_all};

use bsdl_text::{Entry, Lexer, Stop, listed, mark};
use std::alloc::Global;

/// A pattern as it is written: digits `0`, `1`, `X` and `x`, the rightmost of which is bit 0.
#[derive(Debug, Drop)]
pub struct WrittenPattern {
    pub digits: Vec<u8>,
}

impl<'a> Entry<'a> for WrittenPattern {
    ghost Seen = { device.Pattern };

    ghost seen = { view.pattern };

    ghost says = { spec.pattern };

    fn read(alloc: Global, lexer: Lexer<'a>) -> Result<(WrittenPattern, Lexer<'a>), Stop> {
        digits_of(alloc, lexer)
    }
}

/// A pattern, whose digits may have white space between them. Refuses at the next token where it is no digits of a
/// pattern, or at the text's end, and for want of memory.
pub fn digits_of<'a>(alloc: Global, lexer: Lexer<'a>) -> Result<(WrittenPattern, Lexer<'a>), Stop>
    ensures gives { Gives view.pattern result (spec.pattern (left lexer.entry)) }
    ensures shorter { IfOk result (λ p. length (left p.1) < length (left lexer.entry)) }
    ensures digits { IfOk result (λ p. list_all spec.is_digit p.0.digits.items ≡ true) }
{
    let mut digits = Vec::new(alloc);
    let behind = match lexer.next() {
        Some((token, rest)) if are_digits(token.text) => match digits.extend_from_slice(
            token.text,
        ) {
            Ok(()) => rest,
            Err(_) => return Err(Stop::Memory),
        },
        Some((token, _)) => return Err(Stop::Misfit(Some(token.start))),
        None => return Err(Stop::Misfit(None)),
    };
    let mut rest = behind;
    'tokens: while let Some((token, after)) = rest.next() {
        if !are_digits(token.text) {
            return Ok((WrittenPattern { digits }, rest));
        }
        match digits.extend_from_slice(token.text) {
            Ok(()) => rest = after,
            Err(_) => return Err(Stop::Memory),
        }
    }
    Ok((WrittenPattern { digits }, rest))
}

fn are_digits(text: &[u8]) -> bool
    ensures { result ≡ list_all spec.is_digit text.now }
{
    text.iter()
        .all(|byte| matches!(*byte, b'0' | b'1' | b'X' | b'x'))
}

/// Entries between brackets. Refuses where the list of them does, at the next token where a bracket is missing, or at
/// the text's end, and for want of memory.
pub fn bracketed<'a, E: Entry<'a>>(
    alloc: Global,
    lexer: Lexer<'a>,
) -> Result<(Vec<E>, Lexer<'a>), Stop>
    ensures gives { Gives (λ v. map E.seen v.items) result (spec.bracketed E.says (left lexer.entry)) }
    ensures shorter { IfOk result (λ p. length (left p.1) < length (left lexer.entry)) }
{
    let rest = mark(lexer, b'(')?;
    let (all, rest) = listed(alloc, rest, b',', Some(b')'))?;
    let rest = mark(rest, b')')?;
    Ok((all, rest))
}
