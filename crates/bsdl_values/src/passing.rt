//! Tokens that are passed over.
ghost use Rattle.std.specs.Prelude.{◌<◌, length, IfOk};
ghost use Rattle.bsdl_text.specs.Left.{left};
ghost use Rattle.bsdl_text.specs.View.{Passes, StopsAtMisfit};
ghost use Rattle.bsdl_values.specs.Passing as spec;

use bsdl_text::{Lexer, Stop, mark, stands};

/// The lexer behind tokens between matching brackets.
///
/// Refuses at a next token that is no opening bracket, or at the end of the text where none closes.
pub fn brackets<'a>(lexer: Lexer<'a>) -> Result<Lexer<'a>, Stop>
    ensures passes { Passes result (spec.brackets (left lexer.entry)) }
    ensures shorter { IfOk result (λ l. length (left l) < length (left lexer.entry)) }
    ensures misfit { StopsAtMisfit result }
{
    let rest = mark(lexer, b'(')?;
    past_closing(rest)
}

/// The lexer behind the bracket that closes.
fn past_closing<'a>(lexer: Lexer<'a>) -> Result<Lexer<'a>, Stop>
    ensures passes { Passes result (spec.past_closing 0 (left lexer.entry)) }
    ensures shorter { IfOk result (λ l. length (left l) < length (left lexer.entry)) }
    ensures misfit { StopsAtMisfit result }
{
    let mut depth: u64 = 0;
    let mut rest = lexer;
    'tokens: while let Some((_, after)) = rest.next() {
        if stands(rest, b')') {
            if depth == 0 {
                return Ok(after);
            }
            depth -= 1;
        } else if stands(rest, b'(') {
            depth += 1;
        }
        rest = after;
    }
    Err(Stop::Misfit(None))
}

/// The lexer behind the next `;`.
///
/// Refuses at the end of the text where there is none.
pub fn past_semi<'a>(lexer: Lexer<'a>) -> Result<Lexer<'a>, Stop>
    ensures passes { Passes result (spec.past_semi (left lexer.entry)) }
    ensures shorter { IfOk result (λ l. length (left l) < length (left lexer.entry)) }
    ensures misfit { StopsAtMisfit result }
{
    let mut rest = lexer;
    'tokens: while let Some((_, after)) = rest.next() {
        if stands(rest, b';') {
            return Ok(after);
        }
        rest = after;
    }
    Err(Stop::Misfit(None))
}
