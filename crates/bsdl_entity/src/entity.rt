//! A whole description.
ghost use Rattle.std.specs.Prelude.{◌≡◌, ◌≤◌, length, map, IfOk, true};
ghost use Rattle.bsdl_text.specs.Left.{left};
ghost use Rattle.bsdl_text.specs.View.{Passes, StopsAtMisfit};
ghost use Rattle.bsdl_values.specs.View.{Writes};
ghost use Rattle.bsdl_entity.specs.Entity as spec;
ghost use Rattle.bsdl_text.specs.Reading.{fits};
ghost use Rattle.bsdl_entity.specs.GivenView.{first_unsaid, given};
ghost use Rattle.bsdl_entity.specs.OutlineView.{outline};
ghost use Rattle.bsdl_entity.specs.Scalars.{is_scalar};
ghost use Rattle.bsdl_entity.specs.PortsView.{ports};

use crate::items::{Given, behind_word, items};
use crate::keywords::{END, ENTITY, IS};
use crate::ports::{Group, read_ports};
use crate::stops::behind_given;
use bsdl_text::{Kind, Lexer, Stop, keyword, mark, word};
use bsdl_values::brackets;
use std::alloc::Global;

/// The ports of an entity, and what its attributes say.
#[derive(Debug, Drop)]
pub struct Outline<'a> {
    pub groups: Vec<Group<'a>>,
    pub given: Vec<Given<'a>>,
}

/// The ports and attributes of a whole description, its texts within quotes as they are written, and the lexer at the
/// text's end (Annex B.8.1). A text within quotes that says nothing is refused too, at its first quote: here where
/// other tokens do not fit behind it, else once its value is asked for (`bsdl_values::said`).
///
/// Refuses at the first token that does not fit, `None` where the text ends too early; at the first quote of a text
/// within quotes that says nothing and stands before; at the second number of a range that runs the wrong way; or for
/// want of memory.
pub fn read_entity<'a>(alloc: Global, lexer: Lexer<'a>) -> Result<(Outline<'a>, Lexer<'a>), Stop>
    ensures writes { Writes (λ o. first_unsaid o.given.items) outline result (spec.file (left lexer.entry)) }
{
    let rest = heading(lexer)?;
    let (groups, rest) = read_ports(alloc, rest)?;
    let (given, rest) = attributes(alloc, &groups, rest)?;
    match ending(rest) {
        Ok(rest) => Ok((Outline { groups, given }, rest)),
        Err(stop) => Err(behind_given(alloc, &given, stop)),
    }
}

/// `entity name is [generic]`, and the lexer behind it.
fn heading<'a>(lexer: Lexer<'a>) -> Result<Lexer<'a>, Stop>
    ensures passes { Passes result (spec.heading (left lexer.entry)) }
    ensures misfit { StopsAtMisfit result }
{
    let (_entity, rest) = keyword(lexer, &ENTITY)?;
    let (_name, rest) = word(rest)?;
    let (_is, rest) = keyword(rest, &IS)?;
    generic(rest)
}

/// `end [word] [word] ;`, behind which nothing stands.
fn ending<'a>(lexer: Lexer<'a>) -> Result<Lexer<'a>, Stop>
    ensures passes { Passes result (spec.ending (left lexer.entry)) }
    ensures misfit { StopsAtMisfit result }
{
    let (_end, rest) = keyword(lexer, &END)?;
    let rest = past_word(rest);
    let rest = past_word(rest);
    let rest = mark(rest, b';')?;
    end_of_text(rest)
}

fn end_of_text<'a>(lexer: Lexer<'a>) -> Result<Lexer<'a>, Stop>
    ensures passes { Passes result (spec.end_of_text (left lexer.entry)) }
    ensures misfit { StopsAtMisfit result }
{
    match lexer.next() {
        Some((token, _)) => Err(Stop::Misfit(Some(token.start))),
        None => Ok(lexer),
    }
}

/// The lexer behind a word, if one stands next.
fn past_word<'a>(lexer: Lexer<'a>) -> Lexer<'a>
    ensures { spec.any_word (left lexer.entry) ≡ fits true (left result) }
{
    match lexer.next() {
        Some((token, rest)) => match token.kind {
            Kind::Word => rest,
            _ => lexer,
        },
        None => lexer,
    }
}

/// The lexer behind the generic, if one stands next.
fn generic<'a>(lexer: Lexer<'a>) -> Result<Lexer<'a>, Stop>
    ensures passes { Passes result (spec.generic (left lexer.entry)) }
    ensures no_longer { IfOk result (λ l. length (left l) ≤ length (left lexer.entry)) }
    ensures misfit { StopsAtMisfit result }
{
    match behind_word(lexer, b"GENERIC") {
        Some(behind) => {
            let rest = brackets(behind)?;
            mark(rest, b';')
        }
        None => Ok(lexer),
    }
}

/// What the attributes of an entity with these ports say.
fn attributes<'a>(
    alloc: Global,
    groups: &[Group<'a>],
    lexer: Lexer<'a>,
) -> Result<(Vec<Given<'a>>, Lexer<'a>), Stop>
    ensures writes { Writes (λ v. first_unsaid v.items) (λ v. map given v.items) result
        (spec.items (is_scalar (ports groups.now)) (length (left lexer.entry)) (left lexer.entry)) }
{
    items(alloc, groups, lexer)
}
