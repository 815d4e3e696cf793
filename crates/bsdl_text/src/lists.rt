//! Lists of entries with separators between them.
ghost use Rattle.std.specs.Prelude.{◌≡◌, ◌<◌, [], List, length, map, IfErr, IfOk};
ghost use Rattle.std.specs.Vec.{vec_capacity};
ghost use Rattle.bsdl_text.specs.Cutting.{Lexeme};
ghost use Rattle.bsdl_text.specs.Left.{left};
ghost use Rattle.bsdl_text.specs.Reading as spec;
ghost use Rattle.bsdl_text.specs.Reading.{Read};
ghost use Rattle.bsdl_text.specs.View as view;
ghost use Rattle.bsdl_text.specs.View.{Gives};

use crate::reading::{Stop, closes, mark};
use crate::tokens::Lexer;
use std::alloc::Global;

/// What lists have for entries.
pub trait Entry<'a>: Drop {
    /// What contracts see of an entry.
    ghost Seen: { Type 0 };

    /// An entry as contracts see it.
    ghost seen: { Self → Seen };

    /// What tokens say in an entry's place: the entry at their front and the tokens behind it, or where they do not
    /// fit.
    ghost says: { List Lexeme → Read Seen };

    /// The entry that stands next, and the lexer behind it. Refuses at the first token that does not fit, or at the
    /// text's end, and for want of memory.
    fn read(alloc: Global, lexer: Lexer<'a>) -> Result<(Self, Lexer<'a>), Stop>
        ensures gives { Gives seen result (says (left lexer.entry)) }
        ensures shorter { IfOk result (λ p. length (left p.1) < length (left lexer.entry)) };
}

/// An empty list with room for one: most lists within a list have one entry.
pub fn room_for_one<T: Drop>(alloc: Global) -> Result<Vec<T>, Stop>
    ensures stops { IfErr result (λ e. e ≡ Stop.Memory) }
    ensures empty { IfOk result (λ v. v.items ≡ []) }
    ensures room { IfOk result (λ v. vec_capacity v ≡ 1) }
{
    match Vec::with_capacity(alloc, 1) {
        Ok(all) => Ok(all),
        Err(_) => Err(Stop::Memory),
    }
}

/// Entries with a separator between them, which may stand behind the last one too, up to where the list closes. Refuses
/// where an entry does, at the next token behind an entry where neither a separator stands nor the list closes, or at
/// the text's end, and for want of memory.
pub fn listed<'a, E: Entry<'a>>(
    alloc: Global,
    lexer: Lexer<'a>,
    separator: u8,
    close: Option<u8>,
) -> Result<(Vec<E>, Lexer<'a>), Stop>
    ensures gives { Gives (λ v. map E.seen v.items) result
        (spec.separated E.says separator (view.closes close) (left lexer.entry)) }
    ensures shorter { IfOk result (λ p. length (left p.1) < length (left lexer.entry)) }
{
    let mut all = room_for_one(alloc)?;
    let (first, behind) = E::read(alloc, lexer)?;
    match all.push(first) {
        Ok(()) => {}
        Err(_) => return Err(Stop::Memory),
    }
    let mut rest = behind;
    'entries: loop {
        if closes(rest, close) {
            return Ok((all, rest));
        }
        let after = mark(rest, separator)?;
        if closes(after, close) {
            return Ok((all, after));
        }
        let (entry, more) = E::read(alloc, after)?;
        match all.push(entry) {
            Ok(()) => rest = more,
            Err(_) => return Err(Stop::Memory),
        }
    }
}
