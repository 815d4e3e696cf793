//! The ports of an entity.
ghost use Rattle.std.specs.Prelude.{◌≡◌, ◌<◌, List, length, map, option_map, IfOk};
ghost use Rattle.bsdl_text.specs.Left.{left};
ghost use Rattle.bsdl_text.specs.Reading as reading;
ghost use Rattle.bsdl_text.specs.View.{Gives, StopsAtMisfit};
ghost use Rattle.bsdl_text.specs.NumberView as number_view;
ghost use Rattle.bsdl_text.specs.WordView.{word_lexeme};
ghost use Rattle.bsdl_entity.specs.Ports as spec;
ghost use Rattle.bsdl_entity.specs.PortsView as view;

use crate::keywords::{DIRECTIONS, KINDS, MODES, PORT};
use bsdl_device::PortMode;
use bsdl_text::{
    Digits, Entry, Lexer, Stop, Word, keyword, listed, mark, number, room_for_one, stands, word,
};
use std::alloc::Global;
use std::cmp::Ordering;

/// The lowest and the highest index of a port.
#[derive(Debug, Clone, Copy)]
pub struct Range<'a> {
    pub low: Digits<'a>,
    pub high: Digits<'a>,
}

/// Ports that are declared together.
#[derive(Debug, Drop)]
pub struct Group<'a> {
    pub names: Vec<Word<'a>>,
    pub mode: PortMode,
    pub range: Option<Range<'a>>,
}

impl<'a> Entry<'a> for Group<'a> {
    ghost use Rattle.bsdl_entity.specs.Ports.{Port};

    ghost Seen = { List Port };

    ghost seen = { view.group };

    ghost says = { spec.port_group };

    fn read(alloc: Global, lexer: Lexer<'a>) -> Result<(Group<'a>, Lexer<'a>), Stop> {
        let (names, rest) = names(alloc, lexer)?;
        let rest = mark(rest, b':')?;
        let (mode, rest) = keyword(rest, &MODES)?;
        let (range, rest) = kind_of_port(rest)?;
        Ok((Group { names, mode, range }, rest))
    }
}

/// The ports of an entity, and the lexer behind them: `port ( group {; group} [;] ) ;` (Annex B.8.3).
///
/// Refuses at the first token that does not fit, or for want of memory.
pub(crate) fn read_ports<'a>(
    alloc: Global,
    lexer: Lexer<'a>,
) -> Result<(Vec<Group<'a>>, Lexer<'a>), Stop>
    ensures gives { Gives (λ v. view.ports v.items) result (spec.ports (left lexer.entry)) }
    ensures shorter { IfOk result (λ p. length (left p.1) < length (left lexer.entry)) }
{
    let (_port, rest) = keyword(lexer, &PORT)?;
    let rest = mark(rest, b'(')?;
    let (groups, rest) = listed(alloc, rest, b';', Some(b')'))?;
    let rest = mark(rest, b')')?;
    let rest = mark(rest, b';')?;
    Ok((groups, rest))
}

/// Names with commas between them.
fn names<'a>(alloc: Global, lexer: Lexer<'a>) -> Result<(Vec<Word<'a>>, Lexer<'a>), Stop>
    ensures gives { Gives (λ v. map word_lexeme v.items) result
        (reading.joined_by reading.word 44 (left lexer.entry)) }
    ensures shorter { IfOk result (λ p. length (left p.1) < length (left lexer.entry)) }
{
    let mut all = room_for_one(alloc)?;
    let (first, behind) = word(lexer)?;
    match all.push(first) {
        Ok(()) => {}
        Err(_) => return Err(Stop::Memory),
    }
    let mut rest = behind;
    'names: loop {
        if !stands(rest, b',') {
            return Ok((all, rest));
        }
        let after = mark(rest, b',')?;
        let (next, more) = word(after)?;
        match all.push(next) {
            Ok(()) => rest = more,
            Err(_) => return Err(Stop::Memory),
        }
    }
}

/// `bit`, or `bit_vector` and its range.
fn kind_of_port<'a>(lexer: Lexer<'a>) -> Result<(Option<Range<'a>>, Lexer<'a>), Stop>
    ensures gives { Gives (option_map view.range) result (spec.kind_of_port (left lexer.entry)) }
    ensures shorter { IfOk result (λ p. length (left p.1) < length (left lexer.entry)) }
    ensures misfit { StopsAtMisfit result }
{
    let (is_vector, rest) = keyword(lexer, &KINDS)?;
    if is_vector {
        let (found, rest) = index_range(rest)?;
        return Ok((Some(found), rest));
    }
    Ok((None, rest))
}

/// `( int to int )` or `( int downto int )`.
fn index_range<'a>(lexer: Lexer<'a>) -> Result<(Range<'a>, Lexer<'a>), Stop>
    ensures gives { Gives (λ r. Some (view.range r)) result (spec.range (left lexer.entry)) }
    ensures shorter { IfOk result (λ p. length (left p.1) < length (left lexer.entry)) }
    ensures misfit { StopsAtMisfit result }
{
    let rest = mark(lexer, b'(')?;
    let (first, rest) = number(rest)?;
    let (is_rising, rest) = keyword(rest, &DIRECTIONS)?;
    let (found, rest) = up_to(first, is_rising, rest)?;
    let rest = mark(rest, b')')?;
    Ok((found, rest))
}

/// The second number of a range, which lies on the stated side of the first.
fn up_to<'a>(
    first: Digits<'a>,
    is_rising: bool,
    lexer: Lexer<'a>,
) -> Result<(Range<'a>, Lexer<'a>), Stop>
    ensures gives { Gives view.range result (spec.upto (number_view.value first.entry) is_rising (left lexer.entry)) }
    ensures shorter { IfOk result (λ p. length (left p.1) < length (left lexer.entry)) }
    ensures misfit { StopsAtMisfit result }
{
    let (second, rest) = number(lexer)?;
    match in_order(first, second, is_rising) {
        Some(found) => Ok((found, rest)),
        None => Err(refused_at(lexer)),
    }
}

/// The range of two numbers, where they run this way.
fn in_order<'a>(first: Digits<'a>, second: Digits<'a>, is_rising: bool) -> Option<Range<'a>>
    ensures { option_map view.range result ≡ spec.in_order (number_view.value first.entry)
        (number_view.value second.entry) is_rising }
{
    match (first.compare(second), is_rising) {
        (Ordering::Less, false) | (Ordering::Greater, true) => None,
        (Ordering::Less, true) | (Ordering::Equal, _) => Some(Range {
            low: first,
            high: second,
        }),
        (Ordering::Greater, false) => Some(Range {
            low: second,
            high: first,
        }),
    }
}

/// Where the next token stands, which does not fit.
fn refused_at(lexer: Lexer<'_>) -> Stop
    ensures { result ≡ Stop.Misfit (reading.front_place (left lexer.entry)) }
{
    match lexer.next() {
        Some((token, _)) => Stop::Misfit(Some(token.start)),
        None => Stop::Misfit(None),
    }
}
