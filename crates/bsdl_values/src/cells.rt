//! The rows of a boundary register: `num (cell, port or *, function, safe [, ccell, disval, rslt])` (BSDL: IEEE Std
//! 1149.1-2001, Annex B.8.14).
ghost use Rattle.std.specs.Prelude.{◌≡◌, ◌<◌, ◌≤◌, length, option_map, IfOk};
ghost use Rattle.bsdl_text.specs.Left.{left, lexeme};
ghost use Rattle.bsdl_text.specs.NumberView as number_view;
ghost use Rattle.bsdl_text.specs.Reading.{is_mark_of};
ghost use Rattle.bsdl_text.specs.View.{Gives, StopsAtMisfit};
ghost use Rattle.bsdl_values.specs.CellRows as spec;
ghost use Rattle.bsdl_values.specs.CellView as view;

use crate::cells::keywords::{BITS, DISABLED, FUNCTIONS, SAFE};
use bsdl_device::{Disabled, Function};
use bsdl_text::{
    Digits, Entry, Kind, Lexer, Stop, Token, Word, keyword, mark, number, stands, word,
};
use std::alloc::Global;

mod keywords;

/// A port bit, by its name and its index.
#[derive(Debug, Clone, Copy)]
pub struct PortName<'a> {
    pub name: Word<'a>,
    pub index: Option<Digits<'a>>,
}

/// A cell that disables a driver, by which value, and what is driven then.
#[derive(Debug, Clone, Copy)]
pub struct Controlling<'a> {
    pub cell: Digits<'a>,
    pub disabling: bool,
    pub leaves: Disabled,
}

/// A row of the boundary register as it is written.
#[derive(Debug, Drop, Clone, Copy)]
pub struct CellRow<'a> {
    pub number: Digits<'a>,
    pub port: Option<PortName<'a>>,
    pub function: Function,
    pub control: Option<Controlling<'a>>,
}

impl<'a> Entry<'a> for CellRow<'a> {
    ghost use Rattle.bsdl_values.specs.CellRows.{CellRow};

    ghost Seen = { CellRow };

    ghost seen = { view.cell_row };

    ghost says = { spec.cell_row };

    fn read(_alloc: Global, lexer: Lexer<'a>) -> Result<(CellRow<'a>, Lexer<'a>), Stop> {
        let (number, rest) = number(lexer)?;
        let rest = mark(rest, b'(')?;
        let (_cell, rest) = word(rest)?;
        let rest = mark(rest, b',')?;
        let (port, rest) = cell_port(rest)?;
        let rest = mark(rest, b',')?;
        let (function, rest) = keyword(rest, &FUNCTIONS)?;
        let rest = mark(rest, b',')?;
        let (_safe, rest) = keyword(rest, &SAFE)?;
        let (control, rest) = cell_control(rest)?;
        let rest = mark(rest, b')')?;
        let row = CellRow {
            number,
            port,
            function,
            control,
        };
        Ok((row, rest))
    }
}

/// The port of a cell, or none where `*` stands.
fn cell_port<'a>(lexer: Lexer<'a>) -> Result<(Option<PortName<'a>>, Lexer<'a>), Stop>
    ensures gives { Gives (option_map view.port_name) result (spec.cell_port (left lexer.entry)) }
    ensures shorter { IfOk result (λ p. length (left p.1) < length (left lexer.entry)) }
    ensures misfit { StopsAtMisfit result }
{
    let Some((token, rest)) = lexer.next() else {
        return Err(Stop::Misfit(None));
    };
    if is_star(token) {
        return Ok((None, rest));
    }
    match token.kind {
        Kind::Word => {
            let name = Word {
                text: token.text,
                start: token.start,
            };
            let (index, rest) = port_index(rest)?;
            Ok((Some(PortName { name, index }), rest))
        }
        _ => Err(Stop::Misfit(Some(token.start))),
    }
}

fn is_star(token: Token<'_>) -> bool
    ensures { result ≡ is_mark_of 42 (lexeme token.entry) }
{
    token.text == [b'*'].as_slice()
}

/// The index of a port, where one stands between brackets.
fn port_index<'a>(lexer: Lexer<'a>) -> Result<(Option<Digits<'a>>, Lexer<'a>), Stop>
    ensures gives { Gives (option_map number_view.value) result (spec.port_index (left lexer.entry)) }
    ensures no_longer { IfOk result (λ p. length (left p.1) ≤ length (left lexer.entry)) }
    ensures misfit { StopsAtMisfit result }
{
    if !stands(lexer, b'(') {
        return Ok((None, lexer));
    }
    let rest = mark(lexer, b'(')?;
    let (index, rest) = number(rest)?;
    let rest = mark(rest, b')')?;
    Ok((Some(index), rest))
}

/// The control of a cell, where one stands behind a comma.
fn cell_control<'a>(lexer: Lexer<'a>) -> Result<(Option<Controlling<'a>>, Lexer<'a>), Stop>
    ensures gives { Gives (option_map view.control) result (spec.cell_control (left lexer.entry)) }
    ensures no_longer { IfOk result (λ p. length (left p.1) ≤ length (left lexer.entry)) }
    ensures misfit { StopsAtMisfit result }
{
    if !stands(lexer, b',') {
        return Ok((None, lexer));
    }
    let rest = mark(lexer, b',')?;
    let (found, rest) = control(rest)?;
    Ok((Some(found), rest))
}

fn control<'a>(lexer: Lexer<'a>) -> Result<(Controlling<'a>, Lexer<'a>), Stop>
    ensures gives { Gives view.control result (spec.control (left lexer.entry)) }
    ensures shorter { IfOk result (λ p. length (left p.1) < length (left lexer.entry)) }
    ensures misfit { StopsAtMisfit result }
{
    let (cell, rest) = number(lexer)?;
    let rest = mark(rest, b',')?;
    let (disabling, rest) = keyword(rest, &BITS)?;
    let rest = mark(rest, b',')?;
    let (leaves, rest) = keyword(rest, &DISABLED)?;
    let found = Controlling {
        cell,
        disabling,
        leaves,
    };
    Ok((found, rest))
}
