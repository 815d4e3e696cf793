//! Instructions: their opcodes, private names, and the registers that they select.
ghost use Rattle.std.specs.Prelude.{◌≡◌, ◌<◌, ◌≤◌, length, option_map, IfErr, IfOk};
ghost use Rattle.bsdl_text.specs.Left.{left};
ghost use Rattle.bsdl_text.specs.WordView.{word_lexeme};
ghost use Rattle.bsdl_text.specs.NumberView as number_view;
ghost use Rattle.bsdl_text.specs.View.{Gives, StopsAtMisfit};
ghost use Rattle.bsdl_values.specs.InstructionValues as spec;
ghost use Rattle.bsdl_device.specs.Device as device;
ghost use Rattle.bsdl_values.specs.InstructionView as view;

use crate::instructions::pattern_lists::{Patterns, bracketed_patterns};
use crate::instructions::patterns::{WrittenPattern, bracketed, digits_of};
use bsdl_text::{Digits, Entry, Lexer, Stop, Word, mark, number, same_name, stands, word};
use std::alloc::Global;

/// A row of the opcodes: `name (pattern {, pattern})`.
#[derive(Debug, Drop)]
pub struct OpcodeRow<'a> {
    pub name: Word<'a>,
    pub patterns: Patterns,
}

impl<'a> Entry<'a> for OpcodeRow<'a> {
    ghost Seen = { spec.OpcodeRow };

    ghost seen = { view.opcode_row };

    ghost says = { spec.opcode_row };

    fn read(alloc: Global, lexer: Lexer<'a>) -> Result<(OpcodeRow<'a>, Lexer<'a>), Stop> {
        let (name, rest) = word(lexer)?;
        let (patterns, rest) = bracketed_patterns(alloc, rest)?;
        Ok((OpcodeRow { name, patterns }, rest))
    }
}

/// The name of a private instruction.
#[derive(Debug, Drop, Clone, Copy)]
pub struct PrivateName<'a> {
    pub name: Word<'a>,
}

impl<'a> Entry<'a> for PrivateName<'a> {
    ghost Seen = { device.Name };

    ghost seen = { view.private_name };

    ghost says = { spec.private_name };

    fn read(_alloc: Global, lexer: Lexer<'a>) -> Result<(PrivateName<'a>, Lexer<'a>), Stop> {
        let (name, rest) = word(lexer)?;
        Ok((PrivateName { name }, rest))
    }
}

/// An instruction of a register, and what the register captures for it: in a box, since most say nothing of it.
#[derive(Debug, Drop)]
pub struct Instr<'a> {
    pub name: Word<'a>,
    pub captures: Option<Box<WrittenPattern>>,
}

impl<'a> Entry<'a> for Instr<'a> {
    ghost Seen = { spec.Instr };

    ghost seen = { view.instr };

    ghost says = { spec.instr };

    fn read(alloc: Global, lexer: Lexer<'a>) -> Result<(Instr<'a>, Lexer<'a>), Stop> {
        let (name, rest) = word(lexer)?;
        match rest.next() {
            Some((token, after)) if same_name(token.text, b"CAPTURES") => {
                let (found, behind) = digits_of(alloc, after)?;
                let captures = Some(boxed(alloc, found)?);
                Ok((Instr { name, captures }, behind))
            }
            _ => Ok((
                Instr {
                    name,
                    captures: None,
                },
                rest,
            )),
        }
    }
}

fn boxed(alloc: Global, pattern: WrittenPattern) -> Result<Box<WrittenPattern>, Stop>
    ensures boxed { IfOk result (λ b. b.value ≡ pattern) }
    ensures stops { IfErr result (λ e. e ≡ Stop.Memory) }
{
    match Box::new(alloc, pattern) {
        Ok(boxed) => Ok(boxed),
        Err(_) => Err(Stop::Memory),
    }
}

/// A row of registers: `register (instr {, instr})`.
#[derive(Debug, Drop)]
pub struct AccessRow<'a> {
    pub register: Word<'a>,
    pub len: Option<Digits<'a>>,
    pub instrs: Vec<Instr<'a>>,
}

impl<'a> Entry<'a> for AccessRow<'a> {
    ghost Seen = { spec.AccessRow };

    ghost seen = { view.access_row };

    ghost says = { spec.access_row };

    fn read(alloc: Global, lexer: Lexer<'a>) -> Result<(AccessRow<'a>, Lexer<'a>), Stop> {
        let (register, rest) = word(lexer)?;
        let (len, rest) = register_len(register, rest)?;
        let (instrs, rest) = bracketed(alloc, rest)?;
        let row = AccessRow {
            register,
            len,
            instrs,
        };
        Ok((row, rest))
    }
}

/// The length of a register of the device's own, which only a public register goes without.
fn register_len<'a>(
    name: Word<'a>,
    lexer: Lexer<'a>,
) -> Result<(Option<Digits<'a>>, Lexer<'a>), Stop>
    ensures gives { Gives (option_map number_view.value) result
        (spec.register_len (word_lexeme name.entry) (left lexer.entry)) }
    ensures no_longer { IfOk result (λ p. length (left p.1) ≤ length (left lexer.entry)) }
    ensures misfit { StopsAtMisfit result }
{
    if stands(lexer, b'[') {
        let rest = mark(lexer, b'[')?;
        let (len, rest) = number(rest)?;
        let rest = mark(rest, b']')?;
        return Ok((Some(len), rest));
    }
    if is_public(name.text) {
        return Ok((None, lexer));
    }
    match lexer.next() {
        Some((token, _)) => Err(Stop::Misfit(Some(token.start))),
        None => Err(Stop::Misfit(None)),
    }
}

fn is_public(name: &[u8]) -> bool
    ensures { result ≡ spec.is_public name.now }
{
    same_name(name, b"BOUNDARY") || same_name(name, b"BYPASS") || same_name(name, b"DEVICE_ID")
}
