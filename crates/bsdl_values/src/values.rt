//! What attributes say.
ghost use Rattle.std.specs.Prelude.{◌≡◌, ◌<◌, length, map, option_map, IfOk};
ghost use Rattle.bsdl_text.specs.Left.{left};
ghost use Rattle.bsdl_text.specs.Reading.{quoted_value};
ghost use Rattle.bsdl_text.specs.View.{StopsAtMisfit};
ghost use Rattle.bsdl_text.specs.Words.{upper};
ghost use Rattle.bsdl_values.specs.InstructionValues as rows;
ghost use Rattle.bsdl_values.specs.Values as spec;
ghost use Rattle.bsdl_values.specs.View as view;

use crate::Attribute;
use crate::cells::CellRow;
use crate::instructions::names::{AccessRow, OpcodeRow, PrivateName};
use crate::instructions::pattern_lists::Patterns;
use crate::instructions::patterns::WrittenPattern;
use crate::keywords::TRUTHS;
use crate::passing::brackets;
use bsdl_text::{
    Digits, Entry, Lexer, Stop, Word, bad_byte, is_over, joined_text, keyword, listed, number,
};
use std::alloc::{AllocError, Global};

/// What the text of an attribute is written in.
#[derive(Debug, Clone, Copy, PartialEq, Eq)]
pub enum Language {
    /// Instructions with their opcodes, as in INSTRUCTION_OPCODE.
    Opcodes,
    /// One pattern, as in INSTRUCTION_CAPTURE.
    Capture,
    /// The rows of BOUNDARY_REGISTER.
    Cells,
    /// Patterns, as in IDCODE_REGISTER and USERCODE_REGISTER.
    Codes,
    /// Names of instructions, as in INSTRUCTION_PRIVATE.
    PrivateNames,
    /// Registers with their instructions, as in REGISTER_ACCESS.
    Accesses,
}

/// The text of a string, or of several joined by `&`.
#[derive(Debug, Drop)]
pub struct Quoted {
    pub language: Language,
    /// The place of the first quote.
    pub start: usize,
    pub text: Vec<u8>,
}

/// What an attribute is given as: a text as it is written, which may say nothing.
#[derive(Debug, Drop)]
pub enum Written<'a> {
    /// The port of the TAP that it names.
    Port(Word<'a>),
    /// `false`, as if the attribute were not given.
    Absent,
    /// A number, as in INSTRUCTION_LENGTH: how many bits or cells.
    Count(Digits<'a>),
    /// What stands within quotes.
    Text(Quoted),
}

/// What an attribute says.
#[derive(Debug, Drop)]
pub enum Value<'a> {
    /// The port of the TAP that it names.
    Port(Word<'a>),
    /// `false`, as if the attribute were not given.
    Absent,
    /// A number, as in INSTRUCTION_LENGTH: how many bits or cells.
    Count(Digits<'a>),
    /// The opcodes of instructions, and where their text begins.
    Opcodes(usize, Vec<OpcodeRow<'a>>),
    /// What the instruction register captures.
    Capture(WrittenPattern),
    /// The rows of the boundary register.
    Cells(Vec<CellRow<'a>>),
    /// Identification codes, or user codes.
    Codes(Patterns),
    /// The names of the private instructions.
    PrivateNames(Vec<PrivateName<'a>>),
    /// The registers that instructions select, and where their text begins.
    Accesses(usize, Vec<AccessRow<'a>>),
}

/// What a text within quotes says as rows: `None` where it says nothing. Refuses for want of memory alone.
fn rows_of<'a, E: Entry<'a>>(alloc: Global, text: &'a [u8]) -> Result<Option<Vec<E>>, AllocError>
    ensures { IfOk result (λ o. option_map (λ v. map E.seen v.items) o ≡ quoted_value (rows.rows E.says) text.now) }
{
    if bad_byte(text, true).is_some() {
        return Ok(None);
    }
    match listed::<E>(alloc, Lexer::within_quotes(text), b',', None) {
        Ok((found, rest)) => {
            if is_over(rest) {
                Ok(Some(found))
            } else {
                Ok(None)
            }
        }
        Err(Stop::Misfit(_)) => Ok(None),
        Err(Stop::Memory) => Err(AllocError),
    }
}

/// What a text within quotes says as one entry: `None` where it says nothing. Refuses for want of memory alone.
fn entry_of<'a, E: Entry<'a>>(alloc: Global, text: &'a [u8]) -> Result<Option<E>, AllocError>
    ensures { IfOk result (λ o. option_map E.seen o ≡ quoted_value E.says text.now) }
{
    if bad_byte(text, true).is_some() {
        return Ok(None);
    }
    match E::read(alloc, Lexer::within_quotes(text)) {
        Ok((found, rest)) => {
            if is_over(rest) {
                Ok(Some(found))
            } else {
                Ok(None)
            }
        }
        Err(Stop::Misfit(_)) => Ok(None),
        Err(Stop::Memory) => Err(AllocError),
    }
}

/// The place of the next token, or 0 where there is none.
fn place_of(lexer: Lexer<'_>) -> usize
    ensures { result ≡ spec.first_start (left lexer.entry) }
{
    match lexer.next() {
        Some((token, _)) => token.start,
        None => 0,
    }
}

/// What a text within quotes says: `None` where it says nothing. Refuses for want of memory alone.
fn text_said(alloc: Global, quoted: &Quoted) -> Result<Option<Value<'_>>, AllocError>
    ensures { IfOk result (λ found. view.TextSays found quoted.now) }
{
    let text = quoted.text.as_slice();
    match quoted.language {
        Language::Opcodes => match rows_of(alloc, text)? {
            Some(rows) => Ok(Some(Value::Opcodes(quoted.start, rows))),
            None => Ok(None),
        },
        Language::Capture => match entry_of(alloc, text)? {
            Some(pattern) => Ok(Some(Value::Capture(pattern))),
            None => Ok(None),
        },
        Language::Cells => match rows_of(alloc, text)? {
            Some(rows) => Ok(Some(Value::Cells(rows))),
            None => Ok(None),
        },
        Language::Codes => match entry_of(alloc, text)? {
            Some(patterns) => Ok(Some(Value::Codes(patterns))),
            None => Ok(None),
        },
        Language::PrivateNames => match rows_of(alloc, text)? {
            Some(names) => Ok(Some(Value::PrivateNames(names))),
            None => Ok(None),
        },
        Language::Accesses => match rows_of(alloc, text)? {
            Some(rows) => Ok(Some(Value::Accesses(quoted.start, rows))),
            None => Ok(None),
        },
    }
}

/// What a written value says, or the first quote of a text that says nothing. Refuses for want of memory alone.
pub fn said<'o, 't: 'o>(
    alloc: Global,
    written: &'o Written<'t>,
) -> Result<Result<Value<'o>, usize>, AllocError>
    ensures { IfOk result (λ found. view.Says found written.now) }
{
    match written {
        Written::Port(name) => Ok(Ok(Value::Port(*name))),
        Written::Absent => Ok(Ok(Value::Absent)),
        Written::Count(count) => Ok(Ok(Value::Count(*count))),
        Written::Text(quoted) => match text_said(alloc, quoted)? {
            Some(value) => Ok(Ok(value)),
            None => Ok(Err(quoted.start)),
        },
    }
}

/// What an attribute of this port, or of another thing of this name, is given as, and the lexer behind it (Annex B.8.9
/// to B.8.14). What texts say is not judged here ([`said`] does it).
///
/// Refuses at the first token that does not fit, or for want of memory.
pub fn read_value<'a>(
    alloc: Global,
    attribute: Attribute,
    owner: Word<'a>,
    lexer: Lexer<'a>,
) -> Result<(Written<'a>, Lexer<'a>), Stop>
    ensures writes { view.Writes view.unsaid view.written result
        (spec.value_of attribute (upper owner.entry.text.now) (left lexer.entry)) }
    ensures shorter { IfOk result (λ p. length (left p.1) < length (left lexer.entry)) }
{
    match attribute {
        Attribute::TapScanIn
        | Attribute::TapScanOut
        | Attribute::TapScanMode
        | Attribute::TapScanReset => truth(owner, lexer),
        Attribute::TapScanClock => {
            let rest = brackets(lexer)?;
            Ok((Written::Port(owner), rest))
        }
        Attribute::InstructionLength | Attribute::BoundaryLength => count(lexer),
        Attribute::InstructionOpcode => text(alloc, Language::Opcodes, lexer),
        Attribute::InstructionCapture => text(alloc, Language::Capture, lexer),
        Attribute::BoundaryRegister => text(alloc, Language::Cells, lexer),
        Attribute::IdcodeRegister | Attribute::UsercodeRegister => {
            text(alloc, Language::Codes, lexer)
        }
        Attribute::InstructionPrivate => text(alloc, Language::PrivateNames, lexer),
        Attribute::RegisterAccess => text(alloc, Language::Accesses, lexer),
    }
}

fn truth<'a>(owner: Word<'a>, lexer: Lexer<'a>) -> Result<(Written<'a>, Lexer<'a>), Stop>
    ensures writes { view.Writes view.unsaid view.written result
        (spec.truth (upper owner.entry.text.now) (left lexer.entry)) }
    ensures shorter { IfOk result (λ p. length (left p.1) < length (left lexer.entry)) }
    ensures misfit { StopsAtMisfit result }
{
    let (is_true, rest) = keyword(lexer, &TRUTHS)?;
    if is_true {
        return Ok((Written::Port(owner), rest));
    }
    Ok((Written::Absent, rest))
}

fn count<'a>(lexer: Lexer<'a>) -> Result<(Written<'a>, Lexer<'a>), Stop>
    ensures writes { view.Writes view.unsaid view.written result (spec.length_value (left lexer.entry)) }
    ensures shorter { IfOk result (λ p. length (left p.1) < length (left lexer.entry)) }
    ensures misfit { StopsAtMisfit result }
{
    let (found, rest) = number(lexer)?;
    Ok((Written::Count(found), rest))
}

fn text<'a>(
    alloc: Global,
    language: Language,
    lexer: Lexer<'a>,
) -> Result<(Written<'a>, Lexer<'a>), Stop>
    ensures writes { view.Writes view.unsaid view.written result (spec.text_in language (left lexer.entry)) }
    ensures shorter { IfOk result (λ p. length (left p.1) < length (left lexer.entry)) }
{
    let (found, rest) = read_quoted(alloc, language, lexer)?;
    Ok((Written::Text(found), rest))
}

/// A joined text as it is written, and the lexer behind it.
fn read_quoted<'a>(
    alloc: Global,
    language: Language,
    lexer: Lexer<'a>,
) -> Result<(Quoted, Lexer<'a>), Stop>
    ensures writes { view.Writes view.quoted_unsaid view.quoted result (spec.text_in language (left lexer.entry)) }
    ensures start { IfOk result (λ p. p.0.start ≡ spec.first_start (left lexer.entry)) }
    ensures shorter { IfOk result (λ p. length (left p.1) < length (left lexer.entry)) }
{
    let start = place_of(lexer);
    let (text, rest) = joined_text(alloc, lexer)?;
    let found = Quoted {
        language,
        start,
        text,
    };
    Ok((found, rest))
}
