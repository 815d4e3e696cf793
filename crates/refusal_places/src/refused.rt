//! The second line of a refusal.
ghost use Rattle.std.specs.Prelude.{◌≡◌, ◌++◌, codes, drop, IfOk};
ghost use Rattle.byte_streams.specs.Writes.{WritesAll};
ghost use Rattle.output_words.specs.Lines.{position_words};
ghost use Rattle.output_words.specs.Names.{shown};
ghost use Rattle.refusal_places.specs.Places as places;

use crate::quoted_places::{size_place, unfit_place};
use crate::text_positions::{position_of, statement_position};
use crate::token_faults::token_at_fault;
use board_tables::{BoardFault, BoardTable};
use bsdl::{Attribute, BsdlFault};
use bsdl_sizes::Refused;
use bsdl_text::Lexer;
use byte_streams::{Broken, Counted, Sink, put_all, put_pieces};
use itoa::Buffer;
use output_words::{Position, write_position, write_position_line, write_shown};
use std::alloc::{AllocError, Global};
use svf_words::{Code, SvfFault};

/// Writes where a refusal of SVF text lies, `at line 3 column 1`: a byte that begins nothing and a statement that is
/// not closed at their places, any other at the token at fault, and where its statement starts if no one token is.
/// Nothing where the text is too long or memory ran out.
///
/// `Broken` comes exactly where the writer's first failure came in this call.
pub fn refused_text<E: Sink>(
    text: &[u8],
    fault: SvfFault,
    err: &mut Counted<E>,
) -> Result<(), Broken>
    requires { err.old.failures ≡ 0 }
    ensures { WritesAll E.contents err.old err.new (places.svf_line text.now fault) result }
{
    match svf_position(text, fault) {
        Some(position) => write_position_line(position, err),
        None => put_all(err, b""),
    }
}

/// Where a refusal of SVF text lies.
fn svf_position(text: &[u8], fault: SvfFault) -> Option<Position>
    ensures { result ≡ places.svf_position text.now fault }
{
    match fault.code {
        Code::BadByte(place) | Code::Unclosed(place) => Some(position_of(text, place)),
        _ => match token_at_fault(text, fault) {
            Some(start) => Some(position_of(text, start)),
            None => statement_position(text, fault.statement),
        },
    }
}

/// Where in a description its refusal lies: at a bad byte, at the token at fault, within quotes too, or at the word
/// that tells what is too long or too short. None for a refusal that no one place has. Refuses for want of memory
/// alone, and takes some in proportion to the text.
pub fn place_in_description(
    alloc: Global,
    text: &[u8],
    fault: &BsdlFault,
) -> Result<Option<usize>, AllocError>
    ensures { IfOk result (λ place. place ≡ places.bsdl_place text.now fault.now) }
{
    match fault {
        BsdlFault::BadToken(place) => Ok(Some(*place)),
        BsdlFault::BadForm(place) => Ok(Some(unfit_place(alloc, text, *place)?)),
        BsdlFault::BadLength => size_place(alloc, text, Refused::BadLength),
        BsdlFault::TooLarge => size_place(alloc, text, Refused::TooLarge),
        _ => Ok(None),
    }
}

/// Writes of a refused description its file, and where in its text the refusal lies (as `place_in_description` found
/// it) or which name or cell it speaks of: `in k.bsd at line 3 column 1`, `in k.bsd at line 12 column 5 name EXTEST`,
/// `in k.bsd name BOUNDARY_LENGTH`, `in k.bsd cell 3`.
///
/// `Broken` comes exactly where the writer's first failure came in this call.
pub fn refused_description<E: Sink>(
    file: &str,
    text: &[u8],
    fault: &BsdlFault,
    place: Option<usize>,
    err: &mut Counted<E>,
) -> Result<(), Broken>
    requires whole { err.old.failures ≡ 0 }
    requires found { place ≡ places.bsdl_place text.now fault.now }
    ensures { WritesAll E.contents err.old err.new (places.bsdl_line file.now text.now fault.now) result }
{
    put_all(err, b"in ")?;
    write_shown(file, err)?;
    write_bsdl_words(text, fault, place, err)?;
    put_all(err, b"\n")
}

/// Writes what a refusal of a description says beside its number.
fn write_bsdl_words<E: Sink>(
    text: &[u8],
    fault: &BsdlFault,
    place: Option<usize>,
    err: &mut Counted<E>,
) -> Result<(), Broken>
    requires whole { err.old.failures ≡ 0 }
    requires found { place ≡ places.bsdl_place text.now fault.now }
    ensures { WritesAll E.contents err.old err.new (places.bsdl_words text.now fault.now) result }
{
    match place {
        Some(place) => write_place(text, fault, place, position_of(text, place), err),
        None => write_named(fault, err),
    }
}

/// Writes the position of a place of a description behind a blank, and the word that stands there where it tells what
/// is too long or too short.
fn write_place<E: Sink>(
    text: &[u8],
    fault: &BsdlFault,
    place: usize,
    position: Position,
    err: &mut Counted<E>,
) -> Result<(), Broken>
    requires { err.old.failures ≡ 0 }
    ensures { WritesAll E.contents err.old err.new ((codes " " ++ position_words position)
        ++ places.word_told text.now place fault.now) result }
{
    write_spaced_position(position, err)?;
    write_word_told(text, fault, place, err)
}

/// Writes the word that stands at a place, where it tells what is too long or too short.
fn write_word_told<E: Sink>(
    text: &[u8],
    fault: &BsdlFault,
    place: usize,
    err: &mut Counted<E>,
) -> Result<(), Broken>
    requires { err.old.failures ≡ 0 }
    ensures { WritesAll E.contents err.old err.new (places.word_told text.now place fault.now) result }
{
    match fault {
        BsdlFault::BadLength => put_pieces(err, &[b" name ", word_at(text, place)]),
        BsdlFault::TooLarge => put_pieces(err, &[b" name ", word_at(text, place)]),
        _ => put_all(err, b""),
    }
}

/// The word that stands at a place.
fn word_at(text: &[u8], place: usize) -> &[u8]
    ensures { result.now ≡ places.word_at text.now place }
{
    match Lexer::within_quotes(behind(text, place)).next() {
        Some((token, _)) => token.text,
        None => &[],
    }
}

/// What stands from a place on.
fn behind(text: &[u8], place: usize) -> &[u8]
    ensures { result.now ≡ drop place text.now }
{
    if place < text.len() {
        &text[place..]
    } else {
        &[]
    }
}

/// Writes what a refusal of a description names, behind a blank.
fn write_named<E: Sink>(fault: &BsdlFault, err: &mut Counted<E>) -> Result<(), Broken>
    requires { err.old.failures ≡ 0 }
    ensures { WritesAll E.contents err.old err.new (places.bsdl_named fault.now) result }
{
    match fault {
        BsdlFault::Missing(attribute) => {
            put_pieces(err, &[b" name ", attribute_word(*attribute).as_bytes()])
        }
        BsdlFault::Twice(name) => write_spaced_name(name.as_str(), err),
        BsdlFault::BadCell(number) => {
            let mut digits = Buffer::new();
            put_pieces(err, &[b" cell ", digits.format(*number).as_bytes()])
        }
        _ => put_all(err, b""),
    }
}

/// Writes the words of a position, behind a blank.
fn write_spaced_position<E: Sink>(position: Position, err: &mut Counted<E>) -> Result<(), Broken>
    requires { err.old.failures ≡ 0 }
    ensures { WritesAll E.contents err.old err.new (codes " " ++ position_words position) result }
{
    put_all(err, b" ")?;
    write_position(position, err)
}

/// Writes the words of a name, behind a blank.
fn write_spaced_name<E: Sink>(name: &str, err: &mut Counted<E>) -> Result<(), Broken>
    requires { err.old.failures ≡ 0 }
    ensures { WritesAll E.contents err.old err.new
        (codes " " ++ places.name_words (shown name.now)) result }
{
    put_all(err, b" name ")?;
    write_shown(name, err)
}

/// Writes the name that a refused board file speaks of, `name U3.Q(1)`: a key, a file, a pin or the target of a string.
/// Nothing where it speaks of none, or where a description is refused, of which `refused_description` tells. Of a key
/// `refused_key` tells more, and of what is no TOML `refused_toml`.
///
/// `Broken` comes exactly where the writer's first failure came in this call.
pub fn refused_board<E: Sink>(
    fault: &BoardFault<BsdlFault>,
    err: &mut Counted<E>,
) -> Result<(), Broken>
    requires { err.old.failures ≡ 0 }
    ensures { WritesAll E.contents err.old err.new (places.board_line fault.now) result }
{
    match fault {
        BoardFault::BadField(name)
        | BoardFault::UnknownFile(name)
        | BoardFault::UnknownPin(name)
        | BoardFault::PinTwice(name)
        | BoardFault::CoreLoop(name) => write_name(name.as_str(), err),
        _ => put_all(err, b""),
    }
}

/// Writes which key of a board file is at fault (C2), by the table in which it stands: `device 3 key name`, `net 1 key
/// pull`, and `key speed` for one of the file's own.
///
/// `Broken` comes exactly where the writer's first failure came in this call.
pub fn refused_key<E: Sink>(
    table: BoardTable,
    key: &str,
    err: &mut Counted<E>,
) -> Result<(), Broken>
    requires { err.old.failures ≡ 0 }
    ensures { WritesAll E.contents err.old err.new (places.key_line table key.now) result }
{
    write_table(table, err)?;
    put_all(err, b"key ")?;
    write_shown(key, err)?;
    put_all(err, b"\n")
}

/// Writes the words of a table, and a blank: none for the file's own.
fn write_table<E: Sink>(table: BoardTable, err: &mut Counted<E>) -> Result<(), Broken>
    requires { err.old.failures ≡ 0 }
    ensures { WritesAll E.contents err.old err.new (places.table_words table) result }
{
    let mut digits = Buffer::new();
    match table {
        BoardTable::File => put_all(err, b""),
        BoardTable::Device(number) => put_pieces(
            err,
            &[b"device ", digits.format(number).as_bytes(), b" "],
        ),
        BoardTable::Net(number) => {
            put_pieces(err, &[b"net ", digits.format(number).as_bytes(), b" "])
        }
    }
}

/// Writes where a board file stops being TOML (C1), `at line 3 column 1`.
///
/// `Broken` comes exactly where the writer's first failure came in this call.
pub fn refused_toml<E: Sink>(text: &[u8], place: usize, err: &mut Counted<E>) -> Result<(), Broken>
    requires { err.old.failures ≡ 0 }
    ensures { WritesAll E.contents err.old err.new (places.toml_line text.now place) result }
{
    write_position_line(position_of(text, place), err)
}

/// Writes the line of a name.
fn write_name<E: Sink>(name: &str, err: &mut Counted<E>) -> Result<(), Broken>
    requires { err.old.failures ≡ 0 }
    ensures { WritesAll E.contents err.old err.new (places.name_line name.now) result }
{
    put_all(err, b"name ")?;
    write_shown(name, err)?;
    put_all(err, b"\n")
}

/// An attribute as descriptions name it.
fn attribute_word(attribute: Attribute) -> &'static str
    ensures { result.now ≡ places.attribute_word attribute }
{
    match attribute {
        Attribute::TapScanIn => "TAP_SCAN_IN",
        Attribute::TapScanOut => "TAP_SCAN_OUT",
        Attribute::TapScanMode => "TAP_SCAN_MODE",
        Attribute::TapScanClock => "TAP_SCAN_CLOCK",
        Attribute::TapScanReset => "TAP_SCAN_RESET",
        Attribute::InstructionLength => "INSTRUCTION_LENGTH",
        Attribute::BoundaryLength => "BOUNDARY_LENGTH",
        Attribute::InstructionOpcode => "INSTRUCTION_OPCODE",
        Attribute::InstructionCapture => "INSTRUCTION_CAPTURE",
        Attribute::BoundaryRegister => "BOUNDARY_REGISTER",
        Attribute::IdcodeRegister => "IDCODE_REGISTER",
        Attribute::UsercodeRegister => "USERCODE_REGISTER",
        Attribute::InstructionPrivate => "INSTRUCTION_PRIVATE",
        Attribute::RegisterAccess => "REGISTER_ACCESS",
    }
}
