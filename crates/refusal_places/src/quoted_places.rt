//! The token at fault in a text within the quotes of a description.
ghost use Rattle.std.specs.Prelude.{◌≡◌, true, false, min, drop, option_map, List, None, IfOk};
ghost use Rattle.bsdl_text.specs.Cutting.{Lexeme, cuts_of, tokens};
ghost use Rattle.bsdl_text.specs.Left.{left};
ghost use Rattle.bsdl_values.specs.declared.values.Language as declared_language;
ghost use Rattle.bsdl_values.specs.InstructionValues as rows;
ghost use Rattle.refusal_places.specs.Places as places;
ghost use Rattle.refusal_places.specs.QuotedPlaces as spec;

use bsdl_sizes::{Refused, Spot, spot_at_fault};
use bsdl_text::{
    Entry, Kind, Lexer, Stop, bad_byte, joined_text, listed, same_name, stands, stands_for,
};
use bsdl_values::{AccessRow, CellRow, Language, OpcodeRow, Patterns, PrivateName, WrittenPattern};
use std::alloc::{AllocError, Global};

/// What the texts of attributes are written in.
const LANGUAGES: [(&[u8], Language); 7] = [
    (b"INSTRUCTION_OPCODE", Language::Opcodes),
    (b"INSTRUCTION_CAPTURE", Language::Capture),
    (b"BOUNDARY_REGISTER", Language::Cells),
    (b"IDCODE_REGISTER", Language::Codes),
    (b"USERCODE_REGISTER", Language::Codes),
    (b"INSTRUCTION_PRIVATE", Language::PrivateNames),
    (b"REGISTER_ACCESS", Language::Accesses),
];

/// The place of the token at fault of a description whose first token that does not fit (B2) is told to stand there:
/// of a text within quotes that of the token in it, and of the quote that closes it where it ends too early; any other
/// place as it is. Refuses for want of memory alone, and takes some in proportion to the text within quotes.
pub(crate) fn unfit_place(alloc: Global, text: &[u8], place: usize) -> Result<usize, AllocError>
    ensures { IfOk result (λ p. p ≡ spec.unfit_place text.now place) }
{
    let Some((language, value)) = quoted_at(text, place) else {
        return Ok(place);
    };
    match joined_text(alloc, value) {
        Ok((joined, _)) => match unfit_in(alloc, language, &joined)? {
            Some(offset) => Ok(place_in(text.len(), value, offset)),
            None => Ok(place),
        },
        Err(Stop::Misfit(_)) => Ok(place),
        Err(Stop::Memory) => Err(AllocError),
    }
}

/// The place of the word that tells what is too long or too short in a refused description. Refuses for want of memory
/// alone, and takes some in proportion to the text.
pub(crate) fn size_place(
    alloc: Global,
    text: &[u8],
    refused: Refused,
) -> Result<Option<usize>, AllocError>
    ensures { IfOk result (λ place. place ≡ places.size_place refused text.now) }
{
    match spot_at_fault(alloc, text, refused)? {
        Some(spot) => Ok(Some(spot_place(text, spot))),
        None => Ok(None),
    }
}

/// The place of a spot.
fn spot_place(text: &[u8], spot: Spot) -> usize
    ensures { result ≡ spec.spot_place text.now spot }
{
    match spot {
        Spot::Outside(start) => start,
        Spot::Inside(quote, offset) => match quoted_at(text, quote) {
            Some((_, strings)) => place_in(text.len(), strings, offset),
            None => quote,
        },
    }
}

/// The text whose first quote stands there, as the value of an attribute: its language, and the tokens from that quote
/// on.
fn quoted_at(text: &[u8], place: usize) -> Option<(Language, Lexer<'_>)>
    ensures { option_map {U = declared_language.Language × List Lexeme} (λ p. (p.0, left p.1)) result
        ≡ spec.quoted_at place (tokens (cuts_of false text.now)) }
{
    let mut rest = Lexer::new(text);
    'tokens: while let Some((token, after)) = rest.next() {
        if same_name(token.text, b"ATTRIBUTE") {
            let value = behind(behind(behind(behind(behind(behind(after))))));
            if starts_at(value, place) {
                return match language_of(after) {
                    Some(language) => Some((language, value)),
                    None => None,
                };
            }
        }
        rest = after;
    }
    None
}

/// The lexer behind the next token, if there is one.
fn behind<'a>(lexer: Lexer<'a>) -> Lexer<'a>
    ensures { left result ≡ drop 1 (left lexer.entry) }
{
    match lexer.next() {
        Some((_, after)) => after,
        None => lexer,
    }
}

/// Whether the next token stands at this place.
fn starts_at(lexer: Lexer<'_>, place: usize) -> bool
    ensures { result ≡ spec.starts_at place (left lexer.entry) }
{
    match lexer.next() {
        Some((token, _)) => token.start == place,
        None => false,
    }
}

/// What the text of the attribute is written in whose name stands next.
fn language_of(lexer: Lexer<'_>) -> Option<Language>
    ensures { result ≡ spec.language_of (spec.first_text (left lexer.entry)) }
{
    match lexer.next() {
        Some((token, _)) => stands_for(&LANGUAGES, token.text),
        None => stands_for(&LANGUAGES, b""),
    }
}

/// The offset of the token at fault in a text within quotes: a bad byte, the first token that does not fit, one behind
/// what is said, or the end.
fn unfit_in(alloc: Global, language: Language, text: &[u8]) -> Result<Option<usize>, AllocError>
    ensures { IfOk result (λ o. o ≡ spec.unfit_in language text.now) }
{
    if let Some(place) = bad_byte(text, true) {
        return Ok(Some(place));
    }
    match language {
        Language::Opcodes => unfit_row::<OpcodeRow>(alloc, text),
        Language::Capture => unfit_entry::<WrittenPattern>(alloc, text),
        Language::Cells => unfit_row::<CellRow>(alloc, text),
        Language::Codes => unfit_entry::<Patterns>(alloc, text),
        Language::PrivateNames => unfit_row::<PrivateName>(alloc, text),
        Language::Accesses => unfit_row::<AccessRow>(alloc, text),
    }
}

/// The same of a text of rows without a bad byte.
fn unfit_row<'a, E: Entry<'a>>(alloc: Global, text: &'a [u8]) -> Result<Option<usize>, AllocError>
    ensures { IfOk result (λ o. o ≡ spec.unfit text.now None (rows.rows E.says (tokens (cuts_of true text.now)))) }
{
    match listed::<E>(alloc, Lexer::within_quotes(text), b',', None) {
        Ok((_, rest)) => Ok(next_start(rest)),
        Err(Stop::Misfit(Some(place))) => Ok(Some(place)),
        Err(Stop::Misfit(None)) => Ok(Some(text.len())),
        Err(Stop::Memory) => Err(AllocError),
    }
}

/// The same of one entry.
fn unfit_entry<'a, E: Entry<'a>>(alloc: Global, text: &'a [u8]) -> Result<Option<usize>, AllocError>
    ensures { IfOk result (λ o. o ≡ spec.unfit text.now None (E.says (tokens (cuts_of true text.now)))) }
{
    match E::read(alloc, Lexer::within_quotes(text)) {
        Ok((_, rest)) => Ok(next_start(rest)),
        Err(Stop::Misfit(Some(place))) => Ok(Some(place)),
        Err(Stop::Misfit(None)) => Ok(Some(text.len())),
        Err(Stop::Memory) => Err(AllocError),
    }
}

/// Where the next token stands, if there is one.
fn next_start(lexer: Lexer<'_>) -> Option<usize>
    ensures { result ≡ spec.next_start (left lexer.entry) }
{
    match lexer.next() {
        Some((token, _)) => Some(token.start),
        None => None,
    }
}

/// Where an offset of the strings that stand next lies, in a file of this length: within the string that has it, or at
/// the quote that closes the last.
fn place_in(len: usize, strings: Lexer<'_>, offset: usize) -> usize
    ensures { result ≡ min len (spec.place_in offset (left strings.entry)) }
{
    let mut rest = strings;
    let mut within = offset;
    'strings: while let Some((token, after)) = rest.next() {
        if let Kind::Text = token.kind {
            let inner = token.text.len().saturating_sub(2);
            if within < inner || !stands(after, b'&') {
                return token
                    .start
                    .saturating_add(1)
                    .saturating_add(within.min(inner))
                    .min(len);
            }
            within -= inner;
        }
        rest = after;
    }
    0
}
