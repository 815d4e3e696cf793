//! The attributes of an entity.
ghost use Rattle.std.specs.Prelude.{◌≡◌, ◌<◌, ◌≤◌, ◌||◌, length, map, drop, codes, option_map, is_some, IfOk, IfSome};
ghost use Rattle.bsdl_values.specs.InstructionValues.{begins};
ghost use Rattle.bsdl_text.specs.Left.{left};
ghost use Rattle.bsdl_text.specs.View.{Gives};
ghost use Rattle.bsdl_text.specs.WordView.{word_lexeme};
ghost use Rattle.bsdl_entity.specs.Attributes.{attribute_of};
ghost use Rattle.bsdl_text.specs.Words.{upper};
ghost use Rattle.bsdl_values.specs.View.{Writes, unsaid, written};
ghost use Rattle.bsdl_entity.specs.Entity as spec;
ghost use Rattle.bsdl_entity.specs.GivenView as given_view;
ghost use Rattle.bsdl_entity.specs.Scalars.{is_scalar};
ghost use Rattle.bsdl_entity.specs.PortsView.{ports};

use crate::asking::Scalars;
use crate::keywords::{ATTRIBUTE, ATTRIBUTES, IS, OF};
use crate::ports::Group;
use crate::stops::{behind_given, behind_value};
use bsdl_text::{Lexer, Stop, Word, keyword, mark, same_name, stands_for, word};
use bsdl_values::{Attribute, Written, past_semi, read_value};
use std::alloc::Global;

/// An attribute, and what it is given as.
#[derive(Debug, Drop)]
pub struct Given<'a> {
    pub name: Word<'a>,
    pub attribute: Attribute,
    pub value: Written<'a>,
}

/// Whether an attribute is of a port of the TAP.
fn is_of_tap(attribute: Attribute) -> bool
    ensures { result ≡ spec.is_tap attribute }
{
    matches!(
        attribute,
        Attribute::TapScanIn
            | Attribute::TapScanOut
            | Attribute::TapScanMode
            | Attribute::TapScanClock
            | Attribute::TapScanReset
    )
}

/// What an attribute is of: any word, for the TAP's a declared port of one bit.
fn owner<'a>(
    alloc: Global,
    scalars: &Scalars<'_, '_>,
    attribute: Attribute,
    lexer: Lexer<'a>,
) -> Result<(Word<'a>, Lexer<'a>), Stop>
    ensures gives { Gives word_lexeme result
        (spec.owner (is_scalar (ports scalars.now.groups.now)) attribute (left lexer.entry)) }
    ensures shorter { IfOk result (λ p. length (left p.1) < length (left lexer.entry)) }
{
    let (name, rest) = word(lexer)?;
    if !is_of_tap(attribute) {
        return Ok((name, rest));
    }
    match scalars.is_scalar(alloc, name) {
        Ok(true) => Ok((name, rest)),
        Ok(false) => Err(Stop::Misfit(Some(name.start))),
        Err(_) => Err(Stop::Memory),
    }
}

/// `of name : word`, its name that of what an attribute is of.
fn owner_clause<'a>(
    alloc: Global,
    scalars: &Scalars<'_, '_>,
    attribute: Attribute,
    lexer: Lexer<'a>,
) -> Result<(Word<'a>, Lexer<'a>), Stop>
    ensures gives { Gives word_lexeme result
        (spec.owner_clause (is_scalar (ports scalars.now.groups.now)) attribute (left lexer.entry)) }
    ensures shorter { IfOk result (λ p. length (left p.1) < length (left lexer.entry)) }
{
    let (_of, rest) = keyword(lexer, &OF)?;
    let (owner, rest) = owner(alloc, scalars, attribute, rest)?;
    let rest = mark(rest, b':')?;
    let (_class, rest) = word(rest)?;
    Ok((owner, rest))
}

/// What stands behind an attribute's name: `of name : word is value ;`.
fn attribute_form<'a>(
    alloc: Global,
    scalars: &Scalars<'_, '_>,
    name: Word<'a>,
    attribute: Attribute,
    lexer: Lexer<'a>,
) -> Result<(Option<Given<'a>>, Lexer<'a>), Stop>
    ensures writes { Writes given_view.unsaid (option_map given_view.given) result
        (spec.attribute_form (is_scalar (ports scalars.now.groups.now)) (word_lexeme name.entry) attribute
        (left lexer.entry)) }
    ensures shorter { IfOk result (λ p. length (left p.1) < length (left lexer.entry)) }
{
    let (owner, rest) = owner_clause(alloc, scalars, attribute, lexer)?;
    let (value, rest) = value_behind(alloc, attribute, owner, rest)?;
    match mark(rest, b';') {
        Ok(rest) => Ok((said(name, attribute, value), rest)),
        Err(stop) => Err(behind_value(alloc, &value, stop)),
    }
}

/// `is` and a value.
fn value_behind<'a>(
    alloc: Global,
    attribute: Attribute,
    owner: Word<'a>,
    lexer: Lexer<'a>,
) -> Result<(Written<'a>, Lexer<'a>), Stop>
    ensures writes { Writes unsaid written result (spec.value_behind attribute (upper owner.entry.text.now)
        (left lexer.entry)) }
    ensures shorter { IfOk result (λ p. length (left p.1) < length (left lexer.entry)) }
{
    let (_is, rest) = keyword(lexer, &IS)?;
    read_value(alloc, attribute, owner, rest)
}

/// An attribute that says something.
fn said<'a>(name: Word<'a>, attribute: Attribute, value: Written<'a>) -> Option<Given<'a>>
    ensures given { option_map given_view.given result ≡ spec.with_value
        (given_view.given (record { name = name.entry; attribute = attribute; value = value.entry }))
        (written value.entry) }
    ensures unsaid { given_view.unsaid result ≡ unsaid value.entry }
{
    match value {
        Written::Absent => None,
        value => Some(Given {
            name,
            attribute,
            value,
        }),
    }
}

/// An attribute behind its name; one of another name is passed over. One of the TAP asks for the name of a port.
fn attribute<'a>(
    alloc: Global,
    scalars: &mut Scalars<'_, '_>,
    name: Word<'a>,
    lexer: Lexer<'a>,
) -> Result<(Option<Given<'a>>, Lexer<'a>), Stop>
    ensures writes { Writes given_view.unsaid (option_map given_view.given) result
        (spec.attribute (is_scalar (ports scalars.old.groups.now)) (word_lexeme name.entry)
        (attribute_of name.entry.text.now) (left lexer.entry)) }
    ensures shorter { IfOk result (λ p. length (left p.1) < length (left lexer.entry)) }
    ensures groups { scalars.new.groups.now ≡ scalars.old.groups.now }
{
    match named(name.text) {
        Some(attribute) => {
            if is_of_tap(attribute) && scalars.expect_one(alloc).is_err() {
                return Err(Stop::Memory);
            }
            attribute_form(alloc, scalars, name, attribute, lexer)
        }
        None => {
            let rest = past_semi(lexer)?;
            Ok((None, rest))
        }
    }
}

#[tactic(auto, unfolding(crate::specs::Attributes::attribute_of))]
fn named(word: &[u8]) -> Option<Attribute>
    ensures { result ≡ attribute_of word.now }
{
    stands_for(&ATTRIBUTES, word)
}

/// What an attribute says, where it says something: `attribute name tokens ;`.
fn attribute_item<'a>(
    alloc: Global,
    scalars: &mut Scalars<'_, '_>,
    lexer: Lexer<'a>,
) -> Result<(Option<Given<'a>>, Lexer<'a>), Stop>
    ensures writes { Writes given_view.unsaid (option_map given_view.given) result
        (spec.attribute_item (is_scalar (ports scalars.old.groups.now)) (left lexer.entry)) }
    ensures shorter { IfOk result (λ p. length (left p.1) < length (left lexer.entry)) }
    ensures groups { scalars.new.groups.now ≡ scalars.old.groups.now }
{
    let (_attribute, rest) = keyword(lexer, &ATTRIBUTE)?;
    let (name, rest) = word(rest)?;
    attribute(alloc, scalars, name, rest)
}

/// What an item says, where it says something: an attribute does, `use tokens ;` and `constant tokens ;` do not.
fn item<'a>(
    alloc: Global,
    scalars: &mut Scalars<'_, '_>,
    lexer: Lexer<'a>,
) -> Result<(Option<Given<'a>>, Lexer<'a>), Stop>
    ensures writes { Writes given_view.unsaid (option_map given_view.given) result
        (spec.item (is_scalar (ports scalars.old.groups.now)) (left lexer.entry)) }
    ensures shorter { IfOk result (λ p. length (left p.1) < length (left lexer.entry)) }
    ensures groups { scalars.new.groups.now ≡ scalars.old.groups.now }
{
    match behind_unread(lexer) {
        Some(behind) => {
            let rest = past_semi(behind)?;
            Ok((None, rest))
        }
        None => attribute_item(alloc, scalars, lexer),
    }
}

/// The lexer behind `use` or `constant`, where one of them stands next: what it says is passed over.
fn behind_unread<'a>(lexer: Lexer<'a>) -> Option<Lexer<'a>>
    ensures begins { is_some result
        ≡ (begins (codes "USE") (left lexer.entry) || begins (codes "CONSTANT") (left lexer.entry)) }
    ensures behind { IfSome result (λ l. left l ≡ drop 1 (left lexer.entry)) }
    ensures shorter { IfSome result (λ l. length (left l) < length (left lexer.entry)) }
{
    match behind_word(lexer, b"USE") {
        Some(behind) => Some(behind),
        None => behind_word(lexer, b"CONSTANT"),
    }
}

/// The lexer behind this word, where it stands next.
pub(crate) fn behind_word<'a>(lexer: Lexer<'a>, text: &[u8]) -> Option<Lexer<'a>>
    ensures begins { is_some result ≡ begins text.now (left lexer.entry) }
    ensures behind { IfSome result (λ l. left l ≡ drop 1 (left lexer.entry)) }
    ensures shorter { IfSome result (λ l. length (left l) < length (left lexer.entry)) }
{
    match lexer.next() {
        Some((token, rest)) if same_name(token.text, text) => Some(rest),
        _ => None,
    }
}

/// What the items up to `end` say, of an entity with these ports.
pub(crate) fn items<'a>(
    alloc: Global,
    groups: &[Group<'a>],
    lexer: Lexer<'a>,
) -> Result<(Vec<Given<'a>>, Lexer<'a>), Stop>
    ensures writes { Writes (λ v. given_view.first_unsaid v.items) (λ v. map given_view.given v.items) result
        (spec.items (is_scalar (ports groups.now)) (length (left lexer.entry)) (left lexer.entry)) }
    ensures no_longer { IfOk result (λ p. length (left p.1) ≤ length (left lexer.entry)) }
{
    let mut all = Vec::new(alloc);
    let mut scalars = Scalars::of(groups);
    let mut rest = lexer;
    'items: loop {
        if behind_word(rest, b"END").is_some() {
            return Ok((all, rest));
        }
        let (found, more) = match item(alloc, &mut scalars, rest) {
            Ok(read) => read,
            Err(stop) => return Err(behind_given(alloc, &all, stop)),
        };
        rest = more;
        if let Some(given) = found {
            match all.push(given) {
                Ok(()) => {}
                Err(_) => return Err(Stop::Memory),
            }
        }
    }
}
