//! Names at their places, and the first that is given again.
ghost use Rattle.std.specs.Prelude.{◌≡◌, ◌||◌, ℕ, List, Option, true, false, bytes_eq, map, not, option_map};
ghost use Rattle.std.specs.Prelude.{IfOk, OnOk};
ghost use Rattle.std.specs.BTreeMap.{get};
ghost use Rattle.std.specs.BTreeSet.{contains_by};
ghost use Rattle.bsdl_rules.specs.Positions.{begins_before, either, has_repeated, is_naming, is_named_before};
ghost use Rattle.bsdl_rules.specs.Namings as spec;
ghost use Rattle.bsdl_text.specs.Words.{upper};
ghost use Rattle.bsdl_rules.specs.NamingView.{again, named, naming};
ghost use Rattle.name_keys.specs.Keys.{key_order};

use bsdl_text::Word;
use name_keys::NameKey;
use std::alloc::{AllocError, Global};
use std::collections::{BTreeMap, BTreeSet};

/// The place of a name: that of a token of the text, or that of the first quote of a text within quotes and the byte
/// within it.
#[derive(Debug, Clone, Copy, PartialEq, Eq)]
pub struct Position {
    pub outer: usize,
    pub within: usize,
}

impl Position {
    /// Whether this place stands before another.
    fn is_before(self, other: Position) -> bool
        ensures { result ≡ spec.stands_before self other }
    {
        self.outer < other.outer || (self.outer == other.outer && self.within < other.within)
    }

    /// The earlier of two places.
    fn or_before(self, other: Position) -> Position
        ensures { (s : Position) → spec.stands_before result s ≡ spec.stands_before self s
            || spec.stands_before other s }
    {
        if other.is_before(self) { other } else { self }
    }
}

/// A name that is given at a place.
#[derive(Debug, Clone, Copy)]
struct Naming<'a> {
    pub name: Word<'a>,
    pub position: Position,
}

/// The earlier of two.
fn earlier<'a>(one: Option<Naming<'a>>, other: Option<Naming<'a>>) -> Option<Naming<'a>>
    ensures { option_map naming result ≡ either (option_map naming one.entry) (option_map naming other.entry) }
{
    match (one, other) {
        (None, found) => found,
        (found, None) => found,
        (Some(first), Some(second)) => {
            if second.position.is_before(first.position) {
                Some(second)
            } else {
                Some(first)
            }
        }
    }
}

/// A name that is given again, as it is spelt there.
#[derive(Debug, Drop)]
pub struct Again {
    pub name: String,
    pub position: Position,
}

/// The earlier of two.
pub(crate) fn earlier_again(one: Option<Again>, other: Option<Again>) -> Option<Again>
    ensures { option_map again result ≡ either (option_map again one) (option_map again other) }
{
    match (one, other) {
        (None, found) => found,
        (found, None) => found,
        (Some(first), Some(second)) => {
            if second.position.is_before(first.position) {
                Some(second)
            } else {
                Some(first)
            }
        }
    }
}

/// A word at its place: in the text itself, or in the text within quotes of which the first stands at `quote`.
fn naming_at<'a>(quote: Option<usize>, name: Word<'a>) -> Naming<'a>
    ensures { naming result ≡ spec.naming_at quote name.entry.text.now name.entry.start }
{
    let position = match quote {
        Some(outer) => Position {
            outer,
            within: name.start,
        },
        None => Position {
            outer: name.start,
            within: 0,
        },
    };
    Naming { name, position }
}

/// The first of these words that has the same name, in any case, before it, as it is spelt. They stand in the text
/// itself, or in the text within quotes of which the first stands at `quote`. Refuses for want of memory alone.
///
/// The words are lent, eight bytes each: a text of 4 MiB may have two million.
pub(crate) fn first_again(
    alloc: Global,
    quote: Option<usize>,
    names: &[&Word<'_>],
) -> Result<Option<Again>, AllocError>
    ensures { IfOk result (λ o. option_map again o ≡ spec.earliest (spec.repeated (map (named quote) names.now))) }
{
    if are_distinct(alloc, names)? {
        return Ok(None);
    }
    match first_repeat(alloc, quote, names)? {
        Some(found) => {
            let name = found.name.spelling(alloc)?;
            let position = found.position;
            Ok(Some(Again { name, position }))
        }
        None => Ok(None),
    }
}

/// Whether no two of these have the same name, in any case.
fn are_distinct(alloc: Global, names: &[&Word<'_>]) -> Result<bool, AllocError>
    ensures { IfOk result (λ b. b ≡ true → (quote : Option ℕ) → has_repeated (map (named quote) names.now) ≡ false) }
{
    let mut known = BTreeSet::new(alloc);
    for name in names {
        if !add_key(&mut known, **name)? {
            return Ok(false);
        }
    }
    Ok(true)
}

/// Adds a name in any case. Answers whether it was not there yet.
fn add_key<'a>(known: &mut BTreeSet<NameKey<'a>>, name: Word<'a>) -> Result<bool, AllocError>
    ensures new { IfOk result (λ b. b ≡ not (contains_by (key_order (upper name.entry.text.now)) known.old)) }
    ensures known { OnOk result ((q : List ℕ) → contains_by (key_order q) known.new
        ≡ contains_by (key_order q) known.old || bytes_eq (upper name.entry.text.now) q) }
{
    let key = NameKey::new(name.text);
    let is_new = known.insert(key)?;
    Ok(is_new)
}

/// The first place of each name, in any case.
fn first_positions<'a>(
    alloc: Global,
    quote: Option<usize>,
    names: &[&Word<'a>],
) -> Result<BTreeMap<NameKey<'a>, Position>, AllocError>
    ensures { IfOk result (λ m. (q : List ℕ) (s : Position) → begins_before (get key_order m q) s
        ≡ is_named_before (map (named quote) names.now) q s) }
{
    let mut positions = BTreeMap::new(alloc);
    for name in names {
        add_position(&mut positions, naming_at(quote, **name))?;
    }
    Ok(positions)
}

fn add_position<'a>(
    positions: &mut BTreeMap<NameKey<'a>, Position>,
    found: Naming<'a>,
) -> Result<(), AllocError>
    ensures { OnOk result ((q : List ℕ) (s : Position) → begins_before (get key_order positions.new q) s
        ≡ begins_before (get key_order positions.old q) s || is_naming (naming found.entry) q s) }
{
    let key = NameKey::new(found.name.text);
    let first = first_of(positions, &key, found.position);
    positions.insert(key, first)?;
    Ok(())
}

/// The first place of a name, where it stands at this one too.
fn first_of<'a>(
    positions: &BTreeMap<NameKey<'a>, Position>,
    key: &NameKey<'a>,
    position: Position,
) -> Position
    ensures { (s : Position) → spec.stands_before result s ≡ begins_before (get key_order positions.now key.now) s
        || spec.stands_before position s }
{
    match positions.get(key) {
        Some(known) => known.or_before(position),
        None => position,
    }
}

/// Whether the same name stands before.
fn is_repeated<'a>(positions: &BTreeMap<NameKey<'a>, Position>, found: Naming<'a>) -> bool
    ensures { result
        ≡ begins_before (get key_order positions.now (upper found.entry.name.text.now)) found.entry.position }
{
    match positions.get(&NameKey::new(found.name.text)) {
        Some(first) => first.is_before(found.position),
        None => false,
    }
}

/// The first of these that has the same name, in any case, before it.
fn first_repeat<'a>(
    alloc: Global,
    quote: Option<usize>,
    names: &[&Word<'a>],
) -> Result<Option<Naming<'a>>, AllocError>
    ensures { IfOk result (λ o. option_map naming o ≡ spec.earliest (spec.repeated (map (named quote) names.now))) }
{
    let positions = first_positions(alloc, quote, names)?;
    let mut first = None;
    for name in names {
        let found = naming_at(quote, **name);
        if is_repeated(&positions, found) {
            first = earlier(first, Some(found));
        }
    }
    Ok(first)
}
