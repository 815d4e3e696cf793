//! Which values fit the keys of a board file.
ghost use Rattle.std.specs.Prelude.{◌≡◌, ◌==◌, ◌||◌, ◌&&◌, map, bytes_eq, is_some};
ghost use Rattle.std.specs.List.{list_all, list_any};
ghost use Rattle.toml.specs.View.{view};
ghost use Rattle.board_tables.specs.Fields as fields;
ghost use Rattle.board_tables.specs.Keys as spec;
ghost use Rattle.board_tables.specs.WordView.{texts_of};
ghost use Rattle.board_tables.specs.FollowTexts.{follow_of as follow_text};

use crate::follows::follow_of;
use crate::keys::Known;
use crate::names::is_name;
use crate::places::Places;
use toml::Value;

/// Whether the value is an array of at least one table.
#[tactic(auto, using(crate::proofs::ValueLaws::items_all_of, crate::proofs::ValueLaws::has_item_of))]
pub(crate) fn is_some_tables(value: &Value) -> bool
    ensures { result ≡ fields.is_some_of fields.is_table (view value.now) }
{
    match value.as_array() {
        Some(items) => !items.is_empty() && all_tables(items),
        None => false,
    }
}

/// Whether the value is an array of tables.
#[tactic(auto, using(crate::proofs::ValueLaws::items_all_of))]
pub(crate) fn is_tables(value: &Value) -> bool
    ensures { result ≡ fields.is_array_of fields.is_table (view value.now) }
{
    match value.as_array() {
        Some(items) => all_tables(items),
        None => false,
    }
}

fn all_tables(items: &[Value]) -> bool
    ensures { result ≡ list_all (λ v. fields.is_table (view v)) items.now }
{
    items.iter().all(|item| item.is_table())
}

/// Whether the value is an array of texts.
#[tactic(auto, using(crate::proofs::ValueLaws::items_all_of))]
pub(crate) fn is_texts(value: &Value) -> bool
    ensures { result ≡ fields.is_array_of fields.is_text (view value.now) }
{
    match value.as_array() {
        Some(items) => all_texts(items),
        None => false,
    }
}

fn all_texts(items: &[Value]) -> bool
    ensures { result ≡ list_all (λ v. fields.is_text (view v)) items.now }
{
    items.iter().all(|item| item.is_str())
}

/// Whether the value is a name that none of these is.
#[tactic(auto, using(crate::proofs::TextLaws::list_any_map))]
pub(crate) fn is_new_name(names: &Places<&str>, value: &Value) -> bool
    ensures { result ≡ spec.is_new_name (texts_of names.now) (view value.now) }
{
    match value.as_str() {
        Some(name) => is_name(name) && !names.has(name),
        None => false,
    }
}

/// Whether the value is a text of 0s and 1s, as many as there are cells, where their number is known.
pub(crate) fn is_core(cells: Option<usize>, value: &Value) -> bool
    ensures { result ≡ spec.is_core cells (view value.now) }
{
    match value.as_str() {
        Some(bits) => are_bits(bits.as_bytes()) && fits_cells(cells, bits),
        None => false,
    }
}

fn fits_cells(cells: Option<usize>, bits: &str) -> bool
    ensures { result ≡ spec.fits_cells cells bits.now }
{
    match cells {
        Some(cells) => bits.len() == cells,
        None => true,
    }
}

fn are_bits(text: &[u8]) -> bool
    ensures { result ≡ list_all spec.is_bit text.now }
{
    text.iter().all(|byte| *byte == b'0' || *byte == b'1')
}

/// Whether the value is an array of strings, and they fit the device, where it is known.
#[tactic(auto, using(crate::proofs::ValueLaws::items_all_of))]
pub(crate) fn is_follow(known: Option<Known>, value: &Value) -> bool
    ensures { result ≡ spec.is_follow known (view value.now) }
{
    match value.as_array() {
        Some(items) => all_strings(items) && strings_fit(known),
        None => false,
    }
}

fn strings_fit(known: Option<Known>) -> bool
    ensures { result ≡ spec.strings_fit known }
{
    match known {
        Some(known) => known.strings_fit,
        None => true,
    }
}

fn all_strings(items: &[Value]) -> bool
    ensures { result ≡ list_all (λ v. spec.is_string (view v)) items.now }
{
    items.iter().all(|item| is_string(item))
}

/// Whether the value is a text that spells a string.
fn is_string(value: &Value) -> bool
    ensures { result ≡ spec.is_string (view value.now) }
{
    match value.as_str() {
        Some(text) => spells_string(text),
        None => false,
    }
}

fn spells_string(text: &str) -> bool
    ensures { result ≡ is_some (follow_text text.now) }
{
    follow_of(text).is_some()
}

/// Whether the value is a text, and one of the words.
#[tactic(auto, using(crate::proofs::TextLaws::list_any_map))]
pub(crate) fn is_one_of(words: &[&str], value: &Value) -> bool
    ensures { result ≡ fields.is_one_of (map (λ w. w.now) words.now) (view value.now) }
{
    match value.as_str() {
        Some(text) => is_among(words, text),
        None => false,
    }
}

fn is_among(words: &[&str], text: &str) -> bool
    ensures { result ≡ list_any (λ w. bytes_eq text.now w.now) words.now }
{
    words.iter().any(|word| text == *word)
}
