//! The keys of a board file's tables.
ghost use Rattle.std.specs.Prelude.{◌≡◌, map, fold, is_some, option_map};
ghost use Rattle.toml.specs.Data.{get_member};
ghost use Rattle.toml.specs.View.{view, table_view};
ghost use Rattle.board_tables.specs.declared.keys.Known as declared_known;
ghost use Rattle.board_tables.specs.Keys as spec;
ghost use Rattle.board_tables.specs.View.{keys_of};
ghost use Rattle.board_tables.specs.WordView.{texts_of};

use crate::places::Places;
use crate::values::{
    is_core, is_follow, is_new_name, is_one_of, is_some_tables, is_tables, is_texts,
};
use std::cmp::Ordering;
use toml::{Table, Value};

/// What is known of a device whose description is there: how many cells it has, and whether the strings of its `follow`
/// fit it.
#[derive(Debug, Clone, Copy)]
pub struct Known {
    pub cells: usize,
    pub strings_fit: bool,
}

/// The keys that a table may have: the file itself, a device, or a net.
#[derive(Clone, Copy)]
pub(crate) enum Keys<'a, 't> {
    Top,
    /// With the names of the devices before it, and what is known of it where its description is there.
    Device(&'a Places<&'t str>, Option<Known>),
    /// With the names of the nets before it.
    Net(&'a Places<&'t str>),
}

impl Keys<'_, '_> {
    /// Whether this is one of the keys, and the value fits it.
    fn fits(&self, key: &str, value: &Value) -> bool
        ensures { result ≡ spec.fits_one (keys_of self.now) key.now (view value.now) }
    {
        match *self {
            Keys::Top => fits_top(key, value),
            Keys::Device(names, known) => fits_device(names, known, key, value),
            Keys::Net(names) => fits_net(names, key, value),
        }
    }

    /// The keys that must stand in such a table.
    fn needed(&self) -> &'static [&'static str]
        ensures { map (λ k. k.now) result.now ≡ spec.needed (keys_of self.now) }
    {
        match *self {
            Keys::Top => &["device"],
            Keys::Device(_, _) => &["bsdl", "name"],
            Keys::Net(_) => &["name", "pins"],
        }
    }
}

/// The first key in byte order that is at fault in a table: it is needed and missing, or unknown, or its value does not
/// fit.
pub(crate) fn unfit_key<'t>(keys: Keys<'_, '_>, table: &'t Table) -> Option<&'t str>
    ensures { option_map (λ k. k.now) result ≡ spec.unfit_key (keys_of keys.entry) (table_view table.now) }
{
    first_missing(keys.needed(), table, first_misfit(keys, table))
}

fn first_misfit<'t>(keys: Keys<'_, '_>, table: &'t Table) -> Option<&'t str>
    ensures { option_map (λ k. k.now) result
        ≡ spec.earliest (spec.misfits (spec.fits_one (keys_of keys.entry)) (table_view table.now)) }
{
    let mut first = None;
    for (key, value) in table.iter() {
        if !keys.fits(key, value) {
            first = earlier(first, key);
        }
    }
    first
}

fn first_missing<'t>(
    needed: &[&'static str],
    table: &'t Table,
    before: Option<&'t str>,
) -> Option<&'t str>
    ensures { option_map (λ k. k.now) result
        ≡ fold spec.earlier (option_map (λ k. k.now) before.entry)
        (spec.missing (map (λ k. k.now) needed.now) (table_view table.now)) }
{
    let mut first = before;
    for key in needed {
        if !has_key(table, key) {
            first = earlier(first, key);
        }
    }
    first
}

fn has_key(table: &Table, key: &str) -> bool
    ensures { result ≡ is_some (get_member key.now (table_view table.now)) }
{
    table.contains_key(key)
}

/// Of two keys the first in byte order.
fn earlier<'t>(first: Option<&'t str>, key: &'t str) -> Option<&'t str>
    ensures { option_map (λ k. k.now) result ≡ spec.earlier (option_map (λ k. k.now) first.entry) key.now }
{
    match first {
        None => Some(key),
        Some(first) => match key.cmp(first) {
            Ordering::Less => Some(key),
            _ => Some(first),
        },
    }
}

fn fits_top(key: &str, value: &Value) -> bool
    ensures { result ≡ spec.fits_one spec.top_keys key.now (view value.now) }
{
    match key {
        "device" => is_some_tables(value),
        "net" => is_tables(value),
        _ => false,
    }
}

fn fits_device(names: &Places<&str>, known: Option<Known>, key: &str, value: &Value) -> bool
    ensures { result ≡ spec.fits_one (spec.device_keys (texts_of names.now) known) key.now (view value.now) }
{
    match key {
        "bsdl" => value.is_str(),
        "core" => is_core(cells_of(known), value),
        "extest" => is_one_of(&["core", "update"], value),
        "follow" => is_follow(known, value),
        "name" => is_new_name(names, value),
        _ => false,
    }
}

/// The number of the device's cells, where it is known.
fn cells_of(known: Option<Known>) -> Option<usize>
    ensures { result ≡ option_map (λ (k : declared_known.Known). k.cells) known }
{
    match known {
        Some(known) => Some(known.cells),
        None => None,
    }
}

fn fits_net(names: &Places<&str>, key: &str, value: &Value) -> bool
    ensures { result ≡ spec.fits_one (spec.net_keys (texts_of names.now)) key.now (view value.now) }
{
    match key {
        "name" => is_new_name(names, value),
        "pins" => is_texts(value),
        "pull" => is_one_of(&["up", "down", "none"], value),
        _ => false,
    }
}
