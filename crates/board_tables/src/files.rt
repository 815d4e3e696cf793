//! The descriptions that a board file names.
ghost use Rattle.std.specs.Prelude.{◌≡◌, map, IfOk, string_bytes};
ghost use Rattle.toml.specs.Data.{Members};
ghost use Rattle.toml.specs.View.{table_view, items_view};
ghost use Rattle.board_tables.specs.Fields.{tables_in};
ghost use Rattle.board_tables.specs.WordView.{texts_of};
ghost use Rattle.board_tables.specs.Files.{Reads, IsBadToml, names_of, distinct};
ghost use Rattle.board_tables.specs.Files as spec;
ghost use Rattle.board_tables.specs.FileView.{TellsNames, TellsBadToml, ReadsToml, StopsAt};

use crate::fault::{BoardFault, told};
use crate::fields::check_fields;
use crate::places::Places;
use crate::tables::{items_at, text_at};
use std::alloc::{AllocError, Global};
use toml::{Table, Value};

/// The names of the descriptions that a board file asks for, in order, each once; or why it is refused, as far as that
/// can be told without them: it is no TOML (C1), or a key is at fault (C2). Want of memory is C8.
pub fn bsdl_names<F>(alloc: Global, toml_text: &[u8]) -> Result<Vec<String>, BoardFault<F>>
    // The names that the table gives, or the first key at fault, unless memory runs out.
    ensures told { (t : Members) → Reads toml_text.now t → TellsNames result (names_of t) }
    // What is no TOML is refused as that, unless memory runs out.
    ensures bad_toml { IsBadToml toml_text.now → TellsBadToml result }
{
    let table = read_table(alloc, toml_text)?;
    names_of_table(alloc, &table)
}

/// The table that a text is, or that it is no TOML (C1). Want of memory is C8.
pub fn read_table<F>(alloc: Global, text: &[u8]) -> Result<Table, BoardFault<F>>
    ensures { ReadsToml text.now result }
{
    match toml::table_from_slice(alloc, text) {
        Ok(table) => Ok(table),
        Err(error) if error.is_memory() => Err(BoardFault::NoMemory),
        Err(_) => Err(BoardFault::BadToml),
    }
}

/// Where a text stops being TOML, as its reader tells it: a byte's place, from 0, or the text's length. None where the
/// text is a table. Refuses for want of memory alone.
pub fn bad_toml_place(alloc: Global, text: &[u8]) -> Result<Option<usize>, AllocError>
    ensures { IfOk result (StopsAt text.now) }
{
    match toml::table_from_slice(alloc, text) {
        Ok(_) => Ok(None),
        Err(error) => match error.span() {
            Some(span) => Ok(Some(span.start)),
            None => Err(AllocError),
        },
    }
}

/// `bsdl_names`, given the board file's table.
pub fn names_of_table<F>(alloc: Global, table: &Table) -> Result<Vec<String>, BoardFault<F>>
    ensures { TellsNames result (names_of (table_view table.now)) }
{
    if let Err(unfit) = check_fields(alloc, table, &[]) {
        return Err(told(alloc, unfit));
    }
    let names = distinct_files(alloc, items_at(table, "device"))?;
    Ok(owned(alloc, names.keys())?)
}

/// The names of the devices' descriptions, each once. Refuses for want of memory alone.
pub fn distinct_files<'t>(
    alloc: Global,
    devices: &'t [Value],
) -> Result<Places<&'t str>, AllocError>
    ensures { IfOk result (λ names. texts_of names ≡ distinct (map spec.file_at (tables_in (items_view devices.now)))) }
{
    let mut names = Places::new(alloc);
    for device in devices {
        if let Some(table) = device.as_table() {
            names.add(file_at(table))?;
        }
    }
    Ok(names)
}

fn file_at(table: &Table) -> &str
    ensures { result.now ≡ spec.file_at (table_view table.now) }
{
    text_at(table, "bsdl").unwrap_or("")
}

/// Copies of texts.
fn owned(alloc: Global, names: &[&str]) -> Result<Vec<String>, AllocError>
    ensures { IfOk result (λ v. map string_bytes v.items ≡ texts_of names.now) }
{
    let mut all = Vec::new(alloc);
    for name in names {
        all.push(String::from_str(alloc, name)?)?;
    }
    Ok(all)
}
