//! In which table of a board file a key is at fault.
ghost use Rattle.std.specs.Prelude.{◌≡◌, codes, map, IfOk};
ghost use Rattle.toml.specs.View.{table_view};
ghost use Rattle.board_tables.specs.Fields.{tables_at};
ghost use Rattle.board_tables.specs.Faults as faults;
ghost use Rattle.board_parts.specs.LibraryView.{files_of};
ghost use Rattle.board_file.specs.Wiring.{known_at};

use board_parts::{Describe, Library, known_of, read_files};
use board_tables::{BoardTable, Unfit, check_fields, distinct_files, items_at};
use std::alloc::{AllocError, Global};
use toml::Table;

/// The table in which the first key at fault of a board file stands (C2), given the descriptions that are there: the
/// descriptions are read for it. None where no key is at fault. Refuses for want of memory alone.
pub fn unfit_table<'f, R: Describe>(
    alloc: Global,
    reader: &R,
    table: &Table,
    files: &[(&'f str, &'f [u8])],
) -> Result<Option<BoardTable>, AllocError>
    ensures { IfOk result (λ o. o
        ≡ faults.unfit_table
        (map (known_at R.says (files_of files.now)) (tables_at (codes "device") (table_view table.now)))
        (table_view table.now)) }
{
    let names = distinct_files(alloc, items_at(table, "device"))?;
    let Library {
        devices,
        missing: _,
        refused: _refused,
    } = read_files(alloc, reader, files, names.keys())?;
    let known = known_of(alloc, &names, &devices, items_at(table, "device"))?;
    match check_fields(alloc, table, &known) {
        Ok(()) => Ok(None),
        Err(Unfit::Field(_, place)) => Ok(Some(place)),
        Err(Unfit::Memory) => Err(AllocError),
    }
}
