//! Boards by their board file and the descriptions that it names.

ghost use Rattle.std.specs.Prelude.{◌≡◌, codes, map, IfOk, Some};
ghost use Rattle.toml.specs.Data.{Members};
ghost use Rattle.toml.specs.View.{table_view};
ghost use Rattle.board_tables.specs.Fields.{tables_at};
ghost use Rattle.board_tables.specs.Files.{IsBadToml, Reads, file_at, names_of};
ghost use Rattle.board_tables.specs.Faults as faults;
ghost use Rattle.board_tables.specs.FileView.{ReadsToml, StopsAt, TellsBadToml, TellsNames};
ghost use Rattle.board_parts.specs.LibraryView.{files_of};
ghost use Rattle.board_file.specs.Refusals.{RefusesAt};
ghost use Rattle.board_file.specs.View.{TellsBoard};
ghost use Rattle.board_file.specs.Wiring.{known_at, makes, targets_in};
ghost use Rattle.board_plan.specs.View.{files as files_in};
ghost use Rattle.jt_board.specs.FromText.{IsWhyRefused, TellsMade, said_device};
ghost use Rattle.jt_board.specs.Made.{IsReadyPlan};

use crate::board::{Board, BoardFault};
use board_file::{BoardTable, Describe, Refused, Unread, names_of_table, plan_of_text, read_table};
use board_plan::Plan;
use bsdl::{BsdlFault, read};
use bsdl_device::Device;
use std::alloc::{AllocError, Global};
use toml::Table;

/// Why no plan was made of a board file's table: C2 to C9, and for C4 which description is refused.
pub type PlanFault = board_file::BoardFault<Refused<BsdlFault>>;

/// The reader of descriptions in BSDL.
struct Bsdl;

impl Describe for Bsdl {
    type Fault = BsdlFault;

    ghost use Rattle.jt_board.specs.FromText as text;

    ghost says = { text.said_device };

    ghost refuses = { text.IsWhyRefused };

    fn read(&self, alloc: Global, text: &[u8]) -> Result<Device, Unread<BsdlFault>> {
        match read(alloc, text) {
            Ok(device) => Ok(device),
            Err(BsdlFault::NoMemory) => Err(Unread::Memory),
            Err(fault) => Err(Unread::Refused(fault)),
        }
    }
}

/// The names of the descriptions that a board file asks for, in order, each once: those to hand to `Board::from_text`.
/// Or why the file is refused, as far as that can be told without them: it is no TOML (C1), or a key is at fault (C2).
/// Want of memory is C8.
pub fn bsdl_names(alloc: Global, toml_text: &[u8]) -> Result<Vec<String>, BoardFault>
    // The names that the table gives, or the first key at fault, unless memory runs out.
    ensures told { (t : Members) → Reads toml_text.now t → TellsNames result (names_of t) }
    // What is no TOML is refused as that, unless memory runs out.
    ensures bad_toml { IsBadToml toml_text.now → TellsBadToml result }
{
    board_file::bsdl_names(alloc, toml_text)
}

/// The table that a board file is, or that it is no TOML (C1). Want of memory is C8.
pub fn board_table(alloc: Global, toml_text: &[u8]) -> Result<Table, BoardFault>
    ensures { ReadsToml toml_text.now result }
{
    read_table(alloc, toml_text)
}

/// `bsdl_names`, given the board file's table.
pub fn table_names(alloc: Global, table: &Table) -> Result<Vec<String>, BoardFault>
    ensures { TellsNames result (names_of (table_view table.now)) }
{
    names_of_table(alloc, table)
}

/// The plan of the board that a board file's table and the descriptions in these files make, as `Board::from_text` has
/// it, or the first refusal. A description that is refused comes with the place of its name among those that
/// `table_names` gives: the first whose file is refused.
pub fn plan_of_table<'f>(
    alloc: Global,
    table: &Table,
    files: &[(&'f str, &'f [u8])],
) -> Result<Plan, PlanFault>
    // The plan that the table and the files make, or why they make none, unless memory runs out.
    ensures told { TellsBoard (RefusesAt said_device IsWhyRefused (files_of files.now) (table_view table.now)) result
        (makes said_device (files_of files.now) (table_view table.now)) (targets_in (table_view table.now)) }
    // Boards may be powered up from it.
    ensures ready { IfOk result (λ p. IsReadyPlan p) }
    // Each device has its file, as the table names it.
    ensures files { IfOk result
        (λ p. files_in p ≡ map (λ d. Some (file_at d)) (tables_at (codes "device") (table_view table.now))) }
{
    board_file::plan_of_table(alloc, &Bsdl, table, files)
}

/// The table in which the first key at fault of a board file stands (C2), given the descriptions in these files: they
/// are read for it. None where no key is at fault. Refuses for want of memory alone.
pub fn unfit_table<'f>(
    alloc: Global,
    table: &Table,
    files: &[(&'f str, &'f [u8])],
) -> Result<Option<BoardTable>, AllocError>
    ensures { IfOk result (λ o. o
        ≡ faults.unfit_table
        (map (known_at said_device (files_of files.now)) (tables_at (codes "device") (table_view table.now)))
        (table_view table.now)) }
{
    board_file::unfit_table(alloc, &Bsdl, table, files)
}

/// Where a board file stops being TOML (C1), as the reader of TOML tells it: a byte's place, from 0, or the text's
/// length. None where it is a table. Refuses for want of memory alone.
pub fn bad_toml_place(alloc: Global, toml_text: &[u8]) -> Result<Option<usize>, AllocError>
    ensures { IfOk result (StopsAt toml_text.now) }
{
    board_file::bad_toml_place(alloc, toml_text)
}

impl Board {
    /// The board that a board file and the descriptions in these files make, as it powers up, each file given by its
    /// name and its text; or the first refusal. Of two files of one name the first counts; files that no device names
    /// are not read.
    pub fn from_text<'f>(
        alloc: Global,
        toml_text: &[u8],
        files: &[(&'f str, &'f [u8])],
    ) -> Result<Board, BoardFault>
        // The board that the table and the files make, or why they make none, unless memory runs out.
        ensures told { (t : Members) → Reads toml_text.now t
            → TellsMade result (makes said_device (files_of files.now) t) (targets_in t) }
        // What is no TOML is refused as that, unless memory runs out.
        ensures bad_toml { IsBadToml toml_text.now → TellsBadToml result }
    {
        let plan = plan_of_text(alloc, &Bsdl, toml_text, files)?;
        Ok(Board::powered_up(alloc, &plan)?)
    }
}
