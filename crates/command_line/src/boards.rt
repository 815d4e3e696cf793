//! The board that a command asks for: its plan, made once, from which boards are powered up.
ghost use Rattle.std.specs.Prelude.{◌≡◌, IfOk};
ghost use Rattle.jt_board.specs.Made.{IsReadyPlan};

use crate::descriptions::{Descriptions, taken};
use crate::texts::{InputFault, read_board_file};
use crate::unmade::{NoToml, RefusedFile, RefusedKey, Unmade};
use board_plan::Plan;
use jt_board::{
    Board, BoardFault, BoardTable, PlanFault, bad_toml_place, bare_plan, board_table,
    plan_of_table, table_names, unfit_table, unplaced,
};
use std::alloc::{AllocError, Global};
use std::marker::Model;
use toml::Table;

/// The plan of a board, and the names of the descriptions that it was made of.
#[derive(Drop)]
pub struct Planned {
    plan: Plan,
    descriptions: Vec<String>,
}

impl Model for Planned {
    ghost use Rattle.board_plan.specs.declared.plan.Plan as planned;
    ghost use Rattle.jt_board.specs.Made.{IsReadyPlan};

    ghost Value = { planned.Plan };

    ghost view = { λ p. p.plan };

    ghost invariant = { λ p. IsReadyPlan p.plan };
}

impl Planned {
    /// The plan.
    pub fn plan(&self) -> &Plan
        ensures plan { result.now ≡ self.now }
        ensures ready { IsReadyPlan result.now }
    {
        &self.plan
    }

    /// The board as it powers up.
    pub fn board(&self, alloc: Global) -> Result<Board, AllocError> {
        Board::powered_up(alloc, &self.plan)
    }

    /// The names of the descriptions that it was made of.
    pub fn descriptions(&self) -> &[String] {
        self.descriptions.as_slice()
    }
}

/// A board file, and the descriptions that it names.
#[derive(Drop)]
struct ReadBoard {
    table: Table,
    names: Vec<String>,
    descriptions: Descriptions,
}

/// The board of a board file, whose descriptions are files of the working folder, as it powers up; one bare device
/// where none is named. Its plan is let go, and it is not told where a refusal lies.
pub fn make_board(rt: &HostRuntime, alloc: Global, name: Option<&str>) -> Result<Board, Unmade> {
    let planned = plan_board(rt, alloc, name, false)?;
    Ok(planned.board(alloc)?)
}

/// Plans the board of a board file, whose descriptions are files of the working folder; one bare device where none is
/// named. Where `explain` is set, a refusal comes with what tells where it lies.
pub fn plan_board(
    rt: &HostRuntime,
    alloc: Global,
    name: Option<&str>,
    explain: bool,
) -> Result<Planned, Unmade> {
    match name {
        None => Ok(plan_bare(alloc)?),
        Some(name) => plan_read(alloc, read_board(rt, alloc, name, explain)?, explain),
    }
}

/// The plan of one bare device.
fn plan_bare(alloc: Global) -> Result<Planned, AllocError> {
    Ok(Planned {
        plan: bare_plan(alloc, 1)?,
        descriptions: Vec::new(alloc),
    })
}

/// The plan of a board file and its descriptions.
fn plan_read(alloc: Global, read: ReadBoard, explain: bool) -> Result<Planned, Unmade> {
    match plan_of(alloc, &read) {
        Ok(plan) => Ok(Planned {
            plan,
            descriptions: read.names,
        }),
        Err(fault) => Err(refused(alloc, fault, read, explain)),
    }
}

fn plan_of(alloc: Global, read: &ReadBoard) -> Result<Plan, PlanFault>
    ensures { IfOk result (λ p. IsReadyPlan p) }
{
    let files = files_of(alloc, &read.names, &read.descriptions)?;
    plan_of_table(alloc, &read.table, &files)
}

/// The texts of the descriptions, each by its name.
fn files_of<'f>(
    alloc: Global,
    names: &'f [String],
    descriptions: &'f Descriptions,
) -> Result<Vec<(&'f str, &'f [u8])>, AllocError> {
    let mut files = Vec::with_capacity(alloc, names.len())?;
    for (k, name) in names.iter().enumerate() {
        files.push((name.as_str(), descriptions.text(k)))?;
    }
    Ok(files)
}

/// Why a board is refused; where it is to be told where that lies, with the description, or the table of the key.
fn refused(alloc: Global, fault: PlanFault, read: ReadBoard, explain: bool) -> Unmade {
    match unplaced(fault) {
        (fault, Some(place)) if explain => Unmade::RefusedFile(RefusedFile {
            fault,
            name: taken(read.names, place).unwrap_or(String::new(alloc)),
            text: read.descriptions.into_text(alloc, place),
        }),
        (BoardFault::BadField(key), None) if explain => refused_key(alloc, key, &read),
        (fault, _) => Unmade::Refused(fault),
    }
}

/// That a key is at fault, and the table in which it stands.
fn refused_key(alloc: Global, key: String, read: &ReadBoard) -> Unmade {
    match table_at_fault(alloc, read) {
        Ok(table) => Unmade::RefusedKey(RefusedKey {
            fault: BoardFault::BadField(key),
            table,
        }),
        Err(_) => Unmade::Refused(BoardFault::NoMemory),
    }
}

/// The table in which the key at fault stands, found anew by what was read.
fn table_at_fault(alloc: Global, read: &ReadBoard) -> Result<Option<BoardTable>, AllocError> {
    let files = files_of(alloc, &read.names, &read.descriptions)?;
    unfit_table(alloc, &read.table, &files)
}

/// Reads a board file, and the descriptions that it names from the working folder.
fn read_board(
    rt: &HostRuntime,
    alloc: Global,
    name: &str,
    explain: bool,
) -> Result<ReadBoard, Unmade> {
    let table = read_table(rt, alloc, name, explain)?;
    match table_names(alloc, &table) {
        Ok(names) => {
            let descriptions = read_descriptions(rt, alloc, &names)?;
            Ok(ReadBoard {
                table,
                names,
                descriptions,
            })
        }
        Err(BoardFault::BadField(key)) if explain => Err(refused_key(
            alloc,
            key,
            &ReadBoard {
                table,
                names: Vec::new(alloc),
                descriptions: Descriptions::new(alloc),
            },
        )),
        Err(fault) => Err(Unmade::Refused(fault)),
    }
}

/// Reads a board file.
fn read_table(rt: &HostRuntime, alloc: Global, name: &str, explain: bool) -> Result<Table, Unmade> {
    match read_board_file(rt, alloc, name) {
        Ok(text) => match board_table(alloc, &text) {
            Ok(table) => Ok(table),
            Err(BoardFault::BadToml) if explain => Err(no_toml(alloc, text)),
            Err(fault) => Err(Unmade::Refused(fault)),
        },
        Err(fault) => Err(unread(alloc, name, fault)),
    }
}

/// That a text is no TOML, and where it stops being so.
fn no_toml(alloc: Global, text: Vec<u8>) -> Unmade {
    match bad_toml_place(alloc, &text) {
        Ok(place) => Unmade::NoToml(NoToml { text, place }),
        Err(_) => Unmade::Refused(BoardFault::NoMemory),
    }
}

/// Reads the descriptions of these names.
fn read_descriptions(
    rt: &HostRuntime,
    alloc: Global,
    names: &[String],
) -> Result<Descriptions, Unmade> {
    let mut descriptions = Descriptions::new(alloc);
    for name in names {
        if let Err(fault) = descriptions.read(rt, alloc, name.as_str()) {
            return Err(unread(alloc, name.as_str(), fault));
        }
    }
    Ok(descriptions)
}

/// A file that was not read.
fn unread(alloc: Global, name: &str, fault: InputFault) -> Unmade {
    match (fault, String::from_str(alloc, name)) {
        (InputFault::Unreadable, Ok(name)) => Unmade::Unreadable(name),
        _ => Unmade::Refused(BoardFault::NoMemory),
    }
}
