//! A board by its file and its descriptions.
ghost use Rattle.std.specs.Prelude.{◌≡◌, ◌<◌, codes, filter_map, is_none, length, map, position, IfOk, Some};
ghost use Rattle.toml.specs.Data.{Members};
ghost use Rattle.toml.specs.View.{table_view, items_view};
ghost use Rattle.board_tables.specs.Fields.{name_at, tables_at, tables_in};
ghost use Rattle.board_tables.specs.Faults.{unfit};
ghost use Rattle.board_tables.specs.WordView.{texts_of};
ghost use Rattle.board_tables.specs.Files.{Reads, IsBadToml, file_at};
ghost use Rattle.board_loops.specs.Loops.{HasNoLoop};
ghost use Rattle.board_loops.specs.Depending.{IsOrdered, dependencies};
ghost use Rattle.board_file.specs.Refusals.{RefusesAt};
ghost use Rattle.board_file.specs.Wiring.{makes, targets_in};
ghost use Rattle.board_file.specs.View.{IsLoopOf, IsMiswired, IsUnknownFile, JudgesKeys, PlansBoard, TellsBoard};
ghost use Rattle.board_file.specs.View.{TellsWiring};
ghost use Rattle.board_tables.specs.FileView.{TellsBadToml};
ghost use Rattle.board_parts.specs.LibraryView.{files_of};
ghost use Rattle.board_parts.specs.Parts.{file_in, known_in};
ghost use Rattle.board_plan.specs.View.{files as files_in, wiring};
ghost use Rattle.board_file.specs.Fits.{AreSaid, FitsTogether};

use crate::refused::{Refused, unplaced};
use crate::targets::target_at;
use crate::wiring::{Miswired, plan_fitting};
use board_loops::{Settling, settle_strings};
use board_parts::{Describe, Library, devices_of, known_of, plan_devices, read_files};
use board_plan::Plan;
use board_tables::{
    BoardFault, Places, check_fields, distinct_files, items_at, name_at, read_table, told,
};
use chip_instructions::SharedDevice;
use std::alloc::{AllocError, Global};
use toml::{Table, Value};

/// The board that a board file and the descriptions in these files make, each file given by its name and its text; or
/// the first refusal. Of two files of one name the first counts; files that no device names are not read, others once.
pub fn plan_of_text<'f, R: Describe>(
    alloc: Global,
    reader: &R,
    toml_text: &[u8],
    files: &[(&'f str, &'f [u8])],
) -> Result<Plan, BoardFault<R::Fault>>
    // The board that the table and the files make, or why they make none, unless memory runs out.
    ensures told { (t : Members) → Reads toml_text.now t
        → TellsBoard R.refuses result (makes R.says (files_of files.now) t) (targets_in t) }
    // What is no TOML is refused as that, unless memory runs out.
    ensures bad_toml { IsBadToml toml_text.now → TellsBadToml result }
    // A board has a device or more with whole cores and strings that fit them, and no more devices and nets than the
    // limits say; each pin is a port bit of a device, none twice.
    ensures fits { IfOk result (λ p. FitsTogether (wiring p)) }
    // Each device is one that a text says.
    ensures said { IfOk result (λ p. AreSaid R.says (wiring p)) }
    // No string is on a loop.
    ensures loops { IfOk result (λ p. HasNoLoop (dependencies (wiring p))) }
    // The strings stand in an order of work.
    ensures ordered { IfOk result (λ p. IsOrdered p) }
    // Each device has its file, as the board file names it.
    ensures files { (t : Members) → Reads toml_text.now t
        → IfOk result (λ p. files_in p ≡ map (λ d. Some (file_at d)) (tables_at (codes "device") t)) }
{
    let table = read_table(alloc, toml_text)?;
    plan_of_read(alloc, reader, &table, files)
}

/// The same, given the board file's table.
fn plan_of_read<'f, R: Describe>(
    alloc: Global,
    reader: &R,
    table: &Table,
    files: &[(&'f str, &'f [u8])],
) -> Result<Plan, BoardFault<R::Fault>>
    ensures told { TellsBoard R.refuses result (makes R.says (files_of files.now) (table_view table.now))
        (targets_in (table_view table.now)) }
    ensures fits { IfOk result (λ p. FitsTogether (wiring p)) }
    ensures said { IfOk result (λ p. AreSaid R.says (wiring p)) }
    ensures loops { IfOk result (λ p. HasNoLoop (dependencies (wiring p))) }
    ensures ordered { IfOk result (λ p. IsOrdered p) }
    ensures files { IfOk result
        (λ p. files_in p ≡ map (λ d. Some (file_at d)) (tables_at (codes "device") (table_view table.now))) }
{
    match plan_of_table(alloc, reader, table, files) {
        Ok(plan) => Ok(plan),
        Err(fault) => Err(unplaced(fault).0),
    }
}

/// The same as `plan_of_text`, given the board file's table; where a description is refused, its place is told: that of
/// the first name, among those that the board file asks for, whose file is refused.
pub fn plan_of_table<'f, R: Describe>(
    alloc: Global,
    reader: &R,
    table: &Table,
    files: &[(&'f str, &'f [u8])],
) -> Result<Plan, BoardFault<Refused<R::Fault>>>
    ensures told { TellsBoard (RefusesAt R.says R.refuses (files_of files.now) (table_view table.now)) result
        (makes R.says (files_of files.now) (table_view table.now)) (targets_in (table_view table.now)) }
    ensures fits { IfOk result (λ p. FitsTogether (wiring p)) }
    ensures said { IfOk result (λ p. AreSaid R.says (wiring p)) }
    ensures loops { IfOk result (λ p. HasNoLoop (dependencies (wiring p))) }
    ensures ordered { IfOk result (λ p. IsOrdered p) }
    ensures files { IfOk result
        (λ p. files_in p ≡ map (λ d. Some (file_at d)) (tables_at (codes "device") (table_view table.now))) }
{
    let mut plan = plan_wired(alloc, reader, files, table)?;
    match settle_strings(alloc, &plan.nets, &plan.devices)? {
        Settling::Order(order) => {
            plan.order = order;
            Ok(plan)
        }
        Settling::Loop(place) => Err(core_loop(alloc, table, place)),
    }
}

/// The refusal for the string at a place, by devices and then strings, which is on a loop.
fn core_loop<F>(alloc: Global, table: &Table, place: usize) -> BoardFault<F>
    requires { place < length (targets_in (table_view table.now)) }
    ensures { IsLoopOf place (targets_in (table_view table.now)) result }
{
    match target_at(alloc, items_at(table, "device"), place) {
        Ok(target) => BoardFault::CoreLoop(target),
        Err(_) => BoardFault::NoMemory,
    }
}

/// The board as it is wired, whatever depends on what: its strings are in no order yet.
fn plan_wired<'f, R: Describe>(
    alloc: Global,
    reader: &R,
    files: &[(&'f str, &'f [u8])],
    table: &Table,
) -> Result<Plan, BoardFault<Refused<R::Fault>>>
    ensures told { TellsWiring (RefusesAt R.says R.refuses (files_of files.now) (table_view table.now)) result
        (makes R.says (files_of files.now) (table_view table.now)) }
    ensures fits { IfOk result (λ p. FitsTogether (wiring p)) }
    ensures said { IfOk result (λ p. AreSaid R.says (wiring p)) }
    ensures files { IfOk result
        (λ p. files_in p ≡ map (λ d. Some (file_at d)) (tables_at (codes "device") (table_view table.now))) }
{
    let names = distinct_files(alloc, items_at(table, "device"))?;
    let Library {
        devices,
        missing,
        refused,
    } = read_files(alloc, reader, files, names.keys())?;
    check_keys(alloc, table, &names, &devices)?;
    if let Some(name) = missing {
        return Err(unknown_file(alloc, name));
    }
    if let Some(fault) = refused {
        let place = undescribed_place(&devices).unwrap_or(0);
        return Err(BoardFault::Bsdl(Refused { place, fault }));
    }
    plan_described(alloc, table, &names, &devices)
}

/// The place of the first file that gave no device.
fn undescribed_place(described: &[Option<SharedDevice>]) -> Option<usize>
    ensures { result ≡ position is_none described.now }
{
    described.iter().position(|device| device.is_none())
}

/// Judges the keys of the whole file, given all names of files and what is described in each.
fn check_keys<F>(
    alloc: Global,
    table: &Table,
    names: &Places<&str>,
    described: &[Option<SharedDevice>],
) -> Result<(), BoardFault<F>>
    ensures { JudgesKeys result
        (unfit (map (known_in (texts_of names.now) described.now) (tables_at (codes "device") (table_view table.now)))
        (table_view table.now)) }
{
    let known = known_of(alloc, names, described, items_at(table, "device"))?;
    match check_fields(alloc, table, &known) {
        Ok(()) => Ok(()),
        Err(unfit) => Err(told(alloc, unfit)),
    }
}

/// The refusal for a name that no file has.
fn unknown_file<F>(alloc: Global, name: &str) -> BoardFault<F>
    ensures { IsUnknownFile name.now result }
{
    match String::from_str(alloc, name) {
        Ok(name) => BoardFault::UnknownFile(name),
        Err(_) => BoardFault::NoMemory,
    }
}

/// The board, where the keys are good and each description is there, given all names of files and what is described in
/// each. Its strings are in no order yet.
fn plan_described<F>(
    alloc: Global,
    table: &Table,
    names: &Places<&str>,
    described: &[Option<SharedDevice>],
) -> Result<Plan, BoardFault<F>>
    ensures board { PlansBoard result (texts_of names.now) described.now
        (tables_at (codes "device") (table_view table.now)) (tables_at (codes "net") (table_view table.now)) }
    ensures files { IfOk result (λ p. files_in p
        ≡ filter_map (file_in (texts_of names.now) described.now)
        (tables_at (codes "device") (table_view table.now))) }
{
    let entries = items_at(table, "device");
    let nets = items_at(table, "net");
    let board = board_names(alloc, entries)?;
    let devices = devices_of(alloc, names, described, entries)?;
    let nets = match plan_fitting(alloc, &board, &devices, nets) {
        Ok(nets) => nets,
        Err(fault) => return Err(miswired(alloc, fault)),
    };
    Ok(Plan {
        devices: plan_devices(alloc, names, described, entries)?,
        nets,
        order: Vec::new(alloc),
    })
}

/// The names of the devices.
fn board_names<'t>(alloc: Global, devices: &'t [Value]) -> Result<Places<&'t str>, AllocError>
    ensures { IfOk result (λ names. texts_of names ≡ map name_at (tables_in (items_view devices.now))) }
{
    let mut names = Places::new(alloc);
    for device in devices {
        if let Some(table) = device.as_table() {
            names.push(name_at(table))?;
        }
    }
    Ok(names)
}

/// The refusal for pins and nets that do not fit.
fn miswired<F>(alloc: Global, fault: Miswired<'_>) -> BoardFault<F>
    ensures { IsMiswired fault.entry result }
{
    let (text, is_twice) = match fault {
        Miswired::UnknownPin(text) => (text, false),
        Miswired::PinTwice(text) => (text, true),
        Miswired::TooLarge => return BoardFault::TooLarge,
        Miswired::Memory => return BoardFault::NoMemory,
    };
    match String::from_str(alloc, text) {
        Ok(text) if is_twice => BoardFault::PinTwice(text),
        Ok(text) => BoardFault::UnknownPin(text),
        Err(_) => BoardFault::NoMemory,
    }
}
