//! The devices that a board file's tables say.
ghost use Rattle.std.specs.Prelude.{◌≡◌, [], map, unwrap_or, IfOk, Some};
ghost use Rattle.std.specs.List.{filter_map};
ghost use Rattle.toml.specs.View.{table_view, items_view};
ghost use Rattle.board_tables.specs.Fields.{tables_in};
ghost use Rattle.board_tables.specs.Files.{file_at};
ghost use Rattle.board_tables.specs.WordView.{texts_of};
ghost use Rattle.board_parts.specs.Parts as spec;
ghost use Rattle.board_parts.specs.Parts.{file_in, member_in};
ghost use Rattle.board_plan.specs.View as planned;

use crate::library::described_at;
use crate::strings::find_strings;
use board_plan::{PlannedDevice, SharedDevice, core_bits, is_update};
use board_tables::{Places, items_at, name_at, text_at};
use pin_nets::Follow;
use std::alloc::{AllocError, Global};
use toml::{Table, Value};

/// The devices of these tables that are described, in their order, each with the name of its file, given all names of
/// files and what is described in each. Refused where memory runs out.
pub fn plan_devices(
    alloc: Global,
    names: &Places<&str>,
    described: &[Option<SharedDevice>],
    devices: &[Value],
) -> Result<Vec<PlannedDevice>, AllocError>
    ensures devices { IfOk result (λ v. map planned.member v.items
        ≡ filter_map (member_in (texts_of names.now) described.now) (tables_in (items_view devices.now))) }
    ensures files { IfOk result (λ v. map planned.file v.items
        ≡ filter_map (file_in (texts_of names.now) described.now) (tables_in (items_view devices.now))) }
{
    let mut planned = Vec::new(alloc);
    for device in devices {
        if let Some(table) = device.as_table() {
            if let Some(device) = described_at(names, described, table) {
                planned.push(plan_device(alloc, table, device)?)?;
            }
        }
    }
    Ok(planned)
}

fn plan_device(
    alloc: Global,
    table: &Table,
    device: &SharedDevice,
) -> Result<PlannedDevice, AllocError>
    ensures device { IfOk result (λ p. planned.member p ≡ spec.member_of (table_view table.now) device.now) }
    ensures file { IfOk result (λ p. planned.file p ≡ Some (file_at (table_view table.now))) }
{
    let cells = device.get().cells().len();
    Ok(PlannedDevice {
        name: String::from_str(alloc, name_at(table))?,
        file: Some(String::from_str(alloc, file_of(table))?),
        device: device.share()?,
        core: core_bits(alloc, cells, text_at(table, "core"))?,
        follows: strings_of(alloc, table, device)?,
        extest_update: is_update(text_at(table, "extest")),
    })
}

/// The file that a device names.
fn file_of(table: &Table) -> &str
    ensures { result.now ≡ file_at (table_view table.now) }
{
    text_at(table, "bsdl").unwrap_or("")
}

/// The strings of a device, none where they do not fit it.
fn strings_of(
    alloc: Global,
    table: &Table,
    device: &SharedDevice,
) -> Result<Vec<Follow>, AllocError>
    ensures { IfOk result (λ v. v.items ≡ unwrap_or (spec.strings_at device.now (table_view table.now)) []) }
{
    match find_strings(alloc, device, items_at(table, "follow"))? {
        Some(strings) => Ok(strings),
        None => Ok(Vec::new(alloc)),
    }
}
