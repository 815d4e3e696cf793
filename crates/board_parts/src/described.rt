//! What is known of the devices that are described.
ghost use Rattle.std.specs.Prelude.{◌≡◌, map, option_map, option_copied, is_some, IfOk};
ghost use Rattle.toml.specs.View.{table_view, items_view};
ghost use Rattle.board_tables.specs.Fields.{tables_in};
ghost use Rattle.board_tables.specs.WordView.{texts_of};
ghost use Rattle.board_parts.specs.LibraryView.{stands_at};
ghost use Rattle.board_parts.specs.Parts as spec;

use crate::strings::DrivenDevice;
use board_plan::SharedDevice;
use board_tables::{Known, Places, items_at, text_at};
use std::alloc::{AllocError, Global};
use toml::{Table, Value};

/// What the keys of each of these tables are judged by: what is known of its device, where its description is there and
/// not refused. The cells of a description are gone through once, however many devices name it. Refuses for want of
/// memory alone.
pub fn known_of(
    alloc: Global,
    names: &Places<&str>,
    described: &[Option<SharedDevice>],
    devices: &[Value],
) -> Result<Vec<Option<Known>>, AllocError>
    ensures { IfOk result (λ v. v.items
        ≡ map (spec.known_in (texts_of names.now) described.now) (tables_in (items_view devices.now))) }
{
    let driven = all_driven(alloc, described, have_strings(devices))?;
    let mut known = Vec::new(alloc);
    for device in devices {
        if let Some(table) = device.as_table() {
            known.push(known_by(alloc, table, driven_at(names, &driven, table))?)?;
        }
    }
    Ok(known)
}

/// Whether one of these tables has the key `follow`. It decides what is made beforehand, and no answer.
fn have_strings(devices: &[Value]) -> bool {
    devices.iter().any(|device| has_strings(device))
}

fn has_strings(device: &Value) -> bool {
    match device.as_table() {
        Some(table) => table.contains_key("follow"),
        None => false,
    }
}

/// Each description, with the cells that drive its port bits where these are wanted.
fn all_driven(
    alloc: Global,
    described: &[Option<SharedDevice>],
    wanted: bool,
) -> Result<Vec<Option<DrivenDevice>>, AllocError>
    ensures { IfOk result (λ v. v.items ≡ described.now) }
{
    let mut all = Vec::with_capacity(alloc, described.len())?;
    for device in described {
        all.push(driven(alloc, device.as_ref(), wanted)?)?;
    }
    Ok(all)
}

fn driven(
    alloc: Global,
    device: Option<&SharedDevice>,
    wanted: bool,
) -> Result<Option<DrivenDevice>, AllocError>
    ensures { IfOk result (λ d. d ≡ option_copied device.entry) }
{
    match device {
        Some(device) => {
            let ports = if wanted { device.get().port_count() } else { 0 };
            Ok(Some(DrivenDevice::new(alloc, device, ports)?))
        }
        None => Ok(None),
    }
}

/// What is described of a device of the board file.
fn driven_at<'d>(
    names: &Places<&str>,
    driven: &'d [Option<DrivenDevice>],
    table: &Table,
) -> Option<&'d DrivenDevice>
    ensures { option_copied result ≡ stands_at (texts_of names.now) driven.now (table_view table.now) }
{
    let name = text_at(table, "bsdl")?;
    let place = names.place_of(name)?;
    match driven.get(place) {
        Some(Some(device)) => Some(device),
        _ => None,
    }
}

fn known_by(
    alloc: Global,
    table: &Table,
    device: Option<&DrivenDevice>,
) -> Result<Option<Known>, AllocError>
    ensures { IfOk result (λ known. known
        ≡ option_map (spec.known_of (table_view table.now)) (option_copied device.entry)) }
{
    match device {
        Some(device) => Ok(Some(Known {
            cells: device.cell_count(),
            strings_fit: strings_fit(alloc, table, device)?,
        })),
        None => Ok(None),
    }
}

/// Whether the strings of a table fit its device.
#[tactic(auto, using(board_tables::proofs::ValueLaws::same_some))]
fn strings_fit(alloc: Global, table: &Table, device: &DrivenDevice) -> Result<bool, AllocError>
    ensures { IfOk result (λ fit. fit ≡ is_some (spec.strings_at device.now (table_view table.now))) }
{
    Ok(device.strings(alloc, items_at(table, "follow"))?.is_some())
}
