//! The descriptions that a board file names, each read once.
ghost use Rattle.std.specs.Prelude.{◌≡◌, ℕ, List, Option, map, option_map, option_copied, IfOk, OnOk, None, false};
ghost use Rattle.std.specs.Prelude.{◌++◌, ◌∷◌, []};
ghost use Rattle.toml.specs.View.{table_view, items_view};
ghost use Rattle.board_tables.specs.Fields.{tables_in};
ghost use Rattle.board_tables.specs.WordView.{texts_of};
ghost use Rattle.board_parts.specs.Files as spec;
ghost use Rattle.std.specs.List.{filter_map};
ghost use Rattle.std.specs.Option.{option_or};
ghost use Rattle.board_parts.specs.LibraryView.{AreKnown, Describes, IsRead, IsReading, IsFirstRefusal, device_in};
ghost use Rattle.board_parts.specs.LibraryView.{missing_with, refused_with, files_of, known_at, known_reading};
ghost use Rattle.board_parts.specs.LibraryView.{stands_at};

use board_plan::SharedDevice;
use board_tables::{Places, text_at};
use bsdl_device::Device;
use std::alloc::{AllocError, Global};
use std::collections::BTreeMap;
use toml::{Table, Value};

/// Why a text gave no device.
#[derive(Debug, Drop)]
pub enum Unread<F> {
    /// It is refused, and why.
    Refused(F),
    /// A growth was refused.
    Memory,
}

/// A reader of device descriptions.
pub trait Describe {
    /// Why a text is refused.
    type Fault: Drop;

    ghost use Rattle.std.specs.Prelude.{ℕ, List, Option};
    ghost use Rattle.bsdl_device.specs.Device as described;

    /// The device that a text describes, none where the text is refused.
    ghost says: { List ℕ → Option described.Device };

    /// Why a text is refused.
    ghost refuses: { List ℕ → Self.Fault → Type 0 };

    /// Reads a description.
    fn read(&self, alloc: Global, text: &[u8]) -> Result<Device, Unread<Self::Fault>>
        ensures { Describes says refuses text.now result };
}

/// What stands in the file of a name.
#[derive(Drop)]
enum Reading<F> {
    /// No such file was handed in.
    Missing,
    Refused(F),
    /// It is refused, and so is one before it.
    RefusedToo,
    Described(SharedDevice),
}

/// The descriptions that a board file names.
#[derive(Drop)]
pub struct Library<'t, F> {
    /// What is described in the file of each name; none where there is no such file, or where it is refused.
    pub devices: Vec<Option<SharedDevice>>,
    /// The first name that no file has.
    pub missing: Option<&'t str>,
    /// Why the first description that is refused is so.
    pub refused: Option<F>,
}

/// Reads the files of these names, each text once, whatever its files are called. Refuses for want of memory alone.
pub fn read_files<'t, 'f, R: Describe>(
    alloc: Global,
    reader: &R,
    files: &[(&'f str, &'f [u8])],
    names: &[&'t str],
) -> Result<Library<'t, R::Fault>, AllocError>
    ensures devices { IfOk result
        (λ l. l.devices.items ≡ map (spec.described R.says (files_of files.now)) (texts_of names.now)) }
    ensures missing { IfOk result
        (λ l. option_map (λ n. n.now) l.missing ≡ spec.missing_in (files_of files.now) (texts_of names.now)) }
    ensures refused { IfOk result
        (λ l. IsFirstRefusal R.refuses l.refused None
        (spec.refused_in R.says (files_of files.now) (texts_of names.now))) }
{
    let places = file_places(alloc, files)?;
    let mut library = Library {
        devices: Vec::with_capacity(alloc, names.len())?,
        missing: None,
        refused: None,
    };
    read_all(alloc, reader, files, &places, names, &mut library)?;
    Ok(library)
}

/// Notes what stands in the file of each of these names, given the places of all files.
fn read_all<'t, 'f, R: Describe>(
    alloc: Global,
    reader: &R,
    files: &[(&'f str, &'f [u8])],
    places: &Places<&str>,
    names: &[&'t str],
    library: &mut Library<'t, R::Fault>,
) -> Result<(), AllocError>
    requires { texts_of places.now ≡ map (λ f. f.0.now) files.now }
    ensures devices { OnOk result (library.new.devices.items ≡ library.old.devices.items
        ++ map (spec.described R.says (files_of files.now)) (texts_of names.now)) }
    ensures missing { OnOk result (option_map (λ n. n.now) library.new.missing
        ≡ option_or (option_map (λ n. n.now) library.old.missing)
        (spec.missing_in (files_of files.now) (texts_of names.now))) }
    ensures refused { OnOk result ((whole : Option (List ℕ))
        → IsFirstRefusal R.refuses library.old.refused
        (spec.refused_in R.says (files_of files.now) (texts_of names.now)) whole
        → IsFirstRefusal R.refuses library.new.refused None whole) }
{
    let mut known = BTreeMap::new(alloc);
    for name in names {
        let text = text_named(files, places, name);
        let is_refused = library.refused.is_some();
        let reading = read_once(alloc, reader, text, &mut known, is_refused)?;
        note(library, name, reading)?;
    }
    Ok(())
}

/// Notes what stands in the file of a name.
fn note<'t, F: Drop>(
    library: &mut Library<'t, F>,
    name: &'t str,
    reading: Reading<F>,
) -> Result<(), AllocError>
    ensures devices { OnOk result (library.new.devices.items ≡ library.old.devices.items ++ device_in reading ∷ []) }
    ensures missing { OnOk result (library.new.missing ≡ missing_with library.old.missing name.entry reading) }
    ensures refused { OnOk result (library.new.refused ≡ refused_with library.old.refused reading) }
{
    match reading {
        Reading::Described(device) => library.devices.push(Some(device))?,
        Reading::Missing => {
            if library.missing.is_none() {
                library.missing = Some(name);
            }
            library.devices.push(None)?;
        }
        Reading::Refused(fault) => {
            if library.refused.is_none() {
                library.refused = Some(fault);
            }
            library.devices.push(None)?;
        }
        Reading::RefusedToo => library.devices.push(None)?,
    }
    Ok(())
}

/// The text of the file of a name, given the places of all names.
fn text_named<'f>(
    files: &[(&'f str, &'f [u8])],
    places: &Places<&str>,
    name: &str,
) -> Option<&'f [u8]>
    requires { texts_of places.now ≡ map (λ f. f.0.now) files.now }
    ensures { option_map (λ t. t.now) result ≡ spec.text_of (files_of files.now) name.now }
{
    let Some(place) = places.place_of(name) else {
        return None;
    };
    match files.get(place) {
        Some((_, text)) => Some(*text),
        None => None,
    }
}

/// The names of the files.
fn file_places<'f>(
    alloc: Global,
    files: &[(&'f str, &'f [u8])],
) -> Result<Places<&'f str>, AllocError>
    ensures { IfOk result (λ p. texts_of p ≡ map (λ f. f.0.now) files.now) }
{
    let mut places = Places::new(alloc);
    for (name, _) in files {
        places.push(*name)?;
    }
    Ok(places)
}

/// What stands in a file of this text, or that there is none, and whether one before it is refused. A text that was
/// read already, since its file has another name too, is not read again.
fn read_once<'f, R: Describe>(
    alloc: Global,
    reader: &R,
    text: Option<&'f [u8]>,
    known: &mut BTreeMap<&'f [u8], Option<SharedDevice>>,
    is_refused: bool,
) -> Result<Reading<R::Fault>, AllocError>
    requires { AreKnown R.says known.old }
    ensures read { IfOk result (IsReading R.says R.refuses is_refused (option_map (λ t. t.now) text.entry)) }
    ensures known { OnOk result (AreKnown R.says known.new) }
{
    let Some(text) = text else {
        return Ok(Reading::Missing);
    };
    if let Some(reading) = read_before(known, text, is_refused)? {
        return Ok(reading);
    }
    let reading = read_file(alloc, reader, text)?;
    let device = shared_in(&reading)?;
    known.insert(text, device)?;
    Ok(reading)
}

/// What a text was read as, where it was. Why it is refused is not kept: only the first refusal is told.
fn read_before<'f, F>(
    known: &BTreeMap<&'f [u8], Option<SharedDevice>>,
    text: &'f [u8],
    is_refused: bool,
) -> Result<Option<Reading<F>>, AllocError>
    ensures { IfOk result (λ r. r ≡ known_reading is_refused (known_at known.now text.now)) }
{
    match known.get(&text) {
        Some(Some(device)) => Ok(Some(Reading::Described(device.share()?))),
        Some(None) if is_refused => Ok(Some(Reading::RefusedToo)),
        _ => Ok(None),
    }
}

/// The device that is described, if there is one.
fn shared_in<F>(reading: &Reading<F>) -> Result<Option<SharedDevice>, AllocError>
    ensures { IfOk result (λ d. d ≡ device_in reading.now) }
{
    match reading {
        Reading::Described(device) => Ok(Some(device.share()?)),
        _ => Ok(None),
    }
}

/// What a text describes.
fn read_file<R: Describe>(
    alloc: Global,
    reader: &R,
    text: &[u8],
) -> Result<Reading<R::Fault>, AllocError>
    ensures { IfOk result (IsRead R.says R.refuses false text.now) }
{
    match reader.read(alloc, text) {
        Ok(device) => Ok(Reading::Described(SharedDevice::new(alloc, device)?)),
        Err(Unread::Refused(fault)) => Ok(Reading::Refused(fault)),
        Err(Unread::Memory) => Err(AllocError),
    }
}

/// What is described of a device of the board file, given all names of files and what is described in each.
pub(crate) fn described_at<'r>(
    names: &Places<&str>,
    described: &'r [Option<SharedDevice>],
    table: &Table,
) -> Option<&'r SharedDevice>
    ensures { option_copied result ≡ stands_at (texts_of names.now) described.now (table_view table.now) }
{
    let name = text_at(table, "bsdl")?;
    let place = names.place_of(name)?;
    match described.get(place) {
        Some(Some(device)) => Some(device),
        _ => None,
    }
}

/// The devices of the board that are described. Refuses for want of memory alone.
pub fn devices_of(
    alloc: Global,
    names: &Places<&str>,
    described: &[Option<SharedDevice>],
    devices: &[Value],
) -> Result<Vec<SharedDevice>, AllocError>
    ensures { IfOk result (λ v. v.items
        ≡ filter_map (stands_at (texts_of names.now) described.now) (tables_in (items_view devices.now))) }
{
    let mut shared = Vec::new(alloc);
    for device in devices {
        if let Some(table) = device.as_table() {
            if let Some(device) = described_at(names, described, table) {
                shared.push(device.share()?)?;
            }
        }
    }
    Ok(shared)
}
