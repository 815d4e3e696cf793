//! The strings of cores that follow: which core bit of a device takes what which of its port bits sees.
ghost use Rattle.std.specs.Prelude.{◌≡◌, ◌≤◌, ◌==◌, ◌++◌, ◌∷◌, [], not, true, length, option_map, IfOk};
ghost use Rattle.std.specs.List.{list_any};
ghost use Rattle.toml.specs.View.{items_view};
ghost use Rattle.boundary.specs.Cells.{AreDrivers};
ghost use Rattle.board_tables.specs.Fields.{texts_in};
ghost use Rattle.board_tables.specs.WordView.{HasDigits, port as port_value};
ghost use Rattle.board_parts.specs.Strings as spec;

use crate::pins::port_bit;
use board_plan::SharedDevice;
use board_tables::{Places, PortText, follow_of};
use boundary::drivers;
use bsdl_device::{Device, PortMode};
use pin_nets::Follow;
use std::alloc::{AllocError, Global};
use std::marker::Model;
use toml::Value;

/// A description, and for each of its first port bits, as many as were wanted, which of its cells drives it. Contracts
/// see it as the description.
#[derive(Drop)]
pub(crate) struct DrivenDevice {
    device: SharedDevice,
    drivers: Vec<Option<usize>>,
}

impl Model for DrivenDevice {
    ghost use Rattle.bsdl_device.specs.Device as described;
    ghost use Rattle.boundary.specs.Cells.{AreDrivers};

    ghost Value = { described.Device };

    ghost view = { λ d. d.device };

    ghost invariant = { λ d. AreDrivers d.device.cells d.drivers.items };
}

impl DrivenDevice {
    /// A description with the cells that drive so many of its port bits. Refuses for want of memory alone.
    pub(crate) fn new(
        alloc: Global,
        device: &SharedDevice,
        ports: usize,
    ) -> Result<DrivenDevice, AllocError>
        ensures { IfOk result (λ d. d ≡ device.now) }
    {
        let drivers = drivers(alloc, device.get().cells(), ports)?;
        Ok(DrivenDevice {
            device: device.share()?,
            drivers,
        })
    }

    /// How many cells it has.
    pub(crate) fn cell_count(&self) -> usize
        ensures { result ≡ length self.now.cells }
    {
        self.device.get().cells().len()
    }

    /// The strings that the texts of these values say of it, as [`find_strings`] has them.
    pub(crate) fn strings(
        &self,
        alloc: Global,
        texts: &[Value],
    ) -> Result<Option<Vec<Follow>>, AllocError>
        ensures { IfOk result (λ found. option_map (λ v. v.items) found
            ≡ spec.strings_of self.now (texts_in (items_view texts.now))) }
    {
        if self.drivers.len() < self.device.get().port_count() {
            return find_strings(alloc, &self.device, texts);
        }
        strings_by(alloc, self.device.get(), &self.drivers, texts)
    }
}

/// The strings that the texts of these values say of a device, in their order: each from the core bit of a cell that
/// drives a port bit to a port bit of mode in or inout, none of them the TAP's. `None` where a text says no such
/// string, or one for a cell that has one. Refuses for want of memory alone.
pub(crate) fn find_strings(
    alloc: Global,
    device: &SharedDevice,
    texts: &[Value],
) -> Result<Option<Vec<Follow>>, AllocError>
    ensures { IfOk result (λ found. option_map (λ v. v.items) found
        ≡ spec.strings_of device.now (texts_in (items_view texts.now))) }
{
    if texts.is_empty() {
        return Ok(Some(Vec::new(alloc)));
    }
    let device = device.get();
    let drivers = drivers(alloc, device.cells(), device.port_count())?;
    strings_by(alloc, device, &drivers, texts)
}

/// The strings of a device, given the first cell that drives each port bit.
fn strings_by(
    alloc: Global,
    device: &Device,
    drivers: &[Option<usize>],
    texts: &[Value],
) -> Result<Option<Vec<Follow>>, AllocError>
    requires ports { length device.now.ports ≤ length drivers.now }
    requires drivers { AreDrivers device.now.cells drivers.now }
    ensures { IfOk result (λ found. option_map (λ v. v.items) found
        ≡ spec.strings_of device.now (texts_in (items_view texts.now))) }
{
    let mut strings = Vec::new(alloc);
    let mut cells = Places::new(alloc);
    for value in texts {
        if let Some(text) = value.as_str() {
            let Some(string) = find_string(alloc, device, drivers, text)? else {
                return Ok(None);
            };
            if !add_string(&mut cells, &mut strings, string)? {
                return Ok(None);
            }
        }
    }
    Ok(Some(strings))
}

/// Adds a string, unless its cell has one; given the cells that have one. Answers whether it was added.
#[tactic(auto, using(crate::proofs::StringLaws::has_cell_is, crate::proofs::StringLaws::cells_more))]
fn add_string(
    cells: &mut Places<usize>,
    strings: &mut Vec<Follow>,
    string: Follow,
) -> Result<bool, AllocError>
    requires { cells.old ≡ spec.cells_of strings.old.items }
    ensures new { IfOk result (λ added. added ≡ not (spec.has_cell string.cell strings.old.items)) }
    ensures added { IfOk result (λ added. added ≡ true
        → strings.new.items ≡ strings.old.items ++ string ∷ []) }
    ensures cells { IfOk result (λ added. added ≡ true → cells.new ≡ spec.cells_of strings.new.items) }
{
    if has_cell(cells, string.cell) {
        return Ok(false);
    }
    cells.push(string.cell)?;
    strings.push(string)?;
    Ok(true)
}

fn has_cell(cells: &Places<usize>, cell: usize) -> bool
    ensures { result ≡ list_any (λ c. cell == c) cells.now }
{
    cells.place(cell).is_some()
}

/// The string that a text says of a device, given the first cell that drives each port bit.
#[tactic(auto, unfolding(crate::specs::Strings::string_of))]
fn find_string(
    alloc: Global,
    device: &Device,
    drivers: &[Option<usize>],
    text: &str,
) -> Result<Option<Follow>, AllocError>
    requires ports { length device.now.ports ≤ length drivers.now }
    requires drivers { AreDrivers device.now.cells drivers.now }
    ensures { IfOk result (λ string. string ≡ spec.string_of device.now text.now) }
{
    let Some(words) = follow_of(text) else {
        return Ok(None);
    };
    let Some(cell) = target_cell(alloc, device, drivers, words.target)? else {
        return Ok(None);
    };
    match source_bit(alloc, device, words.source)? {
        Some(source) => Ok(Some(Follow {
            cell,
            source,
            inverted: words.inverted,
        })),
        None => Ok(None),
    }
}

/// The cell that drives a target, given the first that drives each port bit.
#[tactic(auto, using(crate::proofs::StringLaws::driver_there))]
fn target_cell(
    alloc: Global,
    device: &Device,
    drivers: &[Option<usize>],
    port: PortText<'_>,
) -> Result<Option<usize>, AllocError>
    requires ports { length device.now.ports ≤ length drivers.now }
    requires drivers { AreDrivers device.now.cells drivers.now }
    requires digits { HasDigits port }
    ensures { IfOk result (λ cell. cell ≡ spec.target_of device.now (port_value port.entry)) }
{
    match port_bit(alloc, device, port.name, port.index)? {
        Some(bit) => Ok(drivers[bit]),
        None => Ok(None),
    }
}

/// The port bit of a source.
fn source_bit(
    alloc: Global,
    device: &Device,
    port: PortText<'_>,
) -> Result<Option<usize>, AllocError>
    requires { HasDigits port }
    ensures { IfOk result (λ bit. bit ≡ spec.source_of device.now (port_value port.entry)) }
{
    match port_bit(alloc, device, port.name, port.index)? {
        Some(bit) => Ok(readable(device, bit)),
        None => Ok(None),
    }
}

/// The port bit of this number, if it may be followed.
fn readable(device: &Device, number: usize) -> Option<usize>
    ensures { result ≡ spec.readable device.now number }
{
    if number < device.port_count() && is_source(device.port(number).mode) {
        Some(number)
    } else {
        None
    }
}

/// Whether a port bit of this mode may be followed.
fn is_source(mode: PortMode) -> bool
    ensures { result ≡ spec.is_source mode }
{
    matches!(mode, PortMode::In | PortMode::InOut)
}
