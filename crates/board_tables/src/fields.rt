//! The first key of a board file that is at fault.
ghost use Rattle.std.specs.Prelude.{◌≡◌, suc, drop, [], ◌∷◌, ◌++◌, OnOk, IfErr};
ghost use Rattle.toml.specs.View.{table_view, items_view};
ghost use Rattle.board_tables.specs.Fields as fields;
ghost use Rattle.board_tables.specs.Fields.{tables_in};
ghost use Rattle.board_tables.specs.Keys as keys;
ghost use Rattle.board_tables.specs.Faults as spec;
ghost use Rattle.board_tables.specs.View.{Checks, IsIn, Names};
ghost use Rattle.board_tables.specs.declared.fields.BoardTable.TheVariants.{Device, Net};
ghost use Rattle.board_tables.specs.WordView.{texts_of};

use crate::keys::{Keys, Known, unfit_key};
use crate::places::Places;
use crate::tables::{items_at, name_at};
use std::alloc::Global;
use toml::{Table, Value};

/// A table of a board file: the file's own, or that of a device or of a net, each counted from 1.
#[derive(Debug, Drop, Clone, Copy, PartialEq, Eq)]
pub enum BoardTable {
    File,
    Device(usize),
    Net(usize),
}

/// Why the tables of a board file are refused.
#[derive(Debug, Drop, Clone, Copy)]
pub enum Unfit<'t> {
    /// This key is at fault, in this table: missing, unknown, or with a value that does not fit.
    Field(&'t str, BoardTable),
    /// A growth was refused.
    Memory,
}

/// Judges the keys of the file, then those of each device, then those of each net, given what is known of the devices.
pub fn check_fields<'t>(
    alloc: Global,
    table: &'t Table,
    known: &[Option<Known>],
) -> Result<(), Unfit<'t>>
    ensures key { Checks result (spec.unfit known.now (table_view table.now)) }
    ensures table { Names result (spec.unfit_table known.now (table_view table.now)) }
{
    if let Some(key) = unfit_key(Keys::Top, table) {
        return Err(Unfit::Field(key, BoardTable::File));
    }
    check_devices(alloc, items_at(table, "device"), known)?;
    check_nets(alloc, items_at(table, "net"))
}

fn check_devices<'t>(
    alloc: Global,
    devices: &'t [Value],
    known: &[Option<Known>],
) -> Result<(), Unfit<'t>>
    ensures key { Checks result (spec.unfit_device [] known.now (tables_in (items_view devices.now))) }
    ensures number { IfErr result
        (λ u. IsIn u (Device (suc (spec.devices_before [] known.now (tables_in (items_view devices.now)))))) }
{
    let mut names = Places::new(alloc);
    let mut rest = known;
    let mut number = 0;
    for device in devices {
        if let Some(table) = device.as_table() {
            let (first, others) = first_known(rest);
            number += 1;
            check_device(&mut names, first, table, number)?;
            rest = others;
        }
    }
    Ok(())
}

fn check_nets<'t>(alloc: Global, nets: &'t [Value]) -> Result<(), Unfit<'t>>
    ensures key { Checks result (spec.unfit_net [] (tables_in (items_view nets.now))) }
    ensures number { IfErr result
        (λ u. IsIn u (Net (suc (spec.nets_before [] (tables_in (items_view nets.now)))))) }
{
    let mut names = Places::new(alloc);
    let mut number = 0;
    for net in nets {
        if let Some(table) = net.as_table() {
            number += 1;
            check_net(&mut names, table, number)?;
        }
    }
    Ok(())
}

/// Judges the keys of a device, given the names of those before it, and adds its name.
#[tactic(auto, using(crate::proofs::KeyLaws::one_name_more))]
fn check_device<'t>(
    names: &mut Places<&'t str>,
    known: Option<Known>,
    table: &'t Table,
    number: usize,
) -> Result<(), Unfit<'t>>
    ensures judged { Checks result
        (keys.unfit_key (keys.device_keys (texts_of names.old) known) (table_view table.now)) }
    ensures number { IfErr result (λ u. IsIn u (Device number)) }
    ensures named { OnOk result
        (texts_of names.new ≡ texts_of names.old ++ fields.name_at (table_view table.now) ∷ []) }
{
    if let Some(key) = unfit_key(Keys::Device(names, known), table) {
        return Err(Unfit::Field(key, BoardTable::Device(number)));
    }
    match names.push(name_at(table)) {
        Ok(()) => Ok(()),
        Err(_) => Err(Unfit::Memory),
    }
}

#[tactic(auto, using(crate::proofs::KeyLaws::one_name_more))]
fn check_net<'t>(
    names: &mut Places<&'t str>,
    table: &'t Table,
    number: usize,
) -> Result<(), Unfit<'t>>
    ensures judged { Checks result (keys.unfit_key (keys.net_keys (texts_of names.old)) (table_view table.now)) }
    ensures number { IfErr result (λ u. IsIn u (Net number)) }
    ensures named { OnOk result
        (texts_of names.new ≡ texts_of names.old ++ fields.name_at (table_view table.now) ∷ []) }
{
    if let Some(key) = unfit_key(Keys::Net(names), table) {
        return Err(Unfit::Field(key, BoardTable::Net(number)));
    }
    match names.push(name_at(table)) {
        Ok(()) => Ok(()),
        Err(_) => Err(Unfit::Memory),
    }
}

/// What is known of the first device, and of those behind it.
fn first_known(known: &[Option<Known>]) -> (Option<Known>, &[Option<Known>])
    ensures first { result.0 ≡ spec.first_known known.now }
    ensures others { result.1.now ≡ drop 1 known.now }
{
    match known.split_first() {
        Some((first, others)) => (*first, others),
        None => (None, known),
    }
}
