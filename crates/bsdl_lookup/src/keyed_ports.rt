//! Ports by the keys of their names.
ghost use Rattle.std.specs.Prelude.{◌≡◌, ◌+◌, ℕ, List, length, map, option_map, option_and_then, IfOk, OnOk, Some};
ghost use Rattle.std.specs.Prelude.{bytes_eq, if◌then◌else◌, unwrap_or};
ghost use Rattle.std.specs.BTreeMap.{get};
ghost use Rattle.std.specs.Option.{option_or};
ghost use Rattle.name_keys.specs.Keys.{key_order};
ghost use Rattle.bsdl_text.specs.Words.{upper};
ghost use Rattle.bsdl_values.specs.CellView.{port_name};
ghost use Rattle.bsdl_entity.specs.PortsView as ports_view;
ghost use Rattle.bsdl_entity.specs.Ports as port_list;
ghost use Rattle.bsdl_lookup.specs.NamedPorts as spec;
ghost use Rattle.bsdl_lookup.specs.Keyed.{AreKeyed, port_keyed, range_at};
ghost use Rattle.bsdl_lookup.specs.View.{numbered_port as port_view, port_index};

use crate::numbered_ports::{NumberedPort, port_index_at};
use crate::port_index::PortIndex;
use bsdl_entity::{Group, Range};
use bsdl_text::Word;
use bsdl_values::PortName;
use name_keys::NameKey;
use std::alloc::{AllocError, Global};
use std::collections::BTreeMap;

/// The first port of each name, in upper case, in an order in which names that begin alike are told apart at once.
///
/// A port of the tree takes 40 bytes, since a text of 4 MiB may declare a million of them.
#[derive(Debug, Drop)]
pub struct KeyedPorts<'a> {
    pub by_key: BTreeMap<NameKey<'a>, GroupedPort>,
    /// The range of each group, whose numbers have no zeros before them.
    pub ranges: Vec<Option<Range<'a>>>,
    next: usize,
}

/// A port by its number, and the place of the group that declares it.
#[derive(Debug, Clone, Copy)]
pub struct GroupedPort {
    pub number: usize,
    pub group: usize,
}

/// The ports of an entity by the keys of their names. Refuses for want of memory alone.
pub fn keyed_ports_of<'a>(alloc: Global, groups: &[Group<'a>]) -> Result<KeyedPorts<'a>, AllocError>
    ensures { IfOk result (λ p. AreKeyed p (ports_view.ports groups.now)) }
{
    let mut keyed = KeyedPorts {
        by_key: BTreeMap::new(alloc),
        ranges: ranges_of(alloc, groups)?,
        next: 0,
    };
    for (place, group) in groups.iter().enumerate() {
        add_group(&mut keyed, place, group)?;
    }
    Ok(keyed)
}

/// The ranges of these groups.
fn ranges_of<'a>(alloc: Global, groups: &[Group<'a>]) -> Result<Vec<Option<Range<'a>>>, AllocError>
    ensures { IfOk result (λ v. map (option_map ports_view.range) v.items
        ≡ map (λ g. option_map ports_view.range g.range) groups.now) }
{
    let mut ranges = Vec::with_capacity(alloc, groups.len())?;
    for group in groups {
        ranges.push(trimmed(group.range))?;
    }
    Ok(ranges)
}

/// A range whose numbers have no zeros before them.
fn trimmed<'a>(range: Option<Range<'a>>) -> Option<Range<'a>>
    ensures { option_map ports_view.range result ≡ option_map ports_view.range range.entry }
{
    match range {
        Some(range) => Some(Range {
            low: range.low.significant(),
            high: range.high.significant(),
        }),
        None => None,
    }
}

fn add_group<'a>(
    keyed: &mut KeyedPorts<'a>,
    place: usize,
    group: &Group<'a>,
) -> Result<(), AllocError>
    requires { range_at keyed.old.ranges.items place ≡ option_map ports_view.range group.now.range }
    ensures ranges { OnOk result (keyed.new.ranges ≡ keyed.old.ranges) }
    ensures next { OnOk result (keyed.new.next ≡ keyed.old.next + length (ports_view.group group.now)) }
    ensures found { OnOk result ((q : List ℕ) → port_keyed keyed.new q
        ≡ option_or (port_keyed keyed.old q) (spec.find_port keyed.old.next (ports_view.group group.now) q)) }
{
    for name in &group.names {
        add_name(keyed, *name, place)?;
    }
    Ok(())
}

/// Adds a port of the group at this place.
fn add_name<'a>(keyed: &mut KeyedPorts<'a>, name: Word<'a>, group: usize) -> Result<(), AllocError>
    ensures ranges { OnOk result (keyed.new.ranges ≡ keyed.old.ranges) }
    ensures next { OnOk result (keyed.new.next ≡ keyed.old.next + 1) }
    ensures found { OnOk result ((q : List ℕ) → port_keyed keyed.new q
        ≡ option_or (port_keyed keyed.old q) (spec.at_name (upper name.entry.text.now)
        (keyed.old.next, range_at keyed.old.ranges.items group) q)) }
{
    let key = NameKey::new(name.text);
    let number = keyed.next;
    // Each port has bytes of its own in the text, so that there are fewer than 2^64: this refuses none.
    keyed.next = number.checked_add(1).ok_or(AllocError)?;
    put_first(&mut keyed.by_key, key, GroupedPort { number, group })
}

/// Puts a port at a key; where one stands already, that one stays.
fn put_first<'a>(
    by_key: &mut BTreeMap<NameKey<'a>, GroupedPort>,
    key: NameKey<'a>,
    port: GroupedPort,
) -> Result<(), AllocError>
    ensures { OnOk result ((q : List ℕ) → get key_order by_key.new q ≡ (if bytes_eq q key.entry
        then Some (unwrap_or (get key_order by_key.old key.entry) port) else get key_order by_key.old q)) }
{
    by_key.entry(key)?.or_insert(port);
    Ok(())
}

/// The port of a name, in any case, where there is one.
pub fn port_by_key<'a>(keyed: &KeyedPorts<'a>, name: Word<'a>) -> Option<NumberedPort<'a>>
    ensures { option_map port_view result ≡ port_keyed keyed.now (upper name.entry.text.now) }
{
    match keyed.by_key.get(&NameKey::new(name.text)) {
        Some(found) => Some(NumberedPort {
            number: found.number,
            range: range_in(&keyed.ranges, found.group),
        }),
        None => None,
    }
}

/// The range of the group at a place, where it has one.
fn range_in<'a>(ranges: &[Option<Range<'a>>], group: usize) -> Option<Range<'a>>
    ensures { option_map ports_view.range result ≡ range_at ranges.now group }
{
    match ranges.get(group) {
        Some(range) => *range,
        None => None,
    }
}

/// The port bit that a row of the boundary register names, where it is declared.
pub fn port_index_by_key<'a>(keyed: &KeyedPorts<'a>, port: PortName<'a>) -> Option<PortIndex<'a>>
    ensures { (ps : List port_list.Port) → AreKeyed keyed.now ps → option_map port_index result
        ≡ spec.port_index_of ps (port_name port.entry) }
{
    match port_by_key(keyed, port.name) {
        Some(found) => port_index_at(found, port.index),
        None => None,
    }
}
