//! The ports of a device, bit by bit.
ghost use Rattle.std.specs.Prelude.{◌≡◌, ◌+◌, ◌++◌, ◌∷◌, ◌<◌, ◌^◌, [], ℕ, Bool, List, Option, Some, true, false};
ghost use Rattle.std.specs.Prelude.{bytes_eq, cond, length, map, option_and_then, option_map, slice_get, string_bytes};
ghost use Rattle.std.specs.Prelude.{IfOk, IfSome, OnOk};
ghost use Rattle.std.specs.BTreeMap.{get};
ghost use Rattle.std.specs.Str.{str_to_ascii_lowercase};
ghost use Rattle.bsdl_device.specs.declared.port_bits.BitPlace as declared_place;
ghost use Rattle.bsdl_device.specs.Found.{AddsNamed, AreFirst, number_at};
ghost use Rattle.bsdl_device.specs.Ports.{bits_of, bit_number};
ghost use Rattle.bsdl_device.specs.View.{pair, placed, places, port_bit};
ghost use Rattle.name_keys.specs.Keys.{key_order};

use crate::PortMode;
use crate::numbers::Numbers;
use name_keys::OwnedNameKey;
use std::alloc::{AllocError, Global};
use std::collections::BTreeMap;
use std::marker::Model;

/// A port as it is declared, with its name in upper case.
#[derive(Debug, Drop)]
pub struct Port {
    pub name: String,
    pub mode: PortMode,
    /// Whether it belongs to the TAP.
    pub is_tap: bool,
}

/// The indices of a port of several bits: so many from the lowest on.
#[derive(Debug, Clone, Copy, PartialEq, Eq)]
pub struct Indices {
    pub low: usize,
    pub len: usize,
}

/// One bit of a port; its index where the port has several.
#[derive(Debug, Clone, Copy, PartialEq, Eq)]
pub struct PortBit<'a> {
    pub name: &'a str,
    pub index: Option<usize>,
    pub mode: PortMode,
    pub is_tap: bool,
}

/// A bit by the place of its port, so that a name is kept once however many bits the port has.
#[derive(Debug, Clone, Copy)]
struct BitPlace {
    port: usize,
    index: Option<usize>,
}

/// The ports of a device, with the numbers of their bits by name in lower case. Contracts see them as the list of their
/// bits.
#[derive(Debug, Drop)]
pub struct Ports {
    alloc: Global,
    ports: Vec<Port>,
    bits: Vec<BitPlace>,
    by_name: BTreeMap<OwnedNameKey, Numbers>,
}

impl Model for Ports {
    ghost use Rattle.std.specs.Prelude.{List, map};
    ghost use Rattle.bsdl_device.specs.Device as described;
    ghost use Rattle.bsdl_device.specs.Kept as kept;
    ghost use Rattle.bsdl_device.specs.View as view_of;

    ghost Value = { List described.PortBit };

    ghost view = { λ p. map (view_of.placed p.ports.items) p.bits.items };

    ghost invariant = { λ p. kept.AreKept p.ports.items p.bits.items p.by_name };
}

impl Ports {
    /// No ports yet.
    pub fn new(alloc: Global) -> Ports
        ensures { result ≡ [] }
    {
        Ports {
            alloc,
            ports: Vec::new(alloc),
            bits: Vec::new(alloc),
            by_name: BTreeMap::new(alloc),
        }
    }

    /// These ports and another behind them: one bit, or one for each of its indices. Refuses for want of memory alone.
    /// No `alloc` is handed in: the lists grow by the one that [`Ports::new`] was given.
    pub fn with(mut self, port: Port, indices: Option<Indices>) -> Result<Ports, AllocError>
        requires { IfSome indices (λ i. i.low + i.len < 2 ^ 64) }
        ensures { IfOk result (λ p. p ≡ self ++ bits_of (string_bytes port.name) port.mode port.is_tap
            (option_map pair indices)) }
    {
        let key = key_of(self.alloc, port.name.as_str())?;
        let place = self.ports.len();
        self.ports.push(port)?;
        add_named(
            self.alloc,
            &mut self.by_name,
            key,
            &mut self.bits,
            place,
            indices,
        )?;
        Ok(self)
    }

    pub(crate) fn len(&self) -> usize
        ensures { result ≡ length self.now }
    {
        self.bits.len()
    }

    pub(crate) fn get(&self, number: usize) -> PortBit<'_>
        requires { number < length self.now }
        ensures { slice_get self.now number ≡ Some (port_bit result) }
    {
        let place = self.bits[number];
        let port = &self.ports[place.port];
        PortBit {
            name: port.name.as_str(),
            index: place.index,
            mode: port.mode,
            is_tap: port.is_tap,
        }
    }

    pub(crate) fn find(
        &self,
        alloc: Global,
        name: &str,
        index: Option<usize>,
    ) -> Result<Option<usize>, AllocError>
        ensures { IfOk result (λ number. number ≡ bit_number name.now index self.now) }
    {
        let key = key_of(alloc, name)?;
        Ok(find_number(&self.by_name, &key, index))
    }
}

/// The key of a name, in lower case.
fn key_of(alloc: Global, name: &str) -> Result<OwnedNameKey, AllocError>
    ensures { IfOk result (λ key. key ≡ str_to_ascii_lowercase name.now) }
{
    let mut key = String::from_str(alloc, name)?;
    key.make_ascii_lowercase();
    Ok(OwnedNameKey::new(key))
}

fn find_number(
    by_name: &BTreeMap<OwnedNameKey, Numbers>,
    key: &OwnedNameKey,
    index: Option<usize>,
) -> Option<usize>
    ensures { result ≡ option_and_then (λ n. number_at n index) (get key_order by_name.now key.now) }
{
    match by_name.get(key) {
        Some(numbers) => numbers.get(index),
        None => None,
    }
}

/// Adds the places of the bits of a port of this name, and their numbers to those of the name.
fn add_named(
    alloc: Global,
    by_name: &mut BTreeMap<OwnedNameKey, Numbers>,
    key: OwnedNameKey,
    bits: &mut Vec<BitPlace>,
    port: usize,
    indices: Option<Indices>,
) -> Result<(), AllocError>
    requires { IfSome indices (λ i. i.low + i.len < 2 ^ 64) }
    ensures places { OnOk result (bits.new.items ≡ bits.old.items ++ places port indices) }
    ensures named { OnOk result (AddsNamed key port by_name.old by_name.new bits.old.items
        bits.new.items) }
{
    let numbers = by_name.entry(key)?.or_insert(Numbers::new(alloc));
    add_bits(bits, numbers, port, indices)?;
    Ok(())
}

/// Adds the places of a port's bits, and their numbers.
fn add_bits(
    bits: &mut Vec<BitPlace>,
    numbers: &mut Numbers,
    port: usize,
    indices: Option<Indices>,
) -> Result<(), AllocError>
    requires { IfSome indices (λ i. i.low + i.len < 2 ^ 64) }
    ensures places { OnOk result (bits.new.items ≡ bits.old.items ++ places port indices) }
    ensures numbers { OnOk result ((passes : declared_place.BitPlace → Bool)
        → ((i : Option ℕ) → passes (record { port = port; index = i }) ≡ true)
        → AreFirst passes numbers.old bits.old.items → AreFirst passes numbers.new bits.new.items) }
{
    match indices {
        None => add_bit(bits, numbers, BitPlace { port, index: None })?,
        Some(found) => {
            for index in found.low..found.low + found.len {
                let index = Some(index);
                add_bit(bits, numbers, BitPlace { port, index })?;
            }
        }
    }
    Ok(())
}

fn add_bit(bits: &mut Vec<BitPlace>, numbers: &mut Numbers, bit: BitPlace) -> Result<(), AllocError>
    ensures places { OnOk result (bits.new.items ≡ bits.old.items ++ bit ∷ []) }
    ensures numbers { OnOk result ((passes : declared_place.BitPlace → Bool) → passes bit ≡ true
        → AreFirst passes numbers.old bits.old.items → AreFirst passes numbers.new bits.new.items) }
{
    numbers.add(bit.index, bits.len())?;
    bits.push(bit)?;
    Ok(())
}
