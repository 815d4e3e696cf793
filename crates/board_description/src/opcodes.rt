//! Which instruction a board plays by an opcode, where a description gives its codes to several.
ghost use Rattle.std.specs.Prelude.{◌≡◌, ◌++◌, ◌∷◌, [], List, is_none, map, position, slice_get, unwrap_or, IfOk, OnOk};
ghost use Rattle.std.specs.List.{list_all, list_any};
ghost use Rattle.bsdl_device.specs.Device as described;
ghost use Rattle.bsdl_device.specs.Device.{Name};
ghost use Rattle.board_tables.specs.WordView.{texts_of};
ghost use Rattle.board_description.specs.Covered as spec;
ghost use Rattle.board_description.specs.Covered.{opcode_names, opcode_patterns};
ghost use Rattle.board_description.specs.Opcodes as kept;
ghost use Rattle.board_description.specs.Opcodes.{Holds};

use crate::blocks::{Block, add_to, first_in};
use board_tables::Places;
use bsdl_device::{Opcode, Pattern};
use std::alloc::{AllocError, Global};

/// The opcodes of a device in the order of its description. One without an X is found by its bits; those with an X are
/// looked through, 64 at a time.
#[derive(Drop)]
pub(crate) struct Opcodes<'d> {
    /// Of each the instruction.
    names: Vec<&'d str>,
    /// Their bits.
    places: Places<&'d [Option<bool>]>,
    /// Those with an X, each with its place.
    with_x: Vec<Block>,
}

impl<'d> Opcodes<'d> {
    /// Those of these rows. Refuses for want of memory alone.
    pub(crate) fn new(alloc: Global, rows: &'d [Opcode]) -> Result<Opcodes<'d>, AllocError>
        ensures { IfOk result (Holds (opcode_names rows.now) (opcode_patterns rows.now)) }
    {
        let mut opcodes = Opcodes {
            names: Vec::new(alloc),
            places: Places::new(alloc),
            with_x: Vec::new(alloc),
        };
        for row in rows {
            opcodes.add_row(alloc, row)?;
        }
        Ok(opcodes)
    }

    /// Those of a row more.
    fn add_row(&mut self, alloc: Global, row: &'d Opcode) -> Result<(), AllocError>
        ensures { (names : List Name) (patterns : List described.Pattern) → Holds names patterns self.old
            → OnOk result (Holds (names ++ map (λ p. row.now.name) row.now.patterns) (patterns ++ row.now.patterns)
            self.new) }
    {
        for pattern in row.patterns() {
            self.add(alloc, row.name(), pattern.bits())?;
        }
        Ok(())
    }

    /// One more.
    fn add(
        &mut self,
        alloc: Global,
        name: &'d str,
        pattern: &'d [Option<bool>],
    ) -> Result<(), AllocError>
        ensures { (names : List Name) (patterns : List described.Pattern) → Holds names patterns self.old
            → OnOk result (Holds (names ++ name.now ∷ []) (patterns ++ pattern.now ∷ []) self.new) }
    {
        let place = self.places.len();
        self.names.push(name)?;
        self.places.push(pattern)?;
        if has_x(pattern) {
            add_to(alloc, &mut self.with_x, place, pattern)?;
        }
        Ok(())
    }

    /// The instruction that the board plays by an opcode of the instruction of this name.
    pub(crate) fn played(&self, name: &'d str, pattern: &'d Pattern) -> &'d str
        ensures { (rows : List described.Opcode) → Holds (opcode_names rows) (opcode_patterns rows) self.now
            → result.now ≡ unwrap_or (spec.taking rows pattern.now) name.now }
    {
        if all_ones(pattern.bits()) {
            return "BYPASS";
        }
        match self.first_taking(pattern.bits()) {
            Some(place) => name_at(&self.names, place, name),
            None => name,
        }
    }

    /// The first opcode, by its place, that takes one.
    fn first_taking(&self, pattern: &'d [Option<bool>]) -> Option<usize>
        ensures { (names : List Name) (patterns : List described.Pattern) → Holds names patterns self.now
            → result ≡ position (λ other. spec.takes other pattern.now) patterns }
    {
        let same = self.places.place(pattern);
        first_of(same, first_in(&self.with_x, pattern))
    }
}

/// The name at a place, and this one where there is none.
fn name_at<'d>(names: &[&'d str], place: usize, name: &'d str) -> &'d str
    ensures { result.now ≡ unwrap_or (slice_get (texts_of names.now) place) name.now }
{
    match names.get(place) {
        Some(other) => *other,
        None => name,
    }
}

/// The first of two places, where there are such.
fn first_of(place: Option<usize>, other: Option<usize>) -> Option<usize>
    ensures { result ≡ kept.first_of place other }
{
    match (place, other) {
        (Some(place), Some(other)) => Some(place.min(other)),
        (Some(place), None) => Some(place),
        (None, other) => other,
    }
}

/// Whether an opcode has an X.
fn has_x(pattern: &[Option<bool>]) -> bool
    ensures { result ≡ list_any is_none pattern.now }
{
    for bit in pattern {
        if bit.is_none() {
            return true;
        }
    }
    false
}

/// Whether an opcode is all ones.
fn all_ones(pattern: &[Option<bool>]) -> bool
    ensures { result ≡ list_all spec.is_one pattern.now }
{
    for bit in pattern {
        if *bit != Some(true) {
            return false;
        }
    }
    true
}
