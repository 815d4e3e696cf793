//! Which cells are disabled together, 64 cells at a time: those that name one control cell, with one disabling value.

ghost use Rattle.std.specs.Prelude.{◌≡◌, ◌≢◌, ◌<◌, ◌+◌, ◌&&◌, ◌||◌, not, ℕ, true, List, Some};
ghost use Rattle.std.specs.Prelude.{OnOk, IfOk, IfSome, length};
ghost use Rattle.jt_bits.specs.Packed.{has_bit};
ghost use Rattle.bsdl_device.specs.declared.Cell.{Cell as TheCell};
ghost use Rattle.boundary.specs.Cells.{same_bit};
ghost use Rattle.boundary.specs.Controls.{AreGroups, IsAmong, IsControlled, IsGroupOf, control_at};

use crate::bit;
use crate::captures::with_mark;
use bsdl_device::{Cell, Control3};
use jt_bits::Bits;
use std::alloc::{AllocError, Global};

/// Cells that are disabled together.
#[derive(Drop, Clone, Copy)]
pub(crate) struct Group {
    /// The first of the 64 among which they are.
    pub(crate) first: usize,
    /// Their control cell.
    pub(crate) control: usize,
    /// Its bit that disables them.
    pub(crate) disabling: bool,
    /// Which they are: bit `j` is that of the cell `first + j`.
    pub(crate) cells: u64,
}

/// The groups of a device's cells, those of the first 64 first.
#[derive(Drop)]
pub(crate) struct Controls {
    pub(crate) groups: Vec<Group>,
    /// Of each 64 cells where their groups begin. No clause speaks of it: a group that is not found tells nothing.
    starts: Vec<usize>,
}

impl Controls {
    /// Where the groups of the 64 cells from `first` on begin.
    pub(crate) fn from(&self, first: usize) -> usize {
        match self.starts.get(first / 64) {
            Some(start) => *start,
            None => self.groups.len(),
        }
    }
}

/// The groups of these cells. Refuses for want of memory alone.
pub(crate) fn controls_of(alloc: Global, list: &[Cell]) -> Result<Controls, AllocError>
    ensures { IfOk result (λ c. AreGroups list.now c.groups.items) }
{
    let mut groups = Vec::new(alloc);
    let mut starts = Vec::new(alloc);
    let mut start = 0;
    for k in 0..list.len() {
        if k % 64 == 0 {
            start = groups.len();
            starts.push(start)?;
        }
        enter_cell(&mut groups, start, list, k)?;
    }
    Ok(Controls { groups, starts })
}

/// One more cell, in the group of its control among those from a place on, or in a new one; one without a control is in
/// none.
fn enter_cell(
    groups: &mut Vec<Group>,
    from: usize,
    list: &[Cell],
    k: usize,
) -> Result<(), AllocError>
    requires { k < length list.now }
    ensures { OnOk result (AreGroups list.now groups.old.items → AreGroups list.now groups.new.items) }
{
    let Some(control) = list[k].control else {
        return Ok(());
    };
    enter(groups, from, k - k % 64, k % 64, control)
}

/// Cell `first + j`, which has this control, is entered.
fn enter(
    groups: &mut Vec<Group>,
    from: usize,
    first: usize,
    j: usize,
    control: Control3,
) -> Result<(), AllocError>
    requires { j < 64 }
    ensures { OnOk result ((all : List TheCell) → control_at all (first + j) ≡ Some control
        → AreGroups all groups.old.items → AreGroups all groups.new.items) }
{
    match among(groups, from, first, control) {
        Some(i) => {
            groups[i] = with_cell(groups[i], j);
            Ok(())
        }
        None => {
            groups.push(with_cell(no_cells(first, control), j))?;
            Ok(())
        }
    }
}

/// The first of the groups from a place on that is of this control and these 64 cells.
fn among(groups: &[Group], from: usize, first: usize, control: Control3) -> Option<usize>
    ensures { IfSome result (λ i. IsAmong groups.now i first control) }
{
    for i in from..groups.len() {
        if is_of(groups[i], first, control) {
            return Some(i);
        }
    }
    None
}

/// Whether a group is of this control and these 64 cells. Answered false in vain it makes a group more, so the clause
/// goes one way.
fn is_of(group: Group, first: usize, control: Control3) -> bool
    ensures { result ≡ true → IsGroupOf group first control }
{
    group.first == first && group.control == control.cell && group.disabling == control.disabling
}

/// A group of this control without cells.
fn no_cells(first: usize, control: Control3) -> Group
    ensures of { IsGroupOf result first control }
    ensures none { result.cells ≡ 0 }
{
    Group {
        first,
        control: control.cell,
        disabling: control.disabling,
        cells: 0,
    }
}

/// A group with cell `j` of the 64 besides.
fn with_cell(group: Group, j: usize) -> Group
    requires { j < 64 }
    ensures rest { result ≡ record group { cells = result.cells } }
    ensures others { (k : ℕ) → k < 64 → k ≢ j → has_bit result.cells k ≡ has_bit group.cells k }
{
    Group {
        cells: with_mark(group.cells, j, true),
        ..group
    }
}

/// Of 64 cells those of groups, by what their controls say.
#[derive(Drop, Clone, Copy)]
pub(crate) struct Controlled {
    /// Those that are not disabled.
    pub(crate) on: u64,
    /// Those that are.
    pub(crate) off: u64,
}

/// What the controls of the 64 cells from `first` on say under the bits in force, by their groups from a place on.
pub(crate) fn by_groups(groups: &[Group], from: usize, bits: &Bits, first: usize) -> Controlled
    ensures { (all : List TheCell) → AreGroups all groups.now → IsControlled all bits.now first result }
{
    let mut words = Controlled { on: 0, off: 0 };
    for i in from..groups.len() {
        let group = groups[i];
        if group.first != first {
            return words;
        }
        let disabled = is_same(bit(bits, group.control), group.disabling);
        words = with_group(words, group.cells, disabled);
    }
    words
}

/// With the cells of a group besides, which are disabled or not.
fn with_group(words: Controlled, cells: u64, disabled: bool) -> Controlled
    ensures on { (j : ℕ) → has_bit result.on j ≡ ((not disabled && has_bit cells j) || has_bit words.on j) }
    ensures off { (j : ℕ) → has_bit result.off j ≡ ((disabled && has_bit cells j) || has_bit words.off j) }
{
    if disabled {
        Controlled {
            off: cells | words.off,
            ..words
        }
    } else {
        Controlled {
            on: cells | words.on,
            ..words
        }
    }
}

fn is_same(one: bool, other: bool) -> bool
    ensures { result ≡ same_bit one other }
{
    one == other
}
