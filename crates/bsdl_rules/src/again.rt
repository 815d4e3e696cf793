//! The first name that a description gives again.
ghost use Rattle.std.specs.Prelude.{◌≡◌, ◌++◌, ℕ, Some, None, map, option_map, IfOk, OnOk};
ghost use Rattle.std.specs.List.{flat_map};
ghost use Rattle.bsdl_entity.specs.PortsView as ports_view;
ghost use Rattle.bsdl_entity.specs.GivenView.{given as given_view};
ghost use Rattle.bsdl_values.specs.InstructionView as rows_view;
ghost use Rattle.bsdl_description.specs.View.{description};
ghost use Rattle.bsdl_rules.specs.Namings as namings;
ghost use Rattle.bsdl_rules.specs.Twice as spec;
ghost use Rattle.bsdl_rules.specs.NamingView.{again, named};

use crate::naming::{Again, earlier_again, first_again};
use bsdl_description::Description;
use bsdl_entity::{Given, Group, Outline};
use bsdl_text::Word;
use bsdl_values::{AccessRow, Instr, OpcodeRow};
use std::alloc::{AllocError, Global};

fn port_names<'g, 'a>(
    alloc: Global,
    groups: &'g [Group<'a>],
) -> Result<Vec<&'g Word<'a>>, AllocError>
    ensures { IfOk result (λ v. map (named None) v.items
        ≡ map (λ p. spec.outside p.name) (ports_view.ports groups.now)) }
{
    let mut names = Vec::new(alloc);
    for group in groups {
        add_group(&mut names, group)?;
    }
    Ok(names)
}

fn add_group<'g, 'a>(names: &mut Vec<&'g Word<'a>>, group: &'g Group<'a>) -> Result<(), AllocError>
    ensures { OnOk result (map (named None) names.new.items ≡ map (named None) names.old.items
        ++ map (λ p. spec.outside p.name) (ports_view.group group.now)) }
{
    for name in &group.names {
        names.push(name)?;
    }
    Ok(())
}

fn attribute_names<'g, 'a>(
    alloc: Global,
    given: &'g [Given<'a>],
) -> Result<Vec<&'g Word<'a>>, AllocError>
    ensures { IfOk result (λ v. map (named None) v.items
        ≡ map (λ g. spec.outside g.name) (map given_view given.now)) }
{
    let mut names = Vec::new(alloc);
    for giving in given {
        names.push(&giving.name)?;
    }
    Ok(names)
}

fn opcode_names<'r, 'a>(
    alloc: Global,
    rows: &'r [OpcodeRow<'a>],
) -> Result<Vec<&'r Word<'a>>, AllocError>
    ensures { IfOk result (λ v. (start : ℕ) → map (named (Some start)) v.items
        ≡ map (λ r. spec.inside start r.name) (map rows_view.opcode_row rows.now)) }
{
    let mut names = Vec::new(alloc);
    for row in rows {
        names.push(&row.name)?;
    }
    Ok(names)
}

fn own_names<'r, 'a>(
    alloc: Global,
    rows: &'r [AccessRow<'a>],
) -> Result<Vec<&'r Word<'a>>, AllocError>
    ensures { IfOk result (λ v. (start : ℕ) → map (named (Some start)) v.items
        ≡ map (λ i. spec.inside start i.name) (flat_map (λ r. r.instrs) (map rows_view.access_row rows.now))) }
{
    let mut names = Vec::new(alloc);
    for row in rows {
        add_instrs(&mut names, &row.instrs)?;
    }
    Ok(names)
}

fn add_instrs<'r, 'a>(
    names: &mut Vec<&'r Word<'a>>,
    instrs: &'r [Instr<'a>],
) -> Result<(), AllocError>
    ensures { OnOk result ((start : ℕ) → map (named (Some start)) names.new.items
        ≡ map (named (Some start)) names.old.items
        ++ map (λ i. spec.inside start i.name) (map rows_view.instr instrs.now)) }
{
    for instr in instrs {
        names.push(&instr.name)?;
    }
    Ok(())
}

fn port_again(alloc: Global, groups: &[Group<'_>]) -> Result<Option<Again>, AllocError>
    ensures { IfOk result (λ o. option_map again o ≡ namings.earliest
        (namings.repeated (map (λ p. spec.outside p.name) (ports_view.ports groups.now)))) }
{
    let names = port_names(alloc, groups)?;
    first_again(alloc, None, &names)
}

fn attribute_again<'a>(alloc: Global, given: &[Given<'a>]) -> Result<Option<Again>, AllocError>
    ensures { IfOk result (λ o. option_map again o ≡ namings.earliest
        (namings.repeated (map (λ g. spec.outside g.name) (map given_view given.now)))) }
{
    let names = attribute_names(alloc, given)?;
    first_again(alloc, None, &names)
}

fn opcode_again(
    alloc: Global,
    start: usize,
    rows: &[OpcodeRow<'_>],
) -> Result<Option<Again>, AllocError>
    ensures { IfOk result (λ o. option_map again o ≡ namings.earliest
        (namings.repeated (map (λ r. spec.inside start r.name) (map rows_view.opcode_row rows.now)))) }
{
    let names = opcode_names(alloc, rows)?;
    first_again(alloc, Some(start), &names)
}

fn own_again(
    alloc: Global,
    start: usize,
    rows: &[AccessRow<'_>],
) -> Result<Option<Again>, AllocError>
    ensures { IfOk result (λ o. option_map again o ≡ namings.earliest
        (namings.repeated (map (λ i. spec.inside start i.name)
        (flat_map (λ r. r.instrs) (map rows_view.access_row rows.now))))) }
{
    let names = own_names(alloc, rows)?;
    first_again(alloc, Some(start), &names)
}

/// The first name that is given again in the text itself: of a port, or of an attribute.
fn outside_again(alloc: Global, outline: &Outline<'_>) -> Result<Option<Again>, AllocError>
    ensures { IfOk result (λ o. option_map again o ≡ namings.earliest
        (namings.repeated (map (λ p. spec.outside p.name) (ports_view.ports outline.now.groups.items))
        ++ namings.repeated (map (λ g. spec.outside g.name) (map given_view outline.now.given.items)))) }
{
    let port = port_again(alloc, &outline.groups)?;
    let attribute = attribute_again(alloc, &outline.given)?;
    Ok(earlier_again(port, attribute))
}

/// The first name that is given again within quotes: of an instruction with an opcode, or of an own instruction with a
/// register.
fn inside_again(alloc: Global, described: &Description<'_>) -> Result<Option<Again>, AllocError>
    ensures { IfOk result (λ o. option_map again o ≡ namings.earliest
        (namings.repeated (map (λ r. spec.inside described.now.opcode_start r.name)
        (map rows_view.opcode_row described.now.opcodes.items))
        ++ namings.repeated (map (λ i. spec.inside described.now.access_start i.name)
        (flat_map (λ r. r.instrs) (map rows_view.access_row described.now.accesses.items))))) }
{
    let opcode = opcode_again(alloc, described.opcode_start, &described.opcodes)?;
    let own = own_again(alloc, described.access_start, &described.accesses)?;
    Ok(earlier_again(opcode, own))
}

/// The first name that is given again: of a port, of an attribute, of an instruction with an opcode, or of an own
/// instruction with a register; equal but for case. Refuses for want of memory alone.
pub fn given_again(
    alloc: Global,
    outline: &Outline<'_>,
    described: &Description<'_>,
) -> Result<Option<Again>, AllocError>
    ensures { IfOk result (λ o. option_map again o ≡ spec.given_again (description outline.now described.now)) }
{
    let outside = outside_again(alloc, outline)?;
    let inside = inside_again(alloc, described)?;
    Ok(earlier_again(outside, inside))
}
