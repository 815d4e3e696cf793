//! Which ports are single bits, by their names.
ghost use Rattle.std.specs.Prelude.{◌≡◌, List, ℕ, IfOk, OnOk, is_none};
ghost use Rattle.std.specs.Option.{option_or};
ghost use Rattle.std.specs.BTreeMap.{get_by_text};
ghost use Rattle.bsdl_text.specs.Words.{upper};
ghost use Rattle.bsdl_entity.specs.Scalars.{first_scalar, scalar_at, tells};
ghost use Rattle.bsdl_entity.specs.PortsView as view;

use crate::ports::Group;
use bsdl_text::Word;
use std::alloc::{AllocError, Global};
use std::collections::BTreeMap;

/// Whether the first port of each name, in upper case, is a single bit.
///
/// Refuses for want of memory alone.
pub fn scalars_of(alloc: Global, groups: &[Group<'_>]) -> Result<BTreeMap<String, bool>, AllocError>
    ensures { IfOk result (λ m. (q : List ℕ) → get_by_text m q ≡ first_scalar (view.ports groups.now) q) }
{
    let mut scalars = BTreeMap::new(alloc);
    for group in groups {
        add_group(alloc, &mut scalars, group)?;
    }
    Ok(scalars)
}

fn add_group(
    alloc: Global,
    scalars: &mut BTreeMap<String, bool>,
    group: &Group<'_>,
) -> Result<(), AllocError>
    ensures { OnOk result ((q : List ℕ) → get_by_text scalars.new q
        ≡ option_or (get_by_text scalars.old q) (first_scalar (view.group group.now) q)) }
{
    let is_scalar = group.range.is_none();
    for name in &group.names {
        add_name(alloc, scalars, *name, is_scalar)?;
    }
    Ok(())
}

fn add_name(
    alloc: Global,
    scalars: &mut BTreeMap<String, bool>,
    name: Word<'_>,
    is_scalar: bool,
) -> Result<(), AllocError>
    ensures { OnOk result ((q : List ℕ) → get_by_text scalars.new q
        ≡ option_or (get_by_text scalars.old q) (scalar_at (upper name.entry.text.now) is_scalar q)) }
{
    let key = name.upper_name(alloc)?;
    if scalars.contains_key(key.as_str()) {
        return Ok(());
    }
    scalars.insert(key, is_scalar)?;
    Ok(())
}

/// Whether a word, in any case, names a port that is a single bit.
///
/// Refuses for want of memory alone.
pub fn is_scalar(
    alloc: Global,
    scalars: &BTreeMap<String, bool>,
    name: Word<'_>,
) -> Result<bool, AllocError>
    ensures { IfOk result (λ b. b ≡ tells scalars.now name.entry.text.now) }
{
    let key = name.upper_name(alloc)?;
    match scalars.get(key.as_str()) {
        Some(is_scalar) => Ok(*is_scalar),
        None => Ok(false),
    }
}
