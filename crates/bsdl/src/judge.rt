//! Judging a description that is well formed.
ghost use Rattle.std.specs.Prelude.{None, option_map, IfOk};
ghost use Rattle.std.specs.Option.{option_or};
ghost use Rattle.bsdl.specs.Judging as spec;
ghost use Rattle.bsdl.specs.View.{Judges};
ghost use Rattle.bsdl_description.specs.Describing.{bad_capture, bad_cell, bad_id, bad_length, too_large};
ghost use Rattle.bsdl_description.specs.View.{description};
ghost use Rattle.bsdl_rules.specs.Fits.{unfit_cell as unfit_cell_of};
ghost use Rattle.bsdl_rules.specs.Lengths as lengths;
ghost use Rattle.bsdl_rules.specs.Limits.{is_within_limits as keeps_limits};
ghost use Rattle.bsdl_lookup.specs.Keyed.{AreKeyed};
ghost use Rattle.bsdl_rules.specs.Twice.{given_again as first_given_again};

use crate::fault::BsdlFault;
use bsdl_description::Description;
use bsdl_entity::Outline;
use bsdl_lookup::KeyedPorts;
use bsdl_opcodes::{resets_to_idcode, users_of};
use bsdl_rules::{
    captures_one, ends_in_one, given_again, is_within_limits, known_by_key, lengths_fit,
    unfit_cell_by_key,
};
use std::alloc::Global;

/// The first refusal of B4 to B9 of a description that is well formed, if there is one, or else the ports by the keys
/// of their names, which serve the device too. Want of memory is B10; nothing is said of when it comes.
pub(crate) fn judge_ports<'o>(
    alloc: Global,
    outline: &Outline<'o>,
    described: &Description<'o>,
) -> Result<KeyedPorts<'o>, BsdlFault>
    ensures judges { Judges result (spec.fault (description outline.now described.now)) }
    ensures keyed { IfOk result (λ k. AreKeyed k (description outline.now described.now).ports) }
{
    judge_names(alloc, outline, described)?;
    judge_lengths(alloc, outline, described)?;
    judge_ends(outline, described)?;
    let keyed = judge_cells(alloc, outline, described)?;
    judge_limits(alloc, outline, described)?;
    Ok(keyed)
}

/// B4: no name is given again, and a reset loads IDCODE.
fn judge_names(
    alloc: Global,
    outline: &Outline<'_>,
    described: &Description<'_>,
) -> Result<(), BsdlFault>
    ensures { Judges result (spec.twice_in (description outline.now described.now)
        (first_given_again (description outline.now described.now))) }
{
    match given_again(alloc, outline, described)? {
        Some(again) => Err(BsdlFault::Twice(again.name)),
        None => judge_reset(alloc, outline, described),
    }
}

/// B4: a reset loads IDCODE.
fn judge_reset(
    alloc: Global,
    outline: &Outline<'_>,
    described: &Description<'_>,
) -> Result<(), BsdlFault>
    ensures { Judges result (spec.twice_in (description outline.now described.now) None) }
{
    if resets_to_idcode(&described.opcodes) {
        return Ok(());
    }
    Err(BsdlFault::Twice(String::from_str(alloc, "IDCODE")?))
}

/// B5: lengths fit.
fn judge_lengths(
    alloc: Global,
    outline: &Outline<'_>,
    described: &Description<'_>,
) -> Result<(), BsdlFault>
    ensures { Judges result (spec.unless (lengths.lengths_fit (description outline.now described.now)) bad_length) }
{
    if !lengths_fit(alloc, described)? {
        return Err(BsdlFault::BadLength);
    }
    Ok(())
}

/// B6 and B7: what captures and codes end in.
fn judge_ends(outline: &Outline<'_>, described: &Description<'_>) -> Result<(), BsdlFault>
    ensures { Judges result (option_or (spec.unless
        (lengths.captures_one (description outline.now described.now).capture) bad_capture)
        (spec.unless (lengths.ends_in_one (description outline.now described.now).idcodes) bad_id)) }
{
    if !captures_one(&described.capture) {
        return Err(BsdlFault::BadCapture);
    }
    if !ends_in_one(&described.idcodes) {
        return Err(BsdlFault::BadId);
    }
    Ok(())
}

/// B8: every cell fits. Answers the ports by the keys of their names, which tell it.
fn judge_cells<'o>(
    alloc: Global,
    outline: &Outline<'o>,
    described: &Description<'o>,
) -> Result<KeyedPorts<'o>, BsdlFault>
    ensures judges { Judges result (option_map bad_cell (unfit_cell_of (description outline.now described.now))) }
    ensures keyed { IfOk result (λ k. AreKeyed k (description outline.now described.now).ports) }
{
    let known = known_by_key(alloc, outline, described)?;
    match unfit_cell_by_key(alloc, &known, described)? {
        Some(number) => Err(BsdlFault::BadCell(number)),
        None => Ok(known.keyed),
    }
}

/// B9: no limit is passed.
fn judge_limits(
    alloc: Global,
    outline: &Outline<'_>,
    described: &Description<'_>,
) -> Result<(), BsdlFault>
    ensures { Judges result (spec.unless (keeps_limits (description outline.now described.now)) too_large) }
{
    let users = users_of(alloc, &described.accesses)?;
    if !is_within_limits(outline, described, &users) {
        return Err(BsdlFault::TooLarge);
    }
    Ok(())
}
