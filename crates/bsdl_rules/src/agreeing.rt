//! Whether each register of the device's own has one length.
ghost use Rattle.std.specs.Prelude.{◌≡◌, List, ℕ, map, option_map, cond, bytes_eq, IfOk, OnOk, Some};
ghost use Rattle.std.specs.BTreeMap.{get_by_text};
ghost use Rattle.bsdl_text.specs.Words.{upper};
ghost use Rattle.bsdl_text.specs.NumberView.{value};
ghost use Rattle.bsdl_values.specs.InstructionView as rows_view;
ghost use Rattle.bsdl_rules.specs.Agreeing.{agrees, row_agrees, with_row_length};
ghost use Rattle.bsdl_rules.specs.Lengths as spec;

use bsdl_text::{Digits, Word};
use bsdl_values::AccessRow;
use std::alloc::{AllocError, Global};
use std::cmp::Ordering;
use std::collections::BTreeMap;

/// Whether each register has one length.
pub(crate) fn agree(alloc: Global, rows: &[AccessRow<'_>]) -> Result<bool, AllocError>
    ensures { IfOk result (λ b. b ≡ spec.agree (map rows_view.access_row rows.now)) }
{
    let mut lengths = BTreeMap::new(alloc);
    for row in rows {
        if !put_row(alloc, &mut lengths, row)? {
            return Ok(false);
        }
    }
    Ok(true)
}

/// Notes the length of a row's register, and tells whether it is the one known before.
fn put_row<'a>(
    alloc: Global,
    lengths: &mut BTreeMap<String, Digits<'a>>,
    row: &AccessRow<'a>,
) -> Result<bool, AllocError>
    ensures known { IfOk result (λ b. b ≡ row_agrees (λ q. option_map value (get_by_text lengths.old q))
        (rows_view.access_row row.now)) }
    ensures noted { OnOk result ((q : List ℕ) → option_map value (get_by_text lengths.new q)
        ≡ with_row_length (λ p. option_map value (get_by_text lengths.old p)) (rows_view.access_row row.now) q) }
{
    match row.len {
        Some(len) => put_len(alloc, lengths, row.register, len),
        None => Ok(true),
    }
}

/// Notes a length of a register, and tells whether it is the one known before.
fn put_len<'a>(
    alloc: Global,
    lengths: &mut BTreeMap<String, Digits<'a>>,
    register: Word<'_>,
    len: Digits<'a>,
) -> Result<bool, AllocError>
    ensures known { IfOk result (λ b. b ≡ agrees (option_map value
        (get_by_text lengths.old (upper register.entry.text.now))) (value len.entry)) }
    ensures noted { OnOk result ((q : List ℕ) → get_by_text lengths.new q
        ≡ cond (bytes_eq (upper register.entry.text.now) q) (Some len.entry) (get_by_text lengths.old q)) }
{
    let key = register.upper_name(alloc)?;
    match lengths.insert(key, len)? {
        Some(known) => Ok(known.compare(len) == Ordering::Equal),
        None => Ok(true),
    }
}
