//! Which instructions are the device's own: they have an opcode, and are neither the standard's nor private.
ghost use Rattle.std.specs.Prelude.{◌≡◌, ◌≤◌, ◌||◌, List, ℕ, length, map, filter, take, IfOk, OnOk, bytes_eq};
ghost use Rattle.std.specs.BTreeSet.{contains_by};
ghost use Rattle.name_keys.specs.Keys.{key_order};
ghost use Rattle.bsdl_text.specs.Words.{upper};
ghost use Rattle.bsdl_values.specs.InstructionView as rows_view;
ghost use Rattle.bsdl_opcodes.specs.Own as spec;
ghost use Rattle.bsdl_text.specs.Words as words;
ghost use Rattle.bsdl_opcodes.specs.NameSets.{has_some, is_own_by, opcode_named, private_named, row_with};

use bsdl_text::{Word, stands_for};
use bsdl_values::{AccessRow, Instr, OpcodeRow, PrivateName};
use name_keys::NameKey;
use std::alloc::{AllocError, Global};
use std::collections::BTreeSet;

/// The standard's instructions.
const STANDARD: [(&[u8], bool); 10] = [
    (b"BYPASS", true),
    (b"EXTEST", true),
    (b"SAMPLE", true),
    (b"PRELOAD", true),
    (b"IDCODE", true),
    (b"USERCODE", true),
    (b"CLAMP", true),
    (b"HIGHZ", true),
    (b"INTEST", true),
    (b"RUNBIST", true),
];

/// The names of the instructions that have an opcode, in any case.
fn opcode_names<'a>(
    alloc: Global,
    rows: &[OpcodeRow<'a>],
) -> Result<BTreeSet<NameKey<'a>>, AllocError>
    ensures { IfOk result (λ s. (q : List ℕ) → contains_by (key_order q) s
        ≡ opcode_named (map rows_view.opcode_row rows.now) q) }
{
    let mut names = BTreeSet::new(alloc);
    for row in rows {
        add_name(&mut names, row.name)?;
    }
    Ok(names)
}

/// The names of the private instructions, in any case.
fn private_names<'a>(
    alloc: Global,
    names: &[PrivateName<'a>],
) -> Result<BTreeSet<NameKey<'a>>, AllocError>
    ensures { IfOk result (λ s. (q : List ℕ) → contains_by (key_order q) s
        ≡ private_named (map rows_view.private_name names.now) q) }
{
    let mut private = BTreeSet::new(alloc);
    for found in names {
        add_name(&mut private, found.name)?;
    }
    Ok(private)
}

fn add_name<'a>(names: &mut BTreeSet<NameKey<'a>>, name: Word<'a>) -> Result<(), AllocError>
    ensures { OnOk result ((q : List ℕ) → contains_by (key_order q) names.new
        ≡ (contains_by (key_order q) names.old || bytes_eq (upper name.entry.text.now) q)) }
{
    let key = NameKey::new(name.text);
    names.insert(key)?;
    Ok(())
}

fn has_name<'a>(names: &BTreeSet<NameKey<'a>>, name: Word<'a>) -> bool
    ensures { result ≡ contains_by (key_order (upper name.entry.text.now)) names.now }
{
    names.contains(&NameKey::new(name.text))
}

/// Whether an instruction is one of the standard's.
fn is_standard(name: &[u8]) -> bool
    ensures { result ≡ words.is_among spec.standard_names (upper name.now) }
{
    stands_for(&STANDARD, name).is_some()
}

/// Whether an instruction is the device's own.
fn is_own<'a>(
    with_opcode: &BTreeSet<NameKey<'a>>,
    private: &BTreeSet<NameKey<'a>>,
    name: Word<'a>,
) -> bool
    ensures { result ≡ is_own_by (λ q. contains_by (key_order q) with_opcode.now)
        (λ q. contains_by (key_order q) private.now) name.entry.text.now }
{
    has_name(with_opcode, name) && !is_standard(name.text) && !has_name(private, name)
}

/// Moves the own instructions to the front, in their order. Answers how many they are.
fn move_own<'a>(
    with_opcode: &BTreeSet<NameKey<'a>>,
    private: &BTreeSet<NameKey<'a>>,
    instrs: &mut [Instr<'a>],
) -> usize
    ensures few { result ≤ length instrs.new }
    ensures own { map rows_view.instr (take result instrs.new) ≡ filter (λ i. is_own_by
        (λ q. contains_by (key_order q) with_opcode.now) (λ q. contains_by (key_order q) private.now) i.name.text)
        (map rows_view.instr instrs.old) }
{
    let mut kept = 0;
    for k in 0..instrs.len() {
        if is_own(with_opcode, private, instrs[k].name) {
            instrs.swap(kept, k);
            kept += 1;
        }
    }
    kept
}

/// Leaves of a row's instructions the own ones. No list of them is made beside the row's: a text of 4 MiB may have two
/// million in one row.
fn keep_own<'a>(
    with_opcode: &BTreeSet<NameKey<'a>>,
    private: &BTreeSet<NameKey<'a>>,
    row: &mut AccessRow<'a>,
)
    ensures { rows_view.access_row row.new ≡ row_with (λ i. is_own_by
        (λ q. contains_by (key_order q) with_opcode.now) (λ q. contains_by (key_order q) private.now) i.name.text)
        (rows_view.access_row row.old) }
{
    let kept = move_own(with_opcode, private, &mut row.instrs);
    row.instrs.truncate(kept);
}

/// Leaves of the instructions of each row the own ones.
fn keep_own_of_each<'a>(
    with_opcode: &BTreeSet<NameKey<'a>>,
    private: &BTreeSet<NameKey<'a>>,
    rows: &mut [AccessRow<'a>],
)
    ensures long { length rows.new ≡ length rows.old }
    ensures rows { map rows_view.access_row rows.new ≡ map (λ r. row_with (λ i. is_own_by
        (λ q. contains_by (key_order q) with_opcode.now) (λ q. contains_by (key_order q) private.now) i.name.text)
        (rows_view.access_row r)) rows.old }
{
    for row in rows.iter_mut() {
        keep_own(with_opcode, private, row);
    }
}

/// The rows that have own instructions, with those alone. Refuses for want of memory alone.
pub fn own_accesses<'a>(
    alloc: Global,
    opcodes: &[OpcodeRow<'a>],
    private: &[PrivateName<'a>],
    mut rows: Vec<AccessRow<'a>>,
) -> Result<Vec<AccessRow<'a>>, AllocError>
    ensures { IfOk result (λ v. map rows_view.access_row v.items
        ≡ spec.own_accesses (spec.is_own (map rows_view.opcode_row opcodes.now)
        (map rows_view.private_name private.now)) (map rows_view.access_row rows.entry.items)) }
{
    let with_opcode = opcode_names(alloc, opcodes)?;
    let private = private_names(alloc, private)?;
    keep_own_rows(&with_opcode, &private, &mut rows);
    Ok(rows)
}

/// Leaves of the rows those that have own instructions, with those alone.
fn keep_own_rows<'a>(
    with_opcode: &BTreeSet<NameKey<'a>>,
    private: &BTreeSet<NameKey<'a>>,
    rows: &mut Vec<AccessRow<'a>>,
)
    ensures { map rows_view.access_row rows.new.items ≡ spec.own_accesses (λ i. is_own_by
        (λ q. contains_by (key_order q) with_opcode.now) (λ q. contains_by (key_order q) private.now) i.name.text)
        (map rows_view.access_row rows.old.items) }
{
    keep_own_of_each(with_opcode, private, rows);
    drop_empty(rows);
}

/// Leaves of the rows those that have instructions.
fn drop_empty(rows: &mut Vec<AccessRow<'_>>)
    ensures { map rows_view.access_row rows.new.items
        ≡ filter has_some (map rows_view.access_row rows.old.items) }
{
    rows.retain(|row| has_instrs(row));
}

fn has_instrs(row: &AccessRow<'_>) -> bool
    ensures { result ≡ has_some (rows_view.access_row row.now) }
{
    !row.instrs.is_empty()
}
