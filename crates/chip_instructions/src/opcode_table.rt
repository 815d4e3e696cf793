//! The opcodes of a description sorted by their bits.

ghost use Rattle.std.specs.Prelude.{◌≡◌, ◌≤◌, ◌∷◌, ◌++◌, ℕ, List, Bool, [], length, IfOk, OnOk, Some, None, is_none};
ghost use Rattle.std.specs.Prelude.{if◌then◌else◌, unwrap_or};
ghost use Rattle.std.specs.List.{list_any, position};
ghost use Rattle.std.specs.BTreeMap.{get};
ghost use Rattle.std.specs.Option.{option_or};
ghost use Rattle.std.specs.Ordering.{is_eq};
ghost use Rattle.bsdl_device.specs.Order.{bits_order};
ghost use Rattle.bsdl_device.specs.Opcodes.{matches, names_it};
ghost use Rattle.chip_instructions.specs.OpcodeTable.{IsRising, IsTable, row_in};

use crate::decoding::is_opcode;
use crate::start::x_as_0;
use bsdl_device::{Bits, Opcode, Pattern};
use std::alloc::{AllocError, Global};
use std::collections::BTreeMap;

/// The opcodes of a description for codes of one length. A code without an X is found by its bits; those with an X are
/// looked through.
#[derive(Drop)]
pub(crate) struct OpcodeTable {
    /// The first row of each opcode without an X.
    by_code: BTreeMap<Bits, usize>,
    /// The opcodes with an X, in the order of their rows.
    with_x: Vec<WithX>,
}

/// An opcode with an X, and its row.
#[derive(Drop)]
struct WithX {
    row: usize,
    pattern: Pattern,
}

impl OpcodeTable {
    /// The table of these rows for codes of this length. Refuses for want of memory alone.
    pub(crate) fn new(
        alloc: Global,
        rows: &[Opcode],
        code_length: usize,
    ) -> Result<OpcodeTable, AllocError>
        ensures { IfOk result (IsTable code_length rows.now) }
    {
        let mut table = OpcodeTable {
            by_code: BTreeMap::new(alloc),
            with_x: Vec::new(alloc),
        };
        for number in 0..rows.len() {
            table.add_row(alloc, code_length, number, &rows[number])?;
        }
        Ok(table)
    }

    /// The opcodes of a row more, behind all others.
    fn add_row(
        &mut self,
        alloc: Global,
        code_length: usize,
        number: usize,
        row: &Opcode,
    ) -> Result<(), AllocError>
        requires rising { IsRising 0 self.old.with_x.items number }
        requires last { (code : List Bool) → length code ≡ code_length → (k : ℕ) → row_in self.old code ≡ Some k
            → k ≤ number }
        ensures rising { OnOk result (IsRising 0 self.new.with_x.items number) }
        ensures found { OnOk result ((code : List Bool) → length code ≡ code_length
            → row_in self.new code
            ≡ option_or (row_in self.old code) (if names_it code row.now then Some number else None)) }
    {
        for pattern in row.patterns() {
            if pattern.bits().len() == code_length {
                self.add(alloc, number, pattern)?;
            }
        }
        Ok(())
    }

    /// An opcode more, behind all others.
    fn add(&mut self, alloc: Global, number: usize, pattern: &Pattern) -> Result<(), AllocError>
        requires { IsRising 0 self.old.with_x.items number }
        ensures rising { OnOk result (IsRising 0 self.new.with_x.items number) }
        ensures found { OnOk result ((code : List Bool)
            → ((k : ℕ) → row_in self.old code ≡ Some k → k ≤ number)
            → row_in self.new code
            ≡ option_or (row_in self.old code) (if matches pattern.now code then Some number else None)) }
    {
        if has_x(pattern) {
            let pattern = copy_of(alloc, pattern)?;
            self.with_x.push(WithX {
                row: number,
                pattern,
            })?;
        } else {
            let code = x_as_0(alloc, pattern.bits())?;
            put_first(&mut self.by_code, code, number)?;
        }
        Ok(())
    }

    /// The first row that a code names.
    pub(crate) fn row(&self, code: &Bits) -> Option<usize>
        requires { (k : ℕ) × IsRising 0 self.now.with_x.items k }
        ensures { result ≡ row_in self.now code.now }
    {
        let exact = self.by_code.get(code).copied();
        for opcode in &self.with_x {
            if let Some(row) = exact {
                if row <= opcode.row {
                    return exact;
                }
            }
            if is_opcode(&opcode.pattern, code) {
                return Some(opcode.row);
            }
        }
        exact
    }
}

/// Puts a row at a code; where one stands already, that one stays.
fn put_first(by_code: &mut BTreeMap<Bits, usize>, code: Bits, row: usize) -> Result<(), AllocError>
    ensures { OnOk result ((q : List Bool) → get bits_order by_code.new q ≡ (if is_eq (bits_order code q)
        then Some (unwrap_or (get bits_order by_code.old code) row) else get bits_order by_code.old q)) }
{
    by_code.entry(code)?.or_insert(row);
    Ok(())
}

/// A second pattern of the same digits. Refuses for want of memory alone.
fn copy_of(alloc: Global, pattern: &Pattern) -> Result<Pattern, AllocError>
    ensures { IfOk result (λ p. p ≡ pattern.now) }
{
    Ok(Pattern::new(pattern.bits().to_vec(alloc)?))
}

/// Whether a pattern has an X.
fn has_x(pattern: &Pattern) -> bool
    ensures { result ≡ list_any is_none pattern.now }
{
    for digit in pattern.bits() {
        if digit.is_none() {
            return true;
        }
    }
    false
}
