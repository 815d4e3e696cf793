//! What is kept of a program beside its statements: steps that name the statements in which their fields are written.

ghost use Rattle.std.specs.Prelude.{◌≡◌, List, Bool, Option, map, option_map, slice_get};
ghost use Rattle.svf_parse.specs.View.{said_of};
ghost use Rattle.scan_vectors.specs.Held.{fields};
ghost use Rattle.scan_vectors.specs.Fields.{no_fields};
ghost use Rattle.svf_programs.specs.Held as spec;
ghost use Rattle.std.specs.Prelude.{unwrap_or};

use jt_bits::Bits;
use jt_tap::{Column, State};
use scan_vectors::Part3;
use svf_parse::{Statement, TrstWord};

/// One part of a scan's vector, by the places, counted from 0, of the statements in which it is written. A TDI or a
/// MASK that is not given is named by the part's own statement, which gives none.
#[derive(Debug, Clone, Copy)]
pub struct KeptPart {
    /// The part's own statement, which gives its length and what is wanted out.
    pub at: u32,
    /// The statement that gives its TDI.
    pub tdi: u32,
    /// The statement that gives its MASK.
    pub mask: u32,
}

/// What a step does, by the places of statements, counted from 0.
#[derive(Debug, Drop, Clone, Copy)]
pub enum Kept {
    /// A scan of a column: a whole vector of header, body and trailer, and the state in which it ends.
    Scan {
        column: Column,
        header: Option<KeptPart>,
        body: KeptPart,
        trailer: Option<KeptPart>,
        end: State,
    },
    /// The default path to a stable state.
    Go(State),
    /// The path that the statement at this place names.
    Path(u32),
    /// So many cycles in a run state, and then the default path to the end.
    Run {
        run: State,
        cycles: u64,
        end: State,
    },
    /// The line TRST.
    Trst(TrstWord),
}

/// A step, by the number of its statement.
#[derive(Debug, Drop, Clone, Copy)]
pub struct KeptStep {
    /// The statement's number, counted from 1.
    pub number: u32,
    /// What the step does.
    pub what: Kept,
}

/// The TDI that a statement gives.
fn tdi_of(statement: &Statement) -> Option<&Bits>
    ensures { option_map {U = List Bool} (λ b. b.now) result ≡ spec.tdi_of (said_of statement.now) }
{
    match statement {
        Statement::Scan { tdi, .. } => tdi.as_ref(),
        _ => None,
    }
}

/// The TDO that a statement gives.
fn tdo_of(statement: &Statement) -> Option<&Bits>
    ensures { option_map {U = List Bool} (λ b. b.now) result ≡ spec.tdo_of (said_of statement.now) }
{
    match statement {
        Statement::Scan { tdo, .. } => tdo.as_ref(),
        _ => None,
    }
}

/// The MASK that a statement gives.
fn mask_of(statement: &Statement) -> Option<&Bits>
    ensures { option_map {U = List Bool} (λ b. b.now) result ≡ spec.mask_of (said_of statement.now) }
{
    match statement {
        Statement::Scan { mask, .. } => mask.as_ref(),
        _ => None,
    }
}

/// The TDI that is written there.
pub fn tdi_at(statements: &[Statement], at: u32) -> Option<&Bits>
    ensures { option_map {U = List Bool} (λ b. b.now) result
        ≡ spec.field_at spec.tdi_of (map said_of statements.now) at }
{
    match statements.get(at as usize) {
        None => None,
        Some(statement) => tdi_of(statement),
    }
}

/// The TDO that is written there.
pub fn tdo_at(statements: &[Statement], at: u32) -> Option<&Bits>
    ensures { option_map {U = List Bool} (λ b. b.now) result
        ≡ spec.field_at spec.tdo_of (map said_of statements.now) at }
{
    match statements.get(at as usize) {
        None => None,
        Some(statement) => tdo_of(statement),
    }
}

/// The MASK that is written there.
fn mask_at(statements: &[Statement], at: u32) -> Option<&Bits>
    ensures { option_map {U = List Bool} (λ b. b.now) result
        ≡ spec.field_at spec.mask_of (map said_of statements.now) at }
{
    match statements.get(at as usize) {
        None => None,
        Some(statement) => mask_of(statement),
    }
}

/// The length of the scan that stands there.
pub fn len_at(statements: &[Statement], at: u32) -> usize
    ensures { result ≡ spec.len_in (slice_get (map said_of statements.now) at) }
{
    match statements.get(at as usize) {
        Some(Statement::Scan { len, .. }) => *len,
        _ => 0,
    }
}

impl KeptPart {
    /// The fields of the part.
    pub fn part<'a>(&self, statements: &'a [Statement]) -> Part3<'a>
        ensures { fields result ≡ spec.part_in (map said_of statements.now) self.now }
    {
        Part3 {
            len: len_at(statements, self.at),
            tdi: tdi_at(statements, self.tdi),
            tdo: tdo_at(statements, self.at),
            mask: mask_at(statements, self.mask),
        }
    }
}

/// The fields of a header or trailer, of no bits where there is none.
pub fn part_or_none<'a>(part: Option<KeptPart>, statements: &'a [Statement]) -> Part3<'a>
    ensures { fields result ≡ unwrap_or (spec.parts_in (map said_of statements.now) part) no_fields }
{
    match part {
        Some(part) => part.part(statements),
        None => Part3 {
            len: 0,
            tdi: None,
            tdo: None,
            mask: None,
        },
    }
}

/// The states of a path, by its statement.
pub fn path_at(statements: &[Statement], at: u32) -> &[State]
    ensures { result.now ≡ spec.path_of (slice_get (map said_of statements.now) at) }
{
    match statements.get(at as usize) {
        Some(Statement::States(states)) => states.as_slice(),
        _ => &[],
    }
}
