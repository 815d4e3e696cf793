//! A whole description.
ghost use Rattle.std.specs.Prelude.{◌≡◌, IfOk, is_some, option_map};
ghost use Rattle.bsdl_text.specs.NumberView.{value};
ghost use Rattle.bsdl_text.specs.Words.{upper};
ghost use Rattle.bsdl_entity.specs.OutlineView.{outline as outline_view};
ghost use Rattle.bsdl_values.specs.View.{value as value_view};
ghost use Rattle.bsdl_description.specs.FirstValues.{as_port};
ghost use Rattle.bsdl_description.specs.FirstView.{kept};
ghost use Rattle.bsdl_description.specs.Describing as spec;
ghost use Rattle.bsdl_description.specs.Describing.{◌>>?◌};
ghost use Rattle.bsdl_description.specs.View.{AreTaps, Describes, spelt, taps as taps_view};

use crate::first_values::{
    FirstValue, accesses_in, capture_in, cells_in, codes_in, count_of, first_values, names_in,
    opcodes_in, port_of, take,
};
use bsdl_entity::{Attribute, Outline};
use bsdl_opcodes::own_accesses;
use bsdl_text::{Digits, Word};
use bsdl_values::{AccessRow, CellRow, OpcodeRow, Patterns, PrivateName, Value, WrittenPattern};
use std::alloc::{AllocError, Global};

/// The ports of the TAP.
#[derive(Debug, Clone, Copy)]
pub struct Taps<'a> {
    pub input: Word<'a>,
    pub output: Word<'a>,
    pub mode: Word<'a>,
    pub clock: Word<'a>,
    pub reset: Option<Word<'a>>,
}

/// What the first giving of each attribute says, beside the ports.
#[derive(Debug, Drop)]
pub struct Description<'a> {
    pub taps: Taps<'a>,
    pub instruction_length: Digits<'a>,
    pub boundary_length: Digits<'a>,
    /// Where the text of the opcodes begins.
    pub opcode_start: usize,
    pub opcodes: Vec<OpcodeRow<'a>>,
    pub capture: WrittenPattern,
    pub cells: Vec<CellRow<'a>>,
    pub idcodes: Patterns,
    pub usercodes: Patterns,
    pub private_names: Vec<PrivateName<'a>>,
    /// Where the text of the registers begins.
    pub access_start: usize,
    /// Each row with the own instructions in it, where it has any.
    pub accesses: Vec<AccessRow<'a>>,
}

/// Why an entity describes nothing.
#[derive(Debug, Drop, Clone, Copy, PartialEq, Eq)]
pub enum Unfit {
    /// The first text within quotes that says nothing begins at this place.
    Unsaid(usize),
    /// The first needed attribute that is missing.
    Missing(Attribute),
}

/// What an entity describes; or the first quote of its first text that says nothing, and else the first needed
/// attribute that is missing. Refuses for want of memory alone.
pub fn describe<'o, 't: 'o>(
    alloc: Global,
    outline: &'o Outline<'t>,
) -> Result<Result<Description<'o>, Unfit>, AllocError>
    ensures { IfOk result (λ found. Describes outline.now found (spelt outline.now >>? spec.described)) }
{
    match first_values(alloc, &outline.given)? {
        Ok(firsts) => describe_firsts(alloc, outline, firsts),
        Err(place) => Ok(Err(Unfit::Unsaid(place))),
    }
}

/// What an entity with these first values describes, or the first needed attribute that is missing.
fn describe_firsts<'o, 't: 'o>(
    alloc: Global,
    outline: &'o Outline<'t>,
    firsts: Vec<FirstValue<'o>>,
) -> Result<Result<Description<'o>, Unfit>, AllocError>
    ensures { IfOk result (λ found. Describes outline.now found
        (spec.described_by (kept firsts.entry.items) (outline_view outline.now))) }
{
    let taps = match taps_of(&firsts) {
        Ok(taps) => taps,
        Err(attribute) => return Ok(Err(Unfit::Missing(attribute))),
    };
    let Some(instruction_length) = count_of(&firsts, Attribute::InstructionLength) else {
        return Ok(Err(Unfit::Missing(Attribute::InstructionLength)));
    };
    let Some(boundary_length) = count_of(&firsts, Attribute::BoundaryLength) else {
        return Ok(Err(Unfit::Missing(Attribute::BoundaryLength)));
    };
    describe_texts(
        alloc,
        outline,
        taps,
        instruction_length,
        boundary_length,
        firsts,
    )
}

/// The ports of the TAP, or the first needed attribute of one that is missing.
fn taps_of<'o>(firsts: &[FirstValue<'o>]) -> Result<Taps<'o>, Attribute>
    ensures taps { AreTaps result (spec.taps_by (kept firsts.now)) }
    ensures reset { IfOk result (λ found. option_map (λ w. upper w.text.now) found.reset
        ≡ as_port (kept firsts.now Attribute.TapScanReset)) }
{
    let Some(input) = port_of(firsts, Attribute::TapScanIn) else {
        return Err(Attribute::TapScanIn);
    };
    let Some(output) = port_of(firsts, Attribute::TapScanOut) else {
        return Err(Attribute::TapScanOut);
    };
    let Some(mode) = port_of(firsts, Attribute::TapScanMode) else {
        return Err(Attribute::TapScanMode);
    };
    let Some(clock) = port_of(firsts, Attribute::TapScanClock) else {
        return Err(Attribute::TapScanClock);
    };
    Ok(Taps {
        input,
        output,
        mode,
        clock,
        reset: port_of(firsts, Attribute::TapScanReset),
    })
}

/// What the first givings of attributes with texts say.
#[derive(Debug, Drop)]
struct Texts<'o> {
    opcodes: Option<Value<'o>>,
    capture: Option<Value<'o>>,
    cells: Option<Value<'o>>,
    idcodes: Option<Value<'o>>,
    usercodes: Option<Value<'o>>,
    private_names: Option<Value<'o>>,
    accesses: Option<Value<'o>>,
}

fn texts_of<'o>(firsts: Vec<FirstValue<'o>>) -> Texts<'o>
    ensures opcodes { option_map value_view result.opcodes ≡ kept firsts.entry.items Attribute.InstructionOpcode }
    ensures capture { option_map value_view result.capture ≡ kept firsts.entry.items Attribute.InstructionCapture }
    ensures cells { option_map value_view result.cells ≡ kept firsts.entry.items Attribute.BoundaryRegister }
    ensures idcodes { option_map value_view result.idcodes ≡ kept firsts.entry.items Attribute.IdcodeRegister }
    ensures usercodes { option_map value_view result.usercodes ≡ kept firsts.entry.items Attribute.UsercodeRegister }
    ensures private_names { option_map value_view result.private_names
        ≡ kept firsts.entry.items Attribute.InstructionPrivate }
    ensures accesses { option_map value_view result.accesses ≡ kept firsts.entry.items Attribute.RegisterAccess }
{
    let mut firsts = firsts;
    Texts {
        opcodes: take(&mut firsts, Attribute::InstructionOpcode),
        capture: take(&mut firsts, Attribute::InstructionCapture),
        cells: take(&mut firsts, Attribute::BoundaryRegister),
        idcodes: take(&mut firsts, Attribute::IdcodeRegister),
        usercodes: take(&mut firsts, Attribute::UsercodeRegister),
        private_names: take(&mut firsts, Attribute::InstructionPrivate),
        accesses: take(&mut firsts, Attribute::RegisterAccess),
    }
}

/// What an entity of this TAP, these lengths and these first values describes, or the first needed attribute with a
/// text that is missing.
fn describe_texts<'o, 't: 'o>(
    alloc: Global,
    outline: &'o Outline<'t>,
    taps: Taps<'o>,
    instruction_length: Digits<'o>,
    boundary_length: Digits<'o>,
    firsts: Vec<FirstValue<'o>>,
) -> Result<Result<Description<'o>, Unfit>, AllocError>
    ensures { IfOk result (λ found. Describes outline.now found (spec.texts_by (kept firsts.entry.items)
        (outline_view outline.now) (taps_view taps.entry) (is_some taps.entry.reset) (value instruction_length.entry)
        (value boundary_length.entry))) }
{
    let texts = texts_of(firsts);
    let Some((opcode_start, opcodes)) = opcodes_in(texts.opcodes) else {
        return Ok(Err(Unfit::Missing(Attribute::InstructionOpcode)));
    };
    let Some(capture) = capture_in(texts.capture) else {
        return Ok(Err(Unfit::Missing(Attribute::InstructionCapture)));
    };
    let Some(cells) = cells_in(texts.cells) else {
        return Ok(Err(Unfit::Missing(Attribute::BoundaryRegister)));
    };
    let private_names = names_in(alloc, texts.private_names);
    let (access_start, rows) = accesses_in(alloc, texts.accesses);
    let accesses = own_accesses(alloc, &opcodes, &private_names, rows)?;
    Ok(Ok(Description {
        taps,
        instruction_length,
        boundary_length,
        opcode_start,
        opcodes,
        capture,
        cells,
        idcodes: codes_in(alloc, texts.idcodes),
        usercodes: codes_in(alloc, texts.usercodes),
        private_names,
        access_start,
        accesses,
    }))
}
