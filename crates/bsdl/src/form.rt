//! The entity that a text spells, its texts within quotes as they are written, and what it describes.
ghost use Rattle.bsdl.specs.Form.{text_form};
ghost use Rattle.bsdl.specs.View.{TellsDescription, TellsForm};
ghost use Rattle.bsdl_description.specs.Describing.{described, ◌>>?◌};
ghost use Rattle.bsdl_description.specs.View.{spelt};

use crate::fault::BsdlFault;
use bsdl_description::{Description, Unfit, describe};
use bsdl_entity::{Outline, read_entity};
use bsdl_text::{Lexer, Stop, bad_byte};
use jt_limits::LIMITS;
use std::alloc::Global;

/// A text has at most so many bytes: 4 MiB.
const TEXT_LIMIT: usize = LIMITS.description_bytes;

/// The entity that a text spells, or its first refusal of B1, B2 and B9 (a text above 4 MiB, whatever it holds). A text
/// within quotes is judged where it is described, unless other tokens do not fit behind it. Want of memory is B10;
/// nothing is said of when it comes.
pub(crate) fn outline_of(alloc: Global, text: &[u8]) -> Result<Outline<'_>, BsdlFault>
    ensures { TellsForm result (text_form text.now) }
{
    if text.len() > TEXT_LIMIT {
        return Err(BsdlFault::TooLarge);
    }
    if let Some(place) = bad_byte(text, false) {
        return Err(BsdlFault::BadToken(place));
    }
    match read_entity(alloc, Lexer::new(text)) {
        Ok((found, _)) => Ok(found),
        Err(Stop::Misfit(Some(place))) => Err(BsdlFault::BadForm(place)),
        Err(Stop::Misfit(None)) => Err(BsdlFault::BadForm(text.len())),
        Err(Stop::Memory) => Err(BsdlFault::NoMemory),
    }
}

/// What an entity describes; or B2 at its first text within quotes that says nothing, and else B3 with the first needed
/// attribute that is missing. Want of memory is B10.
pub(crate) fn description_of<'o, 't: 'o>(
    alloc: Global,
    entity: &'o Outline<'t>,
) -> Result<Description<'o>, BsdlFault>
    ensures { TellsDescription entity.now result (spelt entity.now >>? described) }
{
    match describe(alloc, entity)? {
        Ok(found) => Ok(found),
        Err(Unfit::Unsaid(place)) => Err(BsdlFault::BadForm(place)),
        Err(Unfit::Missing(attribute)) => Err(BsdlFault::Missing(attribute)),
    }
}
