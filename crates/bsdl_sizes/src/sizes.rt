//! The word that tells what is too long or too short.
ghost use Rattle.std.specs.Prelude.{◌≡◌, false, is_some, option_and_then, IfOk};
ghost use Rattle.bsdl_text.specs.Cutting.{bad_place, cuts_of};
ghost use Rattle.bsdl_description.specs.Describing.{described as all_described, ◌>>?◌};
ghost use Rattle.bsdl_description.specs.View.{description, spelt};
ghost use Rattle.bsdl_sizes.specs.Sizes as spec;

use crate::lengths::length_spot;
use crate::limits::limit_spot;
use crate::spots::Spot;
use bsdl_description::{Description, describe};
use bsdl_entity::{Outline, read_entity};
use bsdl_text::{Lexer, Stop, bad_byte};
use jt_limits::LIMITS;
use std::alloc::{AllocError, Global};

/// A text above so many bytes is refused as it is.
const TEXT_LIMIT: usize = LIMITS.description_bytes;

/// Why a description is refused.
#[derive(Debug, Clone, Copy, PartialEq, Eq)]
pub enum Refused {
    /// A length does not fit (B5).
    BadLength,
    /// A limit is passed (B9).
    TooLarge,
}

/// The word that tells what is too long or too short in a description that is refused so: an attribute, an instruction
/// or a port. None where the text is above 4 MiB, or describes nothing. Refuses for want of memory alone, and takes
/// some in proportion to the text.
pub fn spot_at_fault(
    alloc: Global,
    text: &[u8],
    refused: Refused,
) -> Result<Option<Spot>, AllocError>
    ensures { IfOk result (λ spot. spot ≡ spec.spot_at_fault refused text.now) }
{
    if text.len() > TEXT_LIMIT {
        return Ok(None);
    }
    if has_bad_byte(text) {
        return Ok(None);
    }
    match read_entity(alloc, Lexer::new(text)) {
        Ok((outline, _)) => spot_in_entity(alloc, &outline, refused),
        Err(Stop::Misfit(_)) => Ok(None),
        Err(Stop::Memory) => Err(AllocError),
    }
}

fn has_bad_byte(text: &[u8]) -> bool
    ensures { result ≡ is_some (bad_place (cuts_of false text.now)) }
{
    bad_byte(text, false).is_some()
}

fn spot_in_entity(
    alloc: Global,
    outline: &Outline<'_>,
    refused: Refused,
) -> Result<Option<Spot>, AllocError>
    ensures { IfOk result (λ spot. spot ≡ option_and_then (spec.refused_spot refused)
        (spec.when_ok (spelt outline.now >>? all_described))) }
{
    match describe(alloc, outline)? {
        Ok(described) => Ok(refused_spot(outline, &described, refused)),
        Err(_) => Ok(None),
    }
}

fn refused_spot(
    outline: &Outline<'_>,
    described: &Description<'_>,
    refused: Refused,
) -> Option<Spot>
    ensures { result ≡ spec.refused_spot refused (description outline.now described.now) }
{
    match refused {
        Refused::BadLength => length_spot(outline, described),
        Refused::TooLarge => limit_spot(outline, described),
    }
}
