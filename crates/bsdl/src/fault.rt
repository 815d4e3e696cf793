//! Why a description is refused.
ghost use Rattle.std.specs.Prelude.{◌≡◌};

use bsdl_values::Attribute;
use std::alloc::AllocError;
use thiserror::Error;

/// The refusals of a device description, the least number first. Places are counted in bytes of the text from 0.
#[derive(Debug, Drop, Error)]
pub enum BsdlFault {
    /// A byte at this place begins no token, or the quote of a string that its line does not close.
    #[error("B1 BadToken")]
    BadToken(usize),
    /// The first token that does not fit stands at this place, or the text's length where it ends too early; a text
    /// within quotes that says nothing, at its first quote; a range that runs the wrong way, at its second number.
    #[error("B2 BadForm")]
    BadForm(usize),
    /// The first needed attribute that is missing, in the order of docs/bsdl.md.
    #[error("B3 Missing")]
    Missing(Attribute),
    /// The name whose second giving stands first, as it is spelt there; else IDCODE, where the opcode that a reset
    /// loads is not IDCODE's.
    #[error("B4 Twice")]
    Twice(String),
    /// A pattern's length is not its register's, a register of the device's own has two lengths, or a length is below
    /// its limit.
    #[error("B5 BadLength")]
    BadLength,
    /// The two rightmost bits that the instruction register captures are not 01.
    #[error("B6 BadCapture")]
    BadCapture,
    /// The rightmost bit of the first identification code, as written, is not 1.
    #[error("B7 BadId")]
    BadId,
    /// The least boundary cell, of those up to 65,535, that is listed twice, missing, not below the length, or does
    /// not fit.
    #[error("B8 BadCell")]
    BadCell(usize),
    /// A limit is passed.
    #[error("B9 TooLarge")]
    TooLarge,
    /// A growth was refused.
    #[error("B10 NoMemory")]
    NoMemory,
}

impl From<AllocError> for BsdlFault {
    ghost use Rattle.bsdl.specs.declared.fault.BsdlFault.TheVariants.{NoMemory};

    ghost from_gives = { λ _ e. e ≡ NoMemory };

    fn from(_: AllocError) -> BsdlFault {
        BsdlFault::NoMemory
    }
}
