//! Why a board file is refused.
ghost use Rattle.std.specs.Prelude.{◌≡◌};
ghost use Rattle.board_tables.specs.FileView.{IsTold};

use crate::fields::Unfit;
use std::alloc::{AllocError, Global};
use thiserror::Error;

/// The refusals of a board file, the least number first; `F` is why a description is refused. What is shown is the line
/// that the program prints, without what the variant holds.
#[derive(Debug, Drop, Error)]
pub enum BoardFault<F> {
    /// The text is no TOML.
    #[error("C1 BadToml")]
    BadToml,
    /// The first key at fault: missing, unknown, or with a value that does not fit; a table's keys go in byte order.
    #[error("C2 BadField")]
    BadField(String),
    /// The first description that a device names and that is not among the files handed in.
    #[error("C3 UnknownFile")]
    UnknownFile(String),
    /// The first description that is refused, and why.
    #[error("C4 Bsdl")]
    Bsdl(F),
    /// The first text that names no pin: it has another form, there is no such device or port bit, or the port is the
    /// TAP's.
    #[error("C5 UnknownPin")]
    UnknownPin(String),
    /// The first text whose pin stands before it, in its net or in another.
    #[error("C6 PinTwice")]
    PinTwice(String),
    /// More than 256 devices or 16,384 nets.
    #[error("C7 TooLarge")]
    TooLarge,
    /// A growth was refused.
    #[error("C8 NoMemory")]
    NoMemory,
    /// The target of the first string on a loop, as `U1.Q` in the file's spelling, by devices and then strings: some
    /// net depends on itself. It comes only where none of C1 to C7 does.
    #[error("C9 CoreLoop")]
    CoreLoop(String),
}

impl<F> From<AllocError> for BoardFault<F> {
    ghost use Rattle.board_tables.specs.declared.fault.BoardFault.TheVariants.{NoMemory};

    ghost from_gives = { λ _ e. e ≡ NoMemory };

    fn from(_: AllocError) -> BoardFault<F> {
        BoardFault::NoMemory
    }
}

/// The refusal for a key at fault.
pub fn told<F>(alloc: Global, unfit: Unfit<'_>) -> BoardFault<F>
    ensures { IsTold unfit.entry result }
{
    match unfit {
        Unfit::Field(key, _) => match String::from_str(alloc, key) {
            Ok(key) => BoardFault::BadField(key),
            Err(_) => BoardFault::NoMemory,
        },
        Unfit::Memory => BoardFault::NoMemory,
    }
}
