//! Why a text is refused.
ghost use Rattle.std.specs.Prelude.{◌≡◌};
ghost use Rattle.svf_words.specs.Faults as spec;

use std::fmt::{self, Display, Formatter, Write};
use thiserror::Error;

/// The refusals of SVF text, each by its number. A place is counted in bytes of the text from 0.
///
/// Reading a text gives S1 to S6, S13, S15 and S16. The others are of a text whose statements stand well each for
/// itself.
#[derive(Debug, Drop, Clone, Copy, PartialEq, Eq, Error)]
pub enum Code {
    /// A byte at this place begins no token, no white space and no comment.
    #[error("S1 BadByte")]
    BadByte(usize),
    /// The text ends in a statement, whose first token stands at this place.
    #[error("S2 Unclosed")]
    Unclosed(usize),
    /// The first token is no command.
    #[error("S3 UnknownCommand")]
    UnknownCommand,
    /// The tokens do not fit the command's form.
    #[error("S4 BadForm")]
    BadForm,
    /// A misspelt number or hexadecimal digit, a count that is not whole, or a frequency of 0.
    #[error("S5 BadNumber")]
    BadNumber,
    /// Hexadecimal digits have a 1 beyond the length.
    #[error("S6 TooWide")]
    TooWide,
    /// A scan of some bits gives no TDI and takes none over: its command has no previous statement, or one of another
    /// length.
    #[error("S7 MissingTdi")]
    MissingTdi,
    /// An unstable state where a stable one is needed.
    #[error("S8 BadState")]
    BadState,
    /// Two states of a path are more than one clock apart.
    #[error("S9 BadPath")]
    BadPath,
    /// While TRST is held, a step enters a state other than RESET, or TRST is said to be absent.
    #[error("S10 TrstHeld")]
    TrstHeld,
    /// TRST is used where it was said to be absent.
    #[error("S11 TrstAbsent")]
    TrstAbsent,
    /// A scan of no bits.
    #[error("S12 EmptyScan")]
    EmptyScan,
    /// A parallel port or a system clock.
    #[error("S13 Unsupported")]
    Unsupported,
    /// A RUNTEST takes longer than its maximum.
    #[error("S14 TooSlow")]
    TooSlow,
    /// A limit is passed.
    #[error("S15 TooLarge")]
    TooLarge,
    /// A growth was refused.
    #[error("S16 NoMemory")]
    NoMemory,
}

impl Code {
    /// The number of the refusal: of several refusals of one statement the one with the lowest number is told.
    pub fn number(self) -> u8
        ensures { result ≡ spec.number self }
    {
        match self {
            Code::BadByte(_) => 1,
            Code::Unclosed(_) => 2,
            Code::UnknownCommand => 3,
            Code::BadForm => 4,
            Code::BadNumber => 5,
            Code::TooWide => 6,
            Code::MissingTdi => 7,
            Code::BadState => 8,
            Code::BadPath => 9,
            Code::TrstHeld => 10,
            Code::TrstAbsent => 11,
            Code::EmptyScan => 12,
            Code::Unsupported => 13,
            Code::TooSlow => 14,
            Code::TooLarge => 15,
            Code::NoMemory => 16,
        }
    }

    /// Of two refusals the one with the lower number.
    pub fn lower(self, other: Code) -> Code
        ensures { result ≡ spec.lower_code self other }
    {
        if self.number() <= other.number() {
            self
        } else {
            other
        }
    }
}

/// The first refusal of a text.
#[derive(Debug, Drop, Clone, Copy, PartialEq, Eq)]
pub struct SvfFault {
    /// The statement that is refused, counted from 1, or 0 where the text is too long or memory was refused. An empty
    /// statement does not count.
    pub statement: usize,
    /// Why it is refused: the lowest number among the statement's own refusals.
    pub code: Code,
}

impl Display for SvfFault {
    fn fmt<W: Write>(&self, f: &mut Formatter<W>) -> fmt::Result {
        match self.code {
            Code::NoMemory => f.write_str("memory"),
            code => write!(f, "svf {} statement {}", code, self.statement),
        }
    }
}
