//! The exit statuses of the program.

ghost use Rattle.std.specs.Prelude.{◌≡◌};
ghost use Rattle.output_words.specs.Statuses as spec;

/// How a run of the program ends, as its exit status says.
#[derive(Debug, Clone, Copy, PartialEq, Eq)]
pub enum Status {
    /// All went as it was asked for: a pass, a text that is accepted, help.
    Pass,
    /// A bit that was wanted did not come out.
    Fail,
    /// Input, or the words of the command line, are refused.
    Refused,
    /// Something that was written was lost, a file cannot be made, or a play was cut short.
    Lost,
    /// Memory ran out.
    NoMemory,
}

impl Status {
    /// The number of the exit status, from 0 for a pass to 4 for want of memory.
    pub fn number(self) -> u8
        ensures { result ≡ spec.number self }
    {
        match self {
            Status::Pass => 0,
            Status::Fail => 1,
            Status::Refused => 2,
            Status::Lost => 3,
            Status::NoMemory => 4,
        }
    }
}
