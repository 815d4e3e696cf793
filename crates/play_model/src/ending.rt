//! How a play ends.

ghost use Rattle.std.specs.Prelude.{◌≡◌};
ghost use Rattle.byte_streams.specs.Writes.{WritesAll};
ghost use Rattle.play_model.specs.Endings as spec;
ghost use Rattle.play_model.specs.Endings.{status_of, verdict_line};

use byte_streams::{Broken, Counted, Sink, put_all, put_pieces};
use itoa::Buffer;
use output_words::{Status, hex_byte};
use scan_vectors::Part;

/// How a play ended. A command is the number of its statement in the program's text, counted from 1.
#[derive(Debug, Clone, Copy, PartialEq, Eq)]
pub enum Ending {
    /// Every bit that was wanted came out.
    Pass,
    /// The first scan of which a wanted bit did not come out, and the part of the least such bit with its place there,
    /// counted from 0.
    Fail {
        command: usize,
        part: Part,
        bit: usize,
    },
    /// The connection was lost while this command was in work: 0 until the opening is given out, and the count of
    /// statements plus 1 once `Q` alone is left, after a failing step too.
    Lost {
        command: usize,
    },
    /// An answer to this command was a byte other than `0` or `1`.
    BadAnswer {
        command: usize,
        byte: u8,
    },
}

impl Ending {
    /// The exit status of the program: 0 for a pass, 1 for a fail, 3 for a play that gave no verdict.
    pub fn status(self) -> u8
        ensures { result ≡ status_of self }
    {
        self.exit_status().number()
    }

    /// The exit status by its name.
    fn exit_status(self) -> Status
        ensures { result ≡ spec.exit_status self }
    {
        match self {
            Ending::Pass => Status::Pass,
            Ending::Fail { .. } => Status::Fail,
            Ending::Lost { .. } | Ending::BadAnswer { .. } => Status::Lost,
        }
    }
}

/// The word of a part of a scan's vector.
pub fn part_word(part: Part) -> &'static str
    ensures { result.now ≡ spec.part_word part }
{
    match part {
        Part::Header => "header",
        Part::Data => "data",
        Part::Trailer => "trailer",
    }
}

/// Writes the line of a verdict.
///
/// `Broken` comes exactly where the writer's first failure came in this call.
pub fn write_verdict<W: Sink>(ending: Ending, out: &mut Counted<W>) -> Result<(), Broken>
    requires { out.old.failures ≡ 0 }
    ensures { WritesAll W.contents out.old out.new (verdict_line ending) result }
{
    let mut number = Buffer::new();
    let mut place = Buffer::new();
    match ending {
        Ending::Pass => put_all(out, b"pass\n"),
        Ending::Fail { command, part, bit } => put_pieces(
            out,
            &[
                b"fail command ",
                number.format(command).as_bytes(),
                b" ",
                part_word(part).as_bytes(),
                b" bit ",
                place.format(bit).as_bytes(),
                b"\n",
            ],
        ),
        Ending::Lost { command } => put_pieces(
            out,
            &[b"lost command ", number.format(command).as_bytes(), b"\n"],
        ),
        Ending::BadAnswer { command, byte } => put_pieces(
            out,
            &[
                b"bad answer ",
                &hex_byte(byte),
                b" command ",
                number.format(command).as_bytes(),
                b"\n",
            ],
        ),
    }
}
