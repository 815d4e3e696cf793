//! Why a log does not say how a play ended, line by line.

ghost use Rattle.std.specs.Prelude.{◌≡◌, IfOk};
ghost use Rattle.byte_streams.specs.Writes.{WritesAll};
ghost use Rattle.play_diagnosis.specs.Refusals as spec;

use crate::reading::LogFault;
use byte_streams::{Broken, Counted, Sink, put_pieces};
use itoa::Buffer;
use output_words::Status;

/// Writes the line of a log that does not say how a play ended, `log L1 BadLine line 7`; where it is asked for, a
/// second line with the place, `at line 7 column 1`, if a line of the log is at fault. Answers the exit status of
/// refused input, 2.
///
/// `Broken` comes exactly where the writer's first failure came in this call.
pub fn refuse_log<E: Sink>(
    fault: LogFault,
    explain: bool,
    err: &mut Counted<E>,
) -> Result<u8, Broken>
    requires { err.old.failures ≡ 0 }
    ensures writes { WritesAll E.contents err.old err.new (spec.refusal_lines explain fault) result }
    ensures status { IfOk result (λ s. s ≡ 2) }
{
    write_refusal(fault, explain, err)?;
    Ok(Status::Refused.number())
}

/// Writes the lines of a refusal.
fn write_refusal<E: Sink>(
    fault: LogFault,
    explain: bool,
    err: &mut Counted<E>,
) -> Result<(), Broken>
    requires { err.old.failures ≡ 0 }
    ensures { WritesAll E.contents err.old err.new (spec.refusal_lines explain fault) result }
{
    let code = code_words(fault);
    let Some(line) = line_at(fault) else {
        return put_pieces(err, &[b"log ", code, b"\n"]);
    };
    let mut number = Buffer::new();
    let digits = number.format(line).as_bytes();
    if explain {
        put_pieces(
            err,
            &[
                b"log ",
                code,
                b" line ",
                digits,
                b"\n",
                b"at line ",
                digits,
                b" column 1\n",
            ],
        )
    } else {
        put_pieces(err, &[b"log ", code, b" line ", digits, b"\n"])
    }
}

/// The line of the log that is at fault, if one is.
fn line_at(fault: LogFault) -> Option<usize>
    ensures { result ≡ spec.line_at fault }
{
    match fault {
        LogFault::BadLine(line) | LogFault::NoVerdict(line) | LogFault::NoSuchBit(line) => {
            Some(line)
        }
        LogFault::TooLarge | LogFault::Empty => None,
    }
}

fn code_words(fault: LogFault) -> &'static [u8]
    ensures { result.now ≡ spec.code_words fault }
{
    match fault {
        LogFault::BadLine(_) => b"L1 BadLine",
        LogFault::NoVerdict(_) => b"L2 NoVerdict",
        LogFault::NoSuchBit(_) => b"L3 NoSuchBit",
        LogFault::TooLarge => b"L4 TooLarge",
        LogFault::Empty => b"L5 Empty",
    }
}
