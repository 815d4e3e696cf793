//! The lines that a run shows.

ghost use Rattle.std.specs.Prelude.{◌≡◌, ◌++◌, flat_map};
ghost use Rattle.byte_streams.specs.Writes.{WritesAll};
ghost use Rattle.jt_player.specs.Showing as showing;
ghost use Rattle.jt_player.specs.Showing.{accepted_line, ending_lines, mismatch_line, refusal_line};
ghost use Rattle.output_words.specs.Lines.{total_line};
ghost use Rattle.scan_vectors.specs.Failures.{found};
ghost use Rattle.svf_programs.specs.Sizes.{program_of};

use byte_streams::{Broken, Counted, Sink, put_pieces};
use itoa::Buffer;
use output_words::write_total;
use play_model::{Ending, Kind, write_verdict};
use scan_vectors::{Failures, Mismatch};
use svf_parse::{Code, SvfFault};
use svf_programs::Program;

/// Writes how a play of this kind ended: the line of its verdict, or all failures that are listed and how many there
/// were.
pub(crate) fn write_ending<W: Sink>(
    kind: Kind,
    ending: Ending,
    failures: &Failures,
    out: &mut Counted<W>,
) -> Result<(), Broken>
    requires { out.old.failures ≡ 0 }
    ensures { WritesAll W.contents out.old out.new (ending_lines kind ending (found failures.now)) result }
{
    match (kind, ending) {
        (Kind::PlaysOn, Ending::Fail { .. }) => write_failures(failures, out),
        _ => write_verdict(ending, out),
    }
}

/// Writes a line for each failure that is listed, and how many there were.
fn write_failures<W: Sink>(failures: &Failures, out: &mut Counted<W>) -> Result<(), Broken>
    requires { out.old.failures ≡ 0 }
    ensures { WritesAll W.contents out.old out.new
        (flat_map mismatch_line failures.now.list.items ++ total_line failures.now.total) result }
{
    write_mismatches(failures.list.as_slice(), out)?;
    write_total(failures.total, out)
}

/// Writes a line for each wanted bit that did not come out.
fn write_mismatches<W: Sink>(list: &[Mismatch], out: &mut Counted<W>) -> Result<(), Broken>
    requires { out.old.failures ≡ 0 }
    ensures { WritesAll W.contents out.old out.new (flat_map mismatch_line list.now) result }
{
    for mismatch in list {
        write_mismatch(mismatch, out)?;
    }
    Ok(())
}

/// Writes the line of a wanted bit that did not come out.
fn write_mismatch<W: Sink>(mismatch: &Mismatch, out: &mut Counted<W>) -> Result<(), Broken>
    requires { out.old.failures ≡ 0 }
    ensures { WritesAll W.contents out.old out.new (mismatch_line mismatch.now) result }
{
    let Mismatch { command, part, bit } = *mismatch;
    write_verdict(Ending::Fail { command, part, bit }, out)
}

/// Writes the line of a refusal.
pub(crate) fn write_refusal<W: Sink>(fault: SvfFault, out: &mut Counted<W>) -> Result<(), Broken>
    requires { out.old.failures ≡ 0 }
    ensures { WritesAll W.contents out.old out.new (refusal_line fault) result }
{
    let mut number = Buffer::new();
    put_pieces(
        out,
        &[
            b"svf ",
            code_words(fault.code).as_bytes(),
            b" statement ",
            number.format(fault.statement).as_bytes(),
            b"\n",
        ],
    )
}

/// Writes the line of a text that is accepted.
pub(crate) fn write_accepted<W: Sink>(program: &Program, out: &mut Counted<W>) -> Result<(), Broken>
    requires { out.old.failures ≡ 0 }
    ensures { WritesAll W.contents out.old out.new (accepted_line (program_of program.now)) result }
{
    let mut statements = Buffer::new();
    let mut steps = Buffer::new();
    put_pieces(
        out,
        &[
            b"accepted ",
            statements.format(program.statements()).as_bytes(),
            b" statements ",
            steps.format(program.len()).as_bytes(),
            b" steps\n",
        ],
    )
}

fn code_words(code: Code) -> &'static str
    ensures { result.now ≡ showing.code_words code }
{
    match code {
        Code::BadByte(_) => "S1 BadByte",
        Code::Unclosed(_) => "S2 Unclosed",
        Code::UnknownCommand => "S3 UnknownCommand",
        Code::BadForm => "S4 BadForm",
        Code::BadNumber => "S5 BadNumber",
        Code::TooWide => "S6 TooWide",
        Code::MissingTdi => "S7 MissingTdi",
        Code::BadState => "S8 BadState",
        Code::BadPath => "S9 BadPath",
        Code::TrstHeld => "S10 TrstHeld",
        Code::TrstAbsent => "S11 TrstAbsent",
        Code::EmptyScan => "S12 EmptyScan",
        Code::Unsupported => "S13 Unsupported",
        Code::TooSlow => "S14 TooSlow",
        Code::TooLarge => "S15 TooLarge",
        Code::NoMemory => "S16 NoMemory",
    }
}
