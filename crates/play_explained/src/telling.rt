//! The lines of a play with those that say why its bits fail.

ghost use Rattle.std.specs.Prelude.{◌≡◌, ◌++◌, IfOk, flat_map};
ghost use Rattle.byte_streams.specs.Writes.{WritesAll};
ghost use Rattle.scan_vectors.specs.Failures.{found};
ghost use Rattle.board_model.specs.Chain.{members};
ghost use Rattle.output_words.specs.Lines.{total_line};
ghost use Rattle.play_model.specs.Endings.{verdict_line};
ghost use Rattle.jt_player.specs.Showing.{mismatch_line};
ghost use Rattle.play_explained.specs.Lines as spec;
ghost use Rattle.play_explained.specs.Passed.{IsAt};
ghost use Rattle.play_explained.specs.Lines.{explained_lines, failure_lines, lines_known, lines_of_failure};

use crate::explaining::Explained;
use crate::places::{Passed, none_passed, position_from};
use crate::wanted::wanted_of;
use board_reasons::{Chain, Reason, is_same_part, write_reason, write_wanted};
use byte_streams::{Broken, Counted, Sink, put_all};
use jt_player::write_verdict;
use output_words::{Position, write_position_line, write_total};
use play_model::{Ending, Kind};
use refusal_places::statement_position;
use scan_vectors::{Failures, Mismatch};
use svf_programs::Program;

/// What is known of failing bits beside their places.
#[derive(Clone, Copy)]
pub enum Known<'a> {
    /// Where those came from that came in their place, on a board with this chain.
    OnBoard {
        /// The chain of the board.
        chain: &'a Chain,
        /// The bits that are explained.
        explained: &'a [Explained],
    },
    /// What the program wants of them.
    InProgram(&'a Program),
}

/// Writes how a play of this kind ended: the line of its verdict, or of one that plays on all failures that are listed
/// and how many there were; and behind the line of each failing bit where its statement starts, `at line 3 column 1`,
/// what was wanted, `wanted 0 got 1`, and where a board is known where the bit that came had stood. Behind the line of
/// a play that was lost or got a bad answer stands where that statement starts.
///
/// `Broken` comes exactly where the writer's first failure came in this call.
pub fn write_explained<W: Sink>(
    kind: Kind,
    ending: Ending,
    failures: &Failures,
    text: &[u8],
    known: Known<'_>,
    out: &mut Counted<W>,
) -> Result<(), Broken>
    requires { out.old.failures ≡ 0 }
    ensures { WritesAll W.contents out.old out.new
        (explained_lines text.now (lines_known known.entry) kind ending (found failures.now)) result }
{
    match (kind, ending) {
        (Kind::PlaysOn, Ending::Fail { .. }) => write_failures(failures, text, known, out),
        (Kind::Stops, Ending::Fail { command, part, bit }) => {
            let position = statement_position(text, command);
            write_failure(Mismatch { command, part, bit }, position, known, out)
        }
        _ => write_ended(ending, text, out),
    }
}

/// Writes how a play ended in which no bit failed, and where the statement starts in which it was lost or got a byte
/// that is no answer.
pub(crate) fn write_ended<W: Sink>(
    ending: Ending,
    text: &[u8],
    out: &mut Counted<W>,
) -> Result<(), Broken>
    requires { out.old.failures ≡ 0 }
    ensures { WritesAll W.contents out.old out.new (spec.ended_lines text.now ending) result }
{
    write_stopped(ending, stopped_at(ending, text), out)
}

/// Where the statement starts in which a play was lost or got a byte that is no answer.
fn stopped_at(ending: Ending, text: &[u8]) -> Option<Position>
    ensures { result ≡ spec.stopped_at text.now ending }
{
    match ending {
        Ending::Lost { command } => statement_position(text, command),
        Ending::BadAnswer { command, .. } => statement_position(text, command),
        Ending::Pass | Ending::Fail { .. } => None,
    }
}

/// Writes how a play ended, and where, if there is a place to tell.
fn write_stopped<W: Sink>(
    ending: Ending,
    position: Option<Position>,
    out: &mut Counted<W>,
) -> Result<(), Broken>
    requires { out.old.failures ≡ 0 }
    ensures { WritesAll W.contents out.old out.new (verdict_line ending ++ spec.at_line position) result }
{
    write_verdict(ending, out)?;
    write_place(position, out)
}

/// Writes the lines of each failing bit that is listed, and how many there were.
fn write_failures<W: Sink>(
    failures: &Failures,
    text: &[u8],
    known: Known<'_>,
    out: &mut Counted<W>,
) -> Result<(), Broken>
    requires { out.old.failures ≡ 0 }
    ensures { WritesAll W.contents out.old out.new
        (flat_map (failure_lines text.now (lines_known known.entry)) failures.now.list.items
        ++ total_line failures.now.total) result }
{
    write_each(failures.list.as_slice(), text, known, out)?;
    write_total(failures.total, out)
}

/// Writes the lines of failing bits.
fn write_each<W: Sink>(
    list: &[Mismatch],
    text: &[u8],
    known: Known<'_>,
    out: &mut Counted<W>,
) -> Result<(), Broken>
    requires { out.old.failures ≡ 0 }
    ensures { WritesAll W.contents out.old out.new
        (flat_map (failure_lines text.now (lines_known known.entry)) list.now) result }
{
    let mut passed = none_passed(text);
    for failure in list {
        passed = write_next(*failure, text, passed, known, out)?;
    }
    Ok(())
}

/// Writes the lines of a failing bit, by what was passed of the text before. Answers what is passed now.
fn write_next<'a, W: Sink>(
    failure: Mismatch,
    text: &'a [u8],
    passed: Passed<'a>,
    known: Known<'_>,
    out: &mut Counted<W>,
) -> Result<Passed<'a>, Broken>
    requires none_lost { out.old.failures ≡ 0 }
    requires at { IsAt text.now passed }
    ensures writes { WritesAll W.contents out.old out.new (failure_lines text.now (lines_known known.entry) failure)
        result }
    ensures at { IfOk result (λ p. IsAt text.now p) }
{
    let (position, further) = position_from(text, passed, failure.command);
    write_failure(failure, position, known, out)?;
    Ok(further)
}

/// Writes the lines of a failing bit, whose statement starts there.
fn write_failure<W: Sink>(
    failure: Mismatch,
    position: Option<Position>,
    known: Known<'_>,
    out: &mut Counted<W>,
) -> Result<(), Broken>
    requires { out.old.failures ≡ 0 }
    ensures { WritesAll W.contents out.old out.new (lines_of_failure (lines_known known.entry) position failure)
        result }
{
    write_mismatch(failure, out)?;
    write_place(position, out)?;
    write_known(known, failure, out)
}

/// Writes the line of a failing bit.
fn write_mismatch<W: Sink>(failure: Mismatch, out: &mut Counted<W>) -> Result<(), Broken>
    requires { out.old.failures ≡ 0 }
    ensures { WritesAll W.contents out.old out.new (mismatch_line failure) result }
{
    let Mismatch { command, part, bit } = failure;
    write_verdict(Ending::Fail { command, part, bit }, out)
}

/// Writes where a statement starts.
fn write_place<W: Sink>(position: Option<Position>, out: &mut Counted<W>) -> Result<(), Broken>
    requires { out.old.failures ≡ 0 }
    ensures { WritesAll W.contents out.old out.new (spec.at_line position) result }
{
    match position {
        Some(position) => write_position_line(position, out),
        None => put_all(out, b""),
    }
}

/// Writes what is known of a failing bit.
fn write_known<W: Sink>(
    known: Known<'_>,
    failure: Mismatch,
    out: &mut Counted<W>,
) -> Result<(), Broken>
    requires { out.old.failures ≡ 0 }
    ensures { WritesAll W.contents out.old out.new (lines_known known.entry failure) result }
{
    match known {
        Known::OnBoard { chain, explained } => {
            write_found(chain, reason_of(explained, failure), out)
        }
        Known::InProgram(program) => write_wanted(wanted_of(program, failure), out),
    }
}

/// Writes a reason that was found.
fn write_found<W: Sink>(
    chain: &Chain,
    reason: Option<Reason>,
    out: &mut Counted<W>,
) -> Result<(), Broken>
    requires { out.old.failures ≡ 0 }
    ensures { WritesAll W.contents out.old out.new
        (spec.lines_found chain.now.nets (members chain.now.chips) reason) result }
{
    match reason {
        Some(reason) => write_reason(chain, reason, out),
        None => put_all(out, b""),
    }
}

/// Why a bit failed, by those that are explained.
fn reason_of(explained: &[Explained], failure: Mismatch) -> Option<Reason>
    ensures { result ≡ spec.reason_of explained.now failure }
{
    match explained.iter().find(|found| is_of(failure, found)) {
        Some(found) => Some(found.reason),
        None => None,
    }
}

/// Whether this is why the bit failed.
fn is_of(failure: Mismatch, found: &Explained) -> bool
    ensures { result ≡ spec.is_of failure found.now }
{
    is_same(found.failure, failure)
}

/// Whether two failing bits are one.
fn is_same(failure: Mismatch, other: Mismatch) -> bool
    ensures { result ≡ spec.is_same failure other }
{
    failure.command == other.command
        && is_same_part(failure.part, other.part)
        && failure.bit == other.bit
}
