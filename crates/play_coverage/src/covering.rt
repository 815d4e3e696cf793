//! What a program would miss on a board, as it is printed.

ghost use Rattle.std.specs.Prelude.{◌≡◌, ◌++◌, OnOk, IfOk, flat_map};
ghost use Rattle.svf_programs.specs.Sizes.{program_of};
ghost use Rattle.board_plan.specs.View.{wiring};
ghost use Rattle.board_faults.specs.Made.{IsReadyPlan, PowersUp, board_of};
ghost use Rattle.output_words.specs.Statuses.{number};
ghost use Rattle.fault_serving.specs.Written.{Tells};
ghost use Rattle.play_coverage.specs.Contending as spec;
ghost use Rattle.play_coverage.specs.Covering.{Covers, IsCover};
ghost use Rattle.play_coverage.specs.Lines.{contention_line};
ghost use Rattle.play_coverage.specs.Tallies.{status_by};

use crate::contending::{Contention, contentions};
use crate::judging::tell_faults;
use crate::totals::put_totals;
use board_description::{Untold, net_name};
use board_faults::Board;
use board_plan::Plan;
use byte_streams::{Counted, Sink, put_all};
use fault_serving::ending_on;
use itoa::Buffer;
use output_words::{Status, put};
use play_model::{Ending, write_verdict};
use std::alloc::{AllocError, Global};
use svf_programs::Program;

/// Writes which faults of a planned board's nets an accepted program would miss, and answers the exit status.
///
/// A line comes first for each net whose strong drivers disagree after a statement. A line for each fault that is
/// missed follows, the first 256; or where they are to be listed, one for each way of every fault. Then come how many
/// faults of each kind are caught, missed and invisible, and how many are not judged. The status is 0 where nothing is
/// missed and nothing contends, else 1. Of a program that fails on the board itself the verdict alone is written.
///
/// Everything is made before the first byte is written, so nothing is where memory runs out. It asks that the plan is
/// ready, as those are that board files make. One play of the program tells of most faults.
pub fn write_cover<W: Sink>(
    alloc: Global,
    plan: &Plan,
    program: &Program,
    listed: bool,
    out: &mut Counted<W>,
) -> Result<u8, Untold>
    requires ready { IsReadyPlan plan.now }
    requires whole { out.old.failures ≡ 0 }
    ensures { Tells W.contents out.old out.new (IsCover (program_of program.now) (wiring plan.now) listed) result }
{
    match ending_on(alloc, plan, program)? {
        Ending::Pass => write_faults(alloc, plan, program, listed, out),
        ending => {
            write_verdict(ending, out)?;
            Ok(ending.status())
        }
    }
}

/// What is printed of a program that passes on the board itself, and the exit status.
#[derive(Drop)]
struct Cover {
    text: Vec<u8>,
    status: Status,
}

/// Writes what is made of the faults of a board by a program that passes on the board itself.
fn write_faults<W: Sink>(
    alloc: Global,
    plan: &Plan,
    program: &Program,
    listed: bool,
    out: &mut Counted<W>,
) -> Result<u8, Untold>
    requires ready { IsReadyPlan plan.now }
    requires whole { out.old.failures ≡ 0 }
    ensures { Tells W.contents out.old out.new (Covers (program_of program.now) (wiring plan.now) listed) result }
{
    let cover = cover_of(alloc, plan, program, listed)?;
    put_all(out, &cover.text)?;
    Ok(cover.status.number())
}

fn cover_of(
    alloc: Global,
    plan: &Plan,
    program: &Program,
    listed: bool,
) -> Result<Cover, AllocError>
    requires { IsReadyPlan plan.now }
    ensures { IfOk result
        (λ c. Covers (program_of program.now) (wiring plan.now) listed c.text.items (number c.status)) }
{
    let contending = contentions_of(alloc, plan, program)?;
    let mut before = Vec::new(alloc);
    put_contentions(&mut before, plan, &contending)?;
    let mut tally = tell_faults(alloc, plan, program, listed, before)?;
    let status = status_of(&contending, tally.told);
    put_totals(&mut tally)?;
    Ok(Cover {
        text: tally.text,
        status,
    })
}

/// The nets whose strong drivers disagree while a program plays on the board of a plan, from power-up.
fn contentions_of(
    alloc: Global,
    plan: &Plan,
    program: &Program,
) -> Result<Vec<Contention>, AllocError>
    requires { PowersUp plan.now }
    ensures { IfOk result
        (λ v. v.items ≡ spec.contentions (program_of program.now) (board_of (wiring plan.now))) }
{
    let mut board = Board::powered_up(alloc, plan)?;
    contentions(alloc, program, &mut board)
}

/// Puts a line for each net whose drivers disagree behind a text.
#[tactic(auto, using(output_words::proofs::TextLaws::flat_map_more))]
fn put_contentions(
    text: &mut Vec<u8>,
    plan: &Plan,
    contending: &[Contention],
) -> Result<(), AllocError>
    ensures { OnOk result
        (text.new.items ≡ text.old.items ++ flat_map (contention_line (wiring plan.now)) contending.now) }
{
    for contention in contending {
        put_contention(text, plan, *contention)?;
    }
    Ok(())
}

fn put_contention(text: &mut Vec<u8>, plan: &Plan, contention: Contention) -> Result<(), AllocError>
    ensures { OnOk result
        (text.new.items ≡ text.old.items ++ contention_line (wiring plan.now) contention) }
{
    let mut command = Buffer::new();
    put(
        text,
        &[
            b"contends command ",
            command.format(contention.command).as_bytes(),
            b" net ",
            net_name(&plan.nets, contention.net).as_bytes(),
            b"\n",
        ],
    )
}

/// The exit status: a pass where nothing contends and nothing is missed, by how many faults are missed and told.
fn status_of(contending: &[Contention], told: usize) -> Status
    ensures { result ≡ status_by contending.now told }
{
    if contending.is_empty() && told == 0 {
        Status::Pass
    } else {
        Status::Fail
    }
}
