//! The lines that say how many faults of each kind are caught, missed and invisible.

ghost use Rattle.std.specs.Prelude.{◌≡◌, ◌++◌, Bool, List, ℕ, OnOk};
ghost use Rattle.board_faults.specs.declared.judging.Judged.{Judged as TheJudged};
ghost use Rattle.board_plan.specs.Planned.{Wiring};
ghost use Rattle.play_coverage.specs.Lines.{loops_line, totals};
ghost use Rattle.play_coverage.specs.Tallies.{IsTally, counts_line};

use crate::outcomes::FaultKind;
use crate::tallies::Tally;
use crate::words::kind_word;
use fault_serving::Counts;
use itoa::Buffer;
use output_words::put;
use std::alloc::AllocError;

/// Puts a line for each kind of faults behind what is told of them, and one for those that are not judged where there
/// are any. Refuses for want of memory alone.
pub(crate) fn put_totals(tally: &mut Tally) -> Result<(), AllocError>
    ensures { OnOk result ((before : List ℕ) (listed : Bool) (w : Wiring) (js : List TheJudged)
        → IsTally before listed w js tally.old → tally.new.text.items ≡ tally.old.text.items ++ totals js) }
{
    put_counts(&mut tally.text, tally.opens, FaultKind::Opens)?;
    put_counts(&mut tally.text, tally.pulls, FaultKind::Pulls)?;
    put_counts(&mut tally.text, tally.stuck, FaultKind::Stuck)?;
    put_counts(&mut tally.text, tally.shorts, FaultKind::Shorts)?;
    put_loops(&mut tally.text, tally.loops)
}

/// Puts the line of a kind of faults behind a text.
fn put_counts(text: &mut Vec<u8>, counts: Counts, kind: FaultKind) -> Result<(), AllocError>
    ensures { OnOk result (text.new.items ≡ text.old.items ++ counts_line kind counts) }
{
    let mut caught = Buffer::new();
    let mut missed = Buffer::new();
    let mut invisible = Buffer::new();
    put(
        text,
        &[
            kind_word(kind),
            b" caught ",
            caught.format(counts.caught).as_bytes(),
            b" missed ",
            missed.format(counts.missed).as_bytes(),
            b" invisible ",
            invisible.format(counts.invisible).as_bytes(),
            b"\n",
        ],
    )
}

/// Puts the line of so many faults that are not judged behind a text, nothing where there are none.
fn put_loops(text: &mut Vec<u8>, loops: usize) -> Result<(), AllocError>
    ensures { OnOk result (text.new.items ≡ text.old.items ++ loops_line loops) }
{
    if loops == 0 {
        return Ok(());
    }
    let mut digits = Buffer::new();
    put(text, &[b"loops ", digits.format(loops).as_bytes(), b"\n"])
}
