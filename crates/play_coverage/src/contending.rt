//! Nets whose strong drivers disagree while a program plays.

ghost use Rattle.std.specs.Prelude.{◌≡◌, ◌<◌, ◌++◌, ◌&&◌, not, false, get_or, length, map, IfOk, OnOk};
ghost use Rattle.svf_programs.specs.Seen as seen;
ghost use Rattle.svf_programs.specs.Sizes.{program_of};
ghost use Rattle.svf_programs.specs.Sound.{IsWithin};
ghost use Rattle.board_model.specs.Chain.{members};
ghost use Rattle.board_model.specs.Nets.{is_opposed};
ghost use Rattle.board_model.specs.Resting.{IsAtRest};
ghost use Rattle.board_model.specs.Whole.{AtRest};
ghost use Rattle.board_faults.specs.Resting.{IsResting};
ghost use Rattle.play_model.specs.DirectPlay.{opened_state};
ghost use Rattle.play_model.specs.Meaning as meaning;
ghost use Rattle.play_coverage.specs.Contending as spec;
ghost use Rattle.play_coverage.specs.Contending.{contending, contention, either, newly};

use board_faults::{Board, Chain, play_opening, play_step};
use scan_vectors::Failures;
use std::alloc::{AllocError, Global};
use svf_programs::{Program, Step};

/// A net on which strong drivers of 0 and of 1 are after a statement.
#[derive(Drop, Clone, Copy)]
pub struct Contention {
    /// The first statement after which they are, counted from 1.
    pub command: usize,
    /// The net, counted from 0 in the order of the board file.
    pub net: usize,
}

/// Plays an accepted program on a board to its end, whatever fails. Answers each net whose strong drivers disagree
/// after a statement, once, by statement and then by net. Refused where memory runs out.
pub fn contentions(
    alloc: Global,
    program: &Program,
    board: &mut Board,
) -> Result<Vec<Contention>, AllocError>
    ensures { IfOk result (λ v. v.items ≡ spec.contentions (program_of program.now) board.old) }
{
    let mut found = Vec::new(alloc);
    let mut marks = Vec::from_elem(alloc, false, board.chain().nets())?;
    note_all(program, board, &mut marks, &mut found)?;
    Ok(found)
}

/// Plays a program on a board to its end, given a mark for each net, and puts the nets that are not marked and whose
/// strong drivers disagree after a statement behind the ones found.
fn note_all(
    program: &Program,
    board: &mut Board,
    marks: &mut [bool],
    found: &mut Vec<Contention>,
) -> Result<(), AllocError>
    requires { length marks.old ≡ length board.old.nets }
    ensures { OnOk result (found.new.items
        ≡ found.old.items ++ contending (program_of program.now).steps (opened_state board.old) marks.old) }
{
    // For the proof alone: what the types keep of a program's steps and of a board's devices.
    let _ = program.len();
    let _ = board.devices();
    play_opening(board);
    for step in program.steps() {
        play(&step, board);
        note_opposed(board.chain(), step.number, marks, found)?;
    }
    Ok(())
}

/// Plays a step on a board at rest (asked).
fn play(step: &Step<'_>, board: &mut Board)
    requires rests { IsResting board.old }
    requires within { IsWithin (seen.step step.now.what) }
    ensures { (m : AtRest) → IsAtRest board.old m
        → IsAtRest board.new (meaning.after_step (seen.step step.now.what) m) }
{
    let mut failures = Failures::new();
    play_step(step, board, &mut failures);
}

/// Marks the nets on which strong drivers disagree, and puts those behind the ones found that were not marked before.
fn note_opposed(
    chain: &Chain,
    command: usize,
    marks: &mut [bool],
    found: &mut Vec<Contention>,
) -> Result<(), AllocError>
    requires { length marks.old ≡ length chain.now.nets }
    ensures marks { OnOk result
        (marks.new ≡ either marks.old (map (is_opposed chain.now.nets (members chain.now.chips)) chain.now.nets)) }
    ensures found { OnOk result (found.new.items ≡ found.old.items ++ map (contention command)
        (newly 0 marks.old (map (is_opposed chain.now.nets (members chain.now.chips)) chain.now.nets))) }
{
    let mut net = 0;
    while net < marks.len() {
        let fresh = is_fresh(chain, marks, net);
        if fresh {
            marks[net] = true;
            found.push(Contention { command, net })?;
        }
        net += 1;
    }
    Ok(())
}

/// Whether strong drivers disagree on a net that is not marked.
fn is_fresh(chain: &Chain, marks: &[bool], net: usize) -> bool
    requires marks { net < length marks.now }
    requires nets { net < length chain.now.nets }
    ensures { result ≡ (get_or (map (is_opposed chain.now.nets (members chain.now.chips)) chain.now.nets) net false
        && not (get_or marks.now net false)) }
{
    is_new(chain.is_opposed(net), marks[net])
}

/// Whether drivers disagree on a net, and that is not noted.
fn is_new(opposed: bool, marked: bool) -> bool
    ensures { result ≡ (opposed && not marked) }
{
    opposed && !marked
}
