//! All steps of a program, played.

ghost use Rattle.std.specs.Prelude.{◌≡◌};
ghost use Rattle.scan_vectors.specs.Failures.{found};
ghost use Rattle.svf_programs.specs.Legal.{IsLegalProgram};
ghost use Rattle.svf_programs.specs.Sizes.{program_of};
ghost use Rattle.board_model.specs.Sound.{HasDevice, IsSoundBoard};
ghost use Rattle.play_model.specs.Play.{play};
ghost use Rattle.play_model.specs.declared.kind.Kind.TheVariants.{PlaysOn};
ghost use Rattle.play_model.specs.PlayingOn.{ending_of};
ghost use Rattle.play_model.specs.Streams.{found_of, stops_for};
ghost use Rattle.play_model.specs.ScheduleLaws.{bytes_of_full_play, full};
ghost use Rattle.play_direct.specs.ToTheEnd.{all_failures};

use crate::beside::Beside;
use crate::stepping::{OPENING, play_opening, play_step};
use jt_board::Board;
use play_model::{Ending, Kind};
use scan_vectors::Failures;
use svf_programs::Program;

/// Plays a program on a board, the opening edge by edge and from then on each step on whole registers: to its end, or
/// up to and with the first step that fails. Answers what failed.
pub(crate) fn play_steps<B: Beside>(
    program: &Program,
    kind: Kind,
    board: &mut Board,
    beside: &mut B,
) -> Failures
    // What is kept of every board and program.
    ensures sound { IsSoundBoard board.old }
    ensures some { HasDevice board.old }
    ensures legal { IsLegalProgram (program_of program.now).steps }

    // The play.
    ensures board { board.new ≡ (full kind (program_of program.now).steps board.old).board }
    ensures first { ending_of (found result).list ≡ (play (program_of program.now) board.old).ending }
    ensures all { kind ≡ PlaysOn
        → found result ≡ found_of PlaysOn (all_failures (program_of program.now) board.old) }

    // Its bytes.
    ensures bytes { B.takes beside.old
        (bytes_of_full_play kind (program_of program.now).steps board.old) beside.new }
{
    // For the proof alone: what the types keep of a program's steps and of a board's devices.
    let _ = program.len();
    let _ = board.devices();
    let mut failures = Failures::new();
    beside.take(OPENING);
    play_opening(board);
    for step in program.steps() {
        let place = board.place();
        beside.take_step(place, &step);
        play_step(&step, board, &mut failures);
        if stops(kind, &failures) {
            beside.take(b"Q");
            return failures;
        }
    }
    beside.take(b"Q");
    failures
}

/// Whether a play of this kind stops for these failures.
fn stops(kind: Kind, failures: &Failures) -> bool
    ensures { result ≡ stops_for kind (found failures.now).list }
{
    match kind {
        Kind::Stops => !failures.list.is_empty(),
        Kind::PlaysOn => false,
    }
}

/// How a play with these failures ends: by the first of them, or with a pass.
pub(crate) fn ending(failures: &Failures) -> Ending
    ensures { result ≡ ending_of (found failures.now).list }
{
    match failures.first() {
        None => Ending::Pass,
        Some(first) => Ending::Fail {
            command: first.command,
            part: first.part,
            bit: first.bit,
        },
    }
}
