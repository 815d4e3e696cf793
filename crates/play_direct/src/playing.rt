//! A whole program, played.

ghost use Rattle.std.specs.Prelude.{◌≡◌};
ghost use Rattle.scan_vectors.specs.Failures.{found};
ghost use Rattle.svf_programs.specs.Sizes.{program_of};
ghost use Rattle.play_model.specs.DirectPlay.{MeansFromOpening};
ghost use Rattle.play_model.specs.Play.{play};
ghost use Rattle.play_model.specs.declared.kind.Kind.TheVariants.{PlaysOn};
ghost use Rattle.play_model.specs.PlayingOn.{ending_of};
ghost use Rattle.play_model.specs.Streams.{found_of};
ghost use Rattle.play_model.specs.AllFailures.{MeansAllFromOpening};
ghost use Rattle.play_model.specs.ScheduleLaws.{full};
ghost use Rattle.play_direct.specs.ToTheEnd.{all_failures};

use crate::beside::Nothing;
use crate::steps::{ending, play_steps};
use jt_board::Board;
use play_model::{Ending, Kind};
use scan_vectors::Failures;
use svf_programs::Program;

/// Plays an accepted program on a board, whatever state any bytes left it in: the opening edge by edge, and from then
/// on each step on whole registers, up to and with the first that fails.
///
/// The ending is that of the program's meaning over whole registers from the state after the opening: a pass, or the
/// first statement of which a wanted bit did not come out, with the part and place of the least such bit. The board is
/// at rest in the last state of that meaning, where all bytes of the play would leave it. Takes no memory.
pub fn play_program(program: &Program, board: &mut Board) -> Ending
    ensures ending { result ≡ (play (program_of program.now) board.old).ending }
    ensures board { board.new ≡ (play (program_of program.now) board.old).board }
    ensures meaning { MeansFromOpening (program_of program.now) board.old result board.new }
{
    let failures = play_steps(program, Kind::Stops, board, &mut Nothing);
    ending(&failures)
}

/// Plays an accepted program on a board as `play_program` does, but to its end, whatever fails.
///
/// Of all wanted bits that did not come out, by statement and then by place in the whole vector, it lists the first
/// ones and counts all. The ending is that of the first of them, or a pass. They are those of the program's meaning
/// over whole registers, and the board is at rest where this meaning leaves it. Takes no memory.
pub fn play_program_all(program: &Program, board: &mut Board) -> (Ending, Failures)
    ensures ending { result.0 ≡ ending_of (all_failures (program_of program.now) board.old) }
    ensures failures { found result.1 ≡ found_of PlaysOn (all_failures (program_of program.now) board.old) }
    ensures board { board.new ≡ (full PlaysOn (program_of program.now).steps board.old).board }
    ensures meaning { MeansAllFromOpening (program_of program.now).steps board.old
        (all_failures (program_of program.now) board.old) board.new }
{
    let failures = play_steps(program, Kind::PlaysOn, board, &mut Nothing);
    (ending(&failures), failures)
}
