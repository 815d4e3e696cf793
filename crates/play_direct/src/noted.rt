//! A whole program, played, and its bytes written beside it.

ghost use Rattle.std.specs.Prelude.{◌≡◌};
ghost use Rattle.byte_streams.specs.Writes.{WritesAll, flagged};
ghost use Rattle.scan_vectors.specs.Failures.{found};
ghost use Rattle.svf_programs.specs.Sizes.{program_of};
ghost use Rattle.play_model.specs.DirectPlay.{MeansFromOpening, bytes_of_play};
ghost use Rattle.play_model.specs.Play.{play};
ghost use Rattle.play_model.specs.declared.kind.Kind.TheVariants.{PlaysOn};
ghost use Rattle.play_model.specs.PlayingOn.{ending_of};
ghost use Rattle.play_model.specs.Streams.{found_of};
ghost use Rattle.play_model.specs.AllFailures.{MeansAllFromOpening};
ghost use Rattle.play_model.specs.ScheduleLaws as laws;
ghost use Rattle.play_direct.specs.ToTheEnd.{all_failures};

use crate::steps::{ending, play_steps};
use byte_streams::{Counted, Sink};
use jt_board::Board;
use play_model::{Ending, Kind};
use scan_vectors::Failures;
use svf_programs::Program;

/// Plays a program on a board as `play_program` does, and writes the bytes of the play: `Q` is the last. The flag tells
/// that all of them were written; it is false exactly where the writer's first loss came in this call, and the play
/// goes on all the same.
pub fn play_program_noted<W: Sink>(
    program: &Program,
    board: &mut Board,
    out: &mut Counted<W>,
) -> (Ending, bool)
    requires none_lost { out.old.failures ≡ 0 }

    // The play.
    ensures ending { result.0 ≡ (play (program_of program.now) board.old).ending }
    ensures board { board.new ≡ (play (program_of program.now) board.old).board }
    ensures meaning { MeansFromOpening (program_of program.now) board.old result.0 board.new }

    // What was written of it.
    ensures writes { WritesAll W.contents out.old out.new (bytes_of_play (program_of program.now) board.old)
        (flagged result.1) }
{
    let failures = play_steps(program, Kind::Stops, board, out);
    (ending(&failures), out.failures() == 0)
}

/// Plays a program to its end as `play_program_all` does, and writes the bytes of the play, as `play_program_noted`
/// does.
pub fn play_program_all_noted<W: Sink>(
    program: &Program,
    board: &mut Board,
    out: &mut Counted<W>,
) -> (Ending, Failures, bool)
    requires none_lost { out.old.failures ≡ 0 }

    // The play.
    ensures ending { result.0 ≡ ending_of (all_failures (program_of program.now) board.old) }
    ensures failures { found result.1 ≡ found_of PlaysOn (all_failures (program_of program.now) board.old) }
    ensures board { board.new ≡ (laws.full PlaysOn (program_of program.now).steps board.old).board }
    ensures meaning { MeansAllFromOpening (program_of program.now).steps board.old
        (all_failures (program_of program.now) board.old) board.new }

    // What was written of it.
    ensures writes { WritesAll W.contents out.old out.new
        (laws.bytes_of_full_play PlaysOn (program_of program.now).steps board.old) (flagged result.2) }
{
    let failures = play_steps(program, Kind::PlaysOn, board, out);
    (ending(&failures), failures, out.failures() == 0)
}
