//! The headline over connections: of an accepted text, and a board in use.

ghost use Rattle.std.specs.Prelude.{ℕ};
ghost use Rattle.board_model.specs.Chain.{BoardState};
ghost use Rattle.byte_streams.specs.Counts.{CountedView};
ghost use Rattle.play_direct.specs.InUse.{IsInUse};
ghost use Rattle.jt_player.specs.Connected.{AnHonestEndHasFoundAllOfTheText, AnHonestEndMeansTheText};
ghost use Rattle.jt_player.specs.Connected.{FindsAllOfTheTextWhereLinked, MeansTheTextWhereLinked};
ghost use Rattle.play_pipes.specs.Loops.{LoopsAllOver, LoopsOver};
ghost use Rattle.play_pipes.specs.Serves.{ServesOver};
ghost use Rattle.play_pipes.specs.Served as serving;
ghost use Rattle.play_model.specs.declared.ending.Ending.{Ending as TheEnding};
ghost use Rattle.play_model.specs.declared.kind.Kind.{Kind as TheKind};
ghost use Rattle.play_model.specs.declared.kind.Kind.TheVariants.{PlaysOn, Stops};
ghost use Rattle.scan_vectors.specs.Failures.{Found};
ghost use Rattle.svf_programs.specs.Steps.{Program as TheProgram};

use byte_streams::{End, Sink, Source};

/// A pass or a fail over a link that hands bytes on as they are, to and from a board in use, is what the accepted text
/// means over whole registers: the verdict of a player that stops, all failures of one that plays on.
pub fn an_honest_end_means_the_text()
    ensures stops { AnHonestEndMeansTheText }
    ensures plays_on { AnHonestEndHasFoundAllOfTheText }
{}

/// So is a play over two ends that read what the other wrote, unless it was lost.
pub fn a_loop_over_linked_ends_means_the_text<P: End, B: End>()
    ensures stops { (x x' : CountedView P) (y y' : CountedView B) (program : TheProgram) (start board : BoardState)
        (ending : TheEnding)
        → (l : LoopsOver P.puts P.hears B.puts B.hears P.contents P.remaining B.contents B.remaining x x' y y' Stops
        program start board ending)
        → MeansTheTextWhereLinked l.player l.lost l.read program start board ending }
    ensures plays_on { (x x' : CountedView P) (y y' : CountedView B) (program : TheProgram) (start board : BoardState)
        (ending : TheEnding) (found : Found)
        → (l : LoopsAllOver P.puts P.hears B.puts B.hears P.contents P.remaining B.contents B.remaining x x' y y'
        PlaysOn program start board ending found)
        → FindsAllOfTheTextWhereLinked l.play.player l.play.lost l.play.read program start board ending found }
{}

/// However serving a board in use ends, what it leaves is a board in use: so a new play on it means what its own text
/// means.
pub fn what_serving_leaves_is_in_use<R: Source, W: Sink>()
    ensures { (w w' : CountedView W) (r r' : CountedView R) (b b' : BoardState) (most : ℕ) (served : serving.Served)
        → IsInUse b → ServesOver W.puts R.hears W.contents R.remaining w w' r r' b b' most served → IsInUse b' }
{}

/// And however a play over two ends ends.
pub fn what_a_loop_leaves_is_in_use<P: End, B: End>()
    ensures { (x x' : CountedView P) (y y' : CountedView B) (kind : TheKind) (program : TheProgram)
        (start board : BoardState) (ending : TheEnding) → IsInUse start
        → LoopsOver P.puts P.hears B.puts B.hears P.contents P.remaining B.contents B.remaining x x' y y' kind program
        start board ending
        → IsInUse board }
{}
