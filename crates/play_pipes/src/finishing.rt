//! Playing on until the end.

ghost use Rattle.std.specs.Prelude.{◌≡◌, Some};
ghost use Rattle.play_pipes.specs.Standing.{ended_of};
ghost use Rattle.play_pipes.specs.Finishing.{IsFinished, IsReached};

use crate::event::Event;
use crate::pipes::Pipes;
use play_model::Ending;

/// Goes on, without a loss, until the play has ended. Answers how it ended.
pub(crate) fn finish(pipes: &mut Pipes) -> Ending
    requires { IsReached pipes.old }
    ensures finished { IsFinished pipes.old pipes.new }
    ensures ending { ended_of pipes.new.world ≡ Some result }
{
    go_on(pipes);
    match pipes.ended() {
        Some(ending) => ending,
        None => unreachable!(),
    }
}

/// Goes on, without a loss, until the play has ended.
fn go_on(pipes: &mut Pipes)
    requires { IsReached pipes.old }
    ensures { IsFinished pipes.old pipes.new }
{
    while !pipes.is_over() {
        pipes.run(&[
            Event::Put(usize::MAX),
            Event::Serve(usize::MAX),
            Event::Take(usize::MAX),
        ]);
    }
}
