//! Player and board joined by two bounded pipes.

ghost use Rattle.std.specs.Prelude.{◌≡◌, ◌<◌, Some, map, MatchResult};
ghost use Rattle.play_model.specs.Events.{empty_pipes, moving, run};
ghost use Rattle.scan_vectors.specs.Failures.{found};
ghost use Rattle.play_model.specs.Streams.{new_stream};
ghost use Rattle.play_pipes.specs.Finishing.{IsFinished};
ghost use Rattle.play_pipes.specs.Standing.{ended_of};
ghost use Rattle.play_pipes.specs.Joining.{event_of, side};
ghost use Rattle.play_pipes.specs.Laws.{MeansAfter, MeansAllAfter};

use crate::event::Event;
use crate::finishing;
use crate::pipes::{Pipes, Unjoined};
use crate::standing::Standing;
use play_links::Board;
use play_model::Ending;
use player::{Failures, Player};
use std::alloc::Global;
use std::marker::Model;

/// Player and board with two bounded pipes between them, from a fresh player on.
#[derive(Drop)]
pub struct Joined {
    pipes: Pipes,
}

impl Model for Joined {
    ghost use Rattle.play_pipes.specs.Finishing.{IsReached};
    ghost use Rattle.play_pipes.specs.Joining.{JoinedState};

    ghost Value = { JoinedState };

    ghost view = { λ j. j.pipes };

    ghost invariant = { λ j. IsReached j.pipes };
}

impl Joined {
    /// Joins a fresh player of either kind (asked) and a board by two empty pipes, with room for `down` bytes and `up`
    /// answers, at least 1 each (asked). It takes all its memory before it takes anything over: for want of memory both
    /// come back.
    pub fn new(
        alloc: Global,
        player: Player,
        board: Board,
        down: usize,
        up: usize,
    ) -> Result<Joined, Unjoined>
        requires fresh { player ≡ new_stream player.kind player.program }
        requires down { 0 < down }
        requires up { 0 < up }
        ensures { MatchResult result
            (λ j. j ≡ record { world = empty_pipes player board; down_room = down; up_room = up })
            (λ back. (back.player ≡ player) × (back.board ≡ board)) }
    {
        let pipes = Pipes::new(alloc, player, board, down, up)?;
        Ok(Joined { pipes })
    }

    /// What a list of events does: how many of them moved something, and how the play stands then. After an end or a
    /// loss nothing changes.
    ///
    /// For every accepted program, every board of sound devices, every room of the pipes and every order of events: a
    /// play that ends unlost gives exactly the verdict, and leaves exactly the registers and pin levels, of the
    /// register-level meaning from the state after the opening. A play to the end gives exactly its failures, all of
    /// them.
    pub fn run(&mut self, events: &[Event]) -> Standing
        ensures ended { result.ended ≡ ended_of self.new.world }
        ensures lost { result.lost ≡ self.new.world.lost }
        ensures means { MeansAfter self.old self.new.world }
        ensures means_all { MeansAllAfter self.old self.new.world }
        ensures moved { result.moved
            ≡ moving side self.old.down_room self.old.up_room (map event_of events.now) self.old.world }
        ensures world { self.new ≡ record self.old {
          world = run side self.old.down_room self.old.up_room (map event_of events.now) self.old.world;
        } }
    {
        let moved = self.pipes.run(events);
        Standing {
            moved,
            ended: self.pipes.ended(),
            lost: self.pipes.is_lost(),
        }
    }

    /// Goes on, without a loss, until the play has ended or was lost before. Answers how it ended.
    pub fn finish(&mut self) -> Ending
        ensures finished { IsFinished self.old self.new }
        ensures ending { ended_of self.new.world ≡ Some result }
        ensures means { MeansAfter self.old self.new.world }
        ensures means_all { MeansAllAfter self.old self.new.world }
    {
        finishing::finish(&mut self.pipes)
    }

    /// The wanted bits that did not come out so far: of a player that plays on the first 256 and how many they are, of
    /// one that stops the first alone.
    pub fn failures(&self) -> &Failures
        ensures { found result.now ≡ self.now.world.player.found }
    {
        self.pipes.failures()
    }

    /// The board, as the events left it.
    pub fn board(&self) -> &Board
        ensures { result.now ≡ self.now.world.board }
    {
        self.pipes.board()
    }

    /// The board, of which this play gives up its hold.
    pub fn into_board(self) -> Board
        ensures { result ≡ self.world.board }
    {
        self.pipes.into_board()
    }
}
