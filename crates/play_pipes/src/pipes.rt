//! The two pipes, and what each event does to them.

ghost use Rattle.std.specs.Prelude.{◌≡◌, ◌<◌, ◌+◌, ◌-◌, ◌++◌, ℕ, min, length, take, map, is_some, nat_lt};
ghost use Rattle.std.specs.Prelude.{◌≤◌, drop, false, unwrap_or, Some, MatchResult};
ghost use Rattle.circular_buffer.specs.Buffer.{buffer};
ghost use Rattle.player.specs.Each.{hear_each};
ghost use Rattle.bitbang_protocol.specs.Protocol.{decode};
ghost use Rattle.scan_vectors.specs.Failures.{found};
ghost use Rattle.play_model.specs.Events.{empty_pipes, happens, has_room, bytes_moved, moving, put_bytes, run, served};
ghost use Rattle.play_model.specs.Events.{take_answers};
ghost use Rattle.play_pipes.specs.Joining.{event_of, one_byte_served, side};
ghost use Rattle.play_pipes.specs.Standing.{ended_of, is_over};
ghost use Rattle.play_pipes.specs.Together.{is_quit};
ghost use Rattle.play_links.specs.Leaving.{left_behind};
ghost use Rattle.play_links.specs.Serves.{serve_bytes};

use crate::event::Event;
use bitbang_protocol::{Message, decode};
use circular_buffer::HeapCircularBuffer;
use play_links::{Board, Reply, Served, Taken, take_bytes};
use play_model::Ending;
use player::{Failures, Player};
use std::alloc::Global;
use std::marker::Model;

/// Player and board with two bounded pipes between them, in whatever state. Contracts see the world of the two and how
/// much each pipe has room for.
#[derive(Drop)]
pub struct Pipes {
    player: Player,
    board: Board,
    down: HeapCircularBuffer<u8>,
    up: HeapCircularBuffer<u8>,
    quit: bool,
    lost: bool,
}

impl Model for Pipes {
    ghost use Rattle.play_pipes.specs.Joining.{AreAnswers, JoinedState, world_between};

    ghost Value = { JoinedState };

    ghost view = { λ j. world_between j.player j.board j.down j.up j.quit j.lost };

    ghost invariant = { λ j. AreAnswers j.up.items };
}

/// Player and board that were not joined, for want of memory.
#[derive(Drop)]
pub struct Unjoined {
    /// The player, as it was handed over.
    pub player: Player,
    /// The board, as it was handed over.
    pub board: Board,
}

/// The most bytes that the player puts into a pipe at once.
const PIECE: usize = 64;

/// The most bytes that the board takes together.
const MOST_TOGETHER: usize = 512;

/// The fewest for which that is not dearer than one by one.
const FEWEST_TOGETHER: usize = 8;

impl Pipes {
    /// Empty pipes between a player and a board, with room for `down` bytes and `up` answers. It takes all its memory
    /// before it takes anything over: for want of memory both come back.
    pub fn new(
        alloc: Global,
        player: Player,
        board: Board,
        down: usize,
        up: usize,
    ) -> Result<Pipes, Unjoined>
        ensures { MatchResult result
            (λ j. j ≡ record { world = empty_pipes player board; down_room = down; up_room = up })
            (λ back. (back.player ≡ player) × (back.board ≡ board)) }
    {
        let Ok(down) = HeapCircularBuffer::with_capacity(alloc, down) else {
            return Err(Unjoined { player, board });
        };
        let Ok(up) = HeapCircularBuffer::with_capacity(alloc, up) else {
            return Err(Unjoined { player, board });
        };
        Ok(Pipes {
            player,
            board,
            down,
            up,
            quit: false,
            lost: false,
        })
    }

    /// Puts some of the player's next bytes into the down pipe: as many as wait, have room, and are asked for, and a
    /// piece at most.
    fn put_piece(&mut self, n: usize) -> usize
        ensures moved { result ≡ length self.new.world.down - length self.old.world.down }
        ensures world { self.new ≡ record self.old {
          world = put_bytes side self.old.down_room self.old.up_room (min n 64) self.old.world;
        } }
    {
        let room = self.down.capacity() - self.down.len();
        let ask = n.min(PIECE).min(room);
        if ask == 0 {
            return 0;
        }
        let mut piece = [0; PIECE];
        let count = self.player.next_bytes(&mut piece[..ask]);
        self.down.fill_from_slice(&piece[..count])
    }

    /// The player takes some answers, n at most; none only where there is none. Those at the front are taken together.
    fn take_piece(&mut self, n: usize) -> usize
        requires { 0 < n }
        ensures moved { result ≡ length self.old.world.up - length self.new.world.up }
        ensures within { result ≤ n }
        ensures world { self.new ≡ record self.old {
          world = take_answers side self.old.down_room self.old.up_room result self.old.world;
        } }
        ensures none { result ≡ 0 → length self.old.world.up ≡ 0 }
    {
        let (front, _) = self.up.as_slices();
        let count = front.len().min(n);
        if count < 2 {
            return usize::from(self.take_answer());
        }
        self.player.answers_each(&front[..count]);
        let left = self.up.len() - count;
        self.up.truncate_front(left);
        count
    }

    /// The player takes one answer, if there is one.
    fn take_answer(&mut self) -> bool
        ensures taken { result ≡ nat_lt 0 (length self.old.world.up) }
        ensures world { self.new ≡ record self.old {
          world = take_answers side self.old.down_room self.old.up_room 1 self.old.world;
        } }
    {
        match self.up.pop_front() {
            Some(answer) => {
                self.player.answers(&[answer]);
                true
            }
            None => false,
        }
    }

    /// The player takes up to n answers.
    fn take(&mut self, n: usize) -> usize
        ensures moved { result ≡ length self.old.world.up - length self.new.world.up }
        ensures world { self.new ≡ record self.old {
          world = take_answers side self.old.down_room self.old.up_room n self.old.world;
        } }
    {
        let mut count = 0;
        while count < n {
            let more = self.take_piece(n - count);
            if more == 0 {
                return count;
            }
            count += more;
        }
        count
    }

    /// The board takes up to n bytes.
    fn serve(&mut self, n: usize) -> usize
        ensures moved { result ≡ length self.old.world.down - length self.new.world.down }
        ensures world { self.new ≡ record self.old {
          world = served self.old.up_room n self.old.world.down self.old.world;
        } }
    {
        let mut count = 0;
        while count < n {
            let more = self.serve_piece(n - count);
            if more == 0 {
                return count;
            }
            count += more;
        }
        count
    }

    /// The board takes some bytes, n at most; none only where it takes none. Those at the front are taken together,
    /// where some are there and the answers to all of them would have room.
    fn serve_piece(&mut self, n: usize) -> usize
        requires { 0 < n }
        ensures moved { result ≡ length self.old.world.down - length self.new.world.down }
        ensures within { result ≤ n }
        ensures world { self.new ≡ record self.old {
          world = served self.old.up_room result self.old.world.down self.old.world;
        } }
        ensures none { result ≡ 0 → (m : ℕ) → served self.old.up_room m self.old.world.down self.old.world
            ≡ self.old.world }
    {
        let room = self.up.capacity() - self.up.len();
        let (front, _) = self.down.as_slices();
        let most = front.len().min(n).min(room).min(MOST_TOGETHER);
        if self.quit || most < FEWEST_TOGETHER {
            return usize::from(self.serve_byte());
        }
        let taken = serve_front(&mut self.board, &front[..most], &mut self.up);
        self.quit = is_quit(taken.stop);
        let left = self.down.len() - taken.bytes;
        self.down.truncate_front(left);
        taken.bytes
    }

    /// The player puts up to n bytes into the down pipe.
    fn put(&mut self, n: usize) -> usize
        ensures moved { result ≡ length self.new.world.down - length self.old.world.down }
        ensures world { self.new ≡ record self.old {
          world = put_bytes side self.old.down_room self.old.up_room n self.old.world;
        } }
    {
        let mut count = 0;
        while count < n {
            let more = self.put_piece(n - count);
            if more == 0 {
                return count;
            }
            count += more;
        }
        count
    }

    /// Whether the up pipe has room for the answer to a byte, where it asks for one.
    fn has_room(&self, byte: u8) -> bool
        ensures { result ≡ has_room self.now.up_room self.now.world (decode byte) }
    {
        match decode(byte) {
            Some(Message::Ask) => self.up.len() < self.up.capacity(),
            _ => true,
        }
    }

    /// Lets the board take one byte, unless it is an `R` whose answer has no room. Answers whether it took one.
    fn serve_byte(&mut self) -> bool
        ensures taken { result ≡ is_some (one_byte_served self.old.up_room self.old.world) }
        ensures world { self.new ≡ record self.old {
          world = unwrap_or (one_byte_served self.old.up_room self.old.world) self.old.world;
        } }
    {
        let Some(byte) = self.down.front() else {
            return false;
        };
        let byte = *byte;
        if self.quit || !self.has_room(byte) {
            return false;
        }
        self.down.pop_front();
        match self.board.byte(byte) {
            Reply::Answer(answer) => {
                self.up.push_back(answer);
            }
            Reply::Quit => self.quit = true,
            Reply::Nothing | Reply::Refused(_) => {}
        }
        true
    }

    /// What an event does. Answers whether it moved something.
    fn happen(&mut self, event: Event) -> bool
        ensures moved { result
            ≡ nat_lt 0 (bytes_moved side self.old.down_room self.old.up_room (event_of event) self.old.world) }
        ensures world { self.new ≡ record self.old {
          world = happens side self.old.down_room self.old.up_room (event_of event) self.old.world;
        } }
    {
        if self.quit || self.lost {
            return false;
        }
        match event {
            Event::Put(n) => self.put(n) > 0,
            Event::Serve(n) => self.serve(n) > 0,
            Event::Take(n) => self.take(n) > 0,
            Event::Lose => {
                self.lost = true;
                false
            }
        }
    }

    /// A whole schedule. Answers how many of its events moved something.
    pub fn run(&mut self, events: &[Event]) -> u64
        ensures moved { result
            ≡ moving side self.old.down_room self.old.up_room (map event_of events.now) self.old.world }
        ensures world { self.new ≡ record self.old {
          world = run side self.old.down_room self.old.up_room (map event_of events.now) self.old.world;
        } }
    {
        let mut moved = 0;
        for event in events {
            if self.happen(*event) {
                moved += 1;
            }
        }
        moved
    }

    /// Whether the play has ended or was lost.
    pub fn is_over(&self) -> bool
        ensures { result ≡ is_over self.now.world }
    {
        self.quit || self.lost
    }

    /// Whether the play was lost.
    pub fn is_lost(&self) -> bool
        ensures { result ≡ self.now.world.lost }
    {
        self.lost
    }

    /// How the play ended, if it did.
    pub fn ended(&self) -> Option<Ending>
        ensures { result ≡ ended_of self.now.world }
    {
        if self.lost {
            let command = self.player.working();
            return Some(Ending::Lost { command });
        }
        if self.quit { self.player.ended() } else { None }
    }

    /// The wanted bits that did not come out so far, as the player has them.
    pub fn failures(&self) -> &Failures
        ensures { found result.now ≡ self.now.world.player.found }
    {
        self.player.failures()
    }

    /// The board.
    pub fn board(&self) -> &Board
        ensures { result.now ≡ self.now.world.board }
    {
        &self.board
    }

    /// The board, given up.
    pub fn into_board(self) -> Board
        ensures { result ≡ self.world.board }
    {
        let Pipes { board, .. } = self;
        board
    }
}

/// Lets the board take these bytes, up to and with a `Q` or one that it refuses. Their answers go into a pipe.
fn serve_front(board: &mut Board, bytes: &[u8], up: &mut HeapCircularBuffer<u8>) -> Taken
    requires few { length bytes.now ≤ 512 }
    requires room { length bytes.now + length up.old.items ≤ up.old.capacity }
    ensures board { board.new ≡ (serve_bytes bytes.now board.old).board }
    ensures up { up.new ≡ buffer (up.old.items ++ (serve_bytes bytes.now board.old).answers) up.old.capacity }
    ensures stop { result.stop ≡ (serve_bytes bytes.now board.old).stop }
    ensures bytes { result.bytes ≡ length bytes.now - length (left_behind bytes.now board.old) }
{
    let mut answers = [0; MOST_TOGETHER];
    let taken = take_bytes(board, bytes, &mut answers[..bytes.len()]);
    up.fill_from_slice(&answers[..taken.answers]);
    taken
}

/// Whether the board stopped at a `Q`.
fn is_quit(stop: Option<Served>) -> bool
    ensures { result ≡ is_quit stop }
{
    matches!(stop, Some(Served::Quit))
}
