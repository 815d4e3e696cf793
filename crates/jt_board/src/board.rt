//! The board: a chain of devices with its nets, one byte at a time.

ghost use Rattle.std.specs.Prelude.{◌≡◌, ◌<◌, ◌≤◌, ◌⊎◌, ℕ, List, Some, length, option_map, slice_get, IfOk};
ghost use Rattle.std.specs.Prelude.{IfSome, MatchResult};
ghost use Rattle.bitbang_protocol.specs.Protocol.{decode};
ghost use Rattle.bitbang_protocol.specs.declared.Message.TheVariants.{Write};
ghost use Rattle.jt_limits.specs.Limits.{limits};
ghost use Rattle.board_plan.specs.LeftOut as spec;
ghost use Rattle.board_plan.specs.View.{wiring};
ghost use Rattle.board_tables.specs.declared.fault.BoardFault.TheVariants as fault;
ghost use Rattle.board_model.specs.Bare.{bare_board};
ghost use Rattle.board_model.specs.Chain as chain;
ghost use Rattle.board_model.specs.Sound.{IsSoundBoard};
ghost use Rattle.jt_board.specs.Made.{PowersUp, board_at, board_of};

mod at_rest;
mod idle;
mod shifting;

use crate::bare::bare_plan;
use crate::snapshot::Snapshot;
use bitbang_protocol::Message;
use board_chain::Chain;
use board_model::Reply;
use board_plan::Plan;
use bsdl::BsdlFault;
use jt_limits::LIMITS;
use std::alloc::{AllocError, Global};
use std::marker::Model;

/// Why a board was not made: C1 to C9. Of these a board of bare devices has C7 and C8 alone.
pub type BoardFault = board_file::BoardFault<BsdlFault>;

/// The most devices of a board.
const MOST_DEVICES: usize = LIMITS.devices;

/// A chain of simulated devices on one TAP, the first nearest the board's TDO, with the nets between their pins.
///
/// Contracts see it as the state between two bytes: the levels of TCK and TRST, the nets, and of each device the
/// controller, the registers and TDO.
#[derive(Drop)]
pub struct Board {
    tck: bool,
    chain: Chain,
}

impl Model for Board {
    ghost use Rattle.board_model.specs.Chain.{BoardState};
    ghost use Rattle.board_model.specs.Sound.{IsChain};

    ghost Value = { BoardState };

    ghost view = { λ b. record { tck = b.tck; trst = b.chain.trst; nets = b.chain.nets; chips = b.chain.chips } };

    ghost invariant = { λ b. IsChain b.chain.chips };
}

impl Board {
    /// A board of `n` bare devices, `U1` nearest TDO, as they power up: two instruction bits, BYPASS and EXTEST, one
    /// boundary cell without a pin.
    ///
    /// `n` outside 1 to 256 is C7, want of memory C8. No other call on a board takes memory.
    pub fn bare(alloc: Global, n: usize) -> Result<Board, BoardFault>
        ensures made { 0 < n → n ≤ limits.devices
            → MatchResult result (λ b. b ≡ bare_board n) (λ f. f ≡ fault.NoMemory) }
        ensures too_large { (n ≡ 0) ⊎ (limits.devices < n) → result ≡ Err fault.TooLarge }
    {
        if n == 0 || n > MOST_DEVICES {
            return Err(BoardFault::TooLarge);
        }
        Ok(bare_devices(alloc, n)?)
    }

    /// The board of a plan as it powers up; as many as are wanted are powered up from one plan. Refuses for want of
    /// memory alone.
    ///
    /// Asks that the plan is ready, as those are that `plan_of_table` and `bare_plan` make.
    pub fn powered_up(alloc: Global, plan: &Plan) -> Result<Board, AllocError>
        requires { PowersUp plan.now }
        ensures { IfOk result (λ b. b ≡ board_of (wiring plan.now)) }
    {
        Ok(Board {
            tck: false,
            chain: Chain::new(alloc, plan)?,
        })
    }

    /// How many devices the chain has: 1 to 256.
    pub fn devices(&self) -> usize
        ensures count { result ≡ length self.now.chips }
        ensures some { 0 < result }
        ensures most { result ≤ limits.devices }
        ensures sound { IsSoundBoard self.now }
    {
        self.chain.devices()
    }

    /// The k-th instruction of device `i` that has an opcode but no meaning of its own here, and so stands for BYPASS,
    /// in the order of the opcode rows; `None` past the last.
    pub fn left_out(&self, i: usize, k: usize) -> Option<&str>
        requires { i < length self.now.chips }
        ensures { option_map (λ c. slice_get (spec.left_out c.member.device) k) (slice_get self.now.chips i)
            ≡ Some (option_map {U = List ℕ} (λ s. s.now) result) }
    {
        board_plan::left_out(self.chain.chip(i).device(), k)
    }

    /// What every part of the board shows now.
    pub fn snapshot(&self) -> Snapshot<'_>
        ensures { result ≡ self.now }
    {
        Snapshot::new(self.tck, &self.chain)
    }

    /// The chain of the board's devices, with the nets between their pins.
    pub fn chain(&self) -> &Chain
        ensures chips { result.now.chips ≡ self.now.chips }
        ensures nets { result.now.nets ≡ self.now.nets }
    {
        &self.chain
    }

    /// Takes one byte from the player: written levels of TCK, TMS and TDI, of which a change of TCK is an edge for all
    /// devices at once; the question for TDO; the end; a light; or the reset lines.
    ///
    /// A byte outside the protocol is refused and changes nothing. No memory is taken.
    pub fn byte(&mut self, byte: u8) -> Reply
        ensures reply { result ≡ chain.reply byte self.old }
        ensures board { self.new ≡ chain.after_byte byte self.old }
    {
        // Most bytes write levels, so these are known before any other message is asked for.
        match levels_of(byte) {
            Some(levels) => {
                self.take_levels(levels);
                Reply::Nothing
            }
            None => self.spelled(byte),
        }
    }

    /// Takes one byte by the message that it spells.
    fn spelled(&mut self, byte: u8) -> Reply
        ensures reply { result ≡ chain.reply byte self.old }
        ensures board { self.new ≡ chain.after_byte byte self.old }
    {
        match bitbang_protocol::decode(byte) {
            None => Reply::Refused(byte),
            Some(message) => {
                let reply = self.reply(message);
                self.hear(message);
                reply
            }
        }
    }

    /// The reply to a message, before the message does anything.
    fn reply(&self, message: Message) -> Reply
        ensures { result ≡ chain.reply_of message self.now }
    {
        match message {
            Message::Ask => Reply::Answer(bitbang_protocol::answer(self.chain.tdo())),
            Message::Quit => Reply::Quit,
            _ => Reply::Nothing,
        }
    }

    /// What a message does to the board.
    fn hear(&mut self, message: Message)
        ensures { self.new ≡ chain.after_message message self.old }
    {
        match message {
            Message::Write { tck, tms, tdi } => self.take_levels(Levels { tck, tms, tdi }),
            Message::Lines { trst, srst: _ } => self.chain.tell_trst(trst),
            _ => {}
        }
    }

    /// What written levels do to the board.
    fn take_levels(&mut self, levels: Levels)
        ensures { self.new ≡ chain.after_message (Write levels.tck levels.tms levels.tdi) self.old }
    {
        let Levels { tck, tms, tdi } = levels;
        write(&mut self.chain, self.tck, tck, tms, tdi);
        self.tck = tck;
    }
}

/// Written levels of the three lines.
#[derive(Drop, Clone, Copy)]
struct Levels {
    tck: bool,
    tms: bool,
    tdi: bool,
}

/// The levels that a byte writes. Answered with none in vain it costs time alone, so the clause goes one way.
fn levels_of(byte: u8) -> Option<Levels>
    ensures { IfSome result (λ levels. decode byte ≡ Some (Write levels.tck levels.tms levels.tdi)) }
{
    match byte {
        b'0' => some_levels(false, false, false),
        b'1' => some_levels(false, false, true),
        b'2' => some_levels(false, true, false),
        b'3' => some_levels(false, true, true),
        b'4' => some_levels(true, false, false),
        b'5' => some_levels(true, false, true),
        b'6' => some_levels(true, true, false),
        b'7' => some_levels(true, true, true),
        _ => None,
    }
}

fn some_levels(tck: bool, tms: bool, tdi: bool) -> Option<Levels>
    ensures { result ≡ Some (record { tck = tck; tms = tms; tdi = tdi }) }
{
    Some(Levels { tck, tms, tdi })
}

/// Written levels of TCK, TMS and TDI: a change of TCK is an edge.
fn write(devices: &mut Chain, was: bool, tck: bool, tms: bool, tdi: bool)
    ensures { devices.new ≡ record devices.old {
      chips = chain.after_levels was tck tms tdi
          (board_at was devices.old);
    } }
{
    match (was, tck) {
        (false, true) => devices.rise(tms, tdi),
        (true, false) => devices.fall(),
        _ => {}
    }
}

/// A board of so many bare devices.
fn bare_devices(alloc: Global, n: usize) -> Result<Board, AllocError>
    requires some { 0 < n }
    requires most { n ≤ limits.devices }
    ensures { IfOk result (λ b. b ≡ bare_board n) }
{
    let plan = bare_plan(alloc, n)?;
    Board::powered_up(alloc, &plan)
}
