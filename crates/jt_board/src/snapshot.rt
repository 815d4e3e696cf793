//! What a board shows between two bytes.

ghost use Rattle.std.specs.Prelude.{◌≡◌, ◌<◌, ◌≤◌, [], ◌∷◌, ℕ, Bool, List, Some, length, option_map, slice_get};
ghost use Rattle.jt_limits.specs.Limits.{limits};
ghost use Rattle.chip_instructions.specs.Instruction.{instruction};
ghost use Rattle.board_chain.specs.Chain.{members};
ghost use Rattle.board_chain.specs.Sound.{IsChain};
ghost use Rattle.jt_board.specs.Shown.{id_of, shown_net, user_of};

use board_chain::Chain;
use jt_bits::Bits;
use jt_tap::State;
use pin_nets::Level;
use std::marker::Model;

/// The levels of a board between two bytes and, of each device, counted from the one nearest TDO, its controller and
/// its registers. Contracts see it as the board's own state.
#[derive(Drop)]
pub struct Snapshot<'a> {
    tck: bool,
    chain: &'a Chain,
}

impl<'a> Model for Snapshot<'a> {
    ghost use Rattle.board_chain.specs.Chain.{BoardState};

    ghost Value = { BoardState };

    ghost use Rattle.board_chain.specs.Sound.{IsChain};

    ghost view = { λ s. record {
      tck = s.tck;
      trst = s.chain.now.trst;
      nets = s.chain.now.nets;
      chips = s.chain.now.chips;
    } };

    ghost invariant = { λ s. IsChain s.chain.now.chips };
}

impl<'a> Snapshot<'a> {
    /// What a chain shows at this level of TCK.
    pub(crate) fn new(tck: bool, chain: &'a Chain) -> Snapshot<'a>
        requires { IsChain chain.now.chips }
        ensures { result ≡ record { tck = tck; trst = chain.now.trst; nets = chain.now.nets; chips = chain.now.chips } }
    {
        Snapshot { tck, chain }
    }

    /// The level of TCK.
    pub fn tck(&self) -> bool
        ensures { result ≡ self.now.tck }
    {
        self.tck
    }

    /// Whether TRST is asserted.
    pub fn trst(&self) -> bool
        ensures { result ≡ self.now.trst }
    {
        self.chain.trst()
    }

    /// How many devices the chain has: 1 to 256.
    pub fn devices(&self) -> usize
        ensures count { result ≡ length self.now.chips }
        ensures some { 0 < result }
        ensures most { result ≤ limits.devices }
    {
        self.chain.devices()
    }

    /// The name of device `i` on the board.
    pub fn name(&self, i: usize) -> &'a str
        requires { i < length self.now.chips }
        ensures { option_map (λ c. c.member.name) (slice_get self.now.chips i) ≡ Some result.now }
    {
        self.chain.chip(i).name()
    }

    /// The state of its controller.
    pub fn state(&self, i: usize) -> State
        requires { i < length self.now.chips }
        ensures { option_map (λ c. c.state) (slice_get self.now.chips i) ≡ Some result }
    {
        self.chain.chip(i).state()
    }

    /// Its present instruction: what the instruction stage held at the last update, or the instruction of a reset. Bit
    /// 0 is the one nearest TDO.
    pub fn latch(&self, i: usize) -> &'a Bits
        requires { i < length self.now.chips }
        ensures { option_map (λ c. c.member.registers.latch) (slice_get self.now.chips i) ≡ Some result.now }
    {
        self.chain.chip(i).latch()
    }

    /// Its instruction stage, the shift register in the IR column, bit 0 nearest TDO.
    pub fn stage(&self, i: usize) -> &'a Bits
        requires { i < length self.now.chips }
        ensures { option_map (λ c. c.member.registers.stage) (slice_get self.now.chips i) ≡ Some result.now }
    {
        self.chain.chip(i).stage()
    }

    /// The shift stage of its boundary register, bit 0 that of cell 0, nearest TDO.
    pub fn boundary(&self, i: usize) -> &'a Bits
        requires { i < length self.now.chips }
        ensures { option_map (λ c. c.member.registers.boundary) (slice_get self.now.chips i) ≡ Some result.now }
    {
        self.chain.chip(i).boundary()
    }

    /// The update stage of its boundary register, bit 0 that of cell 0, nearest TDO.
    pub fn boundary_update(&self, i: usize) -> &'a Bits
        requires { i < length self.now.chips }
        ensures { option_map (λ c. c.member.registers.update) (slice_get self.now.chips i) ≡ Some result.now }
    {
        self.chain.chip(i).boundary_update()
    }

    /// The one bit of its bypass register.
    pub fn bypass(&self, i: usize) -> bool
        requires { i < length self.now.chips }
        ensures { option_map (λ c. c.member.registers.bypass) (slice_get self.now.chips i) ≡ Some (result ∷ []) }
    {
        self.chain.chip(i).bypass()
    }

    /// The name of the instruction in its latch; `None` where the description has no name for it.
    pub fn instruction(&self, i: usize) -> Option<&'a str>
        requires { i < length self.now.chips }
        ensures { option_map (λ c. instruction c.member.device c.member.registers.latch) (slice_get self.now.chips i)
            ≡ Some (option_map {U = List ℕ} (λ s. s.now) result) }
    {
        self.chain.chip(i).instruction()
    }

    /// Its identification register, bit 0 nearest TDO; `None` where its description has no code.
    pub fn id(&self, i: usize) -> Option<&'a Bits>
        requires { i < length self.now.chips }
        ensures { option_map (λ c. id_of c.member) (slice_get self.now.chips i)
            ≡ Some (option_map {U = List Bool} (λ b. b.now) result) }
    {
        self.chain.chip(i).id()
    }

    /// The stage and the latch of its user register `k`, bit 0 nearest TDO, counted in the order in which its
    /// description first names them; `None` past the last.
    pub fn user(&self, i: usize, k: usize) -> Option<(&'a Bits, &'a Bits)>
        requires { i < length self.now.chips }
        ensures { option_map (λ c. user_of c.member k) (slice_get self.now.chips i)
            ≡ Some (option_map {U = List Bool × List Bool} (λ p. (p.0.now, p.1.now)) result) }
    {
        self.chain.chip(i).user(k)
    }

    /// How many nets have a name.
    pub fn nets(&self) -> usize
        ensures { result ≡ length self.now.nets }
    {
        self.chain.nets()
    }

    /// The name of net `k`, and its level.
    pub fn net(&self, k: usize) -> (&'a str, Level)
        requires { k < length self.now.nets }
        ensures { option_map (shown_net self.now.nets (members self.now.chips)) (slice_get self.now.nets k)
            ≡ Some (result.0.now, result.1) }
    {
        (self.chain.net_name(k), self.chain.level(k))
    }
}
