//! The user registers of a device.

ghost use Rattle.std.specs.Prelude.{◌≡◌, ◌+◌, ◌<◌, ◌≤◌, ℕ, Bool, List, Some, length, option_map, slice_get, unwrap_or};
ghost use Rattle.std.specs.Prelude.{◌++◌, drop, IfOk, map, take};
ghost use Rattle.jt_bits.specs.Packed.{has_bit};
ghost use Rattle.jt_bits.specs.Runs.{RunSet};
ghost use Rattle.jt_bits.specs.Words.{bit_of, word_bits};
ghost use Rattle.jt_bits.specs.Shifting.{after_shift};
ghost use Rattle.chip_registers.specs.Registers.{new_user, user_stage, user_latch, with_user_stage, user_updated};
ghost use Rattle.chip_registers.specs.Users.{HasUser};

use jt_bits::Bits;
use std::alloc::{AllocError, Global};

/// A user register: its stage, and what it holds.
#[derive(Drop)]
pub struct UserRegister {
    /// The bits between TDI and TDO, bit 0 nearest TDO.
    pub stage: Bits,
    /// What it holds since its last update, bit 0 nearest TDO.
    pub latch: Bits,
}

impl UserRegister {
    /// The stage takes what the register holds, or bits that it is fixed to.
    fn capture(&mut self, fixed: Option<&Bits>)
        requires held { length self.old.stage ≡ length self.old.latch }
        requires fixed { (b : List Bool) → option_map {U = List Bool} (λ x. x.now) fixed ≡ Some b
            → length b ≡ length self.old.stage }
        ensures { self.new ≡ record self.old {
          stage = unwrap_or (option_map {U = List Bool} (λ x. x.now) fixed.entry)
              self.old.latch;
        } }
    {
        match fixed {
            Some(bits) => self.stage.copy_from(bits),
            None => self.stage.copy_from(&self.latch),
        }
    }
}

/// User registers of these lengths in bits, all bits 0. Its only refusal is want of memory.
pub(crate) fn new_users(alloc: Global, lengths: &[usize]) -> Result<Vec<UserRegister>, AllocError>
    ensures { IfOk result (λ u. u.items ≡ map new_user lengths.now) }
{
    let mut users = Vec::with_capacity(alloc, lengths.len())?;
    for n in lengths {
        users.push(UserRegister {
            stage: Bits::zeros(alloc, *n)?,
            latch: Bits::zeros(alloc, *n)?,
        })?;
    }
    Ok(users)
}

/// User register `k` captures what it holds, or the bits that it is fixed to (clause 9).
pub(crate) fn capture(users: &mut [UserRegister], k: usize, fixed: Option<&Bits>)
    requires fit { HasUser users.old k }
    requires fixed { (b : List Bool) → option_map {U = List Bool} (λ x. x.now) fixed ≡ Some b
        → length b ≡ length (user_stage k users.old) }
    ensures { users.new ≡ with_user_stage k
        (unwrap_or (option_map {U = List Bool} (λ x. x.now) fixed.entry) (user_latch k users.old)) users.old }
{
    let user = &mut users[k];
    user.capture(fixed);
}

/// User register `k` moves one place towards TDO, and takes this bit at the far end (clause 9).
pub(crate) fn shift(users: &mut [UserRegister], k: usize, tdi: bool)
    requires { HasUser users.old k }
    ensures { users.new ≡ with_user_stage k (after_shift (user_stage k users.old) tdi) users.old }
{
    let user = &mut users[k];
    user.stage.shift_in(tdi);
}

/// User register `k` moves `n` places towards TDO, and takes the lowest bits of a word, the lowest first; answers those
/// that left, the first of them the lowest (clause 9).
pub(crate) fn shift_word(users: &mut [UserRegister], k: usize, bits: u64, n: usize) -> u64
    requires fit { HasUser users.old k }
    requires few { n ≤ 64 }
    ensures out { word_bits result n ≡ take n (user_stage k users.old ++ word_bits bits n) }
    ensures users { users.new ≡ with_user_stage k (drop n (user_stage k users.old ++ word_bits bits n)) users.old }
{
    let user = &mut users[k];
    user.stage.shift_word(bits, n)
}

/// User register `k` holds its stage from now on (clause 9).
pub(crate) fn update(users: &mut [UserRegister], k: usize)
    requires { HasUser users.old k }
    ensures { users.new ≡ user_updated k users.old }
{
    let user = &mut users[k];
    user.latch.copy_from(&user.stage);
}

/// Bit 0 of user register `k`, the one nearest TDO.
pub(crate) fn first_bit(users: &[UserRegister], k: usize) -> bool
    requires { HasUser users.now k }
    ensures { slice_get (user_stage k users.now) 0 ≡ Some result }
{
    let user = &users[k];
    user.stage.get(0)
}

/// How many bits user register `k` has.
pub(crate) fn len(users: &[UserRegister], k: usize) -> usize
    requires { HasUser users.now k }
    ensures { result ≡ length (user_stage k users.now) }
{
    let user = &users[k];
    user.stage.len()
}

/// The bits of user register `k` from place `i` on as a number, 64 of them; missing ones are 0.
pub(crate) fn word_at(users: &[UserRegister], k: usize, i: usize) -> u64
    requires { HasUser users.now k }
    ensures { (j : ℕ) → j < 64 → has_bit result j ≡ bit_of (user_stage k users.now) (i + j) }
{
    let user = &users[k];
    user.stage.word_at(i)
}

/// Makes the `n` bits of user register `k` from `at` on those of `bits`, its lowest first.
pub(crate) fn put_run(users: &mut [UserRegister], k: usize, at: usize, bits: u64, n: usize)
    requires fit { HasUser users.old k }
    requires some { 0 < n }
    requires few { n ≤ 64 }
    requires inside { at + n ≤ length (user_stage k users.old) }
    ensures run { RunSet (user_stage k users.old) (user_stage k users.new) at bits n }
    ensures users { users.new ≡ with_user_stage k (user_stage k users.new) users.old }
{
    let user = &mut users[k];
    user.stage.put_run(at, bits, n);
}
