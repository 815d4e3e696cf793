//! What the cells were told that their ports see, a byte for each of them, so that one is told by a store alone.

ghost use Rattle.std.specs.Prelude.{◌≡◌, ◌+◌, ◌≤◌, ◌<◌, ℕ, false, length, map, replicate, slice_set, IfOk};
ghost use Rattle.jt_bits.specs.Packed.{has_bit};
ghost use Rattle.jt_bits.specs.Words.{bit_of};
ghost use Rattle.boundary.specs.Told.{is_one};

use bsdl_device::Cell;
use std::alloc::{AllocError, Global};
use std::marker::Model;
use std::simd::prelude::*;

/// What each cell was last told that its port sees. Contracts see it as the list of these bits.
///
/// Behind the byte of the last cell there are 63 more, each 0, so that 64 can be read from every cell on.
#[derive(Drop)]
pub(crate) struct Sights {
    bytes: Vec<u8>,
    len: usize,
}

impl Model for Sights {
    ghost use Rattle.std.specs.Prelude.{◌≡◌, ◌≤◌, ◌+◌, ℕ, Bool, List, length, map, take, slice_index_or};
    ghost use Rattle.boundary.specs.Told.{is_one};

    ghost Value = { List Bool };

    ghost view = { λ s. take s.len (map is_one s.bytes.items) };

    ghost invariant = { λ s. record {
      long : length s.bytes.items ≡ s.len + 63;
      none : (i : ℕ) → s.len ≤ i → slice_index_or s.bytes.items i 0 ≡ 0;
    } };
}

impl Sights {
    /// Cells that were told nothing yet, which is a 0 each. Refuses for want of memory alone.
    pub(crate) fn none(alloc: Global, cells: &[Cell]) -> Result<Sights, AllocError>
        ensures { IfOk result (λ s. s ≡ replicate (length cells.now) false) }
    {
        let len = cells.len();
        Ok(Sights {
            bytes: Vec::from_elem(alloc, 0, len + 63)?,
            len,
        })
    }

    /// A cell is told this bit.
    pub(crate) fn set(&mut self, cell: usize, bit: bool)
        requires { cell < length self.old }
        ensures { self.new ≡ slice_set self.old cell bit }
    {
        self.bytes[cell] = u8::from(bit);
    }

    /// What 64 cells from `at` on were told, bit `j` being that of number `j` of them; of cells that are not there 0.
    pub(crate) fn word_at(&self, at: usize) -> u64
        requires { at < length self.now }
        ensures { (j : ℕ) → j < 64 → has_bit result j ≡ bit_of self.now (at + j) }
    {
        told_word(&self.bytes, at)
    }
}

/// Which of the 64 bytes from a place on are 1.
fn told_word(bytes: &[u8], at: usize) -> u64
    requires { at + 64 ≤ length bytes.now }
    ensures { (j : ℕ) → j < 64 → has_bit result j ≡ bit_of (map is_one bytes.now) (at + j) }
{
    let cells = u8x64::from_slice(&bytes[at..]);
    cells.simd_eq(u8x64::splat(1)).to_bitmask()
}
