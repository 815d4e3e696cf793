//! Random digits, of which fields are pieces: so that a text is made in little time.

use crate::numbers::Numbers;
use crate::texts::hex_of;
use std::alloc::{AllocError, Global};

/// How many words there are, of sixteen digits each.
const WORDS: usize = 8192;

/// The places where a piece may begin, which leave the longest field behind them.
const STARTS: u64 = 100_000;

/// Digits that a sequence of numbers makes.
#[derive(Drop)]
pub struct Pool {
    digits: Vec<u8>,
}

impl Pool {
    pub fn of(alloc: Global, numbers: &mut Numbers) -> Result<Self, AllocError> {
        let mut digits = Vec::with_capacity(alloc, 16 * WORDS)?;
        for _ in 0..WORDS {
            digits.extend_from_slice(&hex_of(numbers.draw()))?;
        }
        Ok(Pool { digits })
    }

    /// A place that the numbers choose.
    pub fn place(&self, numbers: &mut Numbers) -> usize {
        numbers.below(STARTS)
    }

    /// So many digits from a place on.
    pub fn piece(&self, place: usize, count: usize) -> &[u8] {
        let len = self.digits.len();
        let from = place.min(len);
        &self.digits[from..from + count.min(len - from)]
    }
}
