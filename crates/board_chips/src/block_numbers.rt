//! A number for each 64 cells of each device of a chain.

use crate::chip::WiredChip;
use crate::driving::DrivingPin;
use std::alloc::{AllocError, Global};

/// A number for each 64 cells of each device. They tell how pins are best put together, on which nothing else hangs: no
/// clause speaks of them.
#[derive(Drop)]
pub(crate) struct BlockNumbers {
    /// Of each device the place of the number of its first 64 cells.
    starts: Vec<usize>,
    numbers: Vec<usize>,
}

impl BlockNumbers {
    /// 0 for each 64 cells of these devices; of a board that has none of these pins there are no numbers. Refuses for
    /// want of memory alone.
    pub(crate) fn zeros(
        alloc: Global,
        chips: &[WiredChip],
        pins: &[DrivingPin],
    ) -> Result<BlockNumbers, AllocError> {
        let mut starts = Vec::new(alloc);
        let mut end: usize = 0;
        let numbered = if pins.is_empty() { &chips[..0] } else { chips };
        for chip in numbered {
            starts.push(end)?;
            end = end.saturating_add(chip.device().cells().len() / 64 + 1);
        }
        Ok(BlockNumbers {
            starts,
            numbers: Vec::from_elem(alloc, 0, end)?,
        })
    }

    /// The number of those that a pin's cell is one of; 0 where they are none of these.
    pub(crate) fn number(&self, it: DrivingPin) -> usize {
        match self.numbers.get(self.place(it)) {
            Some(number) => *number,
            None => 0,
        }
    }

    /// Those that a pin's cell is one of have this number from now on.
    pub(crate) fn put(&mut self, it: DrivingPin, number: usize) {
        let place = self.place(it);
        if let Some(old) = self.numbers.get_mut(place) {
            *old = number;
        }
    }

    /// Where the number of those stands.
    fn place(&self, it: DrivingPin) -> usize {
        match self.starts.get(it.device) {
            Some(start) => start.saturating_add(it.cell / 64),
            None => usize::MAX,
        }
    }
}
