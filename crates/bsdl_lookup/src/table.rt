//! The cells of a boundary register by their numbers.
ghost use Rattle.std.specs.Prelude.{◌≡◌, ◌==◌, ℕ, nat_lt, if◌then◌else◌, OnOk, OnErr, None};
ghost use Rattle.std.specs.BTreeMap.{get};
ghost use Rattle.std.specs.Ordering.{nat_cmp};
ghost use Rattle.bsdl_lookup.specs.Table as spec;

use std::alloc::{AllocError, Global};
use std::collections::BTreeMap;

/// Of each listed number whether it has one row, which fits.
#[derive(Debug, Drop)]
pub struct Table {
    pub cells: BTreeMap<usize, bool>,
}

impl Table {
    /// No rows yet.
    pub fn new(alloc: Global) -> Table
        ensures { (n : ℕ) → get nat_cmp result.cells n ≡ None }
    {
        Table {
            cells: BTreeMap::new(alloc),
        }
    }

    /// A row of this number more. Refuses for want of memory alone.
    /// No `alloc` is handed in: the tree grows by the one that [`Table::new`] was given.
    pub fn put(&mut self, number: usize, fits: bool) -> Result<(), AllocError>
        ensures put { OnOk result ((n : ℕ) → get nat_cmp self.new.cells n
            ≡ (if number == n then spec.with_row (get nat_cmp self.old.cells n) fits
            else get nat_cmp self.old.cells n)) }
        ensures err { OnErr result ((n : ℕ) → get nat_cmp self.new.cells n ≡ get nat_cmp self.old.cells n) }
    {
        let alone = self.cells.get(&number).is_none();
        self.cells.insert(number, alone && fits)?;
        Ok(())
    }

    /// Whether a cell is fit: below the length it has one row, which fits; from the length on it has none.
    pub fn is_fit(&self, number: usize, length: usize) -> bool
        ensures { result ≡ spec.is_fit (nat_lt number length) (get nat_cmp self.now.cells number) }
    {
        match self.cells.get(&number) {
            Some(fits) => number < length && *fits,
            None => length <= number,
        }
    }
}
