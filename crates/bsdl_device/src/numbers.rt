//! The numbers of the bits of one name, by their indices.
ghost use Rattle.std.specs.Prelude.{◌≡◌, ℕ, Option, None, Some, OnOk};
ghost use Rattle.std.specs.Option.{option_or};
ghost use Rattle.std.specs.BTreeMap.{get};
ghost use Rattle.std.specs.Ordering.{nat_cmp};
ghost use Rattle.bsdl_device.specs.Found.{number_at, number_if};

use std::alloc::{AllocError, Global};
use std::collections::BTreeMap;

/// The first number for each index, and for no index.
#[derive(Debug, Drop)]
pub(crate) struct Numbers {
    whole: Option<usize>,
    by_index: BTreeMap<usize, usize>,
}

impl Numbers {
    pub(crate) fn new(alloc: Global) -> Numbers
        ensures { (i : Option ℕ) → number_at result i ≡ None }
    {
        Numbers {
            whole: None,
            by_index: BTreeMap::new(alloc),
        }
    }

    pub(crate) fn get(&self, index: Option<usize>) -> Option<usize>
        ensures { result ≡ number_at self.now index }
    {
        match index {
            None => self.whole,
            Some(index) => self.by_index.get(&index).copied(),
        }
    }

    /// Adds a number for an index, where there is none yet.
    pub(crate) fn add(&mut self, index: Option<usize>, number: usize) -> Result<(), AllocError>
        ensures { OnOk result ((i : Option ℕ)
            → number_at self.new i ≡ option_or (number_at self.old i) (number_if i index number)) }
    {
        match index {
            None => self.add_whole(number),
            Some(index) => add_indexed(&mut self.by_index, index, number)?,
        }
        Ok(())
    }

    fn add_whole(&mut self, number: usize)
        ensures { (i : Option ℕ)
            → number_at self.new i ≡ option_or (number_at self.old i) (number_if i None number) }
    {
        if self.whole.is_none() {
            self.whole = Some(number);
        }
    }
}

fn add_indexed(
    by_index: &mut BTreeMap<usize, usize>,
    index: usize,
    number: usize,
) -> Result<(), AllocError>
    ensures { OnOk result ((i : ℕ) → get nat_cmp by_index.new i
        ≡ option_or (get nat_cmp by_index.old i) (number_if (Some i) (Some index) number)) }
{
    if !by_index.contains_key(&index) {
        by_index.insert(index, number)?;
    }
    Ok(())
}
