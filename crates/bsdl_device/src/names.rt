//! Names of instructions.
ghost use Rattle.std.specs.Prelude.{◌≡◌, ◌++◌, ◌∷◌, [], string_bytes, bytes_eq, IfOk};
ghost use Rattle.std.specs.List.{list_any};

use std::alloc::{AllocError, Global};
use std::collections::BTreeSet;
use std::marker::Model;

/// Names in the order in which they are given. One text holds them all, as there may be as many as a description has
/// bytes; a sorted set tells which they are.
#[derive(Debug, Drop)]
pub struct Names {
    text: String,
    lens: Vec<usize>,
    known: BTreeSet<String>,
}

impl Model for Names {
    ghost use Rattle.std.specs.Prelude.{List, string_bytes};
    ghost use Rattle.bsdl_device.specs.Device as described;
    ghost use Rattle.bsdl_device.specs.Names as names;

    ghost Value = { List described.Name };

    ghost view = { λ n. names.cut (string_bytes n.text) n.lens.items };

    ghost invariant = { λ n. names.AreCut (string_bytes n.text) n.lens.items n.known };
}

impl Names {
    /// No names yet.
    pub fn new(alloc: Global) -> Names
        ensures { result ≡ [] }
    {
        Names {
            text: String::new(alloc),
            lens: Vec::new(alloc),
            known: BTreeSet::new(alloc),
        }
    }

    /// These names and another behind them. Refuses for want of memory alone.
    /// No `alloc` is handed in: the lists grow by the one that [`Names::new`] was given.
    pub fn with(mut self, name: String) -> Result<Names, AllocError>
        ensures { IfOk result (λ n. n ≡ self ++ string_bytes name ∷ []) }
    {
        self.text.push_str(name.as_str())?;
        self.lens.push(name.len())?;
        self.known.insert(name)?;
        Ok(self)
    }

    pub(crate) fn contains(&self, name: &str) -> bool
        ensures { result ≡ list_any (bytes_eq name.now) self.now }
    {
        self.known.contains(name)
    }
}
