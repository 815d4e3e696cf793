//! Keys in the order in which they came, found by a tree.
ghost use Rattle.std.specs.Prelude.{◌≡◌, [], ◌∷◌, ◌++◌, length, position, bytes_eq, OnOk, OnErr};
ghost use Rattle.std.specs.List.{list_any};
ghost use Rattle.board_tables.specs.FirstPlaces.{with_name};
ghost use Rattle.board_tables.specs.WordView.{texts_of};
ghost use Rattle.std.specs.BTreeMap.{get, is_at, IsUnchanged, Updates};
ghost use Rattle.std.specs.Option.{unwrap_or};

use std::alloc::{AllocError, Global};
use std::collections::BTreeMap;
use std::marker::Model;

/// Keys in the order in which they came. Contracts see it as that list.
///
/// A tree has the first place of each key, so that a look-up takes as many comparisons as a sorted list needs: no
/// choice of names makes it slow.
#[derive(Drop)]
pub struct Places<K: Ord + Copy> {
    keys: Vec<K>,
    first: BTreeMap<K, usize>,
}

impl<K: Ord + Copy> Model for Places<K> {
    ghost use Rattle.std.specs.Prelude.{List};
    ghost use Rattle.board_tables.specs.FirstPlaces.{AreFirst};

    ghost Value = { List K };

    ghost view = { λ p. p.keys.items };

    ghost invariant = { λ p. AreFirst K.cmp p.first p.keys.items };
}

impl<K: Ord + Copy> Places<K> {
    /// No keys yet.
    pub fn new(alloc: Global) -> Places<K>
        ensures { result ≡ [] }
    {
        Places {
            keys: Vec::new(alloc),
            first: BTreeMap::new(alloc),
        }
    }

    /// Adds a key behind the others, also where it is there already. Refuses for want of memory alone.
    /// No `alloc` is handed in: list and tree grow by the one that [`Places::new`] was given.
    pub fn push(&mut self, key: K) -> Result<(), AllocError>
        ensures pushed { OnOk result (self.new ≡ self.old ++ key ∷ []) }
        ensures err { OnErr result (self.new ≡ self.old) }
    {
        let place = self.len();
        self.keys.push(key)?;
        match enter(&mut self.first, key, place) {
            Ok(()) => Ok(()),
            Err(error) => {
                self.keys.pop();
                Err(error)
            }
        }
    }

    /// The place at which a key first came.
    pub fn place(&self, key: K) -> Option<usize>
        ensures { result ≡ position (is_at (K.cmp key)) self.now }
    {
        self.first.get(&key).copied()
    }

    /// How many keys came.
    pub fn len(&self) -> usize
        ensures { result ≡ length self.now }
    {
        self.keys.len()
    }

    /// The keys, in the order in which they came.
    pub fn keys(&self) -> &[K]
        ensures { result.now ≡ self.now }
    {
        &self.keys
    }
}

impl<'t> Places<&'t str> {
    /// The place at which a text first came.
    pub fn place_of(&self, text: &str) -> Option<usize>
        ensures { result ≡ position (bytes_eq text.now) (texts_of self.now) }
    {
        self.first.get(text).copied()
    }

    /// Whether a text is there.
    #[tactic(auto, using(crate::proofs::TextLaws::is_there))]
    pub fn has(&self, text: &str) -> bool
        ensures { result ≡ list_any (bytes_eq text.now) (texts_of self.now) }
    {
        self.place_of(text).is_some()
    }

    /// Adds a text, if it is not there yet. Refuses for want of memory alone.
    /// No `alloc` is handed in: list and tree grow by the one that [`Places::new`] was given.
    #[tactic(auto, using(crate::proofs::TextLaws::list_any_map, crate::proofs::TextLaws::map_with))]
    pub fn add(&mut self, text: &'t str) -> Result<(), AllocError>
        ensures added { OnOk result (texts_of self.new ≡ with_name (texts_of self.old) text.now) }
        ensures err { OnErr result (self.new ≡ self.old) }
    {
        if self.has(text) {
            return Ok(());
        }
        self.push(text)
    }
}

/// Puts a key that is not in the tree yet at its place; one that is there keeps the place that it has.
fn enter<K: Ord + Copy>(
    first: &mut BTreeMap<K, usize>,
    key: K,
    place: usize,
) -> Result<(), AllocError>
    ensures entered { OnOk result
        (Updates K.cmp first.old first.new key (Some (unwrap_or (get K.cmp first.old key) place))) }
    ensures err { OnErr result (IsUnchanged first.old first.new) }
{
    match first.entry(key) {
        Ok(entry) => {
            entry.or_insert(place);
            Ok(())
        }
        Err(_) => Err(AllocError),
    }
}
