//! Descriptions of devices, of which each file is read once.

use crate::nodes::{Node, known, node_of};
use crate::texts::{InputFault, read_description};
use std::alloc::{AllocError, Global};
use std::collections::BTreeMap;
use std::rt::Files;

/// The texts of descriptions by the names that they were read by. A file that goes by several names, as `k.bsdl` and
/// `./k.bsdl`, is read once and kept once.
#[derive(Drop)]
pub(crate) struct Descriptions {
    texts: Vec<Vec<u8>>,
    /// The place of the text of each name.
    places: Vec<usize>,
    /// The place of the text of each file.
    known: BTreeMap<Node, usize>,
}

impl Descriptions {
    /// None yet.
    pub(crate) fn new(alloc: Global) -> Descriptions {
        Descriptions {
            texts: Vec::new(alloc),
            places: Vec::new(alloc),
            known: BTreeMap::new(alloc),
        }
    }

    /// Reads the description of this name, or finds its file among those that were read.
    pub(crate) fn read<R: Files + Input + AllocGlobal>(
        &mut self,
        rt: &R,
        alloc: Global,
        name: &str,
    ) -> Result<(), InputFault> {
        let node = file_of(rt, name)?;
        let place = match node.and_then(|node| self.known.get(&node).copied()) {
            Some(place) => place,
            None => self.keep(read_description(rt, alloc, name)?, node)?,
        };
        self.name_at(place)?;
        Ok(())
    }

    /// One more name, whose text has this place.
    fn name_at(&mut self, place: usize) -> Result<(), AllocError> {
        self.places.push(place)?;
        Ok(())
    }

    /// Keeps a text, of a file if it is one. Answers its place.
    fn keep(&mut self, text: Vec<u8>, node: Option<Node>) -> Result<usize, AllocError> {
        let place = self.texts.len();
        self.texts.push(text)?;
        if let Some(node) = node {
            self.known.insert(node, place)?;
        }
        Ok(place)
    }

    /// The text of the name that was read as the `k`th, from 0, alone; an empty one where there are fewer.
    pub(crate) fn into_text(self, alloc: Global, k: usize) -> Vec<u8> {
        let place = self.places.get(k).copied().unwrap_or(self.texts.len());
        taken(self.texts, place).unwrap_or(Vec::new(alloc))
    }

    /// The text of the name that was read as the `k`th, from 0; nothing where there are fewer.
    pub(crate) fn text(&self, k: usize) -> &[u8] {
        match self.places.get(k) {
            Some(place) => self.texts.get(*place).map_or(&[], |text| text.as_slice()),
            None => &[],
        }
    }
}

/// What stands at this place of a list, where it is so long; the rest is let go.
pub(crate) fn taken<T: Drop>(mut all: Vec<T>, place: usize) -> Option<T> {
    if place < all.len() {
        Some(all.swap_remove(place))
    } else {
        None
    }
}

/// What a name stands for, where that is a file that can be asked for.
fn file_of<R: Files>(rt: &R, name: &str) -> Result<Option<Node>, InputFault> {
    match known(rt, name)? {
        Some(known) if known.is_file() => Ok(Some(node_of(&known))),
        _ => Ok(None),
    }
}
