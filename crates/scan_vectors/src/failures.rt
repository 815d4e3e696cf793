//! The wanted bits that did not come out, of one scan or of many.

ghost use Rattle.std.specs.Prelude.{◌≡◌, ◌<◌, ◌+◌, ◌^◌, ◌∷◌, [], take};
ghost use Rattle.std.specs.Option.{option_to_list};
ghost use Rattle.scan_vectors.specs.Failures.{found, none_found, with_found};

use crate::Part;
use arrayvec::ArrayVec;

/// A wanted bit that did not come out.
#[derive(Debug, Clone, Copy, PartialEq, Eq, Default)]
pub struct Mismatch {
    /// The number of the statement that asks for it, counted from 1.
    pub command: usize,
    /// The part of that scan's vector in which it stands.
    pub part: Part,
    /// Its place there, counted from 0, the bit that is shifted first.
    pub bit: usize,
}

/// The wanted bits that did not come out, by command and then by place in the whole vector. It takes no memory.
#[derive(Debug, Drop)]
pub struct Failures {
    /// The first 256 of them.
    pub list: ArrayVec<Mismatch, 256>,
    /// How many they are, those that are not listed too.
    pub total: u64,
}

impl Failures {
    /// None yet.
    pub fn new() -> Failures
        ensures { found result ≡ none_found }
    {
        Failures {
            list: ArrayVec::new(),
            total: 0,
        }
    }

    /// One more, behind all others. It is counted, and listed where there is room.
    pub fn note(&mut self, failure: Mismatch)
        requires { self.old.total + 1 < 2 ^ 64 }
        ensures { found self.new ≡ with_found (failure ∷ []) (found self.old) }
    {
        if !self.list.is_full() {
            self.list.push(failure);
        }
        self.total += 1;
    }

    /// The first of them.
    pub fn first(&self) -> Option<Mismatch>
        ensures { option_to_list result ≡ take 1 (found self.now).list }
    {
        self.list.as_slice().first().copied()
    }
}
