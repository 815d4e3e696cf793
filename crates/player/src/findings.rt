//! What a player keeps of the wanted bits that did not come out.

ghost use Rattle.std.specs.Prelude.{◌≡◌, ◌<◌, ◌+◌, ◌^◌, IsTrue, false, List, [], take};
ghost use Rattle.std.specs.Option.{option_to_list};
ghost use Rattle.scan_vectors.specs.Failures.{found, none_found};
ghost use Rattle.play_model.specs.PlayingOn as playing_on;
ghost use Rattle.play_model.specs.Streams.{stops_for, with_more};

use play_model::Kind;
use scan_vectors::{Failures, Mismatch};
use std::marker::Model;

/// The failures of a player of this kind: of one that stops, the first alone.
#[derive(Debug, Drop)]
pub(crate) struct Findings {
    kind: Kind,
    failures: Failures,
}

impl Model for Findings {
    ghost use Rattle.player.specs.Findings.{Keeping};

    ghost Value = { Keeping };

    ghost use Rattle.scan_vectors.specs.Failures.{found};
    ghost use Rattle.player.specs.Findings.{IsCounted};

    ghost view = { λ k. record { kind = k.kind; found = found k.failures } };

    ghost invariant = { λ k. IsCounted k.kind (found k.failures) };
}

impl Findings {
    /// Nothing yet.
    pub(crate) fn new(kind: Kind) -> Findings
        ensures { result ≡ record { kind = kind; found = none_found } }
    {
        Findings {
            kind,
            failures: Failures::new(),
        }
    }

    /// Whether the player stops after the first step that fails.
    pub(crate) fn kind(&self) -> Kind
        ensures { result ≡ self.now.kind }
    {
        self.kind
    }

    /// Whether the player stops, since a bit differed.
    pub(crate) fn stops(&self) -> bool
        ensures value { result ≡ stops_for self.now.kind self.now.found.list }
        ensures full { IsTrue result
            → (more : List playing_on.Mismatch) → with_more self.now.kind more self.now.found ≡ self.now.found }
        ensures calm { with_more self.now.kind [] self.now.found ≡ self.now.found }
    {
        match self.kind {
            Kind::Stops => !self.failures.list.is_empty(),
            Kind::PlaysOn => false,
        }
    }

    /// Keeps one more, if there is one, of a player that does not stop for an earlier one. Tells whether the player
    /// stops for it.
    pub(crate) fn note(&mut self, failure: Option<Mismatch>) -> bool
        requires room { self.old.found.total + 1 < 2 ^ 64 }
        requires goes_on { stops_for self.old.kind self.old.found.list ≡ false }
        ensures kept { self.new ≡ record self.old {
          found = with_more self.old.kind (option_to_list failure) self.old.found;
        } }
        ensures stops { result ≡ stops_for self.new.kind self.new.found.list }
    {
        // For the proof alone: what is kept of the list.
        let _ = self.failures.list.len();
        let Some(failure) = failure else {
            return false;
        };
        self.failures.note(failure);
        self.stops()
    }

    /// The first that was kept.
    pub(crate) fn first(&self) -> Option<Mismatch>
        ensures { option_to_list result ≡ take 1 self.now.found.list }
    {
        self.failures.first()
    }

    /// What is kept.
    pub(crate) fn failures(&self) -> &Failures
        ensures { found result.now ≡ self.now.found }
    {
        &self.failures
    }

    /// The same, for a caller that needs the rest no more.
    pub(crate) fn into_failures(self) -> Failures
        ensures { found result ≡ self.found }
    {
        let Findings { failures, .. } = self;
        failures
    }
}
