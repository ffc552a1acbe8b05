//! A link and a gate that list what they are asked.
ghost use Rattle.std.specs.Prelude.{◌≡◌, ◌≤◌, ◌∷◌, [], ℕ, List, Option, None, Some, is_ok, IsTrue, MatchOption};
ghost use Rattle.ct_outside.specs.Links.{Looks, Receives, Sends, is_end, is_failure};
ghost use Rattle.ct_outside.specs.Told.{Lists, RisesWhere, Told};

use crate::fault::LinkFault;
use crate::gate::Gate;
use crate::link::{Link, Received};
use std::alloc::Global;
use std::marker::Model;

/// A list that is no more once memory ran out for one of its items.
#[derive(Debug, Drop)]
pub struct Listing<T> {
    items: Vec<T>,
    whole: bool,
}

impl<T> Model for Listing<T> {
    ghost use Rattle.std.specs.Prelude.{Option, None, Some, List, if◌then◌else◌};

    ghost Value = { Option (List T) };

    ghost view = { λ a. if a.whole then Some a.items.items else None };
}

impl<T: Drop> Listing<T> {
    pub fn new(alloc: Global) -> Listing<T>
        ensures { result ≡ Some [] }
    {
        Listing {
            items: Vec::new(alloc),
            whole: true,
        }
    }

    /// The item comes to its end.
    pub fn add(&mut self, item: T)
        ensures { Lists (item ∷ []) self.old self.new }
    {
        if self.whole && self.items.push(item).is_err() {
            self.whole = false;
        }
    }

    /// Its items, in the order in which they came.
    pub fn items(&self) -> Option<&[T]>
        ensures { MatchOption result (self.now ≡ None) (λ items. self.now ≡ Some items.now) }
    {
        if self.whole {
            Some(self.items.as_slice())
        } else {
            None
        }
    }
}

/// A link that lists the permissions of its looks, and hands all calls on.
#[derive(Drop)]
pub struct ListingLink<L> {
    link: L,
    permissions: Listing<bool>,
}

impl<L> Model for ListingLink<L> {
    ghost use Rattle.std.specs.Prelude.{Bool};
    ghost use Rattle.ct_outside.specs.Listing.{Listed};

    ghost Value = { Listed L Bool };

    ghost view = { λ a. record { inner = a.link; asked = a.permissions } };
}

impl<L: Link + Drop> ListingLink<L> {
    pub fn new(alloc: Global, link: L) -> ListingLink<L>
        ensures { result ≡ record { inner = link; asked = Some [] } }
    {
        ListingLink {
            link,
            permissions: Listing::new(alloc),
        }
    }

    /// Whether it might wait at each of its looks so far, in order. None once memory ran out for that.
    pub fn permissions(&self) -> Option<&[bool]>
        ensures { MatchOption result (self.now.asked ≡ None) (λ items. self.now.asked ≡ Some items.now) }
    {
        self.permissions.items()
    }
}

impl<L: Link + Drop> Link for ListingLink<L> {
    ghost pieces = { λ s. L.pieces s.inner };

    ghost faults = { λ s. L.faults s.inner };

    ghost endings = { λ s. L.endings s.inner };

    ghost looks = { λ s. L.looks s.inner };

    ghost permissions = { λ s. s.asked };

    fn send(&mut self, to: u32, bytes: &[u8]) -> Result<(), LinkFault> {
        self.link.send(to, bytes)
    }

    fn receive(&mut self, may_wait: bool) -> Result<Received, LinkFault> {
        self.permissions.add(may_wait);
        self.link.receive(may_wait)
    }
}

/// A gate that lists its passes, and is always open.
#[derive(Debug, Drop)]
pub struct ListingGate {
    passes: Listing<(u32, u64)>,
}

impl Model for ListingGate {
    ghost use Rattle.std.specs.Prelude.{ℕ, List, Option};

    ghost Value = { Option (List (ℕ × ℕ)) };

    ghost view = { λ a. a.passes };
}

impl ListingGate {
    pub fn new(alloc: Global) -> ListingGate
        ensures { result ≡ Some [] }
    {
        ListingGate {
            passes: Listing::new(alloc),
        }
    }

    /// The node and the turn of each of its passes so far, in order. None once memory ran out for that.
    pub fn passes(&self) -> Option<&[(u32, u64)]>
        ensures { MatchOption result (self.now ≡ None) (λ items. self.now ≡ Some items.now) }
    {
        self.passes.items()
    }
}

impl Gate for ListingGate {
    ghost passes = { λ s. s };

    /// Does not wait.
    fn pass(&mut self, node: u32, turn: u64) {
        self.passes.add((node, turn));
    }
}
