//! A recovery lock in memory.
ghost use Rattle.std.specs.Prelude.{◌≡◌, ◌≢◌, ◌≤◌, ◌<◌, ◌+◌, ◌^◌, ℕ, Some};
ghost use Rattle.ct_outside.specs.Locks.{Releases, TakesLock, free_lock, is_release_failure, is_release_refusal, is_take_failure, is_take_refusal};
ghost use Rattle.ct_outside.specs.MemoryLock.{refused_more};
ghost use Rattle.ct_outside.specs.Told.{RisesWhere};

use crate::fault::{ReleaseFault, TakeFault};
use crate::lock::RecLock;
use std::marker::Model;

/// Tickets are below it.
const LIMIT: u64 = 1 << 62;

/// A lock that tells its holder and its last ticket, and never fails.
#[derive(Debug, Drop)]
pub struct MemLock {
    holder: Option<u32>,
    last: u64,
    refusals: u64,
}

impl Model for MemLock {
    ghost use Rattle.std.specs.Prelude.{◌<◌};
    ghost use Rattle.ct_outside.specs.Locks.{ticket_limit};
    ghost use Rattle.ct_outside.specs.MemoryLock.{Locking};

    ghost Value = { Locking };

    ghost view = { λ a. record { state = record { holder = a.holder; last = a.last }; refusals = a.refusals } };

    ghost invariant = { λ a. a.last < ticket_limit };
}

impl MemLock {
    /// A free lock whose last ticket is 1.
    pub fn new() -> MemLock
        ensures { result ≡ record { state = free_lock; refusals = 0 } }
    {
        MemLock {
            holder: None,
            last: 1,
            refusals: 0,
        }
    }
}

impl RecLock for MemLock {
    ghost state = { λ s. Some s.state };

    ghost faults = { λ _. 0 };

    ghost refusals = { λ s. s.refusals };

    /// Takes no memory.
    fn take(&mut self, node: u32) -> Result<u64, TakeFault>
        ensures state { TakesLock result node self.old.state self.new.state }
        ensures cause { RisesWhere (is_take_failure result) 0 0 }
        ensures refused { RisesWhere (is_take_refusal result) self.old.refusals self.new.refusals }
        ensures counts { self.new.refusals ≡ refused_more (is_take_refusal result) self.old.refusals }
        ensures memory { result ≢ Err TakeFault.NoMemory }
    {
        if let Some(holder) = self.holder {
            if holder != node {
                self.refusals = self.refusals.saturating_add(1);
                return Err(TakeFault::Held {
                    holder,
                    ticket: self.last,
                });
            }
        }
        if self.last + 1 == LIMIT {
            self.refusals = self.refusals.saturating_add(1);
            return Err(TakeFault::Exhausted);
        }
        self.last += 1;
        self.holder = Some(node);
        Ok(self.last)
    }

    fn release(&mut self, node: u32) -> Result<(), ReleaseFault>
        ensures state { Releases result node self.old.state self.new.state }
        ensures cause { RisesWhere (is_release_failure result) 0 0 }
        ensures refused { RisesWhere (is_release_refusal result) self.old.refusals self.new.refusals }
        ensures counts { self.new.refusals ≡ refused_more (is_release_refusal result) self.old.refusals }
    {
        if self.holder != Some(node) {
            self.refusals = self.refusals.saturating_add(1);
            return Err(ReleaseFault::NotHolder(self.holder));
        }
        self.holder = None;
        Ok(())
    }
}
