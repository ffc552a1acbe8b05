//! The recovery lock with the list of its takes and releases.
ghost use Rattle.std.specs.Prelude.{◌≡◌, ◌≤◌, ◌<◌, ◌+◌, ℕ, [], Some};
ghost use Rattle.ct_outside.specs.Locks.{Releases, TakesLock, free_lock, is_release_failure, is_release_refusal, is_take_failure, is_take_refusal};
ghost use Rattle.ct_outside.specs.MemoryLock.{refused_more};
ghost use Rattle.ct_outside.specs.Told.{RisesWhere};
ghost use Rattle.ct_links.specs.Book.{CountsFromTwo, state_after, tickets_of, with_release, with_take};

use ct_outside::fault::{ReleaseFault, TakeFault};
use ct_outside::lock::RecLock;
use ct_outside::memory_lock::MemLock;
use std::alloc::Global;
use std::marker::Model;

/// A take of the lock, or a release.
#[derive(Clone, Copy, Debug, PartialEq, Eq)]
pub enum LockStep {
    Take { node: u32, ticket: u64 },
    Release { node: u32 },
}

/// A lock that keeps its takes and releases. In every book the tickets are 2, 3, 4 and so on, each given while no other
/// node held the lock.
#[derive(Debug, Drop)]
pub struct Book {
    lock: MemLock,
    steps: Vec<LockStep>,
}

impl Model for Book {
    ghost use Rattle.std.specs.Prelude.{◌≡◌, ◌<◌, Some, IsSome, vec_len, vec_capacity};
    ghost use Rattle.ct_links.specs.Book.{Booked, state_after};

    ghost Value = { Booked };

    ghost view = { λ a. record { state = a.lock.state; refusals = a.lock.refusals; steps = a.steps.items } };

    // The steps make the lock, and while it is held there is room for its release.
    ghost invariant = { λ a. (state_after a.steps.items ≡ Some a.lock.state) × (IsSome a.lock.state.holder → vec_len a.steps < vec_capacity a.steps) };
}

impl Book {
    /// The book of a free lock whose last ticket is 1.
    pub fn new(alloc: Global) -> Book
        ensures { result ≡ record { state = free_lock; refusals = 0; steps = [] } }
    {
        Book {
            lock: MemLock::new(),
            steps: Vec::new(alloc),
        }
    }

    /// The takes and releases, in order.
    #[tactic(auto, using(crate::proofs::Steps::counts_from_two))]
    pub fn steps(&self) -> &[LockStep]
        ensures steps { result.now ≡ self.now.steps }
        ensures made { state_after self.now.steps ≡ Some self.now.state }
        ensures tickets { CountsFromTwo (tickets_of self.now.steps) }
    {
        self.steps.as_slice()
    }
}

impl RecLock for Book {
    ghost state = { λ s. Some s.state };

    ghost faults = { λ _. 0 };

    ghost refusals = { λ s. s.refusals };

    /// Reserves its memory first, and that of a release.
    fn take(&mut self, node: u32) -> Result<u64, TakeFault>
        ensures state { TakesLock result node self.old.state self.new.state }
        ensures cause { RisesWhere (is_take_failure result) 0 0 }
        ensures refused { RisesWhere (is_take_refusal result) self.old.refusals self.new.refusals }
        ensures counts { self.new.refusals ≡ refused_more (is_take_refusal result) self.old.refusals }
        ensures steps { self.new.steps ≡ with_take result node self.old.steps }
    {
        self.steps.reserve(2)?;
        let ticket = self.lock.take(node)?;
        self.steps.push_reserved(LockStep::Take { node, ticket });
        Ok(ticket)
    }

    /// Takes no memory.
    fn release(&mut self, node: u32) -> Result<(), ReleaseFault>
        ensures state { Releases result node self.old.state self.new.state }
        ensures cause { RisesWhere (is_release_failure result) 0 0 }
        ensures refused { RisesWhere (is_release_refusal result) self.old.refusals self.new.refusals }
        ensures counts { self.new.refusals ≡ refused_more (is_release_refusal result) self.old.refusals }
        ensures steps { self.new.steps ≡ with_release result node self.old.steps }
    {
        self.lock.release(node)?;
        self.steps.push_reserved(LockStep::Release { node });
        Ok(())
    }
}
