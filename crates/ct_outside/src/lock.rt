//! The recovery lock.
ghost use Rattle.std.specs.Prelude.{◌≡◌, ◌≤◌, ℕ, Option};
ghost use Rattle.ct_outside.specs.Locks.{LockState, Releases, TakesLock, is_release_failure, is_release_refusal, is_take_failure, is_take_refusal};
ghost use Rattle.ct_outside.specs.Told.{RisesWhere, Told};

use crate::fault::{ReleaseFault, TakeFault};

/// A lock that gives tickets. None of its counts ever falls.
pub trait RecLock {
    /// The holder and the last ticket, where the lock tells them.
    ghost state: { Self → Option LockState };

    /// How often it has failed.
    ghost faults: { Self → ℕ };

    /// How often it has refused because of who holds it, or of tickets that are used up.
    ghost refusals: { Self → ℕ };

    /// Gives the lock to the node, with the ticket after the last one.
    fn take(&mut self, node: u32) -> Result<u64, TakeFault>
        ensures state { Told (state self.old) (state self.new) (TakesLock result node) }
        ensures cause { RisesWhere (is_take_failure result) (faults self.old) (faults self.new) }
        ensures refused { RisesWhere (is_take_refusal result) (refusals self.old) (refusals self.new) };

    /// Takes the lock back from the node. The last ticket stays.
    fn release(&mut self, node: u32) -> Result<(), ReleaseFault>
        ensures state { Told (state self.old) (state self.new) (Releases result node) }
        ensures cause { RisesWhere (is_release_failure result) (faults self.old) (faults self.new) }
        ensures refused { RisesWhere (is_release_refusal result) (refusals self.old) (refusals self.new) };
}
