//! A commit that waits for the acknowledgements of the other members.
ghost use Rattle.std.specs.Prelude.{◌≡◌, ◌≢◌, [], IfOk};
ghost use Rattle.std.specs.List.Sorted.{IsStrictlyIncreasing};
ghost use Rattle.ct_persist.specs.Commits.{applied_by, commit_begun, completes};

use ct_tracking::awaited::Awaited;
use ct_values::copies::Duplicate;
use ct_values::memory::NoMemory;
use std::alloc::Global;
use std::marker::Model;

/// A commit: its number, and the members that have not acknowledged it.
#[derive(Debug)]
pub struct Commit {
    seq: u64,
    members: Awaited,
}

impl Drop for Commit {
    /// All that it holds is let go.
    fn drop(self) {
        let Commit { seq: _, members: _ } = self;
    }
}

impl Model for Commit {
    ghost use Rattle.ct_persist.specs.Commits.{Pending};
    ghost use Rattle.ct_persist.specs.Code.{pending_code};

    ghost Value = { Pending };

    ghost coded = { pending_code };

    ghost view = { λ c. record { seq = c.seq; missing = c.members.missing } };
}

impl Commit {
    /// A commit that all other members have still to acknowledge. They ascend, and there is at least one. No call but
    /// this and `copy` takes memory.
    pub fn begin(alloc: Global, seq: u64, others: &[u32]) -> Result<Commit, NoMemory>
        requires ascending { IsStrictlyIncreasing others.now }
        requires some { others.now ≢ [] }
        ensures { IfOk result (λ c. c ≡ commit_begun seq others.now) }
    {
        Ok(Commit {
            seq,
            members: Awaited::begin(alloc, others)?,
        })
    }

    /// The node has applied the commit of this number. True exactly where it was the last one missing. What is not
    /// awaited changes nothing.
    pub fn ack(&mut self, node: u32, seq: u64) -> bool
        ensures last { result ≡ completes node seq self.old }
        ensures after { self.new ≡ applied_by node seq self.old }
    {
        self.seq == seq && self.members.ack(node)
    }

    /// The members that have not acknowledged it, ascending.
    pub fn missing(&self) -> &[u32]
        ensures missing { result.now ≡ self.now.missing }
        ensures ascending { IsStrictlyIncreasing self.now.missing }
    {
        self.members.missing()
    }

    /// Its number.
    pub fn seq(&self) -> u64
        ensures { result ≡ self.now.seq }
    {
        self.seq
    }

    /// A copy that equals it.
    pub fn copy(&self) -> Result<Commit, NoMemory>
        ensures { IfOk result (λ c. c ≡ self.now) }
    {
        Ok(Commit {
            seq: self.seq,
            members: self.members.copy()?,
        })
    }
}

impl Duplicate for Commit {
    fn duplicate(&self) -> Result<Commit, NoMemory> {
        self.copy()
    }
}
