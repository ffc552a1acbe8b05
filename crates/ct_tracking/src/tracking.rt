//! The nodes that are tracked, and the revocation of their copies.
ghost use Rattle.std.specs.Prelude.{◌≡◌, ◌≢◌, IfOk, OnOk, OnErr, None, []};
ghost use Rattle.std.specs.List.Sorted.{IsStrictlyIncreasing};
ghost use Rattle.ct_values.specs.Words.{is_nil, others};
ghost use Rattle.ct_tracking.specs.Awaited.{AreAsked, acknowledged};
ghost use Rattle.ct_tracking.specs.Tracked.{AreMissing, added, called_back, revocation_begun, ends, missing_of, rsn_of, untracked};

use crate::awaited::Awaited;
use ct_values::copies::Duplicate;
use ct_values::memory::NoMemory;
use std::alloc::Global;
use std::marker::Model;

/// The nodes that may hold a copy of a record for reading and, while their copies are revoked, the revocation's number
/// and the nodes that have not acknowledged it.
#[derive(Debug)]
pub struct Tracking {
    nodes: Awaited,
    revoking: Option<u64>,
}

impl Drop for Tracking {
    /// All that it holds is let go.
    fn drop(self) {
        let Tracking {
            nodes: _,
            revoking: _,
        } = self;
    }
}

impl Model for Tracking {
    ghost use Rattle.ct_tracking.specs.Tracked.{AreMissing, Tracked, revocation};
    ghost use Rattle.ct_tracking.specs.TrackingCode.{tracked_code};

    ghost Value = { Tracked };

    ghost coded = { tracked_code };

    ghost view = { λ t. record { tracked = t.nodes.asked; revoking = revocation t.revoking t.nodes.missing } };

    ghost invariant = { λ t. AreMissing t.revoking t.nodes.missing };
}

/// Takes an acknowledgement, where somebody is missing. True exactly where nobody is missing then.
#[tactic(auto, using(crate::proofs::Nodes::last_of_some))]
fn strike_off(nodes: &mut Awaited, node: u32) -> bool
    requires { nodes.old.missing ≢ [] }
    ensures after { nodes.new ≡ acknowledged node nodes.old }
    ensures none { result ≡ is_nil (others node nodes.old.missing) }
{
    nodes.ack(node)
}

impl Tracking {
    /// Tracks nothing. It takes no memory.
    pub fn new(alloc: Global) -> Tracking
        ensures { result ≡ untracked }
    {
        Tracking {
            nodes: Awaited::nobody(alloc),
            revoking: None,
        }
    }

    /// Tracks one more node, if it is not tracked yet. Nothing changes where memory runs out.
    pub fn add(&mut self, node: u32) -> Result<(), NoMemory>
        requires { self.old.revoking ≡ None }
        ensures ok { OnOk result (self.new ≡ added node self.old) }
        ensures err { OnErr result (self.new ≡ self.old) }
    {
        self.nodes.add(node)
    }

    /// Begins a revocation: every tracked node is missing. It takes no memory.
    pub fn begin(&mut self, rsn: u64) -> Result<(), NoMemory>
        requires quiet { self.old.revoking ≡ None }
        requires some { ¬ (self.old.tracked ≡ []) }
        ensures ok { OnOk result (self.new ≡ revocation_begun rsn self.old) }
        ensures err { OnErr result (self.new ≡ self.old) }
    {
        self.nodes.ask_again();
        self.revoking = Some(rsn);
        Ok(())
    }

    /// Takes the acknowledgement of a node. It counts where the revocation has this number and the node is missing. True
    /// exactly where it was the last one: then nothing is tracked any more. It takes no memory.
    #[tactic(auto, using(crate::proofs::Nodes::still_missing))]
    pub fn ack(&mut self, node: u32, rsn: u64) -> bool
        ensures after { self.new ≡ called_back node rsn self.old }
        ensures ends { result ≡ ends node rsn self.old }
    {
        if self.revoking != Some(rsn) {
            return false;
        }
        if !strike_off(&mut self.nodes, node) {
            return false;
        }
        self.nodes.clear();
        self.revoking = None;
        true
    }

    /// Nothing is tracked any more; a revocation ends. It takes no memory.
    pub fn clear(&mut self)
        ensures { self.new ≡ untracked }
    {
        self.nodes.clear();
        self.revoking = None;
    }

    /// The tracked nodes, in order.
    pub fn tracked(&self) -> &[u32]
        ensures nodes { result.now ≡ self.now.tracked }
        ensures in_order { IsStrictlyIncreasing self.now.tracked }
    {
        self.nodes.asked()
    }

    /// The nodes that the revocation waits for, in order: tracked ones, and at least one; none where no revocation runs.
    #[tactic(auto, using(crate::proofs::Nodes::tracked_missing, crate::proofs::Nodes::some_missing))]
    pub fn missing(&self) -> &[u32]
        ensures nodes { result.now ≡ missing_of self.now.revoking }
        ensures asked { AreAsked self.now.tracked (missing_of self.now.revoking) }
        ensures some { AreMissing (rsn_of self.now.revoking) (missing_of self.now.revoking) }
    {
        self.nodes.missing()
    }

    /// The number of the revocation that runs.
    pub fn revoking(&self) -> Option<u64>
        ensures { result ≡ rsn_of self.now.revoking }
    {
        self.revoking
    }

    /// A copy that equals it.
    pub fn copy(&self) -> Result<Tracking, NoMemory>
        ensures { IfOk result (λ t. t ≡ self.now) }
    {
        Ok(Tracking {
            nodes: self.nodes.copy()?,
            revoking: self.revoking,
        })
    }
}

impl Duplicate for Tracking {
    fn duplicate(&self) -> Result<Tracking, NoMemory> {
        self.copy()
    }
}
