//! A takeover run as its leader sees it.
ghost use Rattle.std.specs.Prelude.{◌≡◌, ◌≢◌, [], IfOk};
ghost use Rattle.std.specs.List.Sorted.{IsStrictlyIncreasing};
ghost use Rattle.ct_values.specs.Words.{is_this_node};
ghost use Rattle.ct_tracking.specs.Awaited.{AreAsked};
ghost use Rattle.ct_rules_node.specs.Takeovers.{share};
ghost use Rattle.ct_lead.specs.Run.{after_releaseack, ends_releases, run_begun};

use ct_frame::frame::Assigned;
use ct_tracking::awaited::Awaited;
use ct_values::address::Address;
use ct_values::copies::Duplicate;
use ct_values::items::Items;
use ct_values::memory::NoMemory;
use std::alloc::Global;
use std::marker::Model;

/// A run: its number, the placement that is made, the members, and those of them that have not released yet. No
/// acknowledgement needs memory.
#[derive(Debug)]
pub struct Run {
    alloc: Global,
    number: u64,
    members: Awaited,
    placement: Items<Assigned>,
}

impl Drop for Run {
    /// All that it holds is let go.
    fn drop(self) {
        let Run {
            alloc: _,
            number: _,
            members: _,
            placement: _,
        } = self;
    }
}

impl Model for Run {
    ghost use Rattle.std.specs.Prelude.{◌≢◌, []};
    ghost use Rattle.ct_lead.specs.Run.{Handing};

    ghost Value = { Handing };

    ghost view = { λ r. record { number = r.number; members = r.members.asked; placement = r.placement; missing = r.members.missing } };

    ghost invariant = { λ r. r.members.asked ≢ [] };
}

/// Is it this node?
#[tactic(auto, unfolding(ct_values::specs::Words::is_this_node))]
fn is_this_node(node: u32, at: Option<u32>) -> bool
    ensures { result ≡ is_this_node node at }
{
    match at {
        None => false,
        Some(n) => n == node,
    }
}

/// The addresses that a placement gives to a node.
#[tactic(auto, unfolding(ct_rules_node::specs::Takeovers::share))]
pub fn share(alloc: Global, node: u32, placement: &[Assigned]) -> Result<Vec<Address>, NoMemory>
    ensures { IfOk result (λ v. v.items ≡ share node placement.now) }
{
    let mut addresses = Vec::new(alloc);
    for x in placement {
        if is_this_node(node, x.node) {
            addresses.push(x.address)?;
        }
    }
    Ok(addresses)
}

impl Run {
    /// A run of this number begins: all members are to release, and then to take what the placement gives them. They
    /// ascend, and there is at least one.
    pub fn begin(
        alloc: Global,
        run: u64,
        members: &[u32],
        placement: Vec<Assigned>,
    ) -> Result<Run, NoMemory>
        requires ascending { IsStrictlyIncreasing members.now }
        requires some { members.now ≢ [] }
        ensures { IfOk result (λ r. r ≡ run_begun run members.now placement.items) }
    {
        Ok(Run {
            alloc,
            number: run,
            members: Awaited::begin(alloc, members)?,
            placement: Items::new(placement),
        })
    }

    /// A member has released in the run of this number. True exactly where it was the last one missing; then all may
    /// take. It takes no memory.
    pub fn acked(&mut self, node: u32, run: u64) -> bool
        ensures last { result ≡ ends_releases node run self.old }
        ensures after { self.new ≡ after_releaseack node run self.old }
    {
        self.number == run && self.members.ack(node)
    }

    /// The addresses that its placement gives to a node.
    pub fn share(&self, node: u32) -> Result<Vec<Address>, NoMemory>
        ensures { IfOk result (λ v. v.items ≡ share node self.now.placement) }
    {
        share(self.alloc, node, self.placement.as_slice())
    }

    /// The members that have not released yet, ascending; none once all may take.
    pub fn missing(&self) -> &[u32]
        ensures missing { result.now ≡ self.now.missing }
        ensures asked { AreAsked self.now.members self.now.missing }
    {
        self.members.missing()
    }

    /// The members, ascending; there is at least one.
    pub fn members(&self) -> &[u32]
        ensures members { result.now ≡ self.now.members }
        ensures ascending { IsStrictlyIncreasing self.now.members }
        ensures some { self.now.members ≢ [] }
    {
        self.members.asked()
    }

    /// The placement that it makes.
    pub fn placement(&self) -> &[Assigned]
        ensures { result.now ≡ self.now.placement }
    {
        self.placement.as_slice()
    }

    /// Its number.
    pub fn number(&self) -> u64
        ensures { result ≡ self.now.number }
    {
        self.number
    }

    /// A copy that equals it.
    pub fn copy(&self) -> Result<Run, NoMemory>
        ensures { IfOk result (λ r. r ≡ self.now) }
    {
        Ok(Run {
            alloc: self.alloc,
            number: self.number,
            members: self.members.copy()?,
            placement: self.placement.duplicate()?,
        })
    }
}

impl Duplicate for Run {
    fn duplicate(&self) -> Result<Run, NoMemory> {
        self.copy()
    }
}
