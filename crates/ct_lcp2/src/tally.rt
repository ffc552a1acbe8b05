//! Running sums: what is kept of each node, so that a move changes only what it must.
ghost use Rattle.std.specs.Prelude.{◌≡◌, ◌≤◌, ◌∷◌, IfOk, false, length, map};
ghost use Rattle.ct_values.specs.Words.{is_this_node};
ghost use Rattle.ct_lcp2.specs.Distance.{squared, sum_to};
ghost use Rattle.ct_lcp2.specs.Placing.{Ascend, held, sent};
ghost use Rattle.ct_lcp2.specs.Tallies.{Stands, sums_less, sums_to, tallied, tally};

use crate::distance::{distance, imbalance, sum_to};
use crate::start::{held, is_this_node};
use ct_frame::frame::Assigned;
use ct_values::address::Address;
use ct_values::items::Items;
use ct_values::memory::NoMemory;
use std::alloc::Global;

/// A node, its imbalance, and the sum of squared distances of each address of the placement to those at the node.
#[derive(Debug, Drop, PartialEq, Eq)]
pub struct Tally {
    pub node: u32,
    pub imbalance: u64,
    pub sums: Items<u64>,
}

/// The square of a distance.
pub fn squared(a: Address, b: Address) -> u64
    ensures { result ≡ squared a b }
{
    let d = u64::from(distance(a, b));
    d * d
}

/// The sum of an address to those at a node.
#[tactic(auto, unfolding(crate::specs::Placing::held, crate::specs::Distance::sum_to), using(crate::proofs::Distances::sum_within, crate::proofs::Standing::held_length))]
fn sum_to_held(address: Address, node: u32, at: &[Assigned]) -> u64
    requires { length at.now ≤ 256 }
    ensures { result ≡ sum_to address (held node at.now) }
{
    let mut sum = 0;
    for x in at {
        if is_this_node(node, x.node) {
            sum += squared(address, x.address);
        }
    }
    sum
}

/// The sums of all to these addresses.
fn sums_to(alloc: Global, there: &[Address], at: &[Assigned]) -> Result<Vec<u64>, NoMemory>
    requires { length there.now ≤ 256 }
    ensures { IfOk result (λ v. v.items ≡ sums_to there.now at.now) }
{
    let mut sums = Vec::with_capacity(alloc, at.len())?;
    for x in at {
        sums.push(sum_to(x.address, there))?;
    }
    Ok(sums)
}

/// The sums become those with one address more at the node. It takes no memory.
fn add_squares(sums: &mut Vec<u64>, node: u32, address: Address, at: &[Assigned])
    requires few { length at.now ≤ 256 }
    requires sums { sums.old.items ≡ sums_to (held node at.now) at.now }
    ensures { sums.new.items ≡ sums_to (address ∷ held node at.now) at.now }
{
    for (i, x) in at.iter().enumerate() {
        sums[i] = squared(x.address, address) + sums[i];
    }
}

/// The sums become those less the ones to one address. It takes no memory.
fn take_squares(sums: &mut Vec<u64>, node: u32, address: Address, at: &[Assigned])
    requires sums { sums.old.items ≡ sums_to (held node at.now) at.now }
    ensures { sums.new.items ≡ sums_less address (held node at.now) at.now }
{
    for (i, x) in at.iter().enumerate() {
        sums[i] = sums[i].saturating_sub(squared(x.address, address));
    }
}

impl Tally {
    #[tactic(auto, using(crate::proofs::Standing::held_length))]
    fn new(alloc: Global, node: u32, at: &[Assigned]) -> Result<Tally, NoMemory>
        requires { length at.now ≤ 256 }
        ensures { IfOk result (λ t. t ≡ tally at.now node) }
    {
        let there = held(alloc, node, at)?;
        let sums = sums_to(alloc, &there, at)?;
        Ok(Tally {
            node,
            imbalance: imbalance(&there),
            sums: Items::new(sums),
        })
    }

    /// What it is once an address has gone from its source to a target. It takes no memory.
    fn after(self, address: Address, source: Option<u32>, target: u32, at: &[Assigned]) -> Tally
        requires few { length at.now ≤ 256 }
        requires ascending { Ascend at.now }
        requires stands { Stands at.now address source }
        requires apart { is_this_node target source ≡ false }
        requires now { self ≡ tally at.now self.node }
        ensures { result ≡ tally (sent address target at.now) self.node }
    {
        let node = self.node;
        let weight = self.imbalance;
        if node == target {
            let mut sums = self.sums.into_vec();
            add_squares(&mut sums, node, address, at);
            return Tally {
                node,
                imbalance: sum_to_held(address, node, at) + weight,
                sums: Items::new(sums),
            };
        }
        if is_this_node(node, source) {
            let mut sums = self.sums.into_vec();
            take_squares(&mut sums, node, address, at);
            let own = sum_to_held(address, node, at).saturating_sub(squared(address, address));
            return Tally {
                node,
                imbalance: weight.saturating_sub(own),
                sums: Items::new(sums),
            };
        }
        self
    }
}

/// The tallies of these nodes.
pub fn tallies(alloc: Global, nodes: &[u32], at: &[Assigned]) -> Result<Vec<Tally>, NoMemory>
    requires { length at.now ≤ 256 }
    ensures { IfOk result (λ v. v.items ≡ map (tally at.now) nodes.now) }
{
    let mut all = Vec::with_capacity(alloc, nodes.len())?;
    for node in nodes {
        all.push(Tally::new(alloc, *node, at)?)?;
    }
    Ok(all)
}

/// What these tallies are once an address has gone from its source to a target.
pub fn all_after(
    all: Vec<Tally>,
    alloc: Global,
    address: Address,
    source: Option<u32>,
    target: u32,
    at: &[Assigned],
) -> Result<Vec<Tally>, NoMemory>
    requires few { length at.now ≤ 256 }
    requires ascending { Ascend at.now }
    requires stands { Stands at.now address source }
    requires apart { is_this_node target source ≡ false }
    requires now { all.items ≡ tallied at.now all.items }
    ensures { IfOk result (λ v. v.items ≡ tallied (sent address target at.now) all.items) }
{
    let mut after = Vec::with_capacity(alloc, all.len())?;
    for one in all {
        after.push(one.after(address, source, target, at))?;
    }
    Ok(after)
}
