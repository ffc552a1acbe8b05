//! The addresses at a node, as what may leave it.
ghost use Rattle.std.specs.Prelude.{◌≡◌, ◌≤◌, IfOk, length};
ghost use Rattle.ct_lcp2.specs.Leavers.{AreLeavers};
ghost use Rattle.ct_lcp2.specs.Placing.{Ascend};
ghost use Rattle.ct_lcp2.specs.Tallies.{tally};

use crate::start::is_this_node;
use crate::tally::{Tally, squared};
use ct_frame::frame::Assigned;
use ct_values::memory::NoMemory;
use std::alloc::Global;

/// An address that may leave its node: its place among all, and its sum of squared distances to the others at the node.
#[derive(Clone, Copy, Debug, PartialEq, Eq)]
pub struct Leaver {
    pub place: usize,
    pub sum: u64,
}

/// The addresses at a node, by ascending address. Their sums are made once, whatever number of targets is tried.
#[tactic(auto, unfolding(crate::specs::Placing::held))]
pub fn leavers(alloc: Global, source: &Tally, at: &[Assigned]) -> Result<Vec<Leaver>, NoMemory>
    requires ascending { Ascend at.now }
    requires source { source.now ≡ tally at.now source.now.node }
    ensures { IfOk result (λ v. AreLeavers source.now.node at.now v.items) }
{
    let mut leavers = Vec::with_capacity(alloc, at.len())?;
    let sums = source.sums.as_slice();
    for (i, x) in at.iter().enumerate() {
        if is_this_node(source.node, x.node) {
            leavers.push(Leaver {
                place: i,
                sum: sums[i].saturating_sub(squared(x.address, x.address)),
            })?;
        }
    }
    Ok(leavers)
}
