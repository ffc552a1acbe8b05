//! Addresses that have no node are placed.
ghost use Rattle.std.specs.Prelude.{◌≡◌, ◌≤◌, OnOk, length};
ghost use Rattle.ct_lcp2.specs.Best.{best_from};
ghost use Rattle.ct_lcp2.specs.Placing.{Ascend, addresses, choice_before, filled, held, next_place, places_at};
ghost use Rattle.ct_lcp2.specs.Tallies.{nodes, tallied, tally};

use crate::choice::Choice;
use crate::placement::Placement;
use crate::tally::{Tally, all_after, tallies};
use ct_frame::frame::Assigned;
use ct_values::memory::NoMemory;
use std::alloc::Global;

/// The best so far, and the ways to place an address at this node.
#[tactic(auto, unfolding(crate::specs::Best::best_from, crate::specs::Placing::places_at))]
fn best_place_at(one: &Tally, at: &[Assigned], best: Option<Choice>) -> Option<Choice>
    requires { one.now ≡ tally at.now one.now.node }
    ensures { result ≡ best_from choice_before best (places_at one.now.node (held one.now.node at.now) at.now) }
{
    let mut best = best;
    let sums = one.sums.as_slice();
    for (i, x) in at.iter().enumerate() {
        if x.node.is_none() {
            let choice = Choice {
                sum: sums[i],
                address: x.address,
                node: one.node,
            };
            best = choice.or_better(best);
        }
    }
    best
}

/// The best of all ways to place an address.
#[tactic(auto, unfolding(crate::specs::Placing::places, crate::specs::Best::best_from))]
fn next_place(all: &[Tally], at: &[Assigned]) -> Option<Choice>
    requires { all.now ≡ tallied at.now all.now }
    ensures { result ≡ next_place (nodes all.now) at.now }
{
    let mut best = None;
    for one in all {
        best = best_place_at(one, at, best);
    }
    best
}

/// While an address has no node and a node is able, the best pair is placed.
#[tactic(auto, using(crate::proofs::Steps::place_end, crate::proofs::Standing::addresses_sent))]
pub fn fill(alloc: Global, able: &[u32], placement: &mut Placement) -> Result<(), NoMemory>
    requires few { length placement.old.at ≤ 256 }
    requires ascending { Ascend placement.old.at }
    ensures filled { OnOk result (placement.new ≡ filled able.now placement.old) }
    ensures same { OnOk result (addresses placement.new.at ≡ addresses placement.old.at) }
{
    let mut all = tallies(alloc, able, placement.at.as_slice())?;
    loop {
        let at = placement.at.as_slice();
        let Some(choice) = next_place(&all, at) else {
            return Ok(());
        };
        all = all_after(all, alloc, choice.address, None, choice.node, at)?;
        placement.carry_out(alloc, choice.address, None, choice.node)?;
    }
}
