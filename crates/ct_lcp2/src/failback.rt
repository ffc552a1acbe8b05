//! Addresses fail back to nodes that held none.
ghost use Rattle.std.specs.Prelude.{◌≡◌, ◌≤◌, IfOk, OnOk, length};
ghost use Rattle.ct_lcp2.specs.Best.{best, best_from};
ghost use Rattle.ct_lcp2.specs.Leavers.{AreLeavers, is_beaten, is_behind};
ghost use Rattle.ct_lcp2.specs.Placing.{Ascend, choice_before, failbacks, failbacks_of, failed_back, held, next_failback, with_source};
ghost use Rattle.ct_lcp2.specs.Tallies.{nodes, tallied, tally};

use crate::choice::{Choice, Source};
use crate::leaver::{Leaver, leavers};
use crate::placement::Placement;
use crate::tally::{Tally, all_after, tallies};
use ct_frame::frame::Assigned;
use ct_values::memory::NoMemory;
use std::alloc::Global;

/// Is the best so far of a lesser sum? Then no choice of this sum is better.
fn is_beaten(sum: u64, best: &Option<Choice>) -> bool
    ensures { result ≡ is_beaten sum best.now }
{
    match best {
        None => false,
        Some(choice) => choice.sum < sum,
    }
}

/// The best so far, and the moves from a node to a target.
#[tactic(auto, unfolding(crate::specs::Placing::failbacks_of, crate::specs::Best::best_from))]
fn best_failback_to(
    source: &Tally,
    leavers: &[Leaver],
    target: &Tally,
    at: &[Assigned],
    best: Option<Choice>,
) -> Option<Choice>
    requires few { length at.now ≤ 256 }
    requires source { source.now ≡ tally at.now source.now.node }
    requires leavers { AreLeavers source.now.node at.now leavers.now }
    requires target { target.now ≡ tally at.now target.now.node }
    ensures { result ≡ best_from choice_before best (failbacks_of target.now.node (held source.now.node at.now) (held target.now.node at.now) (held source.now.node at.now)) }
{
    let mut best = best;
    let weight = source.imbalance;
    let weight_there = target.imbalance;
    let sums_there = target.sums.as_slice();
    for x in leavers {
        let sum = sums_there[x.place];
        if sum + weight_there < weight && sum < x.sum {
            let whole = weight - x.sum + (sum + weight_there);
            if !is_beaten(whole, &best) {
                let choice = Choice {
                    sum: whole,
                    address: at[x.place].address,
                    node: target.node,
                };
                best = choice.or_better(best);
            }
        }
    }
    best
}

/// The best move from a node to another of the targets.
#[tactic(auto, unfolding(crate::specs::Best::best_from, crate::specs::Placing::failbacks))]
fn best_failback(
    alloc: Global,
    source: &Tally,
    targets: &[Tally],
    at: &[Assigned],
) -> Result<Option<Choice>, NoMemory>
    requires few { length at.now ≤ 256 }
    requires ascending { Ascend at.now }
    requires source { source.now ≡ tally at.now source.now.node }
    requires targets { targets.now ≡ tallied at.now targets.now }
    ensures { IfOk result (λ o. o ≡ best choice_before (failbacks source.now.node (nodes targets.now) at.now)) }
{
    let leavers = leavers(alloc, source, at)?;
    let mut best = None;
    for target in targets {
        if target.node != source.node {
            best = best_failback_to(source, &leavers, target, at, best);
        }
    }
    Ok(best)
}

/// Does a node with this imbalance come after the best source so far, whatever its moves are?
fn is_behind(node: u32, weight: u64, so_far: Option<Source>) -> bool
    ensures { result ≡ is_behind node weight so_far }
{
    match so_far {
        None => false,
        Some(source) => !(source.imbalance < weight
            || (weight == source.imbalance && node < source.node)),
    }
}

/// The first of the best source so far and a node, if that has a move.
#[tactic(auto, using(crate::proofs::Loops::behind))]
fn with_source(
    alloc: Global,
    one: &Tally,
    targets: &[Tally],
    at: &[Assigned],
    so_far: Option<Source>,
) -> Result<Option<Source>, NoMemory>
    requires few { length at.now ≤ 256 }
    requires ascending { Ascend at.now }
    requires one { one.now ≡ tally at.now one.now.node }
    requires targets { targets.now ≡ tallied at.now targets.now }
    ensures { IfOk result (λ o. o ≡ with_source one.now.node one.now.imbalance (best choice_before (failbacks one.now.node (nodes targets.now) at.now)) so_far) }
{
    if is_behind(one.node, one.imbalance, so_far) {
        return Ok(so_far);
    }
    match best_failback(alloc, one, targets, at)? {
        None => Ok(so_far),
        Some(choice) => {
            let source = Source {
                imbalance: one.imbalance,
                node: one.node,
                choice,
            };
            Ok(source.or_better(so_far))
        }
    }
}

/// The first source that has a move, and its best move.
#[tactic(auto, unfolding(crate::specs::Best::best_from, crate::specs::Placing::sources))]
fn next_failback(
    alloc: Global,
    sources: &[Tally],
    targets: &[Tally],
    at: &[Assigned],
) -> Result<Option<Source>, NoMemory>
    requires few { length at.now ≤ 256 }
    requires ascending { Ascend at.now }
    requires sources { sources.now ≡ tallied at.now sources.now }
    requires targets { targets.now ≡ tallied at.now targets.now }
    ensures { IfOk result (λ o. o ≡ next_failback (nodes sources.now) (nodes targets.now) at.now) }
{
    let mut best = None;
    for one in sources {
        best = with_source(alloc, one, targets, at, best)?;
    }
    Ok(best)
}

/// While a source has a move, the best move of the first such source is made.
#[tactic(auto, using(crate::proofs::Steps::failback_end))]
pub fn fail_back(
    alloc: Global,
    able: &[u32],
    targets: &[u32],
    placement: &mut Placement,
) -> Result<(), NoMemory>
    requires few { length placement.old.at ≤ 256 }
    requires ascending { Ascend placement.old.at }
    ensures { OnOk result (placement.new ≡ failed_back able.now targets.now placement.old) }
{
    let mut from = tallies(alloc, able, placement.at.as_slice())?;
    let mut to = tallies(alloc, targets, placement.at.as_slice())?;
    loop {
        let at = placement.at.as_slice();
        let Some(source) = next_failback(alloc, &from, &to, at)? else {
            return Ok(());
        };
        let address = source.choice.address;
        let target = source.choice.node;
        from = all_after(from, alloc, address, Some(source.node), target, at)?;
        to = all_after(to, alloc, address, Some(source.node), target, at)?;
        placement.carry_out(alloc, address, Some(source.node), target)?;
    }
}
