//! Before addresses are placed: who is able, who leaves, and who may be a target.
ghost use Rattle.std.specs.Prelude.{◌≡◌, IfOk};
ghost use Rattle.ct_values.specs.Words.{is_this_node};
ghost use Rattle.ct_lcp2.specs.Placing.{vacated, freed, held, is_able, must_leave, targets_of};

use crate::placement::{Move, Placement};
use ct_frame::frame::Assigned;
use ct_values::address::Address;
use ct_values::items::Items;
use ct_values::memory::NoMemory;
use std::alloc::Global;

#[tactic(auto, unfolding(ct_values::specs::Words::is_this_node))]
pub fn is_this_node(node: u32, at: Option<u32>) -> bool
    ensures { result ≡ is_this_node node at }
{
    match at {
        None => false,
        Some(n) => n == node,
    }
}

/// The addresses at a node.
#[tactic(auto, unfolding(crate::specs::Placing::held))]
pub fn held(alloc: Global, node: u32, at: &[Assigned]) -> Result<Vec<Address>, NoMemory>
    ensures { IfOk result (λ v. v.items ≡ held node at.now) }
{
    let mut addresses = Vec::new(alloc);
    for x in at {
        if is_this_node(node, x.node) {
            addresses.push(x.address)?;
        }
    }
    Ok(addresses)
}

fn is_able(able: &[u32], node: u32) -> bool
    ensures { result ≡ is_able able.now node }
{
    able.iter().any(|n| node == *n)
}

fn must_leave(able: &[u32], at: Option<u32>) -> bool
    ensures { result ≡ must_leave able.now at }
{
    match at {
        None => false,
        Some(node) => !is_able(able, node),
    }
}

/// Addresses leave the nodes that are not able.
#[tactic(auto, unfolding(crate::specs::Placing::moves_away))]
pub fn vacate(alloc: Global, able: &[u32], given: &[Assigned]) -> Result<Placement, NoMemory>
    ensures { IfOk result (λ p. p ≡ vacated able.now given.now) }
{
    let mut at = Vec::with_capacity(alloc, given.len())?;
    let mut moves = Vec::new(alloc);
    for x in given {
        if must_leave(able, x.node) {
            moves.push(Move {
                address: x.address,
                source: x.node,
                target: None,
            })?;
            at.push(Assigned {
                address: x.address,
                node: None,
            })?;
        } else {
            at.push(Assigned {
                address: x.address,
                node: x.node,
            })?;
        }
    }
    Ok(Placement {
        at: Items::new(at),
        moves: Items::new(moves),
    })
}

/// The able nodes that hold no address.
pub fn targets_of(alloc: Global, able: &[u32], given: &[Assigned]) -> Result<Vec<u32>, NoMemory>
    ensures { IfOk result (λ v. v.items ≡ targets_of able.now given.now) }
{
    let mut targets = Vec::new(alloc);
    for node in able {
        let addresses = held(alloc, *node, given)?;
        if addresses.is_empty() {
            targets.push(*node)?;
        }
    }
    Ok(targets)
}
