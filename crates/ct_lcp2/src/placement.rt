//! Placements of addresses on nodes.
ghost use Rattle.std.specs.Prelude.{◌≡◌, ◌≤◌, ◌↔◌, IfOk, IsTrue, OnOk, OnErr, length};
ghost use Rattle.ct_lcp2.specs.Placing.{moved, placement, sent, seated, Ascend};

use crate::failback::fail_back;
use crate::start::{targets_of, vacate};
use crate::vacant::fill;
use ct_frame::frame::Assigned;
use ct_frame::order::ascends;
use ct_values::address::Address;
use ct_values::items::Items;
use ct_values::memory::NoMemory;
use std::alloc::Global;

/// The nodes, those of them that are able to hold addresses, and where the addresses stand, by ascending address.
#[derive(Debug, Drop, PartialEq, Eq)]
pub struct Addresses {
    pub nodes: u32,
    pub able: Items<u32>,
    pub at: Items<Assigned>,
}

/// An address that went from one node, or from none, to another, or to none.
#[derive(Clone, Copy, Debug, PartialEq, Eq)]
pub struct Move {
    pub address: Address,
    pub source: Option<u32>,
    pub target: Option<u32>,
}

/// Where the addresses stand, by ascending address, and the moves that brought them there, in order.
#[derive(Debug, Drop, PartialEq, Eq)]
pub struct Placement {
    pub at: Items<Assigned>,
    pub moves: Items<Move>,
}

fn seated(x: &Assigned, address: Address, node: u32) -> Assigned
    ensures { result ≡ seated address node x.now }
{
    if address == x.address {
        return Assigned {
            address: x.address,
            node: Some(node),
        };
    }
    Assigned {
        address: x.address,
        node: x.node,
    }
}

fn sent(
    alloc: Global,
    at: &[Assigned],
    address: Address,
    node: u32,
) -> Result<Vec<Assigned>, NoMemory>
    ensures { IfOk result (λ v. v.items ≡ sent address node at.now) }
{
    let mut after = Vec::with_capacity(alloc, at.len())?;
    for x in at {
        after.push(seated(x, address, node))?;
    }
    Ok(after)
}

impl Placement {
    /// Puts an address at its target, and notes the move. Without memory nothing changes.
    pub fn carry_out(
        &mut self,
        alloc: Global,
        address: Address,
        source: Option<u32>,
        target: u32,
    ) -> Result<(), NoMemory>
        ensures ok { OnOk result (self.new ≡ moved address source target self.old) }
        ensures err { OnErr result (self.new ≡ self.old) }
    {
        let at = sent(alloc, self.at.as_slice(), address, target)?;
        self.moves.push(Move {
            address,
            source,
            target: Some(target),
        })?;
        self.at = Items::new(at);
        Ok(())
    }
}

/// Do the addresses ascend, none twice?
pub fn do_ascend(at: &[Assigned]) -> bool
    ensures { IsTrue result ↔ Ascend at.now }
{
    ascends(at)
}

/// The placement that is made of the given one.
///
/// First, an address at a node that is not able loses its node. Second, while an address has no node and a node is
/// able, of all pairs of the two the one with the least sum of squared distances between the address and those at the
/// node is placed. Third, addresses fail back to the able nodes that hold none in the given placement. The able nodes
/// are tried as source by falling imbalance. A move to another node counts only if the target has less imbalance then
/// than the source had, and the sum of squared distances of the address is less at the target than at the source. Of
/// the first source that has such a move, the move is made that leaves the two with the least sum of imbalances; then
/// the third step starts again, until no source has a move. Ties go to the lower address, and then to the lower node.
pub fn place(alloc: Global, given: &Addresses) -> Result<Placement, NoMemory>
    requires ascending { Ascend given.now.at }
    requires few { length given.now.at ≤ 256 }
    ensures { IfOk result (λ p. p ≡ placement given.now.able given.now.at) }
{
    let able = given.able.as_slice();
    let at = given.at.as_slice();
    let targets = targets_of(alloc, able, at)?;
    let mut placement = vacate(alloc, able, at)?;
    fill(alloc, able, &mut placement)?;
    fail_back(alloc, able, &targets, &mut placement)?;
    Ok(placement)
}
