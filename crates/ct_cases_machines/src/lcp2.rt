//! Distances, imbalances and placements, against values by hand and by a program that writes every list of moves out.
use ct_frame::frame::Assigned;
use ct_lcp2::distance::{distance, imbalance};
use ct_lcp2::placement::{Addresses, Move, Placement, do_ascend, place};
use ct_values::address::Address;
use ct_values::items::Items;
use std::alloc::Global;
use std::test::Fail;

const A0: Address = Address::V4(0x0a00_0000);

const A1: Address = Address::V4(0x0a00_0001);

const A2: Address = Address::V4(0x0a00_0002);

const A3: Address = Address::V4(0x0a00_0003);

const A4: Address = Address::V4(0x0a00_0004);

const A5: Address = Address::V4(0x0a00_0005);

const L0: Address = Address::V6(0x2001_0db8_0000_0000_0000_0000_0000_0000);

const L1: Address = Address::V6(0x2001_0db8_0000_0000_0000_0000_0000_0001);

const L2: Address = Address::V6(0x2001_0db8_0000_0000_0000_0000_0000_0002);

const L3: Address = Address::V6(0x2001_0db8_0000_0000_0000_0000_0000_0003);

const FAR: Address = Address::V6(0x2001_0db8_0001_0000_0000_0000_0000_0001);

/// An address, and the node that it goes from and to.
type Went = (Address, Option<u32>, Option<u32>);

/// What is placed, and how.
#[derive(Clone, Copy)]
struct Case {
    able: &'static [u32],
    given: &'static [(Address, Option<u32>)],
    /// The nodes that the addresses stand at then.
    nodes: &'static [Option<u32>],
    moves: &'static [Went],
}

fn given(alloc: Global, table: &[(Address, Option<u32>)]) -> Result<Vec<Assigned>, Fail> {
    let mut at = Vec::new(alloc);
    for (address, node) in table {
        at.push(Assigned {
            address: *address,
            node: *node,
        })?;
    }
    Ok(at)
}

fn placed(alloc: Global, able: &[u32], at: Vec<Assigned>) -> Result<Placement, Fail> {
    if !do_ascend(&at) || at.len() > 256 {
        return Err(Fail::new("no ascending addresses"));
    }
    let able = Items::new(Vec::from_slice(alloc, able)?);
    Ok(place(
        alloc,
        &Addresses {
            nodes: 16,
            able,
            at: Items::new(at),
        },
    )?)
}

fn are_at(at: &[Assigned], nodes: &[Option<u32>]) -> bool {
    let mut same = at.len() == nodes.len();
    for (assigned, node) in at.iter().zip(nodes) {
        same = same && assigned.node == *node;
    }
    same
}

fn is_move(done: &Move, wanted: Went) -> bool {
    let (address, source, target) = wanted;
    *done
        == Move {
            address,
            source,
            target,
        }
}

fn are_moves(done: &[Move], wanted: &[Went]) -> bool {
    let mut same = done.len() == wanted.len();
    for (done, wanted) in done.iter().zip(wanted) {
        same = same && is_move(done, *wanted);
    }
    same
}

/// Do the addresses stand at these nodes, after these moves?
fn stand(alloc: Global, case: Case) -> Result<bool, Fail> {
    let placement = placed(alloc, case.able, given(alloc, case.given)?)?;
    Ok(
        are_at(placement.at.as_slice(), case.nodes)
            && are_moves(placement.moves.as_slice(), case.moves),
    )
}

fn all_stand(alloc: Global, cases: &[Case]) -> Result<bool, Fail> {
    for case in cases {
        if !stand(alloc, *case)? {
            return Ok(false);
        }
    }
    Ok(true)
}

const DISTANCES: [(Address, Address, u32); 11] = [
    (A1, A1, 32),
    (A1, A0, 31),
    (A1, A2, 30),
    (A0, Address::V4(0x0a00_8000), 16),
    (Address::V4(0), Address::V4(0x8000_0000), 0),
    (L1, L1, 128),
    (L1, L2, 126),
    (
        L0,
        Address::V6(0x2001_0db8_0001_0000_0000_0000_0000_0000),
        47,
    ),
    (
        Address::V6(0),
        Address::V6(0x8000_0000_0000_0000_0000_0000_0000_0000),
        0,
    ),
    (Address::V4(5), Address::V6(5), 0),
    (Address::V6(5), Address::V4(5), 0),
];

#[test]
fn distances(rt: HostRuntime) {
    for (a, b, expected) in DISTANCES {
        assert!(rt; distance(a, b) == expected);
    }
}

#[test]
fn imbalances(rt: HostRuntime) {
    assert!(rt; imbalance(&[]) == 0);
    assert!(rt; imbalance(&[L1]) == 0);
    assert!(rt; imbalance(&[A1, A2, A3, A4]) == 5284);
    assert!(rt; imbalance(&[L1, L2]) == 15876);
    assert!(rt; imbalance(&[A1, L1, L2]) == 15876);
}

fn ascend(alloc: Global, first: Address, second: Address) -> Result<bool, Fail> {
    let at = given(alloc, &[(first, None), (second, Some(1))])?;
    Ok(do_ascend(&at))
}

#[test]
fn order_of_addresses(rt: HostRuntime) -> Result<(), Fail> {
    for (first, second, expected) in [
        (A2, L1, true),
        (L1, A2, false),
        (A2, A2, false),
        (A1, A2, true),
    ] {
        assert!(rt; ascend(rt.alloc(), first, second)? == expected);
    }
    Ok(())
}

/// The address with the least sum is placed first, and of equal ones the lower address at the lower node.
const WITHOUT_A_NODE: &[Case] = &[
    Case {
        able: &[0, 1],
        given: &[(A1, None), (A2, None), (A3, None), (A4, None)],
        nodes: &[Some(0), Some(1), Some(1), Some(0)],
        moves: &[
            (A1, None, Some(0)),
            (A2, None, Some(1)),
            (A4, None, Some(0)),
            (A3, None, Some(1)),
        ],
    },
    Case {
        able: &[0, 1],
        given: &[(A1, None), (L1, None), (L2, None)],
        nodes: &[Some(0), Some(0), Some(1)],
        moves: &[
            (A1, None, Some(0)),
            (L1, None, Some(0)),
            (L2, None, Some(1)),
        ],
    },
];

#[test]
fn addresses_with_no_node(rt: HostRuntime) -> Result<(), Fail> {
    assert!(rt; all_stand(rt.alloc(), WITHOUT_A_NODE)?);
    Ok(())
}

/// Addresses leave a node that is not able, where no other is able too; a node that lost all is no target.
const AWAY: &[Case] = &[
    Case {
        able: &[],
        given: &[(A1, Some(0)), (A2, None)],
        nodes: &[None, None],
        moves: &[(A1, Some(0), None)],
    },
    Case {
        able: &[0],
        given: &[(A1, Some(0)), (A2, Some(1))],
        nodes: &[Some(0), Some(0)],
        moves: &[(A2, Some(1), None), (A2, None, Some(0))],
    },
    Case {
        able: &[0, 1],
        given: &[(A1, Some(0)), (A2, Some(0)), (A3, Some(2)), (A4, Some(2))],
        nodes: &[Some(0), Some(0), Some(1), Some(1)],
        moves: &[
            (A3, Some(2), None),
            (A4, Some(2), None),
            (A3, None, Some(1)),
            (A4, None, Some(1)),
        ],
    },
];

#[test]
fn addresses_away(rt: HostRuntime) -> Result<(), Fail> {
    assert!(rt; all_stand(rt.alloc(), AWAY)?);
    Ok(())
}

/// The best move is made, and not the first that helps; of equal ones the lower address moves to the lower node.
const FROM_ONE_NODE: &[Case] = &[
    Case {
        able: &[0, 1],
        given: &[(A1, Some(0)), (A2, Some(0)), (A3, Some(0)), (A4, Some(0))],
        nodes: &[Some(1), Some(1), Some(0), Some(0)],
        moves: &[(A2, Some(0), Some(1)), (A1, Some(0), Some(1))],
    },
    Case {
        able: &[0, 1],
        given: &[(A1, Some(0)), (A2, Some(0))],
        nodes: &[Some(1), Some(0)],
        moves: &[(A1, Some(0), Some(1))],
    },
    Case {
        able: &[0, 1, 2],
        given: &[(L1, Some(0)), (L2, Some(0)), (L3, Some(0)), (FAR, Some(0))],
        nodes: &[Some(2), Some(1), Some(0), Some(0)],
        moves: &[(L2, Some(0), Some(1)), (L1, Some(0), Some(2))],
    },
];

#[test]
fn failback_from_one_node(rt: HostRuntime) -> Result<(), Fail> {
    assert!(rt; all_stand(rt.alloc(), FROM_ONE_NODE)?);
    Ok(())
}

/// The source with the greater imbalance is tried first, and a node that held an address at first is no target.
const SOURCES_AND_TARGETS: &[Case] = &[
    Case {
        able: &[0, 1, 2],
        given: &[
            (A1, Some(0)),
            (A2, Some(0)),
            (A3, Some(1)),
            (A4, Some(1)),
            (A5, Some(1)),
        ],
        nodes: &[Some(2), Some(0), Some(1), Some(2), Some(1)],
        moves: &[(A4, Some(1), Some(2)), (A1, Some(0), Some(2))],
    },
    Case {
        able: &[0, 1],
        given: &[(A1, Some(0)), (A2, Some(0)), (A3, Some(0)), (A4, Some(1))],
        nodes: &[Some(0), Some(0), Some(0), Some(1)],
        moves: &[],
    },
    Case {
        able: &[0, 1],
        given: &[(A1, Some(0)), (L1, Some(0))],
        nodes: &[Some(0), Some(0)],
        moves: &[],
    },
];

#[test]
fn sources_and_targets(rt: HostRuntime) -> Result<(), Fail> {
    assert!(rt; all_stand(rt.alloc(), SOURCES_AND_TARGETS)?);
    Ok(())
}
