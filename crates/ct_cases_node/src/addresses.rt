//! Addresses are placed anew.
use crate::feeding::plays;
use crate::rows::{Asks, Comes, Does, Gives, Made, Row, Says, Way};
use ct_frame::frame::CallKind;
use ct_values::config::DbKind;
use std::test::Fail;

const MADE: Made = Made {
    nodes: 3,
    dbs: &[
        ("locking.tdb", DbKind::Volatile),
        ("secrets.tdb", DbKind::Persistent),
    ],
    addresses: &[167772161, 167772162, 167772163],
};

/// It leads a round and a takeover of three nodes, takes its address, reads, and gives the address up in a takeover of the
/// others.
const A_LEADER_PLACES_ADDRESSES: [Row; 26] = [
    (
        Comes::BeginRound(2, &[0, 1, 2]),
        &[
            Does::Send(2, 0, Says::Freeze(&[0, 1, 2])),
            Does::Send(2, 1, Says::Freeze(&[0, 1, 2])),
            Does::Send(2, 2, Says::Freeze(&[0, 1, 2])),
        ],
    ),
    (
        Comes::Arrive(2, 0, Says::Freeze(&[0, 1, 2])),
        &[Does::Send(2, 0, Says::FreezeAck)],
    ),
    (Comes::Arrive(2, 0, Says::FreezeAck), &[]),
    (Comes::Arrive(2, 1, Says::FreezeAck), &[]),
    (
        Comes::Arrive(2, 2, Says::FreezeAck),
        &[
            Does::Send(2, 0, Says::Pull),
            Does::Send(2, 1, Says::Pull),
            Does::Send(2, 2, Says::Pull),
        ],
    ),
    (
        Comes::Arrive(2, 0, Says::Pull),
        &[Does::Send(2, 0, Says::PullReply(1, 1, &[], &[(2, 0, &[])], &[]))],
    ),
    (
        Comes::Arrive(2, 0, Says::PullReply(1, 1, &[], &[(2, 0, &[])], &[])),
        &[],
    ),
    (
        Comes::Arrive(2, 1, Says::PullReply(1, 1, &[], &[(2, 0, &[])], &[])),
        &[],
    ),
    (
        Comes::Arrive(2, 2, Says::PullReply(1, 1, &[], &[(2, 0, &[])], &[])),
        &[
            Does::Round(2, &[0, 1, 2], 1, 1),
            Does::Send(2, 0, Says::Push(&[0, 1, 2], &[], &[(2, 0, &[])], &[])),
            Does::Send(2, 1, Says::Push(&[0, 1, 2], &[], &[(2, 0, &[])], &[])),
            Does::Send(2, 2, Says::Push(&[0, 1, 2], &[], &[(2, 0, &[])], &[])),
        ],
    ),
    (
        Comes::Arrive(2, 0, Says::Push(&[0, 1, 2], &[], &[(2, 0, &[])], &[])),
        &[Does::Installed(2), Does::Send(2, 0, Says::PushAck)],
    ),
    (Comes::Arrive(2, 0, Says::PushAck), &[]),
    (Comes::Arrive(2, 1, Says::PushAck), &[]),
    (
        Comes::Arrive(2, 2, Says::PushAck),
        &[
            Does::Send(2, 0, Says::Thaw),
            Does::Send(2, 1, Says::Thaw),
            Does::Send(2, 2, Says::Thaw),
        ],
    ),
    (Comes::Arrive(2, 0, Says::Thaw), &[Does::Thawed(2)]),
    (
        Comes::BeginTakeover(&[0, 1, 2]),
        &[
            Does::Send(2, 0, Says::Release(1, &[167772161])),
            Does::Send(2, 1, Says::Release(1, &[167772162])),
            Does::Send(2, 2, Says::Release(1, &[167772163])),
        ],
    ),
    (
        Comes::Arrive(2, 0, Says::Release(1, &[167772161])),
        &[Does::Send(2, 0, Says::ReleaseAck(1))],
    ),
    (Comes::Arrive(2, 0, Says::ReleaseAck(1)), &[]),
    (Comes::Arrive(2, 1, Says::ReleaseAck(1)), &[]),
    (
        Comes::Arrive(2, 2, Says::ReleaseAck(1)),
        &[
            Does::Send(
                2,
                0,
                Says::Take(1, &[(167772161, 0), (167772162, 1), (167772163, 2)]),
            ),
            Does::Send(
                2,
                1,
                Says::Take(1, &[(167772161, 0), (167772162, 1), (167772163, 2)]),
            ),
            Does::Send(
                2,
                2,
                Says::Take(1, &[(167772161, 0), (167772162, 1), (167772163, 2)]),
            ),
        ],
    ),
    (
        Comes::Arrive(
            2,
            0,
            Says::Take(1, &[(167772161, 0), (167772162, 1), (167772163, 2)]),
        ),
        &[Does::Took(167772161)],
    ),
    (
        Comes::Arrive(2, 2, Says::PUpdate(2, 1, &[("SID", "S-1-5")])),
        &[Does::Send(2, 2, Says::PAck(2, 1))],
    ),
    (
        Comes::Client(5, Asks::Read(1, "file1")),
        &[Does::Send(2, 2, Says::Call(1, "file1", 1, CallKind::Lock))],
    ),
    (
        Comes::Arrive(2, 2, Says::Pass(1, "file1", 1, 1, "open")),
        &[Does::Answer(5, Gives::Read("open"))],
    ),
    (
        Comes::Client(6, Asks::Read(2, "SID")),
        &[Does::Answer(6, Gives::Read("S-1-5"))],
    ),
    (
        Comes::BeginTakeover(&[1, 2]),
        &[
            Does::Send(2, 0, Says::Release(2, &[])),
            Does::Send(2, 1, Says::Release(2, &[167772161, 167772162])),
            Does::Send(2, 2, Says::Release(2, &[167772163])),
        ],
    ),
    (
        Comes::Arrive(2, 0, Says::Release(2, &[])),
        &[
            Does::Released(167772161),
            Does::Send(2, 0, Says::ReleaseAck(2)),
        ],
    ),
];

#[test]
fn a_leader_places_addresses(rt: HostRuntime) -> Result<(), Fail> {
    plays(
        rt.alloc(),
        MADE,
        0,
        &A_LEADER_PLACES_ADDRESSES,
        Way::Step,
        &[],
    )
}
