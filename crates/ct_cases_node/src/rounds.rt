//! Nodes recover.
use crate::feeding::plays;
use crate::rows::{Asks, Comes, Does, Gives, Made, Row, Says, Way};
use ct_values::client::Why;
use ct_values::config::DbKind;
use std::test::Fail;

const MADE: Made = Made {
    nodes: 1,
    dbs: &[("t", DbKind::Volatile)],
    addresses: &[],
};

/// After a stop nothing of the generation is known, and what comes late is dropped.
const A_NODE_ALONE_RECOVERS_AND_STOPS: [Row; 16] = [
    (
        Comes::Client(1, Asks::Lock(1, "k")),
        &[Does::Answer(1, Gives::Locked(""))],
    ),
    (
        Comes::Client(2, Asks::Store(1, "k", "x")),
        &[Does::Answer(2, Gives::Stored)],
    ),
    (
        Comes::Client(3, Asks::Unlock(1, "k")),
        &[Does::Answer(3, Gives::Unlocked)],
    ),
    (
        Comes::BeginRound(2, &[0]),
        &[Does::Send(2, 0, Says::Freeze(&[0]))],
    ),
    (
        Comes::Arrive(2, 0, Says::Freeze(&[0])),
        &[Does::Send(2, 0, Says::FreezeAck)],
    ),
    (
        Comes::Arrive(2, 0, Says::FreezeAck),
        &[Does::Send(2, 0, Says::Pull)],
    ),
    (
        Comes::Arrive(2, 0, Says::Pull),
        &[Does::Send(
            2,
            0,
            Says::PullReply(1, 1, &[(1, "k", 0, "x", Some(0))], &[], &[]),
        )],
    ),
    (
        Comes::Arrive(
            2,
            0,
            Says::PullReply(1, 1, &[(1, "k", 0, "x", Some(0))], &[], &[]),
        ),
        &[
            Does::Round(2, &[0], 1, 1),
            Does::Send(
                2,
                0,
                Says::Push(&[0], &[(1, "k", 0, "x", Some(0))], &[], &[]),
            ),
        ],
    ),
    (
        Comes::Arrive(
            2,
            0,
            Says::Push(&[0], &[(1, "k", 0, "x", Some(0))], &[], &[]),
        ),
        &[Does::Installed(2), Does::Send(2, 0, Says::PushAck)],
    ),
    (
        Comes::Arrive(2, 0, Says::PushAck),
        &[Does::Send(2, 0, Says::Thaw)],
    ),
    (Comes::Arrive(2, 0, Says::Thaw), &[Does::Thawed(2)]),
    (Comes::Restart, &[]),
    (Comes::Arrive(2, 0, Says::Freeze(&[0])), &[]),
    (
        Comes::Arrive(
            2,
            0,
            Says::Push(&[0], &[(1, "k", 0, "x", Some(0))], &[], &[]),
        ),
        &[],
    ),
    (Comes::Arrive(2, 0, Says::Thaw), &[]),
    (
        Comes::Client(4, Asks::Lock(1, "k")),
        &[Does::Answer(4, Gives::Refused(Why::NotServing))],
    ),
];

#[test]
fn a_node_alone_recovers_and_stops(rt: HostRuntime) -> Result<(), Fail> {
    plays(
        rt.alloc(),
        MADE,
        0,
        &A_NODE_ALONE_RECOVERS_AND_STOPS,
        Way::Step,
        &[],
    )
}
