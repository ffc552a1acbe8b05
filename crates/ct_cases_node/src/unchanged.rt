//! For want of memory a node changes nothing.
use crate::feeding::plays;
use crate::rows::{Asks, Comes, Does, Gives, Made, Row, Says, Way};
use ct_frame::frame::CallKind;
use ct_values::config::DbKind;
use std::test::Fail;

const MADE: Made = Made {
    nodes: 1,
    dbs: &[("t", DbKind::Volatile), ("b", DbKind::Persistent)],
    addresses: &[167772161],
};

const MADE_2: Made = Made {
    nodes: 3,
    dbs: &[("r", DbKind::ReadOnly), ("b", DbKind::Persistent)],
    addresses: &[],
};

/// Calls, a vacuum, a retry, a round and a takeover.
const EACH_KIND_OF_EVENT_AT_ONE_NODE: [Row; 24] = [
    (
        Comes::Client(1, Asks::Lock(1, "k")),
        &[Does::Answer(1, Gives::Locked(""))],
    ),
    (
        Comes::Client(2, Asks::Store(1, "k", "x")),
        &[Does::Answer(2, Gives::Stored)],
    ),
    (
        Comes::Client(3, Asks::Unlock(1, "k")),
        &[Does::Answer(3, Gives::Unlocked)],
    ),
    (
        Comes::Client(4, Asks::Write(1, "m", "y")),
        &[Does::Answer(4, Gives::Written)],
    ),
    (
        Comes::Client(5, Asks::Write(1, "m", "")),
        &[Does::Answer(5, Gives::Written)],
    ),
    (
        Comes::Client(6, Asks::Apply(1, "k", 1, "y")),
        &[Does::Answer(6, Gives::Applied("xy"))],
    ),
    (
        Comes::Client(7, Asks::Lock(0, "b")),
        &[Does::Answer(7, Gives::Locked(""))],
    ),
    (
        Comes::Client(8, Asks::Commit(2, &[("k", "v")])),
        &[Does::Answer(8, Gives::Committed(1))],
    ),
    (
        Comes::Client(9, Asks::Unlock(0, "b")),
        &[Does::Answer(9, Gives::Unlocked)],
    ),
    (Comes::Vacuum(1), &[Does::Vacuumed(1, "m")]),
    (Comes::Retry, &[]),
    (
        Comes::BeginRound(2, &[0]),
        &[Does::Send(2, 0, Says::Freeze(&[0]))],
    ),
    (
        Comes::Arrive(2, 0, Says::Freeze(&[0])),
        &[Does::Send(2, 0, Says::FreezeAck)],
    ),
    (
        Comes::Arrive(2, 0, Says::FreezeAck),
        &[Does::Send(2, 0, Says::Pull)],
    ),
    (
        Comes::Arrive(2, 0, Says::Pull),
        &[Does::Send(
            2,
            0,
            Says::PullReply(
                1,
                1,
                &[(0, "b", 0, "", Some(0)), (1, "k", 0, "xy", Some(0))],
                &[(2, 1, &[("k", "v")])],
                &[],
            ),
        )],
    ),
    (
        Comes::Arrive(
            2,
            0,
            Says::PullReply(
                1,
                1,
                &[(0, "b", 0, "", Some(0)), (1, "k", 0, "xy", Some(0))],
                &[(2, 1, &[("k", "v")])],
                &[],
            ),
        ),
        &[
            Does::Round(2, &[0], 1, 1),
            Does::Send(
                2,
                0,
                Says::Push(
                    &[0],
                    &[(0, "b", 0, "", Some(0)), (1, "k", 0, "xy", Some(0))],
                    &[(2, 1, &[("k", "v")])],
                    &[],
                ),
            ),
        ],
    ),
    (
        Comes::Arrive(
            2,
            0,
            Says::Push(
                &[0],
                &[(0, "b", 0, "", Some(0)), (1, "k", 0, "xy", Some(0))],
                &[(2, 1, &[("k", "v")])],
                &[],
            ),
        ),
        &[Does::Installed(2), Does::Send(2, 0, Says::PushAck)],
    ),
    (
        Comes::Arrive(2, 0, Says::PushAck),
        &[Does::Send(2, 0, Says::Thaw)],
    ),
    (Comes::Arrive(2, 0, Says::Thaw), &[Does::Thawed(2)]),
    (
        Comes::BeginTakeover(&[0]),
        &[Does::Send(2, 0, Says::Release(1, &[167772161]))],
    ),
    (
        Comes::Arrive(2, 0, Says::Release(1, &[167772161])),
        &[Does::Send(2, 0, Says::ReleaseAck(1))],
    ),
    (
        Comes::Arrive(2, 0, Says::ReleaseAck(1)),
        &[Does::Send(2, 0, Says::Take(1, &[(167772161, 0)]))],
    ),
    (
        Comes::Arrive(2, 0, Says::Take(1, &[(167772161, 0)])),
        &[Does::Took(167772161)],
    ),
    (
        Comes::Client(10, Asks::Read(2, "k")),
        &[Does::Answer(10, Gives::Read("v"))],
    ),
];

#[test]
fn each_kind_of_event_at_one_node(rt: HostRuntime) -> Result<(), Fail> {
    plays(
        rt.alloc(),
        MADE,
        0,
        &EACH_KIND_OF_EVENT_AT_ONE_NODE,
        Way::Plan,
        &[],
    )
}

/// Calls, messages of records and of a commit, retries, and the freeze that ends them.
const MESSAGES_OF_RECORDS: [Row; 16] = [
    (
        Comes::Client(1, Asks::Lock(1, "a")),
        &[Does::Answer(1, Gives::Locked(""))],
    ),
    (
        Comes::Client(2, Asks::Store(1, "a", "x")),
        &[Does::Answer(2, Gives::Stored)],
    ),
    (
        Comes::Client(3, Asks::Unlock(1, "a")),
        &[Does::Answer(3, Gives::Unlocked)],
    ),
    (
        Comes::Arrive(1, 0, Says::Call(1, "a", 1, CallKind::Read)),
        &[Does::Send(1, 1, Says::Recall(1, "a", 0, 0, 1, CallKind::Read))],
    ),
    (
        Comes::Arrive(1, 1, Says::Recall(1, "a", 0, 0, 1, CallKind::Read)),
        &[
            Does::Send(1, 0, Says::Grant(1, "a", 1, 0, "x")),
            Does::Send(1, 1, Says::Done(1, "a", 0, 1)),
        ],
    ),
    (Comes::Arrive(1, 1, Says::Done(1, "a", 0, 1)), &[]),
    (
        Comes::Client(5, Asks::Lock(1, "a")),
        &[Does::Send(1, 0, Says::Revoke(1, "a", 0))],
    ),
    (
        Comes::Client(6, Asks::Lock(1, "b")),
        &[Does::Send(1, 2, Says::Call(1, "b", 1, CallKind::Lock))],
    ),
    (
        Comes::Retry,
        &[
            Does::Send(1, 2, Says::Call(1, "b", 1, CallKind::Lock)),
            Does::Send(1, 0, Says::Revoke(1, "a", 0)),
        ],
    ),
    (
        Comes::Arrive(1, 0, Says::RevokeAck(1, "a", 0)),
        &[Does::Answer(5, Gives::Locked("x"))],
    ),
    (Comes::Arrive(1, 0, Says::RevokeAck(1, "a", 0)), &[]),
    (
        Comes::Client(7, Asks::Lock(0, "b")),
        &[Does::Send(1, 2, Says::Call(0, "b", 2, CallKind::Lock))],
    ),
    (
        Comes::Arrive(1, 2, Says::Pass(1, "b", 1, 0, "")),
        &[Does::Answer(6, Gives::Locked(""))],
    ),
    (
        Comes::Arrive(1, 2, Says::Pass(0, "b", 2, 0, "")),
        &[Does::Answer(7, Gives::Locked(""))],
    ),
    (
        Comes::Client(8, Asks::Commit(2, &[("k", "v")])),
        &[
            Does::Send(1, 0, Says::PUpdate(2, 1, &[("k", "v")])),
            Does::Send(1, 2, Says::PUpdate(2, 1, &[("k", "v")])),
        ],
    ),
    (
        Comes::Retry,
        &[
            Does::Send(1, 0, Says::PUpdate(2, 1, &[("k", "v")])),
            Does::Send(1, 2, Says::PUpdate(2, 1, &[("k", "v")])),
        ],
    ),
];

#[test]
fn messages_of_records(rt: HostRuntime) -> Result<(), Fail> {
    plays(rt.alloc(), MADE_2, 1, &MESSAGES_OF_RECORDS, Way::Plan, &[])
}
