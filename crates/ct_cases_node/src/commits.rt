//! Persistent databases are written.
use crate::feeding::plays;
use crate::rows::{Asks, Comes, Does, Gives, Made, Row, Says, Shown, Way};
use ct_values::config::DbKind;
use std::test::Fail;

const MADE: Made = Made {
    nodes: 2,
    dbs: &[("b", DbKind::Persistent)],
    addresses: &[],
};

/// Its end is not known, and the lock ends.
const A_COMMIT_THAT_A_ROUND_ENDS: [Row; 6] = [
    (
        Comes::Client(1, Asks::Lock(0, "b")),
        &[Does::Answer(1, Gives::Locked(""))],
    ),
    (
        Comes::Client(2, Asks::Commit(1, &[("k", "v")])),
        &[Does::Send(1, 1, Says::PUpdate(1, 1, &[("k", "v")]))],
    ),
    (
        Comes::Arrive(2, 1, Says::Freeze(&[0, 1])),
        &[
            Does::Answer(2, Gives::Unsure(1, &[1])),
            Does::Ended(0, "b"),
            Does::Send(2, 1, Says::FreezeAck),
        ],
    ),
    (
        Comes::Arrive(2, 1, Says::Pull),
        &[Does::Send(
            2,
            1,
            Says::PullReply(
                1,
                1,
                &[(0, "b", 0, "", Some(0))],
                &[(1, 1, &[("k", "v")])],
                &[],
            ),
        )],
    ),
    (
        Comes::Arrive(
            2,
            1,
            Says::Push(
                &[0, 1],
                &[(0, "b", 0, "", Some(0))],
                &[(1, 1, &[("k", "v")])],
                &[],
            ),
        ),
        &[Does::Installed(2), Does::Send(2, 1, Says::PushAck)],
    ),
    (Comes::Arrive(2, 1, Says::Thaw), &[Does::Thawed(2)]),
];

#[test]
fn a_commit_that_a_round_ends(rt: HostRuntime) -> Result<(), Fail> {
    plays(
        rt.alloc(),
        MADE,
        0,
        &A_COMMIT_THAT_A_ROUND_ENDS,
        Way::Step,
        &[],
    )
}

/// It has the lock of the database, and its commit waits.
const A_NODE_THAT_COMMITS: Shown = Shown {
    db: 0,
    copies: &[("b", 0, 0, 0, "")],
    rows: &[(0, "b", 0, "", Some(0))],
    entries: &[(0, "b", 0, "", None)],
    waiting: &[(2, Asks::Commit(1, &[("k", "v")]), 1)],
};

#[test]
fn a_node_that_commits(rt: HostRuntime) -> Result<(), Fail> {
    plays(
        rt.alloc(),
        MADE,
        0,
        &A_COMMIT_THAT_A_ROUND_ENDS[..2],
        Way::Step,
        &[A_NODE_THAT_COMMITS],
    )
}
