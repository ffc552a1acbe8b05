//! Read-only copies are handed out and called in.
use crate::feeding::plays;
use crate::rows::{Asks, Comes, Does, Gives, Made, Row, Says, Shown, Way};
use ct_frame::frame::CallKind;
use ct_values::config::DbKind;
use std::test::Fail;

const MADE: Made = Made {
    nodes: 3,
    dbs: &[("r", DbKind::ReadOnly)],
    addresses: &[],
};

/// The data master hands out two copies, and calls both in before it locks.
const COPIES_ARE_CALLED_IN_BEFORE_A_LOCK: [Row; 17] = [
    (
        Comes::Client(1, Asks::Lock(1, "a")),
        &[Does::Answer(1, Gives::Locked(""))],
    ),
    (
        Comes::Client(2, Asks::Store(1, "a", "x")),
        &[Does::Answer(2, Gives::Stored)],
    ),
    (
        Comes::Client(3, Asks::Unlock(1, "a")),
        &[Does::Answer(3, Gives::Unlocked)],
    ),
    (
        Comes::Arrive(1, 0, Says::Call(1, "a", 1, CallKind::Read)),
        &[Does::Send(1, 1, Says::Recall(1, "a", 0, 0, 1, CallKind::Read))],
    ),
    (
        Comes::Arrive(1, 2, Says::Call(1, "a", 1, CallKind::Read)),
        &[],
    ),
    (
        Comes::Arrive(1, 1, Says::Recall(1, "a", 0, 0, 1, CallKind::Read)),
        &[
            Does::Send(1, 0, Says::Grant(1, "a", 1, 0, "x")),
            Does::Send(1, 1, Says::Done(1, "a", 0, 1)),
        ],
    ),
    (
        Comes::Arrive(1, 1, Says::Done(1, "a", 0, 1)),
        &[Does::Send(1, 1, Says::Recall(1, "a", 0, 2, 1, CallKind::Read))],
    ),
    (
        Comes::Arrive(1, 1, Says::Recall(1, "a", 0, 2, 1, CallKind::Read)),
        &[
            Does::Send(1, 2, Says::Grant(1, "a", 1, 0, "x")),
            Does::Send(1, 1, Says::Done(1, "a", 2, 1)),
        ],
    ),
    (Comes::Arrive(1, 1, Says::Done(1, "a", 2, 1)), &[]),
    (
        Comes::Client(6, Asks::Lock(1, "a")),
        &[
            Does::Send(1, 0, Says::Revoke(1, "a", 0)),
            Does::Send(1, 2, Says::Revoke(1, "a", 0)),
        ],
    ),
    (Comes::Arrive(1, 0, Says::RevokeAck(1, "a", 0)), &[]),
    (
        Comes::Arrive(1, 2, Says::RevokeAck(1, "a", 0)),
        &[Does::Answer(6, Gives::Locked("x"))],
    ),
    (
        Comes::Client(8, Asks::Store(1, "a", "y")),
        &[Does::Answer(8, Gives::Stored)],
    ),
    (
        Comes::Client(9, Asks::Unlock(1, "a")),
        &[Does::Answer(9, Gives::Unlocked)],
    ),
    (
        Comes::Arrive(1, 0, Says::Call(1, "a", 2, CallKind::Read)),
        &[Does::Send(1, 1, Says::Recall(1, "a", 0, 0, 2, CallKind::Read))],
    ),
    (
        Comes::Arrive(1, 1, Says::Recall(1, "a", 0, 0, 2, CallKind::Read)),
        &[
            Does::Send(1, 0, Says::Grant(1, "a", 2, 1, "y")),
            Does::Send(1, 1, Says::Done(1, "a", 0, 2)),
        ],
    ),
    (Comes::Arrive(1, 1, Says::Done(1, "a", 0, 2)), &[]),
];

#[test]
fn copies_are_called_in_before_a_lock(rt: HostRuntime) -> Result<(), Fail> {
    plays(
        rt.alloc(),
        MADE,
        1,
        &COPIES_ARE_CALLED_IN_BEFORE_A_LOCK,
        Way::Step,
        &[],
    )
}

/// Its copy says that others were handed out, and its entry is its own.
const A_DATA_MASTER_OF_COPIES: Shown = Shown {
    db: 1,
    copies: &[("a", 0, 1, 5, "x")],
    rows: &[(1, "a", 0, "x", Some(1))],
    entries: &[(1, "a", 0, "", None)],
    waiting: &[(6, Asks::Lock(1, "a"), 0)],
};

#[test]
fn a_data_master_of_copies(rt: HostRuntime) -> Result<(), Fail> {
    plays(
        rt.alloc(),
        MADE,
        1,
        &COPIES_ARE_CALLED_IN_BEFORE_A_LOCK[..10],
        Way::Step,
        &[A_DATA_MASTER_OF_COPIES],
    )
}

/// A copy that was called in before it came is asked for anew.
const A_COPY_IS_CALLED_IN_WHILE_IT_IS_ON_ITS_WAY: [Row; 3] = [
    (
        Comes::Client(4, Asks::Read(1, "a")),
        &[Does::Send(1, 1, Says::Call(1, "a", 1, CallKind::Read))],
    ),
    (
        Comes::Arrive(1, 1, Says::Revoke(1, "a", 0)),
        &[
            Does::Send(1, 1, Says::RevokeAck(1, "a", 0)),
            Does::Send(1, 1, Says::Call(1, "a", 2, CallKind::Read)),
        ],
    ),
    (Comes::Arrive(1, 1, Says::Grant(1, "a", 1, 0, "x")), &[]),
];

#[test]
fn a_copy_is_called_in_while_it_is_on_its_way(rt: HostRuntime) -> Result<(), Fail> {
    plays(
        rt.alloc(),
        MADE,
        0,
        &A_COPY_IS_CALLED_IN_WHILE_IT_IS_ON_ITS_WAY,
        Way::Step,
        &[],
    )
}

/// It has no copy any more, and its read waits.
const A_NODE_THAT_READS: Shown = Shown {
    db: 1,
    copies: &[],
    rows: &[],
    entries: &[],
    waiting: &[(4, Asks::Read(1, "a"), 0)],
};

#[test]
fn a_node_that_reads(rt: HostRuntime) -> Result<(), Fail> {
    plays(
        rt.alloc(),
        MADE,
        0,
        &A_COPY_IS_CALLED_IN_WHILE_IT_IS_ON_ITS_WAY,
        Way::Step,
        &[A_NODE_THAT_READS],
    )
}
