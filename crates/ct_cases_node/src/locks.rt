//! A lock moves from node to node.
use crate::feeding::plays;
use crate::rows::{Asks, Comes, Does, Gives, Made, Row, Says, Shown, Way};
use ct_frame::frame::CallKind;
use ct_values::client::Why;
use ct_values::config::DbKind;
use std::test::Fail;

const MADE: Made = Made {
    nodes: 3,
    dbs: &[("t", DbKind::Volatile)],
    addresses: &[],
};

const MADE_2: Made = Made {
    nodes: 2,
    dbs: &[("t", DbKind::Volatile)],
    addresses: &[],
};

/// It locks the record, gives it up when it is recalled, and refuses what comes late.
const A_NODE_THAT_HAS_THE_LOCK_TWICE: [Row; 7] = [
    (
        Comes::Client(1, Asks::Lock(1, "a")),
        &[Does::Send(1, 1, Says::Call(1, "a", 1, CallKind::Lock))],
    ),
    (
        Comes::Arrive(1, 1, Says::Pass(1, "a", 1, 0, "")),
        &[Does::Answer(1, Gives::Locked(""))],
    ),
    (
        Comes::Client(2, Asks::Store(1, "a", "x")),
        &[Does::Answer(2, Gives::Stored)],
    ),
    (
        Comes::Client(3, Asks::Unlock(1, "a")),
        &[Does::Answer(3, Gives::Unlocked)],
    ),
    (
        Comes::Arrive(1, 1, Says::Recall(1, "a", 1, 2, 1, CallKind::Lock)),
        &[Does::Send(1, 1, Says::Give(1, "a", 1, "x"))],
    ),
    (Comes::Arrive(1, 1, Says::Pass(1, "a", 1, 0, "")), &[]),
    (
        Comes::Arrive(1, 1, Says::Pass(1, "a", 1, 2, "x")),
        &[Does::Send(1, 1, Says::Refuse(1, "a", 1, 2))],
    ),
];

#[test]
fn a_node_that_has_the_lock_twice(rt: HostRuntime) -> Result<(), Fail> {
    plays(
        rt.alloc(),
        MADE,
        0,
        &A_NODE_THAT_HAS_THE_LOCK_TWICE,
        Way::Step,
        &[],
    )
}

/// The location master recalls the record and passes it on.
const A_LOCATION_MASTER_PASSES_A_RECORD_ON: [Row; 8] = [
    (
        Comes::Arrive(1, 0, Says::Call(1, "a", 1, CallKind::Lock)),
        &[Does::Send(1, 1, Says::Recall(1, "a", 0, 0, 1, CallKind::Lock))],
    ),
    (
        Comes::Arrive(1, 1, Says::Recall(1, "a", 0, 0, 1, CallKind::Lock)),
        &[Does::Send(1, 1, Says::Give(1, "a", 0, ""))],
    ),
    (
        Comes::Arrive(1, 1, Says::Give(1, "a", 0, "")),
        &[Does::Send(1, 0, Says::Pass(1, "a", 1, 0, ""))],
    ),
    (
        Comes::Arrive(1, 2, Says::Call(1, "a", 1, CallKind::Lock)),
        &[Does::Send(1, 0, Says::Recall(1, "a", 1, 2, 1, CallKind::Lock))],
    ),
    (
        Comes::Arrive(1, 0, Says::Give(1, "a", 1, "x")),
        &[Does::Send(1, 2, Says::Pass(1, "a", 1, 1, "x"))],
    ),
    (
        Comes::Arrive(1, 0, Says::Call(1, "a", 1, CallKind::Lock)),
        &[Does::Send(1, 2, Says::Recall(1, "a", 2, 0, 1, CallKind::Lock))],
    ),
    (
        Comes::Arrive(1, 2, Says::Give(1, "a", 2, "x")),
        &[Does::Send(1, 0, Says::Pass(1, "a", 1, 2, "x"))],
    ),
    (Comes::Arrive(1, 0, Says::Refuse(1, "a", 1, 2)), &[]),
];

#[test]
fn a_location_master_passes_a_record_on(rt: HostRuntime) -> Result<(), Fail> {
    plays(
        rt.alloc(),
        MADE,
        1,
        &A_LOCATION_MASTER_PASSES_A_RECORD_ON,
        Way::Step,
        &[],
    )
}

/// At the opening nothing is kept of any key.
const A_NODE_AT_THE_OPENING: Shown = Shown {
    db: 1,
    copies: &[],
    rows: &[],
    entries: &[],
    waiting: &[],
};

#[test]
fn a_node_at_the_opening(rt: HostRuntime) -> Result<(), Fail> {
    plays(
        rt.alloc(),
        MADE,
        2,
        &[],
        Way::Step,
        &[A_NODE_AT_THE_OPENING],
    )
}

/// Its copy was given away, and its entry names who has the record.
const A_LOCATION_MASTER: Shown = Shown {
    db: 1,
    copies: &[("a", 0, 4294967295, 0, "")],
    rows: &[(1, "a", 0, "", None)],
    entries: &[(1, "a", 2, "x", None)],
    waiting: &[],
};

#[test]
fn a_location_master(rt: HostRuntime) -> Result<(), Fail> {
    plays(
        rt.alloc(),
        MADE,
        1,
        &A_LOCATION_MASTER_PASSES_A_RECORD_ON[..5],
        Way::Step,
        &[A_LOCATION_MASTER],
    )
}

/// It gets the record with what was stored, and gives it back when it comes again.
const A_NODE_THAT_LOCKS_LATER: [Row; 4] = [
    (
        Comes::Client(4, Asks::Lock(1, "a")),
        &[Does::Send(1, 1, Says::Call(1, "a", 1, CallKind::Lock))],
    ),
    (
        Comes::Arrive(1, 1, Says::Pass(1, "a", 1, 1, "x")),
        &[Does::Answer(4, Gives::Locked("x"))],
    ),
    (
        Comes::Client(5, Asks::Unlock(1, "a")),
        &[Does::Answer(5, Gives::Unlocked)],
    ),
    (
        Comes::Arrive(1, 1, Says::Recall(1, "a", 2, 0, 1, CallKind::Lock)),
        &[Does::Send(1, 1, Says::Give(1, "a", 2, "x"))],
    ),
];

#[test]
fn a_node_that_locks_later(rt: HostRuntime) -> Result<(), Fail> {
    plays(
        rt.alloc(),
        MADE,
        2,
        &A_NODE_THAT_LOCKS_LATER,
        Way::Step,
        &[],
    )
}

/// A function that no node has is refused. One that waited is applied once.
const A_FUNCTION_IS_APPLIED_ONCE: [Row; 5] = [
    (
        Comes::Client(1, Asks::Apply(1, "b", 9, "x")),
        &[Does::Answer(1, Gives::Refused(Why::NoSuchCall))],
    ),
    (
        Comes::Client(2, Asks::Apply(1, "b", 1, "x")),
        &[Does::Send(1, 0, Says::Call(1, "b", 1, CallKind::Lock))],
    ),
    (
        Comes::Arrive(1, 0, Says::Pass(1, "b", 1, 0, "")),
        &[Does::Answer(2, Gives::Applied("x"))],
    ),
    (Comes::Arrive(1, 0, Says::Pass(1, "b", 1, 0, "")), &[]),
    (
        Comes::Client(3, Asks::Read(1, "b")),
        &[Does::Answer(3, Gives::Read("x"))],
    ),
];

#[test]
fn a_function_is_applied_once(rt: HostRuntime) -> Result<(), Fail> {
    plays(
        rt.alloc(),
        MADE_2,
        1,
        &A_FUNCTION_IS_APPLIED_ONCE,
        Way::Step,
        &[],
    )
}

/// What was lost is sent again.
const A_CALL_IS_SENT_AGAIN: [Row; 3] = [
    (
        Comes::Client(1, Asks::Lock(1, "b")),
        &[Does::Send(1, 0, Says::Call(1, "b", 1, CallKind::Lock))],
    ),
    (
        Comes::Retry,
        &[Does::Send(1, 0, Says::Call(1, "b", 1, CallKind::Lock))],
    ),
    (
        Comes::Arrive(1, 0, Says::Pass(1, "b", 1, 0, "")),
        &[Does::Answer(1, Gives::Locked(""))],
    ),
];

#[test]
fn a_call_is_sent_again(rt: HostRuntime) -> Result<(), Fail> {
    plays(rt.alloc(), MADE_2, 1, &A_CALL_IS_SENT_AGAIN, Way::Step, &[])
}
