//! Deleted records are removed.
use crate::feeding::plays;
use crate::rows::{Asks, Comes, Does, Gives, Made, Row, Says, Way};
use ct_frame::frame::CallKind;
use ct_values::config::DbKind;
use std::test::Fail;

const MADE: Made = Made {
    nodes: 3,
    dbs: &[("t", DbKind::Volatile)],
    addresses: &[],
};

/// All other nodes store the empty value, and then forget their copies.
const A_LOCATION_MASTER_REMOVES_A_RECORD: [Row; 10] = [
    (
        Comes::Arrive(1, 0, Says::Call(1, "a", 1, CallKind::Lock)),
        &[Does::Send(1, 1, Says::Recall(1, "a", 0, 0, 1, CallKind::Lock))],
    ),
    (
        Comes::Arrive(1, 1, Says::Recall(1, "a", 0, 0, 1, CallKind::Lock)),
        &[Does::Send(1, 1, Says::Give(1, "a", 0, ""))],
    ),
    (
        Comes::Arrive(1, 1, Says::Give(1, "a", 0, "")),
        &[Does::Send(1, 0, Says::Pass(1, "a", 1, 0, ""))],
    ),
    (Comes::Arrive(1, 0, Says::Give(1, "a", 1, "")), &[]),
    (
        Comes::Vacuum(1),
        &[
            Does::Send(1, 0, Says::VStore(1, "a", 2)),
            Does::Send(1, 2, Says::VStore(1, "a", 2)),
        ],
    ),
    (Comes::Arrive(1, 0, Says::VStored(1, "a", 2)), &[]),
    (
        Comes::Arrive(1, 2, Says::VStored(1, "a", 2)),
        &[
            Does::Send(1, 0, Says::VDelete(1, "a", 2)),
            Does::Send(1, 2, Says::VDelete(1, "a", 2)),
        ],
    ),
    (Comes::Arrive(1, 0, Says::VDeleted(1, "a", 2)), &[]),
    (
        Comes::Arrive(1, 2, Says::VDeleted(1, "a", 2)),
        &[Does::Vacuumed(1, "a")],
    ),
    (
        Comes::Client(5, Asks::Lock(1, "a")),
        &[Does::Answer(5, Gives::Locked(""))],
    ),
];

#[test]
fn a_location_master_removes_a_record(rt: HostRuntime) -> Result<(), Fail> {
    plays(
        rt.alloc(),
        MADE,
        1,
        &A_LOCATION_MASTER_REMOVES_A_RECORD,
        Way::Step,
        &[],
    )
}

/// The data master gives the record back, stores the empty value, and forgets it.
const A_NODE_GIVES_A_DELETED_RECORD_BACK: [Row; 8] = [
    (
        Comes::Client(1, Asks::Lock(1, "a")),
        &[Does::Send(1, 1, Says::Call(1, "a", 1, CallKind::Lock))],
    ),
    (
        Comes::Arrive(1, 1, Says::Pass(1, "a", 1, 0, "")),
        &[Does::Answer(1, Gives::Locked(""))],
    ),
    (
        Comes::Client(2, Asks::Store(1, "a", "x")),
        &[Does::Answer(2, Gives::Stored)],
    ),
    (
        Comes::Client(3, Asks::Store(1, "a", "")),
        &[Does::Answer(3, Gives::Stored)],
    ),
    (
        Comes::Client(4, Asks::Unlock(1, "a")),
        &[Does::Answer(4, Gives::Unlocked)],
    ),
    (
        Comes::Vacuum(1),
        &[Does::Send(1, 1, Says::Give(1, "a", 1, ""))],
    ),
    (
        Comes::Arrive(1, 1, Says::VStore(1, "a", 2)),
        &[Does::Send(1, 1, Says::VStored(1, "a", 2))],
    ),
    (
        Comes::Arrive(1, 1, Says::VDelete(1, "a", 2)),
        &[Does::Send(1, 1, Says::VDeleted(1, "a", 2))],
    ),
];

#[test]
fn a_node_gives_a_deleted_record_back(rt: HostRuntime) -> Result<(), Fail> {
    plays(
        rt.alloc(),
        MADE,
        0,
        &A_NODE_GIVES_A_DELETED_RECORD_BACK,
        Way::Step,
        &[],
    )
}
