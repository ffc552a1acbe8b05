//! Calls that are refused.
use crate::feeding::plays;
use crate::rows::{Asks, Comes, Does, Gives, Made, Row, Says, Way};
use ct_frame::frame::CallKind;
use ct_values::client::Why;
use ct_values::config::DbKind;
use std::test::Fail;

const MADE: Made = Made {
    nodes: 2,
    dbs: &[("t", DbKind::Volatile), ("b", DbKind::Persistent)],
    addresses: &[],
};

/// Each refusal that a node can give at once.
const WHY_CALLS_ARE_REFUSED: [Row; 16] = [
    (
        Comes::Client(1, Asks::Lock(1, "b")),
        &[Does::Answer(1, Gives::Locked(""))],
    ),
    (
        Comes::Client(2, Asks::Lock(1, "b")),
        &[Does::Answer(2, Gives::Refused(Why::AlreadyLocked))],
    ),
    (
        Comes::Client(3, Asks::Write(1, "b", "x")),
        &[Does::Answer(3, Gives::Refused(Why::AlreadyLocked))],
    ),
    (
        Comes::Client(4, Asks::Lock(2, "k")),
        &[Does::Answer(4, Gives::Refused(Why::WrongKind))],
    ),
    (
        Comes::Client(5, Asks::Store(1, "a", "x")),
        &[Does::Answer(5, Gives::Refused(Why::NotLocked))],
    ),
    (
        Comes::Client(6, Asks::Unlock(1, "a")),
        &[Does::Answer(6, Gives::Refused(Why::NotLocked))],
    ),
    (
        Comes::Client(7, Asks::Commit(1, &[("k", "v")])),
        &[Does::Answer(7, Gives::Refused(Why::WrongKind))],
    ),
    (
        Comes::Client(8, Asks::Commit(2, &[("k", "v")])),
        &[Does::Answer(8, Gives::Refused(Why::NotLocked))],
    ),
    (
        Comes::Client(9, Asks::Apply(1, "d", 9, "x")),
        &[Does::Answer(9, Gives::Refused(Why::NoSuchCall))],
    ),
    (
        Comes::Client(10, Asks::Lock(1, "a")),
        &[Does::Send(1, 1, Says::Call(1, "a", 1, CallKind::Lock))],
    ),
    (
        Comes::Client(11, Asks::Read(1, "a")),
        &[Does::Answer(11, Gives::Refused(Why::CallPending(10)))],
    ),
    (
        Comes::Client(12, Asks::Lock(0, "b")),
        &[Does::Answer(12, Gives::Locked(""))],
    ),
    (
        Comes::Arrive(1, 1, Says::Pass(1, "a", 1, 0, "")),
        &[Does::Answer(10, Gives::Locked(""))],
    ),
    (
        Comes::Client(13, Asks::Commit(2, &[("k", "v")])),
        &[Does::Send(1, 1, Says::PUpdate(2, 1, &[("k", "v")]))],
    ),
    (
        Comes::Client(14, Asks::Commit(2, &[("k", "w")])),
        &[Does::Answer(14, Gives::Refused(Why::CommitPending))],
    ),
    (
        Comes::Client(15, Asks::Unlock(0, "b")),
        &[Does::Answer(15, Gives::Refused(Why::CommitPending))],
    ),
];

#[test]
fn why_calls_are_refused(rt: HostRuntime) -> Result<(), Fail> {
    plays(rt.alloc(), MADE, 0, &WHY_CALLS_ARE_REFUSED, Way::Step, &[])
}
