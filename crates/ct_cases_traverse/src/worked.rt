//! Worked traverses.
use crate::playing::{Call, Row, Turn, plays};
use ct_traverse_parts::line::TPending;
use std::test::Fail;

const WHOLE: [Row; 4] = [
    (Turn::Write(0, "b", "x"), ""),
    (Turn::Write(1, "a", "y"), ""),
    (
        Turn::Calls(Call::Begin(0, 1)),
        "tframe 1 0 0 1 ask 1 copies\ntframe 2 0 1 1 ask 1 copies\n",
    ),
    (
        Turn::Walk(9),
        "tframe 3 0 0 1 rows 1 copies 1\ntframe 4 1 0 1 rows 1 copies 1\ntframe 5 0 0 1 ask 1 entries\ntframe 6 0 1 1 ask 1 entries\ntframe 7 0 0 1 rows 1 entries 1\ntframe 8 1 0 1 rows 1 entries 1\nkey=a data=y\nkey=b data=x\nDumped 2 records\n",
    ),
];

const OLDER: [Row; 8] = [
    (Turn::Write(0, "b", "x"), ""),
    (Turn::Write(1, "a", "y"), ""),
    (
        Turn::Calls(Call::Begin(0, 1)),
        "tframe 1 0 0 1 ask 1 copies\ntframe 2 0 1 1 ask 1 copies\n",
    ),
    (
        Turn::Calls(Call::Carry(1)),
        "tframe 3 0 0 1 rows 1 copies 1\n",
    ),
    (Turn::Lock(0, "a"), ""),
    (Turn::Settle(9), ""),
    (Turn::Store(0, "a", "z"), ""),
    (
        Turn::Walk(9),
        "tframe 4 1 0 1 rows 1 copies 1\ntframe 5 0 0 1 ask 1 entries\ntframe 6 0 1 1 ask 1 entries\ntframe 7 0 0 1 rows 1 entries 1\ntframe 8 1 0 1 rows 1 entries 1\nkey=a data=y\nkey=b data=x\nDumped 2 records\n",
    ),
];

const VACUUMED: [Row; 8] = [
    (Turn::Write(0, "b", "x"), ""),
    (
        Turn::Calls(Call::Begin(0, 1)),
        "tframe 1 0 0 1 ask 1 copies\ntframe 2 0 1 1 ask 1 copies\n",
    ),
    (
        Turn::Calls(Call::Carry(1)),
        "tframe 3 0 0 1 rows 1 copies 1\n",
    ),
    (
        Turn::Calls(Call::Carry(2)),
        "tframe 4 1 0 1 rows 1 copies 0\n",
    ),
    (Turn::Write(0, "b", ""), ""),
    (Turn::Vacuum(0), ""),
    (Turn::Settle(9), ""),
    (
        Turn::Walk(9),
        "tframe 5 0 0 1 ask 1 entries\ntframe 6 0 1 1 ask 1 entries\ntframe 7 0 0 1 rows 1 entries 0\ntframe 8 1 0 1 rows 1 entries 0\nDumped 0 records\n",
    ),
];

const RECOVERED: [Row; 6] = [
    (Turn::Write(0, "b", "x"), ""),
    (
        Turn::Calls(Call::Begin(1, 1)),
        "tframe 1 1 0 1 ask 1 copies\ntframe 2 1 1 1 ask 1 copies\n",
    ),
    (
        Turn::Walk(3),
        "tframe 3 0 1 1 rows 1 copies 1\ntframe 4 1 1 1 rows 1 copies 0\n",
    ),
    (Turn::Recover(0), ""),
    (Turn::Settle(99), "traverse 1 ended\n"),
    (Turn::Walk(9), "tlost 4\n"),
];

const AGAIN: [Row; 7] = [
    (
        Turn::Calls(Call::Begin(0, 1)),
        "tframe 1 0 0 1 ask 1 copies\ntframe 2 0 1 1 ask 1 copies\n",
    ),
    (
        Turn::Calls(Call::Carry(2)),
        "tframe 3 1 0 1 rows 1 copies 0\n",
    ),
    (Turn::Stop(1), ""),
    (Turn::Calls(Call::Again(2)), "tlost 2\n"),
    (Turn::Calls(Call::Again(2)), "tlost 2\n"),
    (Turn::Calls(Call::Carry(3)), ""),
    (
        Turn::Walk(9),
        "tframe 4 0 0 1 rows 1 copies 0\ntframe 5 0 0 1 ask 1 entries\ntframe 6 0 1 1 ask 1 entries\ntframe 7 0 0 1 rows 1 entries 0\ntlost 6\n",
    ),
];

const NONE: [TPending; 0] = [];

const ONE_WAITS: [TPending; 1] = [TPending {
    traverse: 1,
    node: 0,
    db: 1,
}];

#[test]
fn a_whole_database_is_shown(rt: HostRuntime) -> Result<(), Fail> {
    plays(rt.alloc(), 2, &WHOLE, &NONE)
}

#[test]
fn an_older_reading_is_shown(rt: HostRuntime) -> Result<(), Fail> {
    plays(rt.alloc(), 2, &OLDER, &NONE)
}

#[test]
fn a_vacuumed_record_is_not_shown(rt: HostRuntime) -> Result<(), Fail> {
    plays(rt.alloc(), 2, &VACUUMED, &NONE)
}

#[test]
fn a_recovery_ends_a_traverse(rt: HostRuntime) -> Result<(), Fail> {
    plays(rt.alloc(), 2, &RECOVERED, &NONE)
}

#[test]
fn a_question_comes_again(rt: HostRuntime) -> Result<(), Fail> {
    plays(rt.alloc(), 2, &AGAIN, &ONE_WAITS)
}
