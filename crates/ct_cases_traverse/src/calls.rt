//! One call of traverses after the other.
use crate::playing::{Call, Row, Turn, plays};
use ct_traverse_parts::line::TPending;
use std::test::Fail;

const ONE_NODE_IS_ASKED: [Row; 9] = [
    (Turn::Calls(Call::After), ""),
    (Turn::Walk(3), ""),
    (Turn::Write(0, "b", "x"), ""),
    (
        Turn::Calls(Call::Begin(0, 1)),
        "tframe 1 0 0 1 ask 1 copies\n",
    ),
    (
        Turn::Calls(Call::Carry(1)),
        "tframe 2 0 0 1 rows 1 copies 1\n",
    ),
    (
        Turn::Calls(Call::Carry(2)),
        "tframe 3 0 0 1 ask 1 entries\n",
    ),
    (
        Turn::Calls(Call::Carry(3)),
        "tframe 4 0 0 1 rows 1 entries 1\n",
    ),
    (
        Turn::Calls(Call::Carry(4)),
        "key=b data=x\nDumped 1 records\n",
    ),
    (Turn::Calls(Call::After), ""),
];

const BEGINS_ARE_REFUSED: [Row; 8] = [
    (Turn::Calls(Call::Begin(2, 7)), "no node 2\n"),
    (Turn::Stop(1), ""),
    (Turn::Calls(Call::Begin(1, 7)), "node 1 is down\n"),
    (Turn::Calls(Call::Begin(0, 7)), "no database 7\n"),
    (Turn::Recover(0), ""),
    (Turn::Settle(1), ""),
    (Turn::Calls(Call::Begin(0, 7)), "no database 7\n"),
    (Turn::Calls(Call::Begin(0, 1)), "node 0 serves no clients\n"),
];

const NUMBERS_THAT_NOTHING_HAS: [Row; 12] = [
    (
        Turn::Calls(Call::Carry(1)),
        "no such message 1 of a traverse\n",
    ),
    (
        Turn::Calls(Call::Lose(0)),
        "no such message 0 of a traverse\n",
    ),
    (
        Turn::Calls(Call::Again(1)),
        "no such message 1 of a traverse\n",
    ),
    (
        Turn::Calls(Call::Begin(1, 0)),
        "tframe 1 1 0 1 ask 1 copies\ntframe 2 1 1 1 ask 1 copies\n",
    ),
    (
        Turn::Calls(Call::Again(1)),
        "no such message 1 of a traverse\n",
    ),
    (Turn::Calls(Call::Lose(1)), ""),
    (
        Turn::Calls(Call::Lose(1)),
        "no such message 1 of a traverse\n",
    ),
    (
        Turn::Calls(Call::Again(1)),
        "no such message 1 of a traverse\n",
    ),
    (Turn::Stop(1), "traverse 1 ended\n"),
    (Turn::Calls(Call::Carry(2)), "tlost 2\n"),
    (
        Turn::Calls(Call::Again(2)),
        "no such message 2 of a traverse\n",
    ),
    (
        Turn::Calls(Call::Carry(3)),
        "no such message 3 of a traverse\n",
    ),
];

/// Of a member the first rows count, and rows of the pass before do nothing.
const FIRST_ROWS_COUNT: [Row; 11] = [
    (Turn::Write(0, "b", "x"), ""),
    (
        Turn::Calls(Call::Begin(0, 1)),
        "tframe 1 0 0 1 ask 1 copies\ntframe 2 0 1 1 ask 1 copies\n",
    ),
    (
        Turn::Walk(2),
        "tframe 3 0 0 1 rows 1 copies 1\ntframe 4 1 0 1 rows 1 copies 0\n",
    ),
    (Turn::Write(0, "b", "y"), ""),
    (
        Turn::Calls(Call::Again(1)),
        "tframe 5 0 0 1 rows 1 copies 1\n",
    ),
    (Turn::Calls(Call::Carry(5)), ""),
    (Turn::Calls(Call::Carry(3)), ""),
    (
        Turn::Calls(Call::Carry(4)),
        "tframe 6 0 0 1 ask 1 entries\ntframe 7 0 1 1 ask 1 entries\n",
    ),
    (Turn::Calls(Call::Again(4)), ""),
    (
        Turn::Walk(9),
        "tframe 8 0 0 1 rows 1 entries 1\ntframe 9 1 0 1 rows 1 entries 0\nkey=b data=y\nDumped 1 records\n",
    ),
    (Turn::Calls(Call::Again(5)), "tlost 5\n"),
];

const NONE: [TPending; 0] = [];

const TWO_WAIT: [TPending; 2] = [
    TPending {
        traverse: 1,
        node: 1,
        db: 1,
    },
    TPending {
        traverse: 2,
        node: 0,
        db: 0,
    },
];

#[test]
fn one_node_is_asked(rt: HostRuntime) -> Result<(), Fail> {
    plays(rt.alloc(), 1, &ONE_NODE_IS_ASKED, &NONE)
}

#[test]
fn begins_are_refused(rt: HostRuntime) -> Result<(), Fail> {
    plays(rt.alloc(), 2, &BEGINS_ARE_REFUSED, &NONE)
}

#[test]
fn numbers_that_nothing_has(rt: HostRuntime) -> Result<(), Fail> {
    plays(rt.alloc(), 2, &NUMBERS_THAT_NOTHING_HAS, &NONE)
}

#[test]
fn first_rows_count(rt: HostRuntime) -> Result<(), Fail> {
    plays(rt.alloc(), 2, &FIRST_ROWS_COUNT, &NONE)
}

#[test]
fn two_wait(rt: HostRuntime) -> Result<(), Fail> {
    let rows: [Row; 2] = [
        (
            Turn::Calls(Call::Begin(1, 1)),
            "tframe 1 1 0 1 ask 1 copies\ntframe 2 1 1 1 ask 1 copies\n",
        ),
        (
            Turn::Calls(Call::Begin(0, 0)),
            "tframe 3 0 0 1 ask 2 copies\ntframe 4 0 1 1 ask 2 copies\n",
        ),
    ];
    plays(rt.alloc(), 2, &rows, &TWO_WAIT)
}
