//! Scripts of plans, against a program that makes them in another language.
use ct_script::plan::{Plan, PlanItem};
use ct_script::scripts::cluster_plan;
use ct_spelling::number::push_decimal;
use ct_values::client::{ClientOp, Pair};
use ct_values::items::Items;
use ct_values::key::Key;
use std::alloc::Global;
use std::test::Fail;

fn push(text: &mut Vec<u8>, words: &[&[u8]]) -> Result<(), Fail> {
    for word in words {
        text.extend_from_slice(*word)?;
    }
    Ok(())
}

fn push_number(text: &mut Vec<u8>, number: u32) -> Result<(), Fail> {
    push_decimal(text, u64::from(number))?;
    Ok(())
}

fn push_named(text: &mut Vec<u8>, word: &[u8], db: u32, key: &Key) -> Result<(), Fail> {
    push(text, &[word])?;
    push_number(text, db)?;
    push(text, &[b" ", key.bytes()])
}

fn push_commit(text: &mut Vec<u8>, db: u32, writes: &[Pair]) -> Result<(), Fail> {
    push(text, &[b"commit "])?;
    push_number(text, db)?;
    for pair in writes {
        push(text, &[b" ", pair.key.bytes(), b"=", pair.value.bytes()])?;
    }
    Ok(())
}

fn push_op(text: &mut Vec<u8>, op: &ClientOp) -> Result<(), Fail> {
    match op {
        ClientOp::Lock { db, key } => push_named(text, b"lock ", *db, key),
        ClientOp::Read { db, key } => push_named(text, b"read ", *db, key),
        ClientOp::Write { db, key, value } => {
            push_named(text, b"write ", *db, key)?;
            push(text, &[b" ", value.bytes()])
        }
        ClientOp::Apply {
            db,
            key,
            function,
            arg,
        } => {
            push_named(text, b"apply ", *db, key)?;
            push(text, &[b" "])?;
            push_number(text, *function)?;
            push(text, &[b" ", arg.bytes()])
        }
        ClientOp::Store { .. } => push(text, &[b"store"]),
        ClientOp::Unlock { db, key } => push_named(text, b"unlock ", *db, key),
        ClientOp::Commit { db, writes } => push_commit(text, *db, writes.as_slice()),
    }
}

fn push_round(text: &mut Vec<u8>, members: &[u32]) -> Result<(), Fail> {
    push(text, &[b"round"])?;
    for member in members {
        push(text, &[b" "])?;
        push_number(text, *member)?;
    }
    Ok(())
}

fn push_item(text: &mut Vec<u8>, item: &PlanItem) -> Result<(), Fail> {
    match item {
        PlanItem::Call(op) => push_op(text, op)?,
        PlanItem::Round(members) => push_round(text, members.as_slice())?,
    }
    push(text, &[b"; "])
}

fn push_items(
    text: &mut Vec<u8>,
    script: &Items<PlanItem>,
    from: usize,
    count: usize,
) -> Result<(), Fail> {
    for item in script.as_slice().iter().skip(from).take(count) {
        push_item(text, item)?;
    }
    Ok(())
}

/// Are these so many items from this place on, in words, each with its end?
fn is_text_from(
    alloc: Global,
    script: &Items<PlanItem>,
    from: usize,
    count: usize,
    wanted: &str,
) -> Result<bool, Fail> {
    let mut text = Vec::new(alloc);
    push_items(&mut text, script, from, count)?;
    Ok(text.as_slice() == wanted.as_bytes())
}

fn has_script(
    alloc: Global,
    plan: &Plan,
    node: usize,
    from: usize,
    count: usize,
    wanted: &str,
) -> Result<bool, Fail> {
    match plan.scripts.as_slice().get(node) {
        Some(script) => is_text_from(alloc, script, from, count, wanted),
        None => Err(Fail::new("no script")),
    }
}

/// The nodes, the calls, the seed, a node, the place of an item, a count of items, and their text.
type Case = (u32, u32, u64, usize, usize, usize, &'static str);

fn is_planned(alloc: Global, case: Case) -> Result<bool, Fail> {
    let (nodes, calls, seed, node, from, count, wanted) = case;
    if nodes < 1 || nodes > 8 || calls < 1 || calls > 1000 {
        return Err(Fail::new("no such plan"));
    }
    let plan = cluster_plan(alloc, nodes, calls, seed)?;
    has_script(alloc, &plan, node, from, count, wanted)
}

#[test]
fn scripts(rt: HostRuntime) -> Result<(), Fail> {
    let alloc = rt.alloc();
    let cases: [Case; 10] = [
        (1, 1, 1, 0, 0, 99, "round 0; read 1 c; "),
        (
            2,
            3,
            7,
            0,
            0,
            99,
            "read 1 b; round 0 1; apply 1 d 1 719; read 2 a; ",
        ),
        (
            2,
            3,
            7,
            1,
            0,
            99,
            "write 1 c 903; write 1 c 601; apply 1 b 1 504; ",
        ),
        (
            3,
            2,
            18446744073709551615,
            0,
            0,
            99,
            "read 1 c; round 0 1 2; apply 2 a 1 858; ",
        ),
        (3, 2, 18446744073709551615, 2, 0, 99, "read 2 b; read 1 c; "),
        (
            2,
            4,
            4,
            0,
            0,
            99,
            "lock 0 p; commit 3 c=614; unlock 0 p; lock 0 p; commit 3 a=913; unlock 0 p; round 0 1; read 2 d; read 2 c; ",
        ),
        (
            2,
            4,
            9,
            1,
            0,
            99,
            "write 2 a 644; apply 1 a 1 32; lock 0 p; commit 3 b=177; unlock 0 p; read 2 c; ",
        ),
        (8, 1000, 0, 0, 621, 2, "read 2 b; round 0 1 2 3 4 5 6 7; "),
        (8, 1000, 0, 3, 1259, 99, "apply 2 d 1 826; "),
        (8, 1000, 0, 7, 1245, 99, "read 1 b; "),
    ];
    for case in cases {
        assert!(rt; is_planned(alloc, case)?, "{}", case.6);
    }
    Ok(())
}
