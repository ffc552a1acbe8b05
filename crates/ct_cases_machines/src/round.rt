//! Members and leaders, call by call.
use ct_frame::frame::TableRow;
use ct_frame::round::{Phase, Pull, PushBody, Stage};
use ct_lead::leader::Leader;
use ct_lead::member::{FreezeStep, Member, PushStep};
use ct_merge::order::is_in_order;
use ct_values::items::Items;
use ct_values::key::Key;
use ct_values::value::Value;
use std::alloc::Global;
use std::test::Fail;

/// What comes to a member.
#[derive(Clone, Copy)]
enum Call {
    Freeze(u64),
    Unlocked,
    Push(u64),
    Thaw(u64),
}

/// What the member answers.
fn answer(it: &mut Member, call: Call) -> &'static str {
    match call {
        Call::Freeze(generation) => match it.freeze(generation, 1) {
            FreezeStep::Accepted => "accepted",
            FreezeStep::Again => "again",
            FreezeStep::Dropped => "dropped",
        },
        Call::Unlocked => match it.locks_gone() {
            Some((6, 1)) => "frozen",
            Some(_) => "other",
            None => "dropped",
        },
        Call::Push(generation) => match it.push(generation) {
            PushStep::Install => "install",
            PushStep::Again => "again",
            PushStep::Dropped => "dropped",
        },
        Call::Thaw(generation) => if it.thaw(generation) {
            "thawed"
        } else {
            "dropped"
        },
    }
}

#[test]
fn a_member(rt: HostRuntime) -> Result<(), Fail> {
    let mut it = Member::new(4);
    for (call, wanted, phase) in [
        (Call::Freeze(4), "dropped", Phase::Idle),
        (Call::Push(4), "dropped", Phase::Idle),
        (Call::Freeze(6), "accepted", Phase::Freezing(6)),
        (Call::Freeze(6), "dropped", Phase::Freezing(6)),
        (Call::Unlocked, "frozen", Phase::Frozen(6)),
        (Call::Unlocked, "dropped", Phase::Frozen(6)),
        (Call::Freeze(6), "again", Phase::Frozen(6)),
        (Call::Push(5), "dropped", Phase::Frozen(6)),
        (Call::Push(6), "install", Phase::Installed(6)),
        (Call::Push(6), "again", Phase::Installed(6)),
        (Call::Thaw(5), "dropped", Phase::Installed(6)),
        (Call::Thaw(6), "thawed", Phase::Serving(6)),
        (Call::Push(6), "again", Phase::Serving(6)),
        (Call::Freeze(9), "accepted", Phase::Freezing(9)),
    ] {
        assert!(rt; answer(&mut it, call) == wanted);
        assert!(rt; it.phase() == phase);
    }
    Ok(())
}

#[test]
fn what_a_member_tells(rt: HostRuntime) -> Result<(), Fail> {
    let it = Member::serving(1);
    assert!(rt; it.promised() == 1 && it.generation() == 1 && !it.may_pull(1));
    Ok(())
}

fn row(alloc: Global, rsn: u64, master: Option<u32>) -> Result<TableRow, Fail> {
    let key = Key::new(alloc, b"b")?;
    let value = Value::new(alloc, b"x")?;
    Ok(TableRow {
        db: 1,
        key,
        rsn,
        value,
        master,
    })
}

fn rows(alloc: Global, rsn: u64, master: Option<u32>) -> Result<Items<TableRow>, Fail> {
    let mut table = Items::empty(alloc);
    table.push(row(alloc, rsn, master)?)?;
    Ok(table)
}

/// What a member holds: the record `b`, with this RSN and data master.
fn pull(alloc: Global, node: u32, vbase: u64, rsn: u64, master: Option<u32>) -> Result<Pull, Fail> {
    let table = rows(alloc, rsn, master)?;
    Ok(Pull {
        node,
        vbase,
        pbase: 1,
        table,
        ptables: Items::empty(alloc),
        addresses: Items::empty(alloc),
    })
}

fn first_row(body: &PushBody) -> Option<(u64, Option<u32>)> {
    match body.table.as_slice().first() {
        Some(row) => Some((row.rsn, row.master)),
        None => None,
    }
}

fn handed_out(body: Option<PushBody>) -> Option<(u64, Option<u32>)> {
    match body {
        Some(body) => first_row(&body),
        None => None,
    }
}

/// The RSN and the data master that the leader hands out, where it does.
fn pulled(leader: &mut Leader, pull: Pull) -> Result<Option<(u64, Option<u32>)>, Fail> {
    if !is_in_order(&pull) {
        return Ok(None);
    }
    Ok(handed_out(leader.pulled(pull)?))
}

/// What comes to a leader.
#[derive(Clone, Copy)]
enum Told {
    Frozen(u32),
    /// The node, its base, and the RSN and the data master of its record.
    Pulled(u32, u64, u64, Option<u32>),
    Installed(u32),
}

/// Does this complete the stage, and what is handed out then?
fn completes(
    alloc: Global,
    it: &mut Leader,
    told: Told,
) -> Result<Option<(u64, Option<u32>)>, Fail> {
    let ends = match told {
        Told::Frozen(node) => it.frozen(node),
        Told::Installed(node) => it.installed(node),
        Told::Pulled(node, base, rsn, master) => {
            return pulled(it, pull(alloc, node, base, rsn, master)?);
        }
    };
    Ok(if ends { Some((0, None)) } else { None })
}

/// Is its copy in this stage, with these nodes missing?
fn is_copied(it: &Leader, stage: Stage, missing: &[u32]) -> Result<bool, Fail> {
    let copy = it.copy()?;
    Ok(copy.stage() == stage && copy.missing() == missing)
}

#[test]
fn a_leader(rt: HostRuntime) -> Result<(), Fail> {
    let mut it = Leader::begin(rt.alloc(), 2, 7, &[0, 2])?;
    for (told, wanted, stage, missing) in [
        (Told::Frozen(1), None, Stage::Freezing, [0u32, 2].as_slice()),
        (Told::Frozen(2), None, Stage::Freezing, [0].as_slice()),
        (Told::Frozen(2), None, Stage::Freezing, [0].as_slice()),
        (Told::Installed(0), None, Stage::Freezing, [0].as_slice()),
        (
            Told::Frozen(0),
            Some((0, None)),
            Stage::Pulling,
            [0, 2].as_slice(),
        ),
        (
            Told::Pulled(2, 3, 5, None),
            None,
            Stage::Pulling,
            [0].as_slice(),
        ),
        (
            Told::Pulled(2, 4, 9, None),
            None,
            Stage::Pulling,
            [0].as_slice(),
        ),
        (
            Told::Pulled(0, 2, 8, None),
            Some((5, Some(2))),
            Stage::Installing,
            [0, 2].as_slice(),
        ),
        (Told::Installed(0), None, Stage::Installing, [2].as_slice()),
        (Told::Frozen(2), None, Stage::Installing, [2].as_slice()),
        (
            Told::Installed(2),
            Some((0, None)),
            Stage::Completed,
            [].as_slice(),
        ),
        (Told::Installed(2), None, Stage::Completed, [].as_slice()),
    ] {
        assert!(rt; completes(rt.alloc(), &mut it, told)? == wanted);
        assert!(rt; is_copied(&it, stage, missing)?);
    }
    Ok(())
}
