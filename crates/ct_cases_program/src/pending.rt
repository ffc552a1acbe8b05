//! The calls that wait at a node with two databases beside `g_lock`.
use ct_node_database::database::Committing;
use ct_node_state::node::Node;
use ct_node_view::pending::pending;
use ct_persist::commit::Commit;
use ct_rules::state::{RecState, Wish};
use ct_rules_cluster::step::PendingCall;
use ct_values::client::{ClientOp, Pair};
use ct_values::config::{Config, DbDecl, DbKind};
use ct_values::items::Items;
use ct_values::key::Key;
use ct_values::name::DbName;
use ct_values::value::Value;
use std::alloc::Global;
use std::test::Fail;

fn config(alloc: Global) -> Result<Config, Fail> {
    let mut dbs = Vec::new(alloc);
    for (name, kind) in [(b"t", DbKind::Volatile), (b"b", DbKind::Persistent)] {
        dbs.push(DbDecl {
            name: DbName::new(alloc, name)?,
            kind,
        })?;
    }
    Ok(Config::new(alloc, 2, dbs, Vec::new(alloc))?)
}

fn lock(alloc: Global, db: u32, key: &[u8]) -> Result<ClientOp, Fail> {
    Ok(ClientOp::Lock {
        db,
        key: Key::new(alloc, key)?,
    })
}

fn writes(alloc: Global) -> Result<Items<Pair>, Fail> {
    let mut writes = Vec::new(alloc);
    writes.push(Pair {
        key: Key::new(alloc, b"k")?,
        value: Value::new(alloc, b"v")?,
    })?;
    Ok(Items::new(writes))
}

/// The call of this number waits for the lock of a record.
fn waits(alloc: Global, node: &mut Node, db: u32, key: &[u8], call: u64) -> Result<(), Fail> {
    let mut state = RecState::new(alloc);
    state.wish = Some(Wish {
        call,
        request: 9,
        op: lock(alloc, db, key)?,
    });
    if (db as usize) < node.dbs.len() {
        node.keep(db, Key::new(alloc, key)?, state)?;
    }
    Ok(())
}

/// The call of this number waits for node 1 to acknowledge commit 7 of database 2.
fn commits(alloc: Global, node: &mut Node, call: u64) -> Result<(), Fail> {
    let commit = Committing {
        call,
        writes: writes(alloc)?,
        pending: Commit::begin(alloc, 7, &[1])?,
    };
    if node.dbs.len() > 2 {
        node.wait(2, Some(commit));
    }
    Ok(())
}

/// The node, before any call.
fn opening(alloc: Global) -> Result<Node, Fail> {
    let config = config(alloc)?;
    Ok(Node::opening(alloc, &config, &[0, 1])?)
}

/// Three calls wait for locks, and one for a commit.
fn all_wait(alloc: Global, node: &mut Node) -> Result<(), Fail> {
    waits(alloc, node, 1, b"a", 5)?;
    waits(alloc, node, 1, b"b", 2)?;
    waits(alloc, node, 0, b"c", 4)?;
    commits(alloc, node, 3)
}

/// One more call that waits at node 6.
fn add_call(calls: &mut Vec<PendingCall>, call: u64, op: ClientOp, seq: u64) -> Result<(), Fail> {
    calls.push(PendingCall {
        call,
        node: 6,
        op,
        seq,
    })?;
    Ok(())
}

fn add_lock(
    alloc: Global,
    calls: &mut Vec<PendingCall>,
    call: u64,
    db: u32,
    key: &[u8],
) -> Result<(), Fail> {
    let op = lock(alloc, db, key)?;
    add_call(calls, call, op, 0)
}

fn add_commit(alloc: Global, calls: &mut Vec<PendingCall>, call: u64) -> Result<(), Fail> {
    let writes = writes(alloc)?;
    add_call(calls, call, ClientOp::Commit { db: 2, writes }, 7)
}

fn wanted(alloc: Global) -> Result<Vec<PendingCall>, Fail> {
    let mut calls = Vec::new(alloc);
    add_lock(alloc, &mut calls, 2, 1, b"b")?;
    add_commit(alloc, &mut calls, 3)?;
    add_lock(alloc, &mut calls, 4, 0, b"c")?;
    add_lock(alloc, &mut calls, 5, 1, b"a")?;
    Ok(calls)
}

/// Has the node three databases, and does no call wait?
fn none_waits(node: &Node) -> Result<bool, Fail> {
    Ok(node.dbs.len() == 3 && pending(0, node)?.is_empty())
}

/// Has the node three databases, and do these calls wait?
fn are_waiting(node: &Node, wanted: &Vec<PendingCall>) -> Result<bool, Fail> {
    Ok(node.dbs.len() == 3 && pending(6, node)? == *wanted)
}

#[test]
fn no_call_waits_at_first(rt: HostRuntime) -> Result<(), Fail> {
    let node = opening(rt.alloc())?;
    assert!(rt; none_waits(&node)?);
    Ok(())
}

#[test]
fn by_number(rt: HostRuntime) -> Result<(), Fail> {
    let alloc = rt.alloc();
    let mut node = opening(alloc)?;
    all_wait(alloc, &mut node)?;
    let wanted = wanted(alloc)?;
    assert!(rt; are_waiting(&node, &wanted)?);
    Ok(())
}
