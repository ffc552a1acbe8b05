//! The chain of each call.
use ct_chain::chain::chain_of;
use ct_script::generated::generated_config;
use ct_values::client::{ClientOp, Pair};
use ct_values::config::Config;
use ct_values::items::Items;
use ct_values::key::Key;
use ct_values::value::Value;
use std::alloc::Global;
use std::test::Fail;

fn read(alloc: Global, db: u32, key: &[u8]) -> Result<ClientOp, Fail> {
    Ok(ClientOp::Read {
        db,
        key: Key::new(alloc, key)?,
    })
}

// A commit of one write, of this key.
fn commit(alloc: Global, db: u32, key: &[u8]) -> Result<ClientOp, Fail> {
    let mut writes = Items::empty(alloc);
    writes.push(Pair {
        key: Key::new(alloc, key)?,
        value: Value::new(alloc, b"v")?,
    })?;
    Ok(ClientOp::Commit { db, writes })
}

fn lock(alloc: Global, db: u32, key: &[u8]) -> Result<ClientOp, Fail> {
    Ok(ClientOp::Lock {
        db,
        key: Key::new(alloc, key)?,
    })
}

fn unlock(alloc: Global, db: u32, key: &[u8]) -> Result<ClientOp, Fail> {
    Ok(ClientOp::Unlock {
        db,
        key: Key::new(alloc, key)?,
    })
}

fn write(alloc: Global, db: u32, key: &[u8]) -> Result<ClientOp, Fail> {
    let key = Key::new(alloc, key)?;
    let value = Value::new(alloc, b"v")?;
    Ok(ClientOp::Write { db, key, value })
}

fn apply(alloc: Global, db: u32, key: &[u8]) -> Result<ClientOp, Fail> {
    let key = Key::new(alloc, key)?;
    let arg = Value::new(alloc, b"v")?;
    Ok(ClientOp::Apply {
        db,
        key,
        function: 1,
        arg,
    })
}

fn store(alloc: Global, db: u32, key: &[u8]) -> Result<ClientOp, Fail> {
    let key = Key::new(alloc, key)?;
    let value = Value::new(alloc, b"v")?;
    Ok(ClientOp::Store { db, key, value })
}

// Its chain, of two.
fn chain(config: &Config, op: ClientOp) -> u32 {
    let chain = chain_of(config, 2, &op);
    drop(op);
    chain
}

// Database 0 is that of locks, 1 is volatile, 2 is read on many nodes, 3 is persistent, and there is no other. The place is that of
// the chain, of two.
const TABLE: [(u32, &[u8], u32); 9] = [
    (1, b"a", 0),
    (1, b"b", 0),
    (1, b"c", 1),
    (1, b"d", 1),
    (2, b"c", 1),
    (0, b"c", 0),
    (0, b"d", 0),
    (3, b"c", 0),
    (4, b"c", 0),
];

#[test]
fn each_call_has_a_chain(rt: HostRuntime) -> Result<(), Fail> {
    let alloc = rt.alloc();
    let config = generated_config(alloc, 2)?;
    for (db, key, wanted) in TABLE {
        let chains = [
            chain(&config, read(alloc, db, key)?),
            chain(&config, lock(alloc, db, key)?),
            chain(&config, unlock(alloc, db, key)?),
            chain(&config, write(alloc, db, key)?),
            chain(&config, apply(alloc, db, key)?),
            chain(&config, store(alloc, db, key)?),
        ];
        assert_eq!(rt; chains, [wanted; 6], "database {db}");
        assert_eq!(rt; chain(&config, commit(alloc, db, key)?), 0);
    }
    Ok(())
}
