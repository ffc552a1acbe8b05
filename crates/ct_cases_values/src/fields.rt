use ct_frame::frame::{Assigned, CallKind, Frame, Msg, PTable, TableRow};
use ct_frame::header::LIMIT;
use ct_frame_fields::fields::well_formed;
use ct_values::address::Address;
use ct_values::boxed::BoxedItems;
use ct_values::client::Pair;
use ct_values::items::Items;
use ct_values::key::Key;
use ct_values::value::Value;
use std::alloc::Global;
use std::test::Fail;

const LAST: u64 = LIMIT - 1;

/// Are a frame's fields well formed? The frame is let go.
fn is_formed(frame: Frame) -> bool {
    let answer = well_formed(&frame);
    drop(frame);
    answer
}

/// Are they, where node 1 sends this to node 0 in generation 2?
fn is_formed_from_one(msg: Msg) -> bool {
    is_formed(Frame {
        generation: 2,
        sender: 1,
        receiver: 0,
        msg,
    })
}

fn pair(alloc: Global, key: &[u8], value: &[u8]) -> Result<Pair, Fail> {
    let key = Key::new(alloc, key)?;
    let value = Value::new(alloc, value)?;
    Ok(Pair { key, value })
}

fn add_pair(list: &mut Items<Pair>, pair: Pair) -> Result<(), Fail> {
    list.push(pair)?;
    Ok(())
}

fn add_pairs(alloc: Global, list: &mut Items<Pair>, table: &[(&[u8], &[u8])]) -> Result<(), Fail> {
    for (key, value) in table {
        add_pair(list, pair(alloc, *key, *value)?)?;
    }
    Ok(())
}

type Row<'a> = (u32, &'a [u8], u64, Option<u32>);

fn row(alloc: Global, row: Row) -> Result<TableRow, Fail> {
    let (db, key, rsn, master) = row;
    let (key, value) = pair(alloc, key, b"x")?.into_parts();
    Ok(TableRow {
        db,
        key,
        rsn,
        value,
        master,
    })
}

fn add_row(list: &mut Items<TableRow>, row: TableRow) -> Result<(), Fail> {
    list.push(row)?;
    Ok(())
}

fn add_rows(alloc: Global, list: &mut Items<TableRow>, table: &[Row]) -> Result<(), Fail> {
    for each in table {
        add_row(list, row(alloc, *each)?)?;
    }
    Ok(())
}

fn rows(alloc: Global, table: &[Row]) -> Result<Items<TableRow>, Fail> {
    let mut list = Items::empty(alloc);
    add_rows(alloc, &mut list, table)?;
    Ok(list)
}

fn reply(alloc: Global, table: Items<TableRow>, ptables: Items<PTable>) -> Result<Msg, Fail> {
    Ok(Msg::PullReply {
        vbase: 1,
        pbase: 0,
        table: BoxedItems::new(table)?,
        ptables: BoxedItems::new(ptables)?,
        addresses: BoxedItems::new(Items::empty(alloc))?,
    })
}

#[test]
fn ends_and_generation(rt: HostRuntime) {
    for (generation, receiver, sender, want) in [
        (1, 0, 0, true),
        (LAST, 15, 15, true),
        (0, 0, 0, false),
        (LIMIT, 0, 0, false),
        (1, 16, 0, false),
        (1, 0, 16, false),
    ] {
        assert!(rt;
            is_formed(Frame {
                generation,
                sender,
                receiver,
                msg: Msg::Pull,
            }) == want
        );
    }
}

/// Is a call of node 1 well formed?
fn is_call_formed(alloc: Global, db: u32, request: u64) -> Result<bool, Fail> {
    let key = Key::new(alloc, b"b")?;
    let kind = CallKind::Lock;
    Ok(is_formed_from_one(Msg::Call {
        db,
        key,
        request,
        kind,
    }))
}

#[test]
fn databases_and_requests(rt: HostRuntime) -> Result<(), Fail> {
    for (db, request, want) in [
        (1, 1, true),
        (0, LAST, true),
        (15, 1, true),
        (16, 1, false),
        (1, 0, false),
        (1, LIMIT, false),
    ] {
        assert!(rt; is_call_formed(rt.alloc(), db, request)? == want);
    }
    Ok(())
}

/// Is a revocation by node 1 well formed?
fn is_revoke_formed(alloc: Global, rsn: u64) -> Result<bool, Fail> {
    let key = Key::new(alloc, b"a")?;
    Ok(is_formed_from_one(Msg::Revoke { db: 1, key, rsn }))
}

#[test]
fn record_numbers(rt: HostRuntime) -> Result<(), Fail> {
    for (rsn, want) in [(0, true), (LAST, true), (LIMIT, false)] {
        assert!(rt; is_revoke_formed(rt.alloc(), rsn)? == want);
    }
    Ok(())
}

#[test]
fn commit_numbers(rt: HostRuntime) {
    for (seq, want) in [(0, false), (1, true), (LAST, true), (LIMIT, false)] {
        assert!(rt; is_formed_from_one(Msg::PAck { db: 1, seq }) == want);
    }
}

/// Is a freeze of these nodes well formed?
fn is_freeze_formed(alloc: Global, nodes: &[u32]) -> Result<bool, Fail> {
    let members = Items::new(Vec::from_slice(alloc, nodes)?);
    Ok(is_formed_from_one(Msg::Freeze { members }))
}

#[test]
fn lists_of_nodes(rt: HostRuntime) -> Result<(), Fail> {
    let table: [(&[u32], bool); 8] = [
        (&[0], true),
        (&[0, 15], true),
        (&[], false),
        (&[1, 1], false),
        (&[2, 1], false),
        (&[16], false),
        (
            &[0, 1, 2, 3, 4, 5, 6, 7, 8, 9, 10, 11, 12, 13, 14, 15],
            true,
        ),
        (
            &[0, 1, 2, 3, 4, 5, 6, 7, 8, 9, 10, 11, 12, 13, 14, 15, 16],
            false,
        ),
    ];
    for (nodes, want) in table {
        assert!(rt; is_freeze_formed(rt.alloc(), nodes)? == want);
    }
    Ok(())
}

fn add_without_value(alloc: Global, list: &mut Items<Pair>) -> Result<(), Fail> {
    let key = Key::new(alloc, b"k")?;
    let value = Value::empty(alloc);
    add_pair(list, Pair { key, value })
}

fn add_some(alloc: Global, list: &mut Items<Pair>, count: usize) -> Result<(), Fail> {
    for _ in 0..count {
        add_without_value(alloc, list)?;
    }
    Ok(())
}

/// Is a commit of so many writes of one key well formed?
fn is_update_formed(alloc: Global, count: usize) -> Result<bool, Fail> {
    let mut writes = Items::empty(alloc);
    add_some(alloc, &mut writes, count)?;
    Ok(is_formed_from_one(Msg::PUpdate {
        db: 1,
        seq: 1,
        writes,
    }))
}

#[test]
fn writes(rt: HostRuntime) -> Result<(), Fail> {
    for (count, want) in [(0, false), (1, true), (16, true), (17, false)] {
        assert!(rt; is_update_formed(rt.alloc(), count)? == want);
    }
    Ok(())
}

/// Is a reply of node 1 with these rows well formed?
fn is_reply_formed(alloc: Global, list: &[Row]) -> Result<bool, Fail> {
    let table = rows(alloc, list)?;
    Ok(is_formed_from_one(reply(alloc, table, Items::empty(alloc))?))
}

#[test]
fn rows_of_a_member(rt: HostRuntime) -> Result<(), Fail> {
    let table: [(&[Row], bool); 10] = [
        (&[], true),
        (&[(1, b"b", 1, Some(1))], true),
        (&[(1, b"b", 1, Some(0))], false),
        (&[(0, b"b", 0, None), (1, b"a", 0, None)], true),
        (&[(0, b"a", 0, None), (0, b"ab", 0, None)], true),
        (&[(0, b"b", 0, None), (0, b"a", 0, None)], false),
        (&[(0, b"a", 0, None), (0, b"a", 1, None)], false),
        (&[(1, b"a", 0, None), (0, b"b", 0, None)], false),
        (&[(16, b"a", 0, None)], false),
        (&[(0, b"a", LIMIT, None)], false),
    ];
    for (list, want) in table {
        assert!(rt; is_reply_formed(rt.alloc(), list)? == want);
    }
    Ok(())
}

/// Is a push to nodes 0 and 2 well formed that gives a row this master?
fn is_push_formed(alloc: Global, master: Option<u32>) -> Result<bool, Fail> {
    let members = Items::new(vec![in alloc; 0, 2]?);
    let table = rows(alloc, &[(1, b"b", 1, master)])?;
    Ok(is_formed_from_one(Msg::Push {
        members: BoxedItems::new(members)?,
        table: BoxedItems::new(table)?,
        ptables: BoxedItems::new(Items::empty(alloc))?,
        assigned: BoxedItems::new(Items::empty(alloc))?,
    }))
}

#[test]
fn rows_of_the_leader(rt: HostRuntime) -> Result<(), Fail> {
    for (master, want) in [
        (Some(0), true),
        (Some(2), true),
        (Some(1), false),
        (None, false),
    ] {
        assert!(rt; is_push_formed(rt.alloc(), master)? == want);
    }
    Ok(())
}

fn add_ptable(list: &mut Items<PTable>, ptable: PTable) -> Result<(), Fail> {
    list.push(ptable)?;
    Ok(())
}

/// Adds a database with these pairs.
fn add_database(
    alloc: Global,
    list: &mut Items<PTable>,
    db: u32,
    seq: u64,
    table: &[(&[u8], &[u8])],
) -> Result<(), Fail> {
    let mut pairs = Items::empty(alloc);
    add_pairs(alloc, &mut pairs, table)?;
    add_ptable(list, PTable { db, seq, pairs })
}

/// Is a reply of node 1 well formed that has one more database after an empty one?
fn is_second_formed(
    alloc: Global,
    db: u32,
    seq: u64,
    table: &[(&[u8], &[u8])],
) -> Result<bool, Fail> {
    let mut ptables = Items::empty(alloc);
    add_database(alloc, &mut ptables, 1, 1, &[])?;
    add_database(alloc, &mut ptables, db, seq, table)?;
    Ok(is_formed_from_one(reply(alloc, Items::empty(alloc), ptables)?))
}

#[test]
fn persistent_databases(rt: HostRuntime) -> Result<(), Fail> {
    let table: [(u32, u64, &[(&[u8], &[u8])], bool); 7] = [
        (2, 0, &[], true),
        (2, LAST, &[(b"a", b"x"), (b"b", b"x")], true),
        (2, 1, &[(b"b", b"x"), (b"a", b"x")], false),
        (2, 1, &[(b"a", b"")], false),
        (2, LIMIT, &[], false),
        (1, 1, &[], false),
        (16, 1, &[], false),
    ];
    for (db, seq, list, want) in table {
        assert!(rt; is_second_formed(rt.alloc(), db, seq, list)? == want);
    }
    Ok(())
}

/// Is a release of these addresses well formed?
fn is_release_formed(alloc: Global, list: &[Address]) -> Result<bool, Fail> {
    let keep = Items::new(Vec::from_slice(alloc, list)?);
    Ok(is_formed_from_one(Msg::Release { run: 1, keep }))
}

/// Is a takeover well formed that gives the second address this node?
fn is_take_formed(
    alloc: Global,
    first: Address,
    second: Address,
    node: Option<u32>,
) -> Result<bool, Fail> {
    let assigned = Items::new(vec![in alloc;
        Assigned {
            address: first,
            node: Some(0),
        },
        Assigned {
            address: second,
            node,
        },
    ]?);
    Ok(is_formed_from_one(Msg::Take { run: 1, assigned }))
}

#[test]
fn released_addresses(rt: HostRuntime) -> Result<(), Fail> {
    let four = Address::V4(0x0a00_0001);
    let next = Address::V4(0x0a00_0002);
    let six = Address::V6(1);
    let table: [(&[Address], bool); 5] = [
        (&[], true),
        (&[four, next, six], true),
        (&[next, four], false),
        (&[six, four], false),
        (&[six, six], false),
    ];
    for (list, want) in table {
        assert!(rt; is_release_formed(rt.alloc(), list)? == want);
    }
    Ok(())
}

#[test]
fn taken_addresses(rt: HostRuntime) -> Result<(), Fail> {
    let four = Address::V4(0x0a00_0001);
    let six = Address::V6(1);
    for (node, want) in [
        (Some(0), true),
        (Some(15), true),
        (Some(16), false),
        (None, false),
    ] {
        assert!(rt; is_take_formed(rt.alloc(), four, six, node)? == want);
    }
    Ok(())
}
