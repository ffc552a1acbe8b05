//! Merges against the rules, with values worked out by hand.
ghost use Rattle.std.specs.Prelude.{◌≡◌, true};
ghost use Rattle.ct_merge.specs.Rule.{are_in_order};

use ct_frame::frame::{Assigned, PTable, TableRow};
use ct_frame::round::Pull;
use ct_law_merge::merges::{merge_addresses, merge_persistent, merge_volatile};
use ct_merge::merged::MergedAll;
use ct_merge::merging::Merging;
use ct_merge::order::{are_in_order, is_in_order};
use ct_values::address::Address;
use ct_values::client::Pair;
use ct_values::items::Items;
use ct_values::key::Key;
use ct_values::value::Value;
use std::alloc::Global;
use std::test::Fail;

/// Database, key, RSN, value and data master.
type Row = (u32, &'static [u8], u64, &'static [u8], Option<u32>);

/// Place, sequence number, and the value of its one key.
type Table = (u32, u64, &'static [u8]);

/// What a member holds.
#[derive(Clone, Copy)]
struct Told {
    node: u32,
    vbase: u64,
    pbase: u64,
    rows: &'static [Row],
    tables: &'static [Table],
    addresses: &'static [Address],
}

const LOW: Address = Address::V4(0x0a00_0001);

const HIGH: Address = Address::V4(0x0a00_0002);

const LONG: Address = Address::V6(1);

const FIRST: Told = Told {
    node: 0,
    vbase: 3,
    pbase: 2,
    rows: &[
        (1, b"a", 5, b"x", None),
        (1, b"b", 4, b"x", Some(0)),
        (1, b"c", 7, b"x", None),
        (2, b"a", 1, b"x", None),
    ],
    tables: &[(1, 9, b"x"), (3, 9, b"x")],
    addresses: &[HIGH],
};

const SECOND: Told = Told {
    node: 1,
    vbase: 3,
    pbase: 3,
    rows: &[
        (1, b"a", 5, b"y", Some(1)),
        (1, b"b", 6, b"y", None),
        (1, b"c", 7, b"y", None),
        (1, b"d", 0, b"y", Some(1)),
    ],
    tables: &[(1, 4, b"y"), (3, 1, b"y")],
    addresses: &[LOW, LONG],
};

const THIRD: Told = Told {
    node: 2,
    vbase: 2,
    pbase: 3,
    rows: &[(1, b"a", 8, b"z", Some(2)), (1, b"e", 1, b"z", Some(2))],
    tables: &[(1, 4, b"z"), (3, 5, b"z")],
    addresses: &[LOW],
};

/// What the three give: at `a` the copy that is mastered at its own node, at `b` the greater RSN, at `c` the lowest node.
const ROWS: &[Row] = &[
    (1, b"a", 5, b"y", Some(1)),
    (1, b"b", 6, b"y", None),
    (1, b"c", 7, b"x", None),
    (1, b"d", 0, b"y", Some(1)),
    (2, b"a", 1, b"x", None),
];

const TABLES: &[Table] = &[(1, 4, b"y"), (3, 5, b"z")];

const ASSIGNED: &[(Address, u32)] = &[(LOW, 1), (HIGH, 0), (LONG, 1)];

fn pair(alloc: Global, key: &[u8], value: &[u8]) -> Result<Pair, Fail> {
    let key = Key::new(alloc, key)?;
    let value = Value::new(alloc, value)?;
    Ok(Pair { key, value })
}

fn add_row(alloc: Global, list: &mut Items<TableRow>, row: Row) -> Result<(), Fail> {
    let (db, key, rsn, value, master) = row;
    let (key, value) = pair(alloc, key, value)?.into_parts();
    list.push(TableRow {
        db,
        key,
        rsn,
        value,
        master,
    })?;
    Ok(())
}

fn add_rows(alloc: Global, list: &mut Items<TableRow>, table: &[Row]) -> Result<(), Fail> {
    for row in table {
        add_row(alloc, list, *row)?;
    }
    Ok(())
}

fn rows(alloc: Global, table: &[Row]) -> Result<Items<TableRow>, Fail> {
    let mut list = Items::empty(alloc);
    add_rows(alloc, &mut list, table)?;
    Ok(list)
}

fn pairs(alloc: Global, value: &[u8]) -> Result<Items<Pair>, Fail> {
    let mut list = Items::empty(alloc);
    list.push(pair(alloc, b"k", value)?)?;
    Ok(list)
}

fn add_table(alloc: Global, list: &mut Items<PTable>, table: Table) -> Result<(), Fail> {
    let (db, seq, value) = table;
    let pairs = pairs(alloc, value)?;
    list.push(PTable { db, seq, pairs })?;
    Ok(())
}

fn add_tables(alloc: Global, list: &mut Items<PTable>, tables: &[Table]) -> Result<(), Fail> {
    for table in tables {
        add_table(alloc, list, *table)?;
    }
    Ok(())
}

fn tables(alloc: Global, table: &[Table]) -> Result<Items<PTable>, Fail> {
    let mut list = Items::empty(alloc);
    add_tables(alloc, &mut list, table)?;
    Ok(list)
}

fn assigned(alloc: Global, table: &[(Address, u32)]) -> Result<Items<Assigned>, Fail> {
    let mut list = Vec::new(alloc);
    for (address, node) in table {
        list.push(Assigned {
            address: *address,
            node: Some(*node),
        })?;
    }
    Ok(Items::new(list))
}

fn pull(alloc: Global, told: Told) -> Result<Pull, Fail> {
    let table = rows(alloc, told.rows)?;
    let ptables = tables(alloc, told.tables)?;
    let addresses = Items::new(Vec::from_slice(alloc, told.addresses)?);
    Ok(Pull {
        node: told.node,
        vbase: told.vbase,
        pbase: told.pbase,
        table,
        ptables,
        addresses,
    })
}

fn add_pull(alloc: Global, list: &mut Vec<Pull>, told: Told) -> Result<(), Fail> {
    list.push(pull(alloc, told)?)?;
    Ok(())
}

fn add_pulls(alloc: Global, list: &mut Vec<Pull>, table: &[Told]) -> Result<(), Fail> {
    for told in table {
        add_pull(alloc, list, *told)?;
    }
    Ok(())
}

fn pulls(alloc: Global, table: &[Told]) -> Result<Vec<Pull>, Fail> {
    let mut list = Vec::new(alloc);
    add_pulls(alloc, &mut list, table)?;
    Ok(list)
}

/// Adds what is in order.
fn add(merging: &mut Merging, pull: Pull) -> Result<(), Fail> {
    if !is_in_order(&pull) {
        return Err(Fail::new("out of order"));
    }
    merging.add(pull)?;
    Ok(())
}

fn gathered(alloc: Global, table: [Told; 3]) -> Result<Merging, Fail> {
    let mut merging = Merging::new(alloc);
    for told in table {
        add(&mut merging, pull(alloc, told)?)?;
    }
    Ok(merging)
}

fn volatile_is(alloc: Global, all: &[Pull], parent: u64, table: &[Row]) -> Result<bool, Fail>
    requires { are_in_order all.now ≡ true }
{
    let merged = merge_volatile(alloc, all)?;
    let wanted = rows(alloc, table)?;
    Ok(merged.parent == parent && merged.table == wanted)
}

fn persistent_is(alloc: Global, all: &[Pull], parent: u64, table: &[Table]) -> Result<bool, Fail>
    requires { are_in_order all.now ≡ true }
{
    let merged = merge_persistent(alloc, all)?;
    let wanted = tables(alloc, table)?;
    Ok(merged.parent == parent && merged.ptables == wanted)
}

fn addresses_are(alloc: Global, all: &[Pull], table: &[(Address, u32)]) -> Result<bool, Fail>
    requires { are_in_order all.now ≡ true }
{
    let merged = merge_addresses(alloc, all)?;
    Ok(merged == assigned(alloc, table)?)
}

#[test]
fn merges_of_three(rt: HostRuntime) -> Result<(), Fail> {
    let all = pulls(rt.alloc(), &[FIRST, SECOND, THIRD])?;
    assert!(rt; are_in_order(&all));
    assert!(rt; volatile_is(rt.alloc(), &all, 3, ROWS)?);
    assert!(rt; persistent_is(rt.alloc(), &all, 3, TABLES)?);
    assert!(rt; addresses_are(rt.alloc(), &all, ASSIGNED)?);
    Ok(())
}

fn all_are(alloc: Global, all: &MergedAll) -> Result<bool, Fail> {
    let rows = rows(alloc, ROWS)?;
    let tables = tables(alloc, TABLES)?;
    let assigned = assigned(alloc, ASSIGNED)?;
    Ok(
        all.table.parent == 3
            && all.table.table == rows
            && all.ptables.parent == 3
            && all.ptables.ptables == tables
            && all.assigned == assigned,
    )
}

/// Does the copy of what was gathered, of five rows, give all that is wanted?
fn finishes(alloc: Global, merging: &Merging) -> Result<bool, Fail> {
    let copy = merging.copy()?;
    let all = copy.finish()?;
    Ok(merging.rows() == 5 && all_are(alloc, &all)?)
}

fn gathers(alloc: Global, order: [Told; 3]) -> Result<bool, Fail> {
    let merging = gathered(alloc, order)?;
    finishes(alloc, &merging)
}

#[test]
fn any_order_of_arrival(rt: HostRuntime) -> Result<(), Fail> {
    assert!(rt; gathers(rt.alloc(), [FIRST, SECOND, THIRD])?);
    assert!(rt; gathers(rt.alloc(), [THIRD, SECOND, FIRST])?);
    assert!(rt; gathers(rt.alloc(), [SECOND, THIRD, FIRST])?);
    Ok(())
}

#[test]
fn parent_zero_has_no_rows(rt: HostRuntime) -> Result<(), Fail> {
    let all = pulls(
        rt.alloc(),
        &[Told {
            vbase: 0,
            pbase: 0,
            ..SECOND
        }],
    )?;
    assert!(rt; are_in_order(&all));
    assert!(rt; volatile_is(rt.alloc(), &all, 0, &[])?);
    assert!(rt; persistent_is(rt.alloc(), &all, 0, SECOND.tables)?);
    Ok(())
}

fn is_ordered(
    alloc: Global,
    rows: &'static [Row],
    addresses: &'static [Address],
) -> Result<bool, Fail> {
    let pull = pull(
        alloc,
        Told {
            rows,
            addresses,
            ..THIRD
        },
    )?;
    Ok(is_in_order(&pull))
}

#[test]
fn lists_out_of_order(rt: HostRuntime) -> Result<(), Fail> {
    let table: [(&'static [Row], &'static [Address], bool); 5] = [
        (&[], &[], true),
        (
            &[(1, b"b", 1, b"x", None), (2, b"a", 1, b"x", None)],
            &[HIGH, LONG],
            true,
        ),
        (
            &[(1, b"b", 1, b"x", None), (1, b"a", 1, b"x", None)],
            &[],
            false,
        ),
        (
            &[(1, b"b", 1, b"x", None), (1, b"b", 2, b"x", None)],
            &[],
            false,
        ),
        (&[], &[LONG, LOW], false),
    ];
    for (rows, addresses, want) in table {
        assert!(rt; is_ordered(rt.alloc(), rows, addresses)? == want);
    }
    Ok(())
}
