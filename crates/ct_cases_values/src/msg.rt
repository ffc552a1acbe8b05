use ct_values::address::Address;
use ct_values::client::{Answer, ClientOp, Pair, Why};
use ct_values::config::{Config, ConfigFault, DbDecl, DbKind};
use ct_values::copies::Duplicate;
use ct_values::items::Items;
use ct_values::key::Key;
use ct_values::memory::NoMemory;
use ct_values::name::DbName;
use ct_values::value::Value;
use std::alloc::Global;
use std::test::Fail;

fn db(alloc: Global, name: &[u8]) -> Result<DbDecl, Fail> {
    Ok(DbDecl {
        name: DbName::new(alloc, name)?,
        kind: DbKind::Persistent,
    })
}

fn add_db(alloc: Global, list: &mut Vec<DbDecl>, name: &[u8]) -> Result<(), Fail> {
    list.push(db(alloc, name)?)?;
    Ok(())
}

fn add_dbs(alloc: Global, list: &mut Vec<DbDecl>, names: &[&[u8]]) -> Result<(), Fail> {
    for name in names {
        add_db(alloc, list, *name)?;
    }
    Ok(())
}

fn dbs(alloc: Global, names: &[&[u8]]) -> Result<Vec<DbDecl>, Fail> {
    let mut list = Vec::new(alloc);
    add_dbs(alloc, &mut list, names)?;
    Ok(list)
}

fn add_letters(alloc: Global, list: &mut Vec<DbDecl>, count: u8) -> Result<(), Fail> {
    for i in 0..count {
        add_db(alloc, list, &[b'd', b'a' + i % 26])?;
    }
    Ok(())
}

fn many_dbs(alloc: Global, count: u8) -> Result<Vec<DbDecl>, Fail> {
    let mut list = Vec::new(alloc);
    add_letters(alloc, &mut list, count)?;
    Ok(list)
}

fn many_addresses(alloc: Global, count: u32) -> Result<Vec<Address>, Fail> {
    let mut list = Vec::new(alloc);
    for i in 0..count {
        list.push(Address::V4(i))?;
    }
    Ok(list)
}

/// Does the making of a configuration end so?
fn ends_so(made: Result<Config, ConfigFault>, fault: Option<ConfigFault>) -> bool {
    made.err() == fault
}

fn sizes_end_so(
    alloc: Global,
    nodes: u32,
    names: u8,
    addresses: u32,
    fault: Option<ConfigFault>,
) -> Result<bool, Fail> {
    let dbs = many_dbs(alloc, names)?;
    let addresses = many_addresses(alloc, addresses)?;
    Ok(ends_so(Config::new(alloc, nodes, dbs, addresses), fault))
}

#[test]
fn sizes(rt: HostRuntime) -> Result<(), Fail> {
    let alloc = rt.alloc();
    assert!(rt; sizes_end_so(alloc, 0, 16, 65, Some(ConfigFault::BadNodes(0)))?);
    assert!(rt; sizes_end_so(alloc, 1, 0, 0, None)?);
    assert!(rt; sizes_end_so(alloc, 16, 15, 64, None)?);
    assert!(rt; sizes_end_so(alloc, 17, 0, 0, Some(ConfigFault::BadNodes(17)))?);
    assert!(rt; sizes_end_so(alloc, 4, 16, 0, Some(ConfigFault::TooMany))?);
    assert!(rt; sizes_end_so(alloc, 4, 0, 65, Some(ConfigFault::TooMany))?);
    Ok(())
}

fn repeats_at(
    alloc: Global,
    names: &[&[u8]],
    addresses: &[Address],
    place: u32,
) -> Result<bool, Fail> {
    let dbs = dbs(alloc, names)?;
    let addresses = Vec::from_slice(alloc, addresses)?;
    Ok(ends_so(
        Config::new(alloc, 4, dbs, addresses),
        Some(ConfigFault::Repeated(place)),
    ))
}

#[test]
fn repetitions(rt: HostRuntime) -> Result<(), Fail> {
    let four = Address::V4(5);
    let six = Address::V6(5);
    let table: [(&[&[u8]], &[Address], u32); 4] = [
        (&[b"a", b"a", b"a"], &[], 1),
        (&[b"g_lock"], &[], 0),
        (&[b"a", b"b"], &[four, six, four], 2),
        (&[b"a", b"b", b"a"], &[six, six], 2),
    ];
    for (names, addresses, place) in table {
        assert!(rt; repeats_at(rt.alloc(), names, addresses, place)?);
    }
    Ok(())
}

fn a_config(alloc: Global) -> Result<Config, Fail> {
    let dbs = dbs(alloc, &[b"b", b"a"])?;
    let addresses = vec![in alloc; Address::V6(1), Address::V4(9), Address::V4(3)]?;
    Ok(Config::new(alloc, 3, dbs, addresses)?)
}

fn has_names(config: &Config) -> bool {
    let names = config.dbs.as_slice();
    names.len() == 3
        && names[0].name.bytes() == b"g_lock".as_slice()
        && names[0].kind == DbKind::Volatile
        && names[1].name.bytes() == b"b".as_slice()
        && names[2].name.bytes() == b"a".as_slice()
}

fn has_nodes(config: &Config) -> bool {
    let want = [Address::V4(3), Address::V4(9), Address::V6(1)];
    config.nodes == 3 && config.addresses.as_slice() == want.as_slice()
}

/// Is this copy equal to its source?
fn is_equal<T: PartialEq + Drop>(copy: Result<T, NoMemory>, source: &T) -> Result<bool, Fail> {
    Ok(copy? == *source)
}

/// Is a value, copied as any, equal to its source?
fn is_duplicated<T: Duplicate + PartialEq>(source: &T) -> Result<bool, Fail> {
    Ok(source.duplicate()? == *source)
}

fn has_copies(config: &Config) -> Result<bool, Fail> {
    Ok(is_equal(config.copy(), config)? && is_duplicated(config)?)
}

#[test]
fn made(rt: HostRuntime) -> Result<(), Fail> {
    let config = a_config(rt.alloc())?;
    assert!(rt; has_names(&config));
    assert!(rt; has_nodes(&config));
    assert!(rt; has_copies(&config)?);
    Ok(())
}

fn a_key(alloc: Global) -> Result<Key, Fail> {
    Ok(Key::new(alloc, b"k")?.copy()?)
}

fn a_value(alloc: Global) -> Result<Value, Fail> {
    Ok(Value::new(alloc, b"v")?.copy()?)
}

fn a_pair(alloc: Global) -> Result<Pair, Fail> {
    let key = a_key(alloc)?;
    let value = a_value(alloc)?;
    Ok(Pair { key, value })
}

fn pair_has_copies(pair: &Pair) -> Result<bool, Fail> {
    Ok(is_equal(pair.copy(), pair)? && is_duplicated(pair)?)
}

fn decl_has_copies(decl: &DbDecl) -> Result<bool, Fail> {
    Ok(is_equal(decl.copy(), decl)? && is_duplicated(decl)?)
}

fn kind_has_copies(kind: &DbKind) -> Result<bool, Fail> {
    Ok(is_equal(kind.copy(), kind)? && is_duplicated(kind)?)
}

fn why_has_copies(why: &Why) -> Result<bool, Fail> {
    Ok(is_equal(why.copy(), why)? && is_duplicated(why)?)
}

fn a_pair_is_copied(alloc: Global) -> Result<bool, Fail> {
    let pair = a_pair(alloc)?;
    pair_has_copies(&pair)
}

fn a_decl_is_copied(alloc: Global) -> Result<bool, Fail> {
    let decl = db(alloc, b"a")?;
    decl_has_copies(&decl)
}

#[test]
fn copies_of_parts(rt: HostRuntime) -> Result<(), Fail> {
    assert!(rt; a_pair_is_copied(rt.alloc())?);
    assert!(rt; a_decl_is_copied(rt.alloc())?);
    assert!(rt; kind_has_copies(&DbKind::ReadOnly)?);
    assert!(rt; why_has_copies(&Why::TooLong(7))?);
    Ok(())
}

fn op_is_alike(op: &ClientOp) -> Result<bool, Fail> {
    Ok(is_equal(op.copy(), op)? && is_duplicated(op)?)
}

/// Are its copies equal to it? It is let go.
fn op_has_copies(op: ClientOp) -> Result<bool, Fail> {
    let answer = op_is_alike(&op);
    drop(op);
    answer
}

fn lock_is_copied(alloc: Global) -> Result<bool, Fail> {
    let key = a_key(alloc)?;
    op_has_copies(ClientOp::Lock { db: 1, key })
}

fn read_is_copied(alloc: Global) -> Result<bool, Fail> {
    let key = a_key(alloc)?;
    op_has_copies(ClientOp::Read { db: 1, key })
}

fn unlock_is_copied(alloc: Global) -> Result<bool, Fail> {
    let key = a_key(alloc)?;
    op_has_copies(ClientOp::Unlock { db: 1, key })
}

#[test]
fn copies_of_short_ops(rt: HostRuntime) -> Result<(), Fail> {
    assert!(rt; lock_is_copied(rt.alloc())?);
    assert!(rt; read_is_copied(rt.alloc())?);
    assert!(rt; unlock_is_copied(rt.alloc())?);
    Ok(())
}

fn one_pair(alloc: Global) -> Result<Items<Pair>, Fail> {
    let mut writes = Items::empty(alloc);
    writes.push(a_pair(alloc)?)?;
    Ok(writes)
}

fn write_is_copied(alloc: Global) -> Result<bool, Fail> {
    let key = a_key(alloc)?;
    let value = a_value(alloc)?;
    op_has_copies(ClientOp::Write { db: 1, key, value })
}

fn apply_is_copied(alloc: Global) -> Result<bool, Fail> {
    let key = a_key(alloc)?;
    let arg = a_value(alloc)?;
    op_has_copies(ClientOp::Apply {
        db: 1,
        key,
        function: 2,
        arg,
    })
}

fn store_is_copied(alloc: Global) -> Result<bool, Fail> {
    let key = a_key(alloc)?;
    let value = a_value(alloc)?;
    op_has_copies(ClientOp::Store { db: 1, key, value })
}

fn commit_is_copied(alloc: Global) -> Result<bool, Fail> {
    let writes = one_pair(alloc)?;
    op_has_copies(ClientOp::Commit { db: 1, writes })
}

#[test]
fn copies_of_ops(rt: HostRuntime) -> Result<(), Fail> {
    assert!(rt; write_is_copied(rt.alloc())?);
    assert!(rt; apply_is_copied(rt.alloc())?);
    assert!(rt; store_is_copied(rt.alloc())?);
    assert!(rt; commit_is_copied(rt.alloc())?);
    Ok(())
}

fn answer_is_alike(answer: &Answer) -> Result<bool, Fail> {
    Ok(is_equal(answer.copy(), answer)? && is_duplicated(answer)?)
}

/// Are its copies equal to it? It is let go.
fn answer_has_copies(answer: Answer) -> Result<bool, Fail> {
    let same = answer_is_alike(&answer);
    drop(answer);
    same
}

fn locked_is_copied(alloc: Global) -> Result<bool, Fail> {
    answer_has_copies(Answer::Locked(a_value(alloc)?))
}

fn read_answer_is_copied(alloc: Global) -> Result<bool, Fail> {
    answer_has_copies(Answer::Read(a_value(alloc)?))
}

fn applied_is_copied(alloc: Global) -> Result<bool, Fail> {
    answer_has_copies(Answer::Applied(a_value(alloc)?))
}

fn unsure_is_copied(alloc: Global) -> Result<bool, Fail> {
    let missing = Items::new(vec![in alloc; 1, 2]?);
    answer_has_copies(Answer::Unsure { seq: 3, missing })
}

#[test]
fn copies_of_answers(rt: HostRuntime) -> Result<(), Fail> {
    assert!(rt; locked_is_copied(rt.alloc())?);
    assert!(rt; read_answer_is_copied(rt.alloc())?);
    assert!(rt; applied_is_copied(rt.alloc())?);
    assert!(rt; unsure_is_copied(rt.alloc())?);
    Ok(())
}

#[test]
fn copies_of_short_answers(rt: HostRuntime) -> Result<(), Fail> {
    assert!(rt; answer_has_copies(Answer::Written)?);
    assert!(rt; answer_has_copies(Answer::Stored)?);
    assert!(rt; answer_has_copies(Answer::Unlocked)?);
    assert!(rt; answer_has_copies(Answer::Committed(3))?);
    assert!(rt; answer_has_copies(Answer::Refused(Why::Full))?);
    Ok(())
}
