//! A database and a commit, call by call, against the rules.
use ct_frame::frame::PTable;
use ct_persist::commit::Commit;
use ct_persist::store::{PStore, Updated};
use ct_values::client::Pair;
use ct_values::copies::Duplicate;
use ct_values::items::Items;
use ct_values::key::Key;
use ct_values::value::Value;
use std::alloc::Global;
use std::test::Fail;

/// A key and a value of these bytes.
type Write = (&'static str, &'static str);

fn pair(alloc: Global, key: &[u8], value: &[u8]) -> Result<Pair, Fail> {
    let key = Key::new(alloc, key)?;
    let value = Value::new(alloc, value)?;
    Ok(Pair { key, value })
}

fn add(list: &mut Vec<Pair>, pair: Pair) -> Result<(), Fail> {
    list.push(pair)?;
    Ok(())
}

fn add_all(alloc: Global, list: &mut Vec<Pair>, writes: &[Write]) -> Result<(), Fail> {
    for (key, value) in writes {
        add(list, pair(alloc, key.as_bytes(), value.as_bytes())?)?;
    }
    Ok(())
}

fn pairs(alloc: Global, writes: &[Write]) -> Result<Vec<Pair>, Fail> {
    let mut all = Vec::new(alloc);
    add_all(alloc, &mut all, writes)?;
    Ok(all)
}

fn update(alloc: Global, store: &mut PStore, seq: u64, writes: &[Write]) -> Result<Updated, Fail> {
    let writes = pairs(alloc, writes)?;
    Ok(store.update(seq, writes.as_slice())?)
}

fn add_pairs(store: &PStore, text: &mut Vec<u8>) -> Result<(), Fail> {
    for pair in &store.pairs()? {
        text.extend_from_slice(pair.key.bytes())?;
        text.extend_from_slice(pair.value.bytes())?;
    }
    Ok(())
}

/// Has the database this number, and these keys and values in order?
fn is_now(alloc: Global, store: &PStore, seq: u64, wanted: &str) -> Result<bool, Fail> {
    let mut text = Vec::new(alloc);
    add_pairs(store, &mut text)?;
    Ok(store.seq() == seq && text.as_slice() == wanted.as_bytes())
}

/// Does an update answer so, and has the database this number and these pairs then?
fn is_updated(
    alloc: Global,
    store: &mut PStore,
    update_of: (u64, &[Write]),
    answer: Updated,
    now: (u64, &str),
) -> Result<bool, Fail> {
    let answered = update(alloc, store, update_of.0, update_of.1)?;
    Ok(is_now(alloc, store, now.0, now.1)? && answered == answer)
}

fn all_updated(alloc: Global, store: &mut PStore) -> Result<bool, Fail> {
    let k = [("k", "v")];
    let table = [
        (2, k.as_slice(), Updated::Gap, 0, ""),
        (0, k.as_slice(), Updated::Had, 0, ""),
        (1, [("k", "v"), ("k", "")].as_slice(), Updated::Done, 1, ""),
        (1, k.as_slice(), Updated::Had, 1, ""),
        (
            2,
            [("b", "1"), ("a", "2")].as_slice(),
            Updated::Done,
            2,
            "a2b1",
        ),
        (4, k.as_slice(), Updated::Gap, 2, "a2b1"),
        (
            3,
            [("a", ""), ("c", "3"), ("a", "5")].as_slice(),
            Updated::Done,
            3,
            "a5b1c3",
        ),
        (2, k.as_slice(), Updated::Had, 3, "a5b1c3"),
        (
            4,
            [("b", ""), ("z", ""), ("c", ""), ("c", "4")].as_slice(),
            Updated::Done,
            4,
            "a5c4",
        ),
        (18446744073709551615, k.as_slice(), Updated::Gap, 4, "a5c4"),
    ];
    for (seq, writes, answer, number, wanted) in table {
        if !is_updated(alloc, store, (seq, writes), answer, (number, wanted))? {
            return Ok(false);
        }
    }
    Ok(true)
}

#[test]
fn updates(rt: HostRuntime) -> Result<(), Fail> {
    let mut store = PStore::new(rt.alloc());
    let all = all_updated(rt.alloc(), &mut store);
    drop(store);
    assert!(rt; all?);
    Ok(())
}

fn put(store: &mut PStore, seq: u64, write: Pair) -> Result<(), Fail> {
    store.update(seq, [write].as_slice())?;
    Ok(())
}

fn fill(alloc: Global, store: &mut PStore) -> Result<(), Fail> {
    for i in 0..1024u32 {
        put(
            store,
            i as u64 + 1,
            pair(alloc, i.to_be_bytes().as_slice(), b"v")?,
        )?;
    }
    Ok(())
}

/// 1,024 pairs, by as many updates.
fn full(alloc: Global) -> Result<PStore, Fail> {
    let mut store = PStore::new(alloc);
    fill(alloc, &mut store)?;
    Ok(store)
}

fn fits(alloc: Global, store: &PStore, writes: &[Write]) -> Result<bool, Fail> {
    let writes = pairs(alloc, writes)?;
    Ok(store.fits(writes.as_slice()))
}

const FIRST: &str = "\0\0\0\0";

fn all_fit_so(alloc: Global, store: &PStore) -> Result<bool, Fail> {
    for (writes, wanted) in [
        ([("k", "v"), ("k", "w")], false),
        ([("k", "v"), ("k", "")], true),
        ([("k", ""), ("k", "v")], false),
        ([("k", "v"), (FIRST, "")], true),
        ([(FIRST, ""), (FIRST, "w")], true),
    ] {
        if fits(alloc, store, writes.as_slice())? != wanted {
            return Ok(false);
        }
    }
    Ok(true)
}

fn one_goes_and_one_comes(alloc: Global, store: &mut PStore) -> Result<bool, Fail> {
    let gap = update(alloc, store, 1025, &[("k", "v")])?;
    let done = update(alloc, store, 1025, &[("k", "v"), (FIRST, "")])?;
    Ok(gap == Updated::Gap && done == Updated::Done && store.seq() == 1025)
}

fn is_full(alloc: Global, store: &mut PStore) -> Result<bool, Fail> {
    Ok(all_fit_so(alloc, store)? && one_goes_and_one_comes(alloc, store)?)
}

#[test]
fn at_most_1024_pairs(rt: HostRuntime) -> Result<(), Fail> {
    let mut store = full(rt.alloc())?;
    let is_full = is_full(rt.alloc(), &mut store);
    drop(store);
    assert!(rt; is_full?);
    Ok(())
}

fn take(store: &mut PStore, other: &PStore) -> Result<(), Fail> {
    let pairs = Items::new(other.pairs()?);
    let table = PTable {
        db: 0,
        seq: other.seq(),
        pairs,
    };
    store.replace(&table)?;
    Ok(())
}

/// A database that took the number and the pairs of another.
fn like(alloc: Global, other: &PStore) -> Result<PStore, Fail> {
    let mut store = PStore::new(alloc);
    update(alloc, &mut store, 1, &[("z", "9")])?;
    take(&mut store, other)?;
    Ok(store)
}

fn two_pairs(alloc: Global) -> Result<PStore, Fail> {
    let mut first = PStore::new(alloc);
    update(alloc, &mut first, 1, &[("b", "1"), ("a", "2")])?;
    Ok(first)
}

fn like_two_pairs(alloc: Global) -> Result<PStore, Fail> {
    let first = two_pairs(alloc)?;
    let second = like(alloc, &first);
    drop(first);
    second
}

/// Does it go on, and the other stay?
fn goes_on(alloc: Global, store: &mut PStore, other: &PStore) -> Result<bool, Fail> {
    update(alloc, store, 2, &[("c", "3")])?;
    Ok(is_now(alloc, store, 2, "a2b1c3")? && is_now(alloc, other, 1, "a2b1")?)
}

/// Does it go on, and its copy stay?
fn copy_stays(alloc: Global, store: &mut PStore) -> Result<bool, Fail> {
    let copy = store.duplicate()?;
    let stays = goes_on(alloc, store, &copy);
    drop(copy);
    stays
}

#[test]
fn replaced(rt: HostRuntime) -> Result<(), Fail> {
    let mut second = like_two_pairs(rt.alloc())?;
    let stays = copy_stays(rt.alloc(), &mut second);
    drop(second);
    assert!(rt; stays?);
    Ok(())
}

/// Is its copy of commit 7, with these nodes missing?
fn is_copied(commit: &Commit, missing: &[u32]) -> Result<bool, Fail> {
    let copy = commit.duplicate()?;
    Ok(copy.seq() == 7 && copy.missing() == missing)
}

#[test]
fn acknowledgements(rt: HostRuntime) -> Result<(), Fail> {
    let all = [1, 2, 4];
    let without_2 = [1, 4];
    let table = [
        (2, 8, false, all.as_slice()),
        (2, 6, false, all.as_slice()),
        (3, 7, false, all.as_slice()),
        (2, 7, false, without_2.as_slice()),
        (2, 7, false, without_2.as_slice()),
        (4, 7, false, &all[..1]),
        (1, 7, true, &all[..0]),
        (1, 7, false, &all[..0]),
    ];
    let mut commit = Commit::begin(rt.alloc(), 7, &all)?;
    for (node, seq, last, missing) in table {
        assert!(rt; commit.ack(node, seq) == last);
        assert!(rt; is_copied(&commit, missing)?);
    }
    Ok(())
}
