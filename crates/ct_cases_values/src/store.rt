//! Both maps, called alike, against values from outside.
use ct_store::calls::{StoreCall, StoreReply, run_calls};
use ct_store::hashed::Store;
use ct_store::keyed::Keyed;
use ct_store::plain::PlainStore;
use ct_values::key::Key;
use std::alloc::Global;
use std::test::Fail;

fn key(alloc: Global, bytes: &[u8]) -> Result<Key, Fail> {
    Ok(Key::new(alloc, bytes)?)
}

fn add(calls: &mut Vec<StoreCall>, call: StoreCall) -> Result<(), Fail> {
    calls.push(call)?;
    Ok(())
}

fn add_calls(alloc: Global, calls: &mut Vec<StoreCall>) -> Result<(), Fail> {
    add(calls, StoreCall::Put(key(alloc, b"b")?, 1))?;
    add(calls, StoreCall::Put(key(alloc, b"a")?, 2))?;
    add(calls, StoreCall::Get(key(alloc, b"c")?))?;
    add(calls, StoreCall::Sorted)?;
    add(calls, StoreCall::Remove(key(alloc, b"b")?))?;
    add(calls, StoreCall::Len)
}

/// What a map answers to one list of calls.
fn played<K: Keyed<u64>>(alloc: Global, store: &mut K) -> Result<Vec<StoreReply>, Fail> {
    let mut calls = Vec::new(alloc);
    add_calls(alloc, &mut calls)?;
    Ok(run_calls(alloc, store, calls.as_slice())?)
}

fn is_item(reply: &StoreReply, wanted: Option<u64>) -> bool {
    match reply {
        StoreReply::Item(item) => *item == wanted,
        _ => false,
    }
}

fn are_items(reply: &StoreReply, wanted: &[u64]) -> bool {
    match reply {
        StoreReply::Items(items) => items.as_slice() == wanted,
        _ => false,
    }
}

fn is_number(reply: &StoreReply, wanted: u64) -> bool {
    match reply {
        StoreReply::Number(number) => *number == wanted,
        _ => false,
    }
}

fn are_wanted(all: &[StoreReply]) -> bool {
    all.len() == 6
        && is_item(&all[0], None)
        && is_item(&all[1], None)
        && is_item(&all[2], None)
        && are_items(&all[3], &[2, 1])
        && is_item(&all[4], Some(1))
        && is_number(&all[5], 1)
}

fn answers<K: Keyed<u64>>(alloc: Global, store: &mut K) -> Result<bool, Fail> {
    let all = played(alloc, store)?;
    Ok(are_wanted(all.as_slice()))
}

fn plain_answers(alloc: Global) -> Result<bool, Fail> {
    let mut store = PlainStore::new(alloc);
    answers(alloc, &mut store)
}

fn hashed_answers(alloc: Global) -> Result<bool, Fail> {
    let mut store = Store::new(alloc);
    answers(alloc, &mut store)
}

#[test]
fn replies(rt: HostRuntime) -> Result<(), Fail> {
    assert!(rt; plain_answers(rt.alloc())?);
    assert!(rt; hashed_answers(rt.alloc())?);
    Ok(())
}

fn add_many<K: Keyed<u64>>(alloc: Global, store: &mut K) -> Result<(), Fail> {
    for i in 0..1023u32 {
        store.put(key(alloc, i.to_be_bytes().as_slice())?, 0)?;
    }
    Ok(())
}

/// Is there room for a new key at 1,023 keys, and at 1,024 for a new one and for one that is there?
fn rooms<K: Keyed<u64>>(alloc: Global, store: &mut K) -> Result<[bool; 3], Fail> {
    add_many(alloc, store)?;
    let one_more = key(alloc, b"k")?;
    let there = key(alloc, b"j")?;
    let below = store.has_room(&one_more);
    store.put(key(alloc, b"j")?, 0)?;
    Ok([below, store.has_room(&one_more), store.has_room(&there)])
}

fn plain_rooms(alloc: Global) -> Result<[bool; 3], Fail> {
    let mut store = PlainStore::new(alloc);
    rooms(alloc, &mut store)
}

fn hashed_rooms(alloc: Global) -> Result<[bool; 3], Fail> {
    let mut store = Store::new(alloc);
    rooms(alloc, &mut store)
}

#[test]
fn room(rt: HostRuntime) -> Result<(), Fail> {
    assert!(rt; plain_rooms(rt.alloc())? == [true, false, true]);
    assert!(rt; hashed_rooms(rt.alloc())? == [true, false, true]);
    Ok(())
}

fn puts(alloc: Global, store: &mut PlainStore<u64>) -> Result<[Option<u64>; 3], Fail> {
    let first = store.put(key(alloc, b"b")?, 3)?;
    let second = store.put(key(alloc, b"a")?, 4)?;
    let third = store.put(key(alloc, b"b")?, 5)?;
    Ok([first, second, third])
}

fn sets(alloc: Global, store: &mut PlainStore<u64>) -> Result<(), Fail> {
    if let Some(item) = store.get_mut(&key(alloc, b"a")?) {
        *item = 7;
    }
    Ok(())
}

fn are_both(all: &[(&Key, &u64)]) -> bool {
    all.len() == 2
        && all[0].0.bytes() == b"a".as_slice()
        && *all[0].1 == 7
        && all[1].0.bytes() == b"b".as_slice()
        && *all[1].1 == 5
}

fn is_sorted(store: &PlainStore<u64>) -> Result<bool, Fail> {
    let all = store.sorted()?;
    Ok(are_both(all.as_slice()))
}

fn keeps_items(alloc: Global, store: &mut PlainStore<u64>) -> Result<bool, Fail> {
    let before = puts(alloc, store)?;
    sets(alloc, store)?;
    Ok(is_sorted(store)? && before == [None, None, Some(3)])
}

fn plain_keeps(alloc: Global) -> Result<bool, Fail> {
    let mut store = PlainStore::new(alloc);
    keeps_items(alloc, &mut store)
}

#[test]
fn plain_items(rt: HostRuntime) -> Result<(), Fail> {
    assert!(rt; plain_keeps(rt.alloc())?);
    Ok(())
}

fn puts_hashed(alloc: Global, store: &mut Store<u64>) -> Result<[Option<u64>; 3], Fail> {
    let first = store.put(key(alloc, b"b")?, 3)?;
    let second = store.put(key(alloc, b"a")?, 4)?;
    let third = store.put(key(alloc, b"b")?, 5)?;
    Ok([first, second, third])
}

fn sets_hashed(alloc: Global, store: &mut Store<u64>) -> Result<(), Fail> {
    if let Some(item) = store.get_mut(&key(alloc, b"a")?) {
        *item = 7;
    }
    Ok(())
}

fn is_sorted_too(store: &Store<u64>) -> Result<bool, Fail> {
    let all = store.sorted()?;
    Ok(are_both(all.as_slice()))
}

fn keeps_items_too(alloc: Global, store: &mut Store<u64>) -> Result<bool, Fail> {
    let before = puts_hashed(alloc, store)?;
    sets_hashed(alloc, store)?;
    Ok(is_sorted_too(store)? && before == [None, None, Some(3)])
}

fn hashed_keeps(alloc: Global) -> Result<bool, Fail> {
    let mut store = Store::new(alloc);
    keeps_items_too(alloc, &mut store)
}

#[test]
fn hashed_items(rt: HostRuntime) -> Result<(), Fail> {
    assert!(rt; hashed_keeps(rt.alloc())?);
    Ok(())
}

/// Six keys, put from the last one to the first, each with its place.
fn puts_six(alloc: Global, store: &mut Store<u64>) -> Result<(), Fail> {
    for place in 0..6u8 {
        store.put(key(alloc, &[b'f' - place])?, u64::from(place))?;
    }
    Ok(())
}

fn is_pair(pair: (&Key, &u64), bytes: &[u8], item: u64) -> bool {
    pair.0.bytes() == bytes && *pair.1 == item
}

fn are_even(some: &[(&Key, &u64)]) -> bool {
    some.len() == 3
        && is_pair(some[0], b"b", 4)
        && is_pair(some[1], b"d", 2)
        && is_pair(some[2], b"f", 0)
}

fn lists_even(store: &Store<u64>) -> Result<bool, Fail> {
    let some = store.sorted_where(|item| *item % 2 == 0)?;
    Ok(are_even(some.as_slice()))
}

#[test]
fn items_that_pass(rt: HostRuntime) -> Result<(), Fail> {
    let mut store = Store::new(rt.alloc());
    puts_six(rt.alloc(), &mut store)?;
    assert!(rt; lists_even(&store)?);
    Ok(())
}
