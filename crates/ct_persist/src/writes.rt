//! Writes in a map of values by key, in place.
ghost use Rattle.std.specs.Prelude.{◌≡◌, ◌≤◌, ◌<◌, ◌+◌, ◌^◌, ◌&&◌, not, IsTrue, IfOk, OnOk, OnErr, is_some, map};
ghost use Rattle.ct_store.specs.Map.{Ascends, look};
ghost use Rattle.ct_persist.specs.Persisted.{IsKept, written, keyed};
ghost use Rattle.ct_persist.specs.Steps.{added, all_added, assigned, all_assigned, dropped, all_dropped, at_key, one_if};

use ct_store::plain::PlainStore;
use ct_values::client::Pair;
use ct_values::key::Key;
use ct_values::memory::NoMemory;
use ct_values::value::Value;
use std::alloc::Global;

/// Is the key there after these writes? It looks at the writes and at one place of the map.
pub fn is_there(items: &PlainStore<Value>, writes: &[Pair], key: &Key) -> bool
    requires { Ascends items.now }
    ensures { result ≡ is_some (look key.now (written writes.now items.now)) }
{
    let mut there = items.get(key).is_some();
    for write in writes {
        if write.key == *key {
            there = !write.value.bytes().is_empty();
        }
    }
    there
}

/// How many pairs there are after a write, as its key was there and its value is empty.
pub fn resized(count: u128, was_there: bool, is_empty: bool) -> u128
    requires some { IsTrue (was_there && is_empty) → 1 ≤ count }
    requires in_range { count < 2 ^ 127 }
    ensures { result + one_if (was_there && is_empty) ≡ count + one_if (not was_there && not is_empty) }
{
    match (was_there, is_empty) {
        (true, true) => count - 1,
        (false, false) => count + 1,
        (true, false) | (false, true) => count,
    }
}

/// The key is there, with the empty value if it was not.
fn add(alloc: Global, items: &mut PlainStore<Value>, key: &Key) -> Result<(), NoMemory>
    ensures ok { OnOk result (items.new ≡ added key.now items.old) }
    ensures err { OnErr result (items.new ≡ items.old) }
{
    if items.get(key).is_none() {
        items.put(key.copy()?, Value::empty(alloc))?;
    }
    Ok(())
}

/// Takes the key out if its value is empty.
fn drop_empty(items: &mut PlainStore<Value>, key: &Key)
    ensures { items.new ≡ dropped key.now items.old }
{
    let is_empty = match items.get(key) {
        Some(value) => value.bytes().is_empty(),
        None => false,
    };
    if is_empty {
        items.remove(key);
    }
}

/// Takes each key out whose value is empty.
fn drop_all_empty(items: &mut PlainStore<Value>, writes: &[Pair])
    ensures { items.new ≡ all_dropped writes.now items.old }
{
    for write in writes {
        drop_empty(items, &write.key);
    }
}

/// All keys are there, with the empty value where they were not. Without memory nothing changes.
fn add_all(alloc: Global, items: &mut PlainStore<Value>, writes: &[Pair]) -> Result<(), NoMemory>
    requires { IsKept items.old }
    ensures ok { OnOk result (items.new ≡ all_added writes.now items.old) }
    ensures err { OnErr result (items.new ≡ items.old) }
{
    for write in writes {
        if let Err(fault) = add(alloc, items, &write.key) {
            drop_all_empty(items, writes);
            return Err(fault);
        }
    }
    Ok(())
}

/// The keys, each with a copy of its value.
fn copied<'a>(alloc: Global, writes: &'a [Pair]) -> Result<Vec<(&'a Key, Value)>, NoMemory>
    ensures { IfOk result (λ all. map at_key all.items ≡ keyed writes.now) }
{
    let mut all = Vec::with_capacity(alloc, writes.len())?;
    for write in writes {
        all.push((&write.key, write.value.copy()?))?;
    }
    Ok(all)
}

/// Gives a key that is there this value.
fn assign(items: &mut PlainStore<Value>, key: &Key, value: Value)
    ensures { items.new ≡ assigned key.now value items.old }
{
    if let Some(place) = items.get_mut(key) {
        *place = value;
    }
}

/// Gives the keys that are there these values.
fn assign_all(items: &mut PlainStore<Value>, values: Vec<(&Key, Value)>)
    ensures { items.new ≡ all_assigned (map at_key values.entry.items) items.old }
{
    for (key, value) in values {
        assign(items, key, value);
    }
}

/// Applies the writes in order; the empty value removes the pair of its key. All memory is taken before a pair that was
/// there changes: without memory nothing changes.
pub fn apply(alloc: Global, items: &mut PlainStore<Value>, writes: &[Pair]) -> Result<(), NoMemory>
    requires { IsKept items.old }
    ensures ok { OnOk result (items.new ≡ written writes.now items.old) }
    ensures err { OnErr result (items.new ≡ items.old) }
    ensures kept { IsKept items.new }
{
    let values = copied(alloc, writes)?;
    add_all(alloc, items, writes)?;
    assign_all(items, values);
    drop_all_empty(items, writes);
    Ok(())
}

/// The map of these pairs.
pub fn built(alloc: Global, pairs: Vec<Pair>) -> Result<PlainStore<Value>, NoMemory>
    requires { Ascends (keyed pairs.items) }
    ensures { IfOk result (λ items. items ≡ keyed pairs.items) }
{
    let mut items = PlainStore::new(alloc);
    for pair in pairs {
        let (key, value) = pair.into_parts();
        items.put(key, value)?;
    }
    Ok(items)
}
