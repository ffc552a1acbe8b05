//! A list of calls, played over any map of numbers by key.
ghost use Rattle.std.specs.Prelude.{ℕ, ◌≡◌, IfOk, OnOk, OnErr, take};
ghost use Rattle.std.specs.Map.{values_of};
ghost use Rattle.ct_store.specs.Calls.{reply_to, after, replies, after_all};

use crate::keyed::Keyed;
use ct_values::items::Items;
use ct_values::key::Key;
use ct_values::memory::NoMemory;
use std::alloc::Global;

/// A call of a map.
#[derive(Debug, Drop, PartialEq, Eq)]
pub enum StoreCall {
    Get(Key),
    Put(Key, u64),
    Remove(Key),
    Len,
    /// All items, by ascending key.
    Sorted,
}

/// What a map answers to a call.
#[derive(Debug, Drop, PartialEq, Eq)]
pub enum StoreReply {
    /// The item that stood at the key, to `Get`, `Put` and `Remove`.
    Item(Option<u64>),
    /// How many keys there are.
    Number(u64),
    Items(Items<u64>),
}

fn sorted_items<K: Keyed<u64>>(alloc: Global, store: &K) -> Result<Items<u64>, NoMemory>
    ensures { IfOk result (λ items. items ≡ values_of (K.pairs store.now)) }
{
    let all = store.sorted()?;
    let mut items = Items::empty(alloc);
    for (_, item) in &all {
        items.push(**item)?;
    }
    Ok(items)
}

/// The answer to one call. Want of memory leaves the map as it was.
fn run_call<K: Keyed<u64>>(
    alloc: Global,
    store: &mut K,
    call: &StoreCall,
) -> Result<StoreReply, NoMemory>
    ensures reply { IfOk result (λ r. r ≡ reply_to call.now (K.pairs store.old)) }
    ensures ok { OnOk result (K.pairs store.new ≡ after call.now (K.pairs store.old)) }
    ensures err { OnErr result (K.pairs store.new ≡ K.pairs store.old) }
{
    Ok(match call {
        StoreCall::Get(key) => StoreReply::Item(store.get(key).copied()),
        StoreCall::Put(key, item) => StoreReply::Item(store.put(key.copy()?, *item)?),
        StoreCall::Remove(key) => StoreReply::Item(store.remove(key)),
        StoreCall::Len => StoreReply::Number(store.len() as u64),
        StoreCall::Sorted => StoreReply::Items(sorted_items(alloc, store)?),
    })
}

/// The answers to the calls, in order. Where memory runs out, the map is what it is after some first calls.
pub fn run_calls<K: Keyed<u64>>(
    alloc: Global,
    store: &mut K,
    calls: &[StoreCall],
) -> Result<Vec<StoreReply>, NoMemory>
    ensures replies { IfOk result (λ all. all.items ≡ replies calls.now (K.pairs store.old)) }
    ensures ok { OnOk result (K.pairs store.new ≡ after_all calls.now (K.pairs store.old)) }
    ensures err { OnErr result ((n : ℕ) × (K.pairs store.new ≡ after_all (take n calls.now) (K.pairs store.old))) }
{
    let mut replies = Vec::with_capacity(alloc, calls.len())?;
    for call in calls {
        let reply = run_call(alloc, store, call)?;
        replies.push(reply)?;
    }
    Ok(replies)
}
