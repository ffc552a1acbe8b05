//! A map that keeps its keys in order.
ghost use Rattle.std.specs.Prelude.{◌≡◌, length, IfOk, OnOk, OnErr, None, [], option_copied, map};
ghost use Rattle.std.specs.Option.{option_copied_mut};
ghost use Rattle.std.specs.Map.Iter.{deref_pair};
ghost use Rattle.ct_store.specs.Map.{Ascends, look, write, erase, has_room};

use crate::keyed::Keyed;
use ct_values::key::Key;
use ct_values::memory::NoMemory;
use std::alloc::Global;
use std::collections::BTreeMap;
use std::marker::Model;

/// Items by key, kept in the order of the keys.
pub struct PlainStore<T> {
    alloc: Global,
    items: BTreeMap<Key, T>,
}

impl<T: Drop> Drop for PlainStore<T> {
    /// All that it holds is let go.
    fn drop(self) {
        let PlainStore { alloc: _, items: _ } = self;
    }
}

impl<T> Model for PlainStore<T> {
    ghost use Rattle.ct_store.specs.Map.{Pairs};

    ghost Value = { Pairs T };

    ghost view = { λ a. a.items.entries };
}

impl<T> PlainStore<T> {
    /// No items.
    pub fn new(alloc: Global) -> PlainStore<T>
        ensures { result ≡ [] }
    {
        PlainStore {
            alloc,
            items: BTreeMap::new(alloc),
        }
    }

    /// The item at a key.
    pub fn get(&self, key: &Key) -> Option<&T>
        ensures { option_copied result ≡ look key.now self.now }
    {
        self.items.get(key)
    }

    /// How many keys there are.
    pub fn len(&self) -> usize
        ensures len { result ≡ length self.now }
        ensures ascends { Ascends self.now }
    {
        self.items.len()
    }

    /// Is the key there, or are there fewer than 1,024?
    pub fn has_room(&self, key: &Key) -> bool
        ensures { result ≡ has_room key.now self.now }
    {
        self.get(key).is_some() || self.len() < 1024
    }

    /// The keys and their items, by ascending key.
    pub fn sorted(&self) -> Result<Vec<(&Key, &T)>, NoMemory>
        ensures { IfOk result (λ all. map deref_pair all.items ≡ self.now) }
    {
        let mut all = Vec::with_capacity(self.alloc, self.items.len())?;
        for (key, item) in &self.items {
            all.push((key, item))?;
        }
        Ok(all)
    }
}

impl<T: Drop> PlainStore<T> {
    ghost use Rattle.std.specs.Borrow.{sem};
    ghost use Rattle.ct_store.specs.Lending.{LendsItem};

    /// The item at a key, to be changed in its place.
    pub fn get_mut(&mut self, key: &Key) -> Option<&mut T>
        ensures* writes_back { sem 𝓛 (LendsItem T.row self.entry key.now result) }
        ensures value { option_copied_mut result ≡ look key.now self.old }
    {
        self.items.get_mut(key)
    }

    /// Puts an item at a key, and answers the one that stood there. Only a new key can want memory.
    pub fn put(&mut self, key: Key, item: T) -> Result<Option<T>, NoMemory>
        ensures before { IfOk result (λ before. before ≡ look key self.old) }
        ensures ok { OnOk result (self.new ≡ write key item self.old) }
        ensures err { OnErr result (self.new ≡ self.old) }
        ensures absent { OnErr result (look key self.old ≡ None) }
    {
        Ok(self.items.insert(key, item)?)
    }

    /// Takes the item at a key out.
    pub fn remove(&mut self, key: &Key) -> Option<T>
        ensures before { result ≡ look key.now self.old }
        ensures after { self.new ≡ erase key.now self.old }
    {
        self.items.remove(key)
    }
}

impl<T: Drop> Keyed<T> for PlainStore<T> {
    ghost pairs = { λ m. m };

    fn get(&self, key: &Key) -> Option<&T> {
        PlainStore::get(self, key)
    }

    fn put(&mut self, key: Key, item: T) -> Result<Option<T>, NoMemory> {
        PlainStore::put(self, key, item)
    }

    fn remove(&mut self, key: &Key) -> Option<T> {
        PlainStore::remove(self, key)
    }

    fn len(&self) -> usize {
        PlainStore::len(self)
    }

    fn has_room(&self, key: &Key) -> bool {
        PlainStore::has_room(self, key)
    }

    fn sorted(&self) -> Result<Vec<(&Key, &T)>, NoMemory> {
        PlainStore::sorted(self)
    }
}
