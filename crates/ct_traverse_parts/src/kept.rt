//! A map that finds a key by its hash, where the bytes of the key have several owners.
ghost use Rattle.std.specs.Prelude.{◌≡◌, length, IfOk, OnOk, OnErr, None, [], option_copied, map};
ghost use Rattle.std.specs.Map.Iter.{deref_pair};
ghost use Rattle.ct_store.specs.Map.{Ascends, look, write, erase};

use crate::part::Part;
use ct_values::memory::NoMemory;
use std::alloc::Global;
use std::collections::{BTreeMap, HashMap};
use std::marker::Model;

/// Items by key, found by the hash of the key. The seed of the hash is fixed.
pub struct Kept<T> {
    alloc: Global,
    items: HashMap<Part, T>,
}

impl<T: Drop> Drop for Kept<T> {
    /// All that it holds is let go.
    fn drop(self) {
        let Kept { alloc: _, items: _ } = self;
    }
}

impl<T> Model for Kept<T> {
    ghost use Rattle.ct_store.specs.Map.{Pairs};
    ghost use Rattle.ct_store.specs.Hashed.{ordered};

    ghost Value = { Pairs T };

    ghost view = { λ a. ordered a.items.entries };
}

impl<T> Kept<T> {
    /// No items.
    pub fn new(alloc: Global) -> Kept<T>
        ensures { result ≡ [] }
    {
        Kept {
            alloc,
            items: HashMap::new(alloc),
        }
    }

    /// The item at a key.
    pub fn get(&self, key: &Part) -> Option<&T>
        ensures { option_copied result ≡ look key.now self.now }
    {
        self.items.get(key)
    }

    /// How many keys there are.
    pub fn len(&self) -> usize
        ensures len { result ≡ length self.now }
        ensures ascends { Ascends self.now }
    {
        self.items.len()
    }

    /// The keys and their items, put in order.
    fn in_order(&self) -> Result<BTreeMap<&Part, &T>, NoMemory>
        ensures { IfOk result (λ m. map deref_pair m.entries ≡ self.now) }
    {
        let mut found: BTreeMap<&Part, &T> = BTreeMap::new(self.alloc);
        for (key, item) in &self.items {
            found.insert(key, item)?;
        }
        Ok(found)
    }

    /// The keys and their items, by ascending key.
    pub fn sorted(&self) -> Result<Vec<(&Part, &T)>, NoMemory>
        ensures { IfOk result (λ all. map deref_pair all.items ≡ self.now) }
    {
        let found = self.in_order()?;
        let mut all = Vec::with_capacity(self.alloc, found.len())?;
        for pair in found {
            all.push(pair)?;
        }
        Ok(all)
    }
}

impl<T: Drop> Kept<T> {
    /// Puts an item at a key, and answers the one that stood there. Only a new key can want memory.
    pub fn put(&mut self, key: Part, item: T) -> Result<Option<T>, NoMemory>
        ensures before { IfOk result (λ before. before ≡ look key self.old) }
        ensures ok { OnOk result (self.new ≡ write key item self.old) }
        ensures err { OnErr result (self.new ≡ self.old) }
        ensures absent { OnErr result (look key self.old ≡ None) }
    {
        Ok(self.items.insert(key, item)?)
    }

    /// Takes the item at a key out.
    pub fn remove(&mut self, key: &Part) -> Option<T>
        ensures before { result ≡ look key.now self.old }
        ensures after { self.new ≡ erase key.now self.old }
    {
        self.items.remove(key)
    }
}
