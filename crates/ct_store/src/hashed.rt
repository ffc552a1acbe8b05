//! A map that finds a key by its hash.
ghost use Rattle.std.specs.Prelude.{◌≡◌, Bool, length, IfOk, OnOk, OnErr, None, [], option_copied, map, nat_eq};
ghost use Rattle.std.specs.Cmp.Lexicographic.{pointwise};
ghost use Rattle.std.specs.List.{IsDistinct};
ghost use Rattle.std.specs.Map.{keys_of};
ghost use Rattle.std.specs.Option.{option_copied_mut};
ghost use Rattle.std.specs.Map.Iter.{deref_pair};
ghost use Rattle.ct_store.specs.Hashed.{ordered};
ghost use Rattle.ct_store.specs.Map.{Ascends, look, write, erase, has_room};
ghost use Rattle.ct_store.specs.Those.{Tells, those};

use crate::keyed::Keyed;
use ct_values::key::Key;
use ct_values::memory::NoMemory;
use std::alloc::Global;
use std::collections::HashMap;
use std::marker::Model;

/// Items by key, found by the hash of the key. The seed of the hash is fixed.
pub struct Store<T> {
    alloc: Global,
    items: HashMap<Key, T>,
}

impl<T: Drop> Drop for Store<T> {
    /// All that it holds is let go.
    fn drop(self) {
        let Store { alloc: _, items: _ } = self;
    }
}

impl<T> Model for Store<T> {
    ghost use Rattle.ct_store.specs.Map.{Pairs};
    ghost use Rattle.ct_store.specs.Hashed.{ordered};

    ghost Value = { Pairs T };

    ghost view = { λ a. ordered a.items.entries };
}

/// Puts pairs in the order of their keys, where those differ.
fn put_in_order<T>(pairs: &mut Vec<(&Key, &T)>)
    ensures { IsDistinct (pointwise nat_eq) (keys_of (map deref_pair pairs.old.items)) → map deref_pair pairs.new.items ≡ ordered (map deref_pair pairs.old.items) }
{
    pairs.sort_unstable_by(|a, b| a.0.cmp(b.0));
}

impl<T> Store<T> {
    /// No items.
    pub fn new(alloc: Global) -> Store<T>
        ensures { result ≡ [] }
    {
        Store {
            alloc,
            items: HashMap::new(alloc),
        }
    }

    /// The item at a key.
    pub fn get(&self, key: &Key) -> Option<&T>
        ensures { option_copied result ≡ look key.now self.now }
    {
        self.items.get(key)
    }

    /// How many keys there are.
    pub fn len(&self) -> usize
        ensures len { result ≡ length self.now }
        ensures ascends { Ascends self.now }
    {
        self.items.len()
    }

    /// Is the key there, or are there fewer than 1,024?
    pub fn has_room(&self, key: &Key) -> bool
        ensures { result ≡ has_room key.now self.now }
    {
        self.get(key).is_some() || self.len() < 1024
    }

    /// The keys and their items, by ascending key.
    pub fn sorted(&self) -> Result<Vec<(&Key, &T)>, NoMemory>
        ensures { IfOk result (λ all. map deref_pair all.items ≡ self.now) }
    {
        let mut all = Vec::with_capacity(self.alloc, self.items.len())?;
        for (key, item) in &self.items {
            all.push((key, item))?;
        }
        put_in_order(&mut all);
        Ok(all)
    }

    /// The keys and their items that pass a test, by ascending key. The others are not put in order.
    pub fn sorted_where<F: Fn(&T) -> bool>(&self, test: F) -> Result<Vec<(&Key, &T)>, NoMemory>
        requires { F.IsAlwaysCallable test }
        ensures { (p : T → Bool) → Tells F.Fn p test → IfOk result (λ some. map deref_pair some.items ≡ those p self.now) }
    {
        let mut some = Vec::new(self.alloc);
        for (key, item) in &self.items {
            if test(item) {
                some.push((key, item))?;
            }
        }
        put_in_order(&mut some);
        Ok(some)
    }
}

impl<T: Drop> Store<T> {
    ghost use Rattle.std.specs.Borrow.{sem};
    ghost use Rattle.ct_store.specs.Lending.{LendsHashed};

    /// The item at a key, to be changed in its place.
    pub fn get_mut(&mut self, key: &Key) -> Option<&mut T>
        ensures* writes_back { sem 𝓛 (LendsHashed T.row self.entry key.now result) }
        ensures value { option_copied_mut result ≡ look key.now self.old }
    {
        self.items.get_mut(key)
    }

    /// Puts an item at a key, and answers the one that stood there. Only a new key can want memory.
    pub fn put(&mut self, key: Key, item: T) -> Result<Option<T>, NoMemory>
        ensures before { IfOk result (λ before. before ≡ look key self.old) }
        ensures ok { OnOk result (self.new ≡ write key item self.old) }
        ensures err { OnErr result (self.new ≡ self.old) }
        ensures absent { OnErr result (look key self.old ≡ None) }
    {
        Ok(self.items.insert(key, item)?)
    }

    /// Takes the item at a key out.
    pub fn remove(&mut self, key: &Key) -> Option<T>
        ensures before { result ≡ look key.now self.old }
        ensures after { self.new ≡ erase key.now self.old }
    {
        self.items.remove(key)
    }
}

impl<T: Drop> Keyed<T> for Store<T> {
    ghost pairs = { λ m. m };

    fn get(&self, key: &Key) -> Option<&T> {
        Store::get(self, key)
    }

    fn put(&mut self, key: Key, item: T) -> Result<Option<T>, NoMemory> {
        Store::put(self, key, item)
    }

    fn remove(&mut self, key: &Key) -> Option<T> {
        Store::remove(self, key)
    }

    fn len(&self) -> usize {
        Store::len(self)
    }

    fn has_room(&self, key: &Key) -> bool {
        Store::has_room(self, key)
    }

    fn sorted(&self) -> Result<Vec<(&Key, &T)>, NoMemory> {
        Store::sorted(self)
    }
}
