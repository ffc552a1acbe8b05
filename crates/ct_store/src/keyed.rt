//! What every map of items by key does.
ghost use Rattle.std.specs.Prelude.{◌≡◌, length, IfOk, OnOk, OnErr, None, option_copied, map};
ghost use Rattle.std.specs.Map.Iter.{deref_pair};
ghost use Rattle.ct_store.specs.Map.{Pairs, Ascends, look, write, erase, has_room};

use ct_values::key::Key;
use ct_values::memory::NoMemory;

/// Items by key.
pub trait Keyed<T: Drop> {
    /// The map that contracts see.
    ghost pairs: { Self → Pairs T };

    /// The item at a key.
    fn get(&self, key: &Key) -> Option<&T>
        ensures { option_copied result ≡ look key.now (pairs self.now) };

    /// Puts an item at a key, and answers the one that stood there. Only a new key can want memory.
    fn put(&mut self, key: Key, item: T) -> Result<Option<T>, NoMemory>
        ensures before { IfOk result (λ before. before ≡ look key (pairs self.old)) }
        ensures ok { OnOk result (pairs self.new ≡ write key item (pairs self.old)) }
        ensures err { OnErr result (pairs self.new ≡ pairs self.old) }
        ensures absent { OnErr result (look key (pairs self.old) ≡ None) };

    /// Takes the item at a key out.
    fn remove(&mut self, key: &Key) -> Option<T>
        ensures before { result ≡ look key.now (pairs self.old) }
        ensures after { pairs self.new ≡ erase key.now (pairs self.old) };

    /// How many keys there are.
    fn len(&self) -> usize
        ensures len { result ≡ length (pairs self.now) }
        ensures ascends { Ascends (pairs self.now) };

    /// Is the key there, or are there fewer than 1,024?
    fn has_room(&self, key: &Key) -> bool
        ensures { result ≡ has_room key.now (pairs self.now) };

    /// The keys and their items, by ascending key.
    fn sorted(&self) -> Result<Vec<(&Key, &T)>, NoMemory>
        ensures { IfOk result (λ all. map deref_pair all.items ≡ pairs self.now) };
}
