//! The key of a record.
ghost use Rattle.std.specs.Prelude.{◌≡◌, ◌≤◌, ◌<◌, ◌⊎◌, ℕ, length, IfOk, OnOk, IsErrOf, Some, nat_eq, SomeIff};
ghost use Rattle.std.specs.Cmp.Lexicographic.{pointwise, texts_po, texts_ties, nat_list_cmp_total, nat_list_eq_equiv};
ghost use Rattle.std.specs.Cmp.{partial_equiv_from_equiv};
ghost use Rattle.std.specs.Cmp.Rules.{hashing};
ghost use Rattle.std.specs.Hash as fed;
ghost use Rattle.std.proofs.Common.{refl, rules};
ghost use Rattle.ct_values.specs.Key.{key_cmp};

use crate::copies::Duplicate;
use crate::memory::{BytesFault, NoMemory};
use crate::same::same_bytes;
use std::alloc::Global;
use std::cmp::Ordering;
use std::hash::{Hash, Hasher};
use std::marker::Model;
use std::sync::Arc;

/// A key: 1 to 255 bytes, in the order of its bytes.
#[derive(Debug)]
pub struct Key {
    list: Arc<Vec<u8>>,
}

impl Drop for Key {
    /// All that it holds is let go.
    fn drop(self) {
        let Key { list: _ } = self;
    }
}

impl Model for Key {
    ghost use Rattle.std.specs.Prelude.{List, ℕ, length, ◌≤◌};

    ghost Value = { List ℕ };

    ghost view = { λ a. a.list.value.items };

    ghost invariant = { λ a. (1 ≤ length a.list.value.items) × (length a.list.value.items ≤ 255) };
}

impl PartialEq for Key {
    ghost eq = { pointwise nat_eq };

    ghost laws = { partial_equiv_from_equiv nat_list_eq_equiv };

    fn eq(&self, other: &Key) -> bool {
        same_bytes(self.list.as_slice(), other.list.as_slice())
    }
}

impl Eq for Key {
    ghost laws = { nat_list_eq_equiv };
}

impl PartialOrd for Key {
    ghost partial_cmp = { λ x y. Some (key_cmp x y) };

    ghost laws = { texts_po };

    fn partial_cmp(&self, other: &Key) -> Option<Ordering> {
        Some(self.cmp(other))
    }
}

impl Ord for Key {
    ghost cmp = { key_cmp };

    ghost total = { nat_list_cmp_total };

    ghost matches_partial_cmp = { λ x y. refl };

    ghost matches_eq = { texts_ties };

    fn cmp(&self, other: &Key) -> Ordering {
        self.list.as_slice().cmp(&other.list.as_slice())
    }
}

impl Hash for Key {
    ghost hash_input = { fed.slice fed.u8 };

    ghost respects_eq = { Prim.search (hashing, rules) };

    fn hash<H: Hasher>(&self, state: &mut H) {
        self.list.as_slice().hash(state);
    }
}

impl Key {
    /// The key of these bytes. `BadLength` comes exactly where there are none or more than 255.
    pub fn new(alloc: Global, bytes: &[u8]) -> Result<Key, BytesFault>
        ensures ok { IfOk result (λ k. k ≡ bytes.now) }
        ensures in_range { OnOk result ((1 ≤ length bytes.now) × (length bytes.now ≤ 255)) }
        ensures bad_length { (n : ℕ) → IsErrOf result (BytesFault.BadLength n) → (n ≡ length bytes.now) × ((n ≡ 0) ⊎ (255 < n)) }
        ensures no_bad_byte { (n : ℕ) → ¬ IsErrOf result (BytesFault.BadByte n) }
        ensures out_of_range { (length bytes.now ≡ 0) ⊎ (255 < length bytes.now) → (result ≡ Err (BytesFault.BadLength (length bytes.now))) ⊎ (result ≡ Err BytesFault.NoMemory) }
    {
        if bytes.is_empty() || bytes.len() > 255 {
            return Err(BytesFault::BadLength(bytes.len() as u64));
        }
        let list = Vec::from_slice(alloc, bytes)?;
        match Arc::new(alloc, list) {
            Ok(list) => Ok(Key { list }),
            Err(_) => Err(BytesFault::NoMemory),
        }
    }

    /// The key whose bytes these are. None exactly where there are none or more than 255.
    pub fn from_vec(list: Vec<u8>) -> Result<Option<Key>, NoMemory>
        ensures { IfOk result (λ o. SomeIff o ((1 ≤ length list.items) × (length list.items ≤ 255)) list.items) }
    {
        if list.is_empty() || list.len() > 255 {
            return Ok(None);
        }
        let list = Arc::new(*list.allocator(), list)?;
        Ok(Some(Key { list }))
    }

    /// Its bytes.
    pub fn bytes(&self) -> &[u8]
        ensures bytes { result.now ≡ self.now }
        ensures in_range { (1 ≤ length self.now) × (length self.now ≤ 255) }
    {
        self.list.as_slice()
    }

    /// A copy that equals it.
    pub fn copy(&self) -> Result<Key, NoMemory>
        ensures { IfOk result (λ x. x ≡ self.now) }
    {
        let list = Arc::try_clone(&self.list)?;
        Ok(Key { list })
    }
}

impl Duplicate for Key {
    fn duplicate(&self) -> Result<Key, NoMemory> {
        self.copy()
    }
}
