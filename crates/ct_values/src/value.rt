//! The value of a record.
ghost use Rattle.std.specs.Prelude.{◌≡◌, ◌≤◌, ◌<◌, ◌⊎◌, ℕ, length, IfOk, OnOk, IsErrOf, Some, nat_eq, SomeIff, []};
ghost use Rattle.std.specs.Cmp.Lexicographic.{slice_cmp, pointwise, texts_po, texts_ties, nat_list_cmp_total, nat_list_eq_equiv};
ghost use Rattle.std.specs.Cmp.{partial_equiv_from_equiv};
ghost use Rattle.std.specs.Cmp.Rules.{hashing};
ghost use Rattle.std.specs.Ordering.{nat_cmp};
ghost use Rattle.std.specs.Hash as fed;
ghost use Rattle.std.proofs.Common.{refl, rules};

use crate::copies::Duplicate;
use crate::memory::{BytesFault, NoMemory};
use crate::same::same_bytes;
use std::alloc::Global;
use std::cmp::Ordering;
use std::hash::{Hash, Hasher};
use std::marker::Model;
use std::sync::Arc;

/// A value: 0 to 1,024 bytes, in the order of its bytes. The empty value is that of a deleted record.
#[derive(Debug)]
pub struct Value {
    list: Option<Arc<Vec<u8>>>,
}

impl Drop for Value {
    /// All that it holds is let go.
    fn drop(self) {
        let Value { list: _ } = self;
    }
}

impl Model for Value {
    ghost use Rattle.std.specs.Prelude.{List, [], ℕ, length, ◌≤◌};
    ghost use Rattle.std.specs.Option.{option_map_or};

    ghost Value = { List ℕ };

    ghost view = { λ a. option_map_or (λ v. v.value.items) a.list [] };

    ghost invariant = { λ a. length (option_map_or (λ v. v.value.items) a.list []) ≤ 1024 };
}

impl PartialEq for Value {
    ghost eq = { pointwise nat_eq };

    ghost laws = { partial_equiv_from_equiv nat_list_eq_equiv };

    fn eq(&self, other: &Value) -> bool {
        same_bytes(self.bytes(), other.bytes())
    }
}

impl Eq for Value {
    ghost laws = { nat_list_eq_equiv };
}

impl PartialOrd for Value {
    ghost partial_cmp = { λ x y. Some (slice_cmp nat_cmp x y) };

    ghost laws = { texts_po };

    fn partial_cmp(&self, other: &Value) -> Option<Ordering> {
        Some(self.cmp(other))
    }
}

impl Ord for Value {
    ghost cmp = { slice_cmp nat_cmp };

    ghost total = { nat_list_cmp_total };

    ghost matches_partial_cmp = { λ x y. refl };

    ghost matches_eq = { texts_ties };

    fn cmp(&self, other: &Value) -> Ordering {
        self.bytes().cmp(&other.bytes())
    }
}

impl Hash for Value {
    ghost hash_input = { fed.slice fed.u8 };

    ghost respects_eq = { Prim.search (hashing, rules) };

    fn hash<H: Hasher>(&self, state: &mut H) {
        self.bytes().hash(state);
    }
}

impl Value {
    /// The empty value, which takes no memory.
    pub fn empty(alloc: Global) -> Value
        ensures { result ≡ [] }
    {
        let _ = alloc;
        Value { list: None }
    }

    /// The value of these bytes. `BadLength` comes exactly where there are more than 1,024.
    pub fn new(alloc: Global, bytes: &[u8]) -> Result<Value, BytesFault>
        ensures ok { IfOk result (λ v. v ≡ bytes.now) }
        ensures in_range { OnOk result (length bytes.now ≤ 1024) }
        ensures bad_length { (n : ℕ) → IsErrOf result (BytesFault.BadLength n) → (n ≡ length bytes.now) × (1024 < n) }
        ensures no_bad_byte { (n : ℕ) → ¬ IsErrOf result (BytesFault.BadByte n) }
        ensures out_of_range { 1024 < length bytes.now → (result ≡ Err (BytesFault.BadLength (length bytes.now))) ⊎ (result ≡ Err BytesFault.NoMemory) }
    {
        if bytes.len() > 1024 {
            return Err(BytesFault::BadLength(bytes.len() as u64));
        }
        if bytes.is_empty() {
            return Ok(Value { list: None });
        }
        let list = Vec::from_slice(alloc, bytes)?;
        match Arc::new(alloc, list) {
            Ok(list) => Ok(Value { list: Some(list) }),
            Err(_) => Err(BytesFault::NoMemory),
        }
    }

    /// The value whose bytes these are. None exactly where there are more than 1,024.
    pub fn from_vec(list: Vec<u8>) -> Result<Option<Value>, NoMemory>
        ensures { IfOk result (λ o. SomeIff o (length list.items ≤ 1024) list.items) }
    {
        if list.len() > 1024 {
            return Ok(None);
        }
        let list = Arc::new(*list.allocator(), list)?;
        Ok(Some(Value { list: Some(list) }))
    }

    /// Its bytes.
    pub fn bytes(&self) -> &[u8]
        ensures bytes { result.now ≡ self.now }
        ensures in_range { length self.now ≤ 1024 }
    {
        match &self.list {
            Some(list) => list.as_slice(),
            None => &[],
        }
    }

    /// A copy that equals it.
    pub fn copy(&self) -> Result<Value, NoMemory>
        ensures { IfOk result (λ x. x ≡ self.now) }
    {
        match &self.list {
            Some(list) => {
                let list = Arc::try_clone(list)?;
                Ok(Value { list: Some(list) })
            }
            None => Ok(Value { list: None }),
        }
    }
}

impl Duplicate for Value {
    fn duplicate(&self) -> Result<Value, NoMemory> {
        self.copy()
    }
}
