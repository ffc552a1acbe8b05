//! The name of a database.
ghost use Rattle.std.specs.Prelude.{◌≡◌, ◌≤◌, ◌<◌, ◌⊎◌, ℕ, length, IfOk, OnOk, IsErrOf, Some, nat_eq, None, Err, []};
ghost use Rattle.std.specs.Cmp.Lexicographic.{slice_cmp, pointwise, texts_po, texts_ties, nat_list_cmp_total, nat_list_eq_equiv};
ghost use Rattle.std.specs.Cmp.{partial_equiv_from_equiv};
ghost use Rattle.std.specs.Cmp.Rules.{hashing};
ghost use Rattle.std.specs.Ordering.{nat_cmp};
ghost use Rattle.std.specs.Hash as fed;
ghost use Rattle.std.proofs.Common.{refl, rules};
ghost use Rattle.ct_values.specs.Name.{bad_byte, is_allowed, is_letter, is_name_byte};

use crate::copies::Duplicate;
use crate::memory::{BytesFault, NoMemory};
use std::alloc::Global;
use std::cmp::Ordering;
use std::hash::{Hash, Hasher};
use std::marker::Model;

fn is_letter(b: u8) -> bool
    ensures { result ≡ is_letter b }
{
    b.is_ascii_uppercase() || b.is_ascii_lowercase()
}

fn is_name_byte(b: u8) -> bool
    ensures { result ≡ is_name_byte b }
{
    is_letter(b) || b.is_ascii_digit() || b == b'_' || b == b'.' || b == b'-'
}

/// May this byte stand at this place of a name?
fn is_allowed(i: usize, b: u8) -> bool
    ensures { result ≡ is_allowed i b }
{
    if i == 0 {
        is_letter(b)
    } else {
        is_name_byte(b)
    }
}

/// The first offset of a byte that the rule of names forbids.
fn bad_byte(bytes: &[u8]) -> Option<u64>
    ensures { result ≡ bad_byte bytes.now }
{
    for (i, b) in bytes.iter().enumerate() {
        if !is_allowed(i, *b) {
            return Some(i as u64);
        }
    }
    None
}

/// A name: 1 to 63 bytes, a letter first, then letters, digits, `_`, `.` and `-`, in the order of its bytes.
#[derive(Debug)]
pub struct DbName {
    list: Vec<u8>,
}

impl Drop for DbName {
    /// All that it holds is let go.
    fn drop(self) {
        let DbName { list: _ } = self;
    }
}

impl Model for DbName {
    ghost use Rattle.std.specs.Prelude.{◌≡◌, List, ℕ, None, length, ◌≤◌};
    ghost use Rattle.ct_values.specs.Name.{bad_byte};

    ghost Value = { List ℕ };

    ghost view = { λ a. a.list.items };

    ghost invariant = { λ a. (1 ≤ length a.list.items) × (length a.list.items ≤ 63) × (bad_byte a.list.items ≡ None) };
}

impl PartialEq for DbName {
    ghost eq = { pointwise nat_eq };

    ghost laws = { partial_equiv_from_equiv nat_list_eq_equiv };

    fn eq(&self, other: &DbName) -> bool {
        self.list == other.list
    }
}

impl Eq for DbName {
    ghost laws = { nat_list_eq_equiv };
}

impl PartialOrd for DbName {
    ghost partial_cmp = { λ x y. Some (slice_cmp nat_cmp x y) };

    ghost laws = { texts_po };

    fn partial_cmp(&self, other: &DbName) -> Option<Ordering> {
        Some(self.cmp(other))
    }
}

impl Ord for DbName {
    ghost cmp = { slice_cmp nat_cmp };

    ghost total = { nat_list_cmp_total };

    ghost matches_partial_cmp = { λ x y. refl };

    ghost matches_eq = { texts_ties };

    fn cmp(&self, other: &DbName) -> Ordering {
        self.list.as_slice().cmp(&other.list.as_slice())
    }
}

impl Hash for DbName {
    ghost hash_input = { fed.slice fed.u8 };

    ghost respects_eq = { Prim.search (hashing, rules) };

    fn hash<H: Hasher>(&self, state: &mut H) {
        self.list.as_slice().hash(state);
    }
}

impl DbName {
    /// The name of these bytes. `BadLength` comes exactly where there are none or more than 63, and else `BadByte`
    /// exactly where some byte is forbidden, with the first such offset.
    pub fn new(alloc: Global, bytes: &[u8]) -> Result<DbName, BytesFault>
        ensures ok { IfOk result (λ n. n ≡ bytes.now) }
        ensures in_range { OnOk result ((1 ≤ length bytes.now) × (length bytes.now ≤ 63) × (bad_byte bytes.now ≡ None)) }
        ensures bad_length { (n : ℕ) → IsErrOf result (BytesFault.BadLength n) → (n ≡ length bytes.now) × ((n ≡ 0) ⊎ (63 < n)) }
        ensures bad_byte { (n : ℕ) → IsErrOf result (BytesFault.BadByte n) → (1 ≤ length bytes.now) × (length bytes.now ≤ 63) × (bad_byte bytes.now ≡ Some n) }
    {
        if bytes.is_empty() || bytes.len() > 63 {
            return Err(BytesFault::BadLength(bytes.len() as u64));
        }
        if let Some(offset) = bad_byte(bytes) {
            return Err(BytesFault::BadByte(offset));
        }
        let list = Vec::from_slice(alloc, bytes)?;
        Ok(DbName { list })
    }

    /// Its bytes.
    pub fn bytes(&self) -> &[u8]
        ensures bytes { result.now ≡ self.now }
        ensures in_range { (1 ≤ length self.now) × (length self.now ≤ 63) × (bad_byte self.now ≡ None) }
    {
        self.list.as_slice()
    }

    /// A copy that equals it.
    pub fn copy(&self) -> Result<DbName, NoMemory>
        ensures { IfOk result (λ x. x ≡ self.now) }
    {
        let list = self.list.clone()?;
        Ok(DbName { list })
    }
}

impl Duplicate for DbName {
    fn duplicate(&self) -> Result<DbName, NoMemory> {
        self.copy()
    }
}
