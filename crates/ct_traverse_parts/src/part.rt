//! Bytes that have several owners.
ghost use Rattle.std.specs.Prelude.{◌≡◌, ◌≤◌, ◌-◌, ℕ, length, take, drop, nat_eq, IfOk, Some};
ghost use Rattle.std.specs.Cmp.Lexicographic.{pointwise, texts_po, texts_ties, nat_list_cmp_total, nat_list_eq_equiv};
ghost use Rattle.std.specs.Cmp.{partial_equiv_from_equiv};
ghost use Rattle.std.specs.Cmp.Rules.{hashing};
ghost use Rattle.std.specs.Hash as fed;
ghost use Rattle.std.proofs.Common.{refl, rules};
ghost use Rattle.ct_values.specs.Key.{key_cmp};

use ct_values::memory::NoMemory;
use std::cmp::Ordering;
use std::hash::{Hash, Hasher};
use std::marker::Model;
use std::rc::Rc;

/// A part of bytes that have several owners, in the order of its bytes.
pub struct Part {
    all: Rc<Vec<u8>>,
    start: usize,
    end: usize,
}

impl Drop for Part {
    /// All that it holds is let go.
    fn drop(self) {
        let Part {
            all: _,
            start: _,
            end: _,
        } = self;
    }
}

impl Model for Part {
    ghost use Rattle.std.specs.Prelude.{List, ℕ, length, take, drop, ◌≤◌, ◌-◌};

    ghost Value = { List ℕ };

    ghost view = { λ p. take (p.end - p.start) (drop p.start p.all.value.items) };

    ghost invariant = { λ p. (p.start ≤ p.end) × (p.end ≤ length p.all.value.items) };
}

impl PartialEq for Part {
    ghost eq = { pointwise nat_eq };

    ghost laws = { partial_equiv_from_equiv nat_list_eq_equiv };

    fn eq(&self, other: &Part) -> bool {
        self.bytes() == other.bytes()
    }
}

impl Eq for Part {
    ghost laws = { nat_list_eq_equiv };
}

impl PartialOrd for Part {
    ghost partial_cmp = { λ x y. Some (key_cmp x y) };

    ghost laws = { texts_po };

    fn partial_cmp(&self, other: &Part) -> Option<Ordering> {
        Some(self.cmp(other))
    }
}

impl Ord for Part {
    ghost cmp = { key_cmp };

    ghost total = { nat_list_cmp_total };

    ghost matches_partial_cmp = { λ x y. refl };

    ghost matches_eq = { texts_ties };

    fn cmp(&self, other: &Part) -> Ordering {
        self.bytes().cmp(&other.bytes())
    }
}

impl Hash for Part {
    ghost hash_input = { fed.slice fed.u8 };

    ghost respects_eq = { Prim.search (hashing, rules) };

    fn hash<H: Hasher>(&self, state: &mut H) {
        self.bytes().hash(state);
    }
}

impl Part {
    /// The bytes from a place to another one. They have one more owner then.
    pub fn new(all: &Rc<Vec<u8>>, start: usize, end: usize) -> Result<Part, NoMemory>
        requires ascend { start ≤ end }
        requires there { end ≤ length all.now.value.items }
        ensures { IfOk result (λ part. part ≡ take (end - start) (drop start all.now.value.items)) }
    {
        Ok(Part {
            all: all.clone()?,
            start,
            end,
        })
    }

    /// Its bytes.
    pub fn bytes(&self) -> &[u8]
        ensures { result.now ≡ self.now }
    {
        &self.all.as_slice()[self.start..self.end]
    }

    /// A part that equals it, of the same bytes.
    pub fn copy(&self) -> Result<Part, NoMemory>
        ensures { IfOk result (λ part. part ≡ self.now) }
    {
        Ok(Part {
            all: self.all.clone()?,
            start: self.start,
            end: self.end,
        })
    }
}
