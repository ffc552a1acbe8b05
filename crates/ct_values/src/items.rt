//! A list as contracts see it: its items, and nothing else.
ghost use Rattle.std.specs.Prelude.{◌≡◌, length, IfOk, OnOk, OnErr, IsTrue, MatchOption, slice_get, Some, ◌↔◌, ◌<◌, ◌++◌, ◌∷◌, [], take};
ghost use Rattle.std.specs.Cmp.Lexicographic.{pointwise, lists_per, lists_equiv};

use crate::copies::Duplicate;
use crate::memory::NoMemory;
use std::alloc::{AllocFailed, Global};
use std::marker::Model;

/// A list that is seen as its items and nothing else.
#[derive(Debug)]
pub struct Items<T> {
    list: Vec<T>,
}

impl<T: Drop> Drop for Items<T> {
    /// All that it holds is let go.
    fn drop(self) {
        let Items { list: _ } = self;
    }
}

impl<T> Model for Items<T> {
    ghost use Rattle.std.specs.Prelude.{List};

    ghost Value = { List T };

    ghost view = { λ a. a.list.items };
}

impl<T: PartialEq> PartialEq for Items<T> {
    ghost eq = { pointwise T.eq };

    ghost laws = { lists_per T.laws };

    fn eq(&self, other: &Items<T>) -> bool {
        self.list == other.list
    }
}

impl<T: Eq> Eq for Items<T> {
    ghost laws = { lists_equiv T.Eq.laws };
}

impl<T> Items<T> {
    pub fn empty(alloc: Global) -> Self
        ensures { result ≡ [] }
    {
        Items {
            list: Vec::new(alloc),
        }
    }

    pub fn new(list: Vec<T>) -> Self
        ensures { result ≡ list.items }
    {
        Items { list }
    }

    pub fn as_slice(&self) -> &[T]
        ensures { result.now ≡ self.now }
    {
        self.list.as_slice()
    }

    pub fn into_vec(self) -> Vec<T>
        ensures { result.items ≡ self }
    {
        let Items { list } = self;
        list
    }

    pub fn len(&self) -> usize
        ensures { result ≡ length self.now }
    {
        self.list.len()
    }
}

impl<T> Items<T> {
    pub fn push(&mut self, item: T) -> Result<(), AllocFailed<T>>
        ensures ok { OnOk result (self.new ≡ self.old ++ item ∷ []) }
        ensures err { OnErr result (self.new ≡ self.old) }
    {
        self.list.push(item)
    }

    pub fn is_empty(&self) -> bool
        ensures { IsTrue result ↔ (self.now ≡ []) }
    {
        self.list.is_empty()
    }

    /// Takes the first item off.
    pub fn take_first(&mut self) -> Option<T>
        ensures { MatchOption result ((self.old ≡ []) × (self.new ≡ [])) (λ x. self.old ≡ x ∷ self.new) }
    {
        if self.list.is_empty() {
            return None;
        }
        Some(self.list.remove(0))
    }

    /// Moves all of `more` to the end. Without memory both stay as they are.
    pub fn append(&mut self, more: &mut Vec<T>) -> Result<(), NoMemory>
        ensures ok { OnOk result (self.new ≡ self.old ++ more.old.items) }
        ensures moved { OnOk result (more.new.items ≡ []) }
        ensures err { OnErr result (self.new ≡ self.old) }
        ensures kept { OnErr result (more.new.items ≡ more.old.items) }
    {
        self.list.append(more)?;
        Ok(())
    }

    ghost use Rattle.std.specs.Borrow.{sem};
    ghost use Rattle.ct_values.specs.Lending.{LendsAt};

    pub fn get_mut(&mut self, index: usize) -> &mut T
        requires { index < length self.old }
        ensures* writes_back { sem 𝓛 (LendsAt T.row self.entry index result) }
        ensures value { slice_get self.old index ≡ Some result.now }
    {
        &mut self.list[index]
    }
}

impl<T: Copy> Items<T> {
    /// Puts all of `more` behind the others. Without memory nothing changes.
    pub fn extend_from_slice(&mut self, more: &[T]) -> Result<(), NoMemory>
        ensures ok { OnOk result (self.new ≡ self.old ++ more.now) }
        ensures err { OnErr result (self.new ≡ self.old) }
    {
        self.list.extend_from_slice(more)?;
        Ok(())
    }
}

impl<T: Drop> Items<T> {
    /// Keeps the first items alone.
    pub fn truncate(&mut self, count: usize)
        ensures { self.new ≡ take count self.old }
    {
        self.list.truncate(count);
    }
}

impl<T: Duplicate> Items<T> {
    pub fn copy(&self, alloc: Global) -> Result<Items<T>, NoMemory>
        ensures { IfOk result (λ x. x ≡ self.now) }
    {
        let mut list = Vec::with_capacity(alloc, self.list.len())?;
        for x in &self.list {
            list.push(x.duplicate()?)?;
        }
        Ok(Items { list })
    }
}

impl<T: Duplicate> Duplicate for Items<T> {
    fn duplicate(&self) -> Result<Items<T>, NoMemory> {
        self.copy(*self.list.allocator())
    }
}
