//! A value on the heap as contracts see it: the value, and nothing else.
ghost use Rattle.std.specs.Prelude.{◌≡◌, IfOk, length};
ghost use Rattle.std.specs.Cmp.Lexicographic.{pointwise, lists_equiv, lists_per};

use crate::copies::Duplicate;
use crate::items::Items;
use crate::memory::NoMemory;
use std::alloc::Global;
use std::boxed::Box;
use std::marker::Model;

/// A value on the heap, which is moved as one pointer. It is seen as the value and nothing else.
#[derive(Debug)]
pub struct Boxed<T> {
    held: Box<T>,
}

impl<T: Drop> Drop for Boxed<T> {
    /// All that it holds is let go.
    fn drop(self) {
        let Boxed { held: _ } = self;
    }
}

impl<T> Model for Boxed<T> {
    ghost Value = { T };

    ghost view = { λ a. a.held.value };
}

impl<T> Boxed<T> {
    ghost use Rattle.std.specs.Borrow.{sem};
    ghost use Rattle.ct_values.specs.Lending.{LendsAll};

    /// The value.
    pub fn as_ref(&self) -> &T
        ensures { result.now ≡ self.now }
    {
        self.held.as_ref()
    }

    /// The value, to be changed where it lies.
    pub fn as_mut(&mut self) -> &mut T
        ensures* writes_back { sem 𝓛 (LendsAll T.row self.entry result) }
        ensures value { result.now ≡ self.old }
    {
        self.held.as_mut()
    }

    /// The value, off the heap.
    pub fn into_inner(self) -> T
        ensures { result ≡ self }
    {
        let Boxed { held } = self;
        Box::into_inner(held)
    }
}

impl<T: Drop> Boxed<T> {
    /// The value is put on the heap.
    pub fn new(alloc: Global, value: T) -> Result<Boxed<T>, NoMemory>
        ensures { IfOk result (λ b. b ≡ value) }
    {
        match Box::new(alloc, value) {
            Ok(held) => Ok(Boxed { held }),
            Err(_) => Err(NoMemory),
        }
    }
}

/// A list on the heap, which is moved as one pointer. It is seen as its items and nothing else.
#[derive(Debug)]
pub struct BoxedItems<T> {
    list: Box<Vec<T>>,
}

impl<T: Drop> Drop for BoxedItems<T> {
    /// All that it holds is let go.
    fn drop(self) {
        let BoxedItems { list: _ } = self;
    }
}

impl<T> Model for BoxedItems<T> {
    ghost use Rattle.std.specs.Prelude.{List};

    ghost Value = { List T };

    ghost view = { λ a. a.list.value.items };
}

impl<T: PartialEq> PartialEq for BoxedItems<T> {
    ghost eq = { pointwise T.eq };

    ghost laws = { lists_per T.laws };

    fn eq(&self, other: &BoxedItems<T>) -> bool {
        self.list.as_ref() == other.list.as_ref()
    }
}

impl<T: Eq> Eq for BoxedItems<T> {
    ghost laws = { lists_equiv T.Eq.laws };
}

impl<T> BoxedItems<T> {
    /// The items.
    pub fn as_slice(&self) -> &[T]
        ensures { result.now ≡ self.now }
    {
        self.list.as_ref().as_slice()
    }

    /// How many items there are.
    pub fn len(&self) -> usize
        ensures { result ≡ length self.now }
    {
        self.list.as_ref().len()
    }
}

impl<T: Drop> BoxedItems<T> {
    /// The list is put on the heap.
    pub fn new(list: Items<T>) -> Result<BoxedItems<T>, NoMemory>
        ensures { IfOk result (λ b. b ≡ list) }
    {
        let list = list.into_vec();
        let alloc = *list.allocator();
        match Box::new(alloc, list) {
            Ok(list) => Ok(BoxedItems { list }),
            Err(_) => Err(NoMemory),
        }
    }
}

impl<T: Duplicate + Drop> BoxedItems<T> {
    /// A copy of the items.
    pub fn items(&self) -> Result<Items<T>, NoMemory>
        ensures { IfOk result (λ b. b ≡ self.now) }
    {
        let list = self.list.as_ref();
        let alloc = *list.allocator();
        let mut all = Vec::with_capacity(alloc, list.len())?;
        for x in list {
            all.push(x.duplicate()?)?;
        }
        Ok(Items::new(all))
    }
}

impl<T: Duplicate + Drop> Duplicate for BoxedItems<T> {
    fn duplicate(&self) -> Result<BoxedItems<T>, NoMemory> {
        BoxedItems::new(self.items()?)
    }
}
