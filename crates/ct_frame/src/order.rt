//! Lists in ascending order: which of two items comes before the other.
ghost use Rattle.std.specs.Prelude.{◌≡◌, Bool, nat_lt};
ghost use Rattle.ct_values.specs.Address.{address_before};
ghost use Rattle.ct_frame.specs.Fields.{ascends, row_before, pair_before, ptable_before, assigned_before};

use crate::frame::{Assigned, PTable, TableRow};
use ct_values::address::Address;
use ct_values::client::Pair;

/// Items that stand in lists in ascending order.
pub trait Ranked {
    ghost comes_before: { Self → Self → Bool };

    fn comes_before(&self, other: &Self) -> bool
        ensures { result ≡ comes_before self.now other.now };
}

impl Ranked for u32 {
    ghost comes_before = { nat_lt };

    fn comes_before(&self, other: &u32) -> bool {
        *self < *other
    }
}

impl Ranked for Address {
    ghost comes_before = { address_before };

    fn comes_before(&self, other: &Address) -> bool {
        *self < *other
    }
}

impl Ranked for TableRow {
    ghost comes_before = { row_before };

    fn comes_before(&self, other: &TableRow) -> bool {
        self.db < other.db || (self.db == other.db && self.key < other.key)
    }
}

impl Ranked for Pair {
    ghost comes_before = { pair_before };

    fn comes_before(&self, other: &Pair) -> bool {
        self.key < other.key
    }
}

impl Ranked for PTable {
    ghost comes_before = { ptable_before };

    fn comes_before(&self, other: &PTable) -> bool {
        self.db < other.db
    }
}

impl Ranked for Assigned {
    ghost comes_before = { assigned_before };

    fn comes_before(&self, other: &Assigned) -> bool {
        self.address < other.address
    }
}

/// Whether each item comes before the next.
pub fn ascends<T: Ranked>(items: &[T]) -> bool
    ensures { result ≡ ascends T.comes_before items.now }
{
    let Some((first, rest)) = items.split_first() else {
        return true;
    };
    let mut last = first;
    for item in rest {
        if !last.comes_before(item) {
            return false;
        }
        last = item;
    }
    true
}
