//! The call functions of a cluster.
ghost use Rattle.std.specs.Prelude.{IsTrue};
ghost use Rattle.ct_call.specs.Rules.{are_distinct};
ghost use Rattle.ct_call.specs.Named.{named};

use crate::entry::Entry;

/// The call functions, each with its number and its rule, in the order in which they were added. No number stands twice.
pub struct CallTable {
    pub(crate) calls: Vec<Entry>,
    ghost distinct: { IsTrue (are_distinct (named calls.items)) },
}

impl Drop for CallTable {
    /// All that it holds is let go.
    fn drop(self) {
        let CallTable { calls: _ } = self;
    }
}
