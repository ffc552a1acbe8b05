//! The keys of a database that the next vacuum looks at.
ghost use Rattle.std.specs.Prelude.{◌≡◌, [], IfOk, OnOk, OnErr};
ghost use Rattle.ct_tracking.specs.Candidates.{Ascends, forgotten, noted};

use ct_values::copies::Duplicate;
use ct_values::key::Key;
use ct_values::memory::NoMemory;
use std::alloc::Global;
use std::collections::BTreeSet;
use std::marker::Model;

/// A set of keys, seen by ascending key. To note or to forget a key costs the logarithm of their number.
pub struct Candidates {
    alloc: Global,
    set: BTreeSet<Key>,
}

impl Drop for Candidates {
    /// All that it holds is let go.
    fn drop(self) {
        let Candidates { alloc: _, set: _ } = self;
    }
}

impl Model for Candidates {
    ghost use Rattle.std.specs.Prelude.{List, ℕ};

    ghost Value = { List (List ℕ) };

    ghost view = { λ c. c.set.keys };
}

impl Candidates {
    /// No keys.
    pub fn new(alloc: Global) -> Candidates
        ensures { result ≡ [] }
    {
        Candidates {
            alloc,
            set: BTreeSet::new(alloc),
        }
    }

    /// The key is in the set. Without memory the set stays as it is.
    pub fn note(&mut self, key: &Key) -> Result<(), NoMemory>
        ensures ok { OnOk result (self.new ≡ noted key.now self.old) }
        ensures err { OnErr result (self.new ≡ self.old) }
    {
        self.set.insert(key.copy()?)?;
        Ok(())
    }

    /// The key is not in the set.
    pub fn forget(&mut self, key: &Key)
        ensures { self.new ≡ forgotten key.now self.old }
    {
        self.set.remove(key);
    }

    /// All keys, ascending.
    pub fn sorted(&self) -> Result<Vec<Key>, NoMemory>
        ensures keys { IfOk result (λ keys. keys.items ≡ self.now) }
        ensures ascending { Ascends self.now }
    {
        let mut keys = Vec::with_capacity(self.alloc, self.set.len())?;
        for key in &self.set {
            keys.push(key.copy()?)?;
        }
        Ok(keys)
    }

    /// A copy that equals it.
    #[tactic(auto, using(crate::proofs::Keys::one_more))]
    pub fn copy(&self) -> Result<Candidates, NoMemory>
        ensures { IfOk result (λ c. c ≡ self.now) }
    {
        let mut copied = BTreeSet::new(self.alloc);
        for key in &self.set {
            copied.insert(key.copy()?)?;
        }
        Ok(Candidates {
            alloc: self.alloc,
            set: copied,
        })
    }
}

impl Duplicate for Candidates {
    fn duplicate(&self) -> Result<Candidates, NoMemory> {
        self.copy()
    }
}
