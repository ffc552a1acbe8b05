//! A persistent database at one node.
ghost use Rattle.std.specs.Prelude.{◌≡◌, IfOk, OnOk, OnErr, IsTrue, option_copied};
ghost use Rattle.std.specs.List.{list_all};
ghost use Rattle.ct_frame.specs.Fields.{ascends, pair_before, is_kept};
ghost use Rattle.ct_store.specs.Map.{look};
ghost use Rattle.ct_persist.specs.Persisted.{IsKept, unwritten, fits, answer, updated, listed, replaced};

use crate::writes::{apply, built, is_there, resized};
use ct_frame::frame::PTable;
use ct_store::plain::PlainStore;
use ct_values::client::Pair;
use ct_values::copies::Duplicate;
use ct_values::key::Key;
use ct_values::memory::NoMemory;
use ct_values::value::Value;
use std::alloc::Global;
use std::marker::Model;

/// What is answered to an update.
#[derive(Clone, Copy, Debug, PartialEq, Eq)]
pub enum Updated {
    /// It had the next number and its writes fit: it was applied.
    Done,
    /// Its number is not above the own one: it was applied before.
    Had,
    /// An update before it is missing, or its writes do not fit.
    Gap,
}

/// The pairs of a persistent database, and the number of the last commit that was applied to them. No pair has the empty
/// value.
pub struct PStore {
    alloc: Global,
    seq: u64,
    items: PlainStore<Value>,
}

impl Drop for PStore {
    /// All that it holds is let go.
    fn drop(self) {
        let PStore {
            alloc: _,
            seq: _,
            items: _,
        } = self;
    }
}

impl Model for PStore {
    ghost use Rattle.ct_persist.specs.Persisted.{Persisted, IsKept};
    ghost use Rattle.ct_persist.specs.Code.{persisted_code};

    ghost Value = { Persisted };

    ghost coded = { persisted_code };

    ghost view = { λ s. record { seq = s.seq; pairs = s.items } };

    ghost invariant = { λ s. IsKept s.items };
}

impl PStore {
    /// No pairs, and the number 0. It takes no memory.
    pub fn new(alloc: Global) -> PStore
        ensures { result ≡ unwritten }
    {
        PStore {
            alloc,
            seq: 0,
            items: PlainStore::new(alloc),
        }
    }

    /// The number of the last commit that was applied.
    pub fn seq(&self) -> u64
        ensures seq { result ≡ self.now.seq }
        ensures kept { IsKept self.now.pairs }
    {
        self.seq
    }

    /// The value of a key.
    pub fn get(&self, key: &Key) -> Option<&Value>
        ensures { option_copied result ≡ look key.now self.now.pairs }
    {
        self.items.get(key)
    }

    /// Are there at most 1,024 pairs after all of the writes? It takes no memory.
    pub fn fits(&self, writes: &[Pair]) -> bool
        ensures { result ≡ fits writes.now self.now.pairs }
    {
        let mut count = self.items.len() as u128;
        for i in 0..writes.len() {
            let write = &writes[i];
            let was_there = is_there(&self.items, &writes[..i], &write.key);
            let is_empty = write.value.bytes().is_empty();
            count = resized(count, was_there, is_empty);
        }
        count < 1025
    }

    /// The pairs, by ascending key. They are as `replace` wants them.
    #[tactic(auto, using(crate::proofs::Orders::listed_ascends, crate::proofs::Orders::listed_kept))]
    pub fn pairs(&self) -> Result<Vec<Pair>, NoMemory>
        ensures pairs { IfOk result (λ pairs. pairs.items ≡ listed self.now.pairs) }
        ensures ascending { IsTrue (ascends pair_before (listed self.now.pairs)) }
        ensures kept { IsTrue (list_all is_kept (listed self.now.pairs)) }
    {
        let all = self.items.sorted()?;
        let mut pairs = Vec::with_capacity(self.alloc, all.len())?;
        for (key, value) in all {
            pairs.push(Pair {
                key: key.copy()?,
                value: value.copy()?,
            })?;
        }
        Ok(pairs)
    }

    /// Takes an update. `Done` where its number is one above the own number and its writes fit; then they are applied in
    /// order, an empty value removes the pair of its key, and the number is the own one. `Had` where its number is not
    /// above the own one, and `Gap` otherwise; these change nothing, and nor does want of memory.
    pub fn update(&mut self, seq: u64, writes: &[Pair]) -> Result<Updated, NoMemory>
        ensures answer { IfOk result (λ u. u ≡ answer seq writes.now self.old) }
        ensures ok { OnOk result (self.new ≡ updated seq writes.now self.old) }
        ensures err { OnErr result (self.new ≡ self.old) }
    {
        if seq <= self.seq {
            return Ok(Updated::Had);
        }
        if seq - self.seq != 1 || !self.fits(writes) {
            return Ok(Updated::Gap);
        }
        apply(self.alloc, &mut self.items, writes)?;
        self.seq = seq;
        Ok(Updated::Done)
    }

    /// Takes number and pairs of a table. Its pairs ascend strictly by key, and none has the empty value. Without memory
    /// nothing changes.
    #[tactic(auto, using(crate::proofs::Orders::keyed_kept))]
    pub fn replace(&mut self, table: &PTable) -> Result<(), NoMemory>
        requires ascending { IsTrue (ascends pair_before table.now.pairs) }
        requires kept { IsTrue (list_all is_kept table.now.pairs) }
        ensures ok { OnOk result (self.new ≡ replaced table.now) }
        ensures err { OnErr result (self.new ≡ self.old) }
    {
        let pairs = table.pairs.duplicate()?;
        self.items = built(self.alloc, pairs.into_vec())?;
        self.seq = table.seq;
        Ok(())
    }

    /// A copy that equals it.
    #[tactic(auto, using(crate::proofs::Orders::keyed_listed))]
    pub fn copy(&self) -> Result<PStore, NoMemory>
        ensures { IfOk result (λ s. s ≡ self.now) }
    {
        let pairs = self.pairs()?;
        Ok(PStore {
            alloc: self.alloc,
            seq: self.seq,
            items: built(self.alloc, pairs)?,
        })
    }
}

impl Duplicate for PStore {
    fn duplicate(&self) -> Result<PStore, NoMemory> {
        self.copy()
    }
}
