//! A database at one node.
ghost use Rattle.std.specs.Prelude.{◌≡◌, ◌≢◌, ℕ, List, false, true, [], None, IfOk, IsTrue, OnOk, OnErr, option_copied};
ghost use Rattle.std.specs.List.{list_all};
ghost use Rattle.ct_frame.specs.Fields.{ascends, is_kept, pair_before};
ghost use Rattle.ct_store.specs.Map.{Ascends, look, write, erase};
ghost use Rattle.ct_persist.specs.Persisted.{replaced, updated};
ghost use Rattle.ct_rules.specs.State.{is_blank};
ghost use Rattle.ct_rules_node.specs.Node.{or_nothing, restarted_db, untouched};
ghost use Rattle.ct_rules_node.specs.Records.{kept};
ghost use Rattle.ct_rules_node.specs.Rounds.{changed};
ghost use Rattle.ct_node_database.specs.Sweeps.{swept};
ghost use Rattle.ct_node_database.specs.Noted.{is_deleted, is_worth, IsTidy};
ghost use Rattle.ct_tracking.specs.Candidates as vacuum;

use ct_frame::frame::PTable;
use ct_frame::header::{NONE, RecCopy};
use ct_persist::commit::Commit;
use ct_persist::store::PStore;
use ct_rules::state::RecState;
use ct_store::hashed::Store;
use ct_tracking::candidates::Candidates;
use ct_tracking::tracking::Tracking;
use ct_values::boxed::Boxed;
use ct_values::client::Pair;
use ct_values::copies::Duplicate;
use ct_values::items::Items;
use ct_values::key::Key;
use ct_values::memory::NoMemory;
use std::alloc::Global;
use std::marker::Model;

/// A change of all states of a database.
#[derive(Clone, Copy, Debug, PartialEq, Eq)]
pub enum Sweep {
    /// It stays as it is.
    Keep,
    /// A round begins: entries, what waits for a record, trackings and vacuums end.
    Freeze,
    /// A round installs: copies and entries end.
    Bare,
}

/// A commit that waits for other members: the client's call, its writes, and its number with the missing members.
pub struct Committing {
    pub call: u64,
    pub writes: Items<Pair>,
    pub pending: Commit,
}

impl Drop for Committing {
    /// All that it holds is let go.
    fn drop(self) {
        let Committing {
            call: _,
            writes: _,
            pending: _,
        } = self;
    }
}

impl Model for Committing {
    ghost use Rattle.ct_rules_node.specs.Node as node;
    ghost use Rattle.ct_node_database.specs.Code.{committing_code};

    ghost Value = { node.Committing };

    ghost coded = { committing_code };

    ghost view = { λ c. record { call = c.call; writes = c.writes; pending = c.pending } };
}

impl Committing {
    /// A copy that equals it.
    pub fn copy(&self) -> Result<Committing, NoMemory>
        ensures { IfOk result (λ c. c ≡ self.now) }
    {
        Ok(Committing {
            call: self.call,
            writes: self.writes.duplicate()?,
            pending: self.pending.copy()?,
        })
    }
}

impl Duplicate for Committing {
    fn duplicate(&self) -> Result<Committing, NoMemory> {
        self.copy()
    }
}

/// The state of a database: keys and floor of one with records, contents and waiting commit of a persistent one. The keys
/// of deleted records are noted beside, for the next vacuum.
pub struct Database {
    alloc: Global,
    records: Store<Boxed<RecState>>,
    noted: Candidates,
    floor: u64,
    store: PStore,
    commit: Option<Committing>,
}

impl Drop for Database {
    /// All that it holds is let go.
    fn drop(self) {
        let Database {
            alloc: _,
            records: _,
            noted: _,
            floor: _,
            store: _,
            commit: _,
        } = self;
    }
}

impl Model for Database {
    ghost use Rattle.ct_rules_node.specs.Node as node;
    ghost use Rattle.ct_node_database.specs.Code.{database_code};
    ghost use Rattle.ct_node_database.specs.Noted.{IsTidy};

    ghost Value = { node.Database };

    ghost coded = { database_code };

    ghost view = { λ d. record { records = d.records; floor = d.floor; store = d.store; commit = d.commit } };

    ghost invariant = { λ d. IsTidy d.noted d.records };
}

/// Has a copy that was not given away the empty value?
#[tactic(auto, unfolding(crate::specs::Noted::is_deleted))]
fn is_deleted(copy: &Option<RecCopy>) -> bool
    ensures { result ≡ is_deleted copy.now }
{
    match copy {
        Some(copy) => copy.header.dmaster != NONE && copy.value.bytes().is_empty(),
        None => false,
    }
}

/// Is it the state of a deleted record?
#[tactic(auto, unfolding(crate::specs::Noted::is_deleted, ct_rules_node::specs::Node::or_nothing))]
fn was_deleted(state: &Option<Boxed<RecState>>) -> bool
    ensures { result ≡ is_deleted (or_nothing state.now).copy }
{
    match state {
        Some(state) => is_deleted(&state.as_ref().copy),
        None => false,
    }
}

/// Puts a state at a key.
fn put(
    records: &mut Store<Boxed<RecState>>,
    key: Key,
    state: Boxed<RecState>,
) -> Result<(), NoMemory>
    ensures ok { OnOk result (records.new ≡ write key state records.old) }
    ensures err { OnErr result (records.new ≡ records.old) }
    ensures absent { OnErr result (look key records.old ≡ None) }
{
    records.put(key, state)?;
    Ok(())
}

/// Puts another state at a key that has one. It takes no memory.
fn overwrite(records: &mut Store<Boxed<RecState>>, key: Key, state: Boxed<RecState>)
    requires { look key records.old ≢ None }
    ensures { records.new ≡ write key state records.old }
{
    match put(records, key, state) {
        Ok(()) => {}
        Err(_) => unreachable!(),
    }
}

/// The states stand in the order of their keys: the store says so beside its length. It changes nothing.
fn are_in_order(records: &Store<Boxed<RecState>>)
    ensures { Ascends records.now }
{
    let _ = records.len();
}

/// Takes the state of a key out.
fn take_out(records: &mut Store<Boxed<RecState>>, key: &Key)
    ensures after { records.new ≡ erase key.now records.old }
    ensures ascends { Ascends records.old }
{
    are_in_order(records);
    let _ = records.remove(key);
}

/// What becomes of a state.
#[tactic(auto, unfolding(crate::specs::Sweeps::swept, ct_rules_node::specs::Rounds::frozen_state, ct_rules_node::specs::Rounds::bared))]
fn swept(alloc: Global, sweep: Sweep, state: &RecState) -> Result<RecState, NoMemory>
    ensures { IfOk result (λ s. s ≡ swept sweep state.now) }
{
    match sweep {
        Sweep::Keep => state.copy(),
        Sweep::Freeze => Ok(RecState {
            copy: state.copy.duplicate()?,
            entry: None,
            queue: Items::empty(alloc),
            waiting: Items::empty(alloc),
            tracking: Tracking::new(alloc),
            vacuum: None,
            locked: state.locked,
            wish: state.wish.duplicate()?,
        }),
        Sweep::Bare => Ok(RecState {
            copy: None,
            entry: None,
            queue: state.queue.duplicate()?,
            waiting: state.waiting.duplicate()?,
            tracking: state.tracking.copy()?,
            vacuum: state.vacuum.duplicate()?,
            locked: state.locked,
            wish: state.wish.duplicate()?,
        }),
    }
}

impl Database {
    /// Nothing is kept of it. It takes no memory.
    #[tactic(auto, using(crate::proofs::Noting::tidy_empty), unfolding(ct_rules_node::specs::Node::untouched))]
    pub fn untouched(alloc: Global) -> Database
        ensures { result ≡ untouched }
    {
        Database {
            alloc,
            records: Store::new(alloc),
            noted: Candidates::new(alloc),
            floor: 0,
            store: PStore::new(alloc),
            commit: None,
        }
    }

    /// The states by key. None is blank.
    pub fn records(&self) -> &Store<Boxed<RecState>>
        ensures states { result.now ≡ self.now.records }
        ensures worth { (key : List ℕ) → is_worth (look key self.now.records) ≡ true }
    {
        &self.records
    }

    /// The keys that are noted, ascending: each key of a deleted record is among them.
    pub fn noted(&self) -> Result<Vec<Key>, NoMemory>
        ensures deleted { IfOk result (λ keys. IsTidy keys.items self.now.records) }
        ensures ascending { IfOk result (λ keys. vacuum.Ascends keys.items) }
    {
        self.noted.sorted()
    }

    /// The least RSN of a record that is made anew.
    pub fn floor(&self) -> u64
        ensures { result ≡ self.now.floor }
    {
        self.floor
    }

    /// The contents of a persistent database.
    pub fn store(&self) -> &PStore
        ensures { result.now ≡ self.now.store }
    {
        &self.store
    }

    /// The commit that waits, if one does.
    pub fn commit(&self) -> Option<&Committing>
        ensures { option_copied result ≡ self.now.commit }
    {
        self.commit.as_ref()
    }

    /// The state of a key: that in which nothing is kept, where none is.
    #[tactic(auto, unfolding(ct_rules_node::specs::Node::or_nothing))]
    pub fn state(&self, key: &Key) -> Result<Boxed<RecState>, NoMemory>
        ensures { IfOk result (λ s. s ≡ or_nothing (look key.now self.now.records)) }
    {
        match self.records.get(key) {
            Some(state) => Boxed::new(self.alloc, state.as_ref().copy()?),
            None => Boxed::new(self.alloc, RecState::new(self.alloc)),
        }
    }

    /// Nothing is kept of a key.
    fn erase(&mut self, key: &Key)
        ensures { self.new ≡ record self.old { records = erase key.now self.old.records } }
    {
        self.noted.forget(key);
        take_out(&mut self.records, key);
    }

    /// A key has the state of a deleted record. Without memory nothing changes.
    fn write_deleted(&mut self, key: Key, state: Boxed<RecState>) -> Result<(), NoMemory>
        requires { is_blank state ≡ false }
        ensures ok { OnOk result (self.new ≡ record self.old { records = write key state self.old.records }) }
        ensures err { OnErr result (self.new ≡ self.old) }
    {
        self.noted.note(&key)?;
        put(&mut self.records, key, state)
    }

    /// A key has the state of a record that is not deleted. Without memory nothing changes.
    fn write_other(&mut self, key: Key, state: Boxed<RecState>) -> Result<(), NoMemory>
        requires worth { is_blank state ≡ false }
        requires other { is_deleted state.copy ≡ false }
        ensures ok { OnOk result (self.new ≡ record self.old { records = write key state self.old.records }) }
        ensures err { OnErr result (self.new ≡ self.old) }
    {
        let name = key.copy()?;
        let before = self.records.put(key, state)?;
        if was_deleted(&before) {
            self.noted.forget(&name);
        }
        Ok(())
    }

    /// A key has another state; a blank one is removed. Without memory nothing changes.
    #[tactic(auto, unfolding(ct_rules_node::specs::Records::kept))]
    pub fn keep_boxed(&mut self, key: Key, state: Boxed<RecState>) -> Result<(), NoMemory>
        ensures ok { OnOk result (self.new ≡ record self.old { records = kept key state self.old.records }) }
        ensures err { OnErr result (self.new ≡ self.old) }
    {
        if state.as_ref().blank() {
            self.erase(&key);
            return Ok(());
        }
        if is_deleted(&state.as_ref().copy) {
            self.write_deleted(key, state)
        } else {
            self.write_other(key, state)
        }
    }

    /// A key has another state; a blank one is removed. Without memory nothing changes.
    pub fn keep(&mut self, key: Key, state: RecState) -> Result<(), NoMemory>
        ensures ok { OnOk result (self.new ≡ record self.old { records = kept key state self.old.records }) }
        ensures err { OnErr result (self.new ≡ self.old) }
    {
        let state = Boxed::new(self.alloc, state)?;
        self.keep_boxed(key, state)
    }

    /// A key has the state of a deleted record, as it had before. It takes no memory.
    #[tactic(auto, using(crate::proofs::Noting::deleted_is_there))]
    fn overwrite_deleted(&mut self, key: Key, state: Boxed<RecState>)
        requires worth { is_blank state ≡ false }
        requires deleted { is_deleted (or_nothing (look key self.old.records)).copy ≡ true }
        ensures { self.new ≡ record self.old { records = write key state self.old.records } }
    {
        overwrite(&mut self.records, key, state);
    }

    /// A key has the state of a record that is not deleted, as it was before. It takes no memory.
    #[tactic(auto, using(crate::proofs::Noting::deleted_is_there))]
    fn overwrite_other(&mut self, key: Key, state: Boxed<RecState>)
        requires worth { is_blank state ≡ false }
        requires other { is_deleted state.copy ≡ false }
        requires deleted { is_deleted (or_nothing (look key self.old.records)).copy ≡ true }
        ensures { self.new ≡ record self.old { records = write key state self.old.records } }
    {
        self.noted.forget(&key);
        overwrite(&mut self.records, key, state);
    }

    /// A key that has the state of a deleted record has another state; a blank one is removed. It takes no memory.
    #[tactic(auto, unfolding(ct_rules_node::specs::Records::kept))]
    pub fn keep_deleted(&mut self, key: Key, state: Boxed<RecState>)
        requires { is_deleted (or_nothing (look key self.old.records)).copy ≡ true }
        ensures { self.new ≡ record self.old { records = kept key state self.old.records } }
    {
        if state.as_ref().blank() {
            self.erase(&key);
            return;
        }
        if is_deleted(&state.as_ref().copy) {
            self.overwrite_deleted(key, state)
        } else {
            self.overwrite_other(key, state)
        }
    }

    /// A record that is made anew has at least this RSN.
    pub fn set_floor(&mut self, floor: u64)
        ensures { self.new ≡ record self.old { floor = floor } }
    {
        self.floor = floor;
    }

    /// This commit waits.
    pub fn set_commit(&mut self, commit: Option<Committing>)
        ensures { self.new ≡ record self.old { commit = commit } }
    {
        self.commit = commit;
    }

    /// An update comes. Without memory nothing changes.
    pub fn update(&mut self, seq: u64, writes: &[Pair]) -> Result<(), NoMemory>
        ensures ok { OnOk result (self.new ≡ record self.old { store = updated seq writes.now self.old.store }) }
        ensures err { OnErr result (self.new ≡ self.old) }
    {
        self.store.update(seq, writes)?;
        Ok(())
    }

    /// A persistent database becomes its table. Without memory nothing changes.
    pub fn replace(&mut self, table: &PTable) -> Result<(), NoMemory>
        requires ascending { IsTrue (ascends pair_before table.now.pairs) }
        requires kept { IsTrue (list_all is_kept table.now.pairs) }
        ensures ok { OnOk result (self.new ≡ record self.old { store = replaced table.now }) }
        ensures err { OnErr result (self.new ≡ self.old) }
    {
        self.store.replace(table)
    }

    /// What a stop leaves: the contents of a persistent one. It takes no memory.
    #[tactic(auto, using(crate::proofs::Noting::tidy_empty), unfolding(ct_rules_node::specs::Node::restarted_db, ct_rules_node::specs::Node::untouched))]
    pub fn restarted(self) -> Database
        ensures { result ≡ restarted_db self }
    {
        let Database {
            alloc,
            records: _,
            noted: _,
            floor: _,
            store,
            commit: _,
        } = self;
        Database {
            alloc,
            records: Store::new(alloc),
            noted: Candidates::new(alloc),
            floor: 0,
            store,
            commit: None,
        }
    }

    /// A key has this state, unless it is blank.
    #[tactic(auto, unfolding(ct_rules_node::specs::Records::kept))]
    fn add(&mut self, key: Key, state: RecState) -> Result<(), NoMemory>
        ensures blank { OnOk result (is_blank state ≡ true → self.new ≡ self.old) }
        ensures worth { OnOk result (is_blank state ≡ false → self.new ≡ record self.old { records = write key state self.old.records }) }
    {
        if state.blank() {
            return Ok(());
        }
        self.keep(key, state)
    }

    /// Takes all of these states, each changed so; a blank one is left out.
    fn fill(&mut self, sweep: Sweep, records: &Store<Boxed<RecState>>) -> Result<(), NoMemory>
        requires { self.old.records ≡ [] }
        ensures { OnOk result (self.new ≡ record self.old { records = changed (swept sweep) records.now }) }
    {
        are_in_order(records);
        for (key, state) in records.sorted()? {
            let state = swept(self.alloc, sweep, state.as_ref())?;
            self.add(key.copy()?, state)?;
        }
        Ok(())
    }

    /// The database with all states changed so.
    #[tactic(auto, unfolding(ct_rules_node::specs::Node::untouched))]
    pub fn swept(&self, sweep: Sweep) -> Result<Database, NoMemory>
        ensures { IfOk result (λ d. d ≡ record self.now { records = changed (swept sweep) self.now.records }) }
    {
        let mut database = Database::untouched(self.alloc);
        database.floor = self.floor;
        database.store = self.store.copy()?;
        database.commit = self.commit.duplicate()?;
        database.fill(sweep, &self.records)?;
        Ok(database)
    }

    /// A copy that equals it.
    #[tactic(auto, using(crate::proofs::Sweeping::unchanged))]
    pub fn copy(&self) -> Result<Database, NoMemory>
        ensures { IfOk result (λ d. d ≡ self.now) }
    {
        are_in_order(&self.records);
        self.swept(Sweep::Keep)
    }
}

impl Duplicate for Database {
    fn duplicate(&self) -> Result<Database, NoMemory> {
        self.copy()
    }
}
