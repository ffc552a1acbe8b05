//! The state of a node.
ghost use Rattle.std.specs.Prelude.{◌≡◌, ◌≢◌, ◌<◌, true, [], IfOk, OnOk, OnErr, length, slice_get, slice_set, map, option_copied};
ghost use Rattle.std.specs.List.Sorted.{IsStrictlyIncreasing};
ghost use Rattle.ct_node_database.specs.Noted.{is_deleted};
ghost use Rattle.ct_persist.specs.Persisted.{updated};
ghost use Rattle.ct_store.specs.Map.{look};
ghost use Rattle.ct_rules_node.specs.Node.{db_at, opening, or_nothing, or_untouched, restarted, state_at, untouched_all, with_db};
ghost use Rattle.ct_rules_node.specs.Records.{kept, place_of, put_back, view, with_state};
ghost use Rattle.ct_node_state.specs.Whole.{left_as};

use crate::kinds::{is_readonly, kind_at};
use crate::members::Members;
use crate::placing::assigned_all;
use crate::restart::{nowhere, restarted_all};
use ct_frame::frame::Assigned;
use ct_lead::holder::Holder;
use ct_lead::lead::Lead;
use ct_lead::member::Member;
use ct_node_database::database::{Committing, Database};
use ct_record_parts::draft::Draft;
use ct_rules::event::Place;
use ct_rules::state::RecState;
use ct_values::boxed::Boxed;
use ct_values::client::Pair;
use ct_values::config::{Config, DbDecl};
use ct_values::copies::Duplicate;
use ct_values::items::Items;
use ct_values::key::Key;
use ct_values::memory::NoMemory;
use std::alloc::Global;
use std::marker::Model;

/// The state of a node.
pub struct Node {
    pub alloc: Global,
    /// The promise, the phase and the generation.
    pub member: Member,
    /// The generation whose persistent databases the node has.
    pub pbase: u64,
    pub members: Members,
    /// Who pushed what was installed last.
    pub leader: Option<u32>,
    /// One for each database of the configuration.
    pub dbs: Items<Database>,
    /// Where the node knows each address to be.
    pub placement: Items<Assigned>,
    /// The addresses that it holds, and the last takeover run that it followed.
    pub holder: Holder,
    /// The next request number.
    pub next: u64,
    pub lead: Lead,
}

impl Drop for Node {
    /// All that it holds is let go.
    fn drop(self) {
        let Node {
            alloc: _,
            member: _,
            pbase: _,
            members: _,
            leader: _,
            dbs: _,
            placement: _,
            holder: _,
            next: _,
            lead: _,
        } = self;
    }
}

impl Model for Node {
    ghost use Rattle.ct_rules_node.specs.Node as node;

    ghost Value = { node.Node };

    ghost view = { λ n. record { promise = n.member.promise; pbase = n.pbase; phase = n.member.phase; generation = n.member.generation; members = n.members; leader = n.leader; dbs = n.dbs; placement = n.placement; held = n.holder.held; last_run = n.holder.last_run; next = n.next; lead = n.lead } };
}

/// As many databases as are declared, and nothing is kept of any.
#[tactic(auto, unfolding(ct_rules_node::specs::Node::untouched_all))]
fn untouched_all(alloc: Global, decls: &[DbDecl]) -> Result<Items<Database>, NoMemory>
    ensures { IfOk result (λ all. all ≡ untouched_all decls.now) }
{
    let mut all = Vec::with_capacity(alloc, decls.len())?;
    for decl in decls {
        let _kind = decl.kind;
        all.push(Database::untouched(alloc))?;
    }
    Ok(Items::new(all))
}

/// One database has another state of a key, and another floor. Without memory nothing changes.
#[tactic(auto, using(crate::proofs::Lists::same_item), unfolding(ct_rules_node::specs::Node::or_untouched))]
fn put_at(
    dbs: &mut Items<Database>,
    db: usize,
    key: Key,
    state: Boxed<RecState>,
    floor: u64,
) -> Result<(), NoMemory>
    requires { db < length dbs.old }
    ensures ok { OnOk result (dbs.new ≡ slice_set dbs.old db (record (or_untouched (slice_get dbs.old db)) { records = kept key state (or_untouched (slice_get dbs.old db)).records; floor = floor })) }
    ensures err { OnErr result (dbs.new ≡ dbs.old) }
{
    let database = dbs.get_mut(db);
    database.keep_boxed(key, state)?;
    database.set_floor(floor);
    Ok(())
}

/// One database has another state of a key, which had the state of a deleted record, and another floor. It takes no memory.
#[tactic(auto, unfolding(ct_rules_node::specs::Node::or_untouched))]
fn put_deleted_at(
    dbs: &mut Items<Database>,
    db: usize,
    key: Key,
    state: Boxed<RecState>,
    floor: u64,
)
    requires there { db < length dbs.old }
    requires deleted { is_deleted (or_nothing (look key (or_untouched (slice_get dbs.old db)).records)).copy ≡ true }
    ensures { dbs.new ≡ slice_set dbs.old db (record (or_untouched (slice_get dbs.old db)) { records = kept key state (or_untouched (slice_get dbs.old db)).records; floor = floor }) }
{
    let database = dbs.get_mut(db);
    database.keep_deleted(key, state);
    database.set_floor(floor);
}

/// One database has another state of a key. Without memory nothing changes.
#[tactic(auto, using(crate::proofs::Lists::same_item), unfolding(ct_rules_node::specs::Node::or_untouched))]
fn keep_at(dbs: &mut Items<Database>, db: usize, key: Key, state: RecState) -> Result<(), NoMemory>
    requires { db < length dbs.old }
    ensures ok { OnOk result (dbs.new ≡ slice_set dbs.old db (record (or_untouched (slice_get dbs.old db)) { records = kept key state (or_untouched (slice_get dbs.old db)).records })) }
    ensures err { OnErr result (dbs.new ≡ dbs.old) }
{
    dbs.get_mut(db).keep(key, state)
}

/// One database takes an update, and this commit waits there. Without memory nothing changes.
#[tactic(auto, using(crate::proofs::Lists::same_item), unfolding(ct_rules_node::specs::Node::or_untouched))]
fn begin_at(
    dbs: &mut Items<Database>,
    db: usize,
    seq: u64,
    writes: &[Pair],
    commit: Option<Committing>,
) -> Result<(), NoMemory>
    requires { db < length dbs.old }
    ensures ok { OnOk result (dbs.new ≡ slice_set dbs.old db (record (or_untouched (slice_get dbs.old db)) { store = updated seq writes.now (or_untouched (slice_get dbs.old db)).store; commit = commit })) }
    ensures err { OnErr result (dbs.new ≡ dbs.old) }
{
    let database = dbs.get_mut(db);
    database.update(seq, writes)?;
    database.set_commit(commit);
    Ok(())
}

/// One database takes an update. Without memory nothing changes.
#[tactic(auto, using(crate::proofs::Lists::same_item), unfolding(ct_rules_node::specs::Node::or_untouched))]
fn update_at(
    dbs: &mut Items<Database>,
    db: usize,
    seq: u64,
    writes: &[Pair],
) -> Result<(), NoMemory>
    requires { db < length dbs.old }
    ensures ok { OnOk result (dbs.new ≡ slice_set dbs.old db (record (or_untouched (slice_get dbs.old db)) { store = updated seq writes.now (or_untouched (slice_get dbs.old db)).store })) }
    ensures err { OnErr result (dbs.new ≡ dbs.old) }
{
    dbs.get_mut(db).update(seq, writes)
}

/// This commit waits at one database.
#[tactic(auto, unfolding(ct_rules_node::specs::Node::or_untouched))]
fn wait_at(dbs: &mut Items<Database>, db: usize, commit: Option<Committing>)
    requires { db < length dbs.old }
    ensures { dbs.new ≡ slice_set dbs.old db (record (or_untouched (slice_get dbs.old db)) { commit = commit }) }
{
    dbs.get_mut(db).set_commit(commit);
}

impl Node {
    /// A node in generation 1 of these members, which serves; nothing is kept of any key and nothing is led. The members
    /// ascend, and there is at least one.
    #[tactic(auto, unfolding(ct_rules_node::specs::Node::opening))]
    pub fn opening(alloc: Global, config: &Config, members: &[u32]) -> Result<Node, NoMemory>
        requires ascending { IsStrictlyIncreasing members.now }
        requires some { members.now ≢ [] }
        ensures { IfOk result (λ n. n ≡ opening config.now members.now) }
    {
        Ok(Node {
            alloc,
            member: Member::serving(1),
            pbase: 1,
            members: Members::new(alloc, members)?,
            leader: None,
            dbs: untouched_all(alloc, config.dbs.as_slice())?,
            placement: assigned_all(alloc, config.addresses.as_slice(), &[])?,
            holder: Holder::new(alloc),
            next: 1,
            lead: Lead::nothing(alloc),
        })
    }

    /// A copy that equals it.
    pub fn copy(&self) -> Result<Node, NoMemory>
        ensures { IfOk result (λ n. n ≡ self.now) }
    {
        Ok(Node {
            alloc: self.alloc,
            member: self.member,
            pbase: self.pbase,
            members: self.members.copy()?,
            leader: self.leader,
            dbs: self.dbs.duplicate()?,
            placement: self.placement.duplicate()?,
            holder: self.holder.copy()?,
            next: self.next,
            lead: self.lead.copy()?,
        })
    }

    /// All but the databases, where this is led.
    pub fn leading(&self, lead: Lead) -> Result<Node, NoMemory>
        ensures { IfOk result (λ n. n ≡ record self.now { dbs = []; lead = lead }) }
    {
        Ok(Node {
            alloc: self.alloc,
            member: self.member,
            pbase: self.pbase,
            members: self.members.copy()?,
            leader: self.leader,
            dbs: Items::empty(self.alloc),
            placement: self.placement.duplicate()?,
            holder: self.holder.copy()?,
            next: self.next,
            lead,
        })
    }

    /// The database of this number, where there is one.
    pub fn database(&self, db: u32) -> Option<&Database>
        ensures { option_copied result ≡ slice_get self.now.dbs db }
    {
        self.dbs.as_slice().get(db as usize)
    }

    /// The floor of a database.
    #[tactic(auto, unfolding(ct_rules_node::specs::Node::db_at, ct_rules_node::specs::Node::or_untouched, ct_rules_node::specs::Node::untouched))]
    pub fn floor_at(&self, db: u32) -> u64
        ensures { result ≡ (db_at db self.now).floor }
    {
        match self.database(db) {
            Some(database) => database.floor(),
            None => 0,
        }
    }

    /// What the node keeps of a record.
    #[tactic(auto, unfolding(ct_rules_node::specs::Node::state_at, ct_rules_node::specs::Node::db_at, ct_rules_node::specs::Node::or_untouched, ct_rules_node::specs::Node::untouched, ct_rules_node::specs::Node::or_nothing))]
    pub fn state_at(&self, db: u32, key: &Key) -> Result<Boxed<RecState>, NoMemory>
        ensures { IfOk result (λ s. s ≡ state_at db key.now self.now) }
    {
        match self.database(db) {
            Some(database) => database.state(key),
            None => Boxed::new(self.alloc, RecState::new(self.alloc)),
        }
    }

    /// What the node keeps of a record, where it keeps anything.
    #[tactic(auto, unfolding(ct_rules_node::specs::Node::state_at, ct_rules_node::specs::Node::db_at, ct_rules_node::specs::Node::or_untouched, ct_rules_node::specs::Node::untouched, ct_rules_node::specs::Node::or_nothing))]
    pub fn record(&self, db: u32, key: &Key) -> Option<&RecState>
        ensures { or_nothing (option_copied result) ≡ state_at db key.now self.now }
    {
        match self.database(db) {
            Some(database) => match database.records().get(key) {
                Some(state) => Some(state.as_ref()),
                None => None,
            },
            None => None,
        }
    }

    /// Where a record is looked at.
    #[tactic(auto, unfolding(ct_rules_node::specs::Records::place_of))]
    pub fn place_of(&self, config: &Config, me: u32, db: u32, key: &Key) -> Result<Place, NoMemory>
        ensures { IfOk result (λ p. p ≡ place_of config.now me db key.now self.now) }
    {
        Ok(Place {
            me,
            lmaster: self.members.master_of(key),
            db,
            key: key.copy()?,
            floor: self.floor_at(db),
            readonly: is_readonly(kind_at(config, db)),
        })
    }

    /// What the rule of a record sees of the node, as a draft of the record.
    #[tactic(auto, unfolding(ct_rules_node::specs::Records::view))]
    pub fn view(&self, db: u32, key: &Key) -> Result<Draft, NoMemory>
        ensures { IfOk result (λ d. d ≡ view db key.now self.now) }
    {
        Ok(Draft {
            alloc: self.alloc,
            state: self.state_at(db, key)?,
            next: self.next,
            floor: self.floor_at(db),
            acts: Items::empty(self.alloc),
            spent: false,
        })
    }

    /// What the rule of a record makes of the node: another state of the record, next request number and floor. Without
    /// memory nothing changes.
    #[tactic(auto, unfolding(ct_rules_node::specs::Records::put_back, ct_rules_node::specs::Node::with_db, ct_rules_node::specs::Node::db_at))]
    pub fn put_back(
        &mut self,
        db: u32,
        key: Key,
        state: Boxed<RecState>,
        next: u64,
        floor: u64,
    ) -> Result<(), NoMemory>
        requires { db < length self.old.dbs }
        ensures ok { OnOk result (self.new ≡ put_back db key (left_as state next floor) self.old) }
        ensures err { OnErr result (self.new ≡ self.old) }
    {
        put_at(&mut self.dbs, db as usize, key, state, floor)?;
        self.next = next;
        Ok(())
    }

    /// What the rule of a record makes of the node where the record is a deleted one. It takes no memory.
    #[tactic(auto, unfolding(ct_rules_node::specs::Records::put_back, ct_rules_node::specs::Node::with_db, ct_rules_node::specs::Node::db_at, ct_rules_node::specs::Node::state_at))]
    pub fn put_deleted(&mut self, db: u32, key: Key, state: Boxed<RecState>, next: u64, floor: u64)
        requires there { db < length self.old.dbs }
        requires deleted { is_deleted (state_at db key self.old).copy ≡ true }
        ensures { self.new ≡ put_back db key (left_as state next floor) self.old }
    {
        put_deleted_at(&mut self.dbs, db as usize, key, state, floor);
        self.next = next;
    }

    /// A record has another state; a blank one is removed. Without memory nothing changes.
    #[tactic(auto, unfolding(ct_rules_node::specs::Records::with_state, ct_rules_node::specs::Node::with_db, ct_rules_node::specs::Node::db_at))]
    pub fn keep(&mut self, db: u32, key: Key, state: RecState) -> Result<(), NoMemory>
        requires { db < length self.old.dbs }
        ensures ok { OnOk result (self.new ≡ with_state db key state self.old) }
        ensures err { OnErr result (self.new ≡ self.old) }
    {
        keep_at(&mut self.dbs, db as usize, key, state)
    }

    /// A persistent database takes an update. Without memory nothing changes.
    #[tactic(auto, unfolding(ct_rules_node::specs::Node::with_db, ct_rules_node::specs::Node::db_at))]
    pub fn update(&mut self, db: u32, seq: u64, writes: &[Pair]) -> Result<(), NoMemory>
        requires { db < length self.old.dbs }
        ensures ok { OnOk result (self.new ≡ with_db db (record (db_at db self.old) { store = updated seq writes.now (db_at db self.old).store }) self.old) }
        ensures err { OnErr result (self.new ≡ self.old) }
    {
        update_at(&mut self.dbs, db as usize, seq, writes)
    }

    /// A persistent database takes an update, and this commit waits there. Without memory nothing changes.
    #[tactic(auto, unfolding(ct_rules_node::specs::Node::with_db, ct_rules_node::specs::Node::db_at))]
    pub fn begin(
        &mut self,
        db: u32,
        seq: u64,
        writes: &[Pair],
        commit: Option<Committing>,
    ) -> Result<(), NoMemory>
        requires { db < length self.old.dbs }
        ensures ok { OnOk result (self.new ≡ with_db db (record (db_at db self.old) { store = updated seq writes.now (db_at db self.old).store; commit = commit }) self.old) }
        ensures err { OnErr result (self.new ≡ self.old) }
    {
        begin_at(&mut self.dbs, db as usize, seq, writes, commit)
    }

    /// This commit waits at a database.
    #[tactic(auto, unfolding(ct_rules_node::specs::Node::with_db, ct_rules_node::specs::Node::db_at))]
    pub fn wait(&mut self, db: u32, commit: Option<Committing>)
        requires { db < length self.old.dbs }
        ensures { self.new ≡ with_db db (record (db_at db self.old) { commit = commit }) self.old }
    {
        wait_at(&mut self.dbs, db as usize, commit);
    }

    /// What a stop leaves: the promise, the persistent databases and their base. The placement is of the addresses of the
    /// configuration.
    #[tactic(auto, using(crate::proofs::Placed::placed_nowhere), unfolding(ct_rules_node::specs::Node::restarted))]
    pub fn restarted(self, config: &Config) -> Node
        requires { map (λ x. x.address) self.placement ≡ config.now.addresses }
        ensures { result ≡ restarted config.now self }
    {
        let Node {
            alloc,
            member,
            pbase,
            members: _,
            leader: _,
            dbs,
            placement,
            holder: _,
            next: _,
            lead: _,
        } = self;
        let _addresses = config.addresses.len();
        Node {
            alloc,
            member: Member::new(member.promised()),
            pbase,
            members: Members::none(alloc),
            leader: None,
            dbs: restarted_all(alloc, dbs),
            placement: nowhere(placement),
            holder: Holder::new(alloc),
            next: 1,
            lead: Lead::nothing(alloc),
        }
    }
}
