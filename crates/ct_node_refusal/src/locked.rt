//! Which records and which databases of a node are taken.
ghost use Rattle.std.specs.Prelude.{◌≡◌, ◌≢◌, ◌&&◌, None, IfOk, is_some, nat_eq};
ghost use Rattle.std.specs.Cmp.Lexicographic.{pointwise};
ghost use Rattle.ct_persist.specs.Persisted.{fits};
ghost use Rattle.ct_rules_node.specs.Clients.{is_committing, is_locked, is_name_of_commit, pending_of};
ghost use Rattle.ct_rules_node.specs.Node.{db_at, kind_at, name_of, state_at};
ghost use Rattle.ct_store.specs.Map.{has_room};

use ct_node_database::database::Database;
use ct_node_state::kinds::name_of;
use ct_node_state::node::Node;
use ct_persist::store::PStore;
use ct_values::client::{Pair, Why};
use ct_values::config::Config;
use ct_values::key::Key;
use ct_values::memory::{BytesFault, NoMemory};

/// Is the record locked here?
#[tactic(auto, unfolding(ct_rules_node::specs::Clients::is_locked, ct_rules_node::specs::Node::or_nothing))]
pub fn is_locked(node: &Node, db: u32, key: &Key) -> bool
    ensures { result ≡ is_locked db key.now node.now }
{
    match node.record(db, key) {
        Some(state) => state.locked.is_some(),
        None => false,
    }
}

/// The refusal that names the call that waits for the record here.
#[tactic(auto, unfolding(ct_rules_node::specs::Clients::pending_of, ct_rules_node::specs::Node::or_nothing))]
pub fn pending_of(node: &Node, db: u32, key: &Key) -> Option<Why>
    ensures { result ≡ pending_of (state_at db key.now node.now).wish }
{
    let state = node.record(db, key)?;
    let wish = state.wish.as_ref()?;
    Some(Why::CallPending(wish.call))
}

/// Does a commit of the database wait here?
#[tactic(auto, unfolding(ct_rules_node::specs::Clients::is_committing, ct_rules_node::specs::Node::db_at, ct_rules_node::specs::Node::or_untouched, ct_rules_node::specs::Node::untouched))]
pub fn is_committing(node: &Node, db: u32) -> bool
    ensures { result ≡ is_committing db node.now }
{
    match node.database(db) {
        Some(database) => database.commit().is_some(),
        None => false,
    }
}

/// Is this the name of the database at a place?
#[tactic(auto, unfolding(ct_rules_node::specs::Node::name_of, ct_rules_node::specs::Node::name_in))]
fn name_at(config: &Config, place: usize) -> &[u8]
    ensures { result.now ≡ name_of config.now place }
{
    match config.dbs.as_slice().get(place) {
        Some(decl) => decl.name.bytes(),
        None => &[],
    }
}

/// Does a commit wait in the database at this place, and is this its name?
fn is_waiting(config: &Config, key: &Key, place: usize, database: &Database) -> bool
    ensures { result ≡ (is_some database.now.commit && pointwise nat_eq key.now (name_of config.now place)) }
{
    database.commit().is_some() && key.bytes() == name_at(config, place)
}

/// Is this the name of a database with a commit that waits?
#[tactic(auto, using(crate::proofs::Names::named_later, crate::proofs::Names::named_here))]
pub fn is_name_of_commit(config: &Config, key: &Key, dbs: &[Database]) -> bool
    ensures { result ≡ is_name_of_commit config.now key.now 0 dbs.now }
{
    for place in 0..dbs.len() {
        if is_waiting(config, key, place, &dbs[place]) {
            return true;
        }
    }
    false
}

/// Is the record of `g_lock` locked here whose key is the database's name?
#[tactic(auto, unfolding(ct_rules_node::specs::Clients::is_commit))]
pub fn is_its_record_locked(config: &Config, node: &Node, db: u32) -> Result<bool, NoMemory>
    requires { kind_at config.now db ≢ None }
    ensures { IfOk result (λ locked. locked ≡ is_locked 0 (name_of config.now db) node.now) }
{
    match Key::new(node.alloc, name_of(config, db)) {
        Ok(key) => Ok(is_locked(node, 0, &key)),
        Err(BytesFault::NoMemory) => Err(NoMemory),
        Err(BytesFault::BadLength(_)) => unreachable!(),
        Err(BytesFault::BadByte(_)) => unreachable!(),
    }
}

/// Is there room for this key in the database?
#[tactic(auto, unfolding(ct_rules_node::specs::Node::db_at, ct_rules_node::specs::Node::or_untouched, ct_rules_node::specs::Node::untouched))]
pub fn has_room(node: &Node, db: u32, key: &Key) -> bool
    ensures { result ≡ has_room key.now (db_at db node.now).records }
{
    match node.database(db) {
        Some(database) => database.records().has_room(key),
        None => true,
    }
}

/// Is there room for the pairs of a commit?
#[tactic(auto, unfolding(ct_rules_node::specs::Node::db_at, ct_rules_node::specs::Node::or_untouched, ct_rules_node::specs::Node::untouched))]
pub fn fits(node: &Node, db: u32, writes: &[Pair]) -> bool
    ensures { result ≡ fits writes.now (db_at db node.now).store.pairs }
{
    match node.database(db) {
        Some(database) => database.store().fits(writes),
        None => PStore::new(node.alloc).fits(writes),
    }
}
