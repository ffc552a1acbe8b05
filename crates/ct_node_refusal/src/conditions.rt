//! The refusals of a client, each with its condition.
ghost use Rattle.std.specs.Prelude.{◌≡◌, ◌≢◌, None, IfOk};
ghost use Rattle.ct_call.specs.Shown.{rules_of};
ghost use Rattle.ct_values.specs.Client.{db_of};
ghost use Rattle.ct_rules_node.specs.Clients.{already_locked, call_pending, commit_pending, full, may_finish, no_such_call, no_such_db, not_locked, not_serving, wrong_kind};
ghost use Rattle.ct_rules_node.specs.Node.{kind_at};
ghost use Rattle.ct_rules_node.specs.Refusals.{refused_if};

use crate::locked::{
    fits, has_room, is_committing, is_its_record_locked, is_locked, is_name_of_commit, pending_of,
};
use crate::ops::{db_of, is_commit, is_read};
use ct_call::table::CallTable;
use ct_node_state::kinds::{is_persistent, kind_at};
use ct_node_state::node::Node;
use ct_node_state::phases::{is_freezing, is_serving};
use ct_values::client::{ClientOp, Why};
use ct_values::config::Config;
use ct_values::key::Key;
use ct_values::memory::NoMemory;

/// A refusal, where its condition holds.
#[tactic(auto, unfolding(ct_rules_node::specs::Refusals::refused_if))]
fn refused_if(condition: bool, why: Why) -> Option<Why>
    ensures { result ≡ refused_if condition why }
{
    if condition { Some(why) } else { None }
}

/// No database has the number.
#[tactic(auto, unfolding(ct_rules_node::specs::Clients::no_such_db, ct_rules_node::specs::Refusals::refused_if))]
pub fn no_such_db(config: &Config, op: &ClientOp) -> Option<Why>
    ensures refusal { result ≡ no_such_db config.now op.now }
    ensures there { result ≡ None → kind_at config.now (db_of op.now) ≢ None }
{
    match kind_at(config, db_of(op)) {
        Some(_) => None,
        None => Some(Why::NoSuchDb),
    }
}

/// A commit wants a persistent database, and all but a read another one.
#[tactic(auto, unfolding(ct_rules_node::specs::Clients::wrong_kind))]
pub fn wrong_kind(config: &Config, op: &ClientOp) -> Option<Why>
    ensures { result ≡ wrong_kind config.now op.now }
{
    let persistent = is_persistent(kind_at(config, db_of(op)));
    let wrong = if is_commit(op) {
        !persistent
    } else {
        persistent && !is_read(op)
    };
    refused_if(wrong, Why::WrongKind)
}

/// While the node is Freezing, a store, an unlock or a read of a record that is locked here is not refused.
#[tactic(auto, unfolding(ct_rules_node::specs::Clients::may_finish, ct_rules_node::specs::Clients::is_under_lock, ct_values::specs::Client::is_read))]
fn may_finish(node: &Node, op: &ClientOp) -> bool
    ensures { result ≡ may_finish node.now op.now }
{
    match op {
        ClientOp::Read { db, key }
        | ClientOp::Store { db, key, .. }
        | ClientOp::Unlock { db, key } => is_freezing(node.member) && is_locked(node, *db, key),
        ClientOp::Lock { .. }
        | ClientOp::Write { .. }
        | ClientOp::Apply { .. }
        | ClientOp::Commit { .. } => false,
    }
}

/// The phase is not Serving, and the call may not finish.
#[tactic(auto, unfolding(ct_rules_node::specs::Clients::not_serving))]
pub fn not_serving(node: &Node, op: &ClientOp) -> Option<Why>
    ensures { result ≡ not_serving node.now op.now }
{
    refused_if(
        !is_serving(node.member) && !may_finish(node, op),
        Why::NotServing,
    )
}

/// Another call waits for the record here.
#[tactic(auto, unfolding(ct_rules_node::specs::Clients::call_pending, ct_values::specs::Client::wants_record))]
pub fn call_pending(node: &Node, op: &ClientOp) -> Option<Why>
    ensures { result ≡ call_pending node.now op.now }
{
    match op {
        ClientOp::Lock { db, key }
        | ClientOp::Read { db, key }
        | ClientOp::Write { db, key, .. }
        | ClientOp::Apply { db, key, .. } => pending_of(node, *db, key),
        ClientOp::Store { .. } | ClientOp::Unlock { .. } | ClientOp::Commit { .. } => None,
    }
}

/// A commit while one waits, or the unlock that would end its lock.
#[tactic(auto, unfolding(ct_rules_node::specs::Clients::commit_pending, ct_rules_node::specs::Clients::is_commit, ct_rules_node::specs::Clients::is_unlock))]
pub fn commit_pending(config: &Config, node: &Node, op: &ClientOp) -> Option<Why>
    ensures { result ≡ commit_pending config.now node.now op.now }
{
    let pending = match op {
        ClientOp::Commit { db, .. } => is_committing(node, *db),
        ClientOp::Unlock { db, key } => {
            *db == 0 && is_name_of_commit(config, key, node.dbs.as_slice())
        }
        ClientOp::Lock { .. }
        | ClientOp::Read { .. }
        | ClientOp::Write { .. }
        | ClientOp::Apply { .. }
        | ClientOp::Store { .. } => false,
    };
    refused_if(pending, Why::CommitPending)
}

/// A lock, a write or a function of a record that is locked here.
#[tactic(auto, unfolding(ct_rules_node::specs::Clients::already_locked, ct_rules_node::specs::Clients::wants_change))]
pub fn already_locked(node: &Node, op: &ClientOp) -> Option<Why>
    ensures { result ≡ already_locked node.now op.now }
{
    let locked = match op {
        ClientOp::Lock { db, key }
        | ClientOp::Write { db, key, .. }
        | ClientOp::Apply { db, key, .. } => is_locked(node, *db, key),
        ClientOp::Read { .. }
        | ClientOp::Store { .. }
        | ClientOp::Unlock { .. }
        | ClientOp::Commit { .. } => false,
    };
    refused_if(locked, Why::AlreadyLocked)
}

/// A store or an unlock of a record, or a commit of a database, without its lock.
#[tactic(auto, unfolding(ct_rules_node::specs::Clients::not_locked, ct_rules_node::specs::Clients::is_commit, ct_rules_node::specs::Clients::is_under_lock))]
pub fn not_locked(config: &Config, node: &Node, op: &ClientOp) -> Result<Option<Why>, NoMemory>
    requires { kind_at config.now (db_of op.now) ≢ None }
    ensures { IfOk result (λ r. r ≡ not_locked config.now node.now op.now) }
{
    let unlocked = match op {
        ClientOp::Store { db, key, .. } | ClientOp::Unlock { db, key } => {
            !is_locked(node, *db, key)
        }
        ClientOp::Commit { db, .. } => !is_its_record_locked(config, node, *db)?,
        ClientOp::Lock { .. }
        | ClientOp::Read { .. }
        | ClientOp::Write { .. }
        | ClientOp::Apply { .. } => false,
    };
    Ok(refused_if(unlocked, Why::NotLocked))
}

/// No function has the number.
#[tactic(auto, unfolding(ct_rules_node::specs::Clients::no_such_call))]
pub fn no_such_call(table: &CallTable, op: &ClientOp) -> Option<Why>
    ensures { result ≡ no_such_call (rules_of table.now) op.now }
{
    match op {
        ClientOp::Apply { function, .. } => refused_if(!table.knows(*function), Why::NoSuchCall),
        ClientOp::Lock { .. }
        | ClientOp::Read { .. }
        | ClientOp::Write { .. }
        | ClientOp::Store { .. }
        | ClientOp::Unlock { .. }
        | ClientOp::Commit { .. } => None,
    }
}

/// No room for one more key with state, or for the pairs of a commit.
#[tactic(auto, unfolding(ct_rules_node::specs::Clients::full, ct_values::specs::Client::wants_record))]
pub fn full(config: &Config, node: &Node, op: &ClientOp) -> Option<Why>
    ensures { result ≡ full config.now node.now op.now }
{
    let full = match op {
        ClientOp::Lock { db, key }
        | ClientOp::Read { db, key }
        | ClientOp::Write { db, key, .. }
        | ClientOp::Apply { db, key, .. } => {
            !is_persistent(kind_at(config, *db)) && !has_room(node, *db, key)
        }
        ClientOp::Commit { db, writes } => !fits(node, *db, writes.as_slice()),
        ClientOp::Store { .. } | ClientOp::Unlock { .. } => false,
    };
    refused_if(full, Why::Full)
}
