//! The client calls that wait at a node: for a record, or for the other members to acknowledge a commit.
ghost use Rattle.std.specs.Prelude.{◌≡◌, ◌++◌, ◌<◌, ◌^◌, Some, ◌∷◌, [], IfOk, OnOk, length};
ghost use Rattle.ct_rules_cluster.specs.Cluster.{committing, pending_in, wished, wished_in};
ghost use Rattle.ct_rules_node.specs.Numbered.{by_number};

use ct_node_database::database::Database;
use ct_node_state::node::Node;
use ct_rules::state::{RecState, Wish};
use ct_rules_cluster::step::PendingCall;
use ct_store::hashed::Store;
use ct_values::boxed::Boxed;
use ct_values::client::ClientOp;
use ct_values::copies::Duplicate;
use ct_values::memory::NoMemory;
use std::alloc::Global;

/// The call of a wish of this node.
#[tactic(auto, unfolding(ct_rules_cluster::specs::Cluster::wished))]
fn of_wish(node: u32, wish: &Wish) -> Result<PendingCall, NoMemory>
    ensures { IfOk result (λ x. wished node (Some wish.now) ≡ x ∷ []) }
{
    Ok(PendingCall {
        call: wish.call,
        node,
        op: wish.op.copy()?,
        seq: 0,
    })
}

/// Puts the calls that wait for records of a database behind these, by key.
#[tactic(auto, unfolding(ct_rules_cluster::specs::Cluster::wished_in, ct_rules_cluster::specs::Cluster::wished))]
fn add_wished(
    calls: &mut Vec<PendingCall>,
    node: u32,
    records: &Store<Boxed<RecState>>,
) -> Result<(), NoMemory>
    ensures { OnOk result (calls.new.items ≡ calls.old.items ++ wished_in node records.now) }
{
    for (_key, state) in records.sorted_where(|state| state.as_ref().wish.is_some())? {
        if let Some(wish) = &state.as_ref().wish {
            calls.push(of_wish(node, wish)?)?;
        }
    }
    Ok(())
}

/// Puts the call of the commit that waits in a database behind these, where one does.
#[tactic(auto, unfolding(ct_rules_cluster::specs::Cluster::committing))]
fn add_committing(
    calls: &mut Vec<PendingCall>,
    node: u32,
    db: u32,
    database: &Database,
) -> Result<(), NoMemory>
    ensures { OnOk result (calls.new.items ≡ calls.old.items ++ committing node db database.now.commit) }
{
    if let Some(commit) = database.commit() {
        calls.push(PendingCall {
            call: commit.call,
            node,
            op: ClientOp::Commit {
                db,
                writes: commit.writes.duplicate()?,
            },
            seq: commit.pending.seq(),
        })?;
    }
    Ok(())
}

/// Puts the calls that wait in these databases of a node behind these, by database.
#[tactic(auto, unfolding(ct_rules_cluster::specs::Cluster::pending_in))]
fn add_in(calls: &mut Vec<PendingCall>, node: u32, dbs: &[Database]) -> Result<(), NoMemory>
    requires { length dbs.now < 2 ^ 32 }
    ensures { OnOk result (calls.new.items ≡ calls.old.items ++ pending_in node 0 dbs.now) }
{
    for (i, db) in dbs.iter().enumerate() {
        add_wished(calls, node, db.records())?;
        add_committing(calls, node, i as u32, db)?;
    }
    Ok(())
}

/// Puts the calls that wait at the node of this number behind these: by database, and in one by key, the commit last.
pub fn add_pending(calls: &mut Vec<PendingCall>, number: u32, node: &Node) -> Result<(), NoMemory>
    requires { length node.now.dbs < 2 ^ 32 }
    ensures { OnOk result (calls.new.items ≡ calls.old.items ++ pending_in number 0 node.now.dbs) }
{
    add_in(calls, number, node.dbs.as_slice())
}

/// Puts calls in the order of their numbers. Calls of one number stay in their order.
pub fn by_number(calls: &mut Vec<PendingCall>) -> Result<(), NoMemory>
    ensures { OnOk result (calls.new.items ≡ by_number (λ x. x.call) calls.old.items) }
{
    calls.sort_by_key(|x| x.call)?;
    Ok(())
}

/// The calls that wait at the node of this number, by number.
pub fn pending(number: u32, node: &Node) -> Result<Vec<PendingCall>, NoMemory>
    requires { length node.now.dbs < 2 ^ 32 }
    ensures { IfOk result (λ calls. calls.items ≡ by_number (λ x. x.call) (pending_in number 0 node.now.dbs)) }
{
    let mut calls = Vec::new(node.alloc);
    add_pending(&mut calls, number, node)?;
    by_number(&mut calls)?;
    Ok(calls)
}
