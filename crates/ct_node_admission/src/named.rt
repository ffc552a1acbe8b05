//! What a message names.
ghost use Rattle.std.specs.Prelude.{◌≡◌, ◌++◌, OnOk, IfOk, None, Some, MatchOption};
ghost use Rattle.ct_rules_node.specs.Admission.{masters_in, members_in, named_in, nodes_in, ptables_in, record_in, table_in};

use ct_frame::frame::{Assigned, Msg, PTable, TableRow};
use ct_values::key::Key;
use ct_values::memory::NoMemory;
use std::alloc::Global;

/// The record that a message speaks of: its database and its key.
#[tactic(auto, unfolding(ct_rules_node::specs::Admission::record_in))]
pub fn record_in(msg: &Msg) -> Option<(u32, &Key)>
    ensures { MatchOption result (record_in msg.now ≡ None) (λ r. record_in msg.now ≡ Some (r.0, r.1.now)) }
{
    match msg {
        Msg::Call { db, key, .. }
        | Msg::Recall { db, key, .. }
        | Msg::Give { db, key, .. }
        | Msg::Pass { db, key, .. }
        | Msg::Refuse { db, key, .. }
        | Msg::Grant { db, key, .. }
        | Msg::Done { db, key, .. }
        | Msg::Revoke { db, key, .. }
        | Msg::RevokeAck { db, key, .. }
        | Msg::VStore { db, key, .. }
        | Msg::VStored { db, key, .. }
        | Msg::VDelete { db, key, .. }
        | Msg::VDeleted { db, key, .. } => Some((*db, key)),
        _ => None,
    }
}

/// Puts the nodes that rows name as data masters after these.
#[tactic(auto, unfolding(ct_rules_node::specs::Admission::masters_in, ct_rules_node::specs::Admission::some_of))]
fn add_masters(nodes: &mut Vec<u32>, table: &[TableRow]) -> Result<(), NoMemory>
    ensures { OnOk result (nodes.new.items ≡ nodes.old.items ++ masters_in table.now) }
{
    for row in table {
        if let Some(node) = row.master {
            nodes.push(node)?;
        }
    }
    Ok(())
}

/// Puts the nodes that addresses are assigned to after these.
#[tactic(auto, unfolding(ct_rules_node::specs::Admission::nodes_in, ct_rules_node::specs::Admission::some_of))]
fn add_nodes(nodes: &mut Vec<u32>, assigned: &[Assigned]) -> Result<(), NoMemory>
    ensures { OnOk result (nodes.new.items ≡ nodes.old.items ++ nodes_in assigned.now) }
{
    for x in assigned {
        if let Some(node) = x.node {
            nodes.push(node)?;
        }
    }
    Ok(())
}

/// The nodes that a message names.
#[tactic(auto, unfolding(ct_rules_node::specs::Admission::named_in))]
pub fn named_in(alloc: Global, msg: &Msg) -> Result<Vec<u32>, NoMemory>
    ensures { IfOk result (λ nodes. nodes.items ≡ named_in msg.now) }
{
    let mut nodes = Vec::new(alloc);
    match msg {
        Msg::Recall { node, .. } | Msg::Done { node, .. } => nodes.push(*node)?,
        Msg::Freeze { members } => nodes.extend_from_slice(members.as_slice())?,
        Msg::PullReply { table, .. } => add_masters(&mut nodes, table.as_slice())?,
        Msg::Push {
            members,
            table,
            assigned,
            ..
        } => {
            nodes.extend_from_slice(members.as_slice())?;
            add_masters(&mut nodes, table.as_slice())?;
            add_nodes(&mut nodes, assigned.as_slice())?;
        }
        Msg::Take { assigned, .. } => add_nodes(&mut nodes, assigned.as_slice())?,
        _ => {}
    }
    Ok(nodes)
}

/// The list of members that a message has.
#[tactic(auto, unfolding(ct_rules_node::specs::Admission::members_in))]
pub fn members_in(msg: &Msg) -> Option<&[u32]>
    ensures { MatchOption result (members_in msg.now ≡ None) (λ ns. members_in msg.now ≡ Some ns.now) }
{
    match msg {
        Msg::Freeze { members } => Some(members.as_slice()),
        Msg::Push { members, .. } => Some(members.as_slice()),
        _ => None,
    }
}

/// The rows that a message has.
#[tactic(auto, unfolding(ct_rules_node::specs::Admission::table_in))]
pub fn table_in(msg: &Msg) -> &[TableRow]
    ensures { result.now ≡ table_in msg.now }
{
    match msg {
        Msg::PullReply { table, .. } | Msg::Push { table, .. } => table.as_slice(),
        _ => &[],
    }
}

/// The persistent tables that a message has.
#[tactic(auto, unfolding(ct_rules_node::specs::Admission::ptables_in))]
pub fn ptables_in(msg: &Msg) -> Option<&[PTable]>
    ensures { MatchOption result (ptables_in msg.now ≡ None) (λ xs. ptables_in msg.now ≡ Some xs.now) }
{
    match msg {
        Msg::PullReply { ptables, .. } | Msg::Push { ptables, .. } => Some(ptables.as_slice()),
        _ => None,
    }
}
