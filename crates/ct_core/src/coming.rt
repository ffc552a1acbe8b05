//! Whether an event may come to a node.
ghost use Rattle.std.specs.Prelude.{◌≡◌, ◌&&◌, IfOk, nat_lt};
ghost use Rattle.std.specs.List.{list_all};
ghost use Rattle.ct_rules_node.specs.Coming.{is_after_pending, is_allowed_op, may_come};

use crate::machine::Core;
use ct_frame::event::Event;
use ct_frame::order::ascends;
use ct_frame_fields::fields::well_formed;
use ct_lead::runs::is_among;
use ct_rules_cluster::step::PendingCall;
use ct_values::client::ClientOp;
use ct_values::memory::NoMemory;

/// Has the call 1 to 16 writes, where it is a commit?
#[tactic(auto, unfolding(ct_rules_node::specs::Coming::is_allowed_op))]
fn is_allowed_op(op: &ClientOp) -> bool
    ensures { result ≡ is_allowed_op op.now }
{
    match op {
        ClientOp::Commit { writes, .. } => 0 < writes.len() && writes.len() < 17,
        _ => true,
    }
}

/// Have all of these calls smaller numbers?
fn are_before(calls: &[PendingCall], call: u64) -> bool
    ensures { result ≡ list_all (λ x. nat_lt x.call call) calls.now }
{
    calls.iter().all(|x| x.call < call)
}

/// Have all calls that wait at the node smaller numbers?
#[tactic(auto, using(crate::proofs::Waiting::before_all))]
fn is_after_pending(core: &Core, call: u64) -> Result<bool, NoMemory>
    ensures { IfOk result (λ is. is ≡ is_after_pending call core.now.node) }
{
    let calls = core.pending()?;
    Ok(are_before(calls.as_slice(), call))
}

/// Are all of these nodes of the cluster?
fn are_nodes(nodes: u32, members: &[u32]) -> bool
    ensures { result ≡ list_all (λ m. nat_lt m nodes) members.now }
{
    members.iter().all(|m| *m < nodes)
}

/// May the event come to the node? A call has 1 to 16 writes and a greater number than those that wait. A message is for
/// this node and keeps the rules of its fields. Members and able nodes ascend, and members are nodes, this one among them.
#[tactic(auto, unfolding(ct_rules_node::specs::Coming::may_come))]
pub fn may_come(core: &Core, event: &Event) -> Result<bool, NoMemory>
    ensures { IfOk result (λ may. may ≡ may_come core.now.config core.now.pnn core.now.node event.now) }
{
    match event {
        Event::Client { call, op } => Ok(is_allowed_op(op) && is_after_pending(core, *call)?),
        Event::Arrive(frame) => Ok(well_formed(frame) && frame.receiver == core.pnn()),
        Event::Retry | Event::Vacuum { .. } => Ok(true),
        Event::BeginRound { members, .. } => {
            let members = members.as_slice();
            let nodes = core.config().nodes;
            Ok(ascends(members) && are_nodes(nodes, members) && is_among(core.pnn(), members))
        }
        Event::BeginTakeover { able } => Ok(ascends(able.as_slice())),
    }
}
