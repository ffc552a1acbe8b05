//! The first refusal of a client's call that holds.
ghost use Rattle.std.specs.Prelude.{◌≡◌, IfOk};
ghost use Rattle.ct_call.specs.Shown.{rules_of};
ghost use Rattle.ct_rules_node.specs.Clients.{refusal};

use crate::conditions::{
    already_locked, call_pending, commit_pending, full, no_such_call, no_such_db, not_locked,
    not_serving, wrong_kind,
};
use ct_call::table::CallTable;
use ct_node_state::node::Node;
use ct_values::client::{ClientOp, Why};
use ct_values::config::Config;
use ct_values::memory::NoMemory;

/// What the call is refused for at this node: the first refusal that holds, in order. It takes memory only for a commit
/// that is not refused for anything that comes before its lock.
#[tactic(auto, unfolding(ct_rules_node::specs::Clients::refusal, ct_rules_node::specs::Refusals::first_of))]
pub fn refusal(
    config: &Config,
    table: &CallTable,
    node: &Node,
    op: &ClientOp,
) -> Result<Option<Why>, NoMemory>
    ensures { IfOk result (λ r. r ≡ refusal config.now (rules_of table.now) node.now op.now) }
{
    if let Some(why) = no_such_db(config, op) {
        return Ok(Some(why));
    }
    if let Some(why) = wrong_kind(config, op) {
        return Ok(Some(why));
    }
    if let Some(why) = not_serving(node, op) {
        return Ok(Some(why));
    }
    if let Some(why) = call_pending(node, op) {
        return Ok(Some(why));
    }
    if let Some(why) = commit_pending(config, node, op) {
        return Ok(Some(why));
    }
    if let Some(why) = already_locked(node, op) {
        return Ok(Some(why));
    }
    if let Some(why) = not_locked(config, node, op)? {
        return Ok(Some(why));
    }
    if let Some(why) = no_such_call(table, op) {
        return Ok(Some(why));
    }
    Ok(full(config, node, op))
}
