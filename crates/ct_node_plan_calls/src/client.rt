//! A client's call.
ghost use Rattle.std.specs.Prelude.{◌≡◌, ◌<◌, ◌^◌, length};
ghost use Rattle.ct_call.specs.Shown.{rules_of};
ghost use Rattle.ct_values.specs.Client.{db_of};
ghost use Rattle.ct_values.specs.declared.client.ClientOp.TheVariants as asked;
ghost use Rattle.ct_rules_node.specs.Clients.{client, reads, serves};
ghost use Rattle.ct_rules_node.specs.Turn.{begins};
ghost use Rattle.ct_node_plan.specs.Changes.{Plans};

use crate::calls::{store, want};
use crate::commits::commit;
use crate::pairs::read_pair;
use crate::unlocks::unlocks;
use ct_call::table::CallTable;
use ct_frame::header::LIMIT;
use ct_node_plan::change::Planned;
use ct_node_plan::handed::{CoreFault, Node, is_persistent, kind_at};
use ct_node_plan::still::answered;
use ct_node_refusal::refusal::refusal;
use ct_values::client::{Answer, ClientOp};
use ct_values::config::Config;
use ct_values::key::Key;

/// A read: of a pair in a persistent database, and else of a record.
#[tactic(auto, unfolding(ct_rules_node::specs::Clients::reads))]
fn reads(
    config: &Config,
    table: &CallTable,
    me: u32,
    call: u64,
    op: &ClientOp,
    db: u32,
    key: &Key,
    node: &Node,
) -> Result<Planned, CoreFault>
    requires read { op.now ≡ asked.Read db key.now }
    requires there { db < length node.now.dbs }
    requires next { node.now.next < 2 ^ 62 }
    ensures { Plans result (reads config.now (rules_of table.now) me call db key.now (begins node.now)) node.now }
{
    if is_persistent(kind_at(config, db)) {
        read_pair(call, db, key, node)
    } else {
        want(config, table, me, call, op, db, key, node)
    }
}

/// A call that is not refused.
#[tactic(auto, unfolding(ct_rules_node::specs::Clients::serves))]
fn serves(
    config: &Config,
    table: &CallTable,
    me: u32,
    call: u64,
    op: &ClientOp,
    node: &Node,
) -> Result<Planned, CoreFault>
    requires there { db_of op.now < length node.now.dbs }
    requires next { node.now.next < 2 ^ 62 }
    ensures { Plans result (serves config.now (rules_of table.now) me call (begins node.now) op.now) node.now }
{
    match op {
        ClientOp::Read { db, key } => reads(config, table, me, call, op, *db, key, node),
        ClientOp::Store { db, key, value } => store(config, me, call, *db, key, value, node),
        ClientOp::Unlock { db, key } => unlocks(config, me, call, *db, key, node),
        ClientOp::Commit { db, writes } => commit(me, call, *db, writes.as_slice(), node),
        ClientOp::Lock { db, key }
        | ClientOp::Write { db, key, .. }
        | ClientOp::Apply { db, key, .. } => want(config, table, me, call, op, *db, key, node),
    }
}

/// A client's call: the first refusal that holds is answered, and else the call is served. The node has each database of
/// the configuration.
pub fn client(
    config: &Config,
    table: &CallTable,
    me: u32,
    call: u64,
    op: &ClientOp,
    node: &Node,
) -> Result<Planned, CoreFault>
    requires dbs { length node.now.dbs ≡ length config.now.dbs }
    requires next { node.now.next < 2 ^ 62 }
    ensures { Plans result (client config.now (rules_of table.now) me call op.now (begins node.now)) node.now }
{
    if LIMIT <= call {
        return Err(CoreFault::Exhausted);
    }
    match refusal(config, table, node, op)? {
        Some(why) => answered(call, Answer::Refused(why), node),
        None => serves(config, table, me, call, op, node),
    }
}
