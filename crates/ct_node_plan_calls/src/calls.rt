//! Calls on one record.
ghost use Rattle.std.specs.Prelude.{◌<◌, ◌^◌, length};
ghost use Rattle.ct_call.specs.Shown.{rules_of};
ghost use Rattle.ct_rules.specs.Moves.{store, unlock};
ghost use Rattle.ct_rules.specs.Parts.{want};
ghost use Rattle.ct_rules_node.specs.Records.{at_record};
ghost use Rattle.ct_rules_node.specs.Turn.{begins};
ghost use Rattle.ct_node_plan.specs.Changes.{Plans};

use ct_call::table::CallTable;
use ct_node_plan::change::Planned;
use ct_node_plan::handed::{CoreFault, Node};
use ct_node_plan::record::acted;
use ct_record::moves;
use ct_values::client::ClientOp;
use ct_values::config::Config;
use ct_values::key::Key;
use ct_values::value::Value;

/// A lock, a read, a write or a function wants the record.
#[tactic(auto, unfolding(ct_rules_node::specs::Records::at_record, ct_rules_node::specs::Records::view))]
pub fn want(
    config: &Config,
    table: &CallTable,
    me: u32,
    call: u64,
    op: &ClientOp,
    db: u32,
    key: &Key,
    node: &Node,
) -> Result<Planned, CoreFault>
    requires there { db < length node.now.dbs }
    requires next { node.now.next < 2 ^ 62 }
    ensures { Plans result (at_record config.now me db key.now (λ at o. want at (rules_of table.now) call op.now o) (begins node.now)) node.now }
{
    let at = node.place_of(config, me, db, key)?;
    let mut draft = node.view(db, key)?;
    draft.want(&at, table, call, op)?;
    acted(me, db, key, draft, node)
}

/// The value of a record is set under its lock.
#[tactic(auto, unfolding(ct_rules_node::specs::Records::at_record))]
pub fn store(
    config: &Config,
    me: u32,
    call: u64,
    db: u32,
    key: &Key,
    value: &Value,
    node: &Node,
) -> Result<Planned, CoreFault>
    requires { db < length node.now.dbs }
    ensures { Plans result (at_record config.now me db key.now (λ at o. store call value.now o) (begins node.now)) node.now }
{
    let mut draft = node.view(db, key)?;
    moves::store(&mut draft, call, value)?;
    acted(me, db, key, draft, node)
}

/// The lock ends, and then what waits is handled.
#[tactic(auto, unfolding(ct_rules_node::specs::Records::at_record))]
pub fn unlock(
    config: &Config,
    me: u32,
    call: u64,
    db: u32,
    key: &Key,
    node: &Node,
) -> Result<Planned, CoreFault>
    requires { db < length node.now.dbs }
    ensures { Plans result (at_record config.now me db key.now (λ at o. unlock at call o) (begins node.now)) node.now }
{
    let at = node.place_of(config, me, db, key)?;
    let mut draft = node.view(db, key)?;
    moves::unlock(&mut draft, &at, call)?;
    acted(me, db, key, draft, node)
}
