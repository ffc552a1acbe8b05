//! Reads of a persistent database.
ghost use Rattle.std.specs.Prelude.{◌≡◌, IfOk};
ghost use Rattle.ct_values.specs.Words.{or_empty};
ghost use Rattle.ct_rules_node.specs.Databases.{read_pair};
ghost use Rattle.ct_rules_node.specs.Node.{db_at};
ghost use Rattle.ct_rules_node.specs.Turn.{begins};
ghost use Rattle.ct_store.specs.Map.{look};
ghost use Rattle.ct_node_plan.specs.Changes.{Plans};

use ct_node_plan::change::Planned;
use ct_node_plan::handed::{CoreFault, Node};
use ct_node_plan::still::answered;
use ct_values::client::Answer;
use ct_values::key::Key;
use ct_values::memory::NoMemory;
use ct_values::value::Value;

/// The value of a key in a persistent database, and the empty value where it has none.
#[tactic(auto, unfolding(ct_rules_node::specs::Node::db_at, ct_rules_node::specs::Node::or_untouched, ct_rules_node::specs::Node::untouched, ct_values::specs::Words::or_empty))]
fn pair_at(node: &Node, db: u32, key: &Key) -> Result<Value, NoMemory>
    ensures { IfOk result (λ v. v ≡ or_empty (look key.now (db_at db node.now).store.pairs)) }
{
    let Some(database) = node.database(db) else {
        return Ok(Value::empty(node.alloc));
    };
    match database.store().get(key) {
        Some(value) => value.copy(),
        None => Ok(Value::empty(node.alloc)),
    }
}

/// The value of a pair is answered at once.
#[tactic(auto, unfolding(ct_rules_node::specs::Databases::read_pair))]
pub fn read_pair(call: u64, db: u32, key: &Key, node: &Node) -> Result<Planned, CoreFault>
    ensures { Plans result (read_pair call db key.now (begins node.now)) node.now }
{
    let value = pair_at(node, db, key)?;
    answered(call, Answer::Read(value), node)
}
