//! The records that are locked at a node.
ghost use Rattle.std.specs.Prelude.{◌≡◌, IfOk};
ghost use Rattle.ct_rules_node.specs.Clients.{any_locked, any_locked_in};

use ct_node_database::database::Database;
use ct_rules::state::RecState;
use ct_store::hashed::Store;
use ct_values::boxed::Boxed;
use ct_values::memory::NoMemory;

/// Is one of these records locked here?
#[tactic(auto, unfolding(ct_rules_node::specs::Clients::any_locked_in))]
fn any_locked_in(records: &Store<Boxed<RecState>>) -> Result<bool, NoMemory>
    ensures { IfOk result (λ any. any ≡ any_locked_in records.now) }
{
    for entry in records.sorted()? {
        if entry.1.as_ref().locked.is_some() {
            return Ok(true);
        }
    }
    Ok(false)
}

/// Is a record of these databases locked here?
#[tactic(auto, unfolding(ct_rules_node::specs::Clients::any_locked))]
pub fn any_locked(dbs: &[Database]) -> Result<bool, NoMemory>
    ensures { IfOk result (λ any. any ≡ any_locked dbs.now) }
{
    for db in dbs {
        if any_locked_in(db.records())? {
            return Ok(true);
        }
    }
    Ok(false)
}
