//! The calls that wait for records at a node, by number.
ghost use Rattle.std.specs.Prelude.{◌≡◌, ◌++◌, ◌<◌, ◌≤◌, ◌^◌, IfOk, OnOk, length};
ghost use Rattle.ct_rules_node.specs.Numbered.{by_number};
ghost use Rattle.ct_rules_node.specs.Rounds.{calls_in, calls_of, pending_calls};

use ct_node_database::database::Database;
use ct_node_state::node::Node;
use ct_rules::state::RecState;
use ct_store::hashed::Store;
use ct_values::boxed::Boxed;
use ct_values::key::Key;
use ct_values::memory::NoMemory;
use std::alloc::Global;
use std::marker::Model;

/// A client's call that waits for a record.
#[derive(Debug, Drop)]
pub struct Called {
    pub call: u64,
    pub db: u32,
    pub key: Key,
}

impl Model for Called {
    ghost use Rattle.ct_rules_node.specs.Rounds as rounds;
    ghost use Rattle.ct_node_view.specs.Code.{called_code};

    ghost Value = { rounds.Called };

    ghost coded = { called_code };

    ghost view = { λ c. record { call = c.call; db = c.db; key = c.key } };
}

/// Puts the calls that wait in a database behind these, by key.
#[tactic(auto, unfolding(ct_rules_node::specs::Rounds::calls_of, ct_rules_node::specs::Rounds::called_of))]
fn add_calls(
    calls: &mut Vec<Called>,
    db: u32,
    records: &Store<Boxed<RecState>>,
) -> Result<(), NoMemory>
    ensures { OnOk result (calls.new.items ≡ calls.old.items ++ calls_of db records.now) }
{
    for (key, state) in records.sorted_where(|state| state.as_ref().wish.is_some())? {
        if let Some(wish) = &state.as_ref().wish {
            calls.push(Called {
                call: wish.call,
                db,
                key: key.copy()?,
            })?;
        }
    }
    Ok(())
}

/// The calls that wait in these databases, by database and key.
#[tactic(auto, unfolding(ct_rules_node::specs::Rounds::calls_in))]
fn calls_in(alloc: Global, dbs: &[Database]) -> Result<Vec<Called>, NoMemory>
    requires { length dbs.now < 2 ^ 32 }
    ensures { IfOk result (λ calls. calls.items ≡ calls_in 0 dbs.now) }
{
    let mut calls = Vec::new(alloc);
    for (i, db) in dbs.iter().enumerate() {
        add_calls(&mut calls, i as u32, db.records())?;
    }
    Ok(calls)
}

/// Puts calls in the order of their numbers.
fn by_number(calls: &mut Vec<Called>) -> Result<(), NoMemory>
    ensures { OnOk result (calls.new.items ≡ by_number (λ x. x.call) calls.old.items) }
{
    calls.sort_by_key(|x| x.call)?;
    Ok(())
}

/// The calls that wait for a record at the node, by number.
#[tactic(auto, unfolding(ct_rules_node::specs::Rounds::pending_calls))]
pub fn pending_calls(node: &Node) -> Result<Vec<Called>, NoMemory>
    requires { length node.now.dbs < 2 ^ 32 }
    ensures { IfOk result (λ calls. calls.items ≡ pending_calls node.now) }
{
    let mut calls = calls_in(node.alloc, node.dbs.as_slice())?;
    by_number(&mut calls)?;
    Ok(calls)
}
