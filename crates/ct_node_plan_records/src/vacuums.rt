//! A vacuum of a database. Only the noted keys are looked at: of all others nothing comes.
ghost use Rattle.std.specs.Prelude.{◌≡◌, ◌≢◌, ℕ, ◌<◌, ◌^◌, List, length};
ghost use Rattle.ct_node_database.specs.Noted.{IsTidy};
ghost use Rattle.ct_frame.specs.Header.{nobody};
ghost use Rattle.ct_node_plan.specs.Changes.{Plans};
ghost use Rattle.ct_node_plan.specs.declared.change.Change.TheVariants as change;
ghost use Rattle.ct_rules.specs.State.{rsn_of};
ghost use Rattle.ct_law_rules_node.specs.NodeLaws.{NodeAscends};
ghost use Rattle.ct_rules_node.specs.Node.{db_at, state_at};
ghost use Rattle.ct_rules_node.specs.Steps.{vacuum_all, vacuums};
ghost use Rattle.ct_rules_node.specs.Turn.{begins};
ghost use Rattle.ct_tracking.specs.Candidates.{Ascends};
ghost use Rattle.ct_node_plan_records.specs.Keys.{deleted_of, vacuum_keys};
ghost use Rattle.ct_node_plan_records.specs.Walked.{Walks};

use crate::walk::Walk;
use ct_node_database::database::Database;
use ct_node_plan::change::{Change, Planned};
use ct_node_plan::handed::{CoreFault, Node, is_serving};
use ct_node_plan::still::nothing;
use ct_values::config::Config;
use ct_values::key::Key;

/// Each of these keys is looked at.
fn vacuum_keys(
    config: &Config,
    me: u32,
    db: u32,
    keys: Vec<Key>,
    node: &Node,
) -> Result<Walk, CoreFault>
    requires there { db < length node.now.dbs }
    requires order { NodeAscends node.now }
    requires ascending { Ascends keys.items }
    requires in_limit { (key : List ℕ) → rsn_of (state_at db key node.now).copy < 2 ^ 62 }
    ensures { Walks result (vacuum_keys config.now me db (deleted_of db node.now keys.items) (begins node.now)) db node.now }
{
    let asked = node.members.others(me)?;
    let mut walk = Walk::begins(db, node);
    for key in keys {
        if let Err(fault) = walk.vacuum_key(config, me, db, &asked, key, node) {
            return Err(fault);
        }
    }
    Ok(walk)
}

/// What was left of the records and done is planned.
fn planned(db: u32, walk: Walk) -> Planned
    ensures { result ≡ record { change = change.Records db walk.left; outs = walk.outs } }
{
    let Walk { left, outs, .. } = walk;
    Planned {
        change: Change::Records { db, left },
        outs,
    }
}

/// Each key of the database is looked at.
fn vacuum_all(
    config: &Config,
    me: u32,
    db: u32,
    database: &Database,
    node: &Node,
) -> Result<Planned, CoreFault>
    requires at { database.now ≡ db_at db node.now }
    requires own { me ≢ nobody }
    requires there { db < length node.now.dbs }
    requires order { NodeAscends node.now }
    requires in_limit { (key : List ℕ) → rsn_of (state_at db key node.now).copy < 2 ^ 62 }
    ensures { Plans result (vacuum_all config.now me db (db_at db node.now).records (begins node.now)) node.now }
{
    match vacuum_keys(config, me, db, database.noted()?, node) {
        Ok(walk) => Ok(planned(db, walk)),
        Err(fault) => Err(fault),
    }
}

/// A vacuum of a database, at a node that serves.
#[tactic(auto, unfolding(ct_rules_node::specs::Steps::vacuums, ct_rules_node::specs::Steps::vacuum_all, ct_rules_node::specs::Node::db_at, ct_rules_node::specs::Node::or_untouched, ct_rules_node::specs::Node::untouched))]
pub fn vacuums(config: &Config, me: u32, db: u32, node: &Node) -> Result<Planned, CoreFault>
    requires own { me ≢ nobody }
    requires order { NodeAscends node.now }
    requires in_limit { (db : ℕ) (key : List ℕ) → rsn_of (state_at db key node.now).copy < 2 ^ 62 }
    ensures { Plans result (vacuums config.now me db (begins node.now)) node.now }
{
    if !is_serving(node.member) {
        return Ok(nothing(node));
    }
    match node.database(db) {
        Some(database) => vacuum_all(config, me, db, database, node),
        None => Ok(nothing(node)),
    }
}
