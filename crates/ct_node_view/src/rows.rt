//! The rows and the persistent tables of a node. They are in order: rows by database and key, tables by database.
ghost use Rattle.std.specs.Prelude.{◌≡◌, ◌++◌, ◌∷◌, [], ◌<◌, ◌^◌, Some, IfOk, OnOk, length};
ghost use Rattle.ct_rules.specs.State.{is_mastered};
ghost use Rattle.ct_rules_node.specs.Node.{db_at};
ghost use Rattle.ct_rules_node.specs.Rounds.{own_or_none, ptables_of, row_of, rows_of, table_of};

use ct_frame::frame::{PTable, TableRow};
use ct_frame::header::RecCopy;
use ct_node_database::database::Database;
use ct_node_state::kinds::{is_persistent, kind_at};
use ct_node_state::node::Node;
use ct_rules::state::RecState;
use ct_store::hashed::Store;
use ct_values::boxed::Boxed;
use ct_values::config::Config;
use ct_values::items::Items;
use ct_values::key::Key;
use ct_values::memory::NoMemory;
use std::alloc::Global;

/// This node, where it is the data master of the copy.
#[tactic(auto, unfolding(ct_rules_node::specs::Rounds::own_or_none, ct_rules::specs::State::is_mastered))]
fn own_or_none(me: u32, copy: &RecCopy) -> Option<u32>
    ensures { result ≡ own_or_none me (is_mastered me (Some copy.now)) }
{
    if copy.header.dmaster == me {
        Some(me)
    } else {
        None
    }
}

/// The row of a copy, with this node as data master where it is holder.
#[tactic(auto, unfolding(ct_rules_node::specs::Rounds::row_of))]
fn row_of(me: u32, db: u32, key: &Key, copy: &RecCopy) -> Result<TableRow, NoMemory>
    ensures { IfOk result (λ row. row_of me db key.now (Some copy.now) ≡ Some row) }
{
    Ok(TableRow {
        db,
        key: key.copy()?,
        rsn: copy.header.rsn,
        value: copy.value.copy()?,
        master: own_or_none(me, copy),
    })
}

/// Puts a row for each copy of a database behind these, by key.
#[tactic(auto, unfolding(ct_rules_node::specs::Rounds::rows_of, ct_rules_node::specs::Rounds::with_row, ct_rules_node::specs::Rounds::row_of))]
fn add_rows(
    rows: &mut Vec<TableRow>,
    me: u32,
    db: u32,
    records: &Store<Boxed<RecState>>,
) -> Result<(), NoMemory>
    ensures { OnOk result (rows.new.items ≡ rows.old.items ++ rows_of me db records.now) }
{
    for (key, state) in records.sorted_where(|state| state.as_ref().copy.is_some())? {
        if let Some(copy) = &state.as_ref().copy {
            rows.push(row_of(me, db, key, copy)?)?;
        }
    }
    Ok(())
}

/// A row for each copy of these databases, by database and key.
#[tactic(auto, unfolding(ct_rules_node::specs::Rounds::table_of))]
fn table_of(alloc: Global, me: u32, dbs: &[Database]) -> Result<Vec<TableRow>, NoMemory>
    requires { length dbs.now < 2 ^ 32 }
    ensures { IfOk result (λ rows. rows.items ≡ table_of me 0 dbs.now) }
{
    let mut rows = Vec::new(alloc);
    for (i, db) in dbs.iter().enumerate() {
        add_rows(&mut rows, me, i as u32, db.records())?;
    }
    Ok(rows)
}

/// Pull: a row for each copy that the node has, by database and key.
pub fn table(me: u32, node: &Node) -> Result<Items<TableRow>, NoMemory>
    requires { length node.now.dbs < 2 ^ 32 }
    ensures { IfOk result (λ rows. rows ≡ table_of me 0 node.now.dbs) }
{
    Ok(Items::new(table_of(node.alloc, me, node.dbs.as_slice())?))
}

/// The rows of one database, by key. A number that is no database has none.
#[tactic(auto, unfolding(ct_rules_node::specs::Node::db_at, ct_rules_node::specs::Node::or_untouched, ct_rules_node::specs::Node::untouched, ct_rules_node::specs::Rounds::rows_of))]
pub fn rows(me: u32, db: u32, node: &Node) -> Result<Vec<TableRow>, NoMemory>
    ensures { IfOk result (λ rows. rows.items ≡ rows_of me db (db_at db node.now).records) }
{
    let mut rows = Vec::new(node.alloc);
    if let Some(database) = node.database(db) {
        add_rows(&mut rows, me, db, database.records())?;
    }
    Ok(rows)
}

/// Puts the table of a persistent database behind these.
#[tactic(auto, unfolding(ct_rules_node::specs::Rounds::ptables_of))]
fn add_ptable(
    ptables: &mut Vec<PTable>,
    config: &Config,
    db: u32,
    database: &Database,
) -> Result<(), NoMemory>
    ensures { OnOk result (ptables.new.items ≡ ptables.old.items ++ ptables_of config.now db (database.now ∷ [])) }
{
    if is_persistent(kind_at(config, db)) {
        ptables.push(PTable {
            db,
            seq: database.store().seq(),
            pairs: Items::new(database.store().pairs()?),
        })?;
    }
    Ok(())
}

/// The tables of the persistent ones of these databases.
#[tactic(auto, using(crate::proofs::Tables::first_table), unfolding(ct_rules_node::specs::Rounds::ptables_of))]
fn ptables_of(alloc: Global, config: &Config, dbs: &[Database]) -> Result<Vec<PTable>, NoMemory>
    requires { length dbs.now < 2 ^ 32 }
    ensures { IfOk result (λ ptables. ptables.items ≡ ptables_of config.now 0 dbs.now) }
{
    let mut ptables = Vec::new(alloc);
    for (i, db) in dbs.iter().enumerate() {
        add_ptable(&mut ptables, config, i as u32, db)?;
    }
    Ok(ptables)
}

/// Pull: every persistent database that the node has.
pub fn ptables(config: &Config, node: &Node) -> Result<Items<PTable>, NoMemory>
    requires { length node.now.dbs < 2 ^ 32 }
    ensures { IfOk result (λ ptables. ptables ≡ ptables_of config.now 0 node.now.dbs) }
{
    Ok(Items::new(ptables_of(node.alloc, config, node.dbs.as_slice())?))
}
