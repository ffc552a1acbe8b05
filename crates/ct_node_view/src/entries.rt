//! The copies and the entries of one database, by key. A number that is no database has none.
ghost use Rattle.std.specs.Prelude.{◌≡◌, ◌++◌, Some, IfOk, OnOk, map};
ghost use Rattle.std.specs.Map.Iter.{deref_pair};
ghost use Rattle.ct_rules_node.specs.Node.{db_at};
ghost use Rattle.ct_node_view.specs.Had.{copies_of, entries_of, entry_row};

use ct_frame::frame::TableRow;
use ct_frame::header::RecCopy;
use ct_node_state::node::Node;
use ct_rules::state::{Entry, RecState};
use ct_store::hashed::Store;
use ct_values::boxed::Boxed;
use ct_values::key::Key;
use ct_values::memory::NoMemory;
use std::alloc::Global;

/// The row of an entry.
fn entry_row(db: u32, key: &Key, entry: &Entry) -> Result<TableRow, NoMemory>
    ensures { IfOk result (λ row. entry_row db key.now (Some entry.now) ≡ Some row) }
{
    Ok(TableRow {
        db,
        key: key.copy()?,
        rsn: entry.least,
        value: entry.value.copy()?,
        master: None,
    })
}

/// Puts a row for each entry behind these, by key.
#[tactic(auto, unfolding(ct_rules_node::specs::Rounds::with_row))]
fn add_entries(
    rows: &mut Vec<TableRow>,
    db: u32,
    records: &Store<Boxed<RecState>>,
) -> Result<(), NoMemory>
    ensures { OnOk result (rows.new.items ≡ rows.old.items ++ entries_of db records.now) }
{
    for (key, state) in records.sorted_where(|state| state.as_ref().entry.is_some())? {
        if let Some(entry) = &state.as_ref().entry {
            rows.push(entry_row(db, key, entry)?)?;
        }
    }
    Ok(())
}

/// A row for each entry of a database: its least RSN and its value.
#[tactic(auto, unfolding(ct_rules_node::specs::Node::db_at, ct_rules_node::specs::Node::or_untouched, ct_rules_node::specs::Node::untouched))]
pub fn entries(db: u32, node: &Node) -> Result<Vec<TableRow>, NoMemory>
    ensures { IfOk result (λ rows. rows.items ≡ entries_of db (db_at db node.now).records) }
{
    let mut rows = Vec::new(node.alloc);
    if let Some(database) = node.database(db) {
        add_entries(&mut rows, db, database.records())?;
    }
    Ok(rows)
}

/// The copies that a map has, by key.
fn copies_of(
    alloc: Global,
    records: &Store<Boxed<RecState>>,
) -> Result<Vec<(&Key, &RecCopy)>, NoMemory>
    ensures { IfOk result (λ copies. map deref_pair copies.items ≡ copies_of records.now) }
{
    let mut copies = Vec::new(alloc);
    for (key, state) in records.sorted_where(|state| state.as_ref().copy.is_some())? {
        if let Some(copy) = &state.as_ref().copy {
            copies.push((key, copy))?;
        }
    }
    Ok(copies)
}

/// The copies of a database.
#[tactic(auto, unfolding(ct_rules_node::specs::Node::db_at, ct_rules_node::specs::Node::or_untouched, ct_rules_node::specs::Node::untouched))]
pub fn copies(db: u32, node: &Node) -> Result<Vec<(&Key, &RecCopy)>, NoMemory>
    ensures { IfOk result (λ copies. map deref_pair copies.items ≡ copies_of (db_at db node.now).records) }
{
    match node.database(db) {
        Some(database) => copies_of(node.alloc, database.records()),
        None => Ok(Vec::new(node.alloc)),
    }
}
