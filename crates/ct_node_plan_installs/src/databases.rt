//! The databases that a push makes. Each row goes into its database, in one walk.
ghost use Rattle.std.specs.Prelude.{◌≡◌, ◌<◌, ◌^◌, true, IfOk, OnOk, length, option_copied, slice_get, slice_set};
ghost use Rattle.std.specs.List.{AllByRecursion, list_all};
ghost use Rattle.ct_frame.specs.Fields.{is_ptable};
ghost use Rattle.ct_node_plan_installs.specs.Filled.{bared_db, bared_dbs, filled, own_table, row_into, with_row};
ghost use Rattle.ct_rules_node.specs.Node.{or_untouched};
ghost use Rattle.ct_rules_node.specs.Rounds.{installed_dbs, store_from};

use crate::rows::install;
use ct_frame::frame::{PTable, TableRow};
use ct_node_database::database::{Database, Sweep};
use ct_node_state::members::Members;
use ct_values::items::Items;
use ct_values::memory::NoMemory;
use std::alloc::Global;

/// The first table of a database, if there is one.
#[tactic(auto, unfolding(crate::specs::Filled::own_table))]
fn own_table(db: u32, ptables: &[PTable]) -> Option<&PTable>
    ensures { option_copied result ≡ own_table db ptables.now }
{
    for table in ptables {
        if table.db == db {
            return Some(table);
        }
    }
    None
}

/// A persistent database becomes its table.
#[tactic(auto, using(crate::proofs::Filling::own_ascends, crate::proofs::Filling::own_kept, crate::proofs::Filling::stored_so, crate::proofs::Filling::stored_none))]
fn store_from(database: &mut Database, db: u32, ptables: &[PTable]) -> Result<(), NoMemory>
    requires { list_all is_ptable ptables.now ≡ true }
    ensures { OnOk result (database.new ≡ record database.old { store = store_from db ptables.now database.old.store }) }
{
    match own_table(db, ptables) {
        Some(table) => {
            database.replace(table)?;
            Ok(())
        }
        None => Ok(()),
    }
}

/// What is left of a database before the rows, with its persistent table.
#[tactic(auto, unfolding(crate::specs::Filled::bared_db, ct_node_database::specs::Sweeps::swept))]
fn bared_db(db: u32, ptables: &[PTable], database: &Database) -> Result<Database, NoMemory>
    requires { list_all is_ptable ptables.now ≡ true }
    ensures { IfOk result (λ d. d ≡ bared_db db ptables.now database.now) }
{
    let mut bared = database.swept(Sweep::Bare)?;
    bared.set_floor(0);
    store_from(&mut bared, db, ptables)?;
    Ok(bared)
}

/// So it is of all databases.
#[tactic(auto, unfolding(crate::specs::Filled::bared_dbs))]
fn bared_dbs(
    alloc: Global,
    ptables: &[PTable],
    dbs: &[Database],
) -> Result<Items<Database>, NoMemory>
    requires tables { list_all is_ptable ptables.now ≡ true }
    requires few { length dbs.now < 2 ^ 32 }
    ensures { IfOk result (λ all. all ≡ bared_dbs 0 ptables.now dbs.now) }
{
    let mut all = Vec::with_capacity(alloc, dbs.len())?;
    for (i, database) in dbs.iter().enumerate() {
        all.push(bared_db(i as u32, ptables, database)?)?;
    }
    Ok(Items::new(all))
}

/// The row is installed in the database at a place.
#[tactic(auto, using(ct_node_state::proofs::Lists::same_item), unfolding(ct_rules_node::specs::Node::or_untouched))]
fn install_at(
    dbs: &mut Items<Database>,
    place: usize,
    me: u32,
    members: &Members,
    row: &TableRow,
) -> Result<(), NoMemory>
    requires there { place < length dbs.old }
    requires limit { row.now.rsn < 2 ^ 62 }
    ensures { OnOk result (dbs.new ≡ slice_set dbs.old place (with_row me members.now row.now (or_untouched (slice_get dbs.old place)))) }
{
    install(dbs.get_mut(place), me, members, row)
}

/// The row goes into its database, where there is one.
#[tactic(auto, using(crate::proofs::Filling::into_there, crate::proofs::Filling::into_nowhere))]
fn install_row(
    dbs: &mut Items<Database>,
    me: u32,
    members: &Members,
    row: &TableRow,
) -> Result<(), NoMemory>
    requires { row.now.rsn < 2 ^ 62 }
    ensures { OnOk result (dbs.new ≡ row_into me members.now row.now 0 dbs.old) }
{
    let place = row.db as usize;
    if place < dbs.len() {
        install_at(dbs, place, me, members, row)
    } else {
        Ok(())
    }
}

/// All rows, in order.
#[tactic(auto, using(crate::proofs::Filling::filled_first, crate::proofs::Filling::filled_none))]
fn install_rows(
    dbs: &mut Items<Database>,
    me: u32,
    members: &Members,
    table: &[TableRow],
) -> Result<(), NoMemory>
    requires { AllByRecursion (λ row. row.rsn < 2 ^ 62) table.now }
    ensures { OnOk result (dbs.new ≡ filled me members.now table.now 0 dbs.old) }
{
    for row in table {
        install_row(dbs, me, members, row)?;
    }
    Ok(())
}

/// All databases after an installation.
#[tactic(auto, using(crate::proofs::Filling::filled_all))]
pub fn installed_dbs(
    alloc: Global,
    me: u32,
    members: &Members,
    table: &[TableRow],
    ptables: &[PTable],
    dbs: &[Database],
) -> Result<Items<Database>, NoMemory>
    requires rows { AllByRecursion (λ row. row.rsn < 2 ^ 62) table.now }
    requires tables { list_all is_ptable ptables.now ≡ true }
    requires few { length dbs.now < 2 ^ 32 }
    ensures { IfOk result (λ all. all ≡ installed_dbs me 0 members.now table.now ptables.now dbs.now) }
{
    let mut all = bared_dbs(alloc, ptables, dbs)?;
    install_rows(&mut all, me, members, table)?;
    Ok(all)
}
