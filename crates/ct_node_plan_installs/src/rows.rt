//! One row of a push, as it is installed.
ghost use Rattle.std.specs.Prelude.{◌≡◌, ◌<◌, ◌^◌, IfOk, OnOk};
ghost use Rattle.ct_node_plan_installs.specs.Filled.{is_mine, with_row};
ghost use Rattle.ct_rules_node.specs.Rounds.{copy_from, entry_from, row_master};

use ct_frame::frame::TableRow;
use ct_frame::header::{Header, NONE, RecCopy};
use ct_node_database::database::Database;
use ct_node_state::members::Members;
use ct_rules::state::Entry;
use ct_values::memory::NoMemory;

/// The data master of a row.
#[tactic(auto, unfolding(ct_rules_node::specs::Rounds::row_master, ct_rules_node::specs::Rounds::or_nobody))]
fn row_master(row: &TableRow) -> u32
    ensures { result ≡ row_master row.now }
{
    match row.master {
        Some(master) => master,
        None => NONE,
    }
}

/// Is the node data master or location master of the row?
pub fn is_mine(me: u32, members: &Members, row: &TableRow) -> bool
    ensures { result ≡ is_mine me members.now row.now }
{
    me == row_master(row) || me == members.master_of(&row.key)
}

/// The copy that a row makes, with one RSN more at its data master.
#[tactic(auto, unfolding(ct_rules_node::specs::Rounds::copy_from))]
fn copy_from(me: u32, row: &TableRow) -> Result<RecCopy, NoMemory>
    requires { row.now.rsn < 2 ^ 62 }
    ensures { IfOk result (λ x. x ≡ copy_from me row.now (row_master row.now)) }
{
    let dmaster = row_master(row);
    let rsn = if me == dmaster { row.rsn + 1 } else { row.rsn };
    Ok(RecCopy {
        header: Header {
            rsn,
            dmaster,
            flags: 0,
        },
        value: row.value.copy()?,
    })
}

/// The entry that a row makes at the location master of its key.
#[tactic(auto, unfolding(ct_rules_node::specs::Rounds::entry_from))]
fn entry_from(me: u32, lmaster: u32, row: &TableRow) -> Result<Option<Entry>, NoMemory>
    requires { row.now.rsn < 2 ^ 62 }
    ensures { IfOk result (λ x. x ≡ entry_from me lmaster row.now) }
{
    if me != lmaster {
        return Ok(None);
    }
    Ok(Some(Entry {
        holder: row_master(row),
        least: row.rsn + 1,
        request: 0,
        value: row.value.copy()?,
    }))
}

/// The row is installed in its database.
#[tactic(auto, unfolding(crate::specs::Filled::with_row, ct_rules_node::specs::Rounds::install_row, ct_rules_node::specs::Rounds::installed_state, ct_rules_node::specs::Records::kept))]
pub fn install(
    database: &mut Database,
    me: u32,
    members: &Members,
    row: &TableRow,
) -> Result<(), NoMemory>
    requires { row.now.rsn < 2 ^ 62 }
    ensures { OnOk result (database.new ≡ with_row me members.now row.now database.old) }
{
    let mut state = database.state(&row.key)?.into_inner();
    state.copy = Some(copy_from(me, row)?);
    state.entry = entry_from(me, members.master_of(&row.key), row)?;
    database.keep(row.key.copy()?, state)
}
