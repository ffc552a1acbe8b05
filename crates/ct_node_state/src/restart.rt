//! What a stop leaves of a node. No call takes memory.
ghost use Rattle.std.specs.Prelude.{◌≡◌, map};
ghost use Rattle.ct_node_state.specs.Whole.{nowhere};
ghost use Rattle.ct_rules_node.specs.Node.{restarted_db};

use ct_frame::frame::Assigned;
use ct_node_database::database::Database;
use ct_values::items::Items;
use std::alloc::Global;
use std::mem;

/// What a stop leaves of a database.
fn restart(alloc: Global, database: &mut Database)
    ensures { database.new ≡ restarted_db database.old }
{
    let before = mem::replace(database, Database::untouched(alloc));
    *database = before.restarted();
}

/// What a stop leaves of the databases.
#[tactic(auto, using(std::proofs::lemmas::List::Edits::map_over_more, crate::proofs::Placed::all_changed))]
pub(crate) fn restarted_all(alloc: Global, dbs: Items<Database>) -> Items<Database>
    ensures { result ≡ map restarted_db dbs }
{
    let mut list = dbs.into_vec();
    for database in list.iter_mut() {
        restart(alloc, database);
    }
    Items::new(list)
}

/// No node is known at this address.
fn vacate(place: &mut Assigned)
    ensures { place.new ≡ nowhere place.old }
{
    place.node = None;
}

/// No node is known at any of these addresses.
#[tactic(auto, using(std::proofs::lemmas::List::Edits::map_over_more, crate::proofs::Placed::all_changed))]
pub(crate) fn nowhere(placement: Items<Assigned>) -> Items<Assigned>
    ensures { result ≡ map nowhere placement }
{
    let mut list = placement.into_vec();
    for x in list.iter_mut() {
        vacate(x);
    }
    Items::new(list)
}
