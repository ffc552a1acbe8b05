//! The merges of a round, over the pulls of its members. They are for callers of the library that have all pulls at once: a node
//! merges each as it comes (`merging`).
ghost use Rattle.std.specs.Prelude.{◌≡◌, true, IfOk};
ghost use Rattle.ct_merge.specs.Rule.{are_in_order, IsVolatileMerge, IsPersistentMerge, IsAddressMerge};

use ct_frame::frame::Assigned;
use ct_frame::round::Pull;
use ct_merge::held::{based_rows, held_addresses, held_ptables};
use ct_merge::merged::{Merged, PMerged};
use ct_merge::merging::{assigned_of, greater, ptables_of, table_of};
use ct_merge::placing::{join, room_for};
use ct_values::items::Items;
use ct_values::memory::NoMemory;
use std::alloc::Global;

/// The records of a round. The parent is the greatest base of the volatile databases. Each database and key that a
/// pull of that base has is kept once, with the greatest RSN: of several the lowest node's copy among those whose row
/// names its own node as data master, and where there is none the lowest node's copy. With parent 0 there are none.
pub fn merge_volatile(alloc: Global, pulls: &[Pull]) -> Result<Merged, NoMemory>
    requires { are_in_order pulls.now ≡ true }
    ensures { IfOk result (λ m. IsVolatileMerge pulls.now m) }
{
    let mut parent = 0;
    let mut rows = Vec::new(alloc);
    for pull in pulls {
        let table = pull.table.copy(alloc)?;
        let more = based_rows(alloc, pull.vbase, pull.node, table)?;
        let room = room_for(alloc, &rows, &more)?;
        join(alloc, parent, &mut rows, pull.vbase, more, room);
        parent = greater(parent, pull.vbase);
    }
    let table = table_of(alloc, rows.as_slice())?;
    Ok(Merged { parent, table })
}

/// The persistent databases of a round. The parent is the greatest base of the persistent databases, and each database
/// is that of a pull of this base with the greatest sequence number: of several the lowest node's.
pub fn merge_persistent(alloc: Global, pulls: &[Pull]) -> Result<PMerged, NoMemory>
    requires { are_in_order pulls.now ≡ true }
    ensures { IfOk result (λ m. IsPersistentMerge pulls.now m) }
{
    let mut parent = 0;
    let mut kept = Vec::new(alloc);
    for pull in pulls {
        let ptables = pull.ptables.copy(alloc)?;
        let more = held_ptables(alloc, pull.node, ptables)?;
        let room = room_for(alloc, &kept, &more)?;
        join(alloc, parent, &mut kept, pull.pbase, more, room);
        parent = greater(parent, pull.pbase);
    }
    let ptables = ptables_of(alloc, kept.as_slice())?;
    Ok(PMerged { parent, ptables })
}

/// Each address that some pull holds, assigned to the lowest such node.
pub fn merge_addresses(alloc: Global, pulls: &[Pull]) -> Result<Items<Assigned>, NoMemory>
    requires { are_in_order pulls.now ≡ true }
    ensures { IfOk result (λ assigned. IsAddressMerge pulls.now assigned) }
{
    let mut kept = Vec::new(alloc);
    for pull in pulls {
        let more = held_addresses(alloc, pull.node, pull.addresses.as_slice())?;
        let room = room_for(alloc, &kept, &more)?;
        join(alloc, 0, &mut kept, 0, more, room);
    }
    assigned_of(alloc, kept.as_slice())
}
