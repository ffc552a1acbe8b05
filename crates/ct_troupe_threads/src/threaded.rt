//! All nodes of a plan, side by side.
ghost use Rattle.std.specs.Prelude.{◌≡◌, ◌<◌, ◌^◌, ℕ, Some, IfOk, IfSome, length, map, slice_get};
ghost use Rattle.ct_call.specs.Shown.{rules_of};
ghost use Rattle.ct_script.specs.Sound.{IsSound};
ghost use Rattle.ct_troupe_threads.specs.Threaded as threaded;
ghost use Rattle.ct_troupe.specs.Played.{ArePlayed};

use crate::beside::serve_beside;
use crate::settled::are_settled;
use ct_call::table::CallTable;
use ct_journal::journal::Journal;
use ct_links::hub::Hub;
use ct_links::seats::LockBook;
use ct_outside::gate::Gate;
use ct_script::plan::Plan;
use ct_values::memory::NoMemory;
use std::alloc::Global;
use std::sync::{Mutex, Wait};
use std::thread;
use std::thread::Threads;

/// Each node serves in a thread of its own. What each of them leaves, in their order.
fn serve_all<R: Threads + Wait + Sync, G: Gate + Send>(
    rt: &R,
    alloc: Global,
    table: &CallTable,
    plan: &Plan,
    gates: &[Mutex<&mut G>],
) -> Result<Vec<Result<Option<Journal>, NoMemory>>, NoMemory>
    requires { IsSound plan.now }
    ensures count { IfOk result (λ v. length v.items ≡ plan.now.config.nodes) }
    ensures each { IfOk result (λ v. (n : ℕ) (r : _) → slice_get v.items n ≡ Some r → IfOk r (λ o. IfSome o (threaded.HasServed (rules_of table.now) plan.now n))) }
{
    let hub = Hub::new(rt, alloc, plan.config.nodes)?;
    let book = LockBook::new(rt, alloc);
    let (boxes, pages) = (&hub, &book);
    let all = thread::map_indices(
        rt,
        alloc,
        plan.config.nodes as usize,
        &|node: usize| -> Result<Option<Journal>, NoMemory>
            requires { IsSound plan.now × (node < plan.now.config.nodes) × (node < 2 ^ 32) × (boxes.now ≡ plan.now.config.nodes) }
            ensures { IfOk result (λ o. IfSome o (threaded.HasServed (rules_of table.entry.now) plan.entry.now node)) }
        { serve_beside(rt, alloc, table, plan, boxes, pages, gates, node as u32) },
    )?;
    Ok(all)
}

/// The journals of nodes that all served well, in their order.
fn gather(
    alloc: Global,
    all: Vec<Result<Option<Journal>, NoMemory>>,
) -> Result<Option<Vec<Journal>>, NoMemory>
    ensures { IfOk result (λ o. IfSome o (λ v. all.items ≡ map threaded.served v.items)) }
{
    let mut journals = Vec::new(alloc);
    for left in all {
        match left? {
            Some(journal) => journals.push(journal)?,
            None => return Ok(None),
        }
    }
    Ok(Some(journals))
}

/// What the nodes leave, as the journals of a play; none where they are not.
fn play_behind<R: Threads + Wait + Sync, G: Gate + Send>(
    rt: &R,
    alloc: Global,
    table: &CallTable,
    plan: &Plan,
    gates: &[Mutex<&mut G>],
) -> Result<Option<Vec<Journal>>, NoMemory>
    requires { IsSound plan.now }
    ensures played { IfOk result (λ o. IfSome o (λ v. ArePlayed (rules_of table.now) plan.now v.items)) }
    ensures settled { IfOk result (λ o. IfSome o (λ v. threaded.AreSettled v.items)) }
{
    let all = serve_all(rt, alloc, table, plan, gates)?;
    let Some(journals) = gather(alloc, all)? else {
        return Ok(None);
    };
    if are_settled(alloc, journals.as_slice())? {
        Ok(Some(journals))
    } else {
        Ok(None)
    }
}

/// Plays the plan with one thread a node, each over a link of one hub and with a seat of one lock book. Node n passes the gate at
/// place n, or an open gate where there is none. Its journals; or none where a node could not serve to its end, where the
/// journals are not in order, or where a message that was sent has not arrived though no journal has 1,000,000 entries. The
/// plan is to be played again then, in another way.
pub fn play_in_threads<R: Threads + Wait + Sync, G: Gate + Send>(
    rt: &R,
    alloc: Global,
    table: &CallTable,
    plan: &Plan,
    gates: &mut [G],
) -> Result<Option<Vec<Journal>>, NoMemory>
    requires { IsSound plan.now }
    ensures played { IfOk result (λ o. IfSome o (λ v. ArePlayed (rules_of table.now) plan.now v.items)) }
    ensures settled { IfOk result (λ o. IfSome o (λ v. threaded.AreSettled v.items)) }
{
    let mut locked = Vec::new(alloc);
    let each = gates.iter_mut();
    for gate in each {
        locked.push(Mutex::new(gate))?;
    }
    play_behind(rt, alloc, table, plan, locked.as_slice())
}
