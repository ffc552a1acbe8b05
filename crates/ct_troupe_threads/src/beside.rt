//! One node of a plan, which serves in a thread of its own.
ghost use Rattle.std.specs.Prelude.{◌≡◌, ◌<◌, IfOk, IfSome};
ghost use Rattle.ct_call.specs.Shown.{rules_of};
ghost use Rattle.ct_script.specs.Sound as sound;
ghost use Rattle.ct_actor_serving.specs.Serving.{of_link};
ghost use Rattle.ct_troupe_threads.specs.Threaded as threaded;

use crate::seated::serve_seated;
use ct_actor_serving::fault::{ServeFault, Until};
use ct_actor_serving::serve::{Node, serve_until};
use ct_call::table::CallTable;
use ct_journal::journal::Journal;
use ct_links::hub::Hub;
use ct_links::seats::LockBook;
use ct_outside::gate::{Gate, OpenGate};
use ct_outside::link::Link;
use ct_outside::lock::RecLock;
use ct_script::plan::{Plan, PlanItem};
use ct_values::memory::NoMemory;
use std::alloc::Global;
use std::sync::{Mutex, Wait};

/// The script of the node.
#[tactic(auto, unfolding(ct_script::specs::Sound::script_of, ct_script::specs::Sound::or_no_items))]
fn script_at(plan: &Plan, node: u32) -> &[PlanItem]
    ensures { result.now ≡ sound.script_of plan.now node }
{
    match plan.scripts.as_slice().get(node as usize) {
        Some(script) => script.as_slice(),
        None => &[],
    }
}

/// The node serves from its opening on, until nothing will come any more or it has served so long. None where serving ends too
/// early for another reason than want of memory.
#[tactic(auto, using(crate::proofs::Serving::may_serve))]
pub fn serve_plan<L: Link, S: RecLock, G: Gate>(
    alloc: Global,
    table: &CallTable,
    plan: &Plan,
    link: &mut L,
    lock: &mut S,
    gate: &mut G,
    node: u32,
    until: Until,
) -> Result<Option<Journal>, NoMemory>
    requires sound { sound.IsSound plan.now }
    requires node { node < plan.now.config.nodes }
    ensures served { IfOk result (λ o. IfSome o (threaded.HasServed (rules_of table.now) plan.now node)) }
    ensures ends { IfOk result (λ o. IfSome o (threaded.ServedFor until (of_link L.faults L.endings L.looks link.old) (of_link L.faults L.endings L.looks link.new))) }
{
    let mut own = Node::new(alloc, node, &plan.config)?;
    match serve_until(
        alloc,
        &mut own,
        table,
        script_at(plan, node),
        link,
        lock,
        gate,
        until,
    ) {
        Ok(_) => Ok(Some(own.into_journal())),
        Err(ServeFault::NoMemory) => Err(NoMemory),
        Err(_) => Ok(None),
    }
}

/// The node serves over the hub, with a seat of the book, through its own gate, or an open one where there is none for it,
/// until its journal has 1,000,000 entries. It leaves the hub in each case.
pub fn serve_beside<R: Wait, G: Gate>(
    rt: &R,
    alloc: Global,
    table: &CallTable,
    plan: &Plan,
    hub: &Hub<&R>,
    book: &LockBook<&R>,
    gates: &[Mutex<&mut G>],
    node: u32,
) -> Result<Option<Journal>, NoMemory>
    requires sound { sound.IsSound plan.now }
    requires node { node < plan.now.config.nodes }
    requires hub { hub.now ≡ plan.now.config.nodes }
    ensures { IfOk result (λ o. IfSome o (threaded.HasServed (rules_of table.now) plan.now node)) }
{
    let mut link = hub.link(node);
    let mut seat = book.seat();
    match gates.get(node as usize) {
        Some(gate) => {
            let mut gate = gate.lock(rt);
            serve_seated(alloc, table, plan, &mut link, &mut seat, &mut **gate, node)
        }
        None => serve_seated(
            alloc,
            table,
            plan,
            &mut link,
            &mut seat,
            &mut OpenGate,
            node,
        ),
    }
}
