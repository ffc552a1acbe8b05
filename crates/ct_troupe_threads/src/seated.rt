//! One node of a plan, which serves over a hub: messages are handed on whole.
ghost use Rattle.std.specs.Prelude.{◌≡◌, ◌<◌, ◌+◌, ◌^◌, [], None, IfOk, IfSome, IsTrue, OnOk, length, nat_le};
ghost use Rattle.ct_call.specs.Shown.{rules_of};
ghost use Rattle.ct_script.specs.Cues as cues;
ghost use Rattle.ct_script.specs.Sound as sound;
ghost use Rattle.ct_actor_serving.specs.Handed as handed;
ghost use Rattle.ct_troupe_threads.specs.Seated as seated;
ghost use Rattle.ct_troupe_threads.specs.Threaded.{HasServed};

use crate::settled::MOST_ENTRIES;
use ct_actor_serving::serve::{Node, Seat, is_for};
use ct_call::table::CallTable;
use ct_frame::event::Out;
use ct_frame::frame::Frame;
use ct_journal::journal::Journal;
use ct_links::hub::{Handed, HubLink};
use ct_node_state::turn::CoreFault;
use ct_outside::fault::TakeFault;
use ct_outside::gate::Gate;
use ct_outside::lock::RecLock;
use ct_script::cue::Cue;
use ct_script::plan::{Plan, PlanItem};
use ct_values::memory::NoMemory;
use std::alloc::Global;
use std::sync::Wait;

/// Why a node does not serve to its end.
#[derive(Clone, Copy, Debug, PartialEq, Eq)]
pub enum Stop {
    /// Another node holds the lock, a message is none to it, or a number would reach 2^62.
    Fails,
    NoMemory,
}

/// Why it does not where a step is refused.
fn stop_of(fault: CoreFault) -> Stop {
    match fault {
        CoreFault::Exhausted => Stop::Fails,
        CoreFault::NoMemory => Stop::NoMemory,
    }
}

/// The script of the node.
#[tactic(auto, unfolding(ct_script::specs::Sound::script_of, ct_script::specs::Sound::or_no_items))]
fn script_at(plan: &Plan, node: u32) -> &[PlanItem]
    ensures { result.now ≡ sound.script_of plan.now node }
{
    match plan.scripts.as_slice().get(node as usize) {
        Some(script) => script.as_slice(),
        None => &[],
    }
}

/// Sends a copy of each message among what the node did last.
fn send_last<R: Wait>(node: &Node, link: &mut HubLink<'_, R>) -> Result<(), NoMemory> {
    for out in node.last_outs() {
        if let Out::Send(frame) = out {
            link.send(frame.copy()?)?;
        }
    }
    Ok(())
}

/// A message arrives, and the node sends what it then does.
#[tactic(auto, using(crate::proofs::Seating::took_event))]
fn take_message<R: Wait>(
    table: &CallTable,
    plan: &Plan,
    seat: &mut Seat,
    node: u32,
    frame: Frame,
    link: &mut HubLink<'_, R>,
) -> Result<(), Stop>
    requires seat { handed.IsSeatOf (rules_of table.now) plan.now node seat.old }
    ensures { OnOk result (seated.StaysSeated (rules_of table.now) plan.now node seat.old seat.new) }
{
    if !is_for(node, &frame) {
        return Err(Stop::Fails);
    }
    match seat.take_message(table, plan, node, frame) {
        Ok(()) => {}
        Err(fault) => return Err(stop_of(fault)),
    }
    match send_last(&seat.node, link) {
        Ok(()) => Ok(()),
        Err(_) => Err(Stop::NoMemory),
    }
}

/// The ticket before that of the next item of the script: a round has one of the lock, and a call needs none.
fn last_ticket<S: RecLock>(plan: &Plan, seat: &Seat, node: u32, lock: &mut S) -> Result<u64, Stop>
    ensures { IfOk result (λ last. last + 1 < 2 ^ 64) }
{
    match seat.cue.next(script_at(plan, node)) {
        Some(PlanItem::Round(_)) => match lock.take(node) {
            Ok(ticket) if ticket > 0 => Ok(ticket - 1),
            Err(TakeFault::NoMemory) => Err(Stop::NoMemory),
            _ => Err(Stop::Fails),
        },
        _ => Ok(0),
    }
}

/// The node takes the next item of its script, if it may take one, and sends what it then does.
#[tactic(auto, using(crate::proofs::Seating::took_item))]
fn take_item<R: Wait, S: RecLock>(
    table: &CallTable,
    plan: &Plan,
    seat: &mut Seat,
    node: u32,
    link: &mut HubLink<'_, R>,
    lock: &mut S,
) -> Result<(), Stop>
    requires sound { sound.IsSound plan.now }
    requires seat { handed.IsSeatOf (rules_of table.now) plan.now node seat.old }
    ensures { OnOk result (seated.StaysSeated (rules_of table.now) plan.now node seat.old seat.new) }
{
    let last = match last_ticket(plan, seat, node, lock) {
        Ok(last) => last,
        Err(stop) => return Err(stop),
    };
    let some = match seat.take_item(table, plan, node, last) {
        Ok(some) => some,
        Err(fault) => return Err(stop_of(fault)),
    };
    if !some {
        return Ok(());
    }
    match send_last(&seat.node, link) {
        Ok(()) => Ok(()),
        Err(_) => Err(Stop::NoMemory),
    }
}

/// May the node wait for a message? It may where it has no item of its script to take.
#[tactic(auto, using(crate::proofs::Seating::none_next))]
fn may_wait(plan: &Plan, seat: &Seat, node: u32) -> bool
    ensures { IsTrue result → cues.next_item (sound.script_of plan.now node) seat.now.cue ≡ None }
{
    match seat.cue.next(script_at(plan, node)) {
        Some(_) => false,
        None => true,
    }
}

/// The node looks for a message, and takes what comes, or else the next item of its script, if it may take one. Will nothing come
/// any more?
fn turn<R: Wait, S: RecLock>(
    table: &CallTable,
    plan: &Plan,
    seat: &mut Seat,
    node: u32,
    link: &mut HubLink<'_, R>,
    lock: &mut S,
) -> Result<bool, Stop>
    requires sound { sound.IsSound plan.now }
    requires seat { handed.IsSeatOf (rules_of table.now) plan.now node seat.old }
    ensures seat { OnOk result (seated.StaysSeated (rules_of table.now) plan.now node seat.old seat.new) }
    ensures none { IfOk result (λ closed. IsTrue closed → cues.next_item (sound.script_of plan.now node) seat.new.cue ≡ None) }
{
    let waits = may_wait(plan, seat, node);
    match link.receive(waits) {
        Handed::Message(frame) => match take_message(table, plan, seat, node, frame, link) {
            Ok(()) => Ok(false),
            Err(stop) => Err(stop),
        },
        Handed::Nothing => match take_item(table, plan, seat, node, link, lock) {
            Ok(()) => Ok(false),
            Err(stop) => Err(stop),
        },
        Handed::Closed => Ok(true),
    }
}

/// The node at its opening.
fn opened(alloc: Global, plan: &Plan, node: u32) -> Result<Seat, NoMemory>
    requires sound { sound.IsSound plan.now }
    requires node { node < plan.now.config.nodes }
    ensures node { IfOk result (λ s. s.node ≡ handed.at_opening node plan.now.config) }
    ensures cue { IfOk result (λ s. s.cue ≡ cues.first_cue []) }
{
    let own = Node::new(alloc, node, &plan.config)?;
    Ok(Seat {
        node: own,
        cue: Cue::first(&[]),
    })
}

/// Has the journal all entries that a node takes?
fn is_full(seat: &Seat) -> bool
    ensures { result ≡ nat_le cues.most_entries (length seat.now.node.entries) }
{
    seat.node.entries().len() as u64 >= MOST_ENTRIES
}

/// The node serves over its link of a hub from its opening on, until nothing will come any more or its journal has 1,000,000
/// entries. Each turn it passes the gate, and looks once, with permission to wait exactly where it can take no item of its script.
/// None where serving ends too early for another reason than want of memory.
pub fn serve_seated<R: Wait, S: RecLock, G: Gate>(
    alloc: Global,
    table: &CallTable,
    plan: &Plan,
    link: &mut HubLink<'_, R>,
    lock: &mut S,
    gate: &mut G,
    node: u32,
) -> Result<Option<Journal>, NoMemory>
    requires sound { sound.IsSound plan.now }
    requires node { node < plan.now.config.nodes }
    ensures served { IfOk result (λ o. IfSome o (HasServed (rules_of table.now) plan.now node)) }
    ensures turns { seated.ServesInTurns node result (G.passes gate.old) (G.passes gate.new) }
{
    let mut seat = opened(alloc, plan, node)?;
    for number in 0..u64::MAX {
        if is_full(&seat) {
            return Ok(Some(seat.node.into_journal()));
        }
        gate.pass(node, number);
        match turn(table, plan, &mut seat, node, link, lock) {
            Ok(false) => {}
            Ok(true) => return Ok(Some(seat.node.into_journal())),
            Err(Stop::Fails) => return Ok(None),
            Err(Stop::NoMemory) => return Err(NoMemory),
        }
    }
    Ok(None)
}
