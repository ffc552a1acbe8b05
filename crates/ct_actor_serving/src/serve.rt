//! A node serves.
ghost use Rattle.std.specs.Prelude.{◌≡◌, ◌∷◌, [], ℕ, true, List, None, Ok, IfOk, IsTrue, OnOk, MatchBool, length};
ghost use Rattle.std.specs.List.{list_all};
ghost use Rattle.std.specs.Result.{result_err};
ghost use Rattle.ct_call.specs.Shown.{rules_of};
ghost use Rattle.ct_script.specs.Cues.{next_item};
ghost use Rattle.ct_actor.specs.Journalled as journalled;
ghost use Rattle.ct_outside.specs.Causes.{Rose};
ghost use Rattle.ct_outside.specs.Locks.{LockState};
ghost use Rattle.ct_outside.specs.Told as told;
ghost use Rattle.ct_outside.specs.declared.link.Received.TheVariants as received;
ghost use Rattle.ct_script.specs.Sound.{may_be_told};
ghost use Rattle.ct_actor_serving.specs.declared.fault.Until.TheVariants as until;
ghost use Rattle.ct_actor_serving.specs.Hearing as hearing;
ghost use Rattle.ct_actor_serving.specs.Outside.{HasNoTicket, ServesOn, TakesOnly, heard, outside, taken_in};
ghost use Rattle.ct_actor_serving.specs.Serving as serving;
ghost use Rattle.ct_actor_serving.specs.Turns.{ServesTurns, may_wait_at};

use crate::fault::{ServeFault, Served, Until};
use crate::items::take_next;
use crate::part::Part;
use crate::pieces::take_piece;
pub use ct_actor::node::Node;
pub use ct_actor::seat::{Seat, is_for};
use ct_call::table::CallTable;
use ct_outside::fault::LinkFault;
use ct_outside::gate::Gate;
use ct_outside::link::{Link, Received};
use ct_outside::lock::RecLock;
use ct_script::cue::Cue;
use ct_script::plan::PlanItem;
use ct_wire_link::readers::Readers;
use std::alloc::Global;

/// May the node wait for a piece? It may where it has no item of its script to take.
fn may_wait(cue: &Cue, script: &[PlanItem]) -> bool
    ensures none { MatchBool result (next_item script.now cue.now ≡ None) (next_item script.now cue.now ≡ None → ⊥) }
    ensures may { result ≡ may_wait_at script.now cue.now }
{
    match cue.next(script) {
        Some(_) => false,
        None => true,
    }
}

/// Looks for a piece.
#[tactic(auto, unfolding(crate::specs::Serving::HasCause))]
fn look<L: Link>(link: &mut L, may_wait: bool) -> Result<Received, ServeFault>
    ensures counts { serving.NoneFell (serving.of_link L.faults L.endings L.looks link.old) (serving.of_link L.faults L.endings L.looks link.new) }
    ensures cause { serving.IsCaused result (serving.of_link L.faults L.endings L.looks link.old) (serving.of_link L.faults L.endings L.looks link.new) }
    ensures looked { OnOk result (Rose (L.looks link.old) (L.looks link.new)) }
    ensures closed { result ≡ Ok received.Closed → IsTrue may_wait × Rose (L.endings link.old) (L.endings link.new) }
    ensures permissions { told.Lists (may_wait ∷ []) (L.permissions link.old) (L.permissions link.new) }
    ensures pieces { told.Told (L.pieces link.old) (L.pieces link.new) (TakesOnly (taken_in result)) }
    ensures free { (x : journalled.Journalled) (lock : LockState) → HasNoTicket (result_err result) x lock }
    ensures piece { serving.IsNoPiece (result_err result) }
    ensures item { serving.IsNoItem (result_err result) }
    ensures send { serving.IsNoSend (result_err result) }
{
    match link.receive(may_wait) {
        Ok(received) => Ok(received),
        Err(LinkFault::Failed) => Err(ServeFault::Link),
        Err(LinkFault::NoMemory) => Err(ServeFault::NoMemory),
    }
}

/// The node looks for a piece, and takes what comes, or else the next item of its script, if it may take one. Will nothing
/// come any more?
fn turn<L: Link, R: RecLock>(
    node: &mut Node,
    part: &Part,
    cue: &mut Cue,
    readers: &mut Readers,
    link: &mut L,
    lock: &mut R,
) -> Result<bool, ServeFault>
    requires acts { serving.Acts (rules_of part.now.table.now) part.now.script.now node.old cue.old }
    requires told { list_all (may_be_told node.old.core.config node.old.core.pnn) part.now.script.now ≡ true }
    ensures goes_on { serving.GoesOn (rules_of part.now.table.now) part.now.script.now node.old cue.old node.new cue.new }
    ensures counts { serving.NoneFell (serving.both (serving.of_link L.faults L.endings L.looks link.old) (serving.of_lock R.faults R.refusals lock.old)) (serving.both (serving.of_link L.faults L.endings L.looks link.new) (serving.of_lock R.faults R.refusals lock.new)) }
    ensures cause { serving.IsCaused result (serving.both (serving.of_link L.faults L.endings L.looks link.old) (serving.of_lock R.faults R.refusals lock.old)) (serving.both (serving.of_link L.faults L.endings L.looks link.new) (serving.of_lock R.faults R.refusals lock.new)) }
    ensures next { serving.IsNextItem (rules_of part.now.table.now) part.now.script.now (result_err result) node.new cue.new }
    ensures permissions { told.Lists (may_wait_at part.now.script.now cue.old ∷ []) (L.permissions link.old) (L.permissions link.new) }
    ensures turned { IfOk result (λ closed. serving.Turned closed (serving.of_link L.faults L.endings L.looks link.old) (serving.of_link L.faults L.endings L.looks link.new) (next_item part.now.script.now cue.new)) }
    ensures outside { hearing.ServesTurn (rules_of part.now.table.now) (result_err result) node.old node.new (outside (L.pieces link.old) (R.state lock.old)) (outside (L.pieces link.new) (R.state lock.new)) readers.old readers.new }
{
    let waits = may_wait(cue, part.script);
    match look(link, waits) {
        Ok(Received::Piece { sender, bytes }) => {
            match take_piece(
                part.alloc,
                node,
                part.table,
                cue,
                readers,
                link,
                sender,
                bytes.as_slice(),
            ) {
                Ok(()) => Ok(false),
                Err(fault) => Err(fault),
            }
        }
        Ok(Received::Nothing) => match take_next(node, part, cue, link, lock) {
            Ok(_) => Ok(false),
            Err(fault) => Err(fault),
        },
        Ok(Received::Closed) => Ok(true),
        Err(fault) => Err(fault),
    }
}

/// The node takes each item of its script that it may take, one after the other.
fn take_rest<L: Link, R: RecLock>(
    node: &mut Node,
    part: &Part,
    cue: &mut Cue,
    link: &mut L,
    lock: &mut R,
) -> Result<(), ServeFault>
    requires acts { serving.Acts (rules_of part.now.table.now) part.now.script.now node.old cue.old }
    requires told { list_all (may_be_told node.old.core.config node.old.core.pnn) part.now.script.now ≡ true }
    ensures goes_on { serving.GoesOn (rules_of part.now.table.now) part.now.script.now node.old cue.old node.new cue.new }
    ensures counts { serving.NoneFell (serving.both (serving.of_link L.faults L.endings L.looks link.old) (serving.of_lock R.faults R.refusals lock.old)) (serving.both (serving.of_link L.faults L.endings L.looks link.new) (serving.of_lock R.faults R.refusals lock.new)) }
    ensures permissions { L.permissions link.new ≡ L.permissions link.old }
    ensures cause { serving.IsCaused result (serving.both (serving.of_link L.faults L.endings L.looks link.old) (serving.of_lock R.faults R.refusals lock.old)) (serving.both (serving.of_link L.faults L.endings L.looks link.new) (serving.of_lock R.faults R.refusals lock.new)) }
    ensures next { serving.IsNextItem (rules_of part.now.table.now) part.now.script.now (result_err result) node.new cue.new }
    ensures rest { OnOk result (next_item part.now.script.now cue.new ≡ None) }
    ensures outside { ServesOn (rules_of part.now.table.now) (result_err result) (heard [] []) node.old node.new (outside (L.pieces link.old) (R.state lock.old)) (outside (L.pieces link.new) (R.state lock.new)) }
    ensures piece { serving.IsNoPiece (result_err result) }
{
    'items: loop {
        match take_next(node, part, cue, link, lock) {
            Ok(true) => {}
            Ok(false) => return Ok(()),
            Err(fault) => return Err(fault),
        }
    }
}

/// How many turns there may be.
fn most_turns(until: Until) -> u64
    ensures { result ≡ serving.most_turns until }
{
    match until {
        Until::Turns(turns) => turns,
        Until::Entries(_) => u64::MAX,
    }
}

/// Has the journal all entries that it is to have?
fn is_full(until: Until, node: &Node) -> bool
    ensures { result ≡ serving.is_full until (length node.now.entries) }
{
    match until {
        Until::Turns(_) => false,
        Until::Entries(entries) => node.entries().len() as u64 >= entries,
    }
}

/// A node that is run by the table serves by it, with this script. Each turn it passes the gate, and receives from the link,
/// with permission to wait exactly where it can take no item of its script. A piece that comes is taken with all frames that
/// it completes; where none does, the next item is taken, if one can be. Each frame that arrives and each item that is taken
/// becomes one entry, whose frames are sent. Once the node has had its turns, or its journal has its entries, each item that
/// can still be taken is taken.
///
/// `Exhausted` tells what the node, as its journal leaves it, is to do next, and the rules give no step of it.
///
/// An item can be taken where each call that was taken before is answered. A round is led in the generation of the ticket of
/// one take of the lock.
///
/// Where the lock and the link tell what they give, the tickets of the new rounds are those that follow the last one, the pieces
/// of all that the new entries send were sent, and by sender the frames that arrived are all that the pieces taken complete.
pub fn serve_until<L: Link, R: RecLock, G: Gate>(
    alloc: Global,
    node: &mut Node,
    table: &CallTable,
    script: &[PlanItem],
    link: &mut L,
    lock: &mut R,
    gate: &mut G,
    until: Until,
) -> Result<Served, ServeFault>
    requires run { journalled.IsRunBy (rules_of table.now) node.old }
    requires told { list_all (may_be_told node.old.core.config node.old.core.pnn) script.now ≡ true }
    ensures acting { serving.HasActed (rules_of table.now) script.now node.old.entries result node.new }
    ensures same { (node.new.core.pnn ≡ node.old.core.pnn) × (node.new.core.config ≡ node.old.core.config) }
    ensures counts { serving.NoneFell (serving.both (serving.of_link L.faults L.endings L.looks link.old) (serving.of_lock R.faults R.refusals lock.old)) (serving.both (serving.of_link L.faults L.endings L.looks link.new) (serving.of_lock R.faults R.refusals lock.new)) }
    ensures cause { serving.IsCaused result (serving.both (serving.of_link L.faults L.endings L.looks link.old) (serving.of_lock R.faults R.refusals lock.old)) (serving.both (serving.of_link L.faults L.endings L.looks link.new) (serving.of_lock R.faults R.refusals lock.new)) }
    ensures ends { IfOk result (λ served. serving.EndsBy until served (length node.new.entries) (serving.of_link L.faults L.endings L.looks link.old) (serving.of_link L.faults L.endings L.looks link.new)) }
    ensures turns { ServesTurns until script.now result node.old node.new (L.permissions link.old) (L.permissions link.new) (G.passes gate.old) (G.passes gate.new) }
    ensures outside { hearing.Serves (rules_of table.now) (result_err result) node.old node.new (outside (L.pieces link.old) (R.state lock.old)) (outside (L.pieces link.new) (R.state lock.new)) }
{
    let part = Part {
        alloc,
        table,
        script,
    };
    let mut cue = Cue::first(node.entries());
    let mut readers = Readers::new(alloc);
    let most = most_turns(until);
    let mut number = 0;
    while number < most && !is_full(until, node) {
        gate.pass(node.core().pnn(), number);
        match turn(node, &part, &mut cue, &mut readers, link, lock) {
            Ok(false) => number += 1,
            Ok(true) => return Ok(Served::Closed),
            Err(fault) => return Err(fault),
        }
    }
    match take_rest(node, &part, &mut cue, link, lock) {
        Ok(()) => Ok(Served::Budget),
        Err(fault) => Err(fault),
    }
}

/// The node serves for so many turns.
pub fn serve<L: Link, R: RecLock, G: Gate>(
    alloc: Global,
    node: &mut Node,
    table: &CallTable,
    script: &[PlanItem],
    link: &mut L,
    lock: &mut R,
    gate: &mut G,
    turns: u64,
) -> Result<Served, ServeFault>
    requires run { journalled.IsRunBy (rules_of table.now) node.old }
    requires told { list_all (may_be_told node.old.core.config node.old.core.pnn) script.now ≡ true }
    ensures acting { serving.HasActed (rules_of table.now) script.now node.old.entries result node.new }
    ensures same { (node.new.core.pnn ≡ node.old.core.pnn) × (node.new.core.config ≡ node.old.core.config) }
    ensures counts { serving.NoneFell (serving.both (serving.of_link L.faults L.endings L.looks link.old) (serving.of_lock R.faults R.refusals lock.old)) (serving.both (serving.of_link L.faults L.endings L.looks link.new) (serving.of_lock R.faults R.refusals lock.new)) }
    ensures cause { serving.IsCaused result (serving.both (serving.of_link L.faults L.endings L.looks link.old) (serving.of_lock R.faults R.refusals lock.old)) (serving.both (serving.of_link L.faults L.endings L.looks link.new) (serving.of_lock R.faults R.refusals lock.new)) }
    ensures ends { IfOk result (λ served. serving.EndsBy (until.Turns turns) served (length node.new.entries) (serving.of_link L.faults L.endings L.looks link.old) (serving.of_link L.faults L.endings L.looks link.new)) }
    ensures turns { ServesTurns (until.Turns turns) script.now result node.old node.new (L.permissions link.old) (L.permissions link.new) (G.passes gate.old) (G.passes gate.new) }
    ensures outside { hearing.Serves (rules_of table.now) (result_err result) node.old node.new (outside (L.pieces link.old) (R.state lock.old)) (outside (L.pieces link.new) (R.state lock.new)) }
{
    serve_until(
        alloc,
        node,
        table,
        script,
        link,
        lock,
        gate,
        Until::Turns(turns),
    )
}
