//! A node takes the items of its script.
ghost use Rattle.std.specs.Prelude.{◌≡◌, ◌+◌, ◌<◌, ◌^◌, [], ℕ, true, List, Option, Some, None, IfErr, IfOk, OnOk, MatchBool, MatchOption, length};
ghost use Rattle.ct_actor.specs.Acting.{MayAsk};
ghost use Rattle.std.specs.List.{list_all};
ghost use Rattle.std.specs.Result.{result_err};
ghost use Rattle.ct_call.specs.Rules.{Rules};
ghost use Rattle.ct_call.specs.Shown.{rules_of};
ghost use Rattle.ct_script.specs.Cues.{next_item};
ghost use Rattle.ct_script.specs.declared.cue.Cue.{Cue as Cued};
ghost use Rattle.ct_script.specs.declared.plan.PlanItem.{PlanItem as Item};
ghost use Rattle.ct_script.specs.declared.plan.PlanItem.TheVariants as plan;
ghost use Rattle.ct_actor.specs.Journalled as journalled;
ghost use Rattle.ct_outside.specs.Links.{Pieces};
ghost use Rattle.ct_outside.specs.Locks.{LockState};
ghost use Rattle.ct_outside.specs.Told.{Told};
ghost use Rattle.ct_wire_link.specs.Parcels.{frames_sent};
ghost use Rattle.ct_script.specs.Sound.{may_be_told};
ghost use Rattle.ct_wire_link.specs.Sending.{is_sendable};
ghost use Rattle.ct_actor_serving.specs.Outside.{NotesOne, HasNoTicket, SendsLong, SendsOnly, ServesOn, TakesTicket, heard, outside};
ghost use Rattle.ct_actor_serving.specs.Serving as serving;

use crate::fault::{AtLimit, ServeFault};
use crate::part::Part;
use ct_actor::acting::{take_call, take_round};
use ct_actor::node::Node;
use ct_call::table::CallTable;
use ct_node_state::turn::CoreFault;
use ct_outside::fault::TakeFault;
use ct_outside::link::Link;
use ct_outside::lock::RecLock;
use ct_script::cue::Cue;
use ct_script::plan::PlanItem;
use ct_values::copies::Duplicate;
use ct_wire_link::fault::SendFault;
use ct_wire_link::send::send_all;
use std::alloc::Global;

/// The fault where a step of this is refused.
pub(crate) fn fault_of(at: AtLimit, fault: CoreFault) -> ServeFault
    ensures { result ≡ serving.fault_of at fault }
{
    match fault {
        CoreFault::Exhausted => ServeFault::Exhausted(at),
        CoreFault::NoMemory => ServeFault::NoMemory,
    }
}

/// Sends what the node did last.
#[tactic(auto, unfolding(crate::specs::Serving::HasCause))]
pub(crate) fn send_last<L: Link>(alloc: Global, node: &Node, link: &mut L) -> Result<(), ServeFault>
    requires { list_all is_sendable (journalled.last_outs node.now.entries) ≡ true }
    ensures counts { serving.NoneFell (serving.of_link L.faults L.endings L.looks link.old) (serving.of_link L.faults L.endings L.looks link.new) }
    ensures permissions { L.permissions link.new ≡ L.permissions link.old }
    ensures cause { serving.IsCaused result (serving.of_link L.faults L.endings L.looks link.old) (serving.of_link L.faults L.endings L.looks link.new) }
    ensures sent { Told (L.pieces link.old) (L.pieces link.new) (SendsOnly (result_err result) (frames_sent (journalled.last_outs node.now.entries))) }
    ensures long { SendsLong (result_err result) node.now.entries }
    ensures free { (lock : LockState) → HasNoTicket (result_err result) node.now lock }
    ensures piece { serving.IsNoPiece (result_err result) }
    ensures item { serving.IsNoItem (result_err result) }
{
    match send_all(alloc, link, node.last_outs()) {
        Ok(()) => Ok(()),
        Err(SendFault::Link) => Err(ServeFault::Link),
        Err(SendFault::TooLong(size)) => Err(ServeFault::TooLong(size)),
        Err(SendFault::NoMemory) => Err(ServeFault::NoMemory),
    }
}

/// The next ticket for the node.
#[tactic(auto, unfolding(crate::specs::Serving::HasCause))]
fn next_ticket<R: RecLock>(lock: &mut R, node: u32) -> Result<u64, ServeFault>
    ensures counts { serving.NoneFell (serving.of_lock R.faults R.refusals lock.old) (serving.of_lock R.faults R.refusals lock.new) }
    ensures cause { serving.IsCaused result (serving.of_lock R.faults R.refusals lock.old) (serving.of_lock R.faults R.refusals lock.new) }
    ensures told { Told (R.state lock.old) (R.state lock.new) (TakesTicket result node) }
    ensures piece { serving.IsNoPiece (result_err result) }
    ensures send { serving.IsNoSend (result_err result) }
    ensures item { (rules : Rules) (script : List Item) (members : List ℕ) (x : journalled.Journalled) (c : Cued) → next_item script c ≡ Some (plan.Round members) → serving.IsNextItem rules script (result_err result) x c }
{
    match lock.take(node) {
        Ok(ticket) => Ok(ticket),
        Err(TakeFault::Held { holder, .. }) => Err(ServeFault::Held { holder }),
        Err(TakeFault::Exhausted) => Err(ServeFault::Exhausted(AtLimit::Ticket)),
        Err(TakeFault::Failed) => Err(ServeFault::Link),
        Err(TakeFault::NoMemory) => Err(ServeFault::NoMemory),
    }
}

/// The node takes this item of its script, which is the next one.
fn take<R: RecLock>(
    node: &mut Node,
    table: &CallTable,
    cue: &mut Cue,
    item: &PlanItem,
    lock: &mut R,
) -> Result<(), ServeFault>
    requires may { MayAsk (rules_of table.now) node.old cue.old }
    requires told { may_be_told node.old.core.config node.old.core.pnn item.now ≡ true }
    ensures goes_on { (script : List Item) → next_item script cue.old ≡ Some item.now → serving.GoesOn (rules_of table.now) script node.old cue.old node.new cue.new }
    ensures taken { OnOk result (cue.new.taken ≡ cue.old.taken + 1) }
    ensures sendable { OnOk result (list_all is_sendable (journalled.last_outs node.new.entries) ≡ true) }
    ensures counts { serving.NoneFell (serving.of_lock R.faults R.refusals lock.old) (serving.of_lock R.faults R.refusals lock.new) }
    ensures cause { serving.IsCaused result (serving.of_lock R.faults R.refusals lock.old) (serving.of_lock R.faults R.refusals lock.new) }
    ensures noted { OnOk result (NotesOne [] node.old node.new (R.state lock.old) (R.state lock.new)) }
    ensures next { (script : List Item) → next_item script cue.old ≡ Some item.now → serving.IsNextItem (rules_of table.now) script (result_err result) node.new cue.new }
    ensures stopped { (pieces : Option Pieces) → IfErr result (λ f. ServesOn (rules_of table.now) (Some f) (heard [] []) node.old node.new (outside pieces (R.state lock.old)) (outside pieces (R.state lock.new))) }
    ensures piece { serving.IsNoPiece (result_err result) }
{
    match item {
        PlanItem::Call(op) => match op.copy() {
            Ok(op) => match take_call(node, table, cue, op) {
                Ok(()) => Ok(()),
                Err(fault) => Err(fault_of(AtLimit::Call, fault)),
            },
            Err(_) => Err(ServeFault::NoMemory),
        },
        PlanItem::Round(members) => match members.duplicate() {
            Ok(members) => match next_ticket(lock, node.core().pnn()) {
                Ok(ticket) => match take_round(node, table, cue, ticket, members) {
                    Ok(()) => Ok(()),
                    Err(fault) => Err(fault_of(AtLimit::Round(ticket), fault)),
                },
                Err(fault) => Err(fault),
            },
            Err(_) => Err(ServeFault::NoMemory),
        },
    }
}

/// The item that the node may take next.
#[tactic(auto, using(crate::proofs::Taking::none_left))]
fn next_of<'a>(cue: &Cue, script: &'a [PlanItem]) -> Option<&'a PlanItem>
    ensures { MatchOption result (next_item script.now cue.now ≡ None) (λ item. (next_item script.now cue.now ≡ Some item.now) × (cue.now.taken < length script.now) × (cue.now.taken + 1 < 2 ^ 64)) }
{
    if cue.taken >= script.len() {
        return None;
    }
    cue.next(script)
}

/// The node takes the next item of its script, if it may take one, and sends what it then does. Was one taken?
#[tactic(auto, using(crate::proofs::Taking::next_told))]
pub(crate) fn take_next<L: Link, R: RecLock>(
    node: &mut Node,
    part: &Part,
    cue: &mut Cue,
    link: &mut L,
    lock: &mut R,
) -> Result<bool, ServeFault>
    requires acts { serving.Acts (rules_of part.now.table.now) part.now.script.now node.old cue.old }
    requires told { list_all (may_be_told node.old.core.config node.old.core.pnn) part.now.script.now ≡ true }
    ensures goes_on { serving.GoesOn (rules_of part.now.table.now) part.now.script.now node.old cue.old node.new cue.new }
    ensures counts { serving.NoneFell (serving.both (serving.of_link L.faults L.endings L.looks link.old) (serving.of_lock R.faults R.refusals lock.old)) (serving.both (serving.of_link L.faults L.endings L.looks link.new) (serving.of_lock R.faults R.refusals lock.new)) }
    ensures permissions { L.permissions link.new ≡ L.permissions link.old }
    ensures cause { serving.IsCaused result (serving.both (serving.of_link L.faults L.endings L.looks link.old) (serving.of_lock R.faults R.refusals lock.old)) (serving.both (serving.of_link L.faults L.endings L.looks link.new) (serving.of_lock R.faults R.refusals lock.new)) }
    ensures next { serving.IsNextItem (rules_of part.now.table.now) part.now.script.now (result_err result) node.new cue.new }
    ensures taken { IfOk result (λ one. MatchBool one ((cue.old.taken < length part.now.script.now) × (cue.new.taken ≡ cue.old.taken + 1)) (next_item part.now.script.now cue.new ≡ None)) }
    ensures outside { ServesOn (rules_of part.now.table.now) (result_err result) (heard [] []) node.old node.new (outside (L.pieces link.old) (R.state lock.old)) (outside (L.pieces link.new) (R.state lock.new)) }
    ensures piece { serving.IsNoPiece (result_err result) }
{
    let Some(item) = next_of(cue, part.script) else {
        return Ok(false);
    };
    match take(node, part.table, cue, item, lock) {
        Ok(()) => {}
        Err(fault) => return Err(fault),
    }
    match send_last(part.alloc, node, link) {
        Ok(()) => Ok(true),
        Err(fault) => Err(fault),
    }
}
