//! One node of a plan, which follows its script.
ghost use Rattle.std.specs.Prelude.{◌≡◌, ◌<◌, ◌+◌, ◌^◌, true, Some, IfOk, OnOk};
ghost use Rattle.ct_call.specs.Shown.{rules_of};
ghost use Rattle.ct_script.specs.Cues.{next_item};
ghost use Rattle.ct_frame.specs.declared.event.Event.TheVariants as event;
ghost use Rattle.ct_script.specs.declared.plan.PlanItem.TheVariants as item;
ghost use Rattle.ct_script.specs.Sound.{IsSound, script_of};
ghost use Rattle.ct_actor.specs.Queues.{is_for};
ghost use Rattle.ct_actor.specs.Seats as seats;

use crate::acting::{arrive, take_call, take_round};
use crate::node::Node;
use ct_call::table::CallTable;
use ct_frame::frame::Frame;
use ct_frame_fields::fields::well_formed;
use ct_node_state::turn::CoreFault;
use ct_script::cue::Cue;
use ct_script::plan::{Plan, PlanItem};
use ct_values::client::ClientOp;
use ct_values::copies::Duplicate;
use ct_values::items::Items;

/// A node, and how far it is in its script.
#[derive(Drop)]
pub struct Seat {
    pub node: Node,
    pub cue: Cue,
}

/// The script of the node.
#[tactic(auto, unfolding(ct_script::specs::Sound::script_of, ct_script::specs::Sound::or_no_items))]
fn script_at(plan: &Plan, node: u32) -> &[PlanItem]
    ensures { result.now ≡ script_of plan.now node }
{
    match plan.scripts.as_slice().get(node as usize) {
        Some(script) => script.as_slice(),
        None => &[],
    }
}

/// May the message arrive at the node?
#[tactic(auto, unfolding(crate::specs::Queues::is_for))]
pub fn is_for(node: u32, frame: &Frame) -> bool
    ensures { result ≡ is_for node frame.now }
{
    well_formed(frame) && frame.receiver == node
}

impl Seat {
    /// A message arrives.
    #[tactic(auto, using(crate::proofs::Seating::takes_message, crate::proofs::Seating::is_formed))]
    pub fn take_message(
        &mut self,
        table: &CallTable,
        plan: &Plan,
        node: u32,
        frame: Frame,
    ) -> Result<(), CoreFault>
        requires seat { seats.IsSeatOf (rules_of table.now) plan.now node self.old }
        requires to { is_for node frame ≡ true }
        ensures { OnOk result (seats.TakesEvent (rules_of table.now) plan.now node (event.Arrive frame) self.old self.new) }
    {
        arrive(&mut self.node, table, &mut self.cue, frame)
    }

    /// The next item is a call.
    #[tactic(auto, using(crate::proofs::Seating::takes_call, crate::proofs::Seating::is_allowed, crate::proofs::Seating::may_ask))]
    fn ask(
        &mut self,
        table: &CallTable,
        plan: &Plan,
        node: u32,
        op: ClientOp,
    ) -> Result<(), CoreFault>
        requires seat { seats.IsSeatOf (rules_of table.now) plan.now node self.old }
        requires sound { IsSound plan.now }
        requires next { next_item (script_of plan.now node) self.old.cue ≡ Some (item.Call op) }
        ensures { OnOk result (seats.TakesEvent (rules_of table.now) plan.now node (event.Client (self.old.cue.calls + 1) op) self.old self.new) }
    {
        take_call(&mut self.node, table, &mut self.cue, op)
    }

    /// The next item is a round.
    #[tactic(auto, using(crate::proofs::Seating::takes_round, crate::proofs::Seating::has_room))]
    fn lead(
        &mut self,
        table: &CallTable,
        plan: &Plan,
        node: u32,
        ticket: u64,
        members: Items<u32>,
    ) -> Result<(), CoreFault>
        requires seat { seats.IsSeatOf (rules_of table.now) plan.now node self.old }
        requires sound { IsSound plan.now }
        requires next { next_item (script_of plan.now node) self.old.cue ≡ Some (item.Round members) }
        ensures { OnOk result (seats.TakesEvent (rules_of table.now) plan.now node (event.BeginRound ticket members) self.old self.new) }
    {
        take_round(&mut self.node, table, &mut self.cue, ticket, members)
    }

    /// Takes the next item of the script, where one may be taken. A round gets the ticket after the last one. Was there an
    /// item?
    #[tactic(auto, using(crate::proofs::Seating::item_round))]
    pub fn take_item(
        &mut self,
        table: &CallTable,
        plan: &Plan,
        node: u32,
        last: u64,
    ) -> Result<bool, CoreFault>
        requires seat { seats.IsSeatOf (rules_of table.now) plan.now node self.old }
        requires sound { IsSound plan.now }
        requires last { last + 1 < 2 ^ 64 }
        ensures { IfOk result (λ some. seats.TakesItem (rules_of table.now) plan.now node last some self.old self.new) }
    {
        match self.cue.next(script_at(plan, node)) {
            None => Ok(false),
            Some(PlanItem::Call(op)) => {
                self.ask(table, plan, node, op.copy()?)?;
                Ok(true)
            }
            Some(PlanItem::Round(members)) => {
                self.lead(table, plan, node, last + 1, members.duplicate()?)?;
                Ok(true)
            }
        }
    }
}
