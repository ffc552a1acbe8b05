//! A node takes an item of its script, or a message that arrives.
ghost use Rattle.std.specs.Prelude.{◌≡◌, ◌<◌, ◌+◌, ◌^◌, true, OnErr, OnOk};
ghost use Rattle.std.specs.List.{list_all};
ghost use Rattle.ct_actor.specs.Acting as acting;
ghost use Rattle.ct_call.specs.Shown.{rules_of};
ghost use Rattle.ct_script.specs.Cues.{begun, cue_after};
ghost use Rattle.ct_frame.specs.Fields.{well_formed};
ghost use Rattle.ct_frame.specs.declared.event.Event.TheVariants as event;
ghost use Rattle.ct_script.specs.declared.plan.PlanItem.TheVariants as item;
ghost use Rattle.ct_actor.specs.Journalled as journalled;
ghost use Rattle.ct_law_form.specs.Whole.{is_sound_out};
ghost use Rattle.ct_script.specs.Sound.{may_be_told};
ghost use Rattle.ct_rules_node.specs.Coming.{is_allowed_op, may_come};
ghost use Rattle.ct_rules_node.specs.Steps.{stepped};

use crate::node::Node;
use ct_call::table::CallTable;
use ct_frame::event::Event;
use ct_frame::frame::Frame;
use ct_node_state::turn::CoreFault;
use ct_script::cue::Cue;
use ct_values::client::ClientOp;
use ct_values::items::Items;

/// The cue follows the last entry of the node.
fn follow_last(node: &Node, cue: &mut Cue)
    requires { acting.FitsWith (acting.last_entry node.now) cue.old }
    ensures { cue.new ≡ acting.cue_with (acting.last_entry node.now) cue.old }
{
    if let Some(entry) = node.entries().last() {
        cue.follow(&entry.event, entry.outs.as_slice());
    }
}

/// Gives the node an event, which its cue then follows. A step that is refused changes nothing.
#[tactic(auto, using(crate::proofs::Stepping::fits_last, crate::proofs::Stepping::follows_last))]
fn act(node: &mut Node, table: &CallTable, cue: &mut Cue, event: Event) -> Result<(), CoreFault>
    requires comes { may_come node.old.core.config node.old.core.pnn node.old.core.node event ≡ true }
    requires fits { (begun event cue.old).taken < 2 ^ 64 }
    ensures fed { journalled.IsFed result event (stepped node.old.core.config (rules_of table.now) node.old.core.pnn event node.old.core.node) node.old node.new }
    ensures run { journalled.IsRunBy (rules_of table.now) node.old → journalled.IsRunBy (rules_of table.now) node.new }
    ensures sound { OnOk result (list_all (is_sound_out node.old.core.config node.old.core.pnn) (journalled.last_outs node.new.entries) ≡ true) }
    ensures cue { OnOk result (cue.new ≡ cue_after (record { event = event; outs = journalled.last_outs node.new.entries }) cue.old) }
    ensures err { OnErr result (cue.new ≡ cue.old) }
{
    node.feed(table, event)?;
    follow_last(node, cue);
    Ok(())
}

/// A message arrives at the node. The journal has one entry more, and the cue follows it. A step that is refused changes
/// nothing.
#[tactic(auto, using(crate::proofs::Stepping::arrives, crate::proofs::Stepping::arrival_fits, crate::proofs::Stepping::acts_on))]
pub fn arrive(
    node: &mut Node,
    table: &CallTable,
    cue: &mut Cue,
    frame: Frame,
) -> Result<(), CoreFault>
    requires formed { well_formed frame ≡ true }
    requires receiver { frame.receiver ≡ node.old.core.pnn }
    ensures fed { journalled.IsFed result (event.Arrive frame) (stepped node.old.core.config (rules_of table.now) node.old.core.pnn (event.Arrive frame) node.old.core.node) node.old node.new }
    ensures acting { acting.ActsOn (rules_of table.now) (event.Arrive frame) node.old cue.old node.new cue.new }
    ensures sound { OnOk result (list_all (is_sound_out node.old.core.config node.old.core.pnn) (journalled.last_outs node.new.entries) ≡ true) }
    ensures cue { OnOk result (cue.new ≡ cue_after (record { event = event.Arrive frame; outs = journalled.last_outs node.new.entries }) cue.old) }
    ensures err { OnErr result (cue.new ≡ cue.old) }
{
    let _taken = cue.taken;
    act(node, table, cue, Event::Arrive(frame))
}

/// The client of the node asks this, under the number after that of the cue. The journal has one entry more, and the cue
/// follows it. A step that is refused changes nothing: `Exhausted` where a number would reach 2^62.
#[tactic(auto, using(crate::proofs::Stepping::asks, crate::proofs::Stepping::call_fits, crate::proofs::Stepping::acts_on, crate::proofs::Stepping::too_many))]
pub fn take_call(
    node: &mut Node,
    table: &CallTable,
    cue: &mut Cue,
    op: ClientOp,
) -> Result<(), CoreFault>
    requires allowed { is_allowed_op op ≡ true }
    requires may { acting.MayAsk (rules_of table.now) node.old cue.old }
    ensures fed { journalled.IsFed result (event.Client (cue.old.calls + 1) op) (stepped node.old.core.config (rules_of table.now) node.old.core.pnn (event.Client (cue.old.calls + 1) op) node.old.core.node) node.old node.new }
    ensures acting { acting.ActsOn (rules_of table.now) (event.Client (cue.old.calls + 1) op) node.old cue.old node.new cue.new }
    ensures sound { OnOk result (list_all (is_sound_out node.old.core.config node.old.core.pnn) (journalled.last_outs node.new.entries) ≡ true) }
    ensures cue { OnOk result (cue.new ≡ cue_after (record { event = event.Client (cue.old.calls + 1) op; outs = journalled.last_outs node.new.entries }) cue.old) }
    ensures err { OnErr result (cue.new ≡ cue.old) }
{
    if cue.calls == u64::MAX {
        return Err(CoreFault::Exhausted);
    }
    let call = cue.calls + 1;
    act(node, table, cue, Event::Client { call, op })
}

/// The node leads a recovery of these members, in the generation of this ticket. The journal has one entry more, and the cue
/// follows it. A step that is refused changes nothing.
#[tactic(auto, using(crate::proofs::Stepping::leads, crate::proofs::Stepping::round_fits, crate::proofs::Stepping::acts_on))]
pub fn take_round(
    node: &mut Node,
    table: &CallTable,
    cue: &mut Cue,
    ticket: u64,
    members: Items<u32>,
) -> Result<(), CoreFault>
    requires told { may_be_told node.old.core.config node.old.core.pnn (item.Round members) ≡ true }
    requires fits { cue.old.taken + 1 < 2 ^ 64 }
    ensures fed { journalled.IsFed result (event.BeginRound ticket members) (stepped node.old.core.config (rules_of table.now) node.old.core.pnn (event.BeginRound ticket members) node.old.core.node) node.old node.new }
    ensures acting { acting.ActsOn (rules_of table.now) (event.BeginRound ticket members) node.old cue.old node.new cue.new }
    ensures sound { OnOk result (list_all (is_sound_out node.old.core.config node.old.core.pnn) (journalled.last_outs node.new.entries) ≡ true) }
    ensures cue { OnOk result (cue.new ≡ cue_after (record { event = event.BeginRound ticket members; outs = journalled.last_outs node.new.entries }) cue.old) }
    ensures err { OnErr result (cue.new ≡ cue.old) }
{
    act(node, table, cue, Event::BeginRound { ticket, members })
}
