//! The leader's side of a round.
ghost use Rattle.std.specs.Prelude.{◌≡◌, nat_lt, true, IfOk};
ghost use Rattle.ct_frame.specs.Fields.{ascends, is_message};
ghost use Rattle.ct_node_plan.specs.Changes.{Plans};
ghost use Rattle.ct_rules_node.specs.Node.{is_among};
ghost use Rattle.ct_rules_node.specs.Rounds.{begin_round, on_freezeack, on_pullreply, on_pushack, push_of};
ghost use Rattle.ct_rules_node.specs.Turn.{begins};
ghost use Rattle.ct_frame.specs.declared.frame.Msg.TheVariants as message;
ghost use Rattle.ct_frame.specs.declared.event.Note.TheVariants as note;
ghost use Rattle.ct_lead.specs.Stages.{led_body};
ghost use Rattle.ct_node_plan_rounds.specs.Made.{made_by};

use ct_frame::event::Note;
use ct_frame::frame::{Assigned, Msg};
use ct_frame::header::LIMIT;
use ct_frame::round::{Pull, PushBody};
use ct_lead::lead::Lead;
use ct_node_plan::change::Planned;
use ct_node_plan::plans::{leads, leads_and_posts, leads_notes_and_posts};
use ct_node_plan::still::nothing;
use ct_node_state::node::Node;
use ct_node_state::placing::assigned_all;
use ct_node_state::turn::CoreFault;
use ct_values::boxed::BoxedItems;
use ct_values::config::Config;
use ct_values::items::Items;
use ct_values::memory::NoMemory;
use std::alloc::Global;

/// The Freeze of these members.
fn freeze(alloc: Global, members: &[u32]) -> Result<Msg, NoMemory>
    ensures { IfOk result (λ m. m ≡ message.Freeze members.now) }
{
    Ok(Msg::Freeze {
        members: Items::new(Vec::from_slice(alloc, members)?),
    })
}

/// Begin of a round: where it is above the promise the node leads it, and the members get a Freeze.
#[tactic(auto, using(ct_node_state::proofs::Ascending::ascending, crate::proofs::Begins::some_members, crate::proofs::Begins::round_dropped, crate::proofs::Begins::round_begins, crate::proofs::Begins::round_spent))]
pub fn begin_round(me: u32, node: &Node, ticket: u64, members: &[u32]) -> Result<Planned, CoreFault>
    requires ascending { ascends nat_lt members.now ≡ true }
    requires among { is_among me members.now ≡ true }
    ensures { Plans result (begin_round me ticket members.now (begins node.now)) node.now }
{
    if ticket <= node.member.promised() {
        return Ok(nothing(node));
    }
    if LIMIT <= ticket {
        return Err(CoreFault::Exhausted);
    }
    let lead = Lead::begin(node.alloc, me, ticket, members)?;
    let msg = freeze(node.alloc, members)?;
    leads_and_posts(node, lead, ticket, me, members, &msg)
}

/// FreezeAck: the leader that waits for it strikes its sender off; once all are frozen, they are asked for what they
/// hold.
#[tactic(auto, using(crate::proofs::Acks::freezeack_dropped, crate::proofs::Acks::freezeack_ends, crate::proofs::Acks::freezeack_waits))]
pub fn on_freezeack(
    me: u32,
    node: &Node,
    sender: u32,
    generation: u64,
) -> Result<Planned, CoreFault>
    ensures { Plans result (on_freezeack me sender generation (begins node.now) node.now.lead) node.now }
{
    if !node.lead.awaits_freezeack(generation, sender) {
        return Ok(nothing(node));
    }
    let mut lead = node.lead.copy()?;
    lead.frozen(generation, sender);
    if lead.is_pulling() {
        leads_and_posts(node, lead, generation, me, node.lead.members(), &Msg::Pull)
    } else {
        leads(node, lead)
    }
}

/// The Push of this body.
#[tactic(auto, unfolding(ct_rules_node::specs::Rounds::push_of))]
pub fn push_of(body: &PushBody) -> Result<Msg, NoMemory>
    ensures { IfOk result (λ m. m ≡ push_of body.now) }
{
    let PushBody {
        members,
        table,
        ptables,
        assigned,
        ..
    } = body.copy()?;
    Ok(Msg::Push {
        members: BoxedItems::new(members)?,
        table: BoxedItems::new(table)?,
        ptables: BoxedItems::new(ptables)?,
        assigned: BoxedItems::new(assigned)?,
    })
}

/// The note of this round.
fn round(alloc: Global, generation: u64, members: &[u32], body: &PushBody) -> Result<Note, NoMemory>
    ensures { IfOk result (λ n. n ≡ note.Round generation members.now body.now.vparent body.now.pparent) }
{
    Ok(Note::Round {
        generation,
        members: Items::new(Vec::from_slice(alloc, members)?),
        vparent: body.vparent,
        pparent: body.pparent,
    })
}

/// PullReply: the leader that waits for it gathers it and strikes its sender off. The last one is followed by the merge,
/// its note and the Push. The fields of the message keep their rules.
#[tactic(auto, using(crate::proofs::Replies::pull_in_order, crate::proofs::Acks::pullreply_dropped))]
pub fn on_pullreply(me: u32, node: &Node, generation: u64, pull: Pull) -> Result<Planned, CoreFault>
    requires { is_message pull.node (message.PullReply pull.vbase pull.pbase pull.table pull.ptables pull.addresses) ≡ true }
    ensures { Plans result (on_pullreply me generation pull (begins node.now) node.now.lead) node.now }
{
    if !node.lead.awaits_pullreply(generation, pull.node) {
        return Ok(nothing(node));
    }
    let lead = node.lead.copy()?.pulled(me, generation, pull)?;
    match lead.body() {
        Some(body) => {
            let members = node.lead.members();
            let note = round(node.alloc, generation, members, body)?;
            let msg = push_of(body)?;
            leads_notes_and_posts(node, lead, note, generation, me, members, &msg)
        }
        None => leads(node, lead),
    }
}

/// Where the round that is led puts each address.
fn made(config: &Config, node: &Node) -> Result<Items<Assigned>, NoMemory>
    ensures { IfOk result (λ made. made ≡ made_by config.now (led_body node.now.lead)) }
{
    match node.lead.body() {
        Some(body) => assigned_all(
            node.alloc,
            config.addresses.as_slice(),
            body.assigned.as_slice(),
        ),
        None => Ok(Items::empty(node.alloc)),
    }
}

/// PushAck: the leader that waits for it strikes its sender off; once all have installed, the round is completed, and
/// they are thawed.
#[tactic(auto, using(crate::proofs::Acks::pushack_dropped))]
pub fn on_pushack(
    config: &Config,
    me: u32,
    node: &Node,
    sender: u32,
    generation: u64,
) -> Result<Planned, CoreFault>
    ensures { Plans result (on_pushack config.now me sender generation (begins node.now) node.now.lead) node.now }
{
    if !node.lead.awaits_pushack(generation, sender) {
        return Ok(nothing(node));
    }
    let made = made(config, node)?;
    let lead = node.lead.copy()?.installed(generation, sender, made);
    if lead.is_completed() {
        leads_and_posts(node, lead, generation, me, node.lead.members(), &Msg::Thaw)
    } else {
        leads(node, lead)
    }
}
