//! Plans that send, by what they change: nothing, all but the databases, or all of a node.
ghost use Rattle.std.specs.Prelude.{◌≡◌, ◌++◌, ◌∷◌, [], OnOk, IfOk};
ghost use Rattle.ct_rules_node.specs.Turn.{begins, notes, posts, posts_all, with_lead};
ghost use Rattle.ct_node_plan.specs.Changes.{IsPlanned, Plans};
ghost use Rattle.ct_node_plan.specs.declared.change.Change.TheVariants as change;

use crate::change::{Change, Planned};
use ct_frame::event::{Note, Out};
use ct_frame::frame::{Frame, Msg};
use ct_lead::lead::Lead;
use ct_node_state::node::Node;
use ct_node_state::turn::{CoreFault, Turn};
use ct_values::boxed::Boxed;
use ct_values::items::Items;
use ct_values::memory::NoMemory;

/// This is done after all else.
fn add(outs: &mut Items<Out>, out: Out) -> Result<(), NoMemory>
    ensures { OnOk result (outs.new ≡ outs.old ++ out ∷ []) }
{
    outs.push(out)?;
    Ok(())
}

/// Nothing changes, and a message of a generation is sent.
#[tactic(auto, unfolding(ct_rules_node::specs::Turn::posts, ct_rules_node::specs::Turn::does, crate::specs::Changes::changed_by))]
pub fn posts(
    node: &Node,
    generation: u64,
    me: u32,
    receiver: u32,
    msg: Msg,
) -> Result<Planned, CoreFault>
    ensures { Plans result (posts generation me receiver msg (begins node.now)) node.now }
{
    let mut outs = Items::empty(node.alloc);
    add(
        &mut outs,
        Out::Send(Frame {
            generation,
            sender: me,
            receiver,
            msg,
        }),
    )?;
    Ok(Planned {
        change: Change::Nothing,
        outs,
    })
}

/// What a step makes of the node, and what it does.
#[tactic(auto, unfolding(crate::specs::Changes::changed_by))]
pub fn whole(turn: Turn, node: &Node) -> Result<Planned, NoMemory>
    ensures { IfOk result (λ r. IsPlanned r turn node.now) }
{
    let change = Change::Whole(Boxed::new(node.alloc, turn.node)?);
    Ok(Planned {
        change,
        outs: turn.outs,
    })
}

/// What a step makes of all but the databases, and what it does.
pub fn beside(turn: Turn) -> Result<Planned, NoMemory>
    ensures { IfOk result (λ r. r ≡ record { change = change.Beside turn.node; outs = turn.outs }) }
{
    let alloc = turn.node.alloc;
    let change = Change::Beside(Boxed::new(alloc, turn.node)?);
    Ok(Planned {
        change,
        outs: turn.outs,
    })
}

/// The node leads this from now on.
#[tactic(auto, using(crate::proofs::Beside::planned_beside), unfolding(ct_rules_node::specs::Turn::with_lead))]
pub fn leads(node: &Node, lead: Lead) -> Result<Planned, CoreFault>
    ensures { Plans result (with_lead lead (begins node.now)) node.now }
{
    let turn = Turn::begins(node.leading(lead)?);
    Ok(beside(turn)?)
}

/// The node leads this from now on, and the same message of a generation is sent to several nodes, in order.
pub fn leads_and_posts(
    node: &Node,
    lead: Lead,
    generation: u64,
    me: u32,
    nodes: &[u32],
    msg: &Msg,
) -> Result<Planned, CoreFault>
    ensures { Plans result (posts_all generation me nodes.now msg.now (with_lead lead (begins node.now))) node.now }
{
    let mut turn = Turn::begins(node.leading(lead)?);
    turn.posts_all(generation, me, nodes, msg)?;
    Ok(beside(turn)?)
}

/// The node leads this from now on and notes something, and the same message of a generation is sent to several nodes, in
/// order.
pub fn leads_notes_and_posts(
    node: &Node,
    lead: Lead,
    note: Note,
    generation: u64,
    me: u32,
    nodes: &[u32],
    msg: &Msg,
) -> Result<Planned, CoreFault>
    ensures { Plans result (posts_all generation me nodes.now msg.now (notes note (with_lead lead (begins node.now)))) node.now }
{
    let mut turn = Turn::begins(node.leading(lead)?);
    turn.notes(note)?;
    turn.posts_all(generation, me, nodes, msg)?;
    Ok(beside(turn)?)
}
