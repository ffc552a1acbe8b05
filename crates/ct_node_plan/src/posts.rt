//! Messages to several nodes, behind what is done before.
ghost use Rattle.std.specs.Prelude.{◌≡◌, ◌++◌, ◌∷◌, [], IfOk, OnOk, map};
ghost use Rattle.ct_frame.specs.declared.frame.Msg.TheVariants as msg;
ghost use Rattle.ct_rules_node.specs.Takeovers.{assigned_in, share};
ghost use Rattle.ct_node_plan.specs.Posts.{release_to, sent};

use ct_frame::event::Out;
use ct_frame::frame::{Assigned, Frame, Msg};
use ct_lead::run::share;
use ct_values::items::Items;
use ct_values::memory::NoMemory;
use std::alloc::Global;

/// A message of a generation is sent by this node.
pub fn post(
    outs: &mut Items<Out>,
    generation: u64,
    me: u32,
    receiver: u32,
    msg: Msg,
) -> Result<(), NoMemory>
    ensures { OnOk result (outs.new ≡ outs.old ++ sent generation me msg receiver ∷ []) }
{
    outs.push(Out::Send(Frame {
        generation,
        sender: me,
        receiver,
        msg,
    }))?;
    Ok(())
}

/// The same message is sent to several nodes, in order.
pub fn post_all(
    outs: &mut Items<Out>,
    generation: u64,
    me: u32,
    nodes: &[u32],
    msg: &Msg,
) -> Result<(), NoMemory>
    ensures { OnOk result (outs.new ≡ outs.old ++ map (sent generation me msg.now) nodes.now) }
{
    for node in nodes {
        post(outs, generation, me, *node, msg.copy()?)?;
    }
    Ok(())
}

/// The Release that asks a node to keep only what a placement gives it.
fn release(alloc: Global, number: u64, placement: &[Assigned], node: u32) -> Result<Msg, NoMemory>
    ensures { IfOk result (λ m. m ≡ msg.Release number (share node placement.now)) }
{
    Ok(Msg::Release {
        run: number,
        keep: Items::new(share(alloc, node, placement)?),
    })
}

/// Each of these nodes gets a Release with the addresses that it keeps.
pub fn post_releases(
    outs: &mut Items<Out>,
    alloc: Global,
    generation: u64,
    me: u32,
    number: u64,
    placement: &[Assigned],
    nodes: &[u32],
) -> Result<(), NoMemory>
    ensures { OnOk result (outs.new ≡ outs.old ++ map (release_to generation me number placement.now) nodes.now) }
{
    for node in nodes {
        let msg = release(alloc, number, placement, *node)?;
        post(outs, generation, me, *node, msg)?;
    }
    Ok(())
}

/// The addresses that have a node in a placement.
#[tactic(auto, unfolding(ct_rules_node::specs::Takeovers::assigned_in))]
fn assigned_in(alloc: Global, placement: &[Assigned]) -> Result<Vec<Assigned>, NoMemory>
    ensures { IfOk result (λ all. all.items ≡ assigned_in placement.now) }
{
    let mut all = Vec::new(alloc);
    for x in placement {
        if x.node.is_some() {
            all.push(x.copy()?)?;
        }
    }
    Ok(all)
}

/// The Take that hands out a placement.
pub fn take(alloc: Global, number: u64, placement: &[Assigned]) -> Result<Msg, NoMemory>
    ensures { IfOk result (λ m. m ≡ msg.Take number (assigned_in placement.now)) }
{
    Ok(Msg::Take {
        run: number,
        assigned: Items::new(assigned_in(alloc, placement)?),
    })
}
