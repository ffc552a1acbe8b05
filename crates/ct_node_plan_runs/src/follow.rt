//! A node follows a takeover run: it releases addresses, and takes others.
ghost use Rattle.std.specs.Prelude.{◌≡◌, true, IfOk, map};
ghost use Rattle.ct_frame.specs.Fields.{ascends, assigned_before};
ghost use Rattle.ct_node_plan.specs.Changes.{IsPlanned, Plans};
ghost use Rattle.ct_rules_node.specs.Takeovers.{on_release, on_take};
ghost use Rattle.ct_rules_node.specs.Turn.{begins};
ghost use Rattle.ct_node_plan_runs.specs.Notes.{released, took};

use ct_frame::event::{Note, Out};
use ct_frame::frame::{Assigned, Msg};
use ct_node_plan::change::{Change, Planned};
use ct_node_plan::handed::{CoreFault, Node, assigned_all};
use ct_node_plan::posts::post;
use ct_values::address::Address;
use ct_values::config::Config;
use ct_values::items::Items;
use ct_values::memory::NoMemory;
use std::alloc::Global;

/// Nothing changes, and nothing is done.
#[tactic(auto, unfolding(ct_node_plan::specs::Changes::changed_by))]
fn nothing(node: &Node) -> Planned
    ensures { IsPlanned result (begins node.now) node.now }
{
    Planned {
        change: Change::Nothing,
        outs: Items::empty(node.alloc),
    }
}

/// Each of these addresses is noted as given up.
fn all_released(alloc: Global, addresses: &[Address]) -> Result<Items<Out>, NoMemory>
    ensures { IfOk result (λ outs. outs ≡ map released addresses.now) }
{
    let mut outs = Vec::with_capacity(alloc, addresses.len())?;
    for address in addresses {
        outs.push(Out::Note(Note::Released(*address)))?;
    }
    Ok(Items::new(outs))
}

/// Each of these addresses is noted as taken.
fn all_took(alloc: Global, addresses: &[Address]) -> Result<Items<Out>, NoMemory>
    ensures { IfOk result (λ outs. outs ≡ map took addresses.now) }
{
    let mut outs = Vec::with_capacity(alloc, addresses.len())?;
    for address in addresses {
        outs.push(Out::Note(Note::Took(*address)))?;
    }
    Ok(Items::new(outs))
}

/// Release: what is not kept is given up and noted, unless a later run was followed.
#[tactic(auto, using(crate::proofs::Planned::nothing_released, crate::proofs::Planned::planned_release))]
pub fn on_release(
    me: u32,
    sender: u32,
    number: u64,
    keep: &[Address],
    node: &Node,
) -> Result<Planned, CoreFault>
    ensures { Plans result (on_release me sender number keep.now (begins node.now)) node.now }
{
    let mut holder = node.holder.copy()?;
    let Some(given_up) = holder.release(number, keep)? else {
        return Ok(nothing(node));
    };
    let mut outs = all_released(node.alloc, &given_up)?;
    let msg = Msg::ReleaseAck { run: number };
    post(&mut outs, node.member.generation(), me, sender, msg)?;
    Ok(Planned {
        change: Change::Hold(holder),
        outs,
    })
}

/// Take: the placement is known, and what it gives to this node is held; only of the last run that was followed. The
/// addresses ascend.
#[tactic(auto, using(crate::proofs::Planned::nothing_taken, crate::proofs::Planned::planned_hold))]
pub fn on_take(
    config: &Config,
    me: u32,
    number: u64,
    assigned: &[Assigned],
    node: &Node,
) -> Result<Planned, CoreFault>
    requires { ascends assigned_before assigned.now ≡ true }
    ensures { Plans result (on_take config.now me number assigned.now (begins node.now)) node.now }
{
    let mut holder = node.holder.copy()?;
    let Some(more) = holder.take(number, assigned, me)? else {
        return Ok(nothing(node));
    };
    let outs = all_took(node.alloc, &more)?;
    let placement = assigned_all(node.alloc, config.addresses.as_slice(), assigned)?;
    Ok(Planned {
        change: Change::Take { placement, holder },
        outs,
    })
}
