//! A takeover run begins, and its members release.
ghost use Rattle.std.specs.Prelude.{◌≡◌, ◌≤◌, IfOk, length, map};
ghost use Rattle.ct_frame.specs.declared.frame.Msg.TheVariants as msg;
ghost use Rattle.ct_node_plan.specs.Posts.{sent};
ghost use Rattle.std.specs.List.{filter};
ghost use Rattle.ct_lcp2.specs.Placing.{Ascend, placed};
ghost use Rattle.ct_lead.specs.Runs.{led_takeover};
ghost use Rattle.ct_node_plan.specs.Changes.{IsPlanned, Plans};
ghost use Rattle.ct_rules_node.specs.Node.{is_among};
ghost use Rattle.ct_rules_node.specs.Takeovers.{assigned_in, begin_takeover, on_releaseack};
ghost use Rattle.ct_rules_node.specs.Turn.{begins};

use ct_frame::event::Out;
use ct_frame::frame::Assigned;
use ct_frame::header::LIMIT;
use ct_lcp2::placement::{Addresses, place};
use ct_lead::runs::is_among;
use ct_node_plan::change::{Change, Planned};
use ct_node_plan::handed::{CoreFault, Node, is_serving};
use ct_node_plan::posts::{post_all, post_releases, take};
use ct_values::boxed::Boxed;
use ct_values::config::Config;
use ct_values::items::Items;
use ct_values::memory::NoMemory;
use std::alloc::Global;

/// Nothing changes, and nothing is done.
#[tactic(auto, unfolding(ct_node_plan::specs::Changes::changed_by))]
fn nothing(node: &Node) -> Planned
    ensures { IsPlanned result (begins node.now) node.now }
{
    Planned {
        change: Change::Nothing,
        outs: Items::empty(node.alloc),
    }
}

/// Those of these nodes that are members.
fn members_of(alloc: Global, members: &[u32], able: &[u32]) -> Result<Vec<u32>, NoMemory>
    ensures { IfOk result (λ v. v.items ≡ filter (λ n. is_among n members.now) able.now) }
{
    let mut list = Vec::new(alloc);
    for node in able {
        if is_among(*node, members) {
            list.push(*node)?;
        }
    }
    Ok(list)
}

/// These items, copied.
fn copied(alloc: Global, placement: &[Assigned]) -> Result<Vec<Assigned>, NoMemory>
    ensures { IfOk result (λ all. all.items ≡ placement.now) }
{
    let mut all = Vec::with_capacity(alloc, placement.len())?;
    for x in placement {
        all.push(x.copy()?)?;
    }
    Ok(all)
}

/// The placement that is made of another over those of these nodes that are members.
fn placed(
    config: &Config,
    alloc: Global,
    members: &[u32],
    able: &[u32],
    made: &[Assigned],
) -> Result<Vec<Assigned>, NoMemory>
    requires ascending { Ascend made.now }
    requires few { length made.now ≤ 256 }
    ensures { IfOk result (λ p. p.items ≡ placed (filter (λ n. is_among n members.now) able.now) made.now) }
{
    let given = Addresses {
        nodes: config.nodes,
        able: Items::new(members_of(alloc, members, able)?),
        at: Items::new(copied(alloc, made)?),
    };
    let placement = place(alloc, &given)?;
    Ok(placement.at.into_vec())
}

/// Begin of a takeover: by the leader of its generation, once the round is completed, over able members. The last
/// placement that was made is in order.
#[tactic(auto, using(crate::proofs::Planned::nothing_unserved, crate::proofs::Planned::nothing_uncompleted, crate::proofs::Begins::takeover_spent, crate::proofs::Planned::planned_begin))]
pub fn begin_takeover(
    config: &Config,
    me: u32,
    able: &[u32],
    node: &Node,
) -> Result<Planned, CoreFault>
    requires ascending { Ascend (led_takeover node.now.lead).made }
    requires few { length (led_takeover node.now.lead).made ≤ 256 }
    ensures { Plans result (begin_takeover me able.now (begins node.now) node.now.lead) node.now }
{
    let generation = node.member.generation();
    if !is_serving(node.member) || !node.lead.is_completed_in(generation) {
        return Ok(nothing(node));
    }
    let last = node.lead.number();
    if LIMIT - 1 <= last {
        return Err(CoreFault::Exhausted);
    }
    let number = last + 1;
    let members = node.lead.asked_again();
    let placement = placed(config, node.alloc, members, able, node.lead.made())?;
    let mut outs = Items::empty(node.alloc);
    post_releases(
        &mut outs,
        node.alloc,
        generation,
        me,
        number,
        placement.as_slice(),
        members,
    )?;
    let lead = node.lead.begin_run(number, placement)?;
    Ok(Planned {
        change: Change::Lead(Boxed::new(node.alloc, lead)?),
        outs,
    })
}

/// All members get a Take with this placement.
fn takes(
    alloc: Global,
    generation: u64,
    me: u32,
    number: u64,
    members: &[u32],
    placement: &[Assigned],
) -> Result<Items<Out>, NoMemory>
    ensures { IfOk result (λ outs. outs ≡ map (sent generation me (msg.Take number (assigned_in placement.now))) members.now) }
{
    let mut outs = Items::empty(alloc);
    let msg = take(alloc, number, placement)?;
    post_all(&mut outs, generation, me, members, &msg)?;
    Ok(outs)
}

/// ReleaseAck: only of the last run of the leader of this generation, which waits for its sender and strikes it off; where
/// nobody is missing then, the run is handed out and all members get a Take.
#[tactic(auto, using(crate::proofs::Planned::nothing_awaited, crate::proofs::Planned::planned_take, crate::proofs::Planned::planned_wait))]
pub fn on_releaseack(
    me: u32,
    sender: u32,
    generation: u64,
    number: u64,
    node: &Node,
) -> Result<Planned, CoreFault>
    ensures { Plans result (on_releaseack me sender generation number (begins node.now) node.now.lead) node.now }
{
    if !node.lead.awaits_releaseack(sender, generation, number) {
        return Ok(nothing(node));
    }
    let lead = node.lead.released(sender, generation, number)?;
    let members = node.lead.asked_again();
    match lead.handed_out() {
        Some(placement) => {
            let outs = takes(node.alloc, generation, me, number, members, placement)?;
            Ok(Planned {
                change: Change::Lead(Boxed::new(node.alloc, lead)?),
                outs,
            })
        }
        None => Ok(Planned {
            change: Change::Lead(Boxed::new(node.alloc, lead)?),
            outs: Items::empty(node.alloc),
        }),
    }
}
