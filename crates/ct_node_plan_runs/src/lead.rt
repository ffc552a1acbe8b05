//! What is asked again of the members of the round that is led.
ghost use Rattle.std.specs.Prelude.{◌≡◌, ◌++◌, OnOk, map};
ghost use Rattle.ct_node_plan_runs.specs.Lead.{question_again, round_again, run_again};

use ct_frame::event::Out;
use ct_node_plan::handed::{Node, is_present_in};
use ct_node_plan::posts::{post_all, post_releases, take};
use ct_values::items::Items;
use ct_values::memory::NoMemory;

/// What the round waits for, from those that are missing.
fn question_again(outs: &mut Items<Out>, me: u32, node: &Node) -> Result<(), NoMemory>
    ensures { OnOk result (outs.new ≡ outs.old ++ question_again me node.now.lead) }
{
    let lead = &node.lead;
    match lead.question()? {
        Some(msg) => post_all(outs, lead.generation(), me, lead.asked_again(), &msg),
        None => Ok(()),
    }
}

/// The Releases of the missing members of a run, or the Take to all.
fn run_again(outs: &mut Items<Out>, me: u32, node: &Node) -> Result<(), NoMemory>
    ensures { OnOk result (outs.new ≡ outs.old ++ run_again me node.now.lead) }
{
    let lead = &node.lead;
    let generation = lead.generation();
    let number = lead.number();
    match lead.handed_out() {
        Some(placement) => {
            let msg = take(node.alloc, number, placement)?;
            post_all(outs, generation, me, lead.asked_again(), &msg)
        }
        None => post_releases(
            outs,
            node.alloc,
            generation,
            me,
            number,
            lead.placement(),
            lead.unreleased(),
        ),
    }
}

/// What the node waits for where it leads; then its run, where it is present.
#[tactic(auto, unfolding(ct_rules_node::specs::Node::is_present_in))]
pub fn round_again(outs: &mut Items<Out>, me: u32, node: &Node) -> Result<(), NoMemory>
    ensures { OnOk result (outs.new ≡ outs.old ++ round_again me node.now) }
{
    question_again(outs, me, node)?;
    if is_present_in(node.member, node.lead.generation()) {
        return run_again(outs, me, node);
    }
    Ok(())
}
