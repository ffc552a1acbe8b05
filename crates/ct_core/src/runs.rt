//! Messages of takeover runs: one that is not sound and current is dropped.
ghost use Rattle.std.specs.Prelude.{◌≡◌, true};
ghost use Rattle.ct_frame.specs.Fields.{ascends, assigned_before};
ghost use Rattle.ct_node_plan.specs.Changes.{Plans};
ghost use Rattle.ct_rules_node.specs.Steps.{if_taken_over};
ghost use Rattle.ct_rules_node.specs.Takeovers.{on_release, on_releaseack, on_take};
ghost use Rattle.ct_rules_node.specs.Turn.{begins};

use ct_frame::frame::{Assigned, Frame};
use ct_node_admission::admission::is_current;
use ct_node_admission::sound::is_sound;
use ct_node_plan::change::Planned;
use ct_node_plan::still::nothing;
use ct_node_plan_runs::{begin, follow};
use ct_node_state::node::Node;
use ct_node_state::turn::CoreFault;
use ct_values::address::Address;
use ct_values::config::Config;

/// A Release comes.
#[tactic(auto, unfolding(ct_rules_node::specs::Steps::if_taken_over))]
pub(crate) fn release(
    config: &Config,
    me: u32,
    frame: &Frame,
    number: u64,
    keep: &[Address],
    node: &Node,
) -> Result<Planned, CoreFault>
    ensures { Plans result (if_taken_over config.now frame.now (on_release me frame.now.sender number keep.now (begins node.now)) (begins node.now)) node.now }
{
    if !is_sound(config, frame) || !is_current(frame, node)? {
        return Ok(nothing(node));
    }
    follow::on_release(me, frame.sender, number, keep, node)
}

/// A ReleaseAck comes.
#[tactic(auto, unfolding(ct_rules_node::specs::Steps::if_taken_over))]
pub(crate) fn releaseack(
    config: &Config,
    me: u32,
    frame: &Frame,
    number: u64,
    node: &Node,
) -> Result<Planned, CoreFault>
    ensures { Plans result (if_taken_over config.now frame.now (on_releaseack me frame.now.sender frame.now.generation number (begins node.now) node.now.lead) (begins node.now)) node.now }
{
    if !is_sound(config, frame) || !is_current(frame, node)? {
        return Ok(nothing(node));
    }
    begin::on_releaseack(me, frame.sender, frame.generation, number, node)
}

/// A Take comes. Its addresses ascend.
#[tactic(auto, unfolding(ct_rules_node::specs::Steps::if_taken_over))]
pub(crate) fn take(
    config: &Config,
    me: u32,
    frame: &Frame,
    number: u64,
    assigned: &[Assigned],
    node: &Node,
) -> Result<Planned, CoreFault>
    requires { ascends assigned_before assigned.now ≡ true }
    ensures { Plans result (if_taken_over config.now frame.now (on_take config.now me number assigned.now (begins node.now)) (begins node.now)) node.now }
{
    if !is_sound(config, frame) || !is_current(frame, node)? {
        return Ok(nothing(node));
    }
    follow::on_take(config, me, number, assigned, node)
}
