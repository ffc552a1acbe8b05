//! A message arrives.
ghost use Rattle.std.specs.Prelude.{◌≡◌, true};
ghost use Rattle.ct_call.specs.Shown.{rules_of};
ghost use Rattle.ct_frame.specs.Fields.{well_formed};
ghost use Rattle.ct_law_form.specs.Whole.{NodeInForm};
ghost use Rattle.ct_node_plan.specs.Changes.{Plans};
ghost use Rattle.ct_rules_node.specs.Steps.{arrives};
ghost use Rattle.ct_rules_node.specs.Turn.{begins};

use crate::rounds::{freeze, freezeack, pull, pullreply, push, pushack, thaw};
use crate::runs::{release, releaseack, take};
use ct_call::table::CallTable;
use ct_frame::frame::{Frame, Msg};
use ct_node_plan::change::Planned;
use ct_node_plan_records::databases::{on_pack, on_pupdate};
use ct_node_plan_records::messages::on_record;
use ct_node_state::node::Node;
use ct_node_state::turn::CoreFault;
use ct_values::config::Config;

/// A message arrives: it is dropped, or its rule is followed.
#[tactic(auto, using(crate::proofs::Formed::has_dbs, crate::proofs::Formed::next_limit, crate::proofs::Formed::rsn_limits, crate::proofs::Arriving::message_is, crate::proofs::Arriving::take_ascends), unfolding(ct_rules_node::specs::Steps::arrives))]
pub fn arrives(
    config: &Config,
    table: &CallTable,
    me: u32,
    frame: &Frame,
    node: &Node,
) -> Result<Planned, CoreFault>
    requires form { NodeInForm config.now me node.now }
    requires well_formed { well_formed frame.now ≡ true }
    ensures { Plans result (arrives config.now (rules_of table.now) me frame.now (begins node.now) frame.now.msg) node.now }
{
    match &frame.msg {
        Msg::PUpdate { db, seq, writes } => {
            on_pupdate(config, me, frame, *db, *seq, writes.as_slice(), node)
        }
        Msg::PAck { db, seq } => on_pack(config, frame, *db, *seq, node),
        Msg::Freeze { .. } => freeze(config, me, frame, node),
        Msg::FreezeAck => freezeack(config, me, frame, node),
        Msg::Pull => pull(config, me, frame, node),
        Msg::PullReply {
            vbase,
            pbase,
            table,
            ptables,
            addresses,
        } => pullreply(
            config, me, frame, *vbase, *pbase, table, ptables, addresses, node,
        ),
        Msg::Push {
            members,
            table,
            ptables,
            assigned,
        } => push(
            config,
            me,
            frame,
            members.as_slice(),
            table.as_slice(),
            ptables.as_slice(),
            assigned.as_slice(),
            node,
        ),
        Msg::PushAck => pushack(config, me, frame, node),
        Msg::Thaw => thaw(config, table, me, frame, node),
        Msg::Release { run, keep } => release(config, me, frame, *run, keep.as_slice(), node),
        Msg::ReleaseAck { run } => releaseack(config, me, frame, *run, node),
        Msg::Take { run, assigned } => { take(config, me, frame, *run, assigned.as_slice(), node) }
        _ => on_record(config, table, me, frame, node),
    }
}
