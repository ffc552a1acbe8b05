//! What comes of every event at a node.
ghost use Rattle.std.specs.Prelude.{◌≡◌, true};
ghost use Rattle.ct_call.specs.Shown.{rules_of};
ghost use Rattle.ct_frame.specs.declared.event.Event.TheVariants as events;
ghost use Rattle.ct_law_form.specs.Whole.{NodeInForm};
ghost use Rattle.ct_node_plan.specs.Changes.{Plans};
ghost use Rattle.ct_rules_node.specs.Coming.{may_come};
ghost use Rattle.ct_rules_node.specs.Steps.{happens};
ghost use Rattle.ct_rules_node.specs.Turn.{begins};

use crate::arrivals::arrives;
use ct_call::table::CallTable;
use ct_frame::event::Event;
use ct_frame::frame::Frame;
use ct_node_plan::change::Planned;
use ct_node_plan_calls::client::client;
use ct_node_plan_records::vacuums::vacuums;
use ct_node_plan_rounds::leading::begin_round;
use ct_node_plan_runs::begin::begin_takeover;
use ct_node_plan_runs::retry::retry;
use ct_node_state::node::Node;
use ct_node_state::turn::CoreFault;
use ct_values::config::Config;

/// The rule of a node for a message that arrives, which is lent.
#[tactic(auto, using(crate::proofs::Arriving::arrives_sound), unfolding(ct_rules_node::specs::Steps::happens))]
pub fn arrival(
    config: &Config,
    table: &CallTable,
    me: u32,
    frame: &Frame,
    node: &Node,
) -> Result<Planned, CoreFault>
    requires form { NodeInForm config.now me node.now }
    requires coming { may_come config.now me node.now (events.Arrive frame.now) ≡ true }
    ensures { Plans result (happens config.now (rules_of table.now) me (begins node.now) (events.Arrive frame.now)) node.now }
{
    arrives(config, table, me, frame, node)
}

/// The rule of a node: what comes of each event.
#[tactic(auto, using(crate::proofs::Formed::has_dbs, crate::proofs::Formed::few_dbs, crate::proofs::Formed::in_order, crate::proofs::Formed::next_limit, crate::proofs::Formed::rsn_limits, crate::proofs::Formed::somebody, crate::proofs::Formed::made_ascends, crate::proofs::Formed::made_few, crate::proofs::Arriving::round_ascends, crate::proofs::Arriving::round_own), unfolding(ct_rules_node::specs::Steps::happens))]
pub fn happens(
    config: &Config,
    table: &CallTable,
    me: u32,
    event: &Event,
    node: &Node,
) -> Result<Planned, CoreFault>
    requires form { NodeInForm config.now me node.now }
    requires coming { may_come config.now me node.now event.now ≡ true }
    ensures { Plans result (happens config.now (rules_of table.now) me (begins node.now) event.now) node.now }
{
    match event {
        Event::Client { call, op } => client(config, table, me, *call, op, node),
        Event::Arrive(frame) => arrival(config, table, me, frame, node),
        Event::Retry => retry(config, me, node),
        Event::Vacuum { db } => vacuums(config, me, *db, node),
        Event::BeginRound { ticket, members } => {
            begin_round(me, node, *ticket, members.as_slice())
        }
        Event::BeginTakeover { able } => begin_takeover(config, me, able.as_slice(), node),
    }
}
