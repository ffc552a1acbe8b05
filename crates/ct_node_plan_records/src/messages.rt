//! Messages of one record.
ghost use Rattle.std.specs.Prelude.{◌≡◌, ℕ, ◌<◌, ◌^◌, true, List, length};
ghost use Rattle.ct_call.specs.Shown.{rules_of};
ghost use Rattle.ct_frame.specs.Fields.{is_message};
ghost use Rattle.ct_node_plan.specs.Changes.{Plans};
ghost use Rattle.ct_rules.specs.Moves.{arrive};
ghost use Rattle.ct_rules.specs.State.{rsn_of};
ghost use Rattle.ct_rules_node.specs.Admission.{record_in};
ghost use Rattle.ct_rules_node.specs.Node.{has_records, kind_at, state_at};
ghost use Rattle.ct_rules_node.specs.Records.{at_record};
ghost use Rattle.ct_rules_node.specs.Steps.{on_record_of};
ghost use Rattle.ct_rules_node.specs.Turn.{begins};

use ct_call::table::CallTable;
use ct_frame::frame::Frame;
use ct_node_admission::admission::is_current;
use ct_node_admission::named::record_in;
use ct_node_plan::change::Planned;
use ct_node_plan::handed::{CoreFault, Node, has_records, kind_at};
use ct_node_plan::record::acted;
use ct_node_plan::still::nothing;
use ct_record::moves;
use ct_values::config::Config;
use ct_values::key::Key;

/// A message of the record comes.
#[tactic(auto, unfolding(ct_rules_node::specs::Records::at_record, ct_rules_node::specs::Records::view))]
fn arrive(
    config: &Config,
    table: &CallTable,
    me: u32,
    frame: &Frame,
    db: u32,
    key: &Key,
    node: &Node,
) -> Result<Planned, CoreFault>
    requires there { db < length node.now.dbs }
    requires well_formed { is_message frame.now.sender frame.now.msg ≡ true }
    requires in_limit { rsn_of (state_at db key.now node.now).copy < 2 ^ 62 }
    requires next { node.now.next < 2 ^ 62 }
    ensures { Plans result (at_record config.now me db key.now (λ at o. arrive at (rules_of table.now) frame.now.sender frame.now.msg o) (begins node.now)) node.now }
{
    let at = node.place_of(config, me, db, key)?;
    let mut draft = node.view(db, key)?;
    moves::arrive(&mut draft, &at, table, frame.sender, &frame.msg)?;
    acted(me, db, key, draft, node)
}

/// A message of a record comes: one that is not current, or not of a volatile or a read-only database, is dropped.
#[tactic(auto, using(ct_law_form::proofs::Admitting::records_there), unfolding(ct_rules_node::specs::Steps::on_record_of))]
pub fn on_record(
    config: &Config,
    table: &CallTable,
    me: u32,
    frame: &Frame,
    node: &Node,
) -> Result<Planned, CoreFault>
    requires dbs { length node.now.dbs ≡ length config.now.dbs }
    requires well_formed { is_message frame.now.sender frame.now.msg ≡ true }
    requires in_limit { (db : ℕ) (key : List ℕ) → rsn_of (state_at db key node.now).copy < 2 ^ 62 }
    requires next { node.now.next < 2 ^ 62 }
    ensures { Plans result (on_record_of config.now (rules_of table.now) me frame.now (begins node.now) (record_in frame.now.msg)) node.now }
{
    let Some((db, key)) = record_in(&frame.msg) else {
        return Ok(nothing(node));
    };
    if !is_current(frame, node)? || !has_records(kind_at(config, db)) {
        return Ok(nothing(node));
    }
    arrive(config, table, me, frame, db, key, node)
}
