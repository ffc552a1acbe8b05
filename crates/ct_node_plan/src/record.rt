//! The rule of one record, as it is planned at a node.
ghost use Rattle.std.specs.Prelude.{◌<◌, length};
ghost use Rattle.ct_rules_node.specs.Records.{acted};
ghost use Rattle.ct_rules_node.specs.Turn.{begins};
ghost use Rattle.ct_node_plan.specs.Changes.{Plans};

use crate::change::{Change, Planned};
use ct_node_state::node::Node;
use ct_node_state::outs::outs_of;
use ct_node_state::turn::CoreFault;
use ct_record_parts::draft::Draft;
use ct_values::key::Key;

/// What the rule of a record made of a draft is put back into the node, and what was done about the record is done.
#[tactic(auto, unfolding(ct_rules_node::specs::Records::acted, ct_rules_node::specs::Records::put_back, crate::specs::Changes::changed_by))]
pub fn acted(me: u32, db: u32, key: &Key, draft: Draft, node: &Node) -> Result<Planned, CoreFault>
    requires { db < length node.now.dbs }
    ensures { Plans result (acted me db key.now draft (begins node.now)) node.now }
{
    if draft.spent {
        return Err(CoreFault::Exhausted);
    }
    let Draft {
        alloc,
        state,
        next,
        floor,
        acts,
        ..
    } = draft;
    let outs = outs_of(alloc, node.member.generation(), me, db, key, acts)?;
    let change = Change::Record {
        db,
        key: key.copy()?,
        state,
        next,
        floor,
    };
    Ok(Planned { change, outs })
}
