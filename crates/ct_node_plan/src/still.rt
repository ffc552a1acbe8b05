//! Plans that leave the node as it is.
ghost use Rattle.std.specs.Prelude.{◌≡◌, ◌∷◌, [], IfOk};
ghost use Rattle.ct_rules_node.specs.Turn.{answers, begins};
ghost use Rattle.ct_node_plan.specs.Changes.{IsPlanned, Plans};

use crate::change::{Change, Planned};
use ct_frame::event::Out;
use ct_node_state::node::Node;
use ct_node_state::turn::CoreFault;
use ct_values::client::Answer;
use ct_values::items::Items;
use ct_values::memory::NoMemory;
use std::alloc::Global;

/// One thing is done.
pub fn one(alloc: Global, out: Out) -> Result<Items<Out>, NoMemory>
    ensures { IfOk result (λ outs. outs ≡ out ∷ []) }
{
    let mut outs = Items::empty(alloc);
    outs.push(out)?;
    Ok(outs)
}

/// Nothing is done, and nothing changes.
#[tactic(auto, unfolding(crate::specs::Changes::changed_by))]
pub fn nothing(node: &Node) -> Planned
    ensures { IsPlanned result (begins node.now) node.now }
{
    Planned {
        change: Change::Nothing,
        outs: Items::empty(node.alloc),
    }
}

/// A client's call is answered, and nothing changes.
#[tactic(auto, unfolding(ct_rules_node::specs::Turn::answers, ct_rules_node::specs::Turn::does, crate::specs::Changes::changed_by))]
pub fn answered(call: u64, answer: Answer, node: &Node) -> Result<Planned, CoreFault>
    ensures { Plans result (answers call answer (begins node.now)) node.now }
{
    let outs = one(node.alloc, Out::Answer { call, answer })?;
    Ok(Planned {
        change: Change::Nothing,
        outs,
    })
}
