//! What the rule of a record does, as the node does it.
ghost use Rattle.std.specs.Prelude.{◌≡◌, IfOk, map};
ghost use Rattle.ct_rules_node.specs.Records.{out_of};

use ct_frame::event::{Note, Out};
use ct_frame::frame::Frame;
use ct_rules::event::Act;
use ct_values::items::Items;
use ct_values::key::Key;
use ct_values::memory::NoMemory;
use std::alloc::Global;

/// What the rule of a record does, as this node of a generation does it.
#[tactic(auto, unfolding(ct_rules_node::specs::Records::out_of))]
fn out_of(generation: u64, me: u32, db: u32, key: &Key, act: Act) -> Result<Out, NoMemory>
    ensures { IfOk result (λ out. out ≡ out_of generation me db key.now act) }
{
    match act {
        Act::Send { receiver, msg } => Ok(Out::Send(Frame {
            generation,
            sender: me,
            receiver,
            msg,
        })),
        Act::Answer { call, answer } => Ok(Out::Answer { call, answer }),
        Act::Finished { .. } => Ok(Out::Note(Note::Vacuumed {
            db,
            key: key.copy()?,
        })),
    }
}

/// All that the rule of a record does, in order.
pub fn outs_of(
    alloc: Global,
    generation: u64,
    me: u32,
    db: u32,
    key: &Key,
    acts: Items<Act>,
) -> Result<Items<Out>, NoMemory>
    ensures { IfOk result (λ outs. outs ≡ map (out_of generation me db key.now) acts) }
{
    let mut outs = Vec::with_capacity(alloc, acts.len())?;
    for act in acts.into_vec() {
        outs.push(out_of(generation, me, db, key, act)?)?;
    }
    Ok(Items::new(outs))
}
