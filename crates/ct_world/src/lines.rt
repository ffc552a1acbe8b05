//! What a step prints, and the messages that it sends.
ghost use Rattle.std.specs.Prelude.{◌≡◌, ◌∷◌, ◌++◌, ◌+◌, ◌^◌, ◌<◌, ◌≤◌, [], IfOk, OnOk, length};
ghost use Rattle.ct_rules_cluster.specs.Cluster.{able_from};
ghost use Rattle.ct_rules_cluster.specs.Steps as steps;
ghost use Rattle.ct_rules_cluster.specs.declared.step.Line.TheVariants as line;
ghost use Rattle.ct_world.specs.Feeding.{TellsAll, TellsOne};

use crate::parts::Told;
use ct_frame::event::Out;
use ct_frame::frame::Frame;
use ct_frame::header::LIMIT;
use ct_rules_cluster::step::{Line, PendingCall, StepFault};
use ct_values::items::Items;
use ct_values::memory::NoMemory;
use std::alloc::Global;

/// One line more. Without memory the call fails, and nothing is asked of the list any more.
fn add(lines: &mut Vec<Line>, line: Line) -> Result<(), NoMemory>
    ensures { OnOk result (lines.new.items ≡ lines.old.items ++ line ∷ []) }
{
    lines.push(line)?;
    Ok(())
}

/// One message more, a copy of this one.
fn post(frames: &mut Items<Frame>, frame: &Frame) -> Result<(), NoMemory>
    ensures { OnOk result (frames.new ≡ frames.old ++ frame.now ∷ []) }
{
    frames.push(frame.copy()?)?;
    Ok(())
}

/// A step that prints one line.
pub(crate) fn one(alloc: Global, line: Line) -> Result<Vec<Line>, NoMemory>
    ensures { IfOk result (λ lines. lines.items ≡ line ∷ []) }
{
    let mut lines = Vec::new(alloc);
    add(&mut lines, line)?;
    Ok(lines)
}

/// The lines of a stop, after which these calls are gone.
#[tactic(auto, unfolding(ct_rules_cluster::specs::Steps::gone))]
pub(crate) fn stopped(
    alloc: Global,
    node: u32,
    calls: Vec<PendingCall>,
) -> Result<Vec<Line>, NoMemory>
    ensures { IfOk result (λ lines. lines.items ≡ line.Stopped node ∷ steps.gone calls.items) }
{
    let mut lines = one(alloc, Line::Stopped(node))?;
    for pending in calls {
        let call = pending.call;
        drop(pending);
        add(&mut lines, Line::Gone(call))?;
    }
    Ok(lines)
}

/// The nodes that are marked as able.
#[tactic(auto, unfolding(ct_rules_cluster::specs::Cluster::able_from))]
pub(crate) fn able_nodes(alloc: Global, marks: &[bool], nodes: u32) -> Result<Items<u32>, NoMemory>
    requires { length marks.now ≡ nodes }
    ensures { IfOk result (λ able. able ≡ able_from 0 marks.now) }
{
    let mut able = Items::empty(alloc);
    for node in 0..nodes {
        if marks[node as usize] {
            able.push(node)?;
        }
    }
    Ok(able)
}

/// One thing that a node does, told. A message gets this number, and none gets 2^62. The answer is the number of the next message.
#[tactic(auto, unfolding(ct_rules_cluster::specs::Steps::frames_of, ct_rules_cluster::specs::Steps::lines_of))]
fn tell(
    lines: &mut Vec<Line>,
    frames: &mut Items<Frame>,
    node: u32,
    number: u64,
    out: Out,
) -> Result<u64, StepFault>
    requires { number ≤ 2 ^ 62 }
    ensures { TellsOne result node number out lines.old.items lines.new.items frames.old frames.new }
{
    match out {
        Out::Send(frame) => {
            if LIMIT <= number {
                drop(frame);
                return Err(StepFault::Exhausted);
            }
            let Ok(()) = post(frames, &frame) else {
                drop(frame);
                return Err(StepFault::NoMemory);
            };
            add(lines, Line::Sent { number, frame })?;
            Ok(number + 1)
        }
        Out::Answer { call, answer } => {
            add(lines, Line::Answered { call, answer })?;
            Ok(number)
        }
        Out::Note(note) => {
            add(lines, Line::Noted { node, note })?;
            Ok(number)
        }
    }
}

/// All that a node does, told. Its first message gets this number; none gets 2^62.
pub(crate) fn told(
    alloc: Global,
    node: u32,
    first: u64,
    own: Vec<Line>,
    outs: Items<Out>,
) -> Result<Told, StepFault>
    requires { first ≤ 2 ^ 62 }
    ensures { TellsAll result node first own.items outs }
{
    let mut lines = own;
    let mut frames = Items::empty(alloc);
    let mut number = first;
    for out in outs.into_vec() {
        number = tell(&mut lines, &mut frames, node, number, out)?;
    }
    Ok(Told { lines, frames })
}
