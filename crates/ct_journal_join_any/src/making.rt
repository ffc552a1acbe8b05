//! The steps that make an entry of a node, and the cluster that takes them.
ghost use Rattle.std.specs.Prelude.{◌≡◌, ◌++◌, IfOk, OnOk, Some, length};
ghost use Rattle.ct_call.specs.Shown.{rules_of};
ghost use Rattle.ct_rules_cluster.specs.Cluster as cluster;
ghost use Rattle.ct_journal.specs.Schedules.{after_step};
ghost use Rattle.ct_law_journal_schedule.specs.Scheduling.{yields};
ghost use Rattle.ct_law_journal_reach.specs.Making as making;
ghost use Rattle.ct_journal_join_any.specs.Going as going;

use ct_call::table::CallTable;
use ct_frame::event::Event;
use ct_lead::runs::is_among;
use ct_rules_cluster::step::Step;
use ct_values::copies::Duplicate;
use ct_values::memory::NoMemory;
use ct_world::world::World;
use std::alloc::Global;

/// The step by which the message of this number comes.
#[tactic(auto, unfolding(ct_law_journal_reach::specs::Making::comes_by, ct_rules_cluster::specs::Faults::fault_of, ct_rules_cluster::specs::Faults::not_waiting, ct_rules_node::specs::Refusals::refused_if))]
fn comes_by(world: &World, number: u64) -> Step
    ensures { result ≡ making.comes_by number (cluster.is_waiting (cluster.sent_at number world.now.cluster)) }
{
    let deliver = Step::Deliver(number);
    match world.fault(&deliver) {
        None => deliver,
        Some(_) => Step::Repeat(number),
    }
}

/// Another node that holds the recovery lock gives it back before this node takes it.
#[tactic(auto, unfolding(ct_law_journal_schedule::specs::Scheduling::yields))]
fn add_yield(steps: &mut Vec<Step>, node: u32, holder: Option<u32>) -> Result<(), NoMemory>
    ensures { OnOk result (steps.new.items ≡ steps.old.items ++ yields node holder) }
{
    if let Some(other) = holder {
        if other != node {
            steps.push(Step::Yield(other))?;
        }
    }
    Ok(())
}

/// The node is given this mark, where it has another.
#[tactic(auto, unfolding(ct_law_journal_reach::specs::Making::mark_step))]
fn add_mark(steps: &mut Vec<Step>, node: u32, mark: bool, able: bool) -> Result<(), NoMemory>
    ensures { OnOk result (steps.new.items ≡ steps.old.items ++ making.mark_step node mark able) }
{
    if mark != able {
        steps.push(Step::Able { node, able })?;
    }
    Ok(())
}

/// Exactly these nodes are marked as able, where nodes have these marks.
fn add_marks(
    steps: &mut Vec<Step>,
    able: &[u32],
    nodes: u32,
    marks: &[bool],
) -> Result<(), NoMemory>
    requires { length marks.now ≡ nodes }
    ensures { OnOk result (steps.new.items ≡ steps.old.items ++ making.mark_steps able.now 0 marks.now) }
{
    for node in 0..nodes {
        add_mark(steps, node, marks[node as usize], is_among(node, able))?;
    }
    Ok(())
}

/// The steps that make an entry of the node with this event, where the number is that of the message that arrives.
#[tactic(auto, unfolding(ct_law_journal_reach::specs::Making::steps_to_go))]
pub fn steps_to_go(
    alloc: Global,
    world: &World,
    node: u32,
    event: &Event,
    number: u64,
) -> Result<Vec<Step>, NoMemory>
    requires { length world.now.cluster.able ≡ world.now.config.nodes }
    ensures { IfOk result (λ steps. steps.items ≡ making.steps_to_go world.now.cluster node event.now number) }
{
    let mut steps = Vec::new(alloc);
    match event {
        Event::Client { op, .. } => steps.push(Step::Client {
            node,
            op: op.copy()?,
        })?,
        Event::Arrive(_) => steps.push(comes_by(world, number))?,
        Event::Retry => steps.push(Step::Retry(node))?,
        Event::Vacuum { db } => steps.push(Step::Vacuum { node, db: *db })?,
        Event::BeginRound { members, .. } => {
            add_yield(&mut steps, node, world.holder())?;
            steps.push(Step::Recover {
                node,
                members: members.duplicate()?,
            })?
        }
        Event::BeginTakeover { able } => {
            add_marks(
                &mut steps,
                able.as_slice(),
                world.config().nodes,
                world.able(),
            )?;
            steps.push(Step::Takeover(node))?
        }
    }
    Ok(steps)
}

/// The cluster takes a step.
#[tactic(auto, using(crate::proofs::Stepping::is_asked, crate::proofs::Stepping::one_taken))]
fn take(world: &mut World, table: &CallTable, step: &Step) -> Result<(), NoMemory>
    requires { going.IsTaken world.old.config (rules_of table.now) world.old.cluster step.now }
    ensures taken { OnOk result (after_step world.old.config (rules_of table.now) world.old.cluster step.now ≡ Some world.new.cluster) }
    ensures same { OnOk result (world.new.config ≡ world.old.config) }
{
    match world.apply(table, step) {
        Ok(_) => Ok(()),
        Err(_) => Err(NoMemory),
    }
}

/// The cluster takes steps, one after the other. An error leaves it anywhere between.
pub fn take_all(world: &mut World, table: &CallTable, steps: &[Step]) -> Result<(), NoMemory>
    requires { going.AreTaken world.old.config (rules_of table.now) world.old.cluster steps.now }
    ensures taken { OnOk result (making.after_steps world.old.config (rules_of table.now) (Some world.old.cluster) steps.now ≡ Some world.new.cluster) }
    ensures same { OnOk result (world.new.config ≡ world.old.config) }
{
    for step in steps {
        take(world, table, step)?;
    }
    Ok(())
}
