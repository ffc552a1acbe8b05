//! What a line does to a cluster and its traverses.
ghost use Rattle.std.specs.Prelude.{◌≡◌, true};
ghost use Rattle.ct_call.specs.Shown.{rules_of};
ghost use Rattle.ct_rules_cluster.specs.Faults.{is_allowed};
ghost use Rattle.ct_lines.specs.Spelled as spelled;
ghost use Rattle.ct_play.specs.Effect as effect;

use crate::shown::shown;
use crate::stepping::{settle, take};
use crate::walking::{catted, traversed};
use ct_call::table::CallTable;
use ct_lines::line::{Command, ScenarioLine};
use ct_named::named::{World, command_step, named_step, number_in_step};
use ct_play_text::what::PlayFault;
use ct_rules_cluster::step::Step;
use ct_traverse::walker::Walker;
use ct_values::items::Items;
use ct_values::memory::NoMemory;
use std::alloc::Global;

/// One step, and the texts of what it prints.
fn stepped(
    alloc: Global,
    world: &mut World,
    walker: &mut Walker,
    table: &CallTable,
    step: &Step,
) -> Result<Vec<Items<u8>>, PlayFault>
    requires { is_allowed step.now ≡ true }
    ensures { effect.Works result (effect.stepped (rules_of table.now) world.old walker.old step.now) world.new walker.new }
{
    let mut texts = Vec::new(alloc);
    match take(alloc, world, walker, table, step, &mut texts) {
        Ok(()) => Ok(texts),
        Err(fault) => Err(fault),
    }
}

/// So many deliveries, and the texts of what they print.
fn settled(
    alloc: Global,
    world: &mut World,
    walker: &mut Walker,
    table: &CallTable,
    count: u32,
) -> Result<Vec<Items<u8>>, PlayFault>
    ensures { effect.Works result (effect.settled (rules_of table.now) count world.old walker.old) world.new walker.new }
{
    let mut texts = Vec::new(alloc);
    match settle(alloc, world, walker, table, count, &mut texts) {
        Ok(()) => Ok(texts),
        Err(fault) => Err(fault),
    }
}

/// A command: it shows something, is a step, or begins a traverse.
#[tactic(auto, using(ct_named::proofs::Allowed::command_allowed, crate::proofs::Adding::lines_shown))]
fn commanded(
    alloc: Global,
    world: &mut World,
    walker: &mut Walker,
    table: &CallTable,
    node: u32,
    command: &Command,
) -> Result<Vec<Items<u8>>, PlayFault>
    requires { spelled.IsCommand command.now }
    ensures { effect.Works result (effect.commanded (rules_of table.now) world.old walker.old node command.now) world.new walker.new }
{
    match command {
        Command::Shows(command) => shown(alloc, world, node, command),
        Command::Steps(command) => match command_step(alloc, world, node, command) {
            Ok(step) => stepped(alloc, world, walker, table, &step),
            Err(NoMemory) => Err(PlayFault::NoMemory),
        },
        Command::CatDb(name) => catted(alloc, world, walker, node, name),
    }
}

/// What a line does, and the texts of what it prints. A configuration line does nothing.
#[tactic(auto, using(ct_named::proofs::Allowed::change_allowed, ct_named::proofs::Allowed::named_allowed))]
pub fn line_effect(
    alloc: Global,
    world: &mut World,
    walker: &mut Walker,
    table: &CallTable,
    line: ScenarioLine,
) -> Result<Vec<Items<u8>>, PlayFault>
    requires { spelled.IsInRange line }
    ensures { effect.Works result (effect.line_effect (rules_of table.now) world.old walker.old line) world.new walker.new }
{
    match line {
        ScenarioLine::Config(_) => Ok(Vec::new(alloc)),
        ScenarioLine::Change(step) => stepped(alloc, world, walker, table, &step),
        ScenarioLine::ByName { node, db, op } => {
            let number = number_in_step(world.config(), &db);
            let step = named_step(node, number, op);
            stepped(alloc, world, walker, table, &step)
        }
        ScenarioLine::Settle(count) => settled(alloc, world, walker, table, count),
        ScenarioLine::Traverse(line) => traversed(alloc, world, walker, &line),
        ScenarioLine::Ctdb { node, command } => {
            commanded(alloc, world, walker, table, node, &command)
        }
    }
}
