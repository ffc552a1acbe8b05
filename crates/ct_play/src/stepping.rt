//! Steps, and what they print.
ghost use Rattle.std.specs.Prelude.{◌≡◌, ◌++◌, true, map, OnOk};
ghost use Rattle.ct_call.specs.Shown.{rules_of};
ghost use Rattle.ct_rules_cluster.specs.Faults.{is_allowed};
ghost use Rattle.ct_rules_cluster.specs.declared.step.Step.TheVariants as step;
ghost use Rattle.ct_text.specs.Line.{line_text};
ghost use Rattle.ct_play.specs.Course.{Adds};
ghost use Rattle.ct_play.specs.Effect as effect;

use crate::shown::refused_by;
use crate::walking::tell;
use ct_call::table::CallTable;
use ct_named::named::World;
use ct_play_text::what::PlayFault;
use ct_rules_cluster::step::{Line, Step};
use ct_text::line::line_text;
use ct_traverse::walker::Walker;
use ct_values::config::Config;
use ct_values::items::Items;
use ct_values::memory::NoMemory;
use std::alloc::Global;

/// The text of each of these lines, after these texts.
fn add_texts(
    alloc: Global,
    lines: &[Line],
    config: &Config,
    texts: &mut Vec<Items<u8>>,
) -> Result<(), NoMemory>
    ensures { OnOk result (texts.new.items ≡ texts.old.items ++ map (line_text config.now) lines.now) }
{
    for line in lines {
        texts.push(Items::new(line_text(alloc, line, config)?))?;
    }
    Ok(())
}

/// One step. The texts of what it prints, and then of the traverses that end with it, come after these.
#[tactic(auto, using(crate::proofs::Adding::step_refused, crate::proofs::Adding::step_added))]
pub fn take(
    alloc: Global,
    world: &mut World,
    walker: &mut Walker,
    table: &CallTable,
    step: &Step,
    texts: &mut Vec<Items<u8>>,
) -> Result<(), PlayFault>
    requires { is_allowed step.now ≡ true }
    ensures { Adds result (effect.stepped (rules_of table.now) world.old walker.old step.now) texts.old.items world.new walker.new texts.new.items }
{
    match world.apply(table, step) {
        Ok(lines) => {
            let added = add_texts(alloc, lines.as_slice(), world.config(), texts);
            drop(lines);
            if added.is_err() {
                return Err(PlayFault::NoMemory);
            }
            tell(alloc, walker.after(world), texts)
        }
        Err(fault) => Err(refused_by(fault)),
    }
}

/// The message of this number comes.
#[tactic(auto, using(ct_named::proofs::Allowed::deliver_allowed))]
fn deliver(
    alloc: Global,
    world: &mut World,
    walker: &mut Walker,
    table: &CallTable,
    number: u64,
    texts: &mut Vec<Items<u8>>,
) -> Result<(), PlayFault>
    ensures { Adds result (effect.stepped (rules_of table.now) world.old walker.old (step.Deliver number)) texts.old.items world.new walker.new texts.new.items }
{
    let step = Step::Deliver(number);
    take(alloc, world, walker, table, &step, texts)
}

/// So many deliveries of the least message that waits, one after the other; fewer where none waits.
pub fn settle(
    alloc: Global,
    world: &mut World,
    walker: &mut Walker,
    table: &CallTable,
    count: u32,
    texts: &mut Vec<Items<u8>>,
) -> Result<(), PlayFault>
    ensures { Adds result (effect.settled (rules_of table.now) count world.old walker.old) texts.old.items world.new walker.new texts.new.items }
{
    for i in 0..count {
        match world.next_waiting() {
            Some(number) => match deliver(alloc, world, walker, table, number, texts) {
                Ok(()) => {}
                Err(fault) => return Err(fault),
            },
            None => return Ok(()),
        }
    }
    Ok(())
}
