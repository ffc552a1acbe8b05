//! The steps of a schedule, one after the other, and their text.
ghost use Rattle.std.specs.Prelude.{◌≡◌, ◌++◌, true, [], length, IfOk, OnOk};
ghost use Rattle.std.specs.List.{flat_map, list_all};
ghost use Rattle.ct_call.specs.Shown.{rules_of};
ghost use Rattle.ct_rules_cluster.specs.Faults.{is_allowed};
ghost use Rattle.ct_rules_config.specs.Configured.{IsConfig};
ghost use Rattle.ct_text.specs.Line.{line_text, pending_text};
ghost use Rattle.ct_schedule_text.specs.Counted as counted;
ghost use Rattle.ct_rules_cluster.specs.Cluster.{opening};
ghost use Rattle.ct_rules_cluster.specs.Traces.{ran};
ghost use Rattle.ct_schedule_text.specs.Schedule as schedule;

use crate::telling::Lines;
use ct_call::table::CallTable;
use ct_rules_cluster::step::{Line, PendingCall, Step, StepFault};
use ct_text::line::{push_line, push_pending};
use ct_text::words::{push, push_number};
use ct_values::config::Config;
use ct_values::memory::NoMemory;
use ct_world::world::World;
use std::alloc::Global;

/// What is told of a schedule beside its run.
#[derive(Clone, Copy, Debug, PartialEq, Eq)]
pub struct Summary {
    /// Whether the nodes talked over sockets.
    pub net: bool,
    /// How many words of its generator each node had.
    pub calls: u32,
    /// How many entries all journals have.
    pub entries: u64,
}

fn frame_by(before: u64, line: &Line) -> u64
    ensures { result ≡ counted.frame_by before line.now }
{
    match line {
        Line::Sent { number, .. } => *number,
        _ => before,
    }
}

/// The number of the last message that lines tell of, or the one before.
fn last_frame(before: u64, lines: &[Line]) -> u64
    ensures { result ≡ counted.last_frame before lines.now }
{
    let mut last = before;
    for line in lines {
        last = frame_by(last, line);
    }
    last
}

/// Adds the text of each line.
fn push_lines(text: &mut Vec<u8>, lines: &[Line], config: &Config) -> Result<(), NoMemory>
    ensures { OnOk result (text.new.items ≡ text.old.items ++ flat_map (line_text config.now) lines.now) }
{
    for line in lines {
        push_line(text, line, config)?;
    }
    Ok(())
}

/// Takes one step, and adds the text of the lines that it prints: the number of the last message that was told of, where this
/// was the one before. A step that is refused does nothing.
fn add(
    text: &mut Vec<u8>,
    world: &mut World,
    table: &CallTable,
    config: &Config,
    step: &Step,
    before: u64,
) -> Result<u64, NoMemory>
    requires { is_allowed step.now ≡ true }
    ensures config { OnOk result (world.new.config ≡ world.old.config) }
    ensures cluster { OnOk result (world.new.cluster ≡ (counted.step_done world.old.config (rules_of table.now) world.old.cluster step.now).cluster) }
    ensures text { OnOk result (text.new.items ≡ text.old.items ++ flat_map (line_text config.now) (counted.step_done world.old.config (rules_of table.now) world.old.cluster step.now).lines) }
    ensures last { IfOk result (λ last. last ≡ counted.last_frame before (counted.step_done world.old.config (rules_of table.now) world.old.cluster step.now).lines) }
{
    match world.apply(table, step) {
        Ok(lines) => {
            push_lines(text, &lines, config)?;
            Ok(last_frame(before, &lines))
        }
        Err(StepFault::NoMemory) => Err(NoMemory),
        Err(_) => Ok(before),
    }
}

/// Adds the text of all lines that the steps print, one after the other: the number of the last message that they tell of, or
/// 0. The lines of a step become text as soon as it is taken.
#[tactic(auto, using(crate::proofs::Steps::one_more, crate::proofs::Steps::one_allowed))]
fn play(
    text: &mut Vec<u8>,
    world: &mut World,
    table: &CallTable,
    config: &Config,
    steps: &[Step],
) -> Result<u64, NoMemory>
    requires { list_all is_allowed steps.now ≡ true }
    ensures cluster { OnOk result (world.new.cluster ≡ (counted.steps_done world.old.config (rules_of table.now) world.old.cluster steps.now).cluster) }
    ensures text { OnOk result (text.new.items ≡ text.old.items ++ flat_map (line_text config.now) (counted.steps_done world.old.config (rules_of table.now) world.old.cluster steps.now).lines) }
    ensures last { IfOk result (λ last. last ≡ counted.last_frame 0 (counted.steps_done world.old.config (rules_of table.now) world.old.cluster steps.now).lines) }
{
    let mut last = 0;
    for step in steps {
        last = add(text, world, table, config, step, last)?;
    }
    Ok(last)
}

/// Adds a line for each client call that waits.
fn push_calls(text: &mut Vec<u8>, calls: &[PendingCall], config: &Config) -> Result<(), NoMemory>
    ensures { OnOk result (text.new.items ≡ text.old.items ++ flat_map (pending_text config.now) calls.now) }
{
    for call in calls {
        push_pending(text, call, config)?;
    }
    Ok(())
}

/// The word of the command.
fn push_command(text: &mut Vec<u8>, net: bool) -> Result<(), NoMemory>
    ensures { OnOk result (text.new.items ≡ text.old.items ++ schedule.command_name net) }
{
    if net {
        push(text, b"loopback")
    } else {
        push(text, b"cluster")
    }
}

/// Adds the line that counts.
pub fn push_summary(
    text: &mut Vec<u8>,
    nodes: u32,
    summary: &Summary,
    frames: u64,
) -> Result<(), NoMemory>
    ensures { OnOk result (text.new.items ≡ text.old.items ++ schedule.summary_text nodes summary.now frames) }
{
    push_command(text, summary.net)?;
    push_number(text, b" ", u64::from(nodes))?;
    push_number(text, b" ", u64::from(summary.calls))?;
    push_number(text, b" entries ", summary.entries)?;
    push_number(text, b" frames ", frames)?;
    push(text, b"\n")
}

/// The lines of a schedule as text, and how many messages its run sent: its steps are taken one after the other from the opening of
/// the configuration. A line comes for all that they print, and for each call that waits at the end. A step that is refused
/// prints nothing, as in every run; a schedule of journals has none.
#[tactic(auto, using(crate::proofs::Steps::told_so, crate::proofs::Steps::sent_so))]
pub fn text_of_steps(
    alloc: Global,
    table: &CallTable,
    config: &Config,
    steps: &[Step],
) -> Result<Lines, NoMemory>
    requires config { IsConfig config.now }
    requires allowed { list_all is_allowed steps.now ≡ true }
    ensures text { IfOk result (λ v. v.text.items ≡ schedule.run_text config.now (ran config.now (rules_of table.now) (opening config.now) [] steps.now)) }
    ensures sent { IfOk result (λ v. v.sent ≡ length (ran config.now (rules_of table.now) (opening config.now) [] steps.now).cluster.sent) }
{
    let mut world = World::new(alloc, config)?;
    let mut text = Vec::new(alloc);
    let sent = play(&mut text, &mut world, table, config, steps)?;
    let calls = world.pending()?;
    push_calls(&mut text, &calls, config)?;
    Ok(Lines { text, sent })
}

/// The text of a schedule: its lines, and last one that counts.
pub fn schedule_text(
    alloc: Global,
    table: &CallTable,
    config: &Config,
    steps: &[Step],
    summary: &Summary,
) -> Result<Vec<u8>, NoMemory>
    requires config { IsConfig config.now }
    requires allowed { list_all is_allowed steps.now ≡ true }
    ensures { IfOk result (λ text. text.items ≡ schedule.schedule_text config.now (rules_of table.now) steps.now summary.now) }
{
    let Lines { mut text, sent } = text_of_steps(alloc, table, config, steps)?;
    push_summary(&mut text, config.nodes, summary, sent)?;
    Ok(text)
}
