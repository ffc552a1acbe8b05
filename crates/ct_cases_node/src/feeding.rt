//! A node is fed row by row.
ghost use Rattle.std.specs.Prelude.{◌≡◌, true, IfOk};
ghost use Rattle.ct_core.specs.Core.{IsPlanOf};
ghost use Rattle.ct_rules_node.specs.Coming.{may_come};

use crate::made::{config, event, functions, outs};
use crate::rows::{Comes, Made, Row, Shown, Way};
use crate::showing::{copy_of, shows, shows_same};
use ct_call::table::CallTable;
use ct_core::coming::may_come;
use ct_core::machine::Core;
use ct_frame::event::{Event, Out};
use ct_node_plan::change::Planned;
use ct_node_state::turn::CoreFault;
use std::alloc::Global;
use std::test::Fail;

/// A node at the opening of a cluster, in a box, so that no other call moves it.
fn opened(alloc: Global, made: Made, me: u32) -> Result<Box<Core>, Fail> {
    let config = config(alloc, made)?;
    if me < config.nodes {
        Ok(Box::new(alloc, Core::new(alloc, me, &config)?)?)
    } else {
        Err(Fail::new("no such node"))
    }
}

/// What comes of an event that may come. No number of a row is near its limit.
fn stepped(core: &mut Core, table: &CallTable, event: &Event) -> Result<Option<Vec<Out>>, Fail> {
    if !may_come(core, event)? {
        return Err(Fail::new("this may not come"));
    }
    match core.step(table, event) {
        Ok(outs) => Ok(Some(outs)),
        Err(CoreFault::NoMemory) => Ok(None),
        Err(CoreFault::Exhausted) => Err(Fail::new("a number reached its limit")),
    }
}

/// A plan of what comes of an event. A message is lent.
fn plan(core: &Core, table: &CallTable, event: &Event) -> Result<Planned, CoreFault>
    requires { may_come core.now.config core.now.pnn core.now.node event.now ≡ true }
    ensures { IfOk result (λ p. IsPlanOf core.now p) }
{
    match event {
        Event::Arrive(frame) => core.plan_arrival(table, frame),
        _ => core.plan(table, event),
    }
}

/// What comes of an event that may come: it is planned first, and then the plan is kept.
fn planned(core: &mut Core, table: &CallTable, event: &Event) -> Result<Option<Vec<Out>>, Fail> {
    if !may_come(core, event)? {
        return Err(Fail::new("this may not come"));
    }
    match plan(core, table, event) {
        Ok(Planned { change, outs }) => match core.commit(change) {
            Ok(()) => Ok(Some(outs.into_vec())),
            Err(_) => Ok(None),
        },
        Err(CoreFault::NoMemory) => Ok(None),
        Err(CoreFault::Exhausted) => Err(Fail::new("a number reached its limit")),
    }
}

/// What comes of a plan. Where memory is wanting the node shows what it showed before.
fn held(
    alloc: Global,
    core: &mut Core,
    table: &CallTable,
    event: &Event,
) -> Result<Option<Vec<Out>>, Fail> {
    let before = copy_of(alloc, core)?;
    let done = planned(core, table, event)?;
    if done.is_some() || shows_same(core, &*before)? {
        Ok(done)
    } else {
        Err(Fail::new("a node changed for want of memory"))
    }
}

fn once(
    alloc: Global,
    core: &mut Core,
    table: &CallTable,
    event: &Event,
    way: Way,
) -> Result<Option<Vec<Out>>, Fail> {
    match way {
        Way::Step => stepped(core, table, event),
        Way::Plan => held(alloc, core, table, event),
    }
}

/// What comes of an event. Where memory is wanting it comes again.
fn fed(
    alloc: Global,
    core: &mut Core,
    table: &CallTable,
    event: &Event,
    way: Way,
) -> Result<Vec<Out>, Fail> {
    if let Some(outs) = once(alloc, core, table, event, way)? {
        return Ok(outs);
    }
    match once(alloc, core, table, event, way)? {
        Some(outs) => Ok(outs),
        None => Err(Fail::new("want of memory twice")),
    }
}

/// What a node does of what comes to it.
fn does(
    alloc: Global,
    core: &mut Core,
    table: &CallTable,
    comes: Comes,
    way: Way,
) -> Result<Vec<Out>, Fail> {
    match event(alloc, core.pnn(), comes)? {
        Some(event) => fed(alloc, core, table, &event, way),
        None => {
            core.restart();
            Ok(Vec::new(alloc))
        }
    }
}

/// What is told of the first row that is not as the node does.
fn other(at: usize) -> Fail {
    Fail::new(format_args!("row {at} is not as the node does"))
}

/// Each of these rows is as the node does.
fn follows(
    alloc: Global,
    core: &mut Core,
    table: &CallTable,
    rows: &[Row],
    way: Way,
) -> Result<(), Fail> {
    for (at, row) in rows.iter().enumerate() {
        let done = does(alloc, core, table, row.0, way)?;
        if done != outs(alloc, core.pnn(), row.1)? {
            return Err(other(at));
        }
    }
    Ok(())
}

/// Each of these rows is as a node does, from the opening on, and then it shows this.
pub(crate) fn plays(
    alloc: Global,
    made: Made,
    me: u32,
    rows: &[Row],
    way: Way,
    shown: &[Shown],
) -> Result<(), Fail> {
    let table = functions(alloc)?;
    let mut core = opened(alloc, made, me)?;
    follows(alloc, &mut *core, &table, rows, way)?;
    shows(alloc, &*core, shown)
}
