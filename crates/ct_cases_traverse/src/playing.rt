//! A cluster and its traverses, turn by turn.
ghost use Rattle.std.specs.Prelude.{◌≡◌, true, IfOk, nat_lt};
ghost use Rattle.ct_frame.specs.Fields.{ascends};
ghost use Rattle.ct_rules_cluster.specs.Faults.{is_allowed};
ghost use Rattle.ct_rules_config.specs.Configured.{IsConfig};

use ct_call::table::CallTable;
use ct_node_state::kinds::{is_persistent, kind_at};
use ct_rules_cluster::step::{Step, StepFault};
use ct_traverse::walker::Walker;
use ct_traverse_parts::line::{TFault, TLine, TPending};
use ct_traverse_parts::text::push_traverse;
use ct_values::client::ClientOp;
use ct_values::config::{Config, DbDecl, DbKind};
use ct_values::items::Items;
use ct_values::key::Key;
use ct_values::name::DbName;
use ct_values::value::Value;
use ct_world::world::World;
use std::alloc::Global;
use std::test::Fail;

/// A call of traverses.
#[derive(Clone, Copy)]
pub(crate) enum Call {
    /// A node begins one of a database.
    Begin(u32, u32),
    Carry(u64),
    Lose(u64),
    Again(u64),
    After,
}

/// What happens.
#[derive(Clone, Copy)]
pub(crate) enum Turn {
    /// A client of this node writes a record of `t`.
    Write(u32, &'static str, &'static str),
    /// It asks for its lock, and stores a value under it.
    Lock(u32, &'static str),
    Store(u32, &'static str, &'static str),
    /// All messages of the cluster come that wait, and those that are sent then, up to so many.
    Settle(u32),
    /// The node vacuums `t`.
    Vacuum(u32),
    /// The node begins a round of both nodes.
    Recover(u32),
    Stop(u32),
    /// A call of traverses.
    Calls(Call),
    /// Up to so many messages of traverses come.
    Walk(u32),
}

/// What happens, and what traverses print then.
pub(crate) type Row = (Turn, &'static str);

/// The databases `g_lock`, `t`, which is volatile, and `p`, which is persistent.
#[tactic(auto, using(ct_world::proofs::Opened::is_config))]
fn config(alloc: Global, nodes: u32) -> Result<Config, Fail>
    ensures { IfOk result (λ c. IsConfig c) }
{
    let mut dbs = Vec::new(alloc);
    dbs.push(DbDecl {
        name: DbName::new(alloc, b"t")?,
        kind: DbKind::Volatile,
    })?;
    dbs.push(DbDecl {
        name: DbName::new(alloc, b"p")?,
        kind: DbKind::Persistent,
    })?;
    Ok(Config::new(alloc, nodes, dbs, Vec::new(alloc))?)
}

fn key(alloc: Global, text: &str) -> Result<Key, Fail> {
    Ok(Key::new(alloc, text.as_bytes())?)
}

fn value(alloc: Global, text: &str) -> Result<Value, Fail> {
    Ok(Value::new(alloc, text.as_bytes())?)
}

/// Both nodes.
#[tactic(auto, unfolding(ct_frame::specs::Fields::ascends, ct_frame::specs::Fields::ascends_after))]
fn both(alloc: Global) -> Result<Items<u32>, Fail>
    ensures { IfOk result (λ members. ascends nat_lt members ≡ true) }
{
    let mut members = Items::empty(alloc);
    members.push(0)?;
    members.push(1)?;
    Ok(members)
}

/// One step of the cluster. Where memory is wanting it comes again.
fn taken(world: &mut World, table: &CallTable, step: &Step) -> Result<(), Fail>
    requires { is_allowed step.now ≡ true }
{
    for _ in 0..2 {
        match world.apply(table, step) {
            Ok(lines) => {
                drop(lines);
                return Ok(());
            }
            Err(StepFault::NoMemory) => {}
            Err(fault) => {
                drop(fault);
                return Err(Fail::new("a step is refused"));
            }
        }
    }
    Err(Fail::new("want of memory twice"))
}

/// One step of the cluster, which goes then.
fn take(world: &mut World, table: &CallTable, step: Step) -> Result<(), Fail>
    requires { is_allowed step ≡ true }
{
    let answer = taken(world, table, &step);
    drop(step);
    answer
}

/// A client asks a node.
#[tactic(auto, unfolding(ct_rules_cluster::specs::Faults::is_allowed, ct_rules_node::specs::Coming::is_allowed_op))]
fn ask(alloc: Global, world: &mut World, table: &CallTable, turn: Turn) -> Result<(), Fail> {
    match turn {
        Turn::Write(node, at, text) => {
            let op = ClientOp::Write {
                db: 1,
                key: key(alloc, at)?,
                value: value(alloc, text)?,
            };
            take(world, table, Step::Client { node, op })
        }
        Turn::Lock(node, at) => {
            let op = ClientOp::Lock {
                db: 1,
                key: key(alloc, at)?,
            };
            take(world, table, Step::Client { node, op })
        }
        Turn::Store(node, at, text) => {
            let op = ClientOp::Store {
                db: 1,
                key: key(alloc, at)?,
                value: value(alloc, text)?,
            };
            take(world, table, Step::Client { node, op })
        }
        _ => Err(Fail::new("no call of a client")),
    }
}

/// One step of the cluster that a turn says.
#[tactic(auto, unfolding(ct_rules_cluster::specs::Faults::is_allowed, ct_rules_node::specs::Coming::is_allowed_op))]
fn step(alloc: Global, world: &mut World, table: &CallTable, turn: Turn) -> Result<(), Fail> {
    match turn {
        Turn::Vacuum(node) => take(world, table, Step::Vacuum { node, db: 1 }),
        Turn::Stop(node) => take(world, table, Step::Stop(node)),
        Turn::Recover(node) => {
            let members = both(alloc)?;
            take(world, table, Step::Recover { node, members })
        }
        _ => ask(alloc, world, table, turn),
    }
}

/// The message of this number comes.
#[tactic(auto, unfolding(ct_rules_cluster::specs::Faults::is_allowed))]
fn deliver(world: &mut World, table: &CallTable, number: u64) -> Result<(), Fail> {
    take(world, table, Step::Deliver(number))
}

/// What a call of traverses answers.
fn called(world: &World, walker: &mut Walker, call: Call) -> Result<Vec<TLine>, TFault> {
    match call {
        Call::Begin(node, db) => {
            if is_persistent(kind_at(world.config(), db)) {
                return Err(TFault::NoMemory);
            }
            walker.begin(world, node, db)
        }
        Call::Carry(number) => walker.carry(world, number),
        Call::Lose(number) => walker.lose(world, number),
        Call::Again(number) => walker.again(world, number),
        Call::After => walker.after(world),
    }
}

/// Does the walker show this yet?
fn shows(walker: &Walker, waiting: Option<u64>, pending: &[TPending]) -> Result<bool, Fail> {
    let now = walker.pending()?;
    Ok(walker.next_waiting() == waiting && now.as_slice() == pending)
}

/// What a call answers. Where memory is wanting the walker shows what it showed before, and the call comes again.
fn answered(
    world: &World,
    walker: &mut Walker,
    call: Call,
) -> Result<Result<Vec<TLine>, TFault>, Fail> {
    let waiting = walker.next_waiting();
    let pending = walker.pending()?;
    match called(world, walker, call) {
        Err(TFault::NoMemory) => {
            if !shows(walker, waiting, pending.as_slice())? {
                return Err(Fail::new("traverses changed for want of memory"));
            }
            Ok(called(world, walker, call))
        }
        answer => Ok(answer),
    }
}

/// What a call prints, or why it is refused.
fn tell(
    alloc: Global,
    world: &World,
    walker: &mut Walker,
    call: Call,
    text: &mut Vec<u8>,
) -> Result<(), Fail> {
    match answered(world, walker, call)? {
        Ok(lines) => {
            for line in &lines {
                push_traverse(text, line)?;
            }
            Ok(())
        }
        Err(fault) => {
            let why = format!(in alloc; "{fault}\n")?;
            text.extend_from_slice(why.as_bytes())?;
            Ok(())
        }
    }
}

/// Up to so many messages of the cluster come. What traverses print stands behind each.
fn settle(
    alloc: Global,
    world: &mut World,
    walker: &mut Walker,
    table: &CallTable,
    count: u32,
    text: &mut Vec<u8>,
) -> Result<(), Fail> {
    for _ in 0..count {
        let Some(number) = world.next_waiting() else {
            return Ok(());
        };
        deliver(world, table, number)?;
        tell(alloc, world, walker, Call::After, text)?;
    }
    Ok(())
}

/// Up to so many messages of traverses come.
fn walk(
    alloc: Global,
    world: &World,
    walker: &mut Walker,
    count: u32,
    text: &mut Vec<u8>,
) -> Result<(), Fail> {
    for _ in 0..count {
        let Some(number) = walker.next_waiting() else {
            return Ok(());
        };
        tell(alloc, world, walker, Call::Carry(number), text)?;
    }
    Ok(())
}

/// What traverses print in a turn.
fn printed(
    alloc: Global,
    world: &mut World,
    walker: &mut Walker,
    table: &CallTable,
    turn: Turn,
) -> Result<Vec<u8>, Fail> {
    let mut text = Vec::new(alloc);
    match turn {
        Turn::Settle(count) => settle(alloc, world, walker, table, count, &mut text)?,
        Turn::Calls(call) => tell(alloc, world, walker, call, &mut text)?,
        Turn::Walk(count) => walk(alloc, world, walker, count, &mut text)?,
        _ => {
            step(alloc, world, table, turn)?;
            tell(alloc, world, walker, Call::After, &mut text)?;
        }
    }
    Ok(text)
}

/// Each of these turns of a cluster prints what stands beside it, and at the end these traverses wait.
pub(crate) fn plays(
    alloc: Global,
    nodes: u32,
    rows: &[Row],
    pending: &[TPending],
) -> Result<(), Fail> {
    let table = CallTable::new(alloc);
    let mut world = World::new(alloc, &config(alloc, nodes)?)?;
    let mut walker = Walker::new(alloc);
    for (at, (turn, wanted)) in rows.iter().enumerate() {
        let text = printed(alloc, &mut world, &mut walker, &table, *turn)?;
        if text.as_slice() != wanted.as_bytes() {
            return Err(Fail::new(format_args!("row {at} prints something else")));
        }
    }
    if walker.pending()?.as_slice() != pending {
        return Err(Fail::new("other traverses wait"));
    }
    Ok(())
}
