//! Clusters, step by step, with ample memory.
ghost use Rattle.std.specs.Prelude.{◌≡◌, true, IfOk, nat_lt};
ghost use Rattle.ct_frame.specs.Fields.{ascends};
ghost use Rattle.ct_rules_cluster.specs.Faults.{is_allowed};
ghost use Rattle.ct_rules_config.specs.Configured.{IsConfig};

use ct_call::table::CallTable;
use ct_rules_cluster::step::{Line, Step, StepFault};
use ct_text::line::line_text;
use ct_values::client::ClientOp;
use ct_values::config::{Config, DbDecl, DbKind};
use ct_values::items::Items;
use ct_values::key::Key;
use ct_values::name::DbName;
use ct_world::world::World;
use std::alloc::Global;
use std::test::Fail;

/// So many nodes with the databases `g_lock` and `t`, which is volatile.
#[tactic(auto, using(ct_world::proofs::Opened::is_config))]
fn config(alloc: Global, nodes: u32) -> Result<Config, Fail>
    ensures { IfOk result (λ c. IsConfig c) }
{
    let mut dbs = Vec::new(alloc);
    dbs.push(DbDecl {
        name: DbName::new(alloc, b"t")?,
        kind: DbKind::Volatile,
    })?;
    Ok(Config::new(alloc, nodes, dbs, Vec::new(alloc))?)
}

/// What happens.
#[derive(Clone, Copy)]
enum Turn {
    /// A client of this node asks for the lock of `b` in `t`.
    Lock(u32),
    Deliver(u64),
    Drop(u64),
    Repeat(u64),
    Stop(u32),
    Start(u32),
    /// This node recovers alone.
    Recover(u32),
    Yield(u32),
}

/// This node alone.
#[tactic(auto, unfolding(ct_frame::specs::Fields::ascends, ct_frame::specs::Fields::ascends_after))]
fn alone(alloc: Global, node: u32) -> Result<Items<u32>, Fail>
    ensures { IfOk result (λ members. ascends nat_lt members ≡ true) }
{
    let mut members = Items::empty(alloc);
    members.push(node)?;
    Ok(members)
}

fn add_texts(
    alloc: Global,
    text: &mut Vec<u8>,
    lines: &[Line],
    config: &Config,
) -> Result<(), Fail> {
    for line in lines {
        text.extend_from_slice(line_text(alloc, line, config)?.as_slice())?;
    }
    Ok(())
}

fn texts_of(alloc: Global, lines: Vec<Line>, config: &Config) -> Result<Vec<u8>, Fail> {
    let mut text = Vec::new(alloc);
    add_texts(alloc, &mut text, lines.as_slice(), config)?;
    Ok(text)
}

/// One step. It is let go.
fn take(world: &mut World, table: &CallTable, step: Step) -> Result<Vec<Line>, StepFault>
    requires { is_allowed step ≡ true }
{
    let taken = world.apply(table, &step);
    drop(step);
    taken
}

/// What a turn prints.
#[tactic(auto, unfolding(ct_rules_cluster::specs::Faults::is_allowed, ct_rules_node::specs::Coming::is_allowed_op))]
fn printed(
    alloc: Global,
    world: &mut World,
    table: &CallTable,
    turn: Turn,
) -> Result<Vec<u8>, Fail> {
    let taken = match turn {
        Turn::Lock(node) => {
            let key = Key::new(alloc, b"b")?;
            let op = ClientOp::Lock { db: 1, key };
            take(world, table, Step::Client { node, op })
        }
        Turn::Deliver(number) => take(world, table, Step::Deliver(number)),
        Turn::Drop(number) => take(world, table, Step::Drop(number)),
        Turn::Repeat(number) => take(world, table, Step::Repeat(number)),
        Turn::Stop(node) => take(world, table, Step::Stop(node)),
        Turn::Start(node) => take(world, table, Step::Start(node)),
        Turn::Recover(node) => {
            let members = alone(alloc, node)?;
            take(world, table, Step::Recover { node, members })
        }
        Turn::Yield(node) => take(world, table, Step::Yield(node)),
    };
    match taken {
        Ok(lines) => texts_of(alloc, lines, world.config()),
        Err(_) => Ok(Vec::from_slice(alloc, b"refused\n")?),
    }
}

fn prints_so(
    alloc: Global,
    world: &mut World,
    table: &CallTable,
    turn: Turn,
    text: &[u8],
) -> Result<bool, Fail> {
    let got = printed(alloc, world, table, turn)?;
    Ok(got.as_slice() == text)
}

fn so_many_wait(world: &World, count: usize) -> Result<bool, Fail> {
    Ok(world.pending()?.len() == count)
}

/// A turn, how many calls wait then, and what it prints.
type Row = (Turn, usize, &'static [u8]);

fn all_print(alloc: Global, world: &mut World, rows: &[Row]) -> Result<bool, Fail> {
    let table = CallTable::new(alloc);
    for (turn, pending, text) in rows {
        if !prints_so(alloc, world, &table, *turn, *text)? || !so_many_wait(world, *pending)? {
            return Ok(false);
        }
    }
    Ok(true)
}

fn opened(alloc: Global) -> Result<World, Fail> {
    let config = config(alloc, 2)?;
    Ok(World::new(alloc, &config)?)
}

const LOCKED: &[Row] = &[
    (Turn::Lock(1), 1, b"frame 1 1 0 1 call t b 1 lock\n"),
    (
        Turn::Deliver(1),
        1,
        b"frame 2 0 0 1 recall t b 0 1 1 lock\n",
    ),
    (Turn::Deliver(2), 1, b"frame 3 0 0 1 give t b 0 -\n"),
    (Turn::Deliver(3), 1, b"frame 4 0 1 1 pass t b 1 0 -\n"),
    (Turn::Deliver(4), 0, b"answer 1 locked -\n"),
    (Turn::Deliver(4), 0, b"refused\n"),
    (Turn::Repeat(4), 0, b""),
    (Turn::Stop(1), 0, b"stopped 1\n"),
    (Turn::Repeat(4), 0, b"lost 4\n"),
];

#[test]
fn a_record_comes_to_the_node_that_locks_it(rt: HostRuntime) -> Result<(), Fail> {
    let mut world = opened(rt.alloc())?;
    let all = all_print(rt.alloc(), &mut world, LOCKED);
    let none = world.next_waiting().is_none();
    drop(world);
    assert!(rt; all? && none);
    Ok(())
}

const ENDED: &[Row] = &[
    (Turn::Lock(1), 1, b"frame 1 1 0 1 call t b 1 lock\n"),
    (Turn::Drop(1), 1, b""),
    (Turn::Stop(1), 0, b"stopped 1\nanswer 1 stopped\n"),
    (Turn::Lock(1), 0, b"refused\n"),
    (Turn::Start(1), 0, b"started 1\n"),
    (Turn::Lock(1), 0, b"answer 2 refused not-serving\n"),
    (Turn::Recover(0), 0, b"ticket 2 0\nframe 2 0 0 2 freeze 0\n"),
    (Turn::Yield(1), 0, b"refused\n"),
    (Turn::Yield(0), 0, b"yielded 0\n"),
];

#[test]
fn calls_end_with_their_node(rt: HostRuntime) -> Result<(), Fail> {
    let mut world = opened(rt.alloc())?;
    let all = all_print(rt.alloc(), &mut world, ENDED);
    drop(world);
    assert!(rt; all?);
    Ok(())
}
