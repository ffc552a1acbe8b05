//! Which step a line or a command is, where it names a database.
ghost use Rattle.std.specs.Prelude.{◌≡◌, ◌∷◌, nat_eq, IfOk};
ghost use Rattle.std.specs.Str.{bytes_eq};
ghost use Rattle.ct_named.specs.Named.{command_step, named_step, number_at, number_from, number_in_step, number_of_db, running_nodes};

use ct_lines::line::{NamedOp, StepCommand};
use ct_rules_cluster::step::Step;
use ct_values::client::ClientOp;
use ct_values::config::{Config, DbDecl};
use ct_values::copies::Duplicate;
use ct_values::items::Items;
use ct_values::memory::NoMemory;
use ct_values::name::DbName;
use ct_values::value::Value;
pub use ct_world::world::World;
use std::alloc::Global;

/// The number that stands for no database. No configuration has a database of this number.
const NO_DATABASE: u32 = u32::MAX;

/// The number of the database at this place. A number is below 2^32.
fn number_at(place: usize) -> Option<u32>
    ensures { result ≡ number_at place }
{
    u32::try_from(place).ok()
}

/// The number of the database of this name among these, where one has it.
fn number_among(dbs: &[DbDecl], name: &DbName) -> Option<u32>
    ensures { result ≡ number_from 0 name.now dbs.now }
{
    for (i, decl) in dbs.iter().enumerate() {
        if decl.name == *name {
            return number_at(i);
        }
    }
    None
}

/// The number of the database that the configuration has by this name, where it has one.
fn number_of_db(config: &Config, name: &DbName) -> Option<u32>
    ensures { result ≡ number_of_db config.now name.now }
{
    number_among(config.dbs.as_slice(), name)
}

/// The number by which a step tells of the database of this name. It is that of no database where the name is not declared.
pub fn number_in_step(config: &Config, name: &DbName) -> u32
    ensures { result ≡ number_in_step config.now name.now }
{
    number_of_db(config, name).unwrap_or(NO_DATABASE)
}

/// What is asked at a node on the database of this number.
pub fn named_step(node: u32, db: u32, op: NamedOp) -> Step
    ensures { result ≡ named_step node db op }
{
    let op = match op {
        NamedOp::Lock(key) => ClientOp::Lock { db, key },
        NamedOp::Read(key) => ClientOp::Read { db, key },
        NamedOp::Unlock(key) => ClientOp::Unlock { db, key },
        NamedOp::Store(key, value) => ClientOp::Store { db, key, value },
        NamedOp::Apply { key, function, arg } => ClientOp::Apply {
            db,
            key,
            function,
            arg,
        },
        NamedOp::Commit(writes) => ClientOp::Commit { db, writes },
        NamedOp::Vacuum => return Step::Vacuum { node, db },
    };
    Step::Client { node, op }
}

/// The nodes that run.
fn running_nodes(alloc: Global, world: &World) -> Result<Items<u32>, NoMemory>
    ensures { IfOk result (λ nodes. nodes ≡ running_nodes world.now.config world.now.cluster) }
{
    let mut nodes = Items::empty(alloc);
    for node in 0..world.config().nodes {
        if world.is_up(node) {
            nodes.push(node)?;
        }
    }
    Ok(nodes)
}

/// The step that a command is.
pub fn command_step(
    alloc: Global,
    world: &World,
    node: u32,
    command: &StepCommand,
) -> Result<Step, NoMemory>
    ensures { IfOk result (λ step. step ≡ command_step world.now.config world.now.cluster node command.now) }
{
    let op = match command {
        StepCommand::Disable => return Ok(Step::Able { node, able: false }),
        StepCommand::Enable => return Ok(Step::Able { node, able: true }),
        StepCommand::ReadKey { db, key } => ClientOp::Read {
            db: number_in_step(world.config(), db),
            key: key.copy()?,
        },
        StepCommand::WriteKey { db, key, value } => ClientOp::Write {
            db: number_in_step(world.config(), db),
            key: key.copy()?,
            value: value.copy()?,
        },
        StepCommand::DeleteKey { db, key } => ClientOp::Write {
            db: number_in_step(world.config(), db),
            key: key.copy()?,
            value: Value::empty(alloc),
        },
        StepCommand::PTrans { db, writes } => ClientOp::Commit {
            db: number_in_step(world.config(), db),
            writes: writes.duplicate()?,
        },
        StepCommand::Recover => {
            let members = running_nodes(alloc, world)?;
            return Ok(Step::Recover { node, members });
        }
    };
    Ok(Step::Client { node, op })
}
