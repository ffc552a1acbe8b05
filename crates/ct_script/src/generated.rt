//! A cluster that is generated: so many nodes, and a database of each kind.
ghost use Rattle.std.specs.Prelude.{◌≡◌, ◌≤◌, None, length, IfOk};
ghost use Rattle.ct_values.specs.Name.{bad_byte};
ghost use Rattle.ct_script.specs.Generated.{each_kind, generated_config};

use ct_values::config::{Config, ConfigFault, DbDecl, DbKind};
use ct_values::memory::{BytesFault, NoMemory};
use ct_values::name::DbName;
use std::alloc::Global;

/// A database of this name, which is one.
fn database(alloc: Global, name: &[u8], kind: DbKind) -> Result<DbDecl, NoMemory>
    requires some { 1 ≤ length name.now }
    requires few { length name.now ≤ 63 }
    requires plain { bad_byte name.now ≡ None }
    ensures { IfOk result (λ d. d ≡ record { name = name.now; kind = kind }) }
{
    match DbName::new(alloc, name) {
        Ok(name) => Ok(DbDecl { name, kind }),
        Err(BytesFault::BadLength(_)) => unreachable!(),
        Err(BytesFault::BadByte(_)) => unreachable!(),
        Err(BytesFault::NoMemory) => Err(NoMemory),
    }
}

/// A database of each kind.
fn each_kind(alloc: Global) -> Result<Vec<DbDecl>, NoMemory>
    ensures { IfOk result (λ dbs. dbs.items ≡ each_kind) }
{
    let mut dbs = Vec::new(alloc);
    dbs.push(database(alloc, b"t", DbKind::Volatile)?)?;
    dbs.push(database(alloc, b"r", DbKind::ReadOnly)?)?;
    dbs.push(database(alloc, b"p", DbKind::Persistent)?)?;
    Ok(dbs)
}

/// So many nodes, and a database of each kind.
#[tactic(auto, using(crate::proofs::Faultless::made, crate::proofs::Faultless::faultless))]
pub fn generated_config(alloc: Global, nodes: u32) -> Result<Config, NoMemory>
    requires some { 1 ≤ nodes }
    requires few { nodes ≤ 8 }
    ensures { IfOk result (λ c. c ≡ generated_config nodes) }
{
    let dbs = each_kind(alloc)?;
    match Config::new(alloc, nodes, dbs, Vec::new(alloc)) {
        Ok(config) => Ok(config),
        Err(ConfigFault::NoMemory) => Err(NoMemory),
        Err(ConfigFault::BadNodes(_)) => unreachable!(),
        Err(ConfigFault::TooMany) => unreachable!(),
        Err(ConfigFault::Repeated(_)) => unreachable!(),
    }
}
