//! What a cluster is made of: its nodes, its databases and its addresses.
ghost use Rattle.std.specs.Prelude.{◌≡◌, ◌<◌, ◌^◌, ◌∷◌, [], IfOk, length};
ghost use Rattle.ct_values.specs.Address.{same_address};
ghost use Rattle.ct_values.specs.Config.{Configures, lock_db, repeated_address, repeated_name, same_name};
ghost use Rattle.std.specs.List.{list_any};

use crate::address::Address;
use crate::copies::Duplicate;
use crate::items::Items;
use crate::memory::{BytesFault, NoMemory};
use crate::name::DbName;
use std::alloc::{AllocError, AllocFailed, Global};
use thiserror::Error;

/// What becomes of a database when its nodes stop, and who may write it.
#[derive(Clone, Copy, Debug, PartialEq, Eq)]
pub enum DbKind {
    /// Its records are lost when all nodes have stopped.
    Volatile,
    /// As `Volatile`, and its records may be read on many nodes at once.
    ReadOnly,
    /// Each node keeps all of it, and commits write it.
    Persistent,
}

impl DbKind {
    /// A copy that equals it.
    pub fn copy(&self) -> Result<DbKind, NoMemory>
        ensures { result ≡ Ok self.now }
    {
        Ok(*self)
    }
}

impl Duplicate for DbKind {
    fn duplicate(&self) -> Result<DbKind, NoMemory> {
        self.copy()
    }
}

/// A database of a cluster.
#[derive(Debug, PartialEq, Eq)]
pub struct DbDecl {
    pub name: DbName,
    pub kind: DbKind,
}

impl Drop for DbDecl {
    /// All that it holds is let go.
    fn drop(self) {
        let DbDecl { name: _, kind: _ } = self;
    }
}

impl DbDecl {
    /// A copy that equals it.
    pub fn copy(&self) -> Result<DbDecl, NoMemory>
        ensures { IfOk result (λ x. x ≡ self.now) }
    {
        Ok(DbDecl {
            name: self.name.copy()?,
            kind: self.kind,
        })
    }
}

impl Duplicate for DbDecl {
    fn duplicate(&self) -> Result<DbDecl, NoMemory> {
        self.copy()
    }
}

/// Why a configuration is refused. Each comes before those below it.
#[derive(Debug, Drop, PartialEq, Eq, Error)]
pub enum ConfigFault {
    /// The number of nodes is not in 1 to 16.
    #[error("{0} nodes")]
    BadNodes(u32),
    /// There are above 15 databases or above 64 addresses.
    #[error("too many databases or addresses")]
    TooMany,
    /// The place, from 0, of the first name that repeats an earlier one or is `g_lock`, or, where no name does, of
    /// the first address that repeats an earlier one.
    #[error("a repetition at place {0}")]
    Repeated(u32),
    #[error("want of memory")]
    NoMemory,
}

impl From<NoMemory> for ConfigFault {
    ghost use Rattle.ct_values.specs.declared.config.ConfigFault.TheVariants.{NoMemory as Want};

    ghost from_gives = { λ _ e. e ≡ Want };

    fn from(_e: NoMemory) -> ConfigFault {
        ConfigFault::NoMemory
    }
}

impl From<AllocError> for ConfigFault {
    ghost use Rattle.ct_values.specs.declared.config.ConfigFault.TheVariants.{NoMemory as Want};

    ghost from_gives = { λ _ e. e ≡ Want };

    fn from(_e: AllocError) -> ConfigFault {
        ConfigFault::NoMemory
    }
}

impl<T: Drop> From<AllocFailed<T>> for ConfigFault {
    ghost use Rattle.ct_values.specs.declared.config.ConfigFault.TheVariants.{NoMemory as Want};

    ghost from_gives = { λ _ e. e ≡ Want };

    fn from(_e: AllocFailed<T>) -> ConfigFault {
        ConfigFault::NoMemory
    }
}

/// The name of the database that every cluster has first.
const LOCK_NAME: &[u8] = b"g_lock";

/// That database.
fn lock_db(alloc: Global) -> Result<DbDecl, NoMemory>
    ensures { IfOk result (λ d. d ≡ lock_db) }
{
    match DbName::new(alloc, LOCK_NAME) {
        Ok(name) => Ok(DbDecl {
            name,
            kind: DbKind::Volatile,
        }),
        Err(BytesFault::NoMemory) => Err(NoMemory),
        Err(BytesFault::BadLength(_) | BytesFault::BadByte(_)) => unreachable!(),
    }
}

fn is_lock_db(db: &DbDecl) -> bool
    ensures { result ≡ same_name db.now lock_db }
{
    db.name.bytes() == LOCK_NAME
}

fn has_name(before: &[DbDecl], db: &DbDecl) -> bool
    ensures { result ≡ list_any (same_name db.now) before.now }
{
    before.iter().any(|d| db.name == d.name)
}

fn has_address(before: &[Address], address: &Address) -> bool
    ensures { result ≡ list_any (same_address address.now) before.now }
{
    before.iter().any(|a| *address == *a)
}

/// The place of the first name that is `g_lock` or that of one before.
#[tactic(auto, using(crate::proofs::Repeats::repeat_more))]
fn repeated_name(dbs: &[DbDecl]) -> Option<u32>
    requires { length dbs.now < 2 ^ 32 }
    ensures { result ≡ repeated_name dbs.now }
{
    for (i, db) in dbs.iter().enumerate() {
        if is_lock_db(db) || has_name(&dbs[..i], db) {
            return Some(i as u32);
        }
    }
    None
}

/// The place of the first address that stands before.
#[tactic(auto, using(crate::proofs::Repeats::repeat_more))]
fn repeated_address(addresses: &[Address]) -> Option<u32>
    requires { length addresses.now < 2 ^ 32 }
    ensures { result ≡ repeated_address addresses.now }
{
    for (i, address) in addresses.iter().enumerate() {
        if has_address(&addresses[..i], address) {
            return Some(i as u32);
        }
    }
    None
}

/// What a cluster is made of.
#[derive(Debug, PartialEq, Eq)]
pub struct Config {
    /// How many nodes there are, from 1 to 16.
    pub nodes: u32,
    /// `g_lock`, and up to 15 more.
    pub dbs: Items<DbDecl>,
    /// Up to 64, in ascending order.
    pub addresses: Items<Address>,
}

impl Drop for Config {
    /// All that it holds is let go.
    fn drop(self) {
        let Config {
            nodes: _,
            dbs: _,
            addresses: _,
        } = self;
    }
}

impl Config {
    /// The configuration of these. `g_lock` comes before the databases, and the addresses come in ascending order.
    /// Want of memory comes only where nothing else is to be refused.
    pub fn new(
        alloc: Global,
        nodes: u32,
        mut dbs: Vec<DbDecl>,
        mut addresses: Vec<Address>,
    ) -> Result<Config, ConfigFault>
        ensures { Configures result nodes dbs.items addresses.items }
    {
        if nodes < 1 || nodes > 16 {
            return Err(ConfigFault::BadNodes(nodes));
        }
        if dbs.len() > 15 || addresses.len() > 64 {
            return Err(ConfigFault::TooMany);
        }
        if let Some(place) = repeated_name(&dbs) {
            return Err(ConfigFault::Repeated(place));
        }
        if let Some(place) = repeated_address(&addresses) {
            return Err(ConfigFault::Repeated(place));
        }
        dbs.insert(0, lock_db(alloc)?)?;
        addresses.sort()?;
        Ok(Config {
            nodes,
            dbs: Items::new(dbs),
            addresses: Items::new(addresses),
        })
    }

    /// A copy that equals it.
    pub fn copy(&self) -> Result<Config, NoMemory>
        ensures { IfOk result (λ x. x ≡ self.now) }
    {
        Ok(Config {
            nodes: self.nodes,
            dbs: self.dbs.duplicate()?,
            addresses: self.addresses.duplicate()?,
        })
    }
}

impl Duplicate for Config {
    fn duplicate(&self) -> Result<Config, NoMemory> {
        self.copy()
    }
}
