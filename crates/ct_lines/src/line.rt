//! The lines of a scenario.
ghost use Rattle.std.specs.Prelude.{◌≡◌};

use ct_rules_cluster::step::Step;
use ct_values::address::Address;
use ct_values::client::Pair;
use ct_values::config::DbDecl;
use ct_values::items::Items;
use ct_values::key::Key;
use ct_values::memory::NoMemory;
use ct_values::name::DbName;
use ct_values::value::Value;
use std::alloc::AllocFailed;
use thiserror::Error;

/// One line of a scenario.
#[derive(Debug, Drop, PartialEq)]
pub enum ScenarioLine {
    /// What the cluster is.
    Config(ConfigLine),
    /// A step that names no database and asks nothing as a client does.
    Change(Step),
    /// A step at a node on a database that it names. The name may be of no database that was declared.
    ByName { node: u32, db: DbName, op: NamedOp },
    /// Up to so many deliveries, 1 to 100,000.
    Settle(u32),
    /// What becomes of messages of traverses.
    Traverse(TraverseLine),
    /// A command of the command line, at a node.
    Ctdb { node: u32, command: Command },
}

/// What becomes of messages of traverses. They have numbers of their own, 1 to 2^62 - 1.
#[derive(Debug, Drop, PartialEq)]
pub enum TraverseLine {
    /// Up to so many of them come, 1 to 100,000.
    Walk(u32),
    /// The message of this number comes.
    Carry(u64),
    /// The message of this number is lost.
    Lose(u64),
    /// The message of this number, which was delivered, comes again.
    Again(u64),
}

/// A line that says what the cluster is.
#[derive(Debug, Drop, PartialEq)]
pub enum ConfigLine {
    /// The number of nodes, 1 to 16.
    Nodes(u32),
    Db(DbDecl),
    /// A public address.
    Address(Address),
}

/// What is asked, on a database that is named.
#[derive(Debug, Drop, PartialEq)]
pub enum NamedOp {
    Lock(Key),
    Read(Key),
    Unlock(Key),
    Store(Key, Value),
    Apply { key: Key, function: u32, arg: Value },
    /// The pairs are 1 to 16.
    Commit(Items<Pair>),
    Vacuum,
}

/// A command of the command line.
#[derive(Debug, PartialEq)]
pub enum Command {
    Shows(ShowCommand),
    Steps(StepCommand),
    /// The records of a database in all members. It begins a traverse, or shows a persistent database at once.
    CatDb(DbName),
}

impl Drop for Command {
    /// All that it holds is let go.
    fn drop(self) {
        match self {
            Command::Shows(_) => {}
            Command::Steps(_) => {}
            Command::CatDb(_) => {}
        }
    }
}

/// A command that shows what a node has and knows. It changes nothing.
#[derive(Debug, PartialEq)]
pub enum ShowCommand {
    Pnn,
    ListNodes,
    Status,
    Ip,
    GetDbMap,
    CatTdb(DbName),
    GetDbSeqNum(DbName),
}

impl Drop for ShowCommand {
    /// All that it holds is let go.
    fn drop(self) {
        match self {
            ShowCommand::Pnn => {}
            ShowCommand::ListNodes => {}
            ShowCommand::Status => {}
            ShowCommand::Ip => {}
            ShowCommand::GetDbMap => {}
            ShowCommand::CatTdb(_) => {}
            ShowCommand::GetDbSeqNum(_) => {}
        }
    }
}

/// A command that is a step at a node.
#[derive(Debug, Drop, PartialEq)]
pub enum StepCommand {
    Disable,
    Enable,
    ReadKey { db: DbName, key: Key },
    WriteKey { db: DbName, key: Key, value: Value },
    DeleteKey { db: DbName, key: Key },
    /// The pairs are 1 to 16.
    PTrans { db: DbName, writes: Items<Pair> },
    Recover,
}

/// Why a line is refused. Each comes before those below it.
#[derive(Clone, Copy, Debug, PartialEq, Eq)]
pub enum LineKind {
    /// It has more than 65,535 bytes.
    Long,
    /// The input ends inside it.
    Unended,
    /// It has none of the forms, or a word is out of its range.
    Words,
    /// It stands out of its place.
    Order,
    /// It names what is there already.
    Repeat,
    /// There are as many of its kind as there may be.
    Limit,
}

/// Why no line was read: it is none, or memory ran out.
#[derive(Debug, Drop, PartialEq, Eq, Error)]
pub enum LineKindFault {
    #[error("no line")]
    Kind(LineKind),
    #[error("want of memory")]
    NoMemory,
}

/// Why words say nothing: they have no form of a line, or memory ran out.
#[derive(Debug, Drop, PartialEq, Eq, Error)]
pub enum WordFault {
    #[error("no form of a line")]
    NoForm,
    #[error("want of memory")]
    NoMemory,
}

impl From<NoMemory> for WordFault {
    ghost use Rattle.ct_lines.specs.declared.line.WordFault.TheVariants.{NoMemory as Want};

    ghost from_gives = { λ _ e. e ≡ Want };

    fn from(_e: NoMemory) -> WordFault {
        WordFault::NoMemory
    }
}

impl<T: Drop> From<AllocFailed<T>> for WordFault {
    ghost use Rattle.ct_lines.specs.declared.line.WordFault.TheVariants.{NoMemory as Want};

    ghost from_gives = { λ _ e. e ≡ Want };

    fn from(_e: AllocFailed<T>) -> WordFault {
        WordFault::NoMemory
    }
}
