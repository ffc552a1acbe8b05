//! The place of a line: which one may come after those that were accepted, and the configuration that they make.
ghost use Rattle.std.specs.Prelude.{◌≡◌, None, IfOk, IsSome, OnErr, OnOk};
ghost use Rattle.std.specs.List.{list_any};
ghost use Rattle.ct_values.specs.Config.{lock_db, same_name};
ghost use Rattle.ct_lines.specs.Places.{Checks, IsConfigOf, IsMade, config_refusal, first_reason, is_closed, is_named, is_there, later_refusal, nothing_accepted, refusal, with_config, with_later, with_line};
ghost use Rattle.ct_lines.specs.Spelled.{IsConfig, IsInRange};

use crate::line::{ConfigLine, LineKind, LineKindFault, ScenarioLine};
use ct_values::address::Address;
use ct_values::config::{Config, ConfigFault, DbDecl};
use ct_values::items::Items;
use ct_values::memory::NoMemory;
use std::alloc::Global;
use std::marker::Model;

/// What the lines that were accepted say of the cluster, and whether more may be said.
#[derive(Debug)]
pub struct Places {
    nodes: Option<u32>,
    dbs: Items<DbDecl>,
    addresses: Items<Address>,
    begun: bool,
}

impl Drop for Places {
    /// All that it holds is let go.
    fn drop(self) {
        let Places {
            nodes: _,
            dbs: _,
            addresses: _,
            begun: _,
        } = self;
    }
}

impl Model for Places {
    ghost use Rattle.ct_lines.specs.Places as places;

    ghost Value = { places.Accepted };

    ghost view = { λ p. record { nodes = p.nodes; dbs = p.dbs; addresses = p.addresses; begun = p.begun } };

    ghost invariant = { λ p. places.IsAccepted (record { nodes = p.nodes; dbs = p.dbs; addresses = p.addresses; begun = p.begun }) };
}

fn is_lock_db(db: &DbDecl) -> bool
    ensures { result ≡ same_name db.now lock_db }
{
    db.name.bytes() == b"g_lock".as_slice()
}

fn has_name(before: &[DbDecl], db: &DbDecl) -> bool
    ensures { result ≡ list_any (same_name db.now) before.now }
{
    before.iter().any(|d| db.name == d.name)
}

/// The first of these reasons that holds.
fn first_reason(order: bool, repeat: bool, limit: bool) -> Option<LineKind>
    ensures { result ≡ first_reason order repeat limit }
{
    if order {
        Some(LineKind::Order)
    } else if repeat {
        Some(LineKind::Repeat)
    } else if limit {
        Some(LineKind::Limit)
    } else {
        None
    }
}

impl Places {
    /// Before the first line. It takes no memory.
    pub fn new(alloc: Global) -> Places
        ensures { result ≡ nothing_accepted }
    {
        Places {
            nodes: None,
            dbs: Items::empty(alloc),
            addresses: Items::empty(alloc),
            begun: false,
        }
    }

    /// How many nodes there are, once a line says it.
    pub fn nodes(&self) -> Option<u32>
        ensures { result ≡ self.now.nodes }
    {
        self.nodes
    }

    /// Did a line come that says nothing of what the cluster is?
    pub fn begun(&self) -> bool
        ensures { result ≡ self.now.begun }
    {
        self.begun
    }

    /// May no database and no address be declared?
    fn closed(&self) -> bool
        ensures { result ≡ is_closed self.now }
    {
        self.nodes.is_none() || self.begun
    }

    /// Is the name taken?
    fn named(&self, db: &DbDecl) -> bool
        ensures { result ≡ is_named db.now self.now }
    {
        is_lock_db(db) || has_name(self.dbs.as_slice(), db)
    }

    /// Is the address there already?
    fn there(&self, address: &Address) -> bool
        ensures { result ≡ is_there address.now self.now }
    {
        self.addresses.as_slice().iter().any(|a| *address == *a)
    }

    /// Why a line that says what the cluster is is refused, if it is.
    fn config_refusal(&self, what: &ConfigLine) -> Option<LineKind>
        ensures { result ≡ config_refusal what.now self.now }
    {
        match what {
            ConfigLine::Nodes(_) => first_reason(self.nodes.is_some(), false, false),
            ConfigLine::Db(db) => first_reason(self.closed(), self.named(db), self.dbs.len() >= 15),
            ConfigLine::Address(address) => first_reason(
                self.closed(),
                self.there(address),
                self.addresses.len() >= 64,
            ),
        }
    }

    /// Adds what a line says that is not refused. Without memory nothing changes.
    #[tactic(auto, using(crate::proofs::Placed::nodes_accepted, crate::proofs::Placed::db_accepted, crate::proofs::Placed::address_accepted))]
    fn add(&mut self, what: &ConfigLine) -> Result<(), NoMemory>
        requires in_range { IsConfig what.now }
        requires in_place { config_refusal what.now self.old ≡ None }
        ensures ok { OnOk result (self.new ≡ with_config what.now self.old) }
        ensures err { OnErr result (self.new ≡ self.old) }
    {
        match what {
            ConfigLine::Nodes(nodes) => self.nodes = Some(*nodes),
            ConfigLine::Db(db) => self.dbs.push(db.copy()?)?,
            ConfigLine::Address(address) => self.addresses.push(*address)?,
        }
        Ok(())
    }

    /// A line that says what the cluster is.
    #[tactic(auto, using(crate::proofs::Placed::nodes_known))]
    fn declare(&mut self, what: &ConfigLine) -> Result<(), LineKindFault>
        requires { IsConfig what.now }
        ensures check { Checks result (config_refusal what.now self.old) (with_config what.now self.old) self.old self.new }
        ensures nodes { OnOk result (IsSome self.new.nodes) }
    {
        if let Some(kind) = self.config_refusal(what) {
            return Err(LineKindFault::Kind(kind));
        }
        match self.add(what) {
            Ok(()) => Ok(()),
            Err(NoMemory) => Err(LineKindFault::NoMemory),
        }
    }

    /// Any other line.
    #[tactic(auto, using(crate::proofs::Placed::begun_known))]
    fn begin(&mut self) -> Result<(), LineKindFault>
        ensures check { Checks result (later_refusal self.old) (with_later self.old) self.old self.new }
        ensures nodes { OnOk result (IsSome self.new.nodes) }
    {
        if self.nodes.is_none() {
            return Err(LineKindFault::Kind(LineKind::Order));
        }
        self.begun = true;
        Ok(())
    }

    /// Accepts the line after those that were accepted, or says why not: it is out of its order, it names what is there
    /// already, or there are as many of its kind as there may be. A refusal changes nothing, and so does want of memory,
    /// which comes only where the line is not refused.
    pub fn check(&mut self, line: &ScenarioLine) -> Result<(), LineKindFault>
        requires { IsInRange line.now }
        ensures check { Checks result (refusal line.now self.old) (with_line line.now self.old) self.old self.new }
        ensures nodes { OnOk result (IsSome self.new.nodes) }
    {
        match line {
            ScenarioLine::Config(what) => self.declare(what),
            ScenarioLine::Change(_) => self.begin(),
            ScenarioLine::ByName { .. } => self.begin(),
            ScenarioLine::Settle(_) => self.begin(),
            ScenarioLine::Traverse(_) => self.begin(),
            ScenarioLine::Ctdb { .. } => self.begin(),
        }
    }

    /// The configuration of what was accepted, once a line says how many nodes there are. A cluster opens with it.
    #[tactic(auto, using(crate::proofs::Placed::made_of))]
    pub fn config(&self, alloc: Global) -> Result<Config, NoMemory>
        requires { IsSome self.now.nodes }
        ensures exact { IfOk result (λ c. IsConfigOf self.now c) }
        ensures made { IfOk result (λ c. IsMade c) }
    {
        let Some(nodes) = self.nodes else {
            unreachable!()
        };
        let dbs = self.dbs.copy(alloc)?.into_vec();
        let addresses = self.addresses.copy(alloc)?.into_vec();
        match Config::new(alloc, nodes, dbs, addresses) {
            Ok(config) => Ok(config),
            Err(ConfigFault::NoMemory) => Err(NoMemory),
            Err(ConfigFault::BadNodes(_) | ConfigFault::TooMany | ConfigFault::Repeated(_)) =>
                unreachable!(),
        }
    }
}
