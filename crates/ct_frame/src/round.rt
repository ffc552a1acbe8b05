//! Rounds of recovery: where a node and the leader stand, and what a round gathers and hands out.
ghost use Rattle.std.specs.Prelude.{◌≡◌, IfOk};

use crate::frame::{Assigned, PTable, TableRow};
use ct_values::address::Address;
use ct_values::copies::Duplicate;
use ct_values::items::Items;
use ct_values::memory::NoMemory;

/// Where a node stands, and in which generation.
#[derive(Clone, Copy, Debug, PartialEq, Eq)]
pub enum Phase {
    /// It belongs to no generation.
    Idle,
    /// It serves clients.
    Serving(u64),
    /// It waits for the last locks to end.
    Freezing(u64),
    /// It holds still until the leader tells it what to hold.
    Frozen(u64),
    /// It holds what the leader told it, and serves no clients yet.
    Installed(u64),
}

impl Phase {
    /// A copy that equals it.
    pub fn copy(&self) -> Result<Phase, NoMemory>
        ensures { result ≡ Ok self.now }
    {
        Ok(*self)
    }
}

impl Duplicate for Phase {
    fn duplicate(&self) -> Result<Phase, NoMemory> {
        self.copy()
    }
}

/// What the leader of a round waits for.
#[derive(Clone, Copy, Debug, PartialEq, Eq)]
pub enum Stage {
    /// For members to freeze.
    Freezing,
    /// For what members hold.
    Pulling,
    /// For members to install.
    Installing,
    /// For nothing.
    Completed,
}

impl Stage {
    /// A copy that equals it.
    pub fn copy(&self) -> Result<Stage, NoMemory>
        ensures { result ≡ Ok self.now }
    {
        Ok(*self)
    }
}

impl Duplicate for Stage {
    fn duplicate(&self) -> Result<Stage, NoMemory> {
        self.copy()
    }
}

/// What one member holds when it is frozen. The rows ascend by database and key, the persistent databases by place, and
/// the addresses too.
#[derive(Debug, Drop, PartialEq, Eq)]
pub struct Pull {
    /// The member.
    pub node: u32,
    /// The generation from which its volatile databases come, or 0.
    pub vbase: u64,
    /// The same of its persistent databases.
    pub pbase: u64,
    pub table: Items<TableRow>,
    pub ptables: Items<PTable>,
    pub addresses: Items<Address>,
}

impl Pull {
    /// A copy that equals it.
    pub fn copy(&self) -> Result<Pull, NoMemory>
        ensures { IfOk result (λ x. x ≡ self.now) }
    {
        Ok(Pull {
            node: self.node,
            vbase: self.vbase,
            pbase: self.pbase,
            table: self.table.duplicate()?,
            ptables: self.ptables.duplicate()?,
            addresses: self.addresses.duplicate()?,
        })
    }
}

impl Duplicate for Pull {
    fn duplicate(&self) -> Result<Pull, NoMemory> {
        self.copy()
    }
}

/// What every member is to hold after a round.
#[derive(Debug, Drop, PartialEq, Eq)]
pub struct PushBody {
    pub members: Items<u32>,
    pub table: Items<TableRow>,
    pub ptables: Items<PTable>,
    pub assigned: Items<Assigned>,
    /// The generation from which the rows of the volatile databases come, or 0.
    pub vparent: u64,
    /// The same of the persistent databases.
    pub pparent: u64,
}

impl PushBody {
    /// A copy that equals it.
    pub fn copy(&self) -> Result<PushBody, NoMemory>
        ensures { IfOk result (λ x. x ≡ self.now) }
    {
        Ok(PushBody {
            members: self.members.duplicate()?,
            table: self.table.duplicate()?,
            ptables: self.ptables.duplicate()?,
            assigned: self.assigned.duplicate()?,
            vparent: self.vparent,
            pparent: self.pparent,
        })
    }
}

impl Duplicate for PushBody {
    fn duplicate(&self) -> Result<PushBody, NoMemory> {
        self.copy()
    }
}
