//! What the nodes of a cluster are to do, each by itself.
ghost use Rattle.std.specs.Prelude.{◌≡◌, IfOk};

use ct_values::client::ClientOp;
use ct_values::config::Config;
use ct_values::copies::Duplicate;
use ct_values::items::Items;
use ct_values::memory::NoMemory;

/// What a node does next.
#[derive(Debug, PartialEq, Eq)]
pub enum PlanItem {
    /// A client of the node asks this.
    Call(ClientOp),
    /// The node leads a recovery of these members.
    Round(Items<u32>),
}

impl Drop for PlanItem {
    /// All that it holds is let go.
    fn drop(self) {
        match self {
            PlanItem::Call(_) => {}
            PlanItem::Round(_) => {}
        }
    }
}

impl PlanItem {
    /// A copy that equals it.
    pub fn copy(&self) -> Result<PlanItem, NoMemory>
        ensures { IfOk result (λ x. x ≡ self.now) }
    {
        match self {
            PlanItem::Call(op) => Ok(PlanItem::Call(op.copy()?)),
            PlanItem::Round(members) => Ok(PlanItem::Round(members.duplicate()?)),
        }
    }
}

impl Duplicate for PlanItem {
    fn duplicate(&self) -> Result<PlanItem, NoMemory> {
        self.copy()
    }
}

/// What each node of a cluster does, in order.
#[derive(Debug, PartialEq, Eq)]
pub struct Plan {
    pub config: Config,
    /// One list a node, in the order of their numbers.
    pub scripts: Items<Items<PlanItem>>,
    /// Whether the nodes talk over sockets.
    pub net: bool,
}

impl Drop for Plan {
    /// All that it holds is let go.
    fn drop(self) {
        let Plan {
            config: _,
            scripts: _,
            net: _,
        } = self;
    }
}

impl Plan {
    /// A copy that equals it.
    pub fn copy(&self) -> Result<Plan, NoMemory>
        ensures { IfOk result (λ x. x ≡ self.now) }
    {
        Ok(Plan {
            config: self.config.copy()?,
            scripts: self.scripts.duplicate()?,
            net: self.net,
        })
    }
}

impl Duplicate for Plan {
    fn duplicate(&self) -> Result<Plan, NoMemory> {
        self.copy()
    }
}
