//! The members of a node's generation.
ghost use Rattle.std.specs.Prelude.{◌≡◌, ◌≢◌, [], IfOk};
ghost use Rattle.std.specs.List.Sorted.{IsStrictlyIncreasing};
ghost use Rattle.ct_values.specs.Words.{others};
ghost use Rattle.ct_rules_node.specs.Node.{is_among, master_of};

use ct_values::copies::Duplicate;
use ct_values::key::Key;
use ct_values::map::{MapFault, VnnMap, lmaster};
use ct_values::memory::NoMemory;
use std::alloc::Global;
use std::marker::Model;

/// The members, which share the keys; a node of no generation has none. They ascend.
pub struct Members {
    alloc: Global,
    map: Option<VnnMap>,
}

impl Drop for Members {
    /// All that it holds is let go.
    fn drop(self) {
        let Members { alloc: _, map: _ } = self;
    }
}

impl Model for Members {
    ghost use Rattle.std.specs.Prelude.{List, ℕ};
    ghost use Rattle.std.specs.List.Sorted.{IsStrictlyIncreasing};
    ghost use Rattle.ct_node_state.specs.Whole.{or_nobody};

    ghost Value = { List ℕ };

    ghost view = { λ m. or_nobody m.map };

    ghost invariant = { λ m. IsStrictlyIncreasing (or_nobody m.map) };
}

/// Keeps the nodes but this one.
fn leave_out(nodes: &mut Vec<u32>, node: u32)
    ensures { nodes.new.items ≡ others node nodes.old.items }
{
    nodes.retain(|n| *n != node);
}

impl Members {
    /// No members. It takes no memory.
    #[tactic(auto, using(crate::proofs::Differing::none_ascend))]
    pub fn none(alloc: Global) -> Members
        ensures { result ≡ [] }
    {
        Members { alloc, map: None }
    }

    /// These members. They ascend, and there is at least one.
    #[tactic(auto, using(crate::proofs::Differing::unrepeated))]
    pub fn new(alloc: Global, members: &[u32]) -> Result<Members, NoMemory>
        requires ascending { IsStrictlyIncreasing members.now }
        requires some { members.now ≢ [] }
        ensures { IfOk result (λ m. m ≡ members.now) }
    {
        match VnnMap::new(alloc, members) {
            Ok(map) => Ok(Members {
                alloc,
                map: Some(map),
            }),
            Err(MapFault::NoMemory) => Err(NoMemory),
            Err(MapFault::Empty) => unreachable!(),
            Err(MapFault::Repeated(_)) => unreachable!(),
        }
    }

    /// The members in their order.
    pub fn as_slice(&self) -> &[u32]
        ensures members { result.now ≡ self.now }
        ensures ascending { IsStrictlyIncreasing self.now }
    {
        match &self.map {
            Some(map) => map.members(),
            None => &[],
        }
    }

    /// The location master of a key: the member that its hash picks.
    #[tactic(auto, unfolding(ct_rules_node::specs::Node::master_of, ct_rules_node::specs::Node::or_zero))]
    pub fn master_of(&self, key: &Key) -> u32
        ensures { result ≡ master_of self.now key.now }
    {
        match &self.map {
            Some(map) => lmaster(map, key),
            None => 0,
        }
    }

    /// Is the node a member?
    #[tactic(auto, unfolding(ct_rules_node::specs::Node::is_among))]
    pub fn has(&self, node: u32) -> bool
        ensures { result ≡ is_among node self.now }
    {
        self.as_slice().iter().any(|n| node == *n)
    }

    /// The members but this node. They ascend.
    #[tactic(auto, using(ct_tracking::proofs::Nodes::ascends_others))]
    pub fn others(&self, node: u32) -> Result<Vec<u32>, NoMemory>
        ensures others { IfOk result (λ v. v.items ≡ others node self.now) }
        ensures ascending { IsStrictlyIncreasing (others node self.now) }
    {
        let mut list = Vec::from_slice(self.alloc, self.as_slice())?;
        leave_out(&mut list, node);
        Ok(list)
    }

    /// A copy that equals it.
    pub fn copy(&self) -> Result<Members, NoMemory>
        ensures { IfOk result (λ m. m ≡ self.now) }
    {
        let map = match &self.map {
            Some(map) => Some(map.copy()?),
            None => None,
        };
        Ok(Members {
            alloc: self.alloc,
            map,
        })
    }
}

impl Duplicate for Members {
    fn duplicate(&self) -> Result<Members, NoMemory> {
        self.copy()
    }
}
