//! The map of virtual node numbers.
ghost use Rattle.std.specs.Prelude.{ℕ, ◌≡◌, ◌==◌, IfOk, List, Some, nat_eq};
ghost use Rattle.std.specs.List.{IsDistinct, list_any};
ghost use Rattle.ct_values.specs.Members.{repeat, AreMembers, Maps, member_of};

use crate::hash::hash;
use crate::key::Key;
use crate::memory::NoMemory;
use std::alloc::{AllocError, Global};
use std::marker::Model;
use thiserror::Error;

/// Why numbers of nodes are no map. `Empty` and `Repeated` come before want of memory.
#[derive(Debug, Drop, PartialEq, Eq, Error)]
pub enum MapFault {
    /// There is no member.
    #[error("no member")]
    Empty,
    /// The first number that repeats an earlier one.
    #[error("the member {0} twice")]
    Repeated(u32),
    #[error("want of memory")]
    NoMemory,
}

impl From<AllocError> for MapFault {
    ghost use Rattle.ct_values.specs.declared.map.MapFault.TheVariants.{NoMemory as Want};

    ghost from_gives = { λ _ e. e ≡ Want };

    fn from(_e: AllocError) -> MapFault {
        MapFault::NoMemory
    }
}

/// The members that share the keys: the numbers of one node or more, none of them twice, in an order that counts.
#[derive(Debug)]
pub struct VnnMap {
    list: Vec<u32>,
}

impl Drop for VnnMap {
    /// All that it holds is let go.
    fn drop(self) {
        let VnnMap { list: _ } = self;
    }
}

impl Model for VnnMap {
    ghost use Rattle.std.specs.Prelude.{List, ℕ};
    ghost use Rattle.ct_values.specs.Members.{AreMembers};

    ghost Value = { List ℕ };

    ghost view = { λ a. a.list.items };

    ghost invariant = { λ a. AreMembers a.list.items };
}

fn stands_in(before: &[u32], member: u32) -> bool
    ensures { result ≡ list_any (λ m. member == m) before.now }
{
    before.iter().any(|m| member == *m)
}

/// The first member that repeats an earlier one.
#[tactic(auto, using(crate::proofs::RepeatedNumbers::repeat_more))]
fn repeat(members: &[u32]) -> Option<u32>
    ensures { result ≡ repeat members.now }
{
    for (i, member) in members.iter().enumerate() {
        if stands_in(&members[..i], *member) {
            return Some(*member);
        }
    }
    None
}

impl VnnMap {
    /// The map of these members. Each fault comes exactly where it holds, and want of memory only where none does.
    pub fn new(alloc: Global, members: &[u32]) -> Result<VnnMap, MapFault>
        ensures { Maps result members.now }
    {
        if members.is_empty() {
            return Err(MapFault::Empty);
        }
        if let Some(member) = repeat(members) {
            return Err(MapFault::Repeated(member));
        }
        let list = Vec::from_slice(alloc, members)?;
        Ok(VnnMap { list })
    }

    /// The members in their order.
    pub fn members(&self) -> &[u32]
        ensures members { result.now ≡ self.now }
        ensures are_members { AreMembers self.now }
    {
        self.list.as_slice()
    }

    /// A copy that equals it.
    pub fn copy(&self) -> Result<VnnMap, NoMemory>
        ensures { IfOk result (λ x. x ≡ self.now) }
    {
        let list = self.list.clone()?;
        Ok(VnnMap { list })
    }
}

/// The node that knows where the record of a key is.
pub fn lmaster(map: &VnnMap, key: &Key) -> u32
    ensures { member_of map.now key.now ≡ Some result }
{
    let members = map.members();
    members[hash(key) as usize % members.len()]
}

/// The members of a map all differ.
pub fn members_differ()
    ensures { (members : List ℕ) → AreMembers members → IsDistinct nat_eq members }
{}
