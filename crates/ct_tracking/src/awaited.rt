//! Nodes that are asked for an acknowledgement, and those that have not given it yet.
ghost use Rattle.std.specs.Prelude.{◌≡◌, ◌≤◌, ◌<◌, ◌+◌, ◌↔◌, nat_eq, IsTrue, slice_get, Some, IfOk, OnOk, OnErr, [], length};
ghost use Rattle.std.specs.List.{list_any};
ghost use Rattle.std.specs.List.Sorted.{IsStrictlyIncreasing};
ghost use Rattle.std.specs.Vec.{vec_capacity, vec_len};
ghost use Rattle.ct_values.specs.Words.{others};
ghost use Rattle.ct_tracking.specs.Awaited.{AreAsked, acknowledged, asked_again, asked_too, asking, below, including, is_last};

use ct_values::copies::Duplicate;
use ct_values::memory::NoMemory;
use ct_values::nodes::is_among;
use std::alloc::Global;
use std::marker::Model;

/// The nodes that are asked, and those of them that are missing: that have not acknowledged yet. It has room for all of
/// them to be missing, so that to ask again takes no memory.
#[derive(Debug)]
pub struct Awaited {
    asked: Vec<u32>,
    missing: Vec<u32>,
}

impl Drop for Awaited {
    /// All that it holds is let go.
    fn drop(self) {
        let Awaited {
            asked: _,
            missing: _,
        } = self;
    }
}

impl Model for Awaited {
    ghost use Rattle.std.specs.Prelude.{length, ◌≤◌};
    ghost use Rattle.std.specs.Vec.{vec_capacity};
    ghost use Rattle.ct_tracking.specs.Awaited.{Awaited, AreAsked};
    ghost use Rattle.ct_tracking.specs.TrackingCode.{awaited_code};

    ghost Value = { Awaited };

    ghost coded = { awaited_code };

    ghost view = { λ a. record { asked = a.asked.items; missing = a.missing.items } };

    ghost invariant = { λ a. AreAsked a.asked.items a.missing.items × (length a.asked.items ≤ vec_capacity a.missing) };
}

/// How many of the first nodes are below this one.
fn below(nodes: &[u32], node: u32) -> usize
    ensures value { result ≡ below node nodes.now }
    ensures in_range { result ≤ length nodes.now }
{
    for i in 0..nodes.len() {
        if nodes[i] >= node {
            return i;
        }
    }
    nodes.len()
}

/// Is the node at this place?
fn is_at(nodes: &[u32], at: usize, node: u32) -> bool
    ensures { IsTrue result ↔ (slice_get nodes.now at ≡ Some node) }
{
    match nodes.get(at) {
        Some(n) => *n == node,
        None => false,
    }
}

/// Puts a node in its place, for which there is room, unless it is there.
#[tactic(auto, using(crate::proofs::Nodes::including_there, crate::proofs::Nodes::including_new))]
fn include(nodes: &mut Vec<u32>, node: u32)
    requires { vec_len nodes.old < vec_capacity nodes.old }
    ensures nodes { nodes.new.items ≡ including node nodes.old.items }
    ensures longer { length nodes.new.items ≤ length nodes.old.items + 1 }
{
    let at = below(nodes, node);
    if is_at(nodes, at, node) {
        return;
    }
    match nodes.insert(at, node) {
        Ok(()) => {}
        Err(_) => unreachable!(),
    }
}

/// Keeps the nodes but this one.
fn leave_out(nodes: &mut Vec<u32>, node: u32)
    ensures kept { nodes.new.items ≡ others node nodes.old.items }
    ensures room { vec_capacity nodes.new ≡ vec_capacity nodes.old }
{
    nodes.retain(|n| *n != node);
}

/// These nodes, with room for so many.
fn with_room(alloc: Global, nodes: &[u32], room: usize) -> Result<Vec<u32>, NoMemory>
    ensures nodes { IfOk result (λ v. v.items ≡ nodes.now) }
    ensures room { IfOk result (λ v. room ≤ vec_capacity v) }
{
    let mut list = Vec::with_capacity(alloc, room)?;
    list.extend_from_slice(nodes)?;
    Ok(list)
}

/// The list becomes these nodes, for which it has room.
fn refill(list: &mut Vec<u32>, nodes: &[u32])
    requires { length nodes.now ≤ vec_capacity list.old }
    ensures nodes { list.new.items ≡ nodes.now }
    ensures room { vec_capacity list.old ≤ vec_capacity list.new }
{
    list.clear();
    match list.extend_from_slice(nodes) {
        Ok(()) => {}
        Err(_) => unreachable!(),
    }
}

impl Awaited {
    /// Nobody is asked. It takes no memory.
    #[tactic(auto, using(crate::proofs::Nodes::asked_nobody))]
    pub fn nobody(alloc: Global) -> Awaited
        ensures { result ≡ asking [] }
    {
        Awaited {
            asked: Vec::new(alloc),
            missing: Vec::new(alloc),
        }
    }

    /// These nodes are asked, and all of them are missing. They ascend.
    #[tactic(auto, using(crate::proofs::Nodes::asked_all))]
    pub fn begin(alloc: Global, nodes: &[u32]) -> Result<Awaited, NoMemory>
        requires { IsStrictlyIncreasing nodes.now }
        ensures { IfOk result (λ a. a ≡ asking nodes.now) }
    {
        Ok(Awaited {
            asked: Vec::from_slice(alloc, nodes)?,
            missing: with_room(alloc, nodes, nodes.len())?,
        })
    }

    /// One more node is asked, if it is not yet; it is not missing by that. Nothing changes where memory runs out.
    #[tactic(auto, using(crate::proofs::Nodes::asked_with))]
    pub fn add(&mut self, node: u32) -> Result<(), NoMemory>
        ensures ok { OnOk result (self.new ≡ asked_too node self.old) }
        ensures err { OnErr result (self.new ≡ self.old) }
    {
        self.missing.reserve(self.asked.as_slice().len() + 1)?;
        self.asked.reserve(1)?;
        include(&mut self.asked, node);
        Ok(())
    }

    /// A node acknowledged: it is not missing any more. True exactly where it was the one node that was. It takes no
    /// memory.
    #[tactic(auto, using(crate::proofs::Nodes::asked_without, crate::proofs::Nodes::others_all))]
    pub fn ack(&mut self, node: u32) -> bool
        ensures after { self.new ≡ acknowledged node self.old }
        ensures last { result ≡ is_last node self.old.missing }
    {
        if !self.is_missing(node) {
            return false;
        }
        leave_out(&mut self.missing, node);
        self.missing.is_empty()
    }

    /// All that are asked are missing once more. It takes no memory.
    #[tactic(auto, using(crate::proofs::Nodes::asked_once_more))]
    pub fn ask_again(&mut self)
        ensures { self.new ≡ asked_again self.old }
    {
        refill(&mut self.missing, self.asked.as_slice());
    }

    /// Nobody is asked any more. It takes no memory.
    #[tactic(auto, using(crate::proofs::Nodes::asked_nobody))]
    pub fn clear(&mut self)
        ensures { self.new ≡ asking [] }
    {
        self.asked.clear();
        self.missing.clear();
    }

    /// The nodes that are asked, ascending.
    pub fn asked(&self) -> &[u32]
        ensures nodes { result.now ≡ self.now.asked }
        ensures ascending { IsStrictlyIncreasing self.now.asked }
    {
        self.asked.as_slice()
    }

    /// The nodes that have not acknowledged yet, ascending; each is asked.
    pub fn missing(&self) -> &[u32]
        ensures nodes { result.now ≡ self.now.missing }
        ensures asked { AreAsked self.now.asked self.now.missing }
    {
        self.missing.as_slice()
    }

    /// Is the node missing?
    pub fn is_missing(&self, node: u32) -> bool
        ensures { result ≡ list_any (nat_eq node) self.now.missing }
    {
        is_among(self.missing.as_slice(), node)
    }

    /// A copy that equals it. It takes no memory where nobody is asked.
    pub fn copy(&self) -> Result<Awaited, NoMemory>
        ensures { IfOk result (λ a. a ≡ self.now) }
    {
        let alloc = *self.asked.allocator();
        if self.asked.is_empty() {
            return Ok(Awaited::nobody(alloc));
        }
        Ok(Awaited {
            asked: Vec::from_slice(alloc, self.asked.as_slice())?,
            missing: with_room(alloc, self.missing.as_slice(), self.asked.len())?,
        })
    }
}

impl Duplicate for Awaited {
    fn duplicate(&self) -> Result<Awaited, NoMemory> {
        self.copy()
    }
}
