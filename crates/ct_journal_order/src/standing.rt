//! The list of all entries, as far as it stands.
ghost use Rattle.std.specs.Prelude.{◌≡◌, ◌<◌, ◌+◌, ◌^◌, ◌↔◌, IsTrue, IfOk, IfSome, [], length};
ghost use Rattle.ct_journal.specs.Order.{taken_of};
ghost use Rattle.ct_journal_order.specs.Demands.{Advances, Ends, HasAll, IsMet, Passes, demands_at, front_with, next_demand, none_stands};

use crate::demand::Demand;
use ct_values::items::Items;
use ct_values::memory::NoMemory;
use std::alloc::Global;
use std::marker::Model;

/// How many entries of each node stand in the list, and the ticket that was given last.
#[derive(Debug)]
pub struct Standing {
    taken: Vec<usize>,
    ticket: u64,
}

impl Drop for Standing {
    /// All that it holds is let go.
    fn drop(self) {
        let Standing {
            taken: _,
            ticket: _,
        } = self;
    }
}

impl Model for Standing {
    ghost use Rattle.ct_journal.specs.Order.{Front};

    ghost Value = { Front };

    ghost view = { λ a. record { taken = a.taken.items; ticket = a.ticket } };
}

/// What the entries of the node wait for.
fn list_at(demands: &[Items<Demand>], node: usize) -> &[Demand]
    ensures { result.now ≡ demands_at demands.now node }
{
    match demands.get(node) {
        Some(list) => list.as_slice(),
        None => &[],
    }
}

impl Standing {
    /// Nothing stands.
    fn none(alloc: Global, nodes: usize) -> Result<Standing, NoMemory>
        ensures { IfOk result (λ f. f ≡ none_stands nodes) }
    {
        let mut taken = Vec::new(alloc);
        for _ in 0..nodes {
            taken.push(0)?;
        }
        Ok(Standing { taken, ticket: 1 })
    }

    /// How many entries of the node stand?
    #[tactic(auto, unfolding(ct_journal::specs::Order::taken_of, ct_rules_node::specs::Node::or_zero))]
    fn taken(&self, node: usize) -> usize
        ensures { result ≡ taken_of self.now node }
    {
        match self.taken.get(node) {
            Some(count) => *count,
            None => 0,
        }
    }

    /// Is the demand met?
    fn meets(&self, demand: Demand) -> bool
        ensures { IsTrue result ↔ IsMet self.now demand }
    {
        match demand {
            Demand::Free => true,
            Demand::Entries { node, count } => count <= self.taken(node as usize),
            Demand::Ticket(ticket) => 0 < ticket && ticket - 1 == self.ticket,
            Demand::Never => false,
        }
    }

    /// What the next entry of the node waits for, if there is one.
    #[tactic(auto, using(std::proofs::lemmas::Option::slice_get_within))]
    fn next(&self, demands: &[Items<Demand>], node: usize) -> Option<Demand>
        ensures next { result ≡ next_demand demands.now self.now node }
        ensures room { IfSome result (λ d. taken_of self.now node + 1 < 2 ^ 64) }
    {
        match list_at(demands, node).get(self.taken(node)) {
            Some(demand) => Some(*demand),
            None => None,
        }
    }

    /// Puts an entry of the node that waits so.
    #[tactic(auto, unfolding(ct_journal::specs::Order::taken_of, ct_rules_node::specs::Node::or_zero))]
    fn put(&mut self, node: usize, demand: Demand)
        requires node { node < length self.old.taken }
        requires room { taken_of self.old node + 1 < 2 ^ 64 }
        ensures { self.new ≡ front_with node demand self.old }
    {
        let taken = self.taken(node);
        self.taken[node] = taken + 1;
        if let Demand::Ticket(ticket) = demand {
            self.ticket = ticket;
        }
    }

    /// Puts the next entry of the node, where it may stand. Is there one?
    #[tactic(auto, using(crate::proofs::Meeting::held_none, crate::proofs::Meeting::held_unmet, crate::proofs::Meeting::same_size))]
    fn advance(&mut self, demands: &[Items<Demand>], node: usize) -> bool
        requires { node < length self.old.taken }
        ensures advances { Advances demands.now node result self.old self.new }
        ensures count { length self.new.taken ≡ length self.old.taken }
    {
        let Some(demand) = self.next(demands, node) else {
            return false;
        };
        if !self.meets(demand) {
            return false;
        }
        self.put(node, demand);
        true
    }

    /// Puts the next entry of each node, where it may stand, and notes the node. Was there one?
    fn pass(&mut self, demands: &[Items<Demand>], order: &mut Vec<u32>) -> Result<bool, NoMemory>
        requires size { length self.old.taken ≡ length demands.now }
        requires few { length demands.now < 2 ^ 32 }
        ensures { IfOk result (λ some. Passes demands.now some self.old order.old.items self.new order.new.items) }
    {
        let mut some = false;
        for node in 0..demands.len() {
            if self.advance(demands, node) {
                order.push(node as u32)?;
                some = true;
            }
        }
        Ok(some)
    }

    /// Puts entries until none may stand next, and notes their nodes.
    pub fn all(
        alloc: Global,
        demands: &[Items<Demand>],
        order: &mut Vec<u32>,
    ) -> Result<Standing, NoMemory>
        requires few { length demands.now < 2 ^ 32 }
        requires none { order.old.items ≡ [] }
        ensures { IfOk result (λ g. Ends demands.now g order.new.items) }
    {
        let mut standing = Standing::none(alloc, demands.len())?;
        let mut some = true;
        while some {
            some = standing.pass(demands, order)?;
        }
        Ok(standing)
    }

    /// Do all entries stand?
    #[tactic(auto, using(crate::proofs::Meeting::not_taken))]
    pub fn has_all(&self, demands: &[Items<Demand>]) -> bool
        requires { length self.now.taken ≡ length demands.now }
        ensures { IsTrue result ↔ HasAll demands.now self.now }
    {
        for node in 0..demands.len() {
            if self.taken(node) != list_at(demands, node).len() {
                return false;
            }
        }
        true
    }
}
