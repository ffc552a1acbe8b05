//! All nodes of a plan, in turn.
ghost use Rattle.std.specs.Prelude.{◌≡◌, ◌<◌, ◌+◌, ◌^◌, length, IfOk, OnOk, Some, slice_get};
ghost use Rattle.ct_actor.specs.Acting.{last_entry};
ghost use Rattle.ct_call.specs.Rules.{Rules};
ghost use Rattle.ct_call.specs.Shown.{rules_of};
ghost use Rattle.ct_journal.specs.Order.{ticket_after};
ghost use Rattle.ct_journal.specs.declared.journal.JournalEntry.{JournalEntry};
ghost use Rattle.ct_script.specs.Sound.{IsSound};
ghost use Rattle.ct_troupe.specs.Stages as stages;
ghost use Rattle.ct_actor.specs.declared.seat.Seat.{Seat as Seated};

use ct_actor::node::Node;
use ct_actor::queue::{Queue, next_of, post};
use ct_actor::seat::Seat;
use ct_call::table::CallTable;
use ct_frame::event::Event;
use ct_journal::journal::Journal;
use ct_node_state::turn::CoreFault;
use ct_script::cue::Cue;
use ct_script::plan::Plan;
use ct_values::memory::NoMemory;
use std::alloc::Global;

/// A node whose journal has so many entries takes no more.
pub const MOST_ENTRIES: usize = 1_000_000;

/// The entries and the messages of all journals are together fewer than this.
const MOST: u64 = 1 << 61;

/// The nodes of a plan while it is played.
#[derive(Drop)]
pub struct Stage {
    pub seats: Vec<Seat>,
    /// The messages that wait for each node.
    pub queues: Vec<Queue>,
    /// The last ticket that was given.
    pub ticket: u64,
    /// How many entries and messages there are.
    pub count: u64,
}

/// The last ticket once the event has come.
#[tactic(auto, unfolding(ct_journal::specs::Order::ticket_after))]
fn ticket_after(event: &Event, last: u64) -> u64
    ensures { result ≡ ticket_after event.now last }
{
    match event {
        Event::BeginRound { ticket, .. } => *ticket,
        _ => last,
    }
}

impl Stage {
    /// All nodes at the opening of the cluster.
    pub fn new(alloc: Global, plan: &Plan) -> Result<Stage, NoMemory>
        requires { IsSound plan.now }
        ensures { IfOk result (λ s. (rules : Rules) → stages.IsPlaying rules plan.now (stages.seen s)) }
    {
        let mut seats = Vec::new(alloc);
        let mut queues = Vec::new(alloc);
        for node in 0..plan.config.nodes {
            let cue = Cue::first(&[]);
            let opened = Node::new(alloc, node, &plan.config)?;
            seats.push(Seat { node: opened, cue })?;
            queues.push(Queue::new(alloc))?;
        }
        Ok(Stage {
            seats,
            queues,
            ticket: 1,
            count: 0,
        })
    }

    /// What the node did last is noted. `NoMemory` also where there would be 2^61 entries and messages.
    fn note(&mut self, node: usize) -> Result<(), NoMemory>
        requires node { node < length self.old.seats.items }
        requires few { self.old.count < 2 ^ 61 }
        ensures { OnOk result ((s : Seated) (x : JournalEntry) → slice_get self.old.seats.items node ≡ Some s → last_entry s.node ≡ Some x → stages.IsNoted x (stages.seen self.old) (stages.seen self.new)) }
    {
        let Some(entry) = self.seats[node].node.entries().last() else {
            return Ok(());
        };
        self.ticket = ticket_after(&entry.event, self.ticket);
        let sent = post(&mut self.queues, entry.outs.as_slice())?;
        let count = self.count.saturating_add(1).saturating_add(sent as u64);
        if count >= MOST {
            return Err(NoMemory);
        }
        self.count = count;
        Ok(())
    }

    /// The node takes the first message that waits for it, or else the next item of its script, where one may be taken.
    /// Was there something?
    #[tactic(auto, using(crate::proofs::Staging::first_for))]
    fn take(&mut self, table: &CallTable, plan: &Plan, node: u32) -> Result<bool, CoreFault>
        requires sound { IsSound plan.now }
        requires playing { stages.IsPlaying (rules_of table.now) plan.now (stages.seen self.old) }
        requires node { node < plan.now.config.nodes }
        ensures { IfOk result (λ some. stages.TakesSome (rules_of table.now) plan.now node some (stages.seen self.old) (stages.seen self.new)) }
    {
        let place = node as usize;
        match next_of(&mut self.queues, place) {
            Some(frame) => {
                self.seats[place].take_message(table, plan, node, frame)?;
                Ok(true)
            }
            None => {
                let last = self.ticket;
                let some = self.seats[place].take_item(table, plan, node, last)?;
                Ok(some)
            }
        }
    }

    /// The node takes something, and what it does is noted. Was there something?
    #[tactic(auto, using(crate::proofs::Staging::rested, crate::proofs::Staging::noted_place))]
    fn act(&mut self, table: &CallTable, plan: &Plan, node: u32) -> Result<bool, CoreFault>
        requires sound { IsSound plan.now }
        requires playing { stages.IsPlaying (rules_of table.now) plan.now (stages.seen self.old) }
        requires node { node < plan.now.config.nodes }
        ensures { IfOk result (λ some. stages.Turns (rules_of table.now) plan.now node some (stages.seen self.old) (stages.seen self.new)) }
    {
        if !self.take(table, plan, node)? {
            return Ok(false);
        }
        self.note(node as usize)?;
        Ok(true)
    }

    /// The node has its turn. Did it take something?
    #[tactic(auto, using(crate::proofs::Staging::is_full))]
    fn turn(&mut self, table: &CallTable, plan: &Plan, node: u32) -> Result<bool, NoMemory>
        requires sound { IsSound plan.now }
        requires playing { stages.IsPlaying (rules_of table.now) plan.now (stages.seen self.old) }
        requires node { node < plan.now.config.nodes }
        ensures { IfOk result (λ some. stages.Turns (rules_of table.now) plan.now node some (stages.seen self.old) (stages.seen self.new)) }
    {
        if self.seats[node as usize].node.entries().len() >= MOST_ENTRIES {
            return Ok(false);
        }
        match self.act(table, plan, node) {
            Ok(some) => Ok(some),
            Err(_) => Err(NoMemory),
        }
    }

    /// Each node has its turn. Did one take something?
    #[tactic(auto, using(crate::proofs::Staging::passing_first, crate::proofs::Staging::passing_turn, crate::proofs::Staging::passes))]
    fn pass(&mut self, table: &CallTable, plan: &Plan) -> Result<bool, NoMemory>
        requires sound { IsSound plan.now }
        requires playing { stages.IsPlaying (rules_of table.now) plan.now (stages.seen self.old) }
        ensures { IfOk result (λ some. stages.Passes (rules_of table.now) plan.now some (stages.seen self.old) (stages.seen self.new)) }
    {
        let mut some = false;
        for node in 0..plan.config.nodes {
            if self.turn(table, plan, node)? {
                some = true;
            }
        }
        Ok(some)
    }

    /// The nodes have their turns until none takes anything.
    #[tactic(auto, using(crate::proofs::Staging::going_first, crate::proofs::Staging::going_on, crate::proofs::Staging::going_end))]
    pub fn play(&mut self, table: &CallTable, plan: &Plan) -> Result<(), NoMemory>
        requires sound { IsSound plan.now }
        requires playing { stages.IsPlaying (rules_of table.now) plan.now (stages.seen self.old) }
        ensures { OnOk result (stages.IsAtRest (rules_of table.now) plan.now (stages.seen self.new)) }
    {
        let mut some = true;
        while some {
            some = self.pass(table, plan)?;
        }
        Ok(())
    }

    /// The journals of the nodes, in their order.
    pub fn into_journals(self, alloc: Global) -> Result<Vec<Journal>, NoMemory>
        ensures { IfOk result (λ v. v.items ≡ stages.journals_of self.seats.items) }
    {
        let mut journals = Vec::new(alloc);
        for seat in self.seats {
            journals.push(seat.node.into_journal())?;
        }
        Ok(journals)
    }
}
