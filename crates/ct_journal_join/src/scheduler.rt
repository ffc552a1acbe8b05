//! How far steps are made.
ghost use Rattle.std.specs.Prelude.{◌≡◌, ℕ, List, ◌+◌, ◌<◌, ◌^◌, ◌++◌, length, IfOk, OnOk, MatchOption, None, Some, slice_get, slice_set};
ghost use Rattle.ct_rules_node.specs.Node.{or_zero};
ghost use Rattle.ct_journal.specs.Order.{frames_in, next_entry, taken_of, ticket_after};
ghost use Rattle.ct_law_journal_schedule.specs.Scheduling.{Carried, Scheduling, carried_after, first_scheduling, holder_after, scheduling_after, scheduling_next, steps_for, steps_next, yields};
ghost use Rattle.ct_journal_join.specs.Passing.{AgreesWith, MayPass};
ghost use Rattle.ct_journal_join.specs.Queues.{Carry};

use crate::queues::{Outgoing, drop_first, first_between, no_messages, post};
use ct_frame::event::Event;
use ct_journal::journal::{Journal, JournalEntry};
use ct_rules_cluster::step::Step;
use ct_values::copies::Duplicate;
use ct_values::memory::NoMemory;
use std::alloc::Global;
use std::marker::Model;

/// How far steps are made: how many entries of each journal they make and the last ticket, how many messages these entries
/// sent, those of each node that have not arrived, and who holds the recovery lock.
#[derive(Drop)]
pub struct Scheduler {
    taken: Vec<usize>,
    ticket: u64,
    sent: u64,
    outgoing: Vec<Outgoing>,
    holder: Option<u32>,
}

impl Model for Scheduler {
    ghost use Rattle.ct_journal_join.specs.Passing.{Queueing};

    ghost Value = { Queueing };

    ghost view = { λ a. record { front = record { taken = a.taken.items; ticket = a.ticket }; sent = a.sent; outgoing = a.outgoing.items; holder = a.holder } };
}

/// How many entries of a node are made.
#[tactic(auto, unfolding(ct_rules_node::specs::Node::or_zero))]
fn taken_at(taken: &[usize], node: u32) -> usize
    ensures { result ≡ or_zero (slice_get taken.now node) }
{
    match taken.get(node as usize) {
        Some(count) => *count,
        None => 0,
    }
}

/// One entry more of a node is made.
fn count_taken(taken: &mut Vec<usize>, node: u32)
    requires there { node < length taken.old.items }
    requires few { or_zero (slice_get taken.old.items node) < 2 ^ 62 }
    ensures { taken.new.items ≡ slice_set taken.old.items node (or_zero (slice_get taken.old.items node) + 1) }
{
    let count = taken_at(taken.as_slice(), node);
    taken[node as usize] = count + 1;
}

/// The last ticket once an event has come.
#[tactic(auto, unfolding(ct_journal::specs::Order::ticket_after))]
fn ticket_after(event: &Event, last: u64) -> u64
    ensures { result ≡ ticket_after event.now last }
{
    match event {
        Event::BeginRound { ticket, .. } => *ticket,
        Event::Client { .. } => last,
        Event::Arrive(_) => last,
        Event::Retry => last,
        Event::Vacuum { .. } => last,
        Event::BeginTakeover { .. } => last,
    }
}

/// Who holds the recovery lock once an event has come to the node.
#[tactic(auto, unfolding(ct_law_journal_schedule::specs::Scheduling::holder_after))]
fn holder_after(node: u32, event: &Event, holder: Option<u32>) -> Option<u32>
    ensures { result ≡ holder_after node event.now holder }
{
    match event {
        Event::BeginRound { .. } => Some(node),
        Event::Client { .. } => holder,
        Event::Arrive(_) => holder,
        Event::Retry => holder,
        Event::Vacuum { .. } => holder,
        Event::BeginTakeover { .. } => holder,
    }
}

/// A message that arrives is taken off.
#[tactic(auto, unfolding(ct_law_journal_schedule::specs::Scheduling::carried_after))]
fn drop_arrived(outgoing: &mut Vec<Outgoing>, node: u32, event: &Event)
    ensures size { length outgoing.new.items ≡ length outgoing.old.items }
    ensures carried { (nodes : ℕ) (ms : List Carried) → Carry nodes outgoing.old.items ms → Carry nodes outgoing.new.items (carried_after node event.now ms) }
{
    match event {
        Event::Arrive(frame) => drop_first(outgoing, frame.sender, node),
        Event::Client { .. } => {}
        Event::Retry => {}
        Event::Vacuum { .. } => {}
        Event::BeginRound { .. } => {}
        Event::BeginTakeover { .. } => {}
    }
}

/// Another node that holds the recovery lock gives it back before this node takes it.
#[tactic(auto, unfolding(ct_law_journal_schedule::specs::Scheduling::yields))]
fn add_yield(steps: &mut Vec<Step>, node: u32, holder: Option<u32>) -> Result<(), NoMemory>
    ensures { OnOk result (steps.new.items ≡ steps.old.items ++ yields node holder) }
{
    if let Some(other) = holder {
        if other != node {
            steps.push(Step::Yield(other))?;
        }
    }
    Ok(())
}

impl Scheduler {
    /// No steps are made, of these journals.
    #[tactic(auto, using(crate::proofs::Passing::first_agrees))]
    pub fn new(alloc: Global, journals: &[Journal]) -> Result<Scheduler, NoMemory>
        ensures { IfOk result (AgreesWith (first_scheduling journals.now)) }
    {
        Ok(Scheduler {
            taken: Vec::from_elem(alloc, 0, journals.len())?,
            ticket: 1,
            sent: 0,
            outgoing: no_messages(alloc, journals.len())?,
            holder: None,
        })
    }

    /// The entry of a node that comes next.
    #[tactic(auto, unfolding(ct_journal::specs::Order::next_entry, ct_journal::specs::Order::entries_of, ct_journal::specs::Order::or_no_entries, ct_journal::specs::Order::taken_of))]
    pub fn next_entry<'a>(&self, journals: &'a [Journal], node: u32) -> Option<&'a JournalEntry>
        ensures { MatchOption result (next_entry journals.now self.now.front node ≡ None) (λ x. next_entry journals.now self.now.front node ≡ Some x.now) }
    {
        match journals.get(node as usize) {
            Some(journal) => journal
                .entries
                .as_slice()
                .get(taken_at(self.taken.as_slice(), node)),
            None => None,
        }
    }

    /// Adds the steps for an entry of a node with this event.
    #[tactic(auto, unfolding(ct_law_journal_schedule::specs::Scheduling::steps_for))]
    pub fn add_steps(&self, node: u32, event: &Event, steps: &mut Vec<Step>) -> Result<(), NoMemory>
        requires { node < length self.now.front.taken }
        ensures { OnOk result ((k : Scheduling) → AgreesWith k self.now → steps.new.items ≡ steps.old.items ++ steps_for node event.now k) }
    {
        match event {
            Event::Client { op, .. } => steps.push(Step::Client {
                node,
                op: op.copy()?,
            })?,
            Event::Arrive(frame) => {
                let number = first_between(self.outgoing.as_slice(), frame.sender, node);
                steps.push(Step::Deliver(number))?
            }
            Event::Retry => steps.push(Step::Retry(node))?,
            Event::Vacuum { db } => steps.push(Step::Vacuum { node, db: *db })?,
            Event::BeginRound { members, .. } => {
                add_yield(steps, node, self.holder)?;
                steps.push(Step::Recover {
                    node,
                    members: members.duplicate()?,
                })?
            }
            Event::BeginTakeover { .. } => steps.push(Step::Takeover(node))?,
        }
        Ok(())
    }

    /// The steps for an entry of a node are made.
    #[tactic(auto, unfolding(ct_law_journal_schedule::specs::Scheduling::scheduling_after, ct_journal::specs::Order::front_after, ct_journal::specs::Order::taken_of))]
    pub fn pass(&mut self, node: u32, entry: &JournalEntry) -> Result<(), NoMemory>
        requires there { node < length self.old.front.taken }
        requires sends { node < length self.old.outgoing }
        requires taken { taken_of self.old.front node < 2 ^ 62 }
        requires sent { self.old.sent + length (frames_in entry.now.outs) < 2 ^ 62 }
        ensures { OnOk result ((k : Scheduling) → AgreesWith k self.old → AgreesWith (scheduling_after node entry.now k) self.new) }
    {
        drop_arrived(&mut self.outgoing, node, &entry.event);
        self.sent = post(&mut self.outgoing, self.sent, node, entry.outs.as_slice())?;
        count_taken(&mut self.taken, node);
        self.ticket = ticket_after(&entry.event, self.ticket);
        self.holder = holder_after(node, &entry.event, self.holder);
        Ok(())
    }

    /// Makes the steps for the next entry of a node, and none where it has no more.
    #[tactic(auto, unfolding(ct_law_journal_schedule::specs::Scheduling::steps_next, ct_law_journal_schedule::specs::Scheduling::scheduling_next))]
    pub fn advance(
        &mut self,
        journals: &[Journal],
        node: u32,
        steps: &mut Vec<Step>,
    ) -> Result<(), NoMemory>
        requires { MayPass node (next_entry journals.now self.old.front node) self.old }
        ensures steps { OnOk result ((k : Scheduling) → AgreesWith k self.old → steps.new.items ≡ steps.old.items ++ steps_next node (next_entry journals.now k.front node) k) }
        ensures passed { OnOk result ((k : Scheduling) → AgreesWith k self.old → AgreesWith (scheduling_next node (next_entry journals.now k.front node) k) self.new) }
    {
        match self.next_entry(journals, node) {
            Some(entry) => {
                self.add_steps(node, &entry.event, steps)?;
                self.pass(node, entry)
            }
            None => Ok(()),
        }
    }
}
