//! Messages that were sent and have not arrived: of each node to another a queue of their numbers.
ghost use Rattle.std.specs.Prelude.{◌≡◌, ℕ, List, [], ◌∷◌, ◌++◌, ◌+◌, ◌<◌, ◌^◌, drop, length, replicate, slice_index_or, slice_set, IfOk, OnOk};
ghost use Rattle.ct_journal.specs.Order.{frames_in};
ghost use Rattle.ct_law_journal_schedule.specs.Scheduling.{Carried, carried_of, first_between, without_first};
ghost use Rattle.ct_journal_join.specs.Queues.{Carry, queue_to, queued};

use ct_frame::event::Out;
use ct_values::memory::NoMemory;
use std::alloc::Global;
use std::collections::VecDeque;
use std::marker::Model;

/// The messages from one node to another that have not arrived, by their numbers, in the order in which they were sent.
/// Messages are numbered from 1, as they are sent.
pub struct Queue {
    numbers: VecDeque<u64>,
}

impl Drop for Queue {
    /// All that it holds is let go.
    fn drop(self) {
        let Queue { numbers: _ } = self;
    }
}

impl Model for Queue {
    ghost use Rattle.std.specs.Prelude.{ℕ, List};

    ghost Value = { List ℕ };

    ghost view = { λ a. a.numbers.items };
}

impl Queue {
    fn new(alloc: Global) -> Queue
        ensures { result ≡ [] }
    {
        Queue {
            numbers: VecDeque::new(alloc),
        }
    }

    fn push(&mut self, number: u64) -> Result<(), NoMemory>
        ensures { OnOk result (self.new ≡ self.old ++ number ∷ []) }
    {
        match self.numbers.push_back(number) {
            Ok(()) => Ok(()),
            Err(_) => Err(NoMemory),
        }
    }

    /// The number of the first message; 0 where there is none.
    fn first(&self) -> u64
        ensures { result ≡ slice_index_or self.now 0 0 }
    {
        match self.numbers.front() {
            Some(number) => *number,
            None => 0,
        }
    }

    /// Takes the first message off. It takes no memory.
    fn drop_first(&mut self)
        ensures { self.new ≡ drop 1 self.old }
    {
        let _arrived = self.numbers.pop_front();
    }
}

/// The messages of one node that have not arrived: a queue to each node.
#[derive(Drop)]
pub struct Outgoing {
    queues: Vec<Queue>,
}

impl Model for Outgoing {
    ghost use Rattle.std.specs.Prelude.{ℕ, List};

    ghost Value = { List (List ℕ) };

    ghost view = { λ a. a.queues.items };
}

impl Outgoing {
    /// No message to any of so many nodes.
    fn new(alloc: Global, nodes: usize) -> Result<Outgoing, NoMemory>
        ensures { IfOk result (λ qs. qs ≡ replicate nodes []) }
    {
        let mut queues = Vec::new(alloc);
        for _ in 0..nodes {
            queues.push(Queue::new(alloc))?;
        }
        Ok(Outgoing { queues })
    }

    /// The number of the first message to a node; 0 where there is none.
    #[tactic(auto, unfolding(crate::specs::Queues::queue_to))]
    fn first(&self, receiver: u32) -> u64
        ensures { result ≡ slice_index_or (queue_to receiver self.now) 0 0 }
    {
        let receiver = receiver as usize;
        if receiver < self.queues.len() {
            self.queues[receiver].first()
        } else {
            0
        }
    }

    /// Takes the first message to a node off.
    #[tactic(auto, unfolding(crate::specs::Queues::queue_to))]
    fn drop_first(&mut self, receiver: u32)
        ensures { self.new ≡ slice_set self.old receiver (drop 1 (queue_to receiver self.old)) }
    {
        let receiver = receiver as usize;
        if receiver < self.queues.len() {
            self.queues[receiver].drop_first();
        }
    }

    /// Puts a message behind the others to its receiver. One to what is no node stands in no queue.
    #[tactic(auto, unfolding(crate::specs::Queues::queue_to))]
    fn put(&mut self, receiver: u32, number: u64) -> Result<(), NoMemory>
        ensures { OnOk result (self.new ≡ slice_set self.old receiver (queue_to receiver self.old ++ number ∷ [])) }
    {
        let receiver = receiver as usize;
        if receiver < self.queues.len() {
            self.queues[receiver].push(number)?;
        }
        Ok(())
    }

    /// Puts the messages that the node sends behind the others, and answers how many were sent then, where so many were sent
    /// before.
    #[tactic(auto, unfolding(ct_journal::specs::Order::frames_in, crate::specs::Queues::queued))]
    fn post(&mut self, sent: u64, outs: &[Out]) -> Result<u64, NoMemory>
        requires { sent + length (frames_in outs.now) < 2 ^ 62 }
        ensures sent { IfOk result (λ k. k ≡ sent + length (frames_in outs.now)) }
        ensures queued { OnOk result (self.new ≡ queued (sent + 1) (frames_in outs.now) self.old) }
    {
        let mut count = sent;
        for out in outs {
            if let Out::Send(frame) = out {
                count += 1;
                self.put(frame.receiver, count)?;
            }
        }
        Ok(count)
    }
}

/// No messages between so many nodes.
#[tactic(auto, using(crate::proofs::Carrying::none_carried))]
pub fn no_messages(alloc: Global, nodes: usize) -> Result<Vec<Outgoing>, NoMemory>
    ensures { IfOk result (λ v. Carry nodes v.items []) }
{
    let mut senders = Vec::new(alloc);
    for _ in 0..nodes {
        senders.push(Outgoing::new(alloc, nodes)?)?;
    }
    Ok(senders)
}

/// The number of the first message from one node to another; 0 where there is none. It takes no search.
pub fn first_between(senders: &[Outgoing], sender: u32, receiver: u32) -> u64
    ensures { (nodes : ℕ) (ms : List Carried) → Carry nodes senders.now ms → receiver < nodes → result ≡ first_between sender receiver ms }
{
    let sender = sender as usize;
    if sender < senders.len() {
        senders[sender].first(receiver)
    } else {
        0
    }
}

/// Takes off the first message from one node to another. It takes no search and no memory.
pub fn drop_first(senders: &mut Vec<Outgoing>, sender: u32, receiver: u32)
    ensures size { length senders.new.items ≡ length senders.old.items }
    ensures carried { (nodes : ℕ) (ms : List Carried) → Carry nodes senders.old.items ms → Carry nodes senders.new.items (without_first sender receiver ms) }
{
    let sender = sender as usize;
    if sender < senders.len() {
        senders[sender].drop_first(receiver);
    }
}

/// Puts the messages that a node sends behind the others, and answers how many were sent then, where so many were sent before.
pub fn post(
    senders: &mut Vec<Outgoing>,
    sent: u64,
    sender: u32,
    outs: &[Out],
) -> Result<u64, NoMemory>
    requires there { sender < length senders.old.items }
    requires sent { sent + length (frames_in outs.now) < 2 ^ 62 }
    ensures sent { IfOk result (λ k. k ≡ sent + length (frames_in outs.now)) }
    ensures carried { OnOk result ((nodes : ℕ) (ms : List Carried) → Carry nodes senders.old.items ms → Carry nodes senders.new.items (ms ++ carried_of sender (sent + 1) (frames_in outs.now))) }
{
    senders[sender as usize].post(sent, outs)
}
