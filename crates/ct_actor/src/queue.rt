//! The messages that wait for each node.
ghost use Rattle.std.specs.Prelude.{◌≡◌, ◌<◌, ◌++◌, ◌∷◌, [], drop, length, IfOk, OnOk, slice_set};
ghost use Rattle.ct_journal.specs.Order.{frames_in};
ghost use Rattle.ct_law_journal_growing.specs.Growing.{posted, queue_at};
ghost use Rattle.ct_actor.specs.Queues.{TakesOff, first_of};

use ct_frame::event::Out;
use ct_frame::frame::Frame;
use ct_values::memory::NoMemory;
use std::alloc::Global;
use std::collections::VecDeque;
use std::marker::Model;

/// The messages that wait for one node, in the order in which they were sent.
pub struct Queue {
    list: VecDeque<Frame>,
}

impl Drop for Queue {
    /// All that it holds is let go.
    fn drop(self) {
        let Queue { list: _ } = self;
    }
}

impl Model for Queue {
    ghost use Rattle.std.specs.Prelude.{List};
    ghost use Rattle.ct_frame.specs.declared.frame.Frame.{Frame as Message};

    ghost Value = { List Message };

    ghost view = { λ a. a.list.items };
}

impl Queue {
    /// No message waits.
    pub fn new(alloc: Global) -> Queue
        ensures { result ≡ [] }
    {
        Queue {
            list: VecDeque::new(alloc),
        }
    }

    fn push(&mut self, frame: Frame) -> Result<(), NoMemory>
        ensures { OnOk result (self.new ≡ self.old ++ frame ∷ []) }
    {
        match self.list.push_back(frame) {
            Ok(()) => Ok(()),
            Err(_) => Err(NoMemory),
        }
    }

    /// Takes the first message off.
    fn next(&mut self) -> Option<Frame>
        ensures first { result ≡ first_of self.old }
        ensures rest { self.new ≡ drop 1 self.old }
    {
        self.list.pop_front()
    }
}

/// Takes off the first message that waits for the node.
pub fn next_of(queues: &mut Vec<Queue>, node: usize) -> Option<Frame>
    requires { node < length queues.old.items }
    ensures { TakesOff node result queues.old.items queues.new.items }
{
    queues[node].next()
}

/// Puts a copy of the message into its receiver's queue. One for a node with no queue is dropped.
#[tactic(auto, unfolding(ct_law_journal_growing::specs::Growing::queue_at, ct_law_journal_growing::specs::Growing::or_no_frames))]
fn put(queues: &mut Vec<Queue>, frame: &Frame) -> Result<(), NoMemory>
    ensures { OnOk result (queues.new.items ≡ slice_set queues.old.items frame.now.receiver (queue_at queues.old.items frame.now.receiver ++ frame.now ∷ [])) }
{
    let receiver = frame.receiver as usize;
    if receiver < queues.len() {
        let copy = frame.copy()?;
        queues[receiver].push(copy)?;
    }
    Ok(())
}

/// Puts copies of the messages among these into the queues, and answers how many there are.
#[tactic(auto, unfolding(ct_journal::specs::Order::frames_in, ct_law_journal_growing::specs::Growing::posted))]
pub fn post(queues: &mut Vec<Queue>, outs: &[Out]) -> Result<usize, NoMemory>
    ensures count { IfOk result (λ k. k ≡ length (frames_in outs.now)) }
    ensures posted { OnOk result (queues.new.items ≡ posted (frames_in outs.now) queues.old.items) }
{
    let mut count = 0;
    for out in outs {
        if let Out::Send(frame) = out {
            put(queues, frame)?;
            count += 1;
        }
    }
    Ok(count)
}
