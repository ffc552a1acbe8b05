//! A box of messages for each node.
ghost use Rattle.std.specs.Prelude.{◌≡◌, ◌<◌, ℕ, List, [], ◌∷◌, IfOk, OnOk, OnErr, MatchOption, length, slice_get, slice_set, Some, IsTrue, ◌↔◌};
ghost use Rattle.ct_links.specs.Boxes.{fresh_box, fresh_boxes, all_quiet, answer_to, asleep_with, box_after, boxes_after, found, is_asleep, is_quiet, marked, marked_at, put_in, with_frame};
ghost use Rattle.ct_links.specs.declared.boxes.Mark.TheVariants.{Awake, Gone};

use ct_frame::frame::Frame;
use ct_values::memory::NoMemory;
use std::alloc::Global;
use std::collections::VecDeque;
use std::marker::Model;

/// What a node is about.
#[derive(Clone, Copy, Debug, PartialEq, Eq)]
pub enum Mark {
    /// It may put messages.
    Awake,
    /// It found nothing when it last looked, and puts none before it finds a message.
    Waiting,
    /// It puts none any more.
    Gone,
}

/// What a node finds in its box.
#[derive(Debug, Drop, PartialEq)]
pub enum Taken {
    Message(Frame),
    /// It may not wait.
    Nothing,
    /// Nothing will be put any more.
    Closed,
    /// It is to look again.
    Wait,
}

#[derive(Debug, Drop)]
struct Slot {
    frames: VecDeque<Frame>,
    mark: Mark,
}

impl Model for Slot {
    ghost use Rattle.ct_links.specs.Boxes.{Mailbox};

    ghost Value = { Mailbox };

    ghost view = { λ a. record { frames = a.frames.items; mark = a.mark } };
}

impl Slot {
    fn new(alloc: Global) -> Slot
        ensures { result ≡ fresh_box }
    {
        Slot {
            frames: VecDeque::new(alloc),
            mark: Mark::Awake,
        }
    }

    fn append(&mut self, frame: Frame) -> Result<(), NoMemory>
        ensures ok { OnOk result (self.new ≡ with_frame frame self.old) }
        ensures err { OnErr result (self.new ≡ self.old) }
    {
        match self.frames.push_back(frame) {
            Ok(()) => Ok(()),
            Err(_) => Err(NoMemory),
        }
    }

    /// What the node finds, if it finds a message or may not wait.
    fn look(&mut self, may_wait: bool) -> Option<Taken>
        ensures answer { result ≡ found may_wait self.old.frames }
        ensures after { self.new ≡ box_after may_wait self.old.frames self.old }
    {
        match self.frames.pop_front() {
            Some(frame) => {
                self.mark = Mark::Awake;
                Some(Taken::Message(frame))
            }
            None if may_wait => {
                self.mark = Mark::Waiting;
                None
            }
            None => Some(Taken::Nothing),
        }
    }

    fn set_mark(&mut self, mark: Mark)
        ensures { self.new ≡ marked mark self.old }
    {
        self.mark = mark;
    }

    fn is_asleep(&self) -> bool
        ensures { result ≡ asleep_with self.now.mark self.now.frames }
    {
        matches!(self.mark, Mark::Waiting) && self.frames.is_empty()
    }

    fn is_quiet(&self) -> bool
        ensures { result ≡ is_quiet self.now }
    {
        match self.mark {
            Mark::Awake => false,
            Mark::Waiting => self.frames.is_empty(),
            Mark::Gone => true,
        }
    }
}

/// Will nothing be put any more?
fn all_quiet(slots: &[Slot]) -> bool
    ensures { result ≡ all_quiet slots.now }
{
    slots.iter().all(|slot| slot.is_quiet())
}

/// A box for each node.
#[derive(Debug, Drop)]
pub struct Boxes {
    slots: Vec<Slot>,
}

impl Model for Boxes {
    ghost use Rattle.std.specs.Prelude.{List};
    ghost use Rattle.ct_links.specs.Boxes.{Mailbox};

    ghost Value = { List Mailbox };

    ghost view = { λ a. a.slots.items };
}

impl Boxes {
    /// Empty boxes for so many nodes, which are all awake.
    pub fn new(alloc: Global, nodes: u32) -> Result<Boxes, NoMemory>
        ensures { IfOk result (λ b. b ≡ fresh_boxes nodes) }
    {
        let mut slots = Vec::new(alloc);
        for _ in 0..nodes {
            slots.push(Slot::new(alloc))?;
        }
        Ok(Boxes { slots })
    }

    /// Does the node have a box?
    pub fn has(&self, node: u32) -> bool
        ensures { IsTrue result ↔ (node < length self.now) }
    {
        (node as usize) < self.slots.len()
    }

    /// Does the node wait, with nothing in its box? It is to be rung for once something is put.
    pub fn is_asleep(&self, node: u32) -> bool
        ensures { result ≡ is_asleep (slice_get self.now node) }
    {
        match self.slots.get(node as usize) {
            Some(slot) => slot.is_asleep(),
            None => false,
        }
    }

    /// Puts a message into its receiver's box. One for a node with no box is dropped. Without memory nothing is put.
    pub fn put(&mut self, frame: Frame) -> Result<(), NoMemory>
        ensures ok { OnOk result (self.new ≡ put_in frame self.old) }
        ensures err { OnErr result (self.new ≡ self.old) }
    {
        let receiver = frame.receiver;
        if !self.has(receiver) {
            return Ok(());
        }
        self.slots[receiver as usize].append(frame)
    }

    /// Looks into the node's box. Takes no memory.
    pub fn take(&mut self, node: u32, may_wait: bool) -> Taken
        requires { node < length self.old }
        ensures answer { result ≡ answer_to node may_wait self.old }
        ensures boxes { self.new ≡ boxes_after node may_wait self.old }
    {
        match self.slots[node as usize].look(may_wait) {
            Some(taken) => taken,
            None if all_quiet(self.slots.as_slice()) => Taken::Closed,
            None => Taken::Wait,
        }
    }

    /// The node is gone. What is put for it stays in its box.
    pub fn leave(&mut self, node: u32)
        requires { node < length self.old }
        ensures { self.new ≡ marked_at node Gone self.old }
    {
        self.slots[node as usize].set_mark(Mark::Gone);
    }
}
