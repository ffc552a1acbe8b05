//! The boxes of a cluster, shared by threads.
ghost use Rattle.std.specs.Prelude.{◌≡◌, ◌≢◌, ◌<◌, IfOk, IsTrue, length, if◌then◌else◌};
ghost use Rattle.ct_outside.specs.Causes.{one_more};
ghost use Rattle.ct_outside.specs.Told.{RisesWhere};
ghost use Rattle.ct_links.specs.Boxes.{answer_to, boxes_after};
ghost use Rattle.ct_links.specs.Hub.{is_end};
ghost use Rattle.ct_links.specs.declared.hub.Handed.TheVariants as handed;
ghost use Rattle.ct_links.specs.declared.boxes.Taken.TheVariants as taken;

use crate::boxes::{Boxes, Taken};
use ct_frame::frame::Frame;
use ct_values::memory::NoMemory;
use std::alloc::Global;
use std::marker::Model;
use std::sync::{Condvar, Mutex, Wait};

/// What a node's link hands on at a look.
#[derive(Debug, Drop, PartialEq)]
pub enum Handed {
    Message(Frame),
    Nothing,
    /// Nothing will come any more.
    Closed,
}

/// Boxes behind a lock of threads, and for each node a bell that is rung where the node may find more than before.
#[derive(Drop)]
pub struct Hub<R> {
    rt: R,
    nodes: u32,
    boxes: Mutex<Boxes>,
    bells: Vec<Condvar>,
}

impl<R> Model for Hub<R> {
    ghost use Rattle.std.specs.Prelude.{ℕ};

    ghost Value = { ℕ };

    ghost view = { λ a. a.nodes };
}

impl<R: Drop> Hub<R> {
    /// A hub for so many nodes.
    pub fn new(rt: R, alloc: Global, nodes: u32) -> Result<Hub<R>, NoMemory>
        ensures { IfOk result (λ hub. hub ≡ nodes) }
    {
        let boxes = Boxes::new(alloc, nodes)?;
        let mut bells = Vec::new(alloc);
        for _ in 0..nodes {
            bells.push(Condvar::new())?;
        }
        Ok(Hub {
            rt,
            nodes,
            boxes: Mutex::new(boxes),
            bells,
        })
    }
}

impl<R> Hub<R> {
    /// Rings the bell of a node.
    fn ring(&self, node: u32) {
        if let Some(bell) = self.bells.get(node as usize) {
            bell.notify_all();
        }
    }

    /// Rings the bells of all nodes.
    fn ring_all(&self) {
        for bell in self.bells.as_slice() {
            bell.notify_all();
        }
    }
}

impl<R: Wait> Hub<R> {
    /// Puts the message into its receiver's box, under one hold of the lock. Is the receiver to be rung for? Where it waits and
    /// its box was not empty, the node that put the first message rings.
    fn put(&self, frame: Frame) -> Result<bool, NoMemory> {
        let mut boxes = self.boxes.lock(&self.rt);
        let asleep = boxes.is_asleep(frame.receiver);
        boxes.put(frame)?;
        Ok(asleep)
    }

    /// A node's link. The node leaves with it.
    pub fn link(&self, node: u32) -> HubLink<'_, R>
        requires { node < self.now }
        ensures { result ≡ record { endings = 0; looks = 0 } }
    {
        HubLink {
            hub: self,
            node,
            endings: 0,
            looks: 0,
        }
    }
}

// A node looks into its box. The lock does not tell how many boxes there are, so that is asked. Every link has a box; one
// without would be told that nothing comes.
fn look(boxes: &mut Boxes, node: u32, may_wait: bool) -> Taken
    ensures answer { node < length boxes.old → result ≡ answer_to node may_wait boxes.old }
    ensures after { node < length boxes.old → boxes.new ≡ boxes_after node may_wait boxes.old }
    ensures waits { IsTrue may_wait → result ≢ taken.Nothing }
    ensures permitted { result ≡ taken.Closed → IsTrue may_wait }
{
    if boxes.has(node) {
        boxes.take(node, may_wait)
    } else if may_wait {
        Taken::Closed
    } else {
        Taken::Nothing
    }
}

/// One node's way to the others over a hub. It tells no messages, since other threads put between two calls.
pub struct HubLink<'a, R: Wait> {
    hub: &'a Hub<R>,
    node: u32,
    endings: u64,
    looks: u64,
}

impl<'a, R: Wait> Model for HubLink<'a, R> {
    ghost use Rattle.ct_links.specs.Hub.{LinkCounts};

    ghost Value = { LinkCounts };

    ghost view = { λ a. record { endings = a.endings; looks = a.looks } };
}

impl<'a, R: Wait> Drop for HubLink<'a, R> {
    fn drop(self) {
        let Self {
            hub,
            node,
            endings: _,
            looks: _,
        } = self;
        let mut boxes = hub.boxes.lock(&hub.rt);
        if boxes.has(node) {
            boxes.leave(node);
        }
        hub.ring_all();
    }
}

// What a node finds that has no box: nothing, and nothing will come. Every link has a box.
fn no_box(may_wait: bool) -> Handed
    ensures waits { IsTrue may_wait → result ≢ handed.Nothing }
    ensures permitted { result ≡ handed.Closed → IsTrue may_wait }
{
    if may_wait {
        Handed::Closed
    } else {
        Handed::Nothing
    }
}

// Looks into the node's box until it finds something or need not wait any more.
fn find<R: Wait>(hub: &Hub<R>, node: u32, may_wait: bool) -> Handed
    ensures waits { IsTrue may_wait → result ≢ handed.Nothing }
    ensures permitted { result ≡ handed.Closed → IsTrue may_wait }
{
    let Some(bell) = hub.bells.get(node as usize) else {
        return no_box(may_wait);
    };
    let mut boxes = hub.boxes.lock(&hub.rt);
    for _ in hub.rt.forever() {
        match look(&mut boxes, node, may_wait) {
            Taken::Message(frame) => return Handed::Message(frame),
            Taken::Nothing => return Handed::Nothing,
            Taken::Closed => {
                hub.ring_all();
                return Handed::Closed;
            }
            Taken::Wait => boxes = bell.wait(&hub.rt, boxes),
        }
    }
    unreachable!()
}

impl<'a, R: Wait> HubLink<'a, R> {
    /// Puts the message into its receiver's box, under one hold of the hub's lock. One for a node with no box is dropped.
    pub fn send(&mut self, frame: Frame) -> Result<(), NoMemory>
        ensures { self.new ≡ self.old }
    {
        let hub = self.hub;
        let to = frame.receiver;
        if hub.put(frame)? {
            hub.ring(to);
        }
        Ok(())
    }

    /// Looks for the first message that waits: each look is one hold of the hub's lock. With permission to wait the link never
    /// answers that there is nothing, and only with it that nothing will come any more.
    pub fn receive(&mut self, may_wait: bool) -> Handed
        ensures ended { RisesWhere (is_end result) self.old.endings self.new.endings }
        ensures permitted { result ≡ handed.Closed → IsTrue may_wait }
        ensures waits { IsTrue may_wait → result ≢ handed.Nothing }
        ensures counts { self.new ≡ record {
          endings = if is_end result then one_more self.old.endings else self.old.endings;
          looks = one_more self.old.looks;
        } }
    {
        let answer = find(self.hub, self.node, may_wait);
        if let Handed::Closed = answer {
            self.endings = self.endings.saturating_add(1);
        }
        self.looks = self.looks.saturating_add(1);
        answer
    }
}
