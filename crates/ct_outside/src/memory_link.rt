//! A link in memory, of whose calls those fail that are named before.
ghost use Rattle.std.specs.Prelude.{◌≡◌, ◌≤◌, ◌+◌, ℕ, None, Some, [], is_ok, IsTrue};
ghost use Rattle.ct_outside.specs.Links.{Looks, Receives, Sends, is_end, is_failure};
ghost use Rattle.ct_outside.specs.MemoryLink.{ReceivesHere, SendsHere, fresh_link};
ghost use Rattle.ct_outside.specs.Told.{RisesWhere};

use crate::fault::LinkFault;
use crate::link::{Link, Piece, Received};
use crate::memory::Counter;
use std::alloc::Global;
use std::collections::VecDeque;
use std::marker::Model;

/// A link that has its pieces in memory, and tells them.
#[derive(Debug, Drop)]
pub struct MemLink {
    waiting: VecDeque<Piece>,
    sent: Vec<Piece>,
    endings: u64,
    looks: u64,
    counter: Counter,
}

impl Model for MemLink {
    ghost use Rattle.ct_outside.specs.MemoryLink.{Linking};

    ghost Value = { Linking };

    ghost view = { λ a. record { pieces = record { waiting = a.waiting.items; sent = a.sent.items }; endings = a.endings; looks = a.looks; calls = a.counter } };
}

impl MemLink {
    /// A link on which these pieces wait. The calls whose numbers, counted from 1, stand in `fail_at` fail.
    pub fn new(alloc: Global, waiting: Vec<Piece>, fail_at: Vec<u64>) -> MemLink
        ensures { result ≡ fresh_link waiting.items fail_at.items }
    {
        MemLink {
            waiting: VecDeque::from_vec(waiting),
            sent: Vec::new(alloc),
            endings: 0,
            looks: 0,
            counter: Counter::new(fail_at),
        }
    }

    /// What was sent.
    pub fn sent(&self) -> &[Piece]
        ensures { result.now ≡ self.now.pieces.sent }
    {
        self.sent.as_slice()
    }
}

impl Link for MemLink {
    ghost pieces = { λ s. Some s.pieces };

    ghost faults = { λ s. s.calls.faults };

    ghost endings = { λ s. s.endings };

    ghost looks = { λ s. s.looks };

    ghost permissions = { λ _. None };

    /// Want of memory is no fault, and counts as a call.
    fn send(&mut self, to: u32, bytes: &[u8]) -> Result<(), LinkFault>
        ensures pieces { Sends result to bytes.now self.old.pieces self.new.pieces }
        ensures cause { RisesWhere (is_failure result) self.old.calls.faults self.new.calls.faults }
        ensures endings { self.old.endings ≤ self.new.endings }
        ensures looks { self.new.looks ≡ self.old.looks }
        ensures sends { SendsHere result to bytes.now self.old self.new }
        ensures none_named { self.old.calls.fail_at ≡ [] → self.new.calls.faults ≡ self.old.calls.faults }
    {
        if self.counter.fails() {
            return Err(LinkFault::Failed);
        }
        let alloc = *self.sent.allocator();
        let piece = Piece {
            node: to,
            bytes: Vec::from_slice(alloc, bytes)?,
        };
        match self.sent.push(piece) {
            Ok(()) => Ok(()),
            Err(_) => Err(LinkFault::NoMemory),
        }
    }

    /// Never waits. Where it might, and no piece waits, none will come any more.
    fn receive(&mut self, may_wait: bool) -> Result<Received, LinkFault>
        ensures pieces { Receives result self.old.pieces self.new.pieces }
        ensures cause { RisesWhere (is_failure result) self.old.calls.faults self.new.calls.faults }
        ensures ended { RisesWhere (is_end result) self.old.endings self.new.endings }
        ensures permitted { IsTrue (is_end result) → IsTrue may_wait }
        ensures looked { Looks (is_ok result) self.old.looks self.new.looks }
        ensures receives { ReceivesHere result may_wait self.old self.new }
        ensures none_named { self.old.calls.fail_at ≡ [] → self.new.calls.faults ≡ self.old.calls.faults }
    {
        if self.counter.fails() {
            return Err(LinkFault::Failed);
        }
        self.looks = self.looks.saturating_add(1);
        match self.waiting.pop_front() {
            Some(Piece { node, bytes }) => Ok(Received::Piece {
                sender: node,
                bytes,
            }),
            None if may_wait => {
                self.endings = self.endings.saturating_add(1);
                Ok(Received::Closed)
            }
            None => Ok(Received::Nothing),
        }
    }
}
