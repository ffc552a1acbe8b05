//! The middle of a step, and what every part of the rules does to it: it sends, answers and counts.
ghost use Rattle.std.specs.Prelude.{◌≡◌, ◌+◌, ◌<◌, ◌≤◌, true, ◌^◌, Some, None, MatchOption, IfOk, OnOk};
ghost use Rattle.ct_rules.specs.Parts.{performs, send, send_all, reply, reaches};
ghost use Rattle.ct_rules.specs.State.{rsn_of, value_of, with_value, risen, is_mastered, is_free};

use ct_frame::frame::Msg;
use ct_frame::header::{LIMIT, RecCopy};
use ct_rules::event::{Act, Place};
use ct_rules::state::{Entry, RecState, Wish};
use ct_tracking::vacuum::Vacuum;
use ct_values::boxed::Boxed;
use ct_values::client::Answer;
use ct_values::items::Items;
use ct_values::memory::NoMemory;
use ct_values::value::Value;
use std::alloc::Global;
use std::marker::Model;

/// The middle of a step: a copy of the record's state that the parts of the rules change, the next request number, the
/// floor, and what is done, in order. `spent` tells that a number reached 2^62: then the whole step is refused at its end.
#[derive(Drop)]
pub struct Draft {
    pub alloc: Global,
    pub state: Boxed<RecState>,
    pub next: u64,
    pub floor: u64,
    pub acts: Items<Act>,
    pub spent: bool,
}

impl Model for Draft {
    ghost use Rattle.ct_rules.specs.Parts.{Moving};

    ghost Value = { Moving };

    ghost view = { λ d. record { state = d.state; next = d.next; floor = d.floor; acts = d.acts; spent = d.spent } };
}

impl Draft {
    /// This is done after all else.
    #[tactic(auto, unfolding(ct_rules::specs::Parts::performs))]
    pub fn performs(&mut self, act: Act) -> Result<(), NoMemory>
        ensures { OnOk result (self.new ≡ performs act self.old) }
    {
        self.acts.push(act)?;
        Ok(())
    }

    /// A message is sent.
    #[tactic(auto, unfolding(ct_rules::specs::Parts::send))]
    pub fn send(&mut self, receiver: u32, msg: Msg) -> Result<(), NoMemory>
        ensures { OnOk result (self.new ≡ send receiver msg self.old) }
    {
        self.performs(Act::Send { receiver, msg })
    }

    /// The same message to several nodes, in order.
    #[tactic(auto, unfolding(ct_rules::specs::Parts::send_all))]
    pub fn send_all(&mut self, nodes: &[u32], msg: &Msg) -> Result<(), NoMemory>
        ensures { OnOk result (self.new ≡ send_all nodes.now msg.now self.old) }
    {
        for node in nodes {
            self.send(*node, msg.copy()?)?;
        }
        Ok(())
    }

    /// A client's call is answered.
    #[tactic(auto, unfolding(ct_rules::specs::Parts::reply))]
    pub fn reply(&mut self, call: u64, answer: Answer) -> Result<(), NoMemory>
        ensures { OnOk result (self.new ≡ reply call answer self.old) }
    {
        self.performs(Act::Answer { call, answer })
    }

    /// This number is reached.
    #[tactic(auto, unfolding(ct_rules::specs::Parts::reaches))]
    pub fn reaches(&mut self, number: u64)
        ensures { self.new ≡ reaches number self.old }
    {
        self.spent = self.spent || LIMIT <= number;
    }

    /// Takes the next request number.
    #[tactic(auto, unfolding(ct_rules::specs::Parts::reaches))]
    pub fn draw(&mut self) -> u64
        requires { self.old.next < 2 ^ 62 }
        ensures request { result ≡ self.old.next }
        ensures drawn { self.new ≡ reaches (self.old.next + 1) (record self.old { next = self.old.next + 1 }) }
    {
        let request = self.next;
        self.next = request + 1;
        self.reaches(request + 1);
        request
    }

    /// The RSN of the node's copy, and 0 where it has none.
    #[tactic(auto, unfolding(ct_rules::specs::State::rsn_of))]
    pub fn rsn(&self) -> u64
        ensures { result ≡ rsn_of self.now.state.copy }
    {
        match &self.state.as_ref().copy {
            Some(copy) => copy.header.rsn,
            None => 0,
        }
    }

    /// The value of the node's copy, and the empty value where it has none.
    #[tactic(auto, unfolding(ct_rules::specs::State::value_of))]
    pub fn value(&self) -> Result<Value, NoMemory>
        ensures { IfOk result (λ v. v ≡ value_of self.now.state.copy) }
    {
        match &self.state.as_ref().copy {
            Some(copy) => copy.value.copy(),
            None => Ok(Value::empty(self.alloc)),
        }
    }

    /// The node's copy has another value.
    #[tactic(auto, unfolding(ct_rules::specs::State::with_value))]
    pub fn set_value(&mut self, value: Value)
        ensures { self.new ≡ record self.old { state = record self.old.state { copy = with_value value self.old.state.copy } } }
    {
        if let Some(copy) = &mut self.state.as_mut().copy {
            copy.value = value;
        }
    }

    /// A call waits for the record.
    pub fn set_wish(&mut self, wish: Wish)
        ensures { self.new ≡ record self.old { state = record self.old.state { wish = Some wish } } }
    {
        self.state.as_mut().wish = Some(wish);
    }

    /// No call waits for the record.
    pub fn clear_wish(&mut self)
        ensures { self.new ≡ record self.old { state = record self.old.state { wish = None } } }
    {
        self.state.as_mut().wish = None;
    }

    /// This is known of the record at its location master.
    pub fn set_entry(&mut self, entry: Entry)
        ensures { self.new ≡ record self.old { state = record self.old.state { entry = Some entry } } }
    {
        self.state.as_mut().entry = Some(entry);
    }

    /// The node has this copy.
    pub fn set_copy(&mut self, copy: RecCopy)
        ensures { self.new ≡ record self.old { state = record self.old.state { copy = Some copy } } }
    {
        self.state.as_mut().copy = Some(copy);
    }

    /// The node's copy has the next RSN.
    #[tactic(auto, unfolding(ct_rules::specs::State::risen, ct_rules::specs::State::rsn_of))]
    pub fn rise(&mut self)
        requires { rsn_of self.old.state.copy < 2 ^ 62 }
        ensures { self.new ≡ record self.old { state = record self.old.state { copy = risen self.old.state.copy } } }
    {
        if let Some(copy) = &mut self.state.as_mut().copy {
            copy.header.rsn += 1;
        }
    }

    /// This vacuum of the record runs.
    pub fn set_vacuum(&mut self, vacuum: Vacuum)
        ensures { self.new ≡ record self.old { state = record self.old.state { vacuum = Some vacuum } } }
    {
        self.state.as_mut().vacuum = Some(vacuum);
    }

    /// Nothing is known of the record at its location master.
    pub fn clear_entry(&mut self)
        ensures { self.new ≡ record self.old { state = record self.old.state { entry = None } } }
    {
        self.state.as_mut().entry = None;
    }

    /// The node has no copy.
    pub fn clear_copy(&mut self)
        ensures { self.new ≡ record self.old { state = record self.old.state { copy = None } } }
    {
        self.state.as_mut().copy = None;
    }

    /// Is the node holder?
    #[tactic(auto, unfolding(ct_rules::specs::State::is_mastered))]
    pub fn is_holder(&self, at: &Place) -> bool
        ensures { result ≡ is_mastered at.now.me self.now.state.copy }
    {
        match &self.state.as_ref().copy {
            Some(copy) => copy.header.dmaster == at.me,
            None => false,
        }
    }

    /// Is the node free: holder, the record unlocked, and no revocation running?
    #[tactic(auto, unfolding(ct_rules::specs::State::is_free, ct_rules::specs::State::is_quiet))]
    pub fn is_free(&self, at: &Place) -> bool
        ensures free { result ≡ is_free at.now.me self.now.state }
        ensures quiet { result ≡ true → self.now.state.tracking.revoking ≡ None }
    {
        self.is_holder(at)
            && self.state.as_ref().locked.is_none()
            && self.state.as_ref().tracking.revoking().is_none()
    }
}
