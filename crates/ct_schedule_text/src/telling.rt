//! The lines of an entry, and those of all.
ghost use Rattle.std.specs.Prelude.{◌≡◌, ◌<◌, ◌+◌, ◌-◌, ◌^◌, ◌↔◌, ◌++◌, [], length, IfOk, IfSome, IsTrue, MatchOption, None, OnOk, Some, slice_get, slice_set};
ghost use Rattle.std.specs.List.{flat_map, remove};
ghost use Rattle.ct_frame.specs.declared.event.Out.TheVariants as out;
ghost use Rattle.ct_rules_node.specs.Node.{or_zero};
ghost use Rattle.ct_text.specs.Line.{line_text};
ghost use Rattle.ct_journal.specs.Order.{next_entry, taken_of, ticket_after};
ghost use Rattle.ct_schedule_text.specs.Telling as telling;

use ct_frame::event::{Event, Out};
use ct_frame::frame::Frame;
use ct_frame::header::LIMIT;
use ct_journal::journal::{Journal, JournalEntry};
use ct_rules_cluster::step::Line;
use ct_text::line::{push_answered_line, push_line, push_sent_line};
use ct_values::client::{Answer, Why};
use ct_values::config::Config;
use ct_values::memory::NoMemory;
use std::alloc::Global;
use std::marker::Model;

/// A client call that is open: its node, its number in the node's journal, and its number among the calls of all nodes.
#[derive(Clone, Copy, Debug, PartialEq, Eq)]
pub struct Asked {
    pub node: u32,
    pub call: u64,
    pub number: u64,
}

/// The lines of journals, and how many messages they tell of.
#[derive(Debug, Drop)]
pub struct Lines {
    pub text: Vec<u8>,
    pub sent: u64,
}

/// How far lines are told: how many entries of each journal printed them and the last ticket, how many messages these entries
/// sent and how many calls they asked, who holds the recovery lock, and the calls that are open.
#[derive(Debug, Drop)]
pub struct Teller {
    taken: Vec<usize>,
    ticket: u64,
    sent: u64,
    asked: u64,
    holder: Option<u32>,
    calls: Vec<Asked>,
}

impl Model for Teller {
    ghost use Rattle.ct_schedule_text.specs.Telling.{Telling};

    ghost Value = { Telling };

    ghost view = { λ a. record { front = record { taken = a.taken.items; ticket = a.ticket }; sent = a.sent; asked = a.asked; holder = a.holder; calls = a.calls.items } };
}

/// Is it this call of this node?
#[tactic(auto, unfolding(crate::specs::Telling::is_asked_call))]
fn is_asked_call(node: u32, call: u64, asked: &Asked) -> bool
    ensures { result ≡ telling.is_asked_call node call asked.now }
{
    asked.node == node && asked.call == call
}

/// The place of the open call of this node that has this number there, or behind all where there is none.
fn place_of(node: u32, call: u64, calls: &[Asked]) -> usize
    ensures there { slice_get calls.now result ≡ telling.open_call node call calls.now }
    ensures left { remove calls.now result ≡ telling.open_without node call calls.now }
{
    for (i, asked) in calls.iter().enumerate() {
        if is_asked_call(node, call, asked) {
            return i;
        }
    }
    calls.len()
}

/// Takes the open call of this node that has this number there off, if there is one.
fn take_open(calls: &mut Vec<Asked>, node: u32, call: u64) -> Option<Asked>
    ensures taken { result ≡ telling.open_call node call calls.old.items }
    ensures left { calls.new.items ≡ telling.open_without node call calls.old.items }
{
    let place = place_of(node, call, calls.as_slice());
    if place < calls.len() {
        return Some(calls.remove(place));
    }
    None
}

/// Does an answer name no other call?
#[tactic(auto, unfolding(crate::specs::Telling::names_no_call))]
fn names_no_call(answer: &Answer) -> bool
    ensures { result ≡ telling.names_no_call answer.now }
{
    match answer {
        Answer::Refused(Why::CallPending(_)) => false,
        _ => true,
    }
}

/// How many entries of a node are told.
#[tactic(auto, unfolding(ct_rules_node::specs::Node::or_zero))]
fn taken_at(taken: &[usize], node: u32) -> usize
    ensures { result ≡ or_zero (slice_get taken.now node) }
{
    match taken.get(node as usize) {
        Some(count) => *count,
        None => 0,
    }
}

/// One entry more of a node is told.
fn count_taken(taken: &mut Vec<usize>, node: u32)
    requires there { node < length taken.old.items }
    requires room { or_zero (slice_get taken.old.items node) < 2 ^ 64 - 1 }
    ensures { taken.new.items ≡ slice_set taken.old.items node (or_zero (slice_get taken.old.items node) + 1) }
{
    let count = taken_at(taken.as_slice(), node);
    taken[node as usize] = count + 1;
}

/// The last ticket once an event has come.
#[tactic(auto, unfolding(ct_journal::specs::Order::ticket_after))]
fn ticket_after(event: &Event, last: u64) -> u64
    ensures { result ≡ ticket_after event.now last }
{
    match event {
        Event::BeginRound { ticket, .. } => *ticket,
        Event::Client { .. } => last,
        Event::Arrive(_) => last,
        Event::Retry => last,
        Event::Vacuum { .. } => last,
        Event::BeginTakeover { .. } => last,
    }
}

/// Where another node holds the recovery lock, it gives the lock back.
#[tactic(auto, unfolding(crate::specs::Telling::told_yield))]
fn tell_yield(
    text: &mut Vec<u8>,
    config: &Config,
    node: u32,
    holder: Option<u32>,
) -> Result<(), NoMemory>
    ensures { OnOk result (text.new.items ≡ text.old.items ++ flat_map (line_text config.now) (telling.told_yield node holder)) }
{
    if let Some(other) = holder {
        if other != node {
            push_line(text, &Line::Yielded(other), config)?;
        }
    }
    Ok(())
}

impl Teller {
    /// No line is told.
    #[tactic(auto, unfolding(crate::specs::Telling::first_telling, ct_journal::specs::Order::first_front))]
    fn new(alloc: Global, journals: &[Journal]) -> Result<Teller, NoMemory>
        ensures { IfOk result (λ t. t ≡ telling.first_telling journals.now) }
    {
        Ok(Teller {
            taken: Vec::from_elem(alloc, 0, journals.len())?,
            ticket: 1,
            sent: 0,
            asked: 0,
            holder: None,
            calls: Vec::new(alloc),
        })
    }

    /// How many messages were sent.
    fn sent(&self) -> u64
        ensures { result ≡ self.now.sent }
    {
        self.sent
    }

    /// Is no call open?
    fn none_open(&self) -> bool
        ensures { IsTrue result ↔ (self.now.calls ≡ []) }
    {
        self.calls.is_empty()
    }

    /// Tells a message, under the next number.
    #[tactic(auto, unfolding(crate::specs::Telling::told_out))]
    fn tell_sent(
        &mut self,
        text: &mut Vec<u8>,
        config: &Config,
        node: u32,
        frame: &Frame,
    ) -> Result<bool, NoMemory>
        ensures { IfOk result (λ told. telling.AddsLines config.now told (telling.told_out node (out.Send frame.now) self.old) self.new text.old.items text.new.items) }
    {
        if LIMIT - 1 <= self.sent {
            return Ok(false);
        }
        self.sent += 1;
        push_sent_line(text, config, self.sent, frame)?;
        Ok(true)
    }

    /// Tells the answer to an open call, under the number that the call has among those of all nodes. The call is open no more.
    #[tactic(auto, unfolding(crate::specs::Telling::told_answered))]
    fn tell_answer(
        &mut self,
        text: &mut Vec<u8>,
        config: &Config,
        node: u32,
        call: u64,
        answer: &Answer,
    ) -> Result<bool, NoMemory>
        ensures { IfOk result (λ told. telling.AddsLines config.now told (telling.told_answered node call answer.now self.old (telling.open_call node call self.old.calls)) self.new text.old.items text.new.items) }
    {
        match take_open(&mut self.calls, node, call) {
            Some(asked) => {
                push_answered_line(text, asked.number, answer)?;
                Ok(true)
            }
            None => Ok(false),
        }
    }

    /// Tells what a node does.
    #[tactic(auto, unfolding(crate::specs::Telling::told_out))]
    fn tell_out(
        &mut self,
        text: &mut Vec<u8>,
        config: &Config,
        node: u32,
        out: &Out,
    ) -> Result<bool, NoMemory>
        ensures { IfOk result (λ told. telling.AddsLines config.now told (telling.told_out node out.now self.old) self.new text.old.items text.new.items) }
    {
        match out {
            Out::Send(frame) => self.tell_sent(text, config, node, frame),
            Out::Answer { call, answer } => {
                if !names_no_call(answer) {
                    return Ok(false);
                }
                self.tell_answer(text, config, node, *call, answer)
            }
            Out::Note(note) => {
                let note = note.copy()?;
                push_line(text, &Line::Noted { node, note }, config)?;
                Ok(true)
            }
        }
    }

    /// Tells all that a node does, in order.
    fn tell_outs(
        &mut self,
        text: &mut Vec<u8>,
        config: &Config,
        node: u32,
        outs: &[Out],
    ) -> Result<bool, NoMemory>
        ensures { IfOk result (λ told. telling.AddsLines config.now told (telling.told_outs node outs.now self.old) self.new text.old.items text.new.items) }
    {
        for out in outs {
            if !self.tell_out(text, config, node, out)? {
                return Ok(false);
            }
        }
        Ok(true)
    }

    /// Tells what comes to a node, before what the node does then. A client call is open from now on, under the next number. An
    /// arrival has no line. Where the node takes the recovery lock, another that holds it gives it back before. Nothing else is
    /// told.
    #[tactic(auto, unfolding(crate::specs::Telling::told_event))]
    fn tell_event(
        &mut self,
        text: &mut Vec<u8>,
        config: &Config,
        node: u32,
        event: &Event,
    ) -> Result<bool, NoMemory>
        ensures front { self.new.front ≡ self.old.front }
        ensures lines { IfOk result (λ told. telling.AddsLines config.now told (telling.told_event node event.now self.old) self.new text.old.items text.new.items) }
    {
        match event {
            Event::Client { call, .. } => {
                if LIMIT - 1 <= self.asked {
                    return Ok(false);
                }
                self.asked += 1;
                self.calls.push(Asked {
                    node,
                    call: *call,
                    number: self.asked,
                })?;
                Ok(true)
            }
            Event::Arrive(_) => Ok(true),
            Event::BeginRound { ticket, .. } => {
                tell_yield(text, config, node, self.holder)?;
                let ticket = *ticket;
                push_line(text, &Line::Ticket { ticket, node }, config)?;
                self.holder = Some(node);
                Ok(true)
            }
            Event::Retry => Ok(false),
            Event::Vacuum { .. } => Ok(false),
            Event::BeginTakeover { .. } => Ok(false),
        }
    }

    /// An entry of the node with this event is told.
    #[tactic(auto, unfolding(crate::specs::Telling::entry_passed, ct_journal::specs::Order::front_after, ct_journal::specs::Order::taken_of))]
    fn pass(&mut self, node: u32, event: &Event)
        requires there { node < length self.old.front.taken }
        requires room { taken_of self.old.front node < 2 ^ 64 - 1 }
        ensures { self.new ≡ telling.entry_passed node event.now self.old }
    {
        count_taken(&mut self.taken, node);
        self.ticket = ticket_after(event, self.ticket);
    }

    /// Tells an entry of the node.
    #[tactic(auto, unfolding(crate::specs::Telling::told_entry), using(crate::proofs::Adding::adds_both, crate::proofs::Growing::fails_second))]
    fn tell_entry(
        &mut self,
        text: &mut Vec<u8>,
        config: &Config,
        node: u32,
        entry: &JournalEntry,
    ) -> Result<bool, NoMemory>
        requires there { node < length self.old.front.taken }
        requires room { taken_of self.old.front node < 2 ^ 64 - 1 }
        ensures { IfOk result (λ told. telling.AddsLines config.now told (telling.told_entry node entry.now self.old) self.new text.old.items text.new.items) }
    {
        if !self.tell_event(text, config, node, &entry.event)? {
            return Ok(false);
        }
        self.pass(node, &entry.event);
        self.tell_outs(text, config, node, entry.outs.as_slice())
    }

    /// The entry of a node that comes next.
    #[tactic(auto, unfolding(ct_journal::specs::Order::next_entry, ct_journal::specs::Order::entries_of, ct_journal::specs::Order::or_no_entries, ct_journal::specs::Order::taken_of))]
    fn next_entry<'a>(&self, journals: &'a [Journal], node: u32) -> Option<&'a JournalEntry>
        ensures next { MatchOption result (next_entry journals.now self.now.front node ≡ None) (λ x. next_entry journals.now self.now.front node ≡ Some x.now) }
        ensures there { IfSome result (λ x. node < length journals.now) }
        ensures room { IfSome result (λ x. taken_of self.now.front node < 2 ^ 64 - 1) }
    {
        let journal = journals.get(node as usize)?;
        let entries = journal.entries.as_slice();
        let count = taken_at(self.taken.as_slice(), node);
        if entries.len() <= count {
            return None;
        }
        Some(&entries[count])
    }

    /// Tells the next entry of a node, where it has one more.
    #[tactic(auto, unfolding(crate::specs::Telling::told_if_next))]
    fn tell_next(
        &mut self,
        text: &mut Vec<u8>,
        config: &Config,
        journals: &[Journal],
        node: u32,
    ) -> Result<bool, NoMemory>
        requires places { length self.old.front.taken ≡ length journals.now }
        ensures { IfOk result (λ told. telling.AddsLines config.now told (telling.told_if_next node (next_entry journals.now self.old.front node) self.old) self.new text.old.items text.new.items) }
    {
        match self.next_entry(journals, node) {
            Some(entry) => self.tell_entry(text, config, node, entry),
            None => Ok(false),
        }
    }

    /// Tells the next entries of these nodes, one after the other.
    fn tell_all(
        &mut self,
        text: &mut Vec<u8>,
        config: &Config,
        journals: &[Journal],
        order: &[u32],
    ) -> Result<bool, NoMemory>
        requires places { length self.old.front.taken ≡ length journals.now }
        ensures { IfOk result (λ told. telling.AddsLines config.now told (telling.told_from journals.now order.now self.old) self.new text.old.items text.new.items) }
    {
        for node in order {
            if !self.tell_next(text, config, journals, *node)? {
                return Ok(false);
            }
        }
        Ok(true)
    }
}

/// The lines of journals in this order, and how many messages they tell of. `None` only where they are not told from the entries
/// alone: a call stays open, an answer names another call or one that is not open, or an entry is missing or none of a plan's; or
/// where the number of a message or a call would reach 2^62.
#[tactic(auto, using(crate::proofs::Adding::are_lines, crate::proofs::Growing::are_untold, crate::proofs::Growing::are_open, crate::proofs::Growing::first_places))]
pub fn lines_of(
    alloc: Global,
    config: &Config,
    journals: &[Journal],
    order: &[u32],
) -> Result<Option<Lines>, NoMemory>
    ensures { IfOk result (λ o. MatchOption o (telling.AreUntold journals.now order.now) (λ v. telling.AreLines config.now journals.now order.now v.text.items v.sent)) }
{
    let mut teller = Teller::new(alloc, journals)?;
    let mut text = Vec::new(alloc);
    if !teller.tell_all(&mut text, config, journals, order)? {
        return Ok(None);
    }
    if !teller.none_open() {
        return Ok(None);
    }
    let sent = teller.sent();
    Ok(Some(Lines { text, sent }))
}
