//! Every message that was sent in a cluster, by number.
ghost use Rattle.std.specs.Prelude.{◌≡◌, ◌≤◌, ◌<◌, ◌+◌, ◌-◌, ◌++◌, true, false, [], IfOk, OnOk, OnErr, Some, None, MatchOption, length, map, slice_get, slice_set, take};
ghost use Rattle.ct_rules_cluster.specs.Cluster as cluster;
ghost use Rattle.ct_rules_cluster.specs.Cluster.{is_waiting, is_delivered, is_waiting_fate};
ghost use Rattle.ct_mail.specs.Mail.{before_waiting, fate_of, next_waiting, numbered, posted};

use crate::sent::{Fate, Sent};
use ct_frame::frame::Frame;
use ct_values::items::Items;
use ct_values::memory::NoMemory;
use std::alloc::Global;
use std::marker::Model;

/// Every message that was sent, in the order of its number from 1, with what became of it. The first one that waits is
/// known without a search.
#[derive(Drop)]
pub struct Mail {
    sent: Items<Sent>,
    first: usize,
}

impl Model for Mail {
    ghost use Rattle.std.specs.Prelude.{◌≡◌, List};
    ghost use Rattle.ct_rules_cluster.specs.Cluster as cluster;
    ghost use Rattle.ct_mail.specs.Mail.{before_waiting};

    ghost Value = { List cluster.Sent };

    ghost view = { λ m. m.sent };

    ghost invariant = { λ m. m.first ≡ before_waiting m.sent };
}

/// The place of the first message that waits, from this place on; their number where none does.
#[tactic(auto, using(crate::proofs::Waiting::ends_there))]
fn first_from(sent: &[Sent], from: usize) -> usize
    requires { from ≤ before_waiting sent.now }
    ensures { result ≡ before_waiting sent.now }
{
    let mut first = from;
    while let Some(one) = sent.get(first) {
        if one.is_waiting() {
            return first;
        }
        first += 1;
    }
    first
}

/// One message has another fate.
fn mark(sent: &mut Items<Sent>, place: usize, fate: Fate)
    requires { place < length sent.old }
    ensures { (x : cluster.Sent) → slice_get sent.old place ≡ Some x → sent.new ≡ slice_set sent.old place (record x { fate = fate_of fate }) }
{
    sent.get_mut(place).end(fate);
}

/// Messages that were just sent.
fn all_posted(alloc: Global, frames: Items<Frame>) -> Result<Vec<Sent>, NoMemory>
    ensures { IfOk result (λ v. v.items ≡ map posted frames) }
{
    let mut all = Vec::with_capacity(alloc, frames.len())?;
    for frame in frames.into_vec() {
        all.push(Sent::posted(frame))?;
    }
    Ok(all)
}

impl Mail {
    /// Nothing was sent yet. It takes no memory.
    #[tactic(auto, unfolding(crate::specs::Mail::before_waiting))]
    pub fn new(alloc: Global) -> Mail
        ensures { result ≡ [] }
    {
        Mail {
            sent: Items::empty(alloc),
            first: 0,
        }
    }

    /// How many messages were sent.
    pub fn len(&self) -> usize
        ensures { result ≡ length self.now }
    {
        self.sent.len()
    }

    /// The least number of a message that waits. It takes no memory, and searches nothing.
    #[tactic(auto, using(crate::proofs::Waiting::none_waits, crate::proofs::Waiting::first_waits))]
    pub fn next_waiting(&self) -> Option<u64>
        ensures { result ≡ next_waiting self.now }
    {
        if self.first < self.sent.len() {
            Some(self.first as u64 + 1)
        } else {
            None
        }
    }

    /// The message of this number, where it was sent.
    #[tactic(auto, unfolding(crate::specs::Mail::numbered))]
    fn sent(&self, number: u64) -> Option<&Sent>
        ensures { MatchOption result (numbered number self.now ≡ None) (λ x. numbered number self.now ≡ Some x.now) }
    {
        if number == 0 {
            return None;
        }
        self.sent.as_slice().get((number - 1) as usize)
    }

    /// The frame of this number, where it was sent.
    pub fn frame(&self, number: u64) -> Option<&Frame>
        ensures { MatchOption result (numbered number self.now ≡ None) (λ f. (x : cluster.Sent) × (numbered number self.now ≡ Some x) × (x.frame ≡ f.now)) }
    {
        match self.sent(number) {
            Some(sent) => Some(sent.frame()),
            None => None,
        }
    }

    /// Does the message of this number wait?
    #[tactic(auto, unfolding(ct_rules_cluster::specs::Cluster::is_waiting))]
    pub fn is_waiting(&self, number: u64) -> bool
        ensures { result ≡ is_waiting (numbered number self.now) }
    {
        match self.sent(number) {
            Some(sent) => sent.is_waiting(),
            None => false,
        }
    }

    /// Was the message of this number delivered?
    #[tactic(auto, unfolding(ct_rules_cluster::specs::Cluster::is_delivered))]
    pub fn is_delivered(&self, number: u64) -> bool
        ensures { result ≡ is_delivered (numbered number self.now) }
    {
        match self.sent(number) {
            Some(sent) => sent.is_delivered(),
            None => false,
        }
    }

    /// These messages are sent, one after the other, and wait. Without memory nothing changes.
    #[tactic(auto, using(crate::proofs::Waiting::posted_after))]
    pub fn post(&mut self, alloc: Global, frames: Items<Frame>) -> Result<(), NoMemory>
        ensures ok { OnOk result (self.new ≡ self.old ++ map posted frames) }
        ensures err { OnErr result (self.new ≡ self.old) }
    {
        let mut more = all_posted(alloc, frames)?;
        self.sent.append(&mut more)
    }

    /// Only the first messages are left. It takes no memory.
    #[tactic(auto, using(crate::proofs::Waiting::taken_short, crate::proofs::Waiting::taken_long))]
    pub fn truncate(&mut self, count: usize)
        ensures { self.new ≡ take count self.old }
    {
        self.sent.truncate(count);
        if count < self.first {
            self.first = count;
        }
    }

    /// The message of this number, which waits, is delivered or dropped. It takes no memory.
    #[tactic(auto, using(crate::proofs::Waiting::waits_there, crate::proofs::Waiting::numbered_there, crate::proofs::Waiting::ended_later))]
    fn end(&mut self, number: u64, fate: Fate)
        requires waits { is_waiting (numbered number self.old) ≡ true }
        requires ends { is_waiting_fate (fate_of fate) ≡ false }
        ensures { (x : cluster.Sent) → numbered number self.old ≡ Some x → self.new ≡ slice_set self.old (number - 1) (record x { fate = fate_of fate }) }
    {
        mark(&mut self.sent, number as usize - 1, fate);
        self.first = first_from(self.sent.as_slice(), self.first);
    }

    /// The message of this number, which waits, is delivered. It takes no memory.
    #[tactic(auto, unfolding(ct_rules_cluster::specs::Cluster::is_waiting_fate))]
    pub fn deliver(&mut self, number: u64)
        requires { is_waiting (numbered number self.old) ≡ true }
        ensures { (x : cluster.Sent) → numbered number self.old ≡ Some x → self.new ≡ slice_set self.old (number - 1) (record x { fate = cluster.Delivered }) }
    {
        self.end(number, Fate::Delivered);
    }

    /// The message of this number, which waits, is dropped. It takes no memory.
    #[tactic(auto, unfolding(ct_rules_cluster::specs::Cluster::is_waiting_fate))]
    pub fn drop(&mut self, number: u64)
        requires { is_waiting (numbered number self.old) ≡ true }
        ensures { (x : cluster.Sent) → numbered number self.old ≡ Some x → self.new ≡ slice_set self.old (number - 1) (record x { fate = cluster.Dropped }) }
    {
        self.end(number, Fate::Dropped);
    }
}
