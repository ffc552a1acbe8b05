//! The messages that a node was sent and that had not arrived, sender by sender.
ghost use Rattle.std.specs.Prelude.{◌≡◌, ◌<◌, ◌++◌, ◌∷◌, [], length, slice_set, IfOk, OnOk, replicate};
ghost use Rattle.ct_journal.specs.Order.{frames_in};
ghost use Rattle.ct_journal_order.specs.Letters.{AllLetters, put_behind, put_letters, put_all_letters, first_from, first_of, letters_at, put_letter, rest_of, taken_from};

use ct_frame::event::Out;
use ct_frame::frame::Frame;
use ct_journal::journal::{Journal, JournalEntry};
use ct_values::memory::NoMemory;
use std::alloc::Global;
use std::collections::VecDeque;
use std::marker::Model;
use std::mem;

/// A message, and how many entries of its sender stand once it is sent.
#[derive(Drop)]
pub struct Letter<'a> {
    pub frame: &'a Frame,
    pub count: usize,
}

impl<'a> Model for Letter<'a> {
    ghost use Rattle.ct_journal_order.specs.Letters.{Despatched};

    ghost Value = { Despatched };

    ghost view = { λ a. record { frame = a.frame.now; count = a.count } };
}

/// The messages of one node to another that had not arrived, in the order in which they were sent.
#[derive(Drop)]
pub struct Letters<'a> {
    list: VecDeque<Letter<'a>>,
}

impl<'a> Model for Letters<'a> {
    ghost use Rattle.std.specs.Prelude.{List};
    ghost use Rattle.ct_journal_order.specs.Letters.{Despatched};

    ghost Value = { List Despatched };

    ghost view = { λ a. a.list.items };
}

impl<'a> Letters<'a> {
    fn none(alloc: Global) -> Letters<'a>
        ensures { result ≡ [] }
    {
        Letters {
            list: VecDeque::new(alloc),
        }
    }

    fn push(&mut self, letter: Letter<'a>) -> Result<(), NoMemory>
        ensures { OnOk result (self.new ≡ self.old ++ letter.entry ∷ []) }
    {
        match self.list.push_back(letter) {
            Ok(()) => Ok(()),
            Err(_) => Err(NoMemory),
        }
    }

    /// Takes the first one off.
    fn next(&mut self) -> Option<Letter<'a>>
        ensures first { result ≡ first_of self.old }
        ensures rest { self.new ≡ rest_of self.old }
    {
        self.list.pop_front()
    }
}

/// The messages to one node that had not arrived: those of each sender.
#[derive(Drop)]
pub struct Incoming<'a> {
    senders: Vec<Letters<'a>>,
}

impl<'a> Model for Incoming<'a> {
    ghost use Rattle.std.specs.Prelude.{List};
    ghost use Rattle.ct_journal_order.specs.Letters.{Despatched};

    ghost Value = { List (List Despatched) };

    ghost view = { λ a. a.senders.items };
}

impl<'a> Incoming<'a> {
    fn none(alloc: Global) -> Incoming<'a>
        ensures { result ≡ [] }
    {
        Incoming {
            senders: Vec::new(alloc),
        }
    }

    /// No message of any of so many senders.
    fn new(alloc: Global, nodes: usize) -> Result<Incoming<'a>, NoMemory>
        ensures { IfOk result (λ ls. ls ≡ replicate nodes []) }
    {
        let mut senders = Vec::new(alloc);
        for _ in 0..nodes {
            senders.push(Letters::none(alloc))?;
        }
        Ok(Incoming { senders })
    }

    /// Puts a message behind the others of its sender.
    #[tactic(auto, unfolding(crate::specs::Letters::put_behind))]
    fn add(&mut self, sender: usize, letter: Letter<'a>) -> Result<(), NoMemory>
        ensures { OnOk result (self.new ≡ put_behind sender (letter.entry ∷ []) self.old) }
    {
        if sender < self.senders.len() {
            self.senders[sender].push(letter)?;
        }
        Ok(())
    }

    /// The messages of each sender.
    fn into_senders(self) -> Vec<Letters<'a>>
        ensures { result.items ≡ self.entry }
    {
        self.senders
    }
}

/// No messages between so many nodes.
fn no_letters<'a>(alloc: Global, nodes: usize) -> Result<Vec<Incoming<'a>>, NoMemory>
    ensures { IfOk result (λ v. v.items ≡ replicate nodes (replicate nodes [])) }
{
    let mut receivers = Vec::new(alloc);
    for _ in 0..nodes {
        receivers.push(Incoming::new(alloc, nodes)?)?;
    }
    Ok(receivers)
}

/// Puts a message behind the others of its sender to its receiver. One to what is no node of these is dropped.
#[tactic(auto, unfolding(crate::specs::Letters::put_letter, crate::specs::Letters::letters_at))]
fn post<'a>(
    receivers: &mut Vec<Incoming<'a>>,
    sender: usize,
    letter: Letter<'a>,
) -> Result<(), NoMemory>
    ensures { OnOk result (receivers.new.items ≡ put_letter sender letter.entry receivers.old.items) }
{
    let receiver = letter.frame.receiver as usize;
    if receiver < receivers.len() {
        receivers[receiver].add(sender, letter)?;
    }
    Ok(())
}

/// Puts the messages that an entry of the sender sends, where so many of its entries stand then.
#[tactic(auto, unfolding(ct_journal::specs::Order::frames_in, crate::specs::Letters::put_letters))]
fn post_all<'a>(
    receivers: &mut Vec<Incoming<'a>>,
    sender: usize,
    count: usize,
    outs: &'a [Out],
) -> Result<(), NoMemory>
    ensures { OnOk result (receivers.new.items ≡ put_letters sender count (frames_in outs.now) receivers.old.items) }
{
    for out in outs {
        if let Out::Send(frame) = out {
            post(receivers, sender, Letter { frame, count })?;
        }
    }
    Ok(())
}

/// Puts all messages that these entries of the sender send.
#[tactic(auto, unfolding(crate::specs::Letters::put_all_letters))]
fn post_entries<'a>(
    receivers: &mut Vec<Incoming<'a>>,
    sender: usize,
    entries: &'a [JournalEntry],
) -> Result<(), NoMemory>
    ensures { OnOk result (receivers.new.items ≡ put_all_letters sender 0 entries.now receivers.old.items) }
{
    for place in 0..entries.len() {
        post_all(receivers, sender, place + 1, entries[place].outs.as_slice())?;
    }
    Ok(())
}

/// The messages of each journal to each node. Each entry is gone through once.
#[tactic(auto, using(crate::proofs::Posting::far_first, crate::proofs::Posting::far_more))]
pub fn all_letters<'a>(
    alloc: Global,
    journals: &'a [Journal],
) -> Result<Vec<Incoming<'a>>, NoMemory>
    ensures { IfOk result (λ v. AllLetters journals.now v.items) }
{
    let mut receivers = no_letters(alloc, journals.len())?;
    for sender in 0..journals.len() {
        post_entries(&mut receivers, sender, journals[sender].entries.as_slice())?;
    }
    Ok(receivers)
}

/// Takes off all messages to the node.
#[tactic(auto, unfolding(crate::specs::Letters::letters_at))]
pub fn take_letters<'a>(
    alloc: Global,
    receivers: &mut Vec<Incoming<'a>>,
    node: usize,
) -> Vec<Letters<'a>>
    requires { node < length receivers.old.items }
    ensures letters { result.items ≡ letters_at node receivers.old.items }
    ensures rest { receivers.new.items ≡ slice_set receivers.old.items node [] }
{
    mem::replace(&mut receivers[node], Incoming::none(alloc)).into_senders()
}

/// Takes the first message of a sender off.
pub fn take_letter<'a>(all: &mut Vec<Letters<'a>>, sender: u32) -> Option<Letter<'a>>
    ensures first { result ≡ first_from all.old.items sender }
    ensures rest { all.new.items ≡ taken_from all.old.items sender }
{
    if (sender as usize) < all.len() {
        all[sender as usize].next()
    } else {
        None
    }
}
