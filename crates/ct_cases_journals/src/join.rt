//! The steps of two journals, one after the other.
ghost use Rattle.std.specs.Prelude.{◌≡◌, ◌≤◌, ◌<◌, ◌+◌, ◌^◌, ◌++◌, ◌∷◌, [], length, IfOk, OnOk};
ghost use Rattle.ct_journal.specs.Order as order;

use ct_frame::event::{Event, Out};
use ct_frame::frame::{Frame, Msg};
use ct_journal::journal::{Journal, JournalEntry};
use ct_journal_join::schedule::schedule;
use ct_rules_cluster::step::Step;
use ct_values::client::ClientOp;
use ct_values::items::Items;
use ct_values::key::Key;
use std::alloc::Global;
use std::test::Fail;

/// What comes to a node.
#[derive(Clone, Copy)]
enum Comes {
    Call,
    Message { sender: u32, receiver: u32 },
    Round(u64),
}

/// What a step is about.
#[derive(Clone, Copy, PartialEq)]
enum Told {
    Asks(u32),
    Delivers(u64),
    Recovers(u32),
    Yields(u32),
    Other,
}

fn frame(sender: u32, receiver: u32) -> Frame {
    Frame {
        generation: 1,
        sender,
        receiver,
        msg: Msg::Pull,
    }
}

/// No message of a node to another, or one, or two.
#[tactic(auto, unfolding(ct_journal::specs::Order::frames_in))]
fn sends(alloc: Global, node: u32, receiver: u32, count: usize) -> Result<Items<Out>, Fail>
    ensures { IfOk result (λ xs. length (order.frames_in xs) ≤ 2) }
{
    let mut outs = Vec::new(alloc);
    if count == 0 {
        return Ok(Items::new(outs));
    }
    outs.push(Out::Send(frame(node, receiver)))?;
    if count == 1 {
        return Ok(Items::new(outs));
    }
    outs.push(Out::Send(frame(node, receiver)))?;
    Ok(Items::new(outs))
}

fn event(alloc: Global, comes: Comes) -> Result<Event, Fail> {
    match comes {
        Comes::Call => {
            let key = Key::new(alloc, b"a")?;
            Ok(Event::Client {
                call: 1,
                op: ClientOp::Read { db: 1, key },
            })
        }
        Comes::Message { sender, receiver } => Ok(Event::Arrive(frame(sender, receiver))),
        Comes::Round(ticket) => Ok(Event::BeginRound {
            ticket,
            members: Items::new(vec![in alloc; 0, 1]?),
        }),
    }
}

/// An entry of a node that sends so many messages to another.
fn entry(
    alloc: Global,
    comes: Comes,
    node: u32,
    receiver: u32,
    count: usize,
) -> Result<JournalEntry, Fail>
    ensures { IfOk result (λ x. length (order.frames_in x.outs) ≤ 2) }
{
    let outs = sends(alloc, node, receiver, count)?;
    let event = event(alloc, comes)?;
    Ok(JournalEntry { event, outs })
}

fn add(entries: &mut Items<JournalEntry>, entry: JournalEntry) -> Result<(), Fail>
    ensures { OnOk result (entries.new ≡ entries.old ++ entry ∷ []) }
{
    entries.push(entry)?;
    Ok(())
}

/// A journal of three entries.
#[tactic(auto, unfolding(ct_journal::specs::Order::count_sent))]
fn journal(
    alloc: Global,
    node: u32,
    one: JournalEntry,
    two: JournalEntry,
    three: JournalEntry,
) -> Result<Journal, Fail>
    requires one { length (order.frames_in one.outs) ≤ 2 }
    requires two { length (order.frames_in two.outs) ≤ 2 }
    requires three { length (order.frames_in three.outs) ≤ 2 }
    ensures { IfOk result (λ j. length j.entries + order.count_sent j.entries ≤ 9) }
{
    let mut entries = Items::empty(alloc);
    if let Err(fail) = add(&mut entries, one) {
        drop(two);
        drop(three);
        return Err(fail);
    }
    if let Err(fail) = add(&mut entries, two) {
        drop(three);
        return Err(fail);
    }
    add(&mut entries, three)?;
    Ok(Journal { node, entries })
}

#[tactic(auto, using(crate::proofs::Pairs::both_few))]
fn both(alloc: Global, first: Journal, second: Journal) -> Result<Vec<Journal>, Fail>
    requires first { length first.entries + order.count_sent first.entries ≤ 9 }
    requires second { length second.entries + order.count_sent second.entries ≤ 9 }
    ensures { IfOk result (λ js. length (order.all_entries js.items) + order.count_sent (order.all_entries js.items) < 2 ^ 61) }
{
    let mut journals = Vec::new(alloc);
    journals.push(first)?;
    journals.push(second)?;
    Ok(journals)
}

fn told_by(step: &Step) -> Told {
    match step {
        Step::Client { node, .. } => Told::Asks(*node),
        Step::Deliver(number) => Told::Delivers(*number),
        Step::Recover { node, .. } => Told::Recovers(*node),
        Step::Yield(node) => Told::Yields(*node),
        _ => Told::Other,
    }
}

/// Node 0 is called, leads a round, and is sent a message.
fn first_journal(alloc: Global) -> Result<Journal, Fail>
    ensures { IfOk result (λ j. length j.entries + order.count_sent j.entries ≤ 9) }
{
    let called = entry(alloc, Comes::Call, 0, 1, 2)?;
    let leads = match entry(alloc, Comes::Round(3), 0, 1, 1) {
        Ok(leads) => leads,
        Err(fail) => {
            drop(called);
            return Err(fail);
        }
    };
    let answer = Comes::Message {
        sender: 1,
        receiver: 0,
    };
    let answered = match entry(alloc, answer, 0, 0, 0) {
        Ok(answered) => answered,
        Err(fail) => {
            drop(called);
            drop(leads);
            return Err(fail);
        }
    };
    journal(alloc, 0, called, leads, answered)
}

/// Node 1 leads the round before, and is sent two messages.
fn second_journal(alloc: Global) -> Result<Journal, Fail>
    ensures { IfOk result (λ j. length j.entries + order.count_sent j.entries ≤ 9) }
{
    let leads = entry(alloc, Comes::Round(2), 1, 0, 1)?;
    let message = Comes::Message {
        sender: 0,
        receiver: 1,
    };
    let one = match entry(alloc, message, 1, 0, 0) {
        Ok(one) => one,
        Err(fail) => {
            drop(leads);
            return Err(fail);
        }
    };
    let two = match entry(alloc, message, 1, 0, 0) {
        Ok(two) => two,
        Err(fail) => {
            drop(leads);
            drop(one);
            return Err(fail);
        }
    };
    journal(alloc, 1, leads, one, two)
}

fn are_told(steps: &[Step], wanted: &[Told]) -> bool {
    let mut same = steps.len() == wanted.len();
    for (step, told) in steps.iter().zip(wanted) {
        same = same && told_by(step) == *told;
    }
    same
}

fn both_journals(alloc: Global) -> Result<Vec<Journal>, Fail>
    ensures { IfOk result (λ js. length (order.all_entries js.items) + order.count_sent (order.all_entries js.items) < 2 ^ 61) }
{
    let first = first_journal(alloc)?;
    let second = second_journal(alloc)?;
    both(alloc, first, second)
}

#[test]
fn two_rounds(rt: HostRuntime) -> Result<(), Fail> {
    let alloc = rt.alloc();
    let journals = both_journals(alloc)?;
    let steps = schedule(alloc, journals.as_slice(), &[0, 1, 1, 0, 0, 1, 1])?;
    let wanted = [
        Told::Asks(0),
        Told::Recovers(1),
        Told::Delivers(1),
        Told::Yields(1),
        Told::Recovers(0),
        Told::Delivers(3),
        Told::Delivers(2),
    ];
    assert!(rt; are_told(steps.as_slice(), &wanted));
    Ok(())
}
