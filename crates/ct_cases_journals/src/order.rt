//! Journals of a few entries.
ghost use Rattle.std.specs.Prelude.{◌≡◌, length, IfOk};

use ct_frame::event::{Event, Out};
use ct_frame::frame::{Frame, Msg};
use ct_journal::journal::{Journal, JournalEntry};
use ct_journal_order::order::{in_order, order_of};
use ct_values::client::ClientOp;
use ct_values::items::Items;
use ct_values::memory::NoMemory;
use std::alloc::Global;
use std::test::Fail;

// What a node is given. Each has the messages that the node sends then: the receiver, and a number that tells the message.
#[derive(Clone, Copy)]
enum Given {
    // A client call of this number.
    Call(u64, &'static [(u32, u64)]),
    // A message: the sender, and its number.
    Came(u32, u64, &'static [(u32, u64)]),
    // A round: the ticket, and the members.
    Round(u64, &'static [u32], &'static [(u32, u64)]),
    Retry,
}

fn frame(sender: u32, receiver: u32, number: u64) -> Frame {
    Frame {
        generation: 1,
        sender,
        receiver,
        msg: Msg::PAck { db: 1, seq: number },
    }
}

fn add_sent(outs: &mut Items<Out>, node: u32, sent: &[(u32, u64)]) -> Result<(), NoMemory> {
    for (receiver, number) in sent {
        outs.push(Out::Send(frame(node, *receiver, *number)))?;
    }
    Ok(())
}

fn sends(alloc: Global, node: u32, sent: &[(u32, u64)]) -> Result<Items<Out>, NoMemory> {
    let mut outs = Items::empty(alloc);
    add_sent(&mut outs, node, sent)?;
    Ok(outs)
}

fn event(alloc: Global, node: u32, given: Given) -> Result<Event, NoMemory> {
    match given {
        Given::Call(call, _) => Ok(Event::Client {
            call,
            op: ClientOp::Commit {
                db: 1,
                writes: Items::empty(alloc),
            },
        }),
        Given::Came(sender, number, _) => Ok(Event::Arrive(frame(sender, node, number))),
        Given::Round(ticket, members, _) => {
            let members = Items::new(Vec::from_slice(alloc, members)?);
            Ok(Event::BeginRound { ticket, members })
        }
        Given::Retry => Ok(Event::Retry),
    }
}

fn sent(given: Given) -> &'static [(u32, u64)] {
    match given {
        Given::Call(_, sent) => sent,
        Given::Came(_, _, sent) => sent,
        Given::Round(_, _, sent) => sent,
        Given::Retry => &[],
    }
}

fn entry(alloc: Global, node: u32, given: Given) -> Result<JournalEntry, NoMemory> {
    let outs = sends(alloc, node, sent(given))?;
    match event(alloc, node, given) {
        Ok(event) => Ok(JournalEntry { event, outs }),
        Err(NoMemory) => Err(NoMemory),
    }
}

fn add_entry(
    alloc: Global,
    entries: &mut Items<JournalEntry>,
    node: u32,
    given: Given,
) -> Result<(), NoMemory> {
    entries.push(entry(alloc, node, given)?)?;
    Ok(())
}

fn add_entries(
    alloc: Global,
    entries: &mut Items<JournalEntry>,
    node: u32,
    given: &[Given],
) -> Result<(), NoMemory> {
    for one in given {
        add_entry(alloc, entries, node, *one)?;
    }
    Ok(())
}

fn journal(alloc: Global, node: u32, given: &[Given]) -> Result<Journal, NoMemory> {
    let mut entries = Items::empty(alloc);
    add_entries(alloc, &mut entries, node, given)?;
    Ok(Journal { node, entries })
}

fn journals(alloc: Global, first: &[Given], second: &[Given]) -> Result<Vec<Journal>, NoMemory>
    ensures { IfOk result (λ v. length v.items ≡ 2) }
{
    let mut journals = Vec::new(alloc);
    journals.push(journal(alloc, 0, first)?)?;
    journals.push(journal(alloc, 1, second)?)?;
    Ok(journals)
}

// What is answered of the journals of two nodes.
fn answer(alloc: Global, first: &[Given], second: &[Given]) -> Result<Option<u64>, NoMemory> {
    let journals = journals(alloc, first, second)?;
    in_order(alloc, journals.as_slice())
}

#[test]
fn two_clients_write_the_same_record(rt: HostRuntime) -> Result<(), Fail> {
    let first = [
        Given::Call(1, &[]),
        Given::Came(1, 1, &[(0, 2)]),
        Given::Came(0, 2, &[(0, 3)]),
        Given::Came(0, 3, &[(1, 4)]),
    ];
    let second = [Given::Call(1, &[(0, 1)]), Given::Came(0, 4, &[])];
    assert!(rt; answer(rt.alloc(), &first, &second)? == Some(0));
    assert!(rt; answer(rt.alloc(), &second, &first)? == None);
    Ok(())
}

#[test]
fn messages_arrive_as_they_were_sent(rt: HostRuntime) -> Result<(), Fail> {
    let two = [Given::Call(1, &[(1, 1), (1, 2)])];
    let one = [Given::Came(0, 1, &[])];
    let turned = [Given::Came(0, 2, &[]), Given::Came(0, 1, &[])];
    assert!(rt; answer(rt.alloc(), &two, &one)? == Some(1));
    assert!(rt; answer(rt.alloc(), &two, &turned)? == None);
    let early = [Given::Came(1, 1, &[(1, 2)])];
    let late = [Given::Came(0, 2, &[(0, 1)])];
    assert!(rt; answer(rt.alloc(), &early, &late)? == None);
    Ok(())
}

#[test]
fn tickets_and_calls_rise(rt: HostRuntime) -> Result<(), Fail> {
    let third = [Given::Round(3, &[0, 1], &[])];
    let second = [Given::Round(2, &[1], &[])];
    let twice = [Given::Call(1, &[]), Given::Call(1, &[])];
    let retry = [Given::Retry];
    assert!(rt; answer(rt.alloc(), &third, &second)? == Some(0));
    assert!(rt; answer(rt.alloc(), &second, &third)? == None);
    assert!(rt; answer(rt.alloc(), &twice, &[])? == None);
    assert!(rt; answer(rt.alloc(), &retry, &[])? == None);
    Ok(())
}

fn is_order(order: Option<Vec<u32>>, wanted: Option<&[u32]>) -> bool {
    match order {
        Some(nodes) => wanted == Some(nodes.as_slice()),
        None => wanted.is_none(),
    }
}

fn stand(
    alloc: Global,
    first: &[Given],
    second: &[Given],
    wanted: Option<&[u32]>,
) -> Result<bool, Fail> {
    let these = journals(alloc, first, second)?;
    Ok(is_order(order_of(alloc, these.as_slice())?, wanted))
}

#[test]
fn entries_stand_in_the_order_that_is_answered(rt: HostRuntime) -> Result<(), Fail> {
    let third = [Given::Round(3, &[0, 1], &[])];
    let second = [Given::Round(2, &[1], &[])];
    assert!(rt; stand(rt.alloc(), &third, &second, Some(&[1, 0]))?);
    assert!(rt; stand(rt.alloc(), &second, &third, None)?);
    Ok(())
}
