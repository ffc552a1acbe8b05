//! A node follows a script of two calls, a round and a call.
ghost use Rattle.std.specs.Prelude.{◌<◌};

use ct_frame::event::{Event, Out};
use ct_frame::frame::{Frame, Msg};
use ct_journal::journal::JournalEntry;
use ct_script::cue::Cue;
use ct_script::plan::PlanItem;
use ct_values::client::{Answer, ClientOp};
use ct_values::items::Items;
use ct_values::key::Key;
use ct_values::memory::NoMemory;
use std::alloc::Global;
use std::test::Fail;

// What comes to the node.
#[derive(Clone, Copy)]
enum Given {
    Call(u64),
    Round,
    Message,
}

fn read(alloc: Global, letter: &[u8]) -> Result<ClientOp, Fail> {
    let key = Key::new(alloc, letter)?;
    Ok(ClientOp::Read { db: 1, key })
}

fn event(alloc: Global, given: Given) -> Result<Event, Fail> {
    match given {
        Given::Call(call) => {
            let op = read(alloc, b"k")?;
            Ok(Event::Client { call, op })
        }
        Given::Round => Ok(Event::BeginRound {
            ticket: 2,
            members: Items::empty(alloc),
        }),
        Given::Message => Ok(Event::Arrive(Frame {
            generation: 1,
            sender: 1,
            receiver: 0,
            msg: Msg::FreezeAck,
        })),
    }
}

fn add_answers(outs: &mut Vec<Out>, calls: &[u64]) -> Result<(), NoMemory> {
    for call in calls {
        outs.push(Out::Answer {
            call: *call,
            answer: Answer::Written,
        })?;
    }
    Ok(())
}

// It answers the calls of these numbers.
fn answers(alloc: Global, calls: &[u64]) -> Result<Vec<Out>, NoMemory> {
    let mut outs = Vec::new(alloc);
    add_answers(&mut outs, calls)?;
    Ok(outs)
}

fn add(items: &mut Vec<PlanItem>, item: PlanItem) -> Result<(), Fail> {
    items.push(item)?;
    Ok(())
}

fn script(alloc: Global) -> Result<Vec<PlanItem>, Fail> {
    let mut items = Vec::new(alloc);
    add(&mut items, PlanItem::Call(read(alloc, b"a")?))?;
    add(&mut items, PlanItem::Call(read(alloc, b"b")?))?;
    add(&mut items, PlanItem::Round(Items::empty(alloc)))?;
    Ok(items)
}

fn add_call(alloc: Global, entries: &mut Vec<JournalEntry>, call: u64) -> Result<(), Fail> {
    let event = event(alloc, Given::Call(call))?;
    entries.push(JournalEntry {
        event,
        outs: Items::empty(alloc),
    })?;
    Ok(())
}

/// The entries of calls 6 and 3.
fn before(alloc: Global) -> Result<Vec<JournalEntry>, Fail> {
    let mut entries = Vec::new(alloc);
    add_call(alloc, &mut entries, 6)?;
    add_call(alloc, &mut entries, 3)?;
    Ok(entries)
}

fn first(alloc: Global) -> Result<Cue, Fail> {
    let before = before(alloc)?;
    Ok(Cue::first(before.as_slice()))
}

// An event comes to a node that has taken few items.
#[tactic(auto, using(crate::proofs::Few::begun_few))]
fn follow(cue: &mut Cue, event: &Event, outs: &[Out])
    requires { cue.old.taken < 10 }
{
    cue.follow(event, outs);
}

/// It comes, and these calls are answered.
fn comes(alloc: Global, cue: &mut Cue, given: Given, answered: &[u64]) -> Result<(), Fail>
    requires { cue.old.taken < 10 }
{
    let outs = answers(alloc, answered)?;
    let event = event(alloc, given)?;
    follow(cue, &event, outs.as_slice());
    drop(event);
    Ok(())
}

fn is_next(cue: &Cue, script: &[PlanItem], place: Option<usize>) -> bool {
    let item = match place {
        Some(place) => script.get(place),
        None => None,
    };
    cue.next(script) == item
}

// What comes, which calls are answered then, and the cue afterwards, with the place of the item that may be taken then.
const TABLE: [(Given, &[u64], (usize, u64, Option<u64>), Option<usize>); 7] = [
    (Given::Message, &[], (0, 6, None), Some(0)),
    (Given::Call(7), &[7], (1, 7, None), Some(1)),
    (Given::Call(8), &[], (2, 8, Some(8)), None),
    (Given::Message, &[7], (2, 8, Some(8)), None),
    (Given::Message, &[9, 8], (2, 8, None), Some(2)),
    (Given::Round, &[], (3, 8, None), None),
    (Given::Message, &[8], (3, 8, None), None),
];

#[test]
fn a_node_follows_its_script(rt: HostRuntime) -> Result<(), Fail> {
    let alloc = rt.alloc();
    let script = script(alloc)?;
    let mut cue = first(alloc)?;
    for (given, answered, (taken, calls, waits), place) in TABLE {
        if cue.taken < 10 {
            comes(alloc, &mut cue, given, answered)?;
        }
        assert!(rt; cue.taken == taken && cue.calls == calls && cue.waits == waits);
        assert!(rt; is_next(&cue, script.as_slice(), place));
    }
    Ok(())
}
