//! The answers of boxes, links, books and seats, call by call.
use ct_frame::frame::{Frame, Msg};
use ct_links::book::{Book, LockStep};
use ct_links::boxes::{Boxes, Taken};
use ct_links::hub::{Handed, Hub, HubLink};
use ct_links::seats::{BookSeat, LockBook};
use ct_outside::fault::{ReleaseFault, TakeFault};
use ct_outside::lock::RecLock;
use ct_values::memory::NoMemory;
use std::alloc::Global;
use std::sync::Wait;
use std::test::Fail;
use std::thread;
use std::thread::Threads;

// A message, told from others by its generation.
fn message(sender: u32, receiver: u32, generation: u64) -> Frame {
    Frame {
        generation,
        receiver,
        sender,
        msg: Msg::Pull,
    }
}

// What a node finds, if it has a box.
fn take(boxes: &mut Boxes, node: u32, may_wait: bool) -> Option<Taken> {
    if boxes.has(node) {
        Some(boxes.take(node, may_wait))
    } else {
        None
    }
}

// Is it the message of this generation, from this sender to the node?
fn is_message(found: &Taken, node: u32, sender: u32, generation: u64) -> bool {
    match found {
        Taken::Message(frame) => {
            frame.receiver == node
                && frame.sender == sender
                && frame.generation == generation
                && matches!(frame.msg, Msg::Pull)
        }
        Taken::Nothing | Taken::Closed | Taken::Wait => false,
    }
}

fn finds_message(
    boxes: &mut Boxes,
    node: u32,
    may_wait: bool,
    sender: u32,
    generation: u64,
) -> bool {
    let Some(found) = take(boxes, node, may_wait) else {
        return false;
    };
    let is_it = is_message(&found, node, sender, generation);
    drop(found);
    is_it
}

// What a node finds where it finds no message.
#[derive(Clone, Copy, PartialEq)]
enum Empty {
    Nothing,
    Wait,
    Closed,
}

fn empty_as(found: &Taken) -> Option<Empty> {
    match found {
        Taken::Message(_) => None,
        Taken::Nothing => Some(Empty::Nothing),
        Taken::Wait => Some(Empty::Wait),
        Taken::Closed => Some(Empty::Closed),
    }
}

fn finds_empty(boxes: &mut Boxes, node: u32, may_wait: bool) -> Option<Empty> {
    let found = take(boxes, node, may_wait)?;
    let empty = empty_as(&found);
    drop(found);
    empty
}

fn puts(boxes: &mut Boxes, sender: u32, receiver: u32, generation: u64) -> bool {
    boxes.put(message(sender, receiver, generation)).is_ok()
}

fn leaves(boxes: &mut Boxes, node: u32) -> bool {
    if boxes.has(node) {
        boxes.leave(node);
        true
    } else {
        false
    }
}

// A call of boxes, with what it gives.
enum Call {
    Put(u32, u32, u64),
    Message(u32, u32, u64),
    Nothing(u32),
    Wait(u32),
    Closed(u32),
    Leave(u32),
    Asleep(u32, bool),
}

// Does the call give what it is to give? Messages are looked for with permission to wait at every other call.
fn answers(boxes: &mut Boxes, number: usize, call: &Call) -> bool {
    match call {
        Call::Put(sender, receiver, generation) => puts(boxes, *sender, *receiver, *generation),
        Call::Message(node, sender, generation) => {
            let wait = number.is_multiple_of(2);
            finds_message(boxes, *node, wait, *sender, *generation)
        }
        Call::Nothing(node) => finds_empty(boxes, *node, false) == Some(Empty::Nothing),
        Call::Wait(node) => finds_empty(boxes, *node, true) == Some(Empty::Wait),
        Call::Closed(node) => finds_empty(boxes, *node, true) == Some(Empty::Closed),
        Call::Leave(node) => leaves(boxes, *node),
        Call::Asleep(node, want) => boxes.is_asleep(*node) == *want,
    }
}

const RUNS: [&[Call]; 4] = [
    &[
        Call::Put(0, 1, 1),
        Call::Put(2, 1, 2),
        Call::Put(0, 3, 3),
        Call::Nothing(0),
        Call::Wait(0),
        Call::Message(1, 0, 1),
        Call::Message(1, 2, 2),
        Call::Nothing(1),
        Call::Wait(1),
        Call::Closed(2),
        Call::Closed(0),
    ],
    &[
        Call::Wait(1),
        Call::Asleep(2, false),
        Call::Wait(2),
        Call::Asleep(2, true),
        Call::Put(0, 2, 4),
        Call::Asleep(2, false),
        Call::Leave(0),
        Call::Asleep(0, false),
        Call::Asleep(3, false),
        Call::Wait(1),
        Call::Message(2, 0, 4),
        Call::Wait(1),
        Call::Closed(2),
        Call::Closed(1),
    ],
    &[
        Call::Put(1, 0, 5),
        Call::Leave(0),
        Call::Leave(1),
        Call::Closed(2),
        Call::Message(0, 1, 5),
        Call::Wait(2),
    ],
    &[
        Call::Put(1, 1, 6),
        Call::Wait(0),
        Call::Wait(2),
        Call::Message(1, 1, 6),
        Call::Closed(1),
        Call::Nothing(1),
    ],
];

// The number of the first call of a run that gives another thing.
fn other_call(alloc: Global, run: &[Call]) -> Result<Option<usize>, Fail> {
    let mut boxes = Boxes::new(alloc, 3)?;
    let mut other = None;
    for (number, call) in run.iter().enumerate() {
        if other.is_none() && !answers(&mut boxes, number, call) {
            other = Some(number);
        }
    }
    drop(boxes);
    Ok(other)
}

#[test]
fn boxes_answer(rt: HostRuntime) -> Result<(), Fail> {
    for run in RUNS {
        assert_eq!(rt; other_call(rt.alloc(), run)?, None);
    }
    Ok(())
}

#[test]
fn a_link_hands_on_what_boxes_answer(rt: HostRuntime) -> Result<(), Fail> {
    let hub = Hub::new(&rt, rt.alloc(), 2)?;
    let mut first = hub.link(0);
    let mut second = hub.link(1);
    for generation in [5, 6] {
        assert!(rt; first.send(message(0, 1, generation)).is_ok());
    }
    assert!(rt; first.send(message(0, 2, 7)).is_ok());
    for generation in [5, 6] {
        assert_eq!(rt;
            second.receive(false),
            Handed::Message(message(0, 1, generation))
        );
    }
    assert_eq!(rt; second.receive(false), Handed::Nothing);
    drop(first);
    assert_eq!(rt; second.receive(true), Handed::Closed);
    Ok(())
}

// A link and a seat of one thread.
#[derive(Drop)]
struct Desk<'h, 'b, 'r, R: Wait> {
    link: HubLink<'h, &'r R>,
    seat: BookSeat<'b, &'r R>,
    node: u32,
}

// Gives each message back to its sender, one generation earlier, until nothing will come any more. How many were there?
fn echo<R: Wait>(rt: &R, link: &mut HubLink<'_, &R>) -> Option<u64> {
    let mut count = 0u64;
    for _ in rt.forever() {
        match link.receive(true) {
            Handed::Message(frame) => {
                count = count.saturating_add(1);
                if frame.generation > 1 {
                    let back = message(frame.receiver, frame.sender, frame.generation - 1);
                    link.send(back).ok()?;
                }
            }
            Handed::Closed => return Some(count),
            Handed::Nothing => return None,
        }
    }
    unreachable!()
}

// Takes the lock where it is free, and releases it. Is it this node's where it was given?
fn hold<L: RecLock>(lock: &mut L, node: u32) -> bool {
    match lock.take(node) {
        Ok(_) => lock.release(node) == Ok(()),
        Err(TakeFault::Held { holder, .. }) => holder != node,
        Err(_) => false,
    }
}

// What the thread at a desk does: the first begins with a message, and each takes the lock and echoes.
fn work<R: Wait>(rt: &R, desk: Desk<'_, '_, '_, R>) -> Option<u64> {
    let Desk {
        mut link,
        mut seat,
        node,
    } = desk;
    if node == 0 && link.send(message(0, 1, 5)).is_err() {
        return None;
    }
    if !hold(&mut seat, node) {
        return None;
    }
    echo(rt, &mut link)
}

// Two threads, of which the first begins with a message.
fn play<R: Threads + Wait + Sync>(rt: &R, alloc: Global) -> Result<Vec<Option<u64>>, NoMemory> {
    let hub = Hub::new(rt, alloc, 2)?;
    let book = LockBook::new(rt, alloc);
    let (boxes, pages) = (&hub, &book);
    let mut desks = Vec::new(alloc);
    for node in 0..2 {
        let link = boxes.link(node);
        let seat = pages.seat();
        desks.push(Desk { link, seat, node })?;
    }
    let counts = thread::map_vec(rt, desks, &|desk| work(rt, desk))?;
    Ok(counts)
}

#[test]
fn threads_wait_for_each_other(rt: HostRuntime) -> Result<(), Fail> {
    let counts = play(&rt, rt.alloc())?;
    assert_eq!(rt; counts.as_slice(), [Some(2), Some(3)].as_slice());
    Ok(())
}

// Takes any lock.
fn taken<L: RecLock>(lock: &mut L, node: u32) -> Result<u64, TakeFault> {
    lock.take(node)
}

#[test]
fn seats_hand_on_what_the_book_answers(rt: HostRuntime) {
    let book = LockBook::new(&rt, rt.alloc());
    let mut first = book.seat();
    let mut second = book.seat();
    let held = TakeFault::Held {
        holder: 0,
        ticket: 2,
    };
    assert_eq!(rt; taken(&mut first, 0), Ok(2));
    assert_eq!(rt; taken(&mut second, 1), Err(held));
    assert_eq!(rt; taken(&mut first, 0), Ok(3));
    assert_eq!(rt; second.release(1), Err(ReleaseFault::NotHolder(Some(0))));
    assert_eq!(rt; first.release(0), Ok(()));
    assert_eq!(rt; taken(&mut second, 1), Ok(4));
}

#[test]
fn a_book_keeps_its_takes_and_releases(rt: HostRuntime) {
    let mut book = Book::new(rt.alloc());
    assert_eq!(rt; book.release(2), Err(ReleaseFault::NotHolder(None)));
    assert_eq!(rt; book.take(2), Ok(2));
    assert_eq!(rt; book.take(2), Ok(3));
    assert_eq!(rt; book.release(2), Ok(()));
    assert_eq!(rt; book.take(0), Ok(4));
    let want = [
        LockStep::Take { node: 2, ticket: 2 },
        LockStep::Take { node: 2, ticket: 3 },
        LockStep::Release { node: 2 },
        LockStep::Take { node: 0, ticket: 4 },
    ];
    assert_eq!(rt; book.steps(), want.as_slice());
}
