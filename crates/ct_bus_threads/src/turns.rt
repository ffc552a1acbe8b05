//! What a node does with one other node in a round: it posts a message, and takes one.
ghost use Rattle.std.specs.Prelude.{◌≡◌, ◌≢◌, ◌<◌, ◌^◌, List, [], ◌∷◌, false, None, MatchOption, length, slice_set};
ghost use Rattle.ct_bus.specs.Seats.{IsReceiving, IsSending, posted_at, posted_by, receiving, sending, taken_at, taken_by};
ghost use Rattle.ct_bus.specs.declared.message.Message.{Message as Posted};
ghost use Rattle.ct_bus_exchange.specs.Exchange.{AreCounted};
ghost use Rattle.ct_bus_threads.specs.Works.{IsSound, fixed, left_of, planned};

use crate::work::{Todo, Work};
use ct_bus::bus::Bus;
use ct_bus::message::Message;
use ct_bus::seat::{ReceiveSeat, SendSeat};
use std::sync::Wait;

/// The message that came back, or else the next one, where one is left.
fn next_of(todo: &mut Todo) -> Option<Message>
    ensures next { MatchOption result ((left_of todo.old ≡ []) × (left_of todo.new ≡ [])) (λ m. left_of todo.old ≡ m ∷ left_of todo.new) }
    ensures held { todo.new.held ≡ None }
    ensures aside { (todo.new.wanted ≡ todo.old.wanted) × (todo.new.came ≡ todo.old.came) × (todo.new.got ≡ todo.old.got) }
{
    match todo.held.take() {
        Some(message) => Some(message),
        None => todo.rest.next(),
    }
}

/// Posts the next message. Was it posted? It is kept for the next time where it comes back.
fn post_next<R: Wait>(bus: &Bus<R>, send: &mut SendSeat, receiver: u32, todo: &mut Todo) -> bool
    requires seat { IsSending bus.now (sending send.old) }
    requires receiver { (receiver < length bus.now) × (receiver ≢ (sending send.old).node) }
    requires counted { AreCounted (planned (posted_at receiver send.old) todo.old) }
    requires few { length (planned (posted_at receiver send.old) todo.old) < 2 ^ 61 }
    ensures seat { ((sending send.new).node ≡ (sending send.old).node) × ((sending send.new).queues ≡ (sending send.old).queues) }
    ensures plan { (ms : List Posted) × (posted_by send.new ≡ slice_set (posted_by send.old) receiver ms) × (planned ms todo.new ≡ planned (posted_at receiver send.old) todo.old) }
    ensures aside { (todo.new.wanted ≡ todo.old.wanted) × (todo.new.came ≡ todo.old.came) × (todo.new.got ≡ todo.old.got) }
{
    let Some(Message { srvid, place, body }) = next_of(todo) else {
        return false;
    };
    match bus.post(send, receiver, srvid, body) {
        Ok(_) => true,
        Err(body) => {
            todo.held = Some(Message { srvid, place, body });
            false
        }
    }
}

/// Takes a message, where one waits and is wanted. One that cannot be kept is marked. Was one taken?
fn take_next<R: Wait>(
    bus: &Bus<R>,
    receive: &mut ReceiveSeat,
    sender: u32,
    todo: &mut Todo,
    lost: &mut bool,
) -> bool
    requires seat { IsReceiving bus.now (receiving receive.old) }
    requires sender { (sender < length bus.now) × (sender ≢ (receiving receive.old).node) }
    requires came { todo.old.came ≡ length (taken_at sender receive.old) }
    requires kept { lost.old ≡ false → todo.old.got.items ≡ taken_at sender receive.old }
    ensures seat { ((receiving receive.new).node ≡ (receiving receive.old).node) × ((receiving receive.new).queues ≡ (receiving receive.old).queues) }
    ensures taken { (ms : List Posted) × (taken_by receive.new ≡ slice_set (taken_by receive.old) sender ms) × (todo.new.came ≡ length ms) × (lost.new ≡ false → (lost.old ≡ false) × (todo.new.got.items ≡ ms)) }
    ensures aside { (todo.new.wanted ≡ todo.old.wanted) × (todo.new.held ≡ todo.old.held) × (todo.new.rest ≡ todo.old.rest) }
{
    if todo.came >= todo.wanted {
        return false;
    }
    match bus.poll(receive, sender) {
        Some(message) => {
            todo.came += 1;
            if todo.got.push(message).is_err() {
                *lost = true;
            }
            true
        }
        None => false,
    }
}

/// The node posts to one other node, where something is left.
pub(crate) fn post_turn<R: Wait>(bus: &Bus<R>, work: &mut Work, other: u32) -> bool
    requires sound { IsSound bus.now work.old }
    requires other { (other < length bus.now) × (other ≢ work.old.node) }
    ensures fixed { fixed work.new ≡ fixed work.old }
    ensures sound { IsSound bus.now work.new }
{
    post_next(bus, &mut work.send, other, &mut work.all[other as usize])
}

/// The node takes what one other node posted, where something waits and is wanted.
pub(crate) fn take_turn<R: Wait>(bus: &Bus<R>, work: &mut Work, other: u32) -> bool
    requires sound { IsSound bus.now work.old }
    requires other { (other < length bus.now) × (other ≢ work.old.node) }
    ensures fixed { fixed work.new ≡ fixed work.old }
    ensures sound { IsSound bus.now work.new }
{
    take_next(
        bus,
        &mut work.receive,
        other,
        &mut work.all[other as usize],
        &mut work.lost,
    )
}
