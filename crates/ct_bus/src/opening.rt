//! How a bus is made, with all its seats.
ghost use Rattle.std.specs.Prelude.{◌≡◌, ◌≤◌, [], length, map, IfOk};
ghost use Rattle.ct_bus.specs.Ends.{into_queue, out_queue, posted_to, taken_from};
ghost use Rattle.ct_bus.specs.Opening.{AreColumns, AreRows, joined, new_shown, nothing};
ghost use Rattle.ct_bus.specs.Seats.{AreNew, AreSeats, receiving, sending};

use crate::bus::Bus;
use crate::ends::TakeEnd;
use crate::line::{Line, NewLine};
use crate::seat::{ReceiveSeat, SendSeat};
use ct_values::items::Items;
use ct_values::memory::NoMemory;
use std::alloc::Global;

/// A bus and all its seats, each kind in the order of the nodes.
#[derive(Drop)]
pub struct Opened<R> {
    pub bus: Bus<R>,
    pub senders: Vec<SendSeat>,
    pub receivers: Vec<ReceiveSeat>,
}

/// The queues to which one node posts, with its seat, and where each node takes of them.
#[derive(Drop)]
struct NewRow {
    lines: Items<Line>,
    send: SendSeat,
    takes: Vec<TakeEnd>,
}

/// A queue from this node to each of so many.
fn new_row(alloc: Global, sender: u32, nodes: u32) -> Result<NewRow, NoMemory>
    ensures count { IfOk result (λ r. length r.lines ≡ nodes) }
    ensures send { IfOk result (λ r. sending r.send ≡ new_shown sender r.lines) }
    ensures takes { IfOk result (λ r. map out_queue r.takes.items ≡ r.lines) }
    ensures none { IfOk result (λ r. map taken_from r.takes.items ≡ nothing r.lines) }
{
    let mut lines = Items::empty(alloc);
    let mut posts = Vec::new(alloc);
    let mut takes = Vec::new(alloc);
    for receiver in 0..nodes {
        let NewLine { line, post, take } = Line::open(alloc, sender)?;
        lines.push(line)?;
        posts.push(post)?;
        takes.push(take)?;
    }
    Ok(NewRow {
        lines,
        send: SendSeat {
            me: sender,
            ends: posts,
        },
        takes,
    })
}

/// Seats of so many nodes which have no ends yet.
#[tactic(auto, using(crate::proofs::Columns::seats_first, crate::proofs::Columns::seats_more))]
fn no_ends(alloc: Global, nodes: u32) -> Result<Vec<ReceiveSeat>, NoMemory>
    ensures { IfOk result (λ v. AreColumns nodes [] (map receiving v.items)) }
{
    let mut seats = Vec::new(alloc);
    for me in 0..nodes {
        seats.push(ReceiveSeat {
            me,
            ends: Vec::new(alloc),
        })?;
    }
    Ok(seats)
}

/// Each seat has one end more.
#[tactic(auto, using(crate::proofs::Columns::joined_none))]
fn widened(
    alloc: Global,
    seats: Vec<ReceiveSeat>,
    takes: Vec<TakeEnd>,
) -> Result<Vec<ReceiveSeat>, NoMemory>
    ensures { IfOk result (λ v. map receiving v.items ≡ joined (map receiving seats.items) takes.items) }
{
    let mut all = Vec::new(alloc);
    let mut rest = takes.into_iter();
    for mut seat in seats {
        if let Some(take) = rest.next() {
            seat.ends.push(take)?;
            all.push(seat)?;
        }
    }
    Ok(all)
}

impl<R: Drop> Bus<R> {
    /// A bus of 2 to 8 nodes with nothing in it, and all its seats. It makes all places, so that no post wants memory.
    #[tactic(auto, using(crate::proofs::Columns::rows_first))]
    pub fn new(rt: R, alloc: Global, nodes: u32) -> Result<Opened<R>, NoMemory>
        requires { (2 ≤ nodes) × (nodes ≤ 8) }
        ensures count { IfOk result (λ o. length o.bus ≡ nodes) }
        ensures seats { IfOk result (λ o. AreSeats o.bus o.senders.items o.receivers.items) }
        ensures new { IfOk result (λ o. AreNew (map sending o.senders.items) × AreNew (map receiving o.receivers.items)) }
    {
        let mut rows = Items::empty(alloc);
        let mut senders = Vec::new(alloc);
        let mut receivers = no_ends(alloc, nodes)?;
        for sender in 0..nodes {
            let NewRow { lines, send, takes } = new_row(alloc, sender, nodes)?;
            rows.push(lines)?;
            senders.push(send)?;
            receivers = widened(alloc, receivers, takes)?;
        }
        Ok(Opened {
            bus: Bus { rt, rows },
            senders,
            receivers,
        })
    }
}
