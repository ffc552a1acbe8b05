//! What the nodes leave, once all have served.
ghost use Rattle.std.specs.Prelude.{◌≡◌, map, IfOk, Some};

use crate::work::Work;
use ct_bus::seat::{ReceiveSeat, SendSeat};
use ct_bus_exchange::handled::Handled;
use ct_values::items::Items;
use ct_values::memory::NoMemory;
use std::alloc::Global;

/// The seats of all nodes, and what each handled.
#[derive(Drop)]
pub struct Parts {
    pub senders: Vec<SendSeat>,
    pub receivers: Vec<ReceiveSeat>,
    pub done: Vec<Items<Items<Handled>>>,
}

/// The works taken apart, where each node could handle what came.
pub fn take_apart(alloc: Global, works: Vec<Work>) -> Result<Parts, NoMemory>
    ensures senders { IfOk result (λ p. p.senders.items ≡ map (λ w. w.send) works.items) }
    ensures receivers { IfOk result (λ p. p.receivers.items ≡ map (λ w. w.receive) works.items) }
    ensures done { IfOk result (λ p. map (λ v. Some v) p.done.items ≡ map (λ w. w.done) works.items) }
{
    let mut senders = Vec::new(alloc);
    let mut receivers = Vec::new(alloc);
    let mut all = Vec::new(alloc);
    for work in works {
        let Work {
            send,
            receive,
            done,
            ..
        } = work;
        let Some(done) = done else {
            return Err(NoMemory);
        };
        senders.push(send)?;
        receivers.push(receive)?;
        all.push(done)?;
    }
    Ok(Parts {
        senders,
        receivers,
        done: all,
    })
}
