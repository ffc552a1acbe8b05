//! Two nodes at a bus, of which the first posts to the second.
ghost use Rattle.ct_bus.specs.Seats.{receiving, sending};
ghost use Rattle.ct_cases_bus.specs.Pairs.{ArePair};

use ct_bus::bus::Bus;
use ct_bus::message::Message;
use ct_bus::opening::Opened;
use ct_bus::seat::{ReceiveSeat, SendSeat};
use ct_values::value::Value;
use std::alloc::Global;
use std::sync::Wait;
use std::test::Fail;

// A bus of two nodes, with the seat of the first to post, how often it posted, and the seat of the second to take.
#[derive(Drop)]
pub struct Pair<R> {
    bus: Bus<R>,
    send: SendSeat,
    posted: u64,
    receive: ReceiveSeat,
    ghost seats: { ArePair bus (sending send) posted (receiving receive) },
}

impl<R: Drop> Pair<R> {
    #[tactic(auto, using(crate::proofs::Seating::pair_opens))]
    pub fn open(rt: R, alloc: Global) -> Result<Pair<R>, Fail> {
        let Opened {
            bus,
            mut senders,
            mut receivers,
        } = Bus::new(rt, alloc, 2)?;
        let send = senders.remove(0);
        let receive = receivers.remove(1);
        Ok(Pair {
            bus,
            send,
            posted: 0,
            receive,
        })
    }
}

impl<R: Wait> Pair<R> {
    // The place of the message, or its body, which came back.
    #[tactic(auto, using(crate::proofs::Seating::pair_posts, crate::proofs::Seating::pair_stays))]
    pub fn post(&mut self, srvid: u64, body: Value) -> Result<u64, Value> {
        if self.posted >= 1 << 60 {
            return Err(body);
        }
        match self.bus.post(&mut self.send, 1, srvid, body) {
            Ok(place) => {
                self.posted += 1;
                Ok(place)
            }
            Err(body) => Err(body),
        }
    }

    #[tactic(auto, using(crate::proofs::Seating::pair_takes))]
    pub fn poll(&mut self) -> Option<Message> {
        self.bus.poll(&mut self.receive, 0)
    }
}
