//! How a bus is settled up, when all is posted and taken.
ghost use Rattle.std.specs.Prelude.{◌≡◌, ◌<◌, length, map, slice_get, Some};
ghost use Rattle.ct_bus.specs.Ends.{out_queue, taken_from};
ghost use Rattle.ct_bus.specs.Relay.{IsFront};
ghost use Rattle.ct_bus.specs.Seats.{AreFronts, AreFrontsTo, AreSeats, AreSending, IsReceiving, IsSending, messages_of, receiving, sending};

use crate::bus::Bus;
use crate::ends::TakeEnd;
use crate::seat::{ReceiveSeat, SendSeat};

impl<R> Bus<R> {
    /// What this node took of that sender is a front of what that one posted to it.
    fn settle_pair(&self, seat: &mut SendSeat, receiver: usize, take: TakeEnd)
        requires seat { IsSending self.now (sending seat.old) }
        requires receiver { receiver < length self.now }
        requires take { slice_get (sending seat.old).queues receiver ≡ Some (out_queue take) }
        ensures same { sending seat.new ≡ sending seat.old }
        ensures front { IsFront (taken_from take) (messages_of receiver (sending seat.old).messages) }
    {
        let me = seat.me as usize;
        let row = self.rows.as_slice()[me].as_slice();
        row[receiver].settle(&mut seat.ends[receiver], take);
    }

    /// What a node took of each sender is a front of what that one posted to it.
    fn settle_receiver(&self, senders: &mut Vec<SendSeat>, receiver: ReceiveSeat)
        requires senders { AreSending self.now (map sending senders.old.items) }
        requires receiver { IsReceiving self.now (receiving receiver) }
        ensures same { map sending senders.new.items ≡ map sending senders.old.items }
        ensures fronts { AreFrontsTo (receiving receiver).node (map sending senders.old.items) (receiving receiver).messages }
    {
        let ReceiveSeat { me, ends } = receiver;
        let mut sender = 0;
        for take in ends {
            self.settle_pair(&mut senders[sender], me as usize, take);
            sender += 1;
        }
    }
}

impl<R: Drop> Bus<R> {
    /// Takes in all seats: of each pair of nodes, what was taken is a front of what was posted, and nothing is posted any more.
    /// It takes no memory.
    pub fn settle_up(self, senders: Vec<SendSeat>, receivers: Vec<ReceiveSeat>)
        requires { AreSeats self senders.items receivers.items }
        ensures { AreFronts (map sending senders.items) (map receiving receivers.items) }
    {
        let mut senders = senders;
        for receiver in receivers {
            self.settle_receiver(&mut senders, receiver);
        }
    }
}
