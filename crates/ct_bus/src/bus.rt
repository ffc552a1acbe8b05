//! A bus: the queues of all pairs of nodes.
ghost use Rattle.std.specs.Prelude.{◌≡◌, ◌≢◌, ◌≤◌, ◌<◌, ◌^◌, ℕ, ◌++◌, ◌∷◌, [], length, map, slice_set, slice_get, Some, IfOk, MatchResult, MatchOption};
ghost use Rattle.ct_bus.specs.Ends.{out_queue, taken_from};
ghost use Rattle.ct_bus.specs.Relay.{message, IsFront};
ghost use Rattle.ct_bus.specs.Seats.{AreFronts, AreNew, AreSeats, AreSending, IsReceiving, IsSending, Shown, messages_of, posted_at, posted_by, receiving, sending, taken_at, taken_by};

use crate::ends::TakeEnd;
use crate::line::Line;
use crate::message::Message;
use crate::seat::{ReceiveSeat, SendSeat};
use ct_values::items::Items;
use ct_values::value::Value;
use std::marker::Model;
use std::sync::Wait;

/// The queue of each node to each, by the node that posts and then by the one that takes. Those of a node to itself are never
/// used. Contracts see which queues they are.
#[derive(Drop)]
pub struct Bus<R> {
    pub(crate) rt: R,
    pub(crate) rows: Items<Items<Line>>,
}

impl<R> Model for Bus<R> {
    ghost use Rattle.atomic_table.specs.Seated.{table_id_coded};
    ghost use base.Stored.{coded_list};
    ghost use Rattle.ct_bus.specs.Seats.{Queues};

    ghost Value = { Queues };

    ghost coded = { coded_list (coded_list table_id_coded) };

    ghost view = { λ b. b.rows };
}

impl<R: Wait> Bus<R> {
    /// Posts a message to another node, and answers its place: how many were posted to that node before. The body comes back,
    /// and nothing changes, only where that queue was full at one moment of this call. What a clause can say of that moment
    /// is that at least 64 messages had been posted. It takes no memory.
    #[tactic(auto, using(crate::proofs::Seats::queues_stay, crate::proofs::Seats::posted_there))]
    pub fn post(
        &self,
        seat: &mut SendSeat,
        receiver: u32,
        srvid: u64,
        body: Value,
    ) -> Result<u64, Value>
        requires seat { IsSending self.now (sending seat.old) }
        requires receiver { (receiver < length self.now) × (receiver ≢ seat.old.me) }
        requires room { length (posted_at receiver seat.old) < 2 ^ 61 }
        ensures seat { ((sending seat.new).node ≡ (sending seat.old).node) × ((sending seat.new).queues ≡ (sending seat.old).queues) }
        ensures posted { MatchResult result
            (λ place. (place ≡ length (posted_at receiver seat.old)) × (posted_by seat.new ≡ slice_set (posted_by seat.old) receiver (posted_at receiver seat.old ++ message srvid place body ∷ [])))
            (λ back. (back ≡ body) × (posted_by seat.new ≡ posted_by seat.old) × (64 ≤ length (posted_at receiver seat.old))) }
    {
        let me = seat.me as usize;
        let place = receiver as usize;
        let row = self.rows.as_slice()[me].as_slice();
        row[place].post(&self.rt, &mut seat.ends[place], srvid, body)
    }

    /// Takes the first message that waits from another node. None, and nothing changes, only where that queue was empty at one
    /// moment of this call. It takes no memory.
    #[tactic(auto, using(crate::proofs::Fronts::column_many, crate::proofs::Seats::outs_stay))]
    pub fn poll(&self, seat: &mut ReceiveSeat, sender: u32) -> Option<Message>
        requires seat { IsReceiving self.now (receiving seat.old) }
        requires sender { (sender < length self.now) × (sender ≢ seat.old.me) }
        ensures seat { ((receiving seat.new).node ≡ (receiving seat.old).node) × ((receiving seat.new).queues ≡ (receiving seat.old).queues) }
        ensures taken { MatchOption result (taken_by seat.new ≡ taken_by seat.old)
            (λ m. taken_by seat.new ≡ slice_set (taken_by seat.old) sender (taken_at sender seat.old ++ m ∷ [])) }
    {
        let me = seat.me as usize;
        let place = sender as usize;
        let row = self.rows.as_slice()[place].as_slice();
        row[me].poll(&self.rt, &mut seat.ends[place])
    }
}
