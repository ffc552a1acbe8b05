//! Queues between each two of so many nodes, each of which hands over what was posted to it in order, whole and once.
//!
//! A bus has a queue of 64 places for each ordered pair of nodes. A node posts from its `SendSeat`, and polls from its
//! `ReceiveSeat`; the two may be in different threads.
//!
//! ```
//! let opening::Opened { bus, mut senders, mut receivers } = Bus::new(&rt, alloc, 2)?;
//! let place = bus.post(&mut senders[0], 1, service, body);
//! let message = bus.poll(&mut receivers[1], 0);
//! bus.settle_up(senders, receivers);
//! ```
#![tactic(auto)]

pub mod bus;
pub mod ends;
pub mod line;
pub mod message;
pub mod opening;
pub mod seat;
mod settling;
