//! One node as a machine.
//!
//! What comes of every event at a node, as a plan: each event goes to its rule, and a message that the node drops to none.
//!
//! One node as a machine: it takes an event and answers what it does. It has no clock, no threads and no input or output of
//! its own.
//!
//! The only node of a cluster, with a volatile database at place 1, is asked for the lock of a record. It answers at once,
//! with the empty value:
//!
//! ```
//! let config = config(alloc)?;
//! let table = CallTable::new(alloc);
//! let mut core = Core::new(alloc, 0, &config)?;
//! let op = ClientOp::Lock {
//!     db: 1,
//!     key: Key::new(alloc, b"k")?,
//! };
//! let outs = core.step(&table, &Event::Client { call: 1, op })?;
//! let wanted = [Out::Answer {
//!     call: 1,
//!     answer: Answer::Locked(Value::empty(alloc)),
//! }];
//! assert!(rt; outs.as_slice() == wanted.as_slice());
//! ```
//!
//! Whether an event may come to a node, as its step asks.
//!
//! A program that feeds a node from outside tests what comes, and steps:
//!
//! ```
//! if may_come(&core, &event)? {
//!     let outs = core.step(&table, &event)?;
//! }
//! ```
#![tactic(auto)]

pub mod arrivals;
pub mod coming;
pub mod events;
pub mod machine;
mod opening;
pub mod reading;
pub mod rounds;
pub mod runs;
pub mod view;
