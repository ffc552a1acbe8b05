//! A node that plays a plan and keeps its journal.
//!
//! A node that keeps its journal: what it was given and did, entry by entry, since the opening of the cluster.
//!
//! The only node of a cluster is asked for a record of its database at place 1. Its journal has one entry:
//!
//! ```
//! let mut node = Node::new(alloc, 0, &config)?;
//! let op = ClientOp::Lock {
//!     db: 1,
//!     key: Key::new(alloc, b"k")?,
//! };
//! node.feed(&table, Event::Client { call: 1, op })?;
//! assert!(rt; node.entries().len() == 1);
//! ```
//!
//! What a node does next: it takes the items of its script, and the messages that arrive.
//!
//! A node whose script has one call takes it, and its journal has one entry:
//!
//! ```
//! let mut node = Node::new(alloc, 0, &config)?;
//! let mut cue = Cue::first(node.entries());
//! take_call(&mut node, &table, &mut cue, op)?;
//! assert!(rt; node.entries().len() == 1);
//! ```
//!
//! Messages that wait for their receivers, in one queue a node.
//!
//! One node of a plan, which follows its script.
#![tactic(auto)]

pub mod acting;
pub mod node;
pub mod queue;
pub mod seat;
