//! Troupes that play with a thread for each node, over boxes in memory or over sockets.
//!
//! A plan is played with its nodes side by side, each in a thread of its own.
//!
//! A plan is played with a thread for each node.
//!
//! ```
//! let mut threads = Threads::new(rt, alloc, gates);
//! threads.play(alloc, &table, &plan)?;
//! let journals = threads.journals();
//! ```
//!
//! A plan is played by nodes that are joined by TCP over this machine, with a thread for each of them.
//!
//! ```
//! let mut loopback = Loopback::new(rt, alloc);
//! loopback.play(alloc, &table, &plan)?;
//! let journals = loopback.journals();
//! ```
//!
//! Columns that are played side by side: each in a thread of its own, and in it each of its nodes.
//!
//! ```
//! let mut troupe = ColumnThreads::new(rt, both, columns);
//! troupe.play_all(alloc, &table, plans.as_slice())?;
//! let journals = troupe.column(0);
//! ```
#![tactic(auto)]

pub mod beside;
pub mod column;
pub mod column_gate;
pub mod column_threads;
pub mod gate;
pub mod last_play;
pub mod loopback;
pub mod meshed;
mod node;
mod seated;
pub mod settled;
pub mod side;
pub mod threaded;
pub mod threads;
