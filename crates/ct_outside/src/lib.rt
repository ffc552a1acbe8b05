//! The outside: where bytes come from and go to, in memory and over std's readers and writers; pieces between nodes; the
//! recovery lock; gates; and lists of what a link or a gate was asked.
#![tactic(auto)]

pub mod adapters;
pub mod fault;
pub mod gate;
pub mod link;
pub mod listing;
pub mod lock;
pub mod memory;
pub mod memory_link;
pub mod memory_lock;
pub mod sink;
pub mod source;
