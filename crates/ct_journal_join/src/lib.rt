//! The join of journals: the steps of the cluster that make the entries of journals in order.
//!
//! `join::join_in_order` puts journals in order and makes the steps; `schedule::schedule` makes those of an order, entry by entry;
//! `scheduler` is how far they are made, and `queues` what was sent and has not arrived.
#![tactic(auto)]

pub mod join;
pub mod queues;
pub mod schedule;
pub mod scheduler;
