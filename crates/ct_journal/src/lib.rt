//! Journals: what nodes were given and did, entry by entry; and when the journals of all nodes are those of one run.
#![tactic(auto)]

pub mod journal;
pub mod laws;
pub mod worked;
