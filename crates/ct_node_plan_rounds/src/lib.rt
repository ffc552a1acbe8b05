//! What a node plans as the leader of a round of recovery.
#![tactic(auto)]

pub mod leading;
