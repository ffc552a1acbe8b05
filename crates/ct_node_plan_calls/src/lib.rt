//! What comes of a client's call at a node, as a plan: of a record, of a commit, of an unlock.
#![tactic(auto)]

pub mod calls;
pub mod client;
pub mod commits;
pub mod pairs;
pub mod unlocks;
