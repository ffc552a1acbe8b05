//! Persistent databases: the pairs at one node with the number of the last commit, and a commit that waits for the other
//! members.
#![tactic(auto)]

pub mod commit;
pub mod laws;
pub mod store;
mod writes;
