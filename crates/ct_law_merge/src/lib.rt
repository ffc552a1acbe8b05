//! What the merge of a round keeps, whatever the order of the pulls, and the three merges over all pulls at once.
#![tactic(auto)]

pub mod laws;
pub mod merges;
