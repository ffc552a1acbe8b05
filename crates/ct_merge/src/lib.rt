//! What a round of recovery makes of what its members hold.
#![tactic(auto)]

pub mod held;
pub mod merged;
pub mod merging;
pub mod order;
pub mod placing;
