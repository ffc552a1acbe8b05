//! What a node admits: which nodes and databases a message names, and whether it is sound.
#![tactic(auto)]

pub mod admission;
pub mod named;
pub mod sound;
