//! What a client's call is refused for at a node.
#![tactic(auto)]

mod conditions;
mod locked;
mod ops;
pub mod refusal;
