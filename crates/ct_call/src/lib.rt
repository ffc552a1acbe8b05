//! Functions that a call may apply to a record's value, each beside the rule that its answers keep.
#![tactic(auto)]

pub mod calls;
pub mod entry;
pub mod fault;
pub mod laws;
pub mod own;
pub mod rule;
pub mod table;
