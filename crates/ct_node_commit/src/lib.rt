//! What a node planned is done.
#![tactic(auto)]

pub mod commit;
