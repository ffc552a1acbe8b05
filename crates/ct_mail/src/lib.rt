//! Every message that was sent in a cluster, with what became of it.
#![tactic(auto)]

pub mod mail;
pub mod sent;
