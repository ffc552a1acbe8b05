//! Every node of a cluster is in form, with its addresses and the calls that wait.
//!
//! A node knows the places of exactly the addresses of the configuration, and every step keeps it so.
//!
//! The calls that wait at a node have numbers below that of the next call: laws of the definitions.
//!
//! Every node of a cluster is in form, and every message that was ever sent keeps its rules: laws of the definitions.
#![tactic(auto)]

pub mod call_laws;
pub mod cluster_laws;
pub mod placed_laws;
