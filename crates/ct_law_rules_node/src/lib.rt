//! What follows for the rules of every node.
//!
//! Whom the rules of one record speak to: the nodes that its state names, and no others; a law of the definitions.
#![tactic(auto)]

pub mod laws;
pub mod node_laws;
