//! What a node can be asked, and what it tells of itself.
//!
//! What a node has, as it tells it in a round: rows and persistent tables.
//!
//! The calls that wait for records at a node.
//!
//! The client calls that wait at a node for their answers.
#![tactic(auto)]

pub mod entries;
pub mod pending;
pub mod rows;
pub mod waiting;
