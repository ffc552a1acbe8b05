//! The texts of the `ctdb` commands that show what one node has and knows.
#![tactic(auto)]

pub mod command;
pub mod databases;
mod lines;
mod nodes;
