//! A node serves: it takes what comes over a link and what its script has, and sends what it then does.
#![tactic(auto)]

pub mod fault;
mod items;
mod part;
mod pieces;
pub mod serve;
