//! The rules of one record at one node: what the node keeps of it, and what comes of each event, as definitions.
//!
//! The types are declared here because the rules speak of them. The rules stand in `specs/`: `Parts` has the parts that
//! the rules are made of, `Messages` what comes of each message, and `Moves` the rule of every event. `runs` has worked steps.
#![tactic(auto)]

pub mod event;
pub mod state;
