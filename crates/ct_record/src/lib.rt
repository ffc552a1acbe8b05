//! The machine of one record. What comes of each message and of each event is a function over a draft of the record,
//! which changes it by exactly its rule; `machine::step` puts the draft in place of the record.
#![tactic(auto)]

pub mod machine;
mod messages;
pub mod moves;
mod phases;
mod readers;
