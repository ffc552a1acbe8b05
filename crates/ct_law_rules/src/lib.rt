//! What follows for the rules of one record, whatever comes: a state in form stays so, numbers grow alone, only holders
//! track nodes, and what is sent keeps the rules of its fields.
//!
//! `specs/` has what a state in form is and what the laws say, `laws` the laws.
#![tactic(auto)]

pub mod laws;
