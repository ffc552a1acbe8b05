//! The lines of a scenario: what they are, and how they are read.
#![tactic(auto)]

pub mod laws;
pub mod line;
pub mod parse;
pub mod places;
pub mod print;
pub mod words;
