//! Journals in order: whether all entries of journals stand in one list, in which messages arrive as they were sent.
#![tactic(auto)]

pub mod counts;
pub mod demand;
pub mod demands;
pub mod letter;
pub mod order;
pub mod same;
pub mod standing;
