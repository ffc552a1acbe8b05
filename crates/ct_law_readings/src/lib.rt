//! What a step does to what is read of a record: it adds one version at most. And what is fresh was read.
#![tactic(auto)]

pub mod fresh;
pub mod laws;
