//! Items by key: one map that contracts see, and two that keep it.
#![tactic(auto)]

pub mod calls;
pub mod hashed;
pub mod keyed;
pub mod laws;
pub mod plain;
