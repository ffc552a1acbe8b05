//! A scenario of a whole cluster, as it is played line by line.
#![tactic(auto)]

pub mod effect;
pub mod laws;
pub mod session;
mod shown;
mod stepping;
mod walking;
