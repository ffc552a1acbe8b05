//! Small runs that the registers accept, with what they show then, and small runs that they do not accept.
#![tactic(auto)]

pub mod refused;
pub mod runs;
