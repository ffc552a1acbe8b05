//! The program's word `soak`: generated steps, and what is counted of them.
//!
//! The lines of a scenario that words of 32 bits make.
//!
//! A soak: many steps that a generator makes, and what is counted of them.
#![tactic(auto)]

pub mod soak;
pub mod soaking;
