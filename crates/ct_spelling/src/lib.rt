//! One spelling of bytes and of numbers, exact both ways.
#![tactic(auto)]

pub mod number;
pub mod spelling;
