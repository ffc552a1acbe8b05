//! A node's rules do not care which numbers client calls have, as long as they rise: with other numbers every step is the
//! same, under these numbers.
#![tactic(auto)]

pub mod laws;
