//! Tests of crates whose proof takes long, apart from them.
//!
//! The outside, call by call, against the answers that are wanted.
//!
//! The machine of one record, event by event, against what the worked rules give.
//!
//! A node that serves, against what it must answer.
//!
//! The cluster in code, step by step, against what the rules print in worked cases.
//!
//! Lines of a scenario in their places, against what the forms say of worked cases.
//!
//! The text of what a cluster prints, and the lines that journals tell, with ample memory, against the text that is wanted.
#![tactic(auto)]

#[cfg(test)]
mod line_tests;
#[cfg(test)]
mod outside_tests;
#[cfg(test)]
mod record_tests;
#[cfg(test)]
mod serving_tests;
#[cfg(test)]
mod telling;
#[cfg(test)]
mod text_tests;
#[cfg(test)]
mod turns;
