//! Worked steps of one record and worked runs of the cluster: the definitions, seen at work.
//!
//! Worked runs of the cluster: its definitions, seen at work message by message.
//!
//! Each function's contract is one run: a configuration, its steps, and every line that they print. The definitions are
//! computed, so a rule that says something else makes the run fail.
#![tactic(auto)]

pub mod runs;
pub mod steps;
