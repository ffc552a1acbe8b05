//! What the program is told to do: its words, read.
#![tactic(auto)]

pub mod command;
pub mod words;
