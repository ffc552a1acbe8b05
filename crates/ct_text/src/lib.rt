//! The text of what a cluster prints.
#![tactic(auto)]

pub mod answer;
pub mod dumps;
pub mod line;
pub mod message;
pub mod note;
pub mod words;
