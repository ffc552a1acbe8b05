//! What a line of a scenario has as its effect, and the text of it.
#![tactic(auto)]

pub mod text;
pub mod what;
