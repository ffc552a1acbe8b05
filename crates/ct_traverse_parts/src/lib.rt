//! The parts of a traverse: the rows that a node answers, what is kept of each key, its messages, and the lines that it prints.
#![tactic(auto)]

pub mod best;
pub mod kept;
pub mod laws;
pub mod line;
pub mod part;
pub mod post;
pub mod rows;
pub mod text;
pub mod traverse;
