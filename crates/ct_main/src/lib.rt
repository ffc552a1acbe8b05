//! The top call: what the program does with its words, its input and its outputs; and the same with its words as it was called,
//! its own name first, and its status.
#![tactic(auto)]

mod bus;
pub mod edge;
pub mod laws;
pub mod player;
pub mod run;
