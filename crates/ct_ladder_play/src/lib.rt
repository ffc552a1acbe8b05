//! Plays a scenario into a ladder, and writes its picture.
#![tactic(auto)]

pub mod laws;
pub mod playing;
pub mod running;
