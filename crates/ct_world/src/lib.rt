//! The cluster in code: its nodes as machines, every message that was sent, the recovery lock, why a step is refused, and
//! what comes of one that is not.
#![tactic(auto)]

pub mod faults;
mod feed;
mod lines;
mod parts;
mod steps;
pub mod view;
pub mod world;
