//! What nodes tell each other: headers and frames, events and what comes of them, rounds and plans, and the rules of a
//! frame's fields.
#![tactic(auto)]

pub mod event;
pub mod frame;
pub mod header;
pub mod order;
pub mod round;
