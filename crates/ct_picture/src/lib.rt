//! A picture of a run: a lifeline a node, a row a line of the run, and an arrow a message.
#![tactic(auto)]

pub mod drawing;
pub mod reading;
pub mod row;
pub mod running;
pub mod shape;
pub mod svg;
