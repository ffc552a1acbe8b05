//! The law of traverses: whatever the cluster does meanwhile, and whichever of their messages are lost or come again, what a traverse
//! shows was read since it began.
#![tactic(auto)]

pub mod laws;
