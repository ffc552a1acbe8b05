//! Journals that nodes write as they play: in order, with rising numbers.
//!
//! What follows where nodes follow their scripts: the numbers of their calls rise, and each call may come.
//!
//! Journals that grow entry by entry, where messages wait in queues, are in order.
#![tactic(auto)]

pub mod cue_laws;
pub mod growing_laws;
