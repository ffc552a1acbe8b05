//! LCP2: addresses are placed on nodes so that those at one node have short common prefixes.
#![tactic(auto)]

pub mod choice;
pub mod distance;
mod failback;
pub mod laws;
mod leaver;
pub mod placement;
mod start;
mod tally;
mod vacant;
