//! The join of any journals that are runs: the steps of a cluster that make their entries, or how far such steps reach at most.
//!
//! `joined::join` joins journals; `reach` makes their entries one by one, as long as one may be made; `going` says whether an entry
//! may be made next, and `making` by which steps.
//!
//! It is for callers of the library that have journals from elsewhere: the program joins those of its own nodes, which are in an
//! order that it knows, by ct_join.
#![tactic(auto)]

pub mod going;
pub mod joined;
pub mod making;
pub mod reach;
