//! A schedule as text: from journals alone, or from a run of the cluster.
//!
//! The lines of the run that journals in order make, told from their entries alone.
//!
//! The lines that are told from journals alone are those of the run that the journals make.
//!
//! `specs/Laws` says so, `laws` is the law.
//!
//! A schedule: steps of a cluster that are played one after the other, their lines, the calls that wait at the end, and what
//! is counted of them.
#![tactic(auto)]

pub mod laws;
pub mod schedule;
pub mod telling;
