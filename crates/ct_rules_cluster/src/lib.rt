//! The whole cluster, as definitions: its nodes, the messages between them, and what each step does to them.
//!
//! The types of a step are declared here because the definitions speak of them. The definitions stand in `specs/`:
//! `Cluster` is the state, `Faults` what is refused, `Steps` what comes of a step, and `Traces` what a run tells.
#![tactic(auto)]

pub mod step;
