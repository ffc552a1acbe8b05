//! Journals that are runs and are in order come from one run of the cluster: they have a schedule, and it is made of their
//! order.
//!
//! `specs/Scheduling` has the steps that are made of the order, `laws` the law.
#![tactic(auto)]

pub mod laws;
