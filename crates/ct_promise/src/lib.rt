//! What is promised of every run of the cluster: statements over the definitions of nodes, cluster and registers.
#![tactic(auto)]

pub mod laws;
