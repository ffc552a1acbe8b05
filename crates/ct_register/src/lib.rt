//! What a reader of the cluster is promised: the registers of every record and persistent database in every generation, and
//! which labels they accept.
#![tactic(auto)]

pub mod laws;
