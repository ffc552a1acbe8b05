//! One database at one node: the states of its keys, with the keys of deleted records noted for the next vacuum, or the
//! pairs of a persistent one and the commit that waits.
#![tactic(auto)]

pub mod database;
